//! The penalties of candidates and legs.

ghost use Rattle.std.specs.Prelude.{◌≡◌, ◌≤◌, ℕ, IfOk, IfSome, MatchOption, None, Some, [], length};
ghost use Rattle.std.specs.Prelude.{map, slice_index_or};
ghost use Rattle.olr_keys.specs.Table.{IsTable, count_of, max_leg, max_penalty, penalties_of};
ghost use Rattle.olr_keys.specs.Table.{penalty_at};
ghost use Rattle.olr_keys.specs.Matching.{leg_to};
ghost use Rattle.olr_keys.specs.Product.{IsJoined};

use olr_base::NoMemory;
use std::alloc::Global;
use std::marker::Model;

/// The penalties of the candidates of each layer, and of the legs between each two neighbouring
/// layers.
///
/// It has 2 to 32 layers of 0 to 64 candidates. A candidate has a penalty of at most 360, a leg one
/// of at most 100.
#[derive(Drop)]
pub struct Table {
    candidates: Vec<Vec<u16>>,
    legs: Vec<Vec<Option<u8>>>,
}

impl Model for Table {
    ghost use Rattle.olr_keys.specs.Table.{Penalties};

    ghost Value = { Penalties };

    ghost use Rattle.olr_keys.specs.Table.{IsTable, penalties_of};

    ghost view = { λ t. penalties_of t.candidates.items t.legs.items };

    ghost invariant = { λ t. IsTable (penalties_of t.candidates.items t.legs.items) };
}

/// A candidate of a table.
#[derive(Clone, Copy)]
pub(crate) struct Candidate {
    /// Its layer, counted from 0.
    pub(crate) layer: usize,
    /// Its rank in the layer, counted from 1.
    pub(crate) rank: u8,
    /// Its penalty.
    pub(crate) penalty: u16,
}

/// A candidate that is joined to the one before it.
#[derive(Clone, Copy)]
pub(crate) struct Joined {
    /// The penalty of the leg to the candidate, 0 where there is none before it.
    pub(crate) leg: u16,
    /// The penalty of the candidate.
    pub(crate) penalty: u16,
}

impl Table {
    /// The table of these penalties of candidates, by layer and rank, and these penalties of legs:
    /// for each two neighbouring layers one entry for each pair of candidates, by the rank of the
    /// first and then by that of the second; `None` where no leg joins the two.
    ///
    /// There are 2 to 32 layers of 0 to 64 penalties that don't fall, none greater than
    /// a candidate's or a leg's can be: [`is_table`](crate::is_table) tests it.
    ///
    /// # Errors
    ///
    /// [`NoMemory`] where the allocator refused memory.
    pub fn new(
        alloc: Global,
        penalties: &[Vec<u16>],
        legs: &[Vec<Option<u8>>],
    ) -> Result<Table, NoMemory>
        requires { IsTable (penalties_of penalties.now legs.now) }
        ensures { IfOk result (λ table. table ≡ penalties_of penalties.now legs.now) }
    {
        let candidates = copy_of(alloc, penalties)?;
        let legs = copy_of(alloc, legs)?;
        Ok(Table { candidates, legs })
    }

    /// How many layers it has, 2 to 32.
    pub fn layers(&self) -> usize
        ensures count { result ≡ length self.now.candidates }
        ensures sound { IsTable self.now }
    {
        self.candidates.len()
    }

    /// The penalties of the candidates of a layer, by rank. Layers are counted from 0.
    pub(crate) fn layer(&self, layer: usize) -> &[u16]
        ensures layer { result.now ≡ slice_index_or self.now.candidates layer [] }
        ensures at_most { length result.now ≤ 64 }
    {
        list_at(&self.candidates, layer)
    }

    /// The legs from the candidates of a layer to those of the next one.
    pub(crate) fn legs_from(&self, layer: usize) -> &[Option<u8>]
        ensures { result.now ≡ slice_index_or self.now.legs layer [] }
    {
        list_at(&self.legs, layer)
    }

    /// How many candidates a layer has, 0 to 64.
    pub fn count(&self, layer: usize) -> usize
        ensures count { result ≡ count_of self.now layer }
        ensures at_most { result ≤ 64 }
    {
        self.layer(layer).len()
    }

    /// The penalty of the candidate of this rank, from 1, in a layer; `None` where there is no
    /// such candidate.
    pub(crate) fn penalty(&self, layer: usize, rank: u8) -> Option<u16>
        ensures { result ≡ penalty_at self.now layer rank }
    {
        let index = usize::from(rank).checked_sub(1)?;
        self.layer(layer).get(index).copied()
    }

    /// The penalty of the leg to the candidate of this rank in a layer from the candidate `before`
    /// it in the layer before; `None` where the two aren't joined. It is 0 where
    /// `before` is `None`.
    pub(crate) fn leg_to(&self, layer: usize, before: Option<u8>, rank: u8) -> Option<u8>
        requires before { IfSome before (λ first. (1 ≤ layer) × (1 ≤ first)) }
        requires rank { 1 ≤ rank }
        ensures { result ≡ leg_to self.now layer before rank }
    {
        let Some(first) = before else {
            return Some(0);
        };
        let index = usize::from(first - 1) * self.count(layer) + usize::from(rank - 1);
        leg_at(self.legs_from(layer - 1), index)
    }

    /// The candidate of this rank in a layer, joined to the candidate `before` it in the layer
    /// before; `None` where there is no such candidate, or the two aren't joined.
    #[tactic(auto, using(crate::proofs::Completions::layer_inside, crate::proofs::Completions::step_leg, crate::proofs::Completions::step_penalty))]
    pub(crate) fn joined(&self, layer: usize, before: Option<u8>, rank: u8) -> Option<Joined>
        requires { IfSome before (λ first. (1 ≤ layer) × (1 ≤ first)) }
        ensures joined { MatchOption result
            ((sum : ℕ) → IsJoined self.now layer before rank sum → ⊥)
            (λ joined. (leg_to self.now layer before rank ≡ Some joined.leg)
            × (penalty_at self.now layer rank ≡ Some joined.penalty)) }
        ensures at_most { IfSome result
            (λ joined. (joined.leg ≤ max_leg) × (joined.penalty ≤ max_penalty)) }
    {
        let _layers = self.layers();
        let penalty = self.penalty(layer, rank)?;
        let leg = self.leg_to(layer, before, rank)?;
        Some(Joined {
            leg: u16::from(leg),
            penalty,
        })
    }
}

/// The leg at an index of a list, `None` after its end.
fn leg_at(legs: &[Option<u8>], index: usize) -> Option<u8>
    ensures { result ≡ slice_index_or legs.now index None }
{
    *legs.get(index)?
}

/// The list at an index, an empty one after the end.
pub(crate) fn list_at<T>(lists: &[Vec<T>], index: usize) -> &[T]
    ensures { result.now ≡ slice_index_or (map (λ list. list.items) lists.now) index [] }
{
    let Some(list) = lists.get(index) else {
        return &[];
    };
    list
}

/// A copy of these lists.
fn copy_of<T: Copy>(alloc: Global, lists: &[Vec<T>]) -> Result<Vec<Vec<T>>, NoMemory>
    ensures { IfOk result (λ copies. map (λ list. list.items) copies.items
        ≡ map (λ list. list.items) lists.now) }
{
    let mut copies = Vec::new(alloc);
    for list in lists {
        copies.push(Vec::from_slice(alloc, list)?)?;
    }
    Ok(copies)
}
