//! The finder with bounds, which leaves what can't hold the next key.

ghost use Rattle.std.specs.Prelude.{◌≡◌, ◌≤◌, ◌<◌, ◌+◌, ◌*◌, ◌⊎◌, length};
ghost use Rattle.std.specs.Prelude.{Decides, IfOk, IfSome, IsOk, MatchOption, Some, option_map};
ghost use Rattle.olr_keys.specs.Answers.{AreAnswers};
ghost use Rattle.olr_keys.specs.AnswersOf.{answers_of};
ghost use Rattle.olr_keys.specs.Bounds.{HasNoCompletionBy, IsHeldBefore, IsLeft};
ghost use Rattle.olr_keys.specs.Bounds.{IsLonger, IsLowerBound};
ghost use Rattle.olr_keys.specs.Finder.{IsAfter, IsLeastOf, IsNext, IsPosition};
ghost use Rattle.olr_keys.specs.Product.{Completes, IsBeginning, IsHeld, IsJoined};
ghost use Rattle.olr_keys.specs.Table.{IsTable, count_of, max_leg, max_step, max_total};

use crate::before::comes_before;
use crate::beginning::Beginning;
use crate::bound_table::Bounds;
use crate::finder::Finder;
use crate::key::Key;
use crate::matching::is_key;
use crate::product::lesser;
use crate::table::Table;
use olr_base::NoMemory;
use std::alloc::Global;

/// The finder that keeps the least remaining total of each candidate beside its table.
///
/// It goes down through the layers in the order of ranks and holds the least key found so far that
/// comes after the given one. It leaves a beginning of a combination only where it can't be
/// completed, or where a key is held and each completion comes after it: the least total is
/// greater than that of the key, or it is the same and the ranks come later. It finds no keys
/// ahead.
#[derive(Drop)]
pub struct BoundFinder<'a> {
    bounds: Bounds<'a>,
}

impl<'a> BoundFinder<'a> {
    /// The finder of the keys of a table, which makes the table of least remaining totals.
    ///
    /// # Errors
    ///
    /// [`NoMemory`] where the allocator refused memory.
    pub fn build(alloc: Global, table: &'a Table) -> Result<BoundFinder<'a>, NoMemory>
        ensures answers { IfOk result
            (λ finder. AreAnswers table.now (⟦<BoundFinder<'a> as Finder>⟧.answers finder)) }
    {
        let bounds = Bounds::build(alloc, table)?;
        Ok(BoundFinder { bounds })
    }
}

impl<'a> Finder for BoundFinder<'a> {
    ghost use Rattle.olr_keys.specs.AnswersOf.{answers_of};
    ghost use Rattle.olr_keys.specs.Rise.{answers_rise};

    ghost answers = { λ finder. answers_of finder.bounds };

    ghost rise = { λ finder. answers_rise finder.bounds };

    fn check(&self, key: &Key) -> bool {
        is_key(self.bounds.table(), key)
    }

    #[tactic(auto, using(crate::proofs::FromStart::next_of))]
    fn next(&mut self, _alloc: Global, after: Option<&Key>) -> Result<Option<Key>, NoMemory>
        requires { IsPosition (answers_of self.old.bounds) (option_map (λ key. key.now) after) }
        ensures next { IfOk result
            (IsNext (answers_of self.old.bounds) (option_map (λ key. key.now) after.entry)) }
        ensures same { answers_of self.new.bounds ≡ answers_of self.old.bounds }
        ensures never_fails { IsOk result }
    {
        Ok(least_from(&self.bounds, Beginning::new(), after, None))
    }
}

/// A step to a candidate.
#[derive(Clone, Copy)]
struct Step {
    /// The sum of the penalties of the candidate and of the leg to it.
    sum: u16,
    /// The least total of what begins with this leg.
    least: u16,
}

/// The step to a candidate; `None` where no completion begins with it.
#[tactic(auto, using(crate::proofs::Bounding::bound_at_most))]
fn step_to(bounds: &Bounds, layer: usize, before: Option<u8>, rank: u8) -> Option<Step>
    requires layer { layer < length bounds.now.candidates }
    requires before { IfSome before (λ first. (1 ≤ layer) × (1 ≤ first)) }
    requires rank { (1 ≤ rank) × (rank ≤ count_of bounds.now layer) }
    ensures step { MatchOption result (HasNoCompletionBy bounds.now layer before rank)
        (λ step. IsJoined bounds.now layer before rank step.sum
        × IsLowerBound bounds.now layer before rank step.least) }
    ensures at_most { IfSome result (λ step. (step.sum ≤ max_step)
        × (step.least ≤ max_total + max_leg)) }
    ensures sound { IsTable bounds.now }
{
    let joined = bounds.table().joined(layer, before, rank)?;
    let Some(least) = bounds.least(layer, rank) else {
        return None;
    };
    Some(Step {
        sum: joined.leg + joined.penalty,
        least: joined.leg + least,
    })
}

/// Whether a key is held, and comes before this total and these ranks.
fn is_held_before(held: &Option<Key>, total: u16, ranks: &[u8]) -> bool
    ensures { Decides result (IsHeldBefore held.now
        record { total = total; ranks = ranks.now }) }
{
    let Some(held) = held else {
        return false;
    };
    comes_before(held, total, ranks)
}

/// The beginning with the candidate of this rank in the next layer; `None` where it is left: it
/// can't be completed, or each key that completes it comes after the one held.
fn longer(bounds: &Bounds, beginning: &Beginning, rank: u8, held: &Option<Key>) -> Option<Beginning>
    requires layer { length beginning.now.ranks.items < length bounds.now.candidates }
    requires before { IfSome beginning.now.before
        (λ first. (1 ≤ length beginning.now.ranks.items) × (1 ≤ first)) }
    requires rank { (1 ≤ rank)
        × (rank ≤ count_of bounds.now (length beginning.now.ranks.items)) }
    requires total { beginning.now.total ≤ max_step * length beginning.now.ranks.items }
    ensures { MatchOption result
        (IsLeft bounds.now beginning.now.before beginning.now.total beginning.now.ranks.items
        rank held.now)
        (λ more. (more.before ≡ Some rank)
        × IsLonger bounds.now beginning.now.before beginning.now.total beginning.now.ranks.items
        rank more.total more.ranks.items) }
{
    let Some(step) = step_to(bounds, beginning.ranks.len(), beginning.before, rank) else {
        return None;
    };
    let more = beginning.longer(rank, step.sum);
    if is_held_before(held, beginning.total + step.least, more.ranks.as_slice()) {
        return None;
    }
    Some(more)
}

/// The least key that comes after `after` and completes a beginning of a matching, or the key held
/// so far, if it is less.
#[tactic(auto, using(crate::proofs::Beginnings::least_at_end, crate::proofs::Beginnings::least_of_all))]
fn least_from(
    bounds: &Bounds,
    beginning: Beginning,
    after: Option<&Key>,
    held: Option<Key>,
) -> Option<Key>
    requires layers { length beginning.ranks.items ≤ length bounds.now.candidates }
    requires before { IfSome beginning.before
        (λ first. (1 ≤ length beginning.ranks.items) × (1 ≤ first)) }
    requires total { beginning.total ≤ max_step * length beginning.ranks.items }
    requires keys { IsBeginning bounds.now beginning.before beginning.total beginning.ranks.items }
    ensures { IsLeastOf (λ key. IsHeld held key
        ⊎ (Completes bounds.now beginning.before beginning.total beginning.ranks.items key
        × IsAfter (option_map (λ at. at.now) after.entry) key)) result }
{
    let layer = beginning.ranks.len();
    if layer == bounds.layers() {
        let key = Key {
            total: beginning.total,
            ranks: beginning.ranks,
        };
        return lesser(key, after, held);
    }
    let mut least = held;
    for index in 0..bounds.count(layer) {
        let rank = index as u8 + 1;
        if let Some(more) = longer(bounds, &beginning, rank, &least) {
            least = least_from(bounds, more, after, least);
        }
    }
    least
}
