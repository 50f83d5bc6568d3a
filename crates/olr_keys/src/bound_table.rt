//! The least remaining total of each candidate: by it a search leaves what can't be completed, or
//! only with greater totals.

ghost use Rattle.std.specs.Prelude.{◌≡◌, ◌+◌, ◌-◌, ◌<◌, ◌≤◌, IfOk, None, Some, length, map};
ghost use Rattle.std.specs.Prelude.{slice_index_or, []};
ghost use Rattle.olr_keys.specs.Bounds.{AreBoundsOf, IsBound, IsLeastNumber, IsTotalThrough};
ghost use Rattle.olr_keys.specs.Bounds.{lesser_of};
ghost use Rattle.olr_keys.specs.Table.{IsTable, count_of, penalty_at, max_penalty};

use crate::table::{Candidate, Table, list_at};
use olr_base::NoMemory;
use std::alloc::Global;
use std::marker::Model;

/// A table, and the least remaining total of each of its candidates, or `None` where the candidate
/// has no completion.
#[derive(Drop)]
pub(crate) struct Bounds<'a> {
    table: &'a Table,
    // The bounds of each layer, by how many layers follow it.
    least: Vec<Vec<Option<u16>>>,
}

impl<'a> Model for Bounds<'a> {
    ghost use Rattle.std.specs.Prelude.{length};
    ghost use Rattle.olr_keys.specs.Bounds.{AreLastBounds, lists_of};
    ghost use Rattle.olr_keys.specs.Table.{Penalties};

    ghost Value = { Penalties };

    ghost view = { λ b. b.table.now };

    ghost invariant = { λ b. AreLastBounds b.table.now (length b.table.now.candidates)
        (lists_of b.least.items) };
}

impl<'a> Bounds<'a> {
    /// The least remaining totals of a table, from the last layer backwards.
    pub(crate) fn build(alloc: Global, table: &'a Table) -> Result<Bounds<'a>, NoMemory>
        ensures { IfOk result (λ bounds. bounds ≡ table.now) }
    {
        let layers = table.layers();
        let mut least = Vec::with_capacity(alloc, layers)?;
        for later in 0..layers {
            let bounds = layer_bounds(alloc, table, layers - 1 - later, last(&least))?;
            least.push(bounds)?;
        }
        Ok(Bounds { table, least })
    }

    /// The table that they are of.
    pub(crate) fn table(&self) -> &Table
        ensures table { result.now ≡ self.now }
        ensures sound { IsTable self.now }
    {
        let _layers = self.table.layers();
        self.table
    }

    /// How many layers the table has, 2 to 32.
    pub(crate) fn layers(&self) -> usize
        ensures count { result ≡ length self.now.candidates }
        ensures sound { IsTable self.now }
    {
        self.table.layers()
    }

    /// How many candidates a layer has, 0 to 64.
    pub(crate) fn count(&self, layer: usize) -> usize
        ensures count { result ≡ count_of self.now layer }
        ensures at_most { result ≤ 64 }
    {
        self.table.count(layer)
    }

    /// The least remaining total of the candidate of this rank in a layer, `None` where it has
    /// no completion.
    pub(crate) fn least(&self, layer: usize, rank: u8) -> Option<u16>
        requires layer { layer < length self.now.candidates }
        requires rank { (1 ≤ rank) × (rank ≤ count_of self.now layer) }
        ensures { IsBound self.now layer rank result }
    {
        let bounds = list_at(&self.least, self.table.layers() - 1 - layer);
        bound_at(bounds, usize::from(rank) - 1)
    }
}

/// The bound at an index, `None` after the end.
fn bound_at(bounds: &[Option<u16>], index: usize) -> Option<u16>
    ensures { result ≡ slice_index_or bounds.now index None }
{
    *bounds.get(index)?
}

/// The last of these lists, an empty one where there is none.
fn last(least: &[Vec<Option<u16>>]) -> &[Option<u16>]
    ensures { result.now
        ≡ slice_index_or (map (λ list. list.items) least.now) (length least.now - 1) [] }
{
    list_at(least, least.len().saturating_sub(1))
}

/// The bounds of the candidates of a layer, by rank. `next` holds those of the next layer, none at
/// the last.
#[tactic(auto, using(crate::proofs::Bounding::push_bound))]
fn layer_bounds(
    alloc: Global,
    table: &Table,
    layer: usize,
    next: &[Option<u16>],
) -> Result<Vec<Option<u16>>, NoMemory>
    requires layer { layer < length table.now.candidates }
    requires next { AreBoundsOf table.now (layer + 1) next.now }
    ensures { IfOk result (λ bounds. AreBoundsOf table.now layer bounds.items) }
{
    let count = table.count(layer);
    let mut bounds = Vec::with_capacity(alloc, count)?;
    for index in 0..count {
        bounds.push(bound(table, layer, index as u8 + 1, next))?;
    }
    Ok(bounds)
}

/// The bound of a candidate. `next` holds the bounds of the next layer, none at the last.
fn bound(table: &Table, layer: usize, rank: u8, next: &[Option<u16>]) -> Option<u16>
    requires layer { layer < length table.now.candidates }
    requires rank { 1 ≤ rank }
    requires next { AreBoundsOf table.now (layer + 1) next.now }
    ensures { IsBound table.now layer rank result }
{
    let layers = table.layers();
    let penalty = table.penalty(layer, rank)?;
    if layer + 1 == layers {
        return Some(penalty);
    }
    let from = Candidate {
        layer,
        rank,
        penalty,
    };
    least_by(table, from, next)
}

/// The bound of a candidate in a layer before the last one.
#[tactic(auto, using(crate::proofs::Bounding::least_more, crate::proofs::Bounding::least_whole))]
fn least_by(table: &Table, from: Candidate, next: &[Option<u16>]) -> Option<u16>
    requires sound { IsTable table.now }
    requires layer { from.layer + 1 < length table.now.candidates }
    requires rank { 1 ≤ from.rank }
    requires penalty { penalty_at table.now from.layer from.rank ≡ Some from.penalty }
    requires next { AreBoundsOf table.now (from.layer + 1) next.now }
    ensures { IsBound table.now from.layer from.rank result }
{
    let mut least = None;
    let mut second = 0;
    for bound in next {
        second += 1;
        least = lesser(least, total_through(table, from, second, *bound));
    }
    least
}

/// The least total of a candidate with the candidate of the rank `second` in the next layer, which
/// has this bound; `None` where there is no such total.
#[tactic(auto, using(crate::proofs::Bounding::bound_at_most, crate::proofs::Completions::step_leg))]
fn total_through(table: &Table, from: Candidate, second: u8, bound: Option<u16>) -> Option<u16>
    requires sound { IsTable table.now }
    requires layer { from.layer + 1 < length table.now.candidates }
    requires ranks { (1 ≤ from.rank) × (1 ≤ second) }
    requires penalty { from.penalty ≤ max_penalty }
    requires bound { IsBound table.now (from.layer + 1) second bound }
    ensures { IsLeastNumber
        (IsTotalThrough table.now from.layer from.rank from.penalty second) result }
{
    let Some(further) = bound else {
        return None;
    };
    let leg = table.leg_to(from.layer + 1, Some(from.rank), second)?;
    Some(from.penalty + u16::from(leg) + further)
}

/// The lesser one of two numbers, if there are two, or the one that there is.
fn lesser(number: Option<u16>, other: Option<u16>) -> Option<u16>
    ensures { result ≡ lesser_of number other }
{
    let Some(one) = number else {
        return other;
    };
    let Some(two) = other else {
        return number;
    };
    Some(one.min(two))
}
