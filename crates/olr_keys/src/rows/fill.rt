//! How the rows are filled, from the last layer backwards.

ghost use Rattle.std.specs.Prelude.{◌≡◌, ◌+◌, ◌<◌, ◌≤◌, IfOk, Some, length, map, replicate};
ghost use Rattle.std.specs.Prelude.{slice_index_or, [], ◌-◌};
ghost use Rattle.olr_keys.specs.Matching.{IsRemainingTotal};
ghost use Rattle.olr_keys.specs.Rows.{AreLastLayers, AreRowsOf, IsRowOf, IsTotal, bytes_of};
ghost use Rattle.olr_keys.specs.Rows.{layers_of, rows_of, width_of};
ghost use Rattle.olr_keys.specs.Table.{IsTable, penalty_at, max_total};

use crate::shifted::or_shifted;
use crate::table::{Candidate, Table, list_at};
use olr_base::NoMemory;
use std::alloc::Global;

/// Marks in an empty row the remaining totals of a candidate. `next` holds the rows of the next
/// layer, none at the last.
fn mark_row(row: &mut [u8], table: &Table, layer: usize, rank: u8, next: &[Vec<u8>])
    requires layer { layer < length table.now.candidates }
    requires rank { 1 ≤ rank }
    requires next { AreRowsOf table.now (layer + 1) (rows_of next.now) }
    requires empty { row.old ≡ replicate (width_of table.now) 0 }
    ensures { IsRowOf (IsRemainingTotal table.now layer rank) (width_of table.now) row.new }
{
    let layers = table.layers();
    let Some(penalty) = table.penalty(layer, rank) else {
        return;
    };
    if layer + 1 == layers {
        row[usize::from(penalty)] = 1;
    } else {
        let from = Candidate {
            layer,
            rank,
            penalty,
        };
        join_next(row, table, from, next);
    }
}

/// Marks in an empty row the remaining totals of a candidate in a layer before the last one: the
/// row of each candidate of the next layer to which there is a leg, moved by the penalties of the
/// candidate and of the leg.
#[tactic(auto, using(crate::proofs::Bounds::count_at_most, crate::proofs::Marking::start_row, crate::proofs::Marking::next_row))]
fn join_next(row: &mut [u8], table: &Table, from: Candidate, next: &[Vec<u8>])
    requires sound { IsTable table.now }
    requires layer { from.layer + 1 < length table.now.candidates }
    requires rank { 1 ≤ from.rank }
    requires penalty { penalty_at table.now from.layer from.rank ≡ Some from.penalty }
    requires next { AreRowsOf table.now (from.layer + 1) (rows_of next.now) }
    requires empty { row.old ≡ replicate (width_of table.now) 0 }
    ensures { IsRowOf (IsRemainingTotal table.now from.layer from.rank) (width_of table.now)
        row.new }
{
    let mut second = 0;
    for other in next {
        second += 1;
        if let Some(leg) = table.leg_to(from.layer + 1, Some(from.rank), second) {
            or_shifted(row, other, usize::from(from.penalty) + usize::from(leg));
        }
    }
}

/// The rows of the candidates of a layer, by rank. `next` holds those of the next layer, none at
/// the last.
///
/// # Errors
///
/// [`NoMemory`] where the allocator refused memory.
pub(super) fn layer_rows(
    alloc: Global,
    table: &Table,
    layer: usize,
    width: usize,
    next: &[Vec<u8>],
) -> Result<Vec<Vec<u8>>, NoMemory>
    requires layer { layer < length table.now.candidates }
    requires width { width ≡ width_of table.now }
    requires next { AreRowsOf table.now (layer + 1) (rows_of next.now) }
    ensures { IfOk result (λ rows. AreRowsOf table.now layer (rows_of rows.items)) }
{
    let count = table.count(layer);
    let mut rows = Vec::with_capacity(alloc, count)?;
    for index in 0..count {
        let mut row = vec![in alloc; 0; width]?;
        mark_row(&mut row, table, layer, index as u8 + 1, next);
        rows.push(row)?;
    }
    Ok(rows)
}

/// The row of the totals of all matchings: the rows of the first layer, joined.
///
/// # Errors
///
/// [`NoMemory`] where the allocator refused memory.
pub(super) fn totals(
    alloc: Global,
    table: &Table,
    width: usize,
    first: &[Vec<u8>],
) -> Result<Vec<u8>, NoMemory>
    requires sound { IsTable table.now }
    requires width { width ≡ width_of table.now }
    requires first { AreRowsOf table.now 0 (rows_of first.now) }
    ensures { IfOk result (λ row. IsRowOf (IsTotal table.now) (width_of table.now) row.items) }
{
    let mut row = vec![in alloc; 0; width]?;
    join_all(&mut row, table, first);
    Ok(row)
}

/// Marks in an empty row the totals of all matchings.
fn join_all(row: &mut [u8], table: &Table, first: &[Vec<u8>])
    requires sound { IsTable table.now }
    requires first { AreRowsOf table.now 0 (rows_of first.now) }
    requires empty { row.old ≡ replicate (width_of table.now) 0 }
    ensures { IsRowOf (IsTotal table.now) (width_of table.now) row.new }
{
    for index in 0..table.count(0) {
        or_shifted(row, &first[index], 0);
    }
}

/// The rows of each layer, by how many layers follow it.
///
/// # Errors
///
/// [`NoMemory`] where the allocator refused memory.
pub(super) fn marks(
    alloc: Global,
    table: &Table,
    width: usize,
) -> Result<Vec<Vec<Vec<u8>>>, NoMemory>
    requires { width ≡ width_of table.now }
    ensures { IfOk result
        (λ marks. AreLastLayers table.now (length table.now.candidates) (layers_of marks.items)) }
{
    let layers = table.layers();
    let mut marks = Vec::with_capacity(alloc, layers)?;
    for later in 0..layers {
        let rows = layer_rows(alloc, table, layers - 1 - later, width, last(&marks))?;
        marks.push(rows)?;
    }
    Ok(marks)
}

/// The last of these lists, an empty one where there is none.
pub(super) fn last(marks: &[Vec<Vec<u8>>]) -> &[Vec<u8>]
    ensures { result.now
        ≡ slice_index_or (map (λ rows. rows.items) marks.now) (length marks.now - 1) [] }
{
    list_at(marks, marks.len().saturating_sub(1))
}

/// How many bytes all rows of a table have: one row for each candidate, and one for the totals.
pub(super) fn bytes(table: &Table, width: usize) -> usize
    requires value { width ≡ width_of table.now }
    requires at_most { width ≤ max_total + 1 }
    ensures { result ≡ bytes_of table.now }
{
    let mut rows = 1;
    for layer in 0..table.layers() {
        rows += table.count(layer);
    }
    rows * width
}
