//! Rows of remaining totals: how wide they are, what they mark, and how looks at them are counted;
//! and rows of bytes joined with shifted ones.

ghost use Rattle.std.specs.Prelude.{◌<◌, ◌≤◌, IsTrue, length};
ghost use Rattle.olr_keys.specs.Table.{count_of};

use crate::tables::{Penalties, SQUARE, TIED, small_table};
use olr_keys::{Rows, TotalsFinder, next_key, or_shifted};
use std::alloc::Global;
use std::test::Fail;

/// Whether a layer has a candidate of this rank.
fn is_candidate(rows: &Rows, layer: usize, rank: u8) -> bool
    ensures layer { IsTrue result → layer < length rows.now.penalties.candidates }
    ensures rank { IsTrue result → (1 ≤ rank) × (rank ≤ count_of rows.now.penalties layer) }
{
    layer < rows.layers() && 1 <= rank && usize::from(rank) <= rows.count(layer)
}

/// What a look at a step to a candidate answers.
fn step(
    rows: &mut Rows,
    layer: usize,
    before: Option<u8>,
    rank: u8,
    rest: u16,
) -> Result<Option<u16>, Fail> {
    if !is_candidate(rows, layer, rank) {
        return Err(Fail::new("no such candidate"));
    }
    let Some(first) = before else {
        if layer == 0 {
            return Ok(rows.test(layer, None, rank, rest));
        }
        return Err(Fail::new("no candidate before it"));
    };
    if layer == 0 || !is_candidate(rows, layer - 1, first) {
        return Err(Fail::new("no such candidate before it"));
    }
    Ok(rows.test(layer, Some(first), rank, rest))
}

/// A table, a layer, the ranks of the candidate before and of its own, and the rests up to 15 with
/// which there is a step to that candidate, each with what is left then.
type Case<'a> = (Penalties<'a>, usize, Option<u8>, u8, &'a [(u16, u16)]);

/// Whether there is a step to a candidate with just these rests.
fn has_steps(alloc: Global, case: Case<'_>) -> Result<bool, Fail> {
    let (penalties, layer, before, rank, wanted) = case;
    let table = small_table(alloc, penalties)?;
    let mut rows = Rows::build(alloc, &table)?;
    for rest in 0..=15 {
        let left = step(&mut rows, layer, before, rank, rest)?;
        let found = wanted.iter().find(|pair| pair.0 == rest);
        if left != found.map(|pair| pair.1) {
            return Ok(false);
        }
    }
    Ok(true)
}

/// Steps to candidates.
const STEPS: &[Case<'static>] = &[
    (SQUARE, 0, None, 1, &[(0, 0), (5, 5)]),
    (SQUARE, 0, None, 2, &[(5, 0), (10, 5)]),
    (SQUARE, 1, Some(1), 1, &[(0, 0)]),
    (SQUARE, 1, Some(2), 2, &[(5, 0)]),
    (TIED, 0, None, 1, &[(2, 2), (3, 3)]),
    (TIED, 0, None, 2, &[(1, 0)]),
    (TIED, 1, Some(1), 1, &[(3, 0)]),
    (TIED, 1, Some(1), 2, &[]),
    (TIED, 1, Some(1), 3, &[(2, 0)]),
    (TIED, 1, Some(2), 1, &[(0, 0)]),
    (TIED, 1, Some(2), 3, &[]),
];

/// Whether looks at steps and at a total of [`SQUARE`] are answered, and are counted.
fn counts_looks(alloc: Global) -> Result<bool, Fail> {
    let table = small_table(alloc, SQUARE)?;
    let mut rows = Rows::build(alloc, &table)?;
    let are_counted = rows.probes() == 0
        && step(&mut rows, 0, None, 2, 10)? == Some(5)
        && step(&mut rows, 1, Some(1), 2, 5)? == Some(0)
        && step(&mut rows, 1, Some(1), 1, 5)?.is_none()
        && !rows.total(7)
        && rows.probes() == 4;
    let first = next_key(&mut rows, None);
    Ok(are_counted && first.is_some_and(|key| key.ranks.as_slice() == [1, 1].as_slice()))
}

/// How many layers there are, how many candidates in the last one, and the bytes of a row and of
/// all rows at most: one row more than those of so many candidates in each layer.
type Sizes = [usize; 4];

/// Whether the sizes of the rows of a table are these.
fn has_sizes(
    alloc: Global,
    penalties: Penalties<'_>,
    [layers, last, width, most]: Sizes,
) -> Result<bool, Fail> {
    let table = small_table(alloc, penalties)?;
    let rows = Rows::build(alloc, &table)?;
    let (count, bytes) = (rows.layers(), rows.bytes());
    Ok(
        count == layers
            && rows.count(count - 1) == last
            && rows.width() == width
            && bytes <= most
            && bytes == TotalsFinder::build(alloc, &table)?.row_bytes(),
    )
}

#[test]
fn marks_remaining_totals(rt: HostRuntime) -> Result<(), Fail> {
    for &case in STEPS {
        assert!(rt; has_steps(rt.alloc(), case)?, "{case:?}");
    }
    assert!(rt; counts_looks(rt.alloc())?);
    assert!(rt; has_sizes(rt.alloc(), SQUARE, [2, 2, 11, 55])?);
    assert!(rt; has_sizes(rt.alloc(), TIED, [2, 3, 7, 49])?);
    Ok(())
}

#[test]
fn joins_rows_with_shifted_ones(rt: HostRuntime) {
    for (k, wanted) in [(0, [1, 1, 1, 0]), (1, [0, 1, 0, 1]), (4, [0, 1, 0, 0])] {
        let mut row = [0, 1, 0, 0];
        or_shifted(&mut row, &[1, 0, 1, 0], k);
        assert!(rt; row == wanted, "{k}");
    }
}
