//! Tables of 32 layers, whose combinations no search can go through: the next key, and how many
//! looks at the rows it takes; and the first page.

use crate::tables::{Runs, cursor_of, long_table, text_of};
use olr_keys::{BoundFinder, Cursor, Finder, Key, PageSize, TotalsFinder, page};
use std::alloc::{AllocError, Global};
use std::test::Fail;

/// 64 candidates without a penalty.
const FLAT: &[u16] = &[0; 64];

/// Two candidates, the second with a penalty.
const STEEP: &[u16] = &[0, 2];

/// The next key after one of a matching, or the first one.
fn next_of(
    alloc: Global,
    finder: &mut TotalsFinder,
    after: Option<&Key>,
) -> Result<Option<Key>, Fail> {
    if let Some(key) = after {
        if !finder.check(key) {
            return Err(Fail::new("not the key of a matching"));
        }
    }
    Ok(finder.next(alloc, after)?)
}

/// The cursor of the key after that of a cursor, or of the first one where the cursor is empty;
/// empty where there is none. And by how much the count of looks at the rows rose.
fn next_after(
    alloc: Global,
    finder: &mut TotalsFinder,
    cursor: &str,
) -> Result<(String, u64), Fail> {
    let before = finder.probes();
    let found = if cursor.is_empty() {
        next_of(alloc, finder, None)?
    } else {
        next_of(alloc, finder, Some(&Cursor::parse(cursor)?.key))?
    };
    let rise = finder.probes().saturating_sub(before);
    let mut next = String::new(alloc);
    if let Some(key) = found {
        next.push_str(Cursor::write(&key, None).as_str())?;
    }
    Ok((next, rise))
}

/// The penalties of each layer, and whether the table is narrow; a key and the one after it, none
/// where there is no run; and the least and the most looks that this takes.
type Case<'a> = ((&'a [u16], bool), Runs<'a>, Runs<'a>, (u64, u64));

/// Whether that key is found in so many looks.
fn finds_next(alloc: Global, case: Case<'_>) -> Result<bool, Fail> {
    let ((penalties, is_narrow), after, wanted, (least, most)) = case;
    let (cursor, next) = (cursor_of(alloc, after)?, cursor_of(alloc, wanted)?);
    let table = long_table(alloc, penalties, is_narrow)?;
    let mut finder = TotalsFinder::build(alloc, &table)?;
    let (text, rise) = next_after(alloc, &mut finder, cursor.as_str())?;
    Ok(text.as_str() == next.as_str() && least <= rise && rise <= most)
}

/// Keys of such tables, and the keys after them.
const CASES: &[Case<'static>] = &[
    (
        (FLAT, true),
        (0, &[]),
        (0, &[(15, 1), (2, 64), (15, 1)]),
        (32, 4097),
    ),
    (
        (FLAT, true),
        (0, &[(15, 1), (2, 64), (14, 1), (1, 64)]),
        (0, &[(15, 1), (2, 64), (13, 1), (1, 2), (1, 1)]),
        (1, 4097),
    ),
    ((FLAT, true), (0, &[(32, 64)]), (0, &[]), (1, 4097)),
    (
        (STEEP, false),
        (32, &[(16, 2), (16, 1)]),
        (34, &[(15, 1), (17, 2)]),
        (1, 193),
    ),
];

#[test]
fn finds_keys_in_few_looks(rt: HostRuntime) -> Result<(), Fail> {
    for (index, &case) in CASES.iter().enumerate() {
        assert!(rt; finds_next(rt.alloc(), case)?, "case {index}");
    }
    Ok(())
}

/// The first page of ten keys of the narrow table of 64 candidates in each layer.
fn first_ten(alloc: Global) -> Result<String, AllocError> {
    let mut text = String::new(alloc);
    for last in 1..=10 {
        let cursor = cursor_of(alloc, (0, &[(15, 1), (2, 64), (14, 1), (1, last)]))?;
        text.push_str(&format!(in alloc; "{cursor} ")?)?;
    }
    text.push('+')?;
    Ok(text)
}

/// The first page of a size.
fn first_page<F: Finder>(alloc: Global, finder: &mut F, size: u32) -> Result<String, Fail> {
    let first = page(alloc, finder, None, PageSize::new(size)?)?;
    Ok(text_of(alloc, &[first])?)
}

/// The first page of that table by the finder with rows of totals.
fn by_totals(alloc: Global, size: u32) -> Result<String, Fail> {
    let table = long_table(alloc, FLAT, true)?;
    first_page(alloc, &mut TotalsFinder::build(alloc, &table)?, size)
}

/// The same by the finder with bounds.
fn by_bounds(alloc: Global, size: u32) -> Result<String, Fail> {
    let table = long_table(alloc, FLAT, true)?;
    first_page(alloc, &mut BoundFinder::build(alloc, &table)?, size)
}

/// Whether both finders give the first ten keys.
fn give_ten(alloc: Global) -> Result<bool, Fail> {
    let wanted = first_ten(alloc)?;
    let (totals, bounds) = (by_totals(alloc, 10)?, by_bounds(alloc, 10)?);
    Ok(totals.as_str() == wanted.as_str() && bounds.as_str() == wanted.as_str())
}

/// Whether both give the same 130 keys, more than the one with bounds keeps at a time.
fn give_the_same(alloc: Global) -> Result<bool, Fail> {
    let (totals, bounds) = (by_totals(alloc, 130)?, by_bounds(alloc, 130)?);
    Ok(totals.as_str() == bounds.as_str())
}

#[test]
fn takes_the_first_keys_of_a_long_table(rt: HostRuntime) -> Result<(), Fail> {
    assert!(rt; give_ten(rt.alloc())?);
    assert!(rt; give_the_same(rt.alloc())?);
    Ok(())
}
