//! The pages of tables of penalties by each finder: their keys, whether more follow, and where they
//! are resumed; and the texts of cursors. Texts that aren't cursors are cases of `olr_conformance`.

use crate::tables::{EMPTY, Penalties, SQUARE, TIED, small_table, text_of};
use olr_keys::{
    BoundFinder, Cursor, Finder, Key, Mark, PageFault, PageSize, ProductFinder, TotalsFinder,
    all_pages, page,
};
use std::alloc::Global;
use std::test::Fail;

/// The page after a key, or the first one; `not here` where the key isn't that of a matching.
fn page_by<F: Finder>(
    alloc: Global,
    finder: &mut F,
    after: Option<&Key>,
    size: PageSize,
) -> Result<String, Fail> {
    match page(alloc, finder, after, size) {
        Ok(page) => Ok(text_of(alloc, &[page])?),
        Err(PageFault::CursorNotHere) => Ok(String::from_str(alloc, "not here")?),
        Err(PageFault::NoMemory) => Err(Fail::new("no memory is left")),
    }
}

/// All pages for the word `all`, else the page after a cursor, or the first page for no word.
fn pages_by<F: Finder>(
    alloc: Global,
    finder: &mut F,
    word: &str,
    size: u32,
) -> Result<String, Fail> {
    let size = PageSize::new(size)?;
    if word == "all" {
        return Ok(text_of(alloc, &all_pages(alloc, finder, size)?)?);
    }
    if word.is_empty() {
        return page_by(alloc, finder, None, size);
    }
    page_by(alloc, finder, Some(&Cursor::parse(word)?.key), size)
}

/// A table, the word `all` or a cursor, a size, and those pages.
type Case<'a> = (Penalties<'a>, &'a str, u32, &'a str);

/// The same by the plain finder, by the one with bounds and by the one with rows of totals.
fn found(alloc: Global, (penalties, word, size, _): Case<'_>) -> Result<[String; 3], Fail> {
    let table = small_table(alloc, penalties)?;
    let (mut bounds, mut totals) = (
        BoundFinder::build(alloc, &table)?,
        TotalsFinder::build(alloc, &table)?,
    );
    Ok([
        pages_by(alloc, &mut ProductFinder::new(&table), word, size)?,
        pages_by(alloc, &mut bounds, word, size)?,
        pages_by(alloc, &mut totals, word, size)?,
    ])
}

/// Tables and their pages.
const CASES: &[Case<'static>] = &[
    (TIED, "all", 1, "1:2.1 +1:2.2 +2:1.3 +3:1.1 |"),
    (TIED, "all", 2, "1:2.1 1:2.2 +2:1.3 3:1.1 |"),
    (SQUARE, "all", 2, "0:1.1 5:1.2 +5:2.1 10:2.2 |"),
    (SQUARE, "all", 5, "0:1.1 5:1.2 5:2.1 10:2.2 |"),
    (EMPTY, "all", 1000, "|"),
    (TIED, "1:2.2", 1, "2:1.3 +"),
    (TIED, "3:1.1", 1, "|"),
    // Candidates that no leg joins, and the ranks of a matching with another total.
    (TIED, "2:1.2", 1, "not here"),
    (TIED, "2:2.1", 1, "not here"),
    (SQUARE, "", 2, "0:1.1 5:1.2 +"),
    (SQUARE, "5:1.2", 2, "5:2.1 10:2.2 |"),
    (SQUARE, "10:2.2", 10, "|"),
    // No such candidate, and too many layers.
    (SQUARE, "5:1.3", 1, "not here"),
    (SQUARE, "0:1.1.1", 1, "not here"),
    (EMPTY, "", 10, "|"),
    (EMPTY, "0:1.1", 1, "not here"),
];

#[test]
fn gives_pages_by_each_finder(rt: HostRuntime) -> Result<(), Fail> {
    for &case in CASES {
        for text in &found(rt.alloc(), case)? {
            assert!(rt; text.as_str() == case.3, "{text} in place of {}", case.3);
        }
    }
    Ok(())
}

/// The mark whose digits are `0123456789abcdef` four times.
const MARK: [u8; 32] = [
    0x01, 0x23, 0x45, 0x67, 0x89, 0xab, 0xcd, 0xef, 0x01, 0x23, 0x45, 0x67, 0x89, 0xab, 0xcd, 0xef,
    0x01, 0x23, 0x45, 0x67, 0x89, 0xab, 0xcd, 0xef, 0x01, 0x23, 0x45, 0x67, 0x89, 0xab, 0xcd, 0xef,
];

/// The longest text: 166 bytes.
const LONGEST: &str =
    "14620:64.64.64.64.64.64.64.64.64.64.64.64.64.64.64.64.64.64.64.64.64.64.64.64.64.64.64.64.64.64.64.64@0123456789abcdef0123456789abcdef0123456789abcdef0123456789abcdef";

/// A text, and the total, the ranks and the mark of its cursor.
type Text<'a> = (&'a str, u16, &'a [u8], Option<Mark>);

/// Whether a text is read as that cursor, and written the same again.
fn is_read_as((text, total, ranks, mark): Text<'_>) -> bool {
    let Ok(read) = Cursor::parse(text) else {
        return false;
    };
    read.key.total == total
        && read.key.ranks.as_slice() == ranks
        && read.mark == mark
        && Cursor::write(&read.key, read.mark.as_ref()).as_str() == text
}

/// Texts, and what they are read as.
const CURSORS: &[Text<'static>] = &[
    ("0:1.1", 0, &[1, 1], None),
    ("1:2.1", 1, &[2, 1], None),
    ("10:10.9.64", 10, &[10, 9, 64], None),
    ("14620:64.64", 14_620, &[64, 64], None),
    (
        "0:1.1@0123456789abcdef0123456789abcdef0123456789abcdef0123456789abcdef",
        0,
        &[1, 1],
        Some(Mark(MARK)),
    ),
    (LONGEST, 14_620, &[64; 32], Some(Mark(MARK))),
];

#[test]
fn reads_and_writes_cursors(rt: HostRuntime) {
    assert!(rt; LONGEST.len() == 166);
    for &case in CURSORS {
        assert!(rt; is_read_as(case), "{}", case.0);
    }
}
