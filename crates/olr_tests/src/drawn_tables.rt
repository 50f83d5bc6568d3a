//! The three finders on drawn tables: the same keys, and as many as a program finds that goes
//! through all combinations.

use crate::tables::table_of;
use olr_keys::{BoundFinder, Finder, Key, PageSize, ProductFinder, Table, TotalsFinder, all_pages};
use std::alloc::{AllocError, Global};
use std::test::Fail;

/// Draws one of so many numbers from 0 on, by the next number of a row that begins behind 1.
fn draw(drawn: &mut u32, count: u8) -> u8 {
    *drawn = drawn.wrapping_mul(75).wrapping_add(74) % 65_537;
    (*drawn % u32::from(count.max(1))) as u8
}

/// The penalties of 0 to 3 candidates, from 0 to 2 each.
fn drawn_layer(alloc: Global, drawn: &mut u32) -> Result<Vec<u16>, AllocError> {
    let mut layer = Vec::new(alloc);
    for _candidate in 0..draw(drawn, 4) {
        layer.push(u16::from(draw(drawn, 3)))?;
    }
    layer.sort()?;
    Ok(layer)
}

/// So many legs, each none or with a penalty of 0 or 1.
fn drawn_legs(alloc: Global, count: usize, drawn: &mut u32) -> Result<Vec<Option<u8>>, AllocError> {
    let mut legs = Vec::new(alloc);
    for _leg in 0..count {
        legs.push(draw(drawn, 3).checked_sub(1))?;
    }
    Ok(legs)
}

/// A table of 2 to 4 layers.
fn drawn_table(alloc: Global, drawn: &mut u32) -> Result<Table, Fail> {
    let mut layers = Vec::new(alloc);
    for _layer in 0..u32::from(draw(drawn, 3)) + 2 {
        layers.push(drawn_layer(alloc, drawn)?)?;
    }
    let mut legs = Vec::new(alloc);
    for two in layers.windows(2) {
        let [first, second] = two else {
            continue;
        };
        let count = first.len().saturating_mul(second.len());
        legs.push(drawn_legs(alloc, count, drawn)?)?;
    }
    table_of(alloc, &layers, &legs)
}

/// All keys, from pages of seven.
fn all_by<F: Finder>(alloc: Global, finder: &mut F) -> Result<Vec<Key>, Fail> {
    let mut keys = Vec::new(alloc);
    for page in all_pages(alloc, finder, PageSize::new(7)?)? {
        for key in page.keys {
            keys.push(key)?;
        }
    }
    Ok(keys)
}

/// The keys of a table, if all three finders find just them.
fn keys_of(alloc: Global, table: &Table) -> Result<Vec<Key>, Fail> {
    let keys = all_by(alloc, &mut ProductFinder::new(table))?;
    let bounds = all_by(alloc, &mut BoundFinder::build(alloc, table)?)?;
    let totals = all_by(alloc, &mut TotalsFinder::build(alloc, table)?)?;
    if bounds.as_slice() != keys.as_slice() || totals.as_slice() != keys.as_slice() {
        return Err(Fail::new("the finders differ"));
    }
    Ok(keys)
}

/// The keys of the next drawn table.
fn drawn_keys(alloc: Global, drawn: &mut u32) -> Result<Vec<Key>, Fail> {
    let table = drawn_table(alloc, drawn)?;
    keys_of(alloc, &table)
}

/// How many of 200 drawn tables have a matching, how many keys there are in all, the sum of their
/// totals, and how many keys the table with the most has.
fn found(alloc: Global) -> Result<[u64; 4], Fail> {
    let [mut tables, mut all, mut totals, mut most]: [u64; 4] = [0; 4];
    let mut drawn = 1;
    for _table in 0..200 {
        let keys = drawn_keys(alloc, &mut drawn)?;
        let here = keys.len() as u64;
        tables = tables.wrapping_add(here.min(1));
        all = all.wrapping_add(here);
        most = most.max(here);
        for key in &keys {
            totals = totals.wrapping_add(u64::from(key.total));
        }
    }
    Ok([tables, all, totals, most])
}

#[test]
fn finders_agree_on_drawn_tables(rt: HostRuntime) -> Result<(), Fail> {
    assert!(rt; found(rt.alloc())? == [67, 251, 907, 29]);
    Ok(())
}
