//! The rows of remaining totals of the widest table.

use crate::NO_MEMORY;
use crate::widest::widest_table;
use anyhow::{Context, Result};
use olr_keys::Rows;
use std::time::Instant;

/// How many remaining totals the candidates of the first layer have.
fn remaining(rows: &mut Rows) -> u64 {
    let _layers = rows.layers();
    let mut count: u64 = 0;
    for index in 0..rows.count(0) {
        for rest in 0..rows.width() {
            let step = rows.test(0, None, index as u8 + 1, rest as u16);
            count = count.wrapping_add(u64::from(step.is_some()));
        }
    }
    count
}

/// How many totals all matchings have.
fn totals(rows: &mut Rows) -> u64 {
    let mut count: u64 = 0;
    for total in 0..rows.width() {
        count = count.wrapping_add(u64::from(rows.total(total as u16)));
    }
    count
}

/// Prints what the rows mark, and the nanoseconds of building them and letting go of them.
pub(crate) fn print(rt: &HostRuntime) -> Result<()> {
    let table = widest_table(rt.alloc())?;
    let mut rows = Rows::build(rt.alloc(), &table).ok().context(NO_MEMORY)?;
    println!(rt; "{} {}", remaining(&mut rows), totals(&mut rows))?;
    drop(rows);
    let begin = Instant::now(rt)?;
    drop(Rows::build(rt.alloc(), &table).ok().context(NO_MEMORY)?);
    let time = begin.elapsed(rt)?;
    println!(rt; "{}", time.as_nanos())?;
    Ok(())
}
