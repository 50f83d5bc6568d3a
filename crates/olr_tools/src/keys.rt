//! How long the next key takes, after keys near the beginning of the list, far down, and at its
//! end.

use crate::widest::widest_table;
use crate::{NO_MATCHING, NO_MEMORY};
use anyhow::{Context, Result, ensure};
use olr_keys::{Cursor, Finder, Key, TotalsFinder};
use std::alloc::Global;
use std::time::Instant;

/// How often the next key is asked for at a time.
const CALLS: u32 = 1000;

/// The last key of the widest table.
const LAST: &str = "14620:64.64.64.64.64.64.64.64.64.64.64.64.64.64.64.64.\
64.64.64.64.64.64.64.64.64.64.64.64.64.64.64.64";

/// The key before which so many come.
fn key_at(alloc: Global, finder: &mut TotalsFinder, depth: u32) -> Result<Key> {
    let mut key = finder.next(alloc, None).ok().flatten().context("no key")?;
    for _before in 0..depth {
        ensure!(finder.check(&key), "{NO_MATCHING}");
        let next = finder.next(alloc, Some(&key)).ok().flatten();
        key = next.context("too few keys")?;
    }
    Ok(key)
}

/// Prints a key, the looks at the rows that a call for the next one takes, and the nanoseconds of
/// [`CALLS`] calls.
fn print_next(rt: &HostRuntime, finder: &mut TotalsFinder, key: &Key) -> Result<()> {
    ensure!(finder.check(key), "{NO_MATCHING}");
    let before = finder.probes();
    let begin = Instant::now(rt)?;
    for _call in 0..CALLS {
        let _next = finder.next(rt.alloc(), Some(key)).ok().context(NO_MEMORY)?;
    }
    let time = begin.elapsed(rt)?;
    let probes = finder.probes().saturating_sub(before) / u64::from(CALLS);
    println!(rt; "{} {probes} {}", Cursor::write(key, None), time.as_nanos())?;
    Ok(())
}

/// Prints the figures of the three keys in so many rounds.
pub(crate) fn print(rt: &HostRuntime, depth: u32, rounds: u32) -> Result<()> {
    let table = widest_table(rt.alloc())?;
    let finder = TotalsFinder::build(rt.alloc(), &table).ok();
    let mut finder = finder.context(NO_MEMORY)?;
    let keys = [
        key_at(rt.alloc(), &mut finder, 10)?,
        key_at(rt.alloc(), &mut finder, depth)?,
        Cursor::parse(LAST)?.key,
    ];
    for _round in 0..rounds {
        for key in &keys {
            print_next(rt, &mut finder, key)?;
        }
    }
    Ok(())
}
