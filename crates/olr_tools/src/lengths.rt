//! The least lengths from places that are spread over a map.

ghost use Rattle.std.specs.Prelude.{ℕ, IfSome};
ghost use Rattle.olr_road.specs.Place.{IsDeparture};
ghost use Rattle.olr_route.specs.Reach.{AreLengthsOn, Covers};

use crate::NO_MEMORY;
use anyhow::{Context, Result};
use olr_road::{Map, Place};
use olr_route::{Reach, is_before_end, is_on_map, lengths_from};
use std::alloc::Global;
use std::time::Instant;

/// From how many places.
const PLACES: u8 = 64;

/// The class limit. It lets every line through.
const CLASS: u8 = 7;

/// The start of a line. The numbers spread the places evenly over the lines by rank.
fn place_of(map: &Map, number: u8) -> Option<Place>
    ensures { IfSome result (λ place. IsDeparture map.now place) }
{
    let line = u64::from(number) * u64::from(map.count()) / u64::from(PLACES);
    let line = u32::try_from(line).ok()?;
    let place = Place { line, at: 0 };
    is_before_end(map, place).then_some(place)
}

/// Adds how many starts of lines are reached, and the sum of the lengths to them in decimetres.
fn add(map: &Map, reach: &Reach, sums: &mut (u64, u64))
    requires held { AreLengthsOn map.now reach.now }
    requires covers { (line : ℕ) → Covers reach.now line }
{
    for line in 0..map.count() {
        let start = Place { line, at: 0 };
        if is_on_map(map, start) {
            if let Some(length) = reach.length_to(map, start) {
                sums.0 = sums.0.wrapping_add(1);
                sums.1 = sums.1.wrapping_add(length);
            }
        }
    }
}

/// Searches from all the places, up to a limit in decimetres, and adds what is reached where asked.
fn search(alloc: Global, map: &Map, limit: u64, adds: bool) -> Result<(u64, u64)> {
    let mut sums = (0, 0);
    for number in 0..PLACES {
        if let Some(place) = place_of(map, number) {
            let found = lengths_from(alloc, map, CLASS, place, limit);
            let reach = found.ok().context(NO_MEMORY)?;
            if adds {
                add(map, &reach, &mut sums);
            }
        }
    }
    Ok(sums)
}

/// Prints what is reached from all the places, and the nanoseconds of the searches.
pub(crate) fn print(rt: &HostRuntime, map: &Map, limit: u64) -> Result<()> {
    let (starts, length) = search(rt.alloc(), map, limit, true)?;
    let begin = Instant::now(rt)?;
    search(rt.alloc(), map, limit, false)?;
    let time = begin.elapsed(rt)?;
    println!(rt; "{starts} {length}\n{}", time.as_nanos())?;
    Ok(())
}
