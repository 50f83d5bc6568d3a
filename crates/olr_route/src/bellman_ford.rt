//! The least lengths up to a limit, all in decimetres, by Bellman and Ford's search of the map.

ghost use Rattle.std.specs.Prelude.{◌≡◌, ◌<◌, ◌≤◌, ℕ, length, IfOk};
ghost use Rattle.olr_road.specs.Place.{IsDeparture, IsPlace};
ghost use Rattle.olr_route.specs.BellmanFord.{AreSound, IsLowered, IsOffered, IsReached, Reaches};
ghost use Rattle.olr_route.specs.Reach.{AreLengthsOn, Covers};
ghost use Rattle.olr_route.specs.Starts.{table_in};
ghost use Rattle.olr_route.specs.Steps.{IsKnownWithin};
ghost use Rattle.olr_route.specs.Walk.{start_of};

use crate::line_end::length_at_end;
use crate::reach::Reach;
use crate::search::Search;
use crate::starts::Starts;
use crate::turn::is_allowed;
use olr_base::NoMemory;
use olr_road::{Map, Place, sound};
use std::alloc::Global;

/// Offers a length to the start of a line, and keeps it where no length as short is known. Returns
/// whether it did.
fn offer(search: &Search, line: u32, offered: u64, starts: &mut Starts) -> Result<bool, NoMemory>
    requires line { line < length search.now.map.now.lines }
    requires limit { offered ≤ search.now.limit }
    requires reached { Reaches search.now line offered }
    requires sound { AreSound search.now starts.old }

    ensures lowered { IfOk result (λ kept. IsLowered search.now kept starts.old starts.new) }
    ensures known { IfOk result (λ _.
        IsKnownWithin (table_in search.now.map.now starts.new line) offered) }
{
    if let Some(known) = starts.length_to(search.map, line) {
        if known <= offered {
            return Ok(false);
        }
    }
    starts.own.insert(line, Some(offered))?;
    Ok(true)
}

/// Relaxes a place: offers the length to the end of its line to each line that may follow, where
/// the length to the place is `so_far`. Returns whether one of them kept it.
#[tactic(auto, using(std::proofs::lemmas::Option::slice_get_within, crate::proofs::Lines::passed_over, crate::proofs::Lines::turn_ahead))]
fn relax(search: &Search, place: Place, so_far: u64, starts: &mut Starts) -> Result<bool, NoMemory>
    requires on_map { IsPlace search.now.map.now place }
    requires reached { IsReached search.now place so_far }
    requires sound { AreSound search.now starts.old }

    ensures lowered { IfOk result (λ kept. IsLowered search.now kept starts.old starts.new) }
    ensures offered { IfOk result (λ _. IsOffered search.now place so_far starts.new) }
{
    let map = search.map;
    sound(map);
    let Some(at_end) = length_at_end(search, place, so_far) else {
        return Ok(false);
    };
    let ahead = map.lines_from(map.line(place.line).to);
    let mut kept = false;
    for &next in ahead {
        if !is_allowed(map, place.line, next) {
            continue;
        }
        kept |= offer(search, next, at_end, starts)?;
    }
    Ok(kept)
}

/// Relaxes each line once. Returns whether a shorter length was found.
#[tactic(auto, using(crate::proofs::Lines::start_on_map))]
fn relax_lines(search: &Search, starts: &mut Starts) -> Result<bool, NoMemory>
    requires { AreSound search.now starts.old }

    ensures lowered { IfOk result (λ found. IsLowered search.now found starts.old starts.new) }
    ensures offered { IfOk result (λ _. (line bound : ℕ) → line < length search.now.map.now.lines
        → IsKnownWithin (table_in search.now.map.now starts.old line) bound
        → IsOffered search.now (start_of line) bound starts.new) }
{
    let mut found = false;
    for line in 0..search.map.count() {
        let Some(at_start) = starts.length_to(search.map, line) else {
            continue;
        };
        found |= relax(search, Place { line, at: 0 }, at_start, starts)?;
    }
    Ok(found)
}

/// The same lengths in decimetres as [`lengths_from`](crate::lengths_from), by Bellman and Ford's
/// search: it relaxes all lines of the map until no shorter length is found. Tests compare the two.
///
/// # Errors
///
/// [`NoMemory`] where the allocator refused memory.
pub fn lengths_by_rounds(
    alloc: Global,
    map: &Map,
    class: u8,
    from: Place,
    limit: u64,
) -> Result<Reach, NoMemory>
    requires { IsDeparture map.now from }

    ensures asked { IfOk result (λ reach.
        (reach.class ≡ class) × (reach.from ≡ from) × (reach.limit ≡ limit)) }
    ensures held { IfOk result (λ reach. AreLengthsOn map.now reach) }
    ensures covers { IfOk result (λ reach. (line : ℕ) → Covers reach line) }
{
    sound(map);
    let search = Search {
        map,
        class,
        from,
        limit,
        goals: None,
    };
    let mut starts = Starts::new(alloc, map)?;
    relax(&search, from, 0, &mut starts)?;
    while relax_lines(&search, &mut starts)? {}
    Ok(Reach::new(class, from, limit, None, starts))
}
