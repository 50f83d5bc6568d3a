//! The lines of a map that are nearest to a point, by wider and wider windows around it.

ghost use Rattle.std.specs.Prelude.{◌<◌, ◌≤◌, ◌++◌, ◌∷◌, [], ℕ, List, length, Contains};
ghost use Rattle.std.specs.Prelude.{IfOk, MatchOption, OnOk};
ghost use Rattle.olr_candidates.specs.Nearest.{AnswersNearest, AreNearestAmong, AreNearestWithin};
ghost use Rattle.olr_candidates.specs.Nearest.{FindsNear, IsBehindLast};

use crate::near::{NearLine, near_at, near_within};
use crate::nearest::{keep, lie_within};
use crate::projection::one_projection;
use crate::query::Query;
use crate::window::lines_within;
use olr_base::NoMemory;
use olr_road::Map;
use std::alloc::Global;

/// How far the first window reaches, in metres.
const FIRST_RADIUS: u32 = 30;

/// How far the last one may reach. Each reaches up to twice as far as the one before it.
const LAST_RADIUS: u32 = 1_000_000;

/// The line of a rank near the query's point, unless there are so many lines in a list, and it is
/// farther away than the last one.
fn near_before(
    list: &[NearLine],
    map: &Map,
    query: &Query,
    rank: u32,
    count: usize,
) -> Option<NearLine>
    requires { rank < length map.now.lines }
    ensures { MatchOption result
        (IsBehindLast query.now map.now.lines rank count list.now)
        (FindsNear query.now map.now.lines rank) }
{
    match list.last() {
        Some(last) if list.len() == count => near_within(map, query, rank, last.distance),
        _ => Some(near_at(map, query, rank)),
    }
}

/// Adds the line of a rank to the nearest ones of those so far, of which it isn't one.
fn add_near(
    list: &mut Vec<NearLine>,
    map: &Map,
    query: &Query,
    rank: u32,
    count: usize,
) -> Result<(), NoMemory>
    requires { rank < length map.now.lines }
    ensures { (seen : List ℕ) → AreNearestAmong query.now map.now.lines seen count list.old.items
        → (Contains seen rank → ⊥)
        → OnOk result
        (AreNearestAmong query.now map.now.lines (seen ++ rank ∷ []) count list.new.items) }
{
    one_projection();
    let Some(near) = near_before(list, map, query, rank, count) else {
        return Ok(());
    };
    keep(list, near, count)?;
    Ok(())
}

/// The nearest lines among those that a window around the query's point meets.
fn nearest_in_window(
    alloc: Global,
    map: &Map,
    query: &Query,
    radius: u32,
    count: usize,
) -> Result<Vec<NearLine>, NoMemory>
    requires { radius ≤ 1000000 }
    ensures { IfOk result
        (λ nearest. AreNearestWithin query.now map.now.lines radius count nearest.items) }
{
    let mut nearest = Vec::new(alloc);
    for rank in lines_within(map, query, radius) {
        add_near(&mut nearest, map, query, rank, count)?;
    }
    Ok(nearest)
}

/// The nearest lines among all of the map.
fn nearest_of_all(
    alloc: Global,
    map: &Map,
    query: &Query,
    count: usize,
) -> Result<Vec<NearLine>, NoMemory>
    ensures { IfOk result (λ nearest. AnswersNearest query.now map.now.lines count nearest.items) }
{
    let mut nearest = Vec::new(alloc);
    for rank in 0..map.count() {
        add_near(&mut nearest, map, query, rank, count)?;
    }
    Ok(nearest)
}

/// How far the window after one with these nearest lines reaches, in metres: twice as far, or,
/// where it has so many lines, just as far as the last of them, so that it is the last window.
fn next_radius(nearest: &[NearLine], radius: u32, count: usize) -> u32
    requires { radius ≤ 1000000 }
    ensures rises { 1 ≤ radius → radius < result }
{
    let twice = 2 * radius;
    match nearest.last() {
        Some(last) if nearest.len() == count => {
            (last.distance / 100 + 1)
                .min(u64::from(twice))
                .max(u64::from(radius) + 1) as u32
        }
        _ => twice,
    }
}

/// The lines of the map that are nearest to the query's point, `count` of them, or all where the
/// map has fewer. The lines of a window suffice where so many of them lie no farther away than it
/// reaches.
pub(crate) fn search_nearest(
    alloc: Global,
    map: &Map,
    query: &Query,
    count: usize,
) -> Result<Vec<NearLine>, NoMemory>
    ensures { IfOk result (λ nearest. AnswersNearest query.now map.now.lines count nearest.items) }
{
    let mut radius = FIRST_RADIUS;
    while radius <= LAST_RADIUS {
        let nearest = nearest_in_window(alloc, map, query, radius, count)?;
        if nearest.len() == count && lie_within(&nearest, radius) {
            return Ok(nearest);
        }
        radius = next_radius(&nearest, radius, count);
    }
    nearest_of_all(alloc, map, query, count)
}
