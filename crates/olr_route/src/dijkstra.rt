//! The least lengths from a place, by Dijkstra's search: the line whose end is nearest goes on
//! first. A search for the lengths to some lines leaves out arrivals where a bound shows that none
//! of them can be reached within what is left of the limit. Lengths and limits are in decimetres.

ghost use Rattle.std.specs.Prelude.{◌≡◌, ◌<◌, ◌≤◌, ℕ, [], All, IfOk, None, Some, length, map};
ghost use Rattle.std.specs.Prelude.{unwrap_or};
ghost use Rattle.olr_road.specs.Place.{IsDeparture, IsPlace};
ghost use Rattle.olr_route.specs.Dijkstra.{AreReachedFirst, HasEnded, HasGoalsOnMap, IsPushed};
ghost use Rattle.olr_route.specs.Dijkstra.{asked_of};
ghost use Rattle.olr_route.specs.Reach.{AreLengthsOn, Covers};
ghost use Rattle.olr_route.specs.Starts.{table_in};
ghost use Rattle.olr_route.specs.Steps.{rest_of_line};

use crate::queue::Queue;
use crate::reach::Reach;
use crate::search::{Limits, Search};
use crate::starts::Starts;
use crate::state::State;
use olr_base::NoMemory;
use olr_road::{Map, Place, Step, sound};
use std::alloc::Global;

/// With a limit of at least this, in decimetres, a search tries a nearer one first.
const FAR: u64 = 30_000;

/// Leaves the place from which a search starts: puts the arrival at the end of its line into the
/// queue, if the limits let it through and the search may go on from there.
#[tactic(auto, using(crate::proofs::Lines::head_length))]
fn leave(search: &Search, queue: &mut Queue) -> Result<(), NoMemory>
    requires goals { HasGoalsOnMap search.now }
    requires from { IsDeparture search.now.map.now search.now.from }

    ensures { IfOk result (λ _. IsPushed search.now (λ _. ⊥) search.now.from.line
        (rest_of_line search.now.map.now search.now.from) queue.old queue.new) }
{
    let line = search.map.line(search.from.line);
    let rest = Step {
        line: search.from.line,
        to: line.to,
        length: line.length - search.from.at,
        class: line.class,
    };
    queue.push_over(search, rest, 0)?;
    Ok(())
}

/// How many of some lines, from the first one on, are reached after an arrival at a node: the first
/// `count` were before. Only an arrival at the node where its line starts can reach the next one.
fn count_reached(map: &Map, starts: &Starts, lines: &[u32], count: usize, node: u32) -> usize
    requires lines { All (λ line. line < length map.now.lines) lines.now }
    requires at_most { count ≤ length lines.now }
    requires reached { AreReachedFirst (table_in map.now starts.now) lines.now count }

    ensures at_most { result ≤ length lines.now }
    ensures reached { AreReachedFirst (table_in map.now starts.now) lines.now result }
{
    if count == lines.len() || map.line(lines[count]).from != node {
        return count;
    }
    for index in count..lines.len() {
        if starts.length_to(map, lines[index]).is_none() {
            return index;
        }
    }
    lines.len()
}

/// The lines to whose starts a search is asked for lengths; no lines where it is asked for all.
fn targets_of<'a>(search: &Search<'a>) -> &'a [u32]
    ensures { result.now ≡ unwrap_or (asked_of search.now) [] }
{
    match &search.goals {
        Some(goals) => goals.lines(),
        None => &[],
    }
}

/// The lines whose start is reached from a place within the limit, each with the length of a walk
/// to it. Of a search for all lines these are the least lengths; of one for some lines, which ends
/// once it has reached them, those to them and along the shortest walks there.
///
/// Its time and memory are in proportion to the lines that start at the nodes it reaches and the
/// bans on turns from the lines that it reaches, times a logarithm, and beyond that to the nodes of
/// the map: it sets 2 bytes for 16 of them to zero.
///
/// Beside the lengths it returns how many of the lines that it is asked for are reached, from the
/// first one on.
#[tactic(auto, using(crate::proofs::Ending::still_reached))]
fn search(alloc: Global, search: &Search) -> Result<(Starts, usize), NoMemory>
    requires goals { HasGoalsOnMap search.now }
    requires from { IsDeparture search.now.map.now search.now.from }
    requires lines { All (λ line. line < length search.now.map.now.lines)
        (unwrap_or (asked_of search.now) []) }

    ensures ended { IfOk result (λ found. HasEnded search.now.map.now search.now.class
        search.now.from (asked_of search.now) search.now.limit
        (table_in search.now.map.now found.0)) }
    ensures reached { IfOk result (λ found. AreReachedFirst (table_in search.now.map.now found.0)
        (unwrap_or (asked_of search.now) []) found.1) }
{
    sound(search.map);
    let targets = targets_of(search);
    let mut state = State::new(alloc, search.map)?;
    leave(search, &mut state.queue)?;
    let mut longest = 0;
    let mut count = 0;
    while let Some(arrival) = state.queue.pop() {
        if count == targets.len() && longest < arrival.at_end && search.goals.is_some() {
            return Ok((state.starts, count));
        }
        longest = arrival.at_end;
        state.arrive(alloc, search, arrival)?;
        count = count_reached(search.map, &state.starts, targets, count, arrival.node);
    }
    Ok((state.starts, count))
}

/// The same lengths, from a search up to `near` where that is worth a try and reaches all lines
/// that it is asked for, else from one up to the limit.
fn search_near(alloc: Global, mut asked: Search, near: u64) -> Result<Starts, NoMemory>
    requires goals { HasGoalsOnMap asked }
    requires from { IsDeparture asked.map.now asked.from }
    requires lines { All (λ line. line < length asked.map.now.lines)
        (unwrap_or (asked_of asked) []) }

    ensures { IfOk result (λ starts. HasEnded asked.entry.map.now asked.entry.class
        asked.entry.from (asked_of asked.entry) asked.entry.limit
        (table_in asked.entry.map.now starts)) }
{
    let limit = asked.limit;
    let narrows = asked
        .goals
        .as_ref()
        .is_some_and(|goals| goals.narrows(near));
    if limit >= FAR && near < limit && narrows {
        asked.limit = near;
        let (starts, count) = search(alloc, &asked)?;
        if count == targets_of(&asked).len() {
            return Ok(starts);
        }
        asked.limit = limit;
    }
    Ok(search(alloc, &asked)?.0)
}

/// The least lengths from a place to the starts of all lines under a class limit: each where it is
/// at most `limit`. All lengths are in decimetres. No line of a class above `class` is driven on.
/// The place has to be on the map and before its line's end
/// ([`is_before_end`](crate::is_before_end)). Only lines that are reached within the limit are
/// visited.
///
/// # Errors
///
/// [`NoMemory`] where the allocator refused memory.
pub fn lengths_from(
    alloc: Global,
    map: &Map,
    class: u8,
    from: Place,
    limit: u64,
) -> Result<Reach, NoMemory>
    requires { IsDeparture map.now from }

    ensures asked { IfOk result (λ reach.
        (reach.class ≡ class) × (reach.from ≡ from) × (reach.limit ≡ limit)) }
    ensures held { IfOk result (λ reach. AreLengthsOn map.now reach) }
    ensures covers { IfOk result (λ reach. (line : ℕ) → Covers reach line) }
{
    sound(map);
    let asked = Search {
        map,
        class,
        from,
        limit,
        goals: None,
    };
    let (starts, _) = search(alloc, &asked)?;
    Ok(Reach::new(class, from, limit, None, starts))
}

/// The lines of places.
fn lines_of(alloc: Global, places: &[Place]) -> Result<Vec<u32>, NoMemory>
    ensures { IfOk result (λ lines. lines.items ≡ map (λ place. place.line) places.now) }
{
    Ok(places.iter().map(|place| place.line).collect(alloc)?)
}

/// The least lengths from a place to some others, as [`lengths_from`] finds them: the search goes
/// towards them and ends once it has reached the start of the line of each target, so it covers
/// them ([`Reach::covers`]) and no other places. Targets have to be on the map
/// ([`is_on_map`](crate::is_on_map)). `limits.near` changes only the time: where it narrows the
/// search, that goes up to there first, and up to `limits.length` if a target isn't reached, so the
/// first part was in vain then.
///
/// # Errors
///
/// [`NoMemory`] where the allocator refused memory.
#[tactic(auto, using(crate::proofs::Ending::all_told, crate::proofs::Ending::lines_inside))]
pub fn lengths_to(
    alloc: Global,
    map: &Map,
    from: Place,
    limits: Limits,
    targets: &[Place],
) -> Result<Reach, NoMemory>
    requires from { IsDeparture map.now from }
    requires targets { All (IsPlace map.now) targets.now }

    ensures asked { IfOk result (λ reach. (reach.class ≡ limits.class)
        × (reach.from ≡ from) × (reach.limit ≡ limits.length)) }
    ensures held { IfOk result (λ reach. AreLengthsOn map.now reach) }
    ensures covers { IfOk result (λ reach.
        All (λ target. Covers reach target.line) targets.now) }
{
    sound(map);
    let lines = lines_of(alloc, targets)?;
    let asked = Search {
        map,
        class: limits.class,
        from,
        limit: limits.length,
        goals: Some(map.goals(&lines)),
    };
    let starts = search_near(alloc, asked, limits.near)?;
    Ok(Reach::new(limits.class, from, limits.length, Some(lines), starts))
}
