//! The end of a line, and the length there.

ghost use Rattle.std.specs.Prelude.{◌≡◌, ◌+◌, ◌<◌, ◌≤◌, MatchOption};
ghost use Rattle.olr_road.specs.Place.{IsPlace};
ghost use Rattle.olr_route.specs.Dijkstra.{HasGoalsOnMap, MayGoOn};
ghost use Rattle.olr_route.specs.Nodes.{EndsAt};
ghost use Rattle.olr_route.specs.Steps.{rest_of_line};
ghost use Rattle.olr_route.specs.Turn.{IsOpen};

use crate::arrival::Arrival;
use crate::search::Search;
use olr_road::{Place, Step};

/// The sum of two lengths, where it is at most the limit.
pub(crate) fn sum_within(length: u64, more: u64, limit: u64) -> Option<u64>
    ensures { MatchOption result (limit < length + more)
        (λ sum. (sum ≡ length + more) × (sum ≤ limit)) }
{
    let sum = length.checked_add(more)?;
    if sum > limit {
        return None;
    }
    Some(sum)
}

/// The length to the end of a place's line, in decimetres, where the length to the place is
/// `so_far`. None where the class limit doesn't let the line through, or where the length exceeds
/// the limit.
pub(crate) fn length_at_end(search: &Search, place: Place, so_far: u64) -> Option<u64>
    requires { IsPlace search.now.map.now place }
    ensures { MatchOption result
        (IsOpen search.now.map.now search.now.class place.line
        → search.now.limit < so_far + rest_of_line search.now.map.now place)
        (λ at_end. IsOpen search.now.map.now search.now.class place.line
        × (at_end ≡ so_far + rest_of_line search.now.map.now place)
        × (at_end ≤ search.now.limit)) }
{
    let line = search.map.line(place.line);
    if line.class > search.class {
        return None;
    }
    sum_within(so_far, u64::from(line.length - place.at), search.limit)
}

/// The arrival at the end of the line of a step, which begins after the length `so_far`. None where
/// the class limit doesn't let the line through, where the length exceeds the limit, and where the
/// search's goals show that no line that it is asked for can be reached from there within the
/// limit.
pub(crate) fn arrival_over(search: &Search, step: Step, so_far: u64) -> Option<Arrival>
    requires { HasGoalsOnMap search.now }
    ensures { MatchOption result
        (step.class ≤ search.now.class → EndsAt search.now.map.now step.to step.line
        → MayGoOn search.now step.line (so_far + step.length) → ⊥)
        (λ arrival. (step.class ≤ search.now.class) × (arrival.at_end ≤ search.now.limit)
        × (arrival ≡ record { at_end = so_far + step.length; line = step.line; node = step.to })) }
{
    if step.class > search.class {
        return None;
    }
    let at_end = sum_within(so_far, u64::from(step.length), search.limit)?;
    if let Some(goals) = &search.goals {
        if !goals.may_reach(step.to, search.limit - at_end) {
            return None;
        }
    }
    Some(Arrival {
        at_end,
        line: step.line,
        node: step.to,
    })
}
