//! The likely cost of a matching.

ghost use Rattle.std.specs.Prelude.{◌≡◌, ◌+◌, ◌*◌, ◌≤◌, length, sum_by};
ghost use Rattle.olr_report.specs.Entries.{HasPieces};
ghost use Rattle.olr_route.specs.Walk.{length_at};
ghost use Rattle.olr_detail.specs.Cost.{IsLikelyCost, cost_of_ends, cost_of_turning, ends_of};

use crate::candidate_detail::end_of;
use crate::turning::turns_back;
use olr_candidates::Candidate;
use olr_matching::{Leg, Matched};
use olr_road::Map;
use olr_route::Piece;

/// The likely cost of a matching, and what it alone tells.
#[derive(Clone, Copy, Debug, PartialEq, Eq)]
pub struct LikelyCost {
    /// Whether the route turns back.
    pub turns_back: bool,
    /// The cost, in thirtieths of a penalty point.
    pub cost: u32,
}

/// The length of the line of a rank, in decimetres; 0 where the map has no such line.
fn length_at(map: &Map, rank: u32) -> u32
    ensures { result ≡ length_at map.now rank }
{
    if rank < map.count() {
        let line = map.line(rank);
        line.length
    } else {
        0
    }
}

/// What the distances of candidates from the proper ends of their lines add; these are the
/// candidates of the last points of a reference.
fn cost_of_ends(map: &Map, candidates: &[Candidate]) -> u32
    requires { length candidates.now ≤ 32 }
    ensures cost { result ≡ cost_of_ends (ends_of map.now candidates.now) }
    ensures at_most { result ≤ 500 * length candidates.now }
{
    let Some((first, others)) = candidates.split_first() else {
        return 0;
    };
    let length = length_at(map, first.place.line);
    let end = end_of(others.is_empty(), length, first.place.at);
    end.min(500) + cost_of_ends(map, others)
}

/// The sum of the penalties of candidates.
fn sum_of_points(candidates: &[Candidate]) -> u32
    requires { length candidates.now ≤ 32 }
    ensures sum { result ≡ sum_by (λ candidate. candidate.penalty) candidates.now }
    ensures at_most { result ≤ 65535 * length candidates.now }
{
    let mut sum = 0;
    for candidate in candidates {
        sum += u32::from(candidate.penalty);
    }
    sum
}

/// The sum of the penalties of legs.
fn sum_of_legs(legs: &[Leg]) -> u32
    requires { length legs.now ≤ 31 }
    ensures sum { result ≡ sum_by (λ leg. leg.penalty) legs.now }
    ensures at_most { result ≤ 255 * length legs.now }
{
    let mut sum = 0;
    for leg in legs {
        sum += u32::from(leg.penalty);
    }
    sum
}

/// What turning back adds.
fn cost_of_turning(turns_back: bool) -> u32
    ensures cost { result ≡ cost_of_turning turns_back }
    ensures at_most { result ≤ 3600 }
{
    if turns_back { 3_600 } else { 0 }
}

/// The likely cost of a matching with this route.
pub fn likely_cost(map: &Map, matched: &Matched, route: &[Piece]) -> LikelyCost
    requires count { length matched.now.legs + 1 ≡ length matched.now.candidates }
    requires route { HasPieces map.now route.now }
    ensures { IsLikelyCost map.now matched.now route.now result }
{
    let turns_back = turns_back(map, route);
    let points = sum_of_points(&matched.candidates);
    let legs = sum_of_legs(&matched.legs);
    let ends = cost_of_ends(map, &matched.candidates);
    LikelyCost {
        turns_back,
        cost: 30 * points + 6 * legs + ends + cost_of_turning(turns_back),
    }
}
