//! What a place and none of these are worth.

ghost use Rattle.std.specs.Prelude.{◌≡◌, ◌+◌, ◌*◌, ◌≤◌, ◌^◌, pos, ◌+ℤ◌, ◌*ℤ◌, nat_abs};
ghost use Rattle.olr_confidence.specs.Worths.{least_cost, lost_by, worth_of_none};

use crate::confidence::Weights;
use crate::terms::Terms;

/// The least cost of these places; 0 where there is none.
pub(crate) fn least_cost(places: &[Terms]) -> u32
    ensures { result ≡ least_cost places.now }
{
    let Some((first, others)) = places.split_first() else {
        return 0;
    };
    if others.is_empty() {
        return first.cost;
    }
    first.cost.min(least_cost(others))
}

/// What a number of units weighs.
fn weighed(weight: u64, units: u64) -> u64
    requires weight { weight ≤ 2 ^ 28 }
    requires units { units ≤ 2 ^ 32 }
    ensures product { result ≡ weight * units }
    ensures at_most { result ≤ 2 ^ 28 * units }
{
    weight * units
}

/// What a place loses by what counts against it, where this is the least cost of all places.
pub(crate) fn lost_by(weights: &Weights, least: u32, place: &Terms) -> u64
    ensures lost { result ≡ lost_by weights.now least place.now }
    ensures at_most { result ≤ 2 ^ 61 }
{
    let behind = place.cost.saturating_sub(least);
    let turning_back = if place.turns_back {
        weights.turning_back
    } else {
        0
    };
    weighed(weights.distance, place.distance)
        + weighed(weights.direction, u64::from(place.direction))
        + weighed(weights.leg, place.leg)
        + weighed(weights.behind, u64::from(behind))
        + turning_back
}

/// The product of a weight that may be negative and a number of units.
fn signed_product(weight: i64, units: u64) -> i64
    requires weight { nat_abs weight ≤ 2 ^ 32 }
    requires units { units ≤ 1000000 }
    ensures { result ≡ weight *ℤ pos units }
{
    weight * units as i64
}

/// What a number of units weighs, by a weight that may be negative.
#[tactic(auto, using(crate::proofs::Products::product_at_most))]
fn weighed_either_way(weight: i64, units: u64) -> i64
    requires weight { nat_abs weight ≤ 2 ^ 32 }
    requires units { units ≤ 1000000 }
    ensures product { result ≡ weight *ℤ pos units }
    ensures at_most { nat_abs result ≤ 4294967296 * 1000000 }
{
    let product = signed_product(weight, units);
    product
}

/// The sum of two numbers.
fn signed_sum(one: i64, other: i64) -> i64
    requires one { nat_abs one ≤ 2 ^ 61 }
    requires other { nat_abs other ≤ 2 ^ 61 }
    ensures { result ≡ one +ℤ other }
{
    one + other
}

/// The sum of two numbers, which is no farther from 0 than both together.
#[tactic(auto, using(crate::proofs::Products::sum_at_most))]
pub(crate) fn plus(one: i64, other: i64) -> i64
    requires one { nat_abs one ≤ 2 ^ 61 }
    requires other { nat_abs other ≤ 2 ^ 61 }
    ensures sum { result ≡ one +ℤ other }
    ensures at_most { nat_abs result ≤ nat_abs one + nat_abs other }
{
    let sum = signed_sum(one, other);
    sum
}

/// What none of these is worth, by the likeliest place.
pub(crate) fn worth_of_none(weights: &Weights, likeliest: &Terms) -> i64
    ensures worth { result ≡ worth_of_none weights.now likeliest.now }
    ensures at_most { nat_abs result ≤ 2 ^ 54 }
{
    let points = weighed_either_way(weights.none_points, likeliest.points.saturating_sub(2));
    let lines = weighed_either_way(weights.none_lines, likeliest.lines);
    let length = weighed_either_way(weights.none_length, likeliest.length);
    plus(plus(plus(weights.none, points), lines), length)
}
