//! How probable places are, and that none of them is right, by what counts for and against each.

ghost use Rattle.std.specs.Prelude.{◌≡◌, ◌+◌, ◌-◌, ◌<◌, ◌≤◌, ◌^◌, ℤ, pos, ◌+ℤ◌, nat_abs, All, IfOk, length, map, Some, option_map};
ghost use Rattle.olr_confidence.specs.Shares.{AreProbabilities};
ghost use Rattle.olr_confidence.specs.Worths.{AreOfWorths, AreProbable, AreProbableBy, least_cost, likeliest_of, losses_of, lost_by, worth_of};
ghost use Rattle.olr_confidence.specs.inner.Below.{above_zero, below_zero, lead_of, least_of, places_below};

use crate::confidence::Weights;
use crate::shares::{Probabilities, probabilities_of};
use crate::terms::Terms;
use crate::worths::{least_cost, lost_by, plus, worth_of_none};
use std::alloc::{AllocError, Global};

/// The least of these numbers; 0 where there is none.
fn least_of(numbers: &[u64]) -> u64
    requires { All (λ number. number ≤ 2 ^ 61) numbers.now }
    ensures least { result ≡ least_of numbers.now }
    ensures at_most { result ≤ 2 ^ 61 }
{
    let Some((first, others)) = numbers.split_first() else {
        return 0;
    };
    if others.is_empty() {
        return *first;
    }
    (*first).min(least_of(others))
}

/// The first place with the least cost.
fn likeliest_of(places: &[Terms]) -> Option<&Terms>
    ensures { option_map (λ place. place.now) result ≡ likeliest_of places.now }
{
    let least = least_cost(places);
    places.iter().find(|place| place.cost == least)
}

/// What each place loses.
fn losses_of(alloc: Global, weights: &Weights, places: &[Terms]) -> Result<Vec<u64>, AllocError>
    ensures losses { IfOk result (λ losses. losses.items ≡ losses_of weights.now places.now) }
    ensures at_most { IfOk result (λ losses. All (λ lost. lost ≤ 2 ^ 61) losses.items) }
{
    let least = least_cost(places);
    let mut losses = Vec::with_capacity(alloc, places.len())?;
    for place in places {
        losses.push(lost_by(weights, least, place))?;
    }
    Ok(losses)
}

/// How far a number lies above 0, or 0, and how far below.
fn both_sides(number: i64) -> (u64, u64)
    requires { nat_abs number ≤ 2 ^ 62 }
    ensures above { result.0 ≡ above_zero number }
    ensures below { result.1 ≡ below_zero number }
    ensures above_at_most { result.0 ≤ 2 ^ 62 }
    ensures below_at_most { result.1 ≤ 2 ^ 62 }
{
    if number >= 0 {
        (number.unsigned_abs(), 0)
    } else {
        (0, number.unsigned_abs())
    }
}

/// How far each place lies below the greatest worth, by what it loses, the least that one loses, and
/// how far none of these is ahead of that one.
fn places_below(
    alloc: Global,
    losses: &[u64],
    least: u64,
    ahead: u64,
) -> Result<Vec<u64>, AllocError>
    requires losses { All (λ lost. lost ≤ 2 ^ 61) losses.now }
    requires ahead { ahead ≤ 2 ^ 62 }
    ensures below { IfOk result (λ below.
        below.items ≡ map (λ lost. (lost - least) + ahead) losses.now) }
    ensures at_most { IfOk result (λ below. All (λ one. one ≤ 2 ^ 63) below.items) }
{
    let mut below = Vec::with_capacity(alloc, losses.len())?;
    for lost in losses {
        below.push(lost.saturating_sub(least) + ahead)?;
    }
    Ok(below)
}

/// How far none of these is ahead of a place that loses this, or 0, and how far behind.
fn ahead_and_behind(none: i64, least: u64) -> (u64, u64)
    requires none { nat_abs none ≤ 2 ^ 54 }
    requires least { least ≤ 2 ^ 61 }
    ensures above { result.0 ≡ above_zero (none +ℤ pos least) }
    ensures below { result.1 ≡ below_zero (none +ℤ pos least) }
    ensures above_at_most { result.0 ≤ 2 ^ 62 }
    ensures below_at_most { result.1 ≤ 2 ^ 62 }
{
    both_sides(plus(none, least as i64))
}

/// How probable places are that lose this, and that none of them is right.
fn by_losses(alloc: Global, none: i64, losses: &[u64]) -> Result<Probabilities, AllocError>
    requires none { nat_abs none ≤ 2 ^ 54 }
    requires losses { All (λ lost. lost ≤ 2 ^ 61) losses.now }
    requires is_there { 0 < length losses.now }
    ensures { IfOk result (AreProbabilities (below_zero (lead_of none losses.now))
        (places_below none losses.now)) }
{
    let least = least_of(losses);
    let (ahead, behind) = ahead_and_behind(none, least);
    let below = places_below(alloc, losses, least, ahead)?;
    let found = probabilities_of(alloc, behind, &below)?;
    Ok(found)
}

/// How probable places are that lose this, and that none of them is right, by their worths.
#[tactic(auto, using(crate::proofs::Greatest::are_of_worths))]
fn by_worths(alloc: Global, none: i64, losses: &[u64]) -> Result<Probabilities, AllocError>
    requires none { nat_abs none ≤ 2 ^ 54 }
    requires losses { All (λ lost. lost ≤ 2 ^ 61) losses.now }
    requires is_there { 0 < length losses.now }
    ensures { IfOk result (AreOfWorths none (map worth_of losses.now)) }
{
    let found = by_losses(alloc, none, losses)?;
    Ok(found)
}

/// How probable places are of which this is the likeliest, and that none of them is right.
fn with_likeliest(
    alloc: Global,
    weights: &Weights,
    places: &[Terms],
    likeliest: &Terms,
) -> Result<Probabilities, AllocError>
    requires is_there { 0 < length places.now }
    ensures { IfOk result (AreProbableBy weights.now places.now (Some likeliest.now)) }
{
    let losses = losses_of(alloc, weights, places)?;
    let found = by_worths(alloc, worth_of_none(weights, likeliest), &losses)?;
    Ok(found)
}

/// How probable places are, and that none of them is right, by what counts for and against each
/// place that was looked at, by rank. They are shares of the logistic model that the weights are
/// of.
///
/// # Errors
///
/// [`AllocError`] where the allocator refused memory.
pub fn probabilities(
    alloc: Global,
    weights: &Weights,
    places: &[Terms],
) -> Result<Probabilities, AllocError>
    ensures { IfOk result (AreProbable weights.now places.now) }
{
    let Some(likeliest) = likeliest_of(places) else {
        return Ok(Probabilities {
            places: Vec::new(alloc),
            none: 1_000_000,
        });
    };
    with_likeliest(alloc, weights, places, likeliest)
}
