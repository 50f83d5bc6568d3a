//! The greatest value of a tolerance below the given one with which no point has more than 64
//! candidates.

ghost use Rattle.std.specs.Prelude.{◌≢◌, ◌<◌, ◌≤◌, ℕ, IfOk, IfSome, MatchOption};
ghost use Rattle.olr_candidates.specs.Seen.{AreSurroundings};
ghost use Rattle.olr_candidates.specs.declared.tolerances.Tolerance.TheVariants.{Lowest};
ghost use Rattle.olr_candidates.specs.Tolerances.{order_of};
ghost use Rattle.olr_candidates.specs.Values.{value_of};
ghost use Rattle.olr_why.specs.Remedies.{IsNarrower, IsUncrowdedWith};
ghost use Rattle.olr_why.specs.declared.trial.Trial.TheVariants.{Crowded};
ghost use Rattle.olr_why.specs.inner.Trying.{IsGreatest, IsTrialWith};

use crate::crowding::{greatest_between, surroundings_up_to};
use crate::remedy::{Change, Remedy};
use crate::trying::{is_crowded_with, matching_with};
use olr_base::NoMemory;
use olr_candidates::{ReferenceOnMap, Surroundings, Tolerance, one_candidate_a_line};
use std::alloc::Global;

/// The lines around the points up to the given radius, or up to one above `low` with which a point
/// has more than 64 candidates; none for the other tolerances.
fn surroundings_below(
    alloc: Global,
    on: &ReferenceOnMap<'_>,
    name: Tolerance,
    low: u32,
) -> Result<Option<Surroundings>, NoMemory>
    requires { low < value_of on.now.tolerances name }
    ensures around { IfOk result (λ around. IfSome around
        (AreSurroundings on.now.reference.now on.now.map.now.lines)) }
    ensures above { IfOk result (λ around. IfSome around (λ around. low < around.reach)) }
    ensures at_most { IfOk result (λ around. IfSome around
        (λ around. around.reach ≤ value_of on.now.tolerances name)) }
    ensures crowded { IfOk result (λ around. IfSome around
        (λ around. around.reach < value_of on.now.tolerances name
        → IsTrialWith on.now.map.now on.now.tolerances on.now.reference.now name around.reach
        Crowded)) }
{
    match name {
        Tolerance::Radius => surroundings_up_to(alloc, on, low, on.tolerances.radius),
        _ => Ok(None),
    }
}

/// The greatest value below the given one with which no point has more than 64 candidates; none
/// where there is no such value.
fn greatest_uncrowded(
    alloc: Global,
    on: &ReferenceOnMap<'_>,
    name: Tolerance,
) -> Result<Option<u32>, NoMemory>
    requires { order_of name ≢ order_of Lowest }
    ensures { IfOk result (λ value. MatchOption value
        ((value : ℕ) → value < value_of on.now.tolerances name
        → IsUncrowdedWith on.now.map.now on.now.tolerances on.now.reference.now name value
        → ⊥)
        (IsGreatest on.now.map.now on.now.tolerances on.now.reference.now name)) }
{
    one_candidate_a_line();
    let low = name.least();
    let given = on.tolerances.value(name);
    if low >= given {
        return Ok(None);
    }
    if is_crowded_with(alloc, on, name, low, None)? {
        return Ok(None);
    }
    let value = match surroundings_below(alloc, on, name, low)? {
        Some(around) => greatest_between(alloc, on, name, low, around.reach, Some(&around))?,
        None => greatest_between(alloc, on, name, low, given, None)?,
    };
    Ok(Some(value))
}

/// The greatest value below the given one with which no point has more than 64 candidates, and
/// the first matching that it gives, if it gives one.
pub(crate) fn narrower(
    alloc: Global,
    on: &ReferenceOnMap<'_>,
    name: Tolerance,
) -> Result<Option<Remedy>, NoMemory>
    requires { order_of name ≢ order_of Lowest }
    ensures { IfOk result
        (IsNarrower on.now.map.now on.now.tolerances on.now.reference.now name) }
{
    let Some(value) = greatest_uncrowded(alloc, on, name)? else {
        return Ok(None);
    };
    let matching = matching_with(alloc, on, name, value, None)?;
    Ok(Some(Remedy {
        change: Change::Set(name, value),
        matching,
    }))
}
