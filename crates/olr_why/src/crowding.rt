//! From which value of a tolerance on a point has more than 64 candidates: found without a search
//! for routes.

ghost use Rattle.std.specs.Prelude.{◌+◌, ◌<◌, ◌≤◌, IfOk, IfSome};
ghost use Rattle.olr_candidates.specs.Seen.{AreSurroundings};
ghost use Rattle.olr_candidates.specs.Tolerances.{greatest_of, least_of};
ghost use Rattle.olr_candidates.specs.declared.tolerances.Tolerance.TheVariants.{Radius};
ghost use Rattle.olr_why.specs.Remedies.{IsUncrowdedWith};
ghost use Rattle.olr_why.specs.declared.trial.Trial.TheVariants.{Crowded};
ghost use Rattle.olr_why.specs.inner.Trying.{IsTrialWith};

use crate::trying::is_crowded_with;
use olr_base::NoMemory;
use olr_candidates::{ReferenceOnMap, Surroundings, Tolerance};
use std::alloc::Global;

/// How far the first look for a radius reaches at least, in metres.
const FIRST_REACH: u32 = 30;

/// The lines around the points up to a radius above `start` with which a point has more than 64
/// candidates, or else up to `most`, in metres. Each look reaches twice as far as the one before
/// it, so that not much is seen in vain. None where there are too many lines to keep.
pub(crate) fn surroundings_up_to(
    alloc: Global,
    on: &ReferenceOnMap<'_>,
    start: u32,
    most: u32,
) -> Result<Option<Surroundings>, NoMemory>
    requires above { start < most }
    requires most { most ≤ greatest_of Radius }
    ensures around { IfOk result (λ around. IfSome around
        (AreSurroundings on.now.reference.now on.now.map.now.lines)) }
    ensures above { IfOk result (λ around. IfSome around (λ around. start < around.reach)) }
    ensures at_most { IfOk result (λ around. IfSome around (λ around. around.reach ≤ most)) }
    ensures crowded { IfOk result (λ around. IfSome around (λ around. around.reach < most
        → IsTrialWith on.now.map.now on.now.tolerances on.now.reference.now Radius around.reach
        Crowded)) }
{
    let mut reach = (2 * start).max(FIRST_REACH);
    while reach < most {
        let Some(around) = Surroundings::look(alloc, on, reach)? else {
            return Ok(None);
        };
        if is_crowded_with(alloc, on, Tolerance::Radius, reach, Some(&around))? {
            return Ok(Some(around));
        }
        reach *= 2;
    }
    let around = Surroundings::look(alloc, on, most)?;
    Ok(around)
}

/// The greatest value from `low` on and below `high` with which no point has more than 64
/// candidates, if that is so with `low`, and not with `high`. A point that has too many has with
/// each greater value, so it is found by halving.
pub(crate) fn greatest_between(
    alloc: Global,
    on: &ReferenceOnMap<'_>,
    name: Tolerance,
    low: u32,
    high: u32,
    around: Option<&Surroundings>,
) -> Result<u32, NoMemory>
    requires least { least_of name ≤ low }
    requires lower { low < high }
    requires greatest { high ≤ greatest_of name }
    requires around { IfSome around (λ around.
        AreSurroundings on.now.reference.now on.now.map.now.lines around.now) }
    ensures low { IfOk result (λ value. low ≤ value) }
    ensures high { IfOk result (λ value. value < high) }
    ensures uncrowded { IfOk result (λ value. low < value
        → IsUncrowdedWith on.now.map.now on.now.tolerances on.now.reference.now name value) }
    ensures crowded { IfOk result (λ value. value + 1 < high
        → IsTrialWith on.now.map.now on.now.tolerances on.now.reference.now name (value + 1)
        Crowded) }
{
    let mut value = low;
    let mut crowded = high;
    while crowded - value > 1 {
        let middle = value + (crowded - value) / 2;
        if is_crowded_with(alloc, on, name, middle, around)? {
            crowded = middle;
        } else {
            value = middle;
        }
    }
    Ok(value)
}
