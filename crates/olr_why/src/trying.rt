//! What is found where one tolerance has another value: by the lines around the points, where these
//! are known.

ghost use Rattle.std.specs.Prelude.{◌≡◌, IfOk, IfSome, MatchBool};
ghost use Rattle.olr_candidates.specs.Seen.{AreSurroundings};
ghost use Rattle.olr_candidates.specs.Tolerances.{IsTolerance};
ghost use Rattle.olr_why.specs.Remedies.{IsChanged, IsUncrowdedWith};
ghost use Rattle.olr_why.specs.inner.Trying.{IsMatchingWith, IsTrialWith};
ghost use Rattle.olr_why.specs.declared.trial.Trial.TheVariants.{Crowded};

use crate::trial::{Trial, lists_of_points, try_tolerances};
use olr_base::NoMemory;
use olr_candidates::{
    ReferenceOnMap, Surroundings, Tolerance, no_lists_and_too_many, one_candidate_a_line,
};
use olr_keys::Key;
use std::alloc::Global;

/// The reference on the map, where the tolerance of this name has this value.
fn with_value<'a>(on: &ReferenceOnMap<'a>, name: Tolerance, value: u32) -> ReferenceOnMap<'a>
    requires { IsTolerance name value }
    ensures map { result.map.now ≡ on.now.map.now }
    ensures reference { result.reference.now ≡ on.now.reference.now }
    ensures tolerances { IsChanged name value on.now.tolerances result.tolerances }
{
    ReferenceOnMap {
        map: on.map,
        reference: on.reference,
        tolerances: on.tolerances.with(name, value),
    }
}

/// What is found where the tolerance of this name has this value.
pub(crate) fn try_value(
    alloc: Global,
    on: &ReferenceOnMap<'_>,
    name: Tolerance,
    value: u32,
    around: Option<&Surroundings>,
) -> Result<Trial, NoMemory>
    requires value { IsTolerance name value }
    requires around { IfSome around (λ around.
        AreSurroundings on.now.reference.now on.now.map.now.lines around.now) }
    ensures { IfOk result
        (IsTrialWith on.now.map.now on.now.tolerances on.now.reference.now name value) }
{
    let changed = with_value(on, name, value);
    let trial = try_tolerances(alloc, &changed, around)?;
    Ok(trial)
}

/// The key of the first matching where the tolerance of this name has this value; none where
/// there is no matching or a point has more than 64 candidates.
#[tactic(auto, using(crate::proofs::Tried::crowded_is_none, crate::proofs::Tried::without_is_none))]
pub(crate) fn matching_with(
    alloc: Global,
    on: &ReferenceOnMap<'_>,
    name: Tolerance,
    value: u32,
    around: Option<&Surroundings>,
) -> Result<Option<Key>, NoMemory>
    requires value { IsTolerance name value }
    requires around { IfSome around (λ around.
        AreSurroundings on.now.reference.now on.now.map.now.lines around.now) }
    ensures { IfOk result
        (IsMatchingWith on.now.map.now on.now.tolerances on.now.reference.now name value) }
{
    one_candidate_a_line();
    match try_value(alloc, on, name, value, around)? {
        Trial::Crowded => Ok(None),
        Trial::NoMatching => Ok(None),
        Trial::Matching(key) => Ok(Some(key)),
    }
}

/// Whether a point has more than 64 candidates where the tolerance of this name has this value.
pub(crate) fn is_crowded_with(
    alloc: Global,
    on: &ReferenceOnMap<'_>,
    name: Tolerance,
    value: u32,
    around: Option<&Surroundings>,
) -> Result<bool, NoMemory>
    requires value { IsTolerance name value }
    requires around { IfSome around (λ around.
        AreSurroundings on.now.reference.now on.now.map.now.lines around.now) }
    ensures { IfOk result (λ crowded. MatchBool crowded
        (IsTrialWith on.now.map.now on.now.tolerances on.now.reference.now name value Crowded)
        (IsUncrowdedWith on.now.map.now on.now.tolerances on.now.reference.now name value)) }
{
    no_lists_and_too_many();
    let changed = with_value(on, name, value);
    let Some(_lists) = lists_of_points(alloc, &changed, around)? else {
        return Ok(true);
    };
    Ok(false)
}
