//! What is found for a reference on a map with some tolerances.

ghost use Rattle.std.specs.Prelude.{◌≡◌, Any, Decides, IfErr, IfOk, IfSome, MatchOption};
ghost use Rattle.arrayvec.specs.ArrayVec.{array_vec_len};
ghost use Rattle.olr_candidates.specs.Points.{AreLists, IsLayersFault, lists_of};
ghost use Rattle.olr_candidates.specs.Seen.{AreSurroundings};
ghost use Rattle.olr_why.specs.inner.Trial.{IsCrowded, IsFirstKey, IsTrial};

use crate::laws::matching_has_key;
use arrayvec::ArrayVec;
use olr_base::NoMemory;
use olr_candidates::{
    Candidate, LayersFault, MAX_CANDIDATES, ReferenceOnMap, Surroundings, candidates_of_points,
    no_lists_and_too_many,
};
use olr_keys::{Finder, Key, TotalsFinder};
use olr_matching::Layers;
use std::alloc::Global;

/// What is found with some tolerances.
#[derive(Drop)]
pub(crate) enum Trial {
    /// A point has more than 64 candidates.
    Crowded,
    /// No point has, and there is no matching.
    NoMatching,
    /// No point has, and this is the key of the first matching.
    Matching(Key),
}

/// The candidates of each point: by the lines `around` the points, where these reach as far as the
/// radius.
fn candidates_around(
    alloc: Global,
    on: &ReferenceOnMap<'_>,
    around: Option<&Surroundings>,
) -> Result<Vec<ArrayVec<Candidate, MAX_CANDIDATES>>, LayersFault>
    requires { IfSome around (λ around.
        AreSurroundings on.now.reference.now on.now.map.now.lines around.now) }
    ensures lists { IfOk result (λ lists. AreLists on.now.tolerances on.now.reference.now
        on.now.map.now.lines (lists_of lists.items)) }
    ensures fault { IfErr result
        (IsLayersFault on.now.tolerances on.now.reference.now on.now.map.now.lines) }
{
    match around {
        Some(around) if on.tolerances.radius <= around.reach => around.candidates(alloc, on),
        _ => candidates_of_points(alloc, on.map, on.reference, &on.tolerances),
    }
}

/// The candidates of each point, in the same way; none where a point has more than 64.
pub(crate) fn lists_of_points(
    alloc: Global,
    on: &ReferenceOnMap<'_>,
    around: Option<&Surroundings>,
) -> Result<Option<Vec<ArrayVec<Candidate, MAX_CANDIDATES>>>, NoMemory>
    requires { IfSome around (λ around.
        AreSurroundings on.now.reference.now on.now.map.now.lines around.now) }
    ensures { IfOk result (λ lists. MatchOption lists
        (IsCrowded on.now.map.now on.now.tolerances on.now.reference.now)
        (λ lists. AreLists on.now.tolerances on.now.reference.now on.now.map.now.lines
        (lists_of lists.items))) }
{
    match candidates_around(alloc, on, around) {
        Ok(lists) => Ok(Some(lists)),
        Err(LayersFault::TooManyCandidates(_)) => Ok(None),
        Err(LayersFault::NoMemory) => Err(NoMemory),
    }
}

/// Whether a point has no candidate.
fn has_empty(lists: &[ArrayVec<Candidate, MAX_CANDIDATES>]) -> bool
    ensures { Decides result (Any (λ list. array_vec_len list ≡ 0) lists.now) }
{
    lists.iter().any(|list| list.is_empty())
}

/// The first key of the table of layers, if it has one.
fn first_key(alloc: Global, layers: &Layers) -> Result<Option<Key>, NoMemory>
    ensures { IfOk result (IsFirstKey layers.now.penalties) }
{
    let mut finder = TotalsFinder::build(alloc, layers.table())?;
    let first = finder.next(alloc, None)?;
    Ok(first)
}

/// What is found for a reference on a map. Where a point has no candidate, no route is looked for,
/// and behind a leg that admits no pair of candidates none either.
pub(crate) fn try_tolerances(
    alloc: Global,
    on: &ReferenceOnMap<'_>,
    around: Option<&Surroundings>,
) -> Result<Trial, NoMemory>
    requires { IfSome around (λ around.
        AreSurroundings on.now.reference.now on.now.map.now.lines around.now) }
    ensures { IfOk result (IsTrial on.now.map.now on.now.tolerances on.now.reference.now) }
{
    no_lists_and_too_many();
    matching_has_key();
    let Some(lists) = lists_of_points(alloc, on, around)? else {
        return Ok(Trial::Crowded);
    };
    if has_empty(&lists) {
        return Ok(Trial::NoMatching);
    }
    let Some(layers) = Layers::with_admitting_legs(alloc, on, lists)? else {
        return Ok(Trial::NoMatching);
    };
    match first_key(alloc, &layers)? {
        Some(key) => Ok(Trial::Matching(key)),
        None => Ok(Trial::NoMatching),
    }
}
