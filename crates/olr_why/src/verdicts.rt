//! The verdict on a reference, by its layers on a map.

ghost use Rattle.std.specs.Prelude.{◌<◌, ◌↔◌, Any, IfSome, IsSome, IsTrue, MatchOption};
ghost use Rattle.olr_road.specs.RoadMap.{RoadMap};
ghost use Rattle.olr_matching.specs.Layers.{AreLayersOn};
ghost use Rattle.olr_why.specs.Verdict.{AdmitsNone, HasNoCandidate, HaveCandidates, HavePairs};
ghost use Rattle.olr_why.specs.Verdict.{IsFirst, IsVerdict};

use crate::chain::first_without_tuple;
use crate::verdict::Verdict;
use olr_candidates::no_lists_and_too_many;
use olr_matching::Layers;

/// The first point without a candidate, counted from 0; none where each point has one.
fn first_without_candidate(layers: &Layers) -> Option<usize>
    ensures first { (road : RoadMap) → AreLayersOn road layers.now → MatchOption result
        (HaveCandidates road layers.now.tolerances layers.now.reference)
        (IsFirst (HasNoCandidate road layers.now.tolerances layers.now.reference)) }
    ensures at_most { IfSome result (λ point. point < 32) }
{
    for point in 0..layers.table().layers() {
        if layers.layer(point).is_empty() {
            return Some(point);
        }
    }
    None
}

/// Whether a leg with these lengths admits a pair of candidates.
fn has_pair(lengths: &[Option<u32>]) -> bool
    ensures { IsTrue result ↔ Any (λ length. IsSome length) lengths.now }
{
    lengths.iter().any(|length| length.is_some())
}

/// The first leg that admits no pair of candidates, by the point from which it leads, counted from
/// 0; none where each leg admits one.
fn first_without_pair(layers: &Layers) -> Option<usize>
    ensures first { (road : RoadMap) → AreLayersOn road layers.now → MatchOption result
        (HavePairs road layers.now.tolerances layers.now.reference)
        (IsFirst (AdmitsNone road layers.now.tolerances layers.now.reference)) }
    ensures at_most { IfSome result (λ point. point < 32) }
{
    for point in 0..layers.table().layers() - 1 {
        if !has_pair(layers.lengths(point)) {
            return Some(point);
        }
    }
    None
}

/// The first thing that stands between a reference and a matching, by its layers on a map: a point
/// without a candidate, a leg that admits no pair, or a number of first points that have no tuple
/// of candidates, one of each, each two neighbours admitted by their leg. Layers are given only
/// where no point has more than 64 candidates, so it is never [`Verdict::Crowded`].
pub fn verdict_of(layers: &Layers) -> Verdict
    ensures { (road : RoadMap) → AreLayersOn road layers.now
        → IsVerdict road layers.now.tolerances layers.now.reference result }
{
    no_lists_and_too_many();
    if let Some(point) = first_without_candidate(layers) {
        return Verdict::Point(point + 1);
    }
    if let Some(point) = first_without_pair(layers) {
        return Verdict::Leg(point + 1);
    }
    match first_without_tuple(layers) {
        Some(count) => Verdict::Chain(count),
        None => Verdict::Match,
    }
}
