//! Tuples of candidates of neighbouring points, of which each leg admits the two that it joins.

ghost use Rattle.std.specs.Prelude.{◌+◌, ◌<◌, ◌↔◌, Any, IsTrue, MatchOption};
ghost use Rattle.olr_road.specs.RoadMap.{RoadMap};
ghost use Rattle.olr_matching.specs.Layers.{AreLayersOn};
ghost use Rattle.olr_why.specs.Chain.{HasMatching};
ghost use Rattle.olr_why.specs.inner.Ends.{AreEnds, IsJoined};
ghost use Rattle.olr_why.specs.Verdict.{HasNoTuple, IsFirst};

use arrayvec::ArrayVec;
use olr_candidates::MAX_CANDIDATES;
use olr_matching::Layers;

/// Whether the leg from a layer admits two candidates, by their indices in their layers.
fn is_joined(layers: &Layers, layer: usize, first: u8, second: u8) -> bool
    requires { layer < 32 }
    ensures { IsTrue result ↔ IsJoined layers.now layer first second }
{
    let index = usize::from(first) * layers.layer(layer + 1).len() + usize::from(second);
    matches!(layers.lengths(layer).get(index), Some(Some(_)))
}

/// Whether it admits a candidate of the next layer with one of these of the layer.
fn is_joined_to_one(layers: &Layers, layer: usize, firsts: &[u8], second: u8) -> bool
    requires { layer < 32 }
    ensures { IsTrue result
        ↔ Any (λ first. IsJoined layers.now layer first second) firsts.now }
{
    firsts
        .iter()
        .any(|first| is_joined(layers, layer, *first, second))
}

/// The candidates of the first layer.
fn first_ends(layers: &Layers) -> ArrayVec<u8, MAX_CANDIDATES>
    ensures { AreEnds layers.now 0 result.items }
{
    let mut ends = ArrayVec::new();
    for index in 0..layers.layer(0).len() {
        ends.push(index as u8);
    }
    ends
}

/// The candidates of the next layer at which a tuple ends, by those of a layer.
fn next_ends(layers: &Layers, layer: usize, ends: &[u8]) -> ArrayVec<u8, MAX_CANDIDATES>
    requires layer { layer < 32 }
    requires ends { AreEnds layers.now layer ends.now }
    ensures { AreEnds layers.now (layer + 1) result.items }
{
    let mut next = ArrayVec::new();
    for index in 0..layers.layer(layer + 1).len() {
        if is_joined_to_one(layers, layer, ends, index as u8) {
            next.push(index as u8);
        }
    }
    next
}

/// The least number of first points that have no tuple of candidates, one of each, each two
/// neighbours admitted by their leg; none where there is such a tuple of all points, a matching.
pub(crate) fn first_without_tuple(layers: &Layers) -> Option<usize>
    ensures { (road : RoadMap) → AreLayersOn road layers.now → MatchOption result
        (HasMatching road layers.now.tolerances layers.now.reference)
        (IsFirst (HasNoTuple road layers.now.tolerances layers.now.reference)) }
{
    let mut ends = first_ends(layers);
    if ends.is_empty() {
        return Some(1);
    }
    for layer in 1..layers.table().layers() {
        ends = next_ends(layers, layer - 1, &ends);
        if ends.is_empty() {
            return Some(layer + 1);
        }
    }
    None
}
