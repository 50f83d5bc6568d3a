//! A leg of a reference on a map, between the candidates of its two points.

ghost use Rattle.std.specs.Prelude.{◌≡◌, ◌+◌, ◌<◌, [], length, slice_index_or};
ghost use Rattle.olr_binary.specs.Reference.{IsReference};
ghost use Rattle.olr_candidates.specs.Points.{AreLists, lists_of};
ghost use Rattle.olr_matching.specs.Leg.{class_limit, greatest_admitted};
ghost use Rattle.olr_matching.specs.LegOnMap.{IsLegFrom};

use crate::leg::{self, next_of};
use arrayvec::ArrayVec;
use olr_binary::{Next, Reference};
use olr_candidates::{Candidate, MAX_CANDIDATES, Tolerances, places};
use olr_road::Map;

/// A leg of a reference on a map, between the candidates of its two points.
#[derive(Clone, Copy)]
pub(crate) struct LegOnMap<'a> {
    pub(crate) map: &'a Map,
    pub(crate) tolerances: Tolerances,
    /// The attributes of the path from the first point to the second one.
    pub(crate) next: Next,
    pub(crate) firsts: &'a [Candidate],
    pub(crate) seconds: &'a [Candidate],
}

impl LegOnMap<'_> {
    /// The greatest class of the lines that a route may drive on, 0 to 7.
    pub(crate) fn class_limit(&self) -> u8
        ensures { result ≡ class_limit self.now.tolerances self.now.next }
    {
        leg::class_limit(&self.tolerances, &self.next)
    }

    /// The greatest length in decimetres that the leg admits, 586 to 310,032.
    pub(crate) fn greatest_admitted(&self) -> u64
        ensures { result ≡ greatest_admitted self.now.tolerances self.now.next }
    {
        leg::greatest_admitted(&self.tolerances, &self.next)
    }
}

/// The candidates of a point, counted from 0.
fn list_at(candidates: &[ArrayVec<Candidate, MAX_CANDIDATES>], layer: usize) -> &[Candidate]
    requires { layer < length candidates.now }
    ensures { result.now ≡ slice_index_or (lists_of candidates.now) layer [] }
{
    candidates[layer].as_slice()
}

/// The leg from a point of a reference, counted from 0 and not the last one, to the next one,
/// between these candidates of its points.
pub(crate) fn leg_at<'a>(
    map: &'a Map,
    reference: &Reference,
    tolerances: &Tolerances,
    candidates: &'a [ArrayVec<Candidate, MAX_CANDIDATES>],
    layer: usize,
) -> LegOnMap<'a>
    requires reference { IsReference reference.now }
    requires lists { AreLists tolerances.now reference.now map.now.lines (lists_of candidates.now) }
    requires within { layer + 1 < length candidates.now }

    ensures { IsLegFrom map.now tolerances.now reference.now (lists_of candidates.now) layer
        result }
{
    places();
    LegOnMap {
        map,
        tolerances: *tolerances,
        next: next_of(reference, layer),
        firsts: list_at(candidates, layer),
        seconds: list_at(candidates, layer + 1),
    }
}
