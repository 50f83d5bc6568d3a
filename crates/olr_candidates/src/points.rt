//! The candidates of all points of a reference.

ghost use Rattle.std.specs.Prelude.{IfErr, IfOk};
ghost use Rattle.olr_candidates.specs.Points.{AreLists, IsLayersFault, lists_of};

use crate::candidate::Candidate;
use crate::fault::LayersFault;
use crate::list::MAX_CANDIDATES;
use crate::point::candidates;
use crate::tolerances::Tolerances;
use arrayvec::ArrayVec;
use olr_binary::Reference;
use olr_road::Map;
use std::alloc::Global;

/// The candidates of each point of a reference, point by point: what [`candidates`] gives.
///
/// # Errors
///
/// [`LayersFault::TooManyCandidates`] with the first point that has more than 64;
/// [`LayersFault::NoMemory`] where the allocator refused memory: no clause states when it comes.
#[tactic(auto, using(crate::proofs::AllPoints::first_too_many))]
pub fn candidates_of_points(
    alloc: Global,
    map: &Map,
    reference: &Reference,
    tolerances: &Tolerances,
) -> Result<Vec<ArrayVec<Candidate, MAX_CANDIDATES>>, LayersFault>
    ensures lists { IfOk result (λ lists.
        AreLists tolerances.now reference.now map.now.lines (lists_of lists.items)) }
    ensures fault { IfErr result (IsLayersFault tolerances.now reference.now map.now.lines) }
{
    let mut lists = Vec::new(alloc);
    for index in 0..reference.points().len() {
        let Ok(list) = candidates(map, reference, tolerances, index) else {
            return Err(LayersFault::TooManyCandidates(index + 1));
        };
        let Ok(()) = lists.push(list) else {
            return Err(LayersFault::NoMemory);
        };
    }
    Ok(lists)
}
