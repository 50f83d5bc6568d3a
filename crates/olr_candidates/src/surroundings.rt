//! The lines around all points of a reference: for trials that differ in their tolerances alone.

ghost use Rattle.std.specs.Prelude.{◌≡◌, ◌≤◌, IfErr, IfOk, IfSome};
ghost use Rattle.olr_candidates.specs.Points.{AreLists, IsLayersFault, lists_of};
ghost use Rattle.olr_candidates.specs.Seen.{AreSurroundings};

use crate::candidate::Candidate;
use crate::fault::LayersFault;
use crate::list::MAX_CANDIDATES;
use crate::query::query_of;
use crate::reference_on_map::ReferenceOnMap;
use crate::seen::{SeenLine, search_among, see};
use arrayvec::ArrayVec;
use olr_base::NoMemory;
use std::alloc::Global;

/// The most lines that are kept, of all points together.
const MAX_SEEN: usize = 100_000;

/// The lines around each point of a reference, with the projections of the point onto them. They
/// serve all tolerances with a radius up to their reach.
#[derive(Drop)]
pub struct Surroundings {
    /// How far from the points they reach, in metres.
    pub reach: u32,
    /// The lines around each point, point by point.
    points: Vec<Vec<SeenLine>>,
}

impl Surroundings {
    /// The lines at most `reach` metres away from each point of a reference, whatever its
    /// tolerances; the reach is at most 1,000,000. `None` where there are more than 100,000 of them,
    /// and it may be with just as many: no clause states when.
    ///
    /// # Errors
    ///
    /// [`NoMemory`] where the allocator refused memory.
    pub fn look(
        alloc: Global,
        on: &ReferenceOnMap<'_>,
        reach: u32,
    ) -> Result<Option<Surroundings>, NoMemory>
        requires { reach ≤ 1000000 }
        ensures reach { IfOk result (λ around. IfSome around (λ around. around.reach ≡ reach)) }
        ensures seen { IfOk result (λ around. IfSome around (λ around.
            AreSurroundings on.now.reference.now on.now.map.now.lines around)) }
    {
        let mut points = Vec::new(alloc);
        let mut left = MAX_SEEN;
        for index in 0..on.reference.points().len() {
            let query = query_of(on.reference, &on.tolerances, index);
            let Some(seen) = see(alloc, on.map, &query, reach, left)? else {
                return Ok(None);
            };
            left -= seen.len();
            points.push(seen)?;
        }
        Ok(Some(Surroundings { reach, points }))
    }

    /// The candidates of each point, point by point: what
    /// [`candidates_of_points`](crate::candidates_of_points) gives. These have to be the lines
    /// around the points of this reference on this map, and reach as far as the radius. No polyline
    /// of the map is looked at.
    ///
    /// # Errors
    ///
    /// Those of [`candidates_of_points`](crate::candidates_of_points).
    pub fn candidates(
        &self,
        alloc: Global,
        on: &ReferenceOnMap<'_>,
    ) -> Result<Vec<ArrayVec<Candidate, MAX_CANDIDATES>>, LayersFault>
        requires around { AreSurroundings on.now.reference.now on.now.map.now.lines self.now }
        requires radius { on.now.tolerances.radius ≤ self.now.reach }
        ensures lists { IfOk result (λ lists. AreLists on.now.tolerances on.now.reference.now
            on.now.map.now.lines (lists_of lists.items)) }
        ensures fault { IfErr result
            (IsLayersFault on.now.tolerances on.now.reference.now on.now.map.now.lines) }
    {
        let mut lists = Vec::new(alloc);
        for index in 0..self.points.len() {
            let query = query_of(on.reference, &on.tolerances, index);
            let Some(list) = search_among(on.map, &query, &self.points[index]) else {
                return Err(LayersFault::TooManyCandidates(index + 1));
            };
            let Ok(()) = lists.push(list) else {
                return Err(LayersFault::NoMemory);
            };
        }
        Ok(lists)
    }
}
