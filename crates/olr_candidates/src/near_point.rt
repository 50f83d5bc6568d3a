//! The lines near a point of a reference.

ghost use Rattle.std.specs.Prelude.{◌<◌, length, IfOk};
ghost use Rattle.olr_binary.specs.Reference.{points_of};
ghost use Rattle.olr_candidates.specs.Near.{AreNearestOf, IsNearLineOf};

use crate::near::{NearLine, near_at};
use crate::near_search::search_nearest;
use crate::query::query_of;
use crate::reference_on_map::ReferenceOnMap;
use crate::tolerances::Tolerances;
use olr_base::NoMemory;
use olr_binary::Reference;
use olr_road::Map;
use std::alloc::Global;

/// The line of a rank near the point `index` of a reference, counted from 0, with the conditions on
/// a candidate that it fails. The reference has to have that point, and the map that line.
pub fn near_line(
    map: &Map,
    reference: &Reference,
    tolerances: &Tolerances,
    index: usize,
    rank: u32,
) -> NearLine
    requires index { index < length (points_of reference.now) }
    requires rank { rank < length map.now.lines }
    ensures { IsNearLineOf tolerances.now reference.now map.now.lines index rank result }
{
    near_at(map, &query_of(reference, tolerances, index), rank)
}

/// The lines of the map that are nearest to the point `index` of a reference, counted from 0, by
/// distance and then by id: `count` of them, or all where the map has fewer. The reference has to
/// have that point.
///
/// # Errors
///
/// [`NoMemory`] where the allocator refused memory.
pub fn nearest_lines(
    alloc: Global,
    on: &ReferenceOnMap<'_>,
    index: usize,
    count: usize,
) -> Result<Vec<NearLine>, NoMemory>
    requires { index < length (points_of on.now.reference.now) }
    ensures { IfOk result (λ nearest.
        AreNearestOf on.now.tolerances on.now.reference.now on.now.map.now.lines index count nearest.items) }
{
    let query = query_of(on.reference, &on.tolerances, index);
    let nearest = search_nearest(alloc, on.map, &query, count)?;
    Ok(nearest)
}
