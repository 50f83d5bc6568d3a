//! The projection of a point onto a line of the map.

ghost use Rattle.std.specs.Prelude.{◌<◌, ◌≤◌, length, IfSome, MatchOption};
ghost use Rattle.olr_candidates.specs.Query.{Projects};
ghost use Rattle.olr_candidates.specs.declared.projection.Projection.{Projection as Projected};

use crate::polyline::polyline_of_line;
use crate::projection::{Projection, project, projection_by};
use crate::query::Query;
use olr_metric::{nearest, one_spot};
use olr_road::Map;

/// The projection of the query's point onto the line of a rank.
pub(crate) fn projection_at(map: &Map, query: &Query, rank: u32) -> Projection
    requires { rank < length map.now.lines }
    ensures projection { Projects query.now map.now.lines rank result }
    ensures sector { IfSome result.sector (λ sector. sector < 32) }
{
    let line = map.line(rank);
    let polyline = polyline_of_line(map, &query.plane, rank);
    let p = query.plane.to_plane(query.point.at);
    project(&polyline, line.length, query.is_last, p)
}

/// The projection of the query's point onto the line of a rank, where the line lies at most so many
/// centimetres away. Of a line that is farther away no arc is measured, so this is faster.
pub(crate) fn projection_within(
    map: &Map,
    query: &Query,
    rank: u32,
    most: u64,
) -> Option<Projection>
    requires { rank < length map.now.lines }
    ensures projection { MatchOption result
        ((projection : Projected) → Projects query.now map.now.lines rank projection
        → most < projection.distance)
        (Projects query.now map.now.lines rank) }
    ensures within { IfSome result (λ projection. projection.distance ≤ most) }
    ensures sector { IfSome result
        (λ projection. IfSome projection.sector (λ sector. sector < 32)) }
{
    one_spot();
    let line = map.line(rank);
    let polyline = polyline_of_line(map, &query.plane, rank);
    let p = query.plane.to_plane(query.point.at);
    let near = nearest(&polyline, p);
    if near.distance > most {
        return None;
    }
    Some(projection_by(&polyline, line.length, query.is_last, &near))
}
