//! The polyline of a line of the map, in a plane.

ghost use Rattle.std.specs.Prelude.{◌≡◌, ◌<◌, ◌≤◌, length, map, slice_get, All, Some};
ghost use Rattle.olr_road.specs.RoadMap.{RoadLine};
ghost use Rattle.olr_base.specs.Coordinates.{coordinates_of};
ghost use Rattle.olr_metric.specs.Plane.{spot_of};
ghost use Rattle.olr_metric.specs.Polyline.{IsPolyline};
ghost use Rattle.olr_metric.specs.Spot.{IsInPlane};
ghost use Rattle.olr_candidates.specs.Projection.{polyline_of as polyline_on};

use arrayvec::ArrayVec;
use olr_base::Degrees;
use olr_metric::{Plane, Spot, one_place_a_spot};
use olr_road::{Map, sound};

/// The most points of a line.
pub const MAX_POINTS: usize = 66;

/// Where the points of a line lie in a plane.
pub(crate) fn polyline_of(plane: &Plane, points: &[Degrees]) -> ArrayVec<Spot, MAX_POINTS>
    requires { length points.now ≤ 66 }
    ensures in_plane { All IsInPlane result.items }
    ensures spots { result.items
        ≡ map (λ point. spot_of (coordinates_of plane.now) (coordinates_of point)) points.now }
{
    let mut polyline = ArrayVec::new();
    for &point in points {
        polyline.push(plane.to_plane(point));
    }
    polyline
}

/// Where the points of the line of a rank lie in a plane, in centimetres from its origin.
pub fn polyline_of_line(map: &Map, plane: &Plane, rank: u32) -> ArrayVec<Spot, MAX_POINTS>
    requires { rank < length map.now.lines }
    ensures spots { (line : RoadLine) → slice_get map.now.lines rank ≡ Some line
        → result.items ≡ polyline_on (coordinates_of plane.now) line }
    ensures polyline { IsPolyline result.items }
{
    sound(map);
    one_place_a_spot();
    polyline_of(plane, map.points(rank))
}
