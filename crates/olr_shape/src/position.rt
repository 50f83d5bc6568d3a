//! Where a position of a line lies on the map.

ghost use Rattle.std.specs.Prelude.{◌≡◌, ◌+◌, ◌<◌, ◌≤◌, Some, length, option_map, slice_get};
ghost use Rattle.olr_base.specs.Coordinates.{coordinates_of};
ghost use Rattle.olr_shape.specs.Position.{arc_of_point, arc_of_position, segments_from, spot_at, spot_on, spot_within};

use crate::measured_line::{MeasuredLine, measured};
use crate::share::coordinates_between;
use olr_base::Degrees;
use olr_road::{Map, Place};

/// The spot of a position in decimetres on the segment of a number, counted from 0, whose ends have
/// at most and at least the position's arc.
fn spot_within(line: &MeasuredLine<'_>, at: u32, segment: usize) -> Degrees
    requires within { segment + 1 < length line.now.points }
    requires start { arc_of_point line.now.points line.now.length segment
        ≤ arc_of_position line.now.points line.now.length at }
    requires end { arc_of_position line.now.points line.now.length at
        ≤ arc_of_point line.now.points line.now.length (segment + 1) }
    ensures { option_map (spot_within line.now.points line.now.length at)
        (slice_get (segments_from 0 line.now.points) segment) ≡ Some (coordinates_of result) }
{
    let points = line.points();
    let start = line.arc_of_point(segment);
    let part = line.arc_of_position(at) - start;
    let whole = line.arc_of_point(segment + 1) - start;
    coordinates_between(points[segment], points[segment + 1], part, whole)
}

/// The spot of a position in decimetres: that on the first segment whose end has at least its arc.
/// There is none where the position is beyond the line's length.
pub(crate) fn spot_at(line: &MeasuredLine<'_>, at: u32) -> Option<Degrees>
    ensures { option_map coordinates_of result ≡ spot_at line.now.points line.now.length at }
{
    let position = line.arc_of_position(at);
    for segment in 0..line.points().len() - 1 {
        if position <= line.arc_of_point(segment + 1) {
            return Some(spot_within(line, at, segment));
        }
    }
    None
}

/// The spot of a place: its coordinates, to the nearest microdegree. There is none where the map
/// has no such line, or the place is beyond its end.
pub fn spot_on(map: &Map, place: Place) -> Option<Degrees>
    ensures { option_map coordinates_of result ≡ spot_on map.now place }
{
    if place.line < map.count() {
        spot_at(&measured(map, place.line), place.at)
    } else {
        None
    }
}
