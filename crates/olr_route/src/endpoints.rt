//! Tests on the two places that a route joins.

ghost use Rattle.std.specs.Prelude.{◌≡◌, ◌<◌, length, Decides};
ghost use Rattle.olr_road.specs.Place.{IsDeparture, IsPlace};
ghost use Rattle.olr_route.specs.Walk.{IsDrivable};

use olr_road::{Map, Place};

/// Whether a place is on the map: on one of its lines, at most at that line's end.
pub fn is_on_map(map: &Map, place: Place) -> bool
    ensures { Decides result (IsPlace map.now place) }
{
    place.line < map.count() && place.at <= map.line(place.line).length
}

/// Whether a place is on the map and before the end of its line, so that a vehicle can drive on
/// from it.
pub fn is_before_end(map: &Map, place: Place) -> bool
    ensures { Decides result (IsDeparture map.now place) }
{
    place.line < map.count() && place.at < map.line(place.line).length
}

/// Whether a vehicle can drive to a place from the start of its line: the place is that start, or
/// the class limit lets the line through.
pub(crate) fn is_open_up_to(map: &Map, class: u8, to: Place) -> bool
    requires { to.line < length map.now.lines }
    ensures { Decides result
        (IsDrivable map.now class record { line = to.line; from = 0; to = to.at }) }
{
    to.at == 0 || map.line(to.line).class <= class
}

/// Whether a place is ahead of another on the same line.
pub(crate) fn is_ahead(from: Place, to: Place) -> bool
    ensures { Decides result ((to.line ≡ from.line) × (from.at < to.at)) }
{
    to.line == from.line && from.at < to.at
}
