//! The lines near a point: those that meet a window around it.

ghost use Rattle.std.specs.Prelude.{◌≡◌, ◌*◌, ◌^◌, ◌≤◌, ℤ, pos, ◌≤ℤ◌, ◌+ℤ◌, ◌-ℤ◌, nat_abs};
ghost use Rattle.olr_base.specs.Coordinates.{coordinates_of};
ghost use Rattle.olr_base.specs.Range.{IsLatitude, IsLongitude};
ghost use Rattle.olr_candidates.specs.Query.{x_of, HoldAllWithin, CoversRadius};

use crate::query::Query;
use olr_base::Degrees;
use olr_metric::{foot_on_segment, no_shorter_than_east, no_shorter_than_north};
use olr_road::{BoundingBox, Map, Window};

/// The least longitude of any place, in microdegrees.
const WESTERNMOST: i32 = -180_000_000;

/// The greatest.
const EASTERNMOST: i32 = 180_000_000;

/// A latitude `by` microdegrees further north, or further south where `by` is negative.
fn moved(lat: i32, by: i32) -> i32
    requires lat { IsLatitude lat }
    requires by { nat_abs by ≤ 9000001 }
    ensures moved { result ≡ lat +ℤ by }
    ensures at_most { nat_abs result ≤ 2 ^ 30 }
{
    lat + by
}

/// The x of a longitude in the query's plane, in centimetres.
fn x_at(query: &Query, lon: i32) -> i64
    requires { IsLongitude lon }
    ensures x { result ≡ x_of (coordinates_of query.now.plane) lon }
    ensures at_most { nat_abs result ≤ 2 ^ 33 }
{
    let lat = query.point.at.lat;
    query.plane.to_plane(Degrees { lon, lat }).x
}

/// About how many microdegrees of longitude so many metres are long: by the length of a degree in
/// the plane, and 2 more. Those who use it test whether it suffices.
fn reach_in_longitude(query: &Query, radius: u32) -> i32
    requires { radius ≤ 1000000 }
    ensures positive { pos 0 ≤ℤ result }
    ensures at_most { result ≤ℤ pos 180000002 }
{
    let degree = (x_at(query, 1_000_000) - x_at(query, 0)).unsigned_abs();
    let reach = 1_000_000 * (100 * u64::from(radius)) / degree.max(1);
    reach.min(180_000_000) as i32 + 2
}

/// A longitude east of which the x of every place is more than so many metres greater than the
/// point's.
fn eastern_bound(query: &Query, radius: u32) -> i32
    requires { radius ≤ 1000000 }
    ensures { (lon : ℤ) → IsLongitude lon
        → x_of (coordinates_of query.now.plane) lon
        ≤ℤ (x_of (coordinates_of query.now.plane) query.now.point.at.lon +ℤ pos (100 * radius))
        → lon ≤ℤ result }
{
    let lon = query.point.at.lon;
    let edge = x_at(query, lon) + i64::from(100 * radius);
    let bound = lon + reach_in_longitude(query, radius);
    if bound >= EASTERNMOST {
        return EASTERNMOST;
    }
    if x_at(query, bound + 1) <= edge {
        return EASTERNMOST;
    }
    bound
}

/// A longitude west of which the x of every place is more than so many metres less than the
/// point's.
fn western_bound(query: &Query, radius: u32) -> i32
    requires { radius ≤ 1000000 }
    ensures { (lon : ℤ) → IsLongitude lon
        → (x_of (coordinates_of query.now.plane) query.now.point.at.lon -ℤ pos (100 * radius))
        ≤ℤ x_of (coordinates_of query.now.plane) lon
        → result ≤ℤ lon }
{
    let lon = query.point.at.lon;
    let edge = x_at(query, lon) - i64::from(100 * radius);
    let bound = lon - reach_in_longitude(query, radius);
    if bound <= WESTERNMOST {
        return WESTERNMOST;
    }
    if x_at(query, bound - 1) >= edge {
        return WESTERNMOST;
    }
    bound
}

/// A window that holds every place whose x and y in the plane differ from the point's by at most
/// a radius of R metres. In latitude it reaches `9 R + 1` microdegrees to each side: a
/// microdegree of latitude is 11.132 cm in the plane, so 1 m is at most 8.99 of them; the 1 more
/// covers the rounding of spots.
fn window_around(query: &Query, radius: u32) -> BoundingBox
    requires { radius ≤ 1000000 }
    ensures { CoversRadius query.now radius result }
{
    let reach = (9 * radius + 1) as i32;
    let lat = query.point.at.lat;
    BoundingBox {
        south: moved(lat, -reach),
        north: moved(lat, reach),
        west: western_bound(query, radius),
        east: eastern_bound(query, radius),
    }
}

/// The ranks of lines, among them all that lie at most so many metres away from the query's point:
/// those of the lines that meet the window of [`window_around`]. A line whose points all lie to one
/// side of it is farther away than the radius.
pub(crate) fn lines_within<'a>(map: &'a Map, query: &Query, radius: u32) -> Window<'a>
    requires { radius ≤ 1000000 }
    ensures { HoldAllWithin query.now map.now.lines radius result }
{
    foot_on_segment();
    no_shorter_than_north();
    no_shorter_than_east();
    map.window(&window_around(query, radius))
}
