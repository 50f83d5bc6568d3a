//! Whether a route turns back.

ghost use Rattle.std.specs.Prelude.{◌≡◌, ◌^◌, ◌≤◌, pos, ◌+ℤ◌, ◌-ℤ◌, ◌*ℤ◌, ◌<ℤ◌, Decides, length, map, nat_abs};
ghost use Rattle.olr_base.specs.Coordinates.{coordinates_of};
ghost use Rattle.olr_metric.specs.Spot.{IsInPlane};
ghost use Rattle.olr_report.specs.Entries.{HasLine, HasPieces};
ghost use Rattle.olr_detail.specs.Turning.{IsSharp, MeetSharply, TurnsBack, TurnsBackAt, cross_of, dot_of};

use olr_base::Degrees;
use olr_metric::{Plane, Spot};
use olr_road::Map;
use olr_route::Piece;

/// The product of two coordinates of spots, in square centimetres.
fn times(one: i64, other: i64) -> i128
    requires one { nat_abs one ≤ 2 ^ 33 }
    requires other { nat_abs other ≤ 2 ^ 33 }
    ensures product { result ≡ one *ℤ other }
    ensures at_most { nat_abs result ≤ 2 ^ 66 }
{
    i128::from(one) * i128::from(other)
}

/// The sum of two products.
fn sum(one: i128, other: i128) -> i128
    requires one { nat_abs one ≤ 2 ^ 66 }
    requires other { nat_abs other ≤ 2 ^ 66 }
    ensures sum { result ≡ one +ℤ other }
{
    one + other
}

/// The difference of two products.
fn difference(one: i128, other: i128) -> i128
    requires one { nat_abs one ≤ 2 ^ 66 }
    requires other { nat_abs other ≤ 2 ^ 66 }
    ensures difference { result ≡ one -ℤ other }
{
    one - other
}

/// Whether a number is greater than the amount of another one.
fn exceeds_amount(number: i128, other: i128) -> bool
    ensures { Decides result (pos (nat_abs other) <ℤ number) }
{
    0 < number && other.unsigned_abs() < number.unsigned_abs()
}

/// The dot product of the directions from the plane's origin to two spots.
fn dot_of(a: Spot, b: Spot) -> i128
    requires a { IsInPlane a }
    requires b { IsInPlane b }
    ensures { result ≡ dot_of a b }
{
    sum(times(a.x, b.x), times(a.y, b.y))
}

/// The cross product of the directions from the plane's origin to two spots.
fn cross_of(a: Spot, b: Spot) -> i128
    requires a { IsInPlane a }
    requires b { IsInPlane b }
    ensures { result ≡ cross_of a b }
{
    difference(times(a.x, b.y), times(a.y, b.x))
}

/// Whether the angle between the directions from the plane's origin to two spots is less than 45
/// degrees.
fn is_sharp(a: Spot, b: Spot) -> bool
    requires a { IsInPlane a }
    requires b { IsInPlane b }
    ensures { Decides result (IsSharp a b) }
{
    exceeds_amount(dot_of(a, b), cross_of(a, b))
}

/// Whether two lines with these points meet in a sharp angle, where the first one ends.
fn meet_sharply(points: &[Degrees], others: &[Degrees]) -> bool
    requires points { 2 ≤ length points.now }
    requires others { 2 ≤ length others.now }
    ensures { Decides result (MeetSharply (map coordinates_of points.now)
        (map coordinates_of others.now)) }
{
    let count = points.len();
    let plane = Plane::at(points[count - 1]);
    is_sharp(plane.to_plane(points[count - 2]), plane.to_plane(others[1]))
}

/// Whether a route turns back from a piece to the next one.
fn turns_back_at(map: &Map, piece: &Piece, next: &Piece) -> bool
    requires piece { HasLine map.now piece.now.line }
    requires next { HasLine map.now next.now.line }
    ensures { Decides result (TurnsBackAt map.now.lines piece.now next.now) }
{
    let (line, other) = (map.line(piece.line), map.line(next.line));
    piece.to == line.length
        && next.from == 0
        && next.line != piece.line
        && other.from == line.to
        && other.to == line.from
        && meet_sharply(map.points(piece.line), map.points(next.line))
}

/// Whether a route turns back: drives to the end of a line, and from there straight back along the
/// line of the other direction.
pub(crate) fn turns_back(map: &Map, route: &[Piece]) -> bool
    requires { HasPieces map.now route.now }
    ensures { Decides result (TurnsBack map.now.lines route.now) }
{
    for index in 1..route.len() {
        if turns_back_at(map, &route[index - 1], &route[index]) {
            return true;
        }
    }
    false
}
