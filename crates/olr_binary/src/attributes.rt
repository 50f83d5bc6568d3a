//! The points of a reference: their coordinates and attributes.

ghost use Rattle.std.specs.Prelude.{◌≡◌, ◌+◌, ◌-◌, ◌*◌, ◌<◌, ◌≤◌, length, MatchResult};
ghost use Rattle.olr_base.specs.Coordinates.{Coordinates, IsInRange};
ghost use Rattle.olr_binary.specs.Coordinates.{place_of};
ghost use Rattle.olr_binary.specs.Point.{ArePoints, HasAttributes};
ghost use Rattle.olr_binary.specs.Stages.{IsOutOfRangeAt};

use crate::bits::bits;
use crate::coordinates::UncheckedDegrees;
use crate::point::{Next, Point};
use crate::reference::MAX_POINTS;
use crate::refusal::Refused;
use arrayvec::ArrayVec;
use olr_base::Degrees;

/// Point `index`, from 0, of `count`. Its coordinates are `at`.
fn point_at(bytes: &[u8], count: usize, index: usize, at: Degrees) -> Point
    requires whole { 2 + 7 * count ≤ length bytes.now }
    requires inside { index < count }
    ensures at { result.at ≡ at }
    ensures attributes { HasAttributes bytes.now count index result }
{
    let first = bytes[7 + 7 * index];
    let second = bytes[8 + 7 * index];
    let next = if index + 1 < count {
        Some(Next {
            lowest: bits(second, 5, 3),
            interval: bytes[9 + 7 * index],
        })
    } else {
        None
    };
    Point {
        at,
        class: bits(first, 3, 3),
        form: bits(first, 0, 3),
        sector: bits(second, 0, 5),
        next,
    }
}

/// The coordinates of a point, by those of the point before it. For the first point `before` is its
/// own.
fn place_at(bytes: &[u8], index: usize, before: UncheckedDegrees) -> UncheckedDegrees
    requires inside { 7 + 7 * index ≤ length bytes.now }
    requires before { 0 < index → IsInRange before }
    ensures { (first : Coordinates) → before ≡ place_of bytes.now first (index - 1)
        → result ≡ place_of bytes.now first index }
{
    if index == 0 {
        before
    } else {
        before.moved(bytes, 3 + 7 * index)
    }
}

/// All points, or the refusal of the first one outside the ranges of coordinates.
pub(crate) fn read_points(
    bytes: &[u8],
    count: usize,
) -> Result<ArrayVec<Point, MAX_POINTS>, Refused>
    requires whole { 2 + 7 * count ≤ length bytes.now }
    requires at_least { 2 ≤ count }
    requires at_most { count ≤ MAX_POINTS }
    ensures { MatchResult result
        (λ points. (length points.items ≡ count) × ArePoints bytes.now points.items)
        (IsOutOfRangeAt bytes.now count) }
{
    let mut points = ArrayVec::new();
    let mut place = UncheckedDegrees::first(bytes);
    for index in 0..count {
        place = place_at(bytes, index, place);
        let Some(at) = place.degrees() else {
            return Err(Refused::OutOfRange(index + 1));
        };
        points.push(point_at(bytes, count, index, at));
    }
    Ok(points)
}
