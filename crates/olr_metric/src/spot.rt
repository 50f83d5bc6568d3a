//! Spots of the plane and their distances.

ghost use Rattle.std.specs.Prelude.{◌≡◌, ◌+◌, ◌*◌, ◌<◌, ◌≤◌, ◌^◌, ◌-ℤ◌};
ghost use Rattle.olr_metric.specs.Spot.{distance, square, IsInPlane};

use crate::root::{root_of, squared};

/// A spot of the plane of a reference, in centimetres from the plane's origin.
///
/// Every call that measures requires coordinates of at most 2^33 in amount. That is enough for
/// all coordinates in range, as [`crate::Plane::to_plane`] gives it.
#[derive(Clone, Copy, Debug, Default, PartialEq, Eq)]
pub struct Spot {
    /// The distance east of the origin in centimetres, negative to the west.
    pub x: i64,
    /// The distance north of the origin in centimetres, negative to the south.
    pub y: i64,
}

#[tactic(auto, using(crate::proofs::Apart::squares_below))]
/// The sum of two squares.
pub(crate) fn sum_of_squares(x: u64, y: u64) -> u128
    requires x { x ≤ 2 ^ 34 }
    requires y { y ≤ 2 ^ 34 }
    ensures sum { result ≡ x * x + y * y }
    ensures at_most { result < 2 ^ 70 }
{
    squared(x) + squared(y)
}

/// The square of the distance of two spots, in square centimetres.
pub(crate) fn square_distance(a: Spot, b: Spot) -> u128
    requires a { IsInPlane a }
    requires b { IsInPlane b }
    ensures square { result ≡ square (a.x -ℤ b.x) + square (a.y -ℤ b.y) }
    ensures at_most { result < 2 ^ 70 }
{
    sum_of_squares(a.x.abs_diff(b.x), a.y.abs_diff(b.y))
}

/// The distance of two spots in centimetres, rounded down.
pub fn distance(a: Spot, b: Spot) -> u64
    requires a { IsInPlane a }
    requires b { IsInPlane b }
    ensures distance { result ≡ distance a b }
    ensures at_most { result < 2 ^ 35 }
{
    root_of(square_distance(a, b))
}
