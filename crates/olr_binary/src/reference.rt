//! A location reference.

ghost use Rattle.std.specs.Prelude.{◌≡◌};

use crate::point::Point;
use arrayvec::ArrayVec;

/// The most points that a reference may have.
pub const MAX_POINTS: usize = 32;

/// A location reference: the points of a path, and the offsets of the location from its ends.
///
/// An offset n is a share of a leg's length: from n/256 (included) to (n + 1)/256 (excluded).
#[derive(Clone, Debug, PartialEq, Eq, Drop)]
pub enum Reference {
    /// A line, from a place on the first leg to a place on the last one.
    Line {
        /// Two points or more.
        points: ArrayVec<Point, MAX_POINTS>,
        /// The share of the first leg that lies before the location.
        positive: Option<u8>,
        /// The share of the last leg that lies after the location.
        negative: Option<u8>,
    },
    /// A point along a line.
    PointAlong {
        /// Exactly two points.
        points: ArrayVec<Point, MAX_POINTS>,
        /// 0 none or unknown, 1 from the first point towards the second, 2 from the second towards
        /// the first, 3 both.
        orientation: u8,
        /// The side of the road: 0 on it or unknown, 1 right, 2 left, 3 both.
        side: u8,
        /// The share of the leg that lies before the point.
        positive: Option<u8>,
    },
}

impl Reference {
    ghost use Rattle.olr_binary.specs.Reference.{points_of};

    /// The points, in order.
    pub fn points(&self) -> &[Point]
        ensures { result.now ≡ points_of self.now }
    {
        match self {
            Reference::Line { points, .. } => points.as_slice(),
            Reference::PointAlong { points, .. } => points.as_slice(),
        }
    }
}
