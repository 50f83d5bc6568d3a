//! Why a line is no candidate of a point.

/// The first of the four conditions on a candidate that a line fails, in the order of the variants,
/// with what it was tested by.
#[derive(Clone, Copy, Debug, PartialEq, Eq)]
pub enum Rejection {
    /// The point's projection onto the line lies farther away than the radius: the distance in
    /// centimetres.
    Radius(u64),
    /// The bearings differ by more than the tolerance: the difference in sectors, 16 where the line
    /// has no bearing.
    Bearing(u8),
    /// The classes differ by more than the tolerance: the difference.
    Class(u8),
    /// No route can leave from the projection's position along the line, or, at the last point of a
    /// reference, arrive there along it: the position in decimetres from the line's start.
    Position(u32),
}
