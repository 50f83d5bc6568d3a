//! A piece of a route.

/// A part of a line that the route drives.
#[derive(Clone, Copy, Debug, Default, PartialEq, Eq)]
pub struct Piece {
    /// The rank of the line.
    pub line: u32,
    /// The position where the piece begins, in decimetres from the line's start.
    pub from: u32,
    /// The position where it ends, in decimetres from the line's start.
    pub to: u32,
}
