//! A place on a line.

/// A place on a line of a map.
#[derive(Clone, Copy, Debug, Default, PartialEq, Eq)]
pub struct Place {
    /// The rank of the line.
    pub line: u32,
    /// How far from the line's start it lies, in decimetres, at most the line's length.
    pub at: u32,
}
