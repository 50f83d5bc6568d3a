//! A line of a map.

/// A line of a map, but for its points: one direction of travel on a road.
#[derive(Clone, Copy, Debug, PartialEq, Eq)]
pub struct Line {
    /// Its id, from 1 to 2^53.
    pub id: u64,
    /// The rank of the node at which it starts.
    pub from: u32,
    /// The rank of the node at which it ends.
    pub to: u32,
    /// Its class, from 0, the most important, to 7.
    pub class: u8,
    /// Its form of way, from 0 to 7.
    pub form: u8,
    /// Its length in decimetres, from 1 to 10,000,000.
    pub length: u32,
}
