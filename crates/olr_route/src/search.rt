//! What is asked of a search, and its limits.

use olr_road::{Goals, Map, Place};

/// The limits of a search for the lengths to some places.
#[derive(Clone, Copy)]
pub struct Limits {
    /// The greatest class of lines to drive on, 0 to 7.
    pub class: u8,
    /// The length up to which the search goes first, in decimetres.
    pub near: u64,
    /// The greatest length, in decimetres.
    pub length: u64,
}

/// What is asked of a search: the map, the greatest class of lines to drive on, the place from
/// which it starts, the limit to lengths in decimetres, and the lines to whose starts lengths are
/// wanted, if not to all.
#[derive(Drop)]
pub(crate) struct Search<'a> {
    pub(crate) map: &'a Map,
    pub(crate) class: u8,
    pub(crate) from: Place,
    pub(crate) limit: u64,
    pub(crate) goals: Option<Goals<'a>>,
}
