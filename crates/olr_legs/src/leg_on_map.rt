//! A leg on a map, with its route.

use olr_road::{Map, Place};
use olr_route::Piece;

/// A leg between two places of a map.
#[derive(Clone, Copy)]
pub(crate) struct LegOnMap<'a> {
    pub(crate) map: &'a Map,
    /// The greatest class of the lines that it may drive on.
    pub(crate) limit: u8,
    pub(crate) from: Place,
    pub(crate) to: Place,
    /// Its route, piece by piece.
    pub(crate) route: &'a [Piece],
    /// Its length, in decimetres.
    pub(crate) length: u64,
}
