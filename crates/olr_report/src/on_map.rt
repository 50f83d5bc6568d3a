//! The map that rows are written of.

use olr_road::Map;

/// What is shown lies on a map, and its lines have the ids that they have there.
#[derive(Clone, Copy)]
pub struct OnMap<'a> {
    /// The map.
    pub map: &'a Map,
}
