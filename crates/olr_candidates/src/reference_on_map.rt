//! A reference on a map, with the tolerances for its candidates and its legs.

ghost use Rattle.olr_binary.specs.Reference.{IsReference, IsReference-prop};

use crate::tolerances::Tolerances;
use olr_binary::Reference;
use olr_road::Map;

/// A reference on a map, with the tolerances that decide which lines are candidates of its points
/// and which routes its legs admit.
#[derive(Clone, Copy)]
pub struct ReferenceOnMap<'a> {
    /// The map.
    pub map: &'a Map,
    /// The reference. It has 2 to 32 points, and each but the last has the attributes of the path
    /// to the next one, as every reference that [`decode`](olr_binary::decode) gives.
    pub reference: &'a Reference,
    /// How far a line of the map may differ from its point, and a route from its leg.
    pub tolerances: Tolerances,
    pub ghost is_reference: { IsReference reference.now } by { IsReference-prop reference.now },
}
