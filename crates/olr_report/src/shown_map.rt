//! The map that JSON is written of, and the spots of places on it.

ghost use Rattle.std.specs.Prelude.{◌≡◌, option_map};
ghost use Rattle.olr_report.specs.Shapes.{place_value, spot_if_asked};
ghost use Rattle.olr_report.specs.ShownMap.{map_shown, shown_as};

use olr_base::Degrees;
use olr_binary::Reference;
use olr_road::{Map, Place};
use olr_shape::spot_on;
use std::alloc::Global;

/// A map that JSON is written of: its lines have the ids that they have there. Where shapes are
/// asked for, it also has the reference whose matchings are shown.
#[derive(Clone, Copy)]
pub struct ShownMap<'a> {
    /// Where memory for shapes comes from.
    pub alloc: Global,
    /// The map.
    pub map: &'a Map,
    /// The reference, where shapes are asked for.
    pub shapes_of: Option<&'a Reference>,
}

impl<'a> ShownMap<'a> {
    /// A map with the shapes of a reference's matchings, where these are asked for.
    pub fn new(alloc: Global, map: &'a Map, reference: &'a Reference, shapes: bool) -> ShownMap<'a>
        ensures { map_shown result ≡ shown_as shapes map.now reference.now }
    {
        let shapes_of = if shapes { Some(reference) } else { None };
        ShownMap {
            alloc,
            map,
            shapes_of,
        }
    }

    /// The spot of a place, where shapes are asked for.
    pub fn spot_of(&self, place: Place) -> Option<Degrees>
        ensures { option_map place_value result ≡ spot_if_asked (map_shown self.now) place }
    {
        let _reference = self.shapes_of?;
        spot_on(self.map, place)
    }
}
