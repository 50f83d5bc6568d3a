//! A box of coordinates.

ghost use Rattle.std.specs.Prelude.{◌↔◌, ◌≤ℤ◌, IfSome, IsSome};

use olr_road::BoundingBox;

/// All places between two longitudes and between two latitudes, in microdegrees and both included.
/// It ends no farther west or south than it begins, so it doesn't go over the meridian of 180
/// degrees. Its edges may lie outside the ranges of coordinates.
#[derive(Clone, Copy, Debug, PartialEq, Eq)]
pub struct GeoBox {
    /// The least longitude, in microdegrees.
    pub west: i32,
    /// The least latitude, in microdegrees.
    pub south: i32,
    /// The greatest longitude, in microdegrees.
    pub east: i32,
    /// The greatest latitude, in microdegrees.
    pub north: i32,
    pub ghost eastwards: { west ≤ℤ east },
    pub ghost northwards: { south ≤ℤ north },
}

impl GeoBox {
    ghost use Rattle.std.specs.Prelude.{◌≡◌};
    ghost use Rattle.olr_lines.specs.LinesInBox.{HasEdges, window_of};

    /// The box with these edges, in microdegrees: `None` where it would end before it begins.
    pub fn new(west: i32, south: i32, east: i32, north: i32) -> Option<GeoBox>
        ensures made { IsSome result ↔ ((west ≤ℤ east) × (south ≤ℤ north)) }
        ensures edges { IfSome result (HasEdges west south east north) }
    {
        if west > east || south > north {
            return None;
        }
        Some(GeoBox {
            west,
            south,
            east,
            north,
        })
    }

    /// The box as a window of a map.
    pub(crate) fn window(&self) -> BoundingBox
        ensures { result ≡ window_of self.now }
    {
        BoundingBox {
            south: self.south,
            north: self.north,
            west: self.west,
            east: self.east,
        }
    }
}
