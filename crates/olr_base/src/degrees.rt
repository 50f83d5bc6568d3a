//! Coordinates on the earth.

ghost use Rattle.std.specs.Prelude.{◌≡◌, pos};
ghost use Rattle.olr_base.specs.Range.{IsLongitude, IsLatitude};

/// Longitude and latitude of a position on the earth, in microdegrees.
///
/// Longitudes are from -180 to 180 degrees, east positive. Latitudes are from -80 to 80 degrees,
/// north positive: closer to a pole, unequal coordinates could have equal spots in the plane.
#[derive(Clone, Copy, Debug, PartialEq, Eq)]
pub struct Degrees {
    /// The longitude in microdegrees, from -180,000,000 to 180,000,000.
    pub lon: i32,
    /// The latitude in microdegrees, from -80,000,000 to 80,000,000.
    pub lat: i32,
    pub ghost lon_in_range: { IsLongitude lon },
    pub ghost lat_in_range: { IsLatitude lat },
}

impl Default for Degrees {
    /// The position at longitude 0 and latitude 0.
    fn default() -> Self
        ensures lon { result.lon ≡ pos 0 }
        ensures lat { result.lat ≡ pos 0 }
    {
        Degrees { lon: 0, lat: 0 }
    }
}
