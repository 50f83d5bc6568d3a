//! The plane in which everything is measured.

ghost use Rattle.std.specs.Prelude.{◌≡◌, ◌*◌, ◌^◌, ◌<◌, ◌≤◌, pos, ◌-ℤ◌, ◌*ℤ◌, nat_abs};
ghost use Rattle.olr_metric.specs.Floor.{floor};
ghost use Rattle.olr_base.specs.Coordinates.{coordinates_of};
ghost use Rattle.olr_metric.specs.Plane.{scale_of, spot_of};
ghost use Rattle.olr_base.specs.Range.{IsLatitude};
ghost use Rattle.olr_metric.specs.Spot.{IsInPlane};

use crate::spot::Spot;
use olr_base::Degrees;
use std::marker::Model;

/// The plane of a reference, with its origin at the reference's first point.
///
/// In contracts a plane is its origin.
#[derive(Clone, Copy, Debug, PartialEq, Eq)]
pub struct Plane {
    origin: Degrees,
    /// The length of a degree along the origin's parallel, in 1/10,000 of one along a meridian.
    scale: u32,
}

impl Model for Plane {
    ghost use Rattle.std.specs.Prelude.{◌≡◌};
    ghost use Rattle.std.proofs.Common.{ap, sym};
    ghost use Rattle.olr_base.specs.declared.degrees.Degrees.{Degrees};
    ghost use Rattle.olr_metric.specs.Plane.{scale_of};

    ghost Value = { Degrees };

    ghost view = { λ plane. plane.origin };

    ghost invariant = { λ plane. plane.scale ≡ scale_of plane.origin.lat };

    ghost inverse = { λ origin. record { origin = origin; scale = scale_of origin.lat } };

    ghost inverse_ok = { λ plane is_scale.
        ap (λ scale. record { origin = plane.origin; scale = scale }) (sym is_scale) };
}

/// The length of a degree along a parallel, in 1/10,000 of one along a meridian.
fn scale_at(lat: i32) -> u32
    requires { IsLatitude lat }
    ensures scale { result ≡ scale_of lat }
    ensures at_most { result ≤ 10000 }
{
    let amount = u64::from(lat.unsigned_abs());
    let square = amount * amount;
    let upper = 10_000 * u128::from(32_400_000_000_000_000 - 4 * square);
    let lower = u128::from(32_400_000_000_000_000 + square);
    (upper / lower) as u32
}

/// The difference of two coordinates in microdegrees.
fn apart(coordinate: i32, origin: i32) -> i64
    ensures { result ≡ coordinate -ℤ origin }
{
    i64::from(coordinate) - i64::from(origin)
}

/// The length of a number of microdegrees in centimetres, at `upper / lower` centimetres each,
/// rounded down.
fn centimetres_of(microdegrees: i64, upper: u32, lower: u32) -> i64
    requires in_plane { nat_abs microdegrees * upper ≤ 2 ^ 33 * lower }
    requires lower_positive { 0 < lower }
    requires lower_at_most { lower < 2 ^ 30 }
    ensures value { result ≡ floor (microdegrees *ℤ pos upper) lower }
    ensures at_most { nat_abs result ≤ 2 ^ 33 }
{
    (microdegrees * i64::from(upper)).div_euclid(i64::from(lower))
}

impl Plane {
    /// The plane with its origin at these coordinates.
    pub fn at(first: Degrees) -> Plane
        ensures { result ≡ first }
    {
        Plane {
            origin: first,
            scale: scale_at(first.lat),
        }
    }

    /// The spot of coordinates in the plane.
    pub fn to_plane(&self, position: Degrees) -> Spot
        ensures spot { result ≡ spot_of (coordinates_of self.now) (coordinates_of position) }
        ensures in_plane { IsInPlane result }
    {
        let east = apart(position.lon, self.origin.lon);
        let north = apart(position.lat, self.origin.lat);
        Spot {
            x: centimetres_of(east, 11_132 * self.scale, 10_000_000),
            y: centimetres_of(north, 11_132, 1_000),
        }
    }
}
