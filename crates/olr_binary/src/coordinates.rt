//! The coordinates of a reference's points.

ghost use Rattle.std.specs.Prelude.{◌≡◌, ◌+◌, ◌-◌, ◌*◌, ◌<◌, ◌≤◌, ◌^◌, length, IfSome, IfNone, pos, neg_ℤ, ◌+ℤ◌, ◌*ℤ◌, ◌≤ℤ◌};
ghost use Rattle.olr_base.specs.Coordinates.{IsInRange};
ghost use Rattle.olr_base.specs.Range.{IsLongitude};
ghost use Rattle.olr_binary.specs.Coordinates.{IsMicrodegreesOf, two_bytes_at, three_bytes_at, IsFirstPlace, moved};

use olr_base::Degrees;
use std::marker::Model;

/// Coordinates in microdegrees that may be out of range.
#[derive(Clone, Copy)]
pub(crate) struct UncheckedDegrees {
    lon: i32,
    lat: i32,
}

impl Model for UncheckedDegrees {
    ghost use Rattle.olr_base.specs.Coordinates.{Coordinates};

    ghost Value = { Coordinates };

    ghost view = { λ c. record { lon = c.lon; lat = c.lat } };

    ghost inverse = { λ place. record { lon = place.lon; lat = place.lat } };
}

impl UncheckedDegrees {
    /// The coordinates of the first point of a reference.
    pub(crate) fn first(bytes: &[u8]) -> UncheckedDegrees
        requires { 7 ≤ length bytes.now }
        ensures { IsFirstPlace bytes.now result }
    {
        UncheckedDegrees {
            lon: absolute(bytes, 1),
            lat: absolute(bytes, 4),
        }
    }

    /// The coordinates relative to these by the four bytes from an index on.
    pub(crate) fn moved(self, bytes: &[u8], index: usize) -> UncheckedDegrees
        requires inside { index + 4 ≤ length bytes.now }
        requires place { IsInRange self }
        ensures { result ≡ moved self
            (two_bytes_at bytes.now index) (two_bytes_at bytes.now (index + 2)) }
    {
        UncheckedDegrees {
            lon: shifted(self.lon, two_bytes_at(bytes, index)),
            lat: shifted(self.lat, two_bytes_at(bytes, index + 2)),
        }
    }

    /// The coordinates, or `None` where one is out of range.
    pub(crate) fn degrees(self) -> Option<Degrees>
        ensures found { IfSome result
            (λ at. IsInRange self × (at.lon ≡ self.lon) × (at.lat ≡ self.lat)) }
        ensures none { IfNone result (IsInRange self → ⊥) }
    {
        let UncheckedDegrees { lon, lat } = self;
        if lon < -180_000_000 || lon > 180_000_000 || lat < -80_000_000 || lat > 80_000_000 {
            return None;
        }
        Some(Degrees { lon, lat })
    }
}

/// The absolute coordinate n in microdegrees, for n greater than 0: (n - 1/2) * 360 / 2^24 degrees,
/// rounded to the nearest whole number.
fn microdegrees_of(number: u32) -> u32
    requires positive { 0 < number }
    requires fits { number ≤ 2 ^ 23 }
    ensures above { result * 2 ^ 23 < 2 * ((2 * number - 1) * 45000000) + 2 ^ 22 }
    ensures below { 2 * ((2 * number - 1) * 45000000) < result * 2 ^ 23 + 2 ^ 22 }
{
    let scaled = (u64::from(number) * 2 - 1) * 45_000_000;
    ((scaled + 0x20_0000) / 0x40_0000) as u32
}

/// The absolute coordinate in the three bytes from an index on, in microdegrees.
fn absolute(bytes: &[u8], index: usize) -> i32
    requires { index + 2 < length bytes.now }
    ensures { IsMicrodegreesOf (three_bytes_at bytes.now index) result }
{
    match u32::from_be_bytes([0, bytes[index], bytes[index + 1], bytes[index + 2]]) {
        0 => 0,
        number if number < 0x80_0000 => microdegrees_of(number) as i32,
        number => -(microdegrees_of(0x100_0000 - number) as i32),
    }
}

/// The signed number in the two bytes from an index on.
fn two_bytes_at(bytes: &[u8], index: usize) -> i32
    requires { index + 1 < length bytes.now }
    ensures value { result ≡ two_bytes_at bytes.now index }
    ensures low { neg_ℤ (pos 32768) ≤ℤ result }
    ensures high { result ≤ℤ pos 32767 }
{
    i32::from(i16::from_be_bytes([bytes[index], bytes[index + 1]]))
}

/// A coordinate moved by a number of steps of 1/100000 degree, all in microdegrees.
fn shifted(coordinate: i32, steps: i32) -> i32
    requires coordinate { IsLongitude coordinate }
    requires low { neg_ℤ (pos 32768) ≤ℤ steps }
    requires high { steps ≤ℤ pos 32767 }
    ensures { result ≡ coordinate +ℤ pos 10 *ℤ steps }
{
    coordinate + 10 * steps
}
