//! Coordinates at a share of the way from one point to another.

ghost use Rattle.std.specs.Prelude.{◌≡◌, ◌^◌, ◌<◌, ◌≤◌, pos, ◌-ℤ◌, ◌*ℤ◌, nat_abs};
ghost use Rattle.olr_base.specs.Coordinates.{coordinates_of};
ghost use Rattle.olr_metric.specs.Segment.{IsBetween};
ghost use Rattle.olr_shape.specs.Position.{coordinates_between, nearest_whole, share_between};

use olr_base::Degrees;

/// The difference of two coordinates in microdegrees.
fn difference(to: i32, from: i32) -> i64
    ensures value { result ≡ to -ℤ from }
    ensures at_most { nat_abs result ≤ 2 ^ 32 }
{
    i64::from(to) - i64::from(from)
}

/// The product of a difference of coordinates and a number.
fn product(difference: i64, part: u128) -> i128
    requires difference { nat_abs difference ≤ 2 ^ 32 }
    requires part { part ≤ 2 ^ 66 }
    ensures product { result ≡ difference *ℤ pos part }
    ensures at_most { nat_abs result ≤ 2 ^ 98 }
{
    i128::from(difference) * part as i128
}

/// `n / d` to the nearest whole number, halves up.
fn nearest_whole(n: i128, d: u128) -> i128
    requires n { nat_abs n ≤ 2 ^ 98 }
    requires positive { 0 < d }
    requires at_most { d ≤ 2 ^ 66 }
    ensures { result ≡ nearest_whole n d }
{
    (n * 2 + d as i128).div_euclid(2 * d as i128)
}

/// `difference * part / whole` to the nearest whole number, halves up.
fn nearest_share(difference: i64, part: u128, whole: u128) -> i128
    requires difference { nat_abs difference ≤ 2 ^ 32 }
    requires part { part ≤ whole }
    requires positive { 0 < whole }
    requires at_most { whole ≤ 2 ^ 66 }
    ensures { result ≡ nearest_whole (difference *ℤ pos part) whole }
{
    nearest_whole(product(difference, part), whole)
}

/// The coordinate at `part / whole` of the way from `p` to `q`, to the nearest microdegree, halves
/// up.
fn share_between(p: i32, q: i32, part: u128, whole: u128) -> i32
    requires part { part ≤ whole }
    requires positive { 0 < whole }
    requires at_most { whole ≤ 2 ^ 66 }
    ensures share { result ≡ share_between p q part whole }
    ensures between { IsBetween p q result }
{
    (i128::from(p) + nearest_share(difference(q, p), part, whole)) as i32
}

/// The coordinates at `part / whole` of the way from `p` to `q`, each to the nearest microdegree,
/// halves up.
pub(crate) fn coordinates_between(p: Degrees, q: Degrees, part: u128, whole: u128) -> Degrees
    requires part { part ≤ whole }
    requires positive { 0 < whole }
    requires at_most { whole ≤ 2 ^ 66 }
    ensures { coordinates_of result
        ≡ coordinates_between (coordinates_of p) (coordinates_of q) part whole }
{
    Degrees {
        lon: share_between(p.lon, q.lon, part, whole),
        lat: share_between(p.lat, q.lat, part, whole),
    }
}
