//! The foot of a spot on a straight segment.

ghost use Rattle.std.specs.Prelude.{◌≡◌, ◌+◌, ℤ, ◌≤◌, ◌<◌, ◌^◌, pos, ◌*ℤ◌, ◌-ℤ◌, nat_abs};
ghost use Rattle.olr_metric.specs.Floor.{floor};
ghost use Rattle.olr_metric.specs.Segment.{between, foot, dot_product, spot_between, IsBetween};
ghost use Rattle.olr_metric.specs.Spot.{square, IsInPlane};

use crate::spot::{Spot, sum_of_squares};

/// Displacements up to this amount, in centimetres, are multiplied in 64 bits.
const SHORT_DISPLACEMENT: u64 = 1 << 20;

/// The greatest divisor for which 64 bits suffice with a short displacement.
const SHORT_WHOLE: u64 = 1 << 42;

/// The displacement from one coordinate to another, in centimetres.
fn displacement(from: i64, to: i64) -> i64
    requires from { nat_abs from ≤ 2 ^ 33 }
    requires to { nat_abs to ≤ 2 ^ 33 }
    ensures value { result ≡ to -ℤ from }
    ensures at_most { nat_abs result ≤ 2 ^ 34 }
{
    to - from
}

/// The product of two displacements.
fn times(one: i64, other: i64) -> i128
    requires one { nat_abs one ≤ 2 ^ 34 }
    requires other { nat_abs other ≤ 2 ^ 34 }
    ensures product { result ≡ one *ℤ other }
    ensures at_most { nat_abs result ≤ 2 ^ 68 }
{
    i128::from(one) * i128::from(other)
}

/// The product of the displacements from `a` to `p` and from `a` to `b` along one axis.
fn axis_product(a: i64, p: i64, b: i64) -> i128
    requires a { nat_abs a ≤ 2 ^ 33 }
    requires p { nat_abs p ≤ 2 ^ 33 }
    requires b { nat_abs b ≤ 2 ^ 33 }
    ensures product { result ≡ (p -ℤ a) *ℤ (b -ℤ a) }
    ensures at_most { nat_abs result ≤ 2 ^ 68 }
{
    times(displacement(a, p), displacement(a, b))
}

/// The dot product of the displacements from `a` to `p` and from `a` to `b`.
fn dot_product(a: Spot, p: Spot, b: Spot) -> i128
    requires a { IsInPlane a }
    requires p { IsInPlane p }
    requires b { IsInPlane b }
    ensures product { result ≡ dot_product a p b }
    ensures at_most { nat_abs result ≤ 2 ^ 69 }
{
    axis_product(a.x, p.x, b.x) + axis_product(a.y, p.y, b.y)
}

/// `displacement * part / whole`, rounded down, where 64 bits suffice.
fn short_share(displacement: i64, part: u64, whole: u64) -> i64
    requires displacement { nat_abs displacement ≤ 2 ^ 20 }
    requires part { part ≤ whole }
    requires positive { 0 < whole }
    requires at_most { whole ≤ 2 ^ 42 }
    ensures { result ≡ floor (displacement *ℤ pos part) whole }
{
    (displacement * part as i64).div_euclid(whole as i64)
}

/// `displacement * part / whole`, rounded down, in 128 bits.
fn long_share(displacement: i64, part: u128, whole: u128) -> i128
    requires displacement { nat_abs displacement ≤ 2 ^ 34 }
    requires part { part ≤ whole }
    requires positive { 0 < whole }
    requires at_most { whole ≤ 2 ^ 69 }
    ensures { result ≡ floor (displacement *ℤ pos part) whole }
{
    (i128::from(displacement) * part as i128).div_euclid(whole as i128)
}

/// `displacement * part / whole`, rounded down.
fn share(displacement: i64, part: u128, whole: u128) -> i64
    requires displacement { nat_abs displacement ≤ 2 ^ 34 }
    requires part { part ≤ whole }
    requires positive { 0 < whole }
    requires at_most { whole ≤ 2 ^ 69 }
    ensures { result ≡ floor (displacement *ℤ pos part) whole }
{
    if displacement.unsigned_abs() <= SHORT_DISPLACEMENT && whole <= u128::from(SHORT_WHOLE) {
        return short_share(displacement, part as u64, whole as u64);
    }
    long_share(displacement, part, whole) as i64
}

/// The number at `part / whole` of the distance from `a` to `b`, rounded down.
fn between(a: i64, b: i64, part: u128, whole: u128) -> i64
    requires a { nat_abs a ≤ 2 ^ 33 }
    requires b { nat_abs b ≤ 2 ^ 33 }
    requires part { part ≤ whole }
    requires positive { 0 < whole }
    requires at_most { whole ≤ 2 ^ 69 }
    ensures between { result ≡ between a b part whole }
    ensures at_most { nat_abs result ≤ 2 ^ 33 }
{
    a + share(displacement(a, b), part, whole)
}

/// The spot at `part / whole` of the segment from `a` to `b`, each coordinate rounded down.
pub(crate) fn spot_between(a: Spot, b: Spot, part: u128, whole: u128) -> Spot
    requires a { IsInPlane a }
    requires b { IsInPlane b }
    requires part { part ≤ whole }
    requires positive { 0 < whole }
    requires at_most { whole ≤ 2 ^ 69 }
    ensures spot { result ≡ spot_between a b part whole }
    ensures in_plane { IsInPlane result }
{
    Spot {
        x: between(a.x, b.x, part, whole),
        y: between(a.y, b.y, part, whole),
    }
}

/// The foot of `p` on the segment from `a` to `b`: where the perpendicular from `p` meets it, each
/// coordinate rounded down, or the nearer end where it meets the line beyond that end.
pub fn foot(p: Spot, a: Spot, b: Spot) -> Spot
    requires p { IsInPlane p }
    requires a { IsInPlane a }
    requires b { IsInPlane b }
    ensures foot { result ≡ foot p a b }
    ensures in_plane { IsInPlane result }
{
    let part = dot_product(a, p, b);
    if part <= 0 {
        return a;
    }
    let whole = dot_product(a, b, b);
    if whole <= part {
        return b;
    }
    spot_between(a, b, part as u128, whole as u128)
}

/// How far a coordinate lies outside those of the ends of a segment, in centimetres; 0 between
/// them.
fn outside(p: i64, a: i64, b: i64) -> u64
    requires p { nat_abs p ≤ 2 ^ 33 }
    requires a { nat_abs a ≤ 2 ^ 33 }
    requires b { nat_abs b ≤ 2 ^ 33 }
    ensures least { (x : ℤ) → IsBetween a b x → result ≤ nat_abs (p -ℤ x) }
    ensures at_most { result ≤ 2 ^ 34 }
{
    let nearer_end = p.abs_diff(a).min(p.abs_diff(b));
    if p < a && p < b {
        return nearer_end;
    }
    if a < p && b < p {
        return nearer_end;
    }
    0
}

/// A number that is at most the square of the distance of `p` from its foot on the segment from `a`
/// to `b`: that of its distance from the rectangle of which the segment is a diagonal.
pub(crate) fn square_outside(p: Spot, a: Spot, b: Spot) -> u128
    requires p { IsInPlane p }
    requires a { IsInPlane a }
    requires b { IsInPlane b }
    ensures { result ≤ square (p.x -ℤ (foot p a b).x) + square (p.y -ℤ (foot p a b).y) }
{
    sum_of_squares(outside(p.x, a.x, b.x), outside(p.y, a.y, b.y))
}
