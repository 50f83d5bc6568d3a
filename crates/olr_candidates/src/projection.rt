//! The projection of a point onto a line: its distance, its position on the line, and the bearing
//! there.

ghost use Rattle.std.specs.Prelude.{ℕ, Bool, List, ◌≡◌, ◌*◌, ◌/◌, ◌^◌, ◌<◌, ◌≤◌, IfSome};
ghost use Rattle.olr_metric.specs.Polyline.{arc, IsNearest, IsPolyline};
ghost use Rattle.olr_metric.specs.Spot.{IsInPlane};
ghost use Rattle.olr_metric.specs.declared.spot.Spot.{Spot};
ghost use Rattle.olr_candidates.specs.declared.projection.Projection.{Projection};
ghost use Rattle.olr_candidates.specs.Projection.{bearing_arc, HasBearing, IsProjection};

use olr_metric::{Near, Spot, along, arc, nearest, one_sector, one_spot, sector};

/// How far from a place on a line the bearing is measured to, in centimetres.
const BEARING: u64 = 2_000;

/// The projection of a point onto a line.
#[derive(Clone, Copy, Drop)]
pub(crate) struct Projection {
    /// How far it lies from the point, in centimetres.
    pub(crate) distance: u64,
    /// Where on the line it lies, in decimetres from the line's start.
    pub(crate) at: u32,
    /// The sector of the line's bearing there, where it has one.
    pub(crate) sector: Option<u8>,
}

/// The arc, in centimetres, of the spot that the bearing at arc `t` is measured to, on a polyline
/// of the arc `whole`.
fn bearing_arc(is_last: bool, t: u64, whole: u64) -> u64
    requires t { t ≤ whole }
    requires whole { whole ≤ 66 * 2 ^ 35 }
    ensures arc { result ≡ bearing_arc is_last t whole }
    ensures within { result ≤ whole }
{
    if is_last {
        return t.saturating_sub(BEARING);
    }
    (t + BEARING).min(whole)
}

/// The share of a line's length, in decimetres, that an arc is of the whole arc, rounded down.
fn position(arc: u64, length: u32, whole: u64) -> u32
    requires arc { arc ≤ whole }
    requires positive { 0 < whole }
    ensures { result ≡ arc * length / whole }
{
    (u128::from(arc) * u128::from(length) / u128::from(whole)) as u32
}

/// The sector of the bearing of a polyline, whose arc is `whole` centimetres, at the place where it
/// is nearest to a spot; `None` where it has no bearing there.
fn bearing(polyline: &[Spot], is_last: bool, near: &Near, whole: u64) -> Option<u8>
    requires polyline { IsPolyline polyline.now }
    requires near { IsInPlane near.now.spot }
    requires arc { near.now.arc ≤ whole }
    requires whole { whole ≡ arc polyline.now }
    requires at_most { whole ≤ 66 * 2 ^ 35 }
    ensures bearing { HasBearing polyline.now is_last near.now result }
    ensures sector { IfSome result (λ sector. sector < 32) }
{
    let ahead = along(polyline, bearing_arc(is_last, near.arc, whole));
    sector(near.spot, ahead)
}

/// The projection onto the polyline of a line of `length` decimetres of a spot to which it is
/// nearest at this place.
pub(crate) fn projection_by(
    polyline: &[Spot],
    length: u32,
    is_last: bool,
    near: &Near,
) -> Projection
    requires polyline { IsPolyline polyline.now }
    requires in_plane { IsInPlane near.now.spot }
    requires within { near.now.arc ≤ arc polyline.now }
    ensures projection { (p : Spot) → IsNearest polyline.now p near.now
        → IsProjection polyline.now length is_last p result }
    ensures distance { result.distance ≡ near.now.distance }
    ensures sector { IfSome result.sector (λ sector. sector < 32) }
{
    let whole = arc(polyline);
    Projection {
        distance: near.distance,
        at: position(near.arc, length, whole),
        sector: bearing(polyline, is_last, near, whole),
    }
}

/// The projection of a spot `p` onto the polyline of a line of `length` decimetres.
pub(crate) fn project(polyline: &[Spot], length: u32, is_last: bool, p: Spot) -> Projection
    requires polyline { IsPolyline polyline.now }
    requires p { IsInPlane p }
    ensures projection { IsProjection polyline.now length is_last p result }
    ensures sector { IfSome result.sector (λ sector. sector < 32) }
{
    projection_by(polyline, length, is_last, &nearest(polyline, p))
}

/// A spot has one projection onto a polyline at most.
pub(crate) fn one_projection()
    ensures { (polyline : List Spot) (length : ℕ) (is_last : Bool) (p : Spot) (a b : Projection)
        → IsProjection polyline length is_last p a → IsProjection polyline length is_last p b
        → a ≡ b }
{
    one_spot();
    one_sector();
}
