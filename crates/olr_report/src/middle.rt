//! The middle of a point along a line.

ghost use Rattle.std.specs.Prelude.{◌≡◌, ◌≤◌};
ghost use Rattle.olr_report.specs.Shapes.{middle_distance, middle_of};

use crate::along::place_along;
use olr_binary::Reference;
use olr_road::Place;
use olr_route::Piece;

/// The distance half way between the earliest and the latest one of an offset, on a leg of this
/// length, in decimetres.
fn middle_distance(positive: Option<u8>, length: u64) -> u64
    ensures { result ≡ middle_distance positive length }
{
    let Some(share) = positive else {
        return 0;
    };
    let (share, length) = (u128::from(share), u128::from(length));
    let earliest = share * length / 256;
    let latest = ((share + 1) * length).div_ceil(256);
    ((earliest + latest) / 2) as u64
}

/// The place in the middle of a point along a line, on the route of its one leg, which is `length`
/// decimetres long. None for a line.
pub fn middle_of(reference: &Reference, length: u64, route: &[Piece]) -> Option<Place>
    ensures { result ≡ middle_of reference.now length route.now }
{
    let Reference::PointAlong { positive, .. } = reference else {
        return None;
    };
    place_along(route, middle_distance(*positive, length))
}
