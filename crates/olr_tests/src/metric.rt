//! Worked cases of the plane, of sectors of directions, and of projections onto segments and
//! polylines.

ghost use Rattle.olr_base.specs.Range.{IsLatitude, IsLongitude};
ghost use Rattle.olr_metric.specs.Spot.{IsInPlane};

use olr_base::Degrees;
use olr_metric::{Near, Plane, Spot, along, arc, difference, distance, foot, nearest, sector};
use std::process::Abort;

/// The position of these coordinates.
fn at(lon: i32, lat: i32) -> Degrees
    requires longitude { IsLongitude lon }
    requires latitude { IsLatitude lat }
{
    Degrees { lon, lat }
}

/// The spot that lies so far east and north of the origin.
fn spot(x: i32, y: i32) -> Spot
    ensures { IsInPlane result }
{
    Spot {
        x: i64::from(x),
        y: i64::from(y),
    }
}

/// Whether a place is projected onto a spot.
fn projects(origin: Degrees, place: Degrees, wanted: Spot) -> bool {
    Plane::at(origin).to_plane(place) == wanted
}

#[test]
fn projects_places(rt: HostRuntime) {
    assert!(rt; projects(at(0, 0), at(-1, -1), spot(-12, -12)));
    let corner = at(180_000_000, 80_000_000);
    assert!(rt; projects(at(0, 0), corner, spot(2_003_760_000, 890_560_000)));
    let (west, east) = (at(-180_000_000, 80_000_000), at(180_000_000, -80_000_000));
    assert!(rt; projects(west, east, spot(702_117_504, -1_781_120_000)));
    let (from, to) = (at(6_126_820, 49_608_518), at(6_128_370, 49_603_988));
    assert!(rt; projects(from, to, spot(11_163, -50_428)));
}

/// The spot so far along a segment, if that has two ends and is that long.
fn spot_along(a: Spot, b: Spot, ahead: u64) -> Option<Spot>
    requires a { IsInPlane a }
    requires b { IsInPlane b }
{
    if a == b {
        return None;
    }
    let spots = [a, b];
    if ahead > arc(&spots) {
        return None;
    }
    Some(along(&spots, ahead))
}

/// Where a segment is nearest to a spot, and the spot so far along it.
fn found(a: Spot, b: Spot, p: Spot, ahead: u64) -> Option<(Near, Spot)>
    requires a { IsInPlane a }
    requires b { IsInPlane b }
    requires p { IsInPlane p }
{
    if a == b {
        return None;
    }
    Some((nearest(&[a, b], p), spot_along(a, b, ahead)?))
}

/// What is wanted of that: distance, arc and spot of the nearest place, and the spot ahead.
fn near(distance: u64, arc: u64, spot: Spot, ahead: Spot) -> Option<(Near, Spot)> {
    let near = Near {
        distance,
        arc,
        spot,
    };
    Some((near, ahead))
}

#[test]
fn projects_spots(rt: HostRuntime) {
    assert_eq!(rt; distance(spot(0, 0), spot(11_163, -50_428)), 51_648);
    // Before the start, beyond the end, and between them, rounded down; and on a segment of no
    // length.
    let (start, end) = (spot(0, 0), spot(10, 0));
    assert!(rt; foot(spot(-5, 3), start, end) == start);
    assert!(rt; foot(spot(15, 3), start, end) == end);
    assert!(rt; foot(spot(-42, -8), spot(-12, 27), spot(25, -50)) == spot(-4, 10));
    assert!(rt; foot(spot(7, 7), spot(1, 2), spot(1, 2)) == spot(1, 2));
    let onto = found(spot(0, 55), spot(5_566, 0), spot(0, 0), 2_001);
    assert!(rt; onto == near(54, 1, spot(0, 54), spot(2_001, 35)));
    let onto = found(spot(5_566, 0), spot(11_132, -56), spot(11_132, 0), 3_565);
    assert!(rt; onto == near(56, 5_565, spot(11_131, -56), spot(9_131, -36)));
}

/// A spot after a quarter turn clockwise about the origin.
fn turned(spot: Spot) -> Spot
    requires { IsInPlane spot }
    ensures { IsInPlane result }
{
    Spot {
        x: spot.y,
        y: -spot.x,
    }
}

/// Compares the sector of a direction.
fn expect(rt: &impl Abort, from: Spot, to: Spot, wanted: Option<u8>)
    requires from { IsInPlane from }
    requires to { IsInPlane to }
{
    assert_eq!(rt; sector(from, to), wanted, "from {from:?} to {to:?}");
}

/// Spots, and the sectors of the directions to them from the origin.
const DIRECTIONS: &[(i32, i32, Option<u8>)] = &[
    (11_163, -50_428, Some(14)),
    (2_000, 0, Some(8)),
    (2_001, -19, Some(8)),
    (2_000, 1, Some(7)),
    (-2_000, 20, Some(24)),
    (-2_000, -19, Some(23)),
    (0, 1, Some(0)),
    (-1, 2_000, Some(31)),
    (0, 0, None),
];

/// The first rays of sectors, and the sectors that begin there and in the other three quarters.
const RAYS: &[(i32, i32, [u8; 4])] = &[
    (0, 1_000_000, [0, 8, 16, 24]),
    (198_912, 1_000_000, [1, 9, 17, 25]),
    (414_214, 1_000_000, [2, 10, 18, 26]),
    (668_179, 1_000_000, [3, 11, 19, 27]),
    (1_000_000, 1_000_000, [4, 12, 20, 28]),
    (1_000_000, 668_179, [5, 13, 21, 29]),
    (1_000_000, 414_214, [6, 14, 22, 30]),
    (1_000_000, 198_912, [7, 15, 23, 31]),
];

#[test]
fn gives_sectors(rt: HostRuntime) {
    let origin = spot(0, 0);
    for &(x, y, wanted) in DIRECTIONS {
        expect(&rt, origin, spot(x, y), wanted);
    }
    for &(east, north, [first, second, third, fourth]) in RAYS {
        let to = spot(east, north);
        let right = turned(to);
        expect(&rt, origin, to, Some(first));
        expect(&rt, origin, right, Some(second));
        expect(&rt, to, origin, Some(third));
        expect(&rt, right, origin, Some(fourth));
    }
    assert_eq!(rt; difference(Some(8), 8), 0);
    assert_eq!(rt; difference(Some(8), 24), 16);
    assert_eq!(rt; difference(Some(31), 0), 1);
    assert_eq!(rt; difference(Some(2), 29), 5);
    assert_eq!(rt; difference(None, 7), 16);
}
