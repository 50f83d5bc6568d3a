//! The 32 sectors of bearings, and the difference of two.

ghost use Rattle.std.specs.Prelude.{◌≡◌, ◌<◌, ◌≤◌, ◌^◌, pos, ◌≤ℤ◌, nat_abs, Decides, MatchOption, IfSome};
ghost use Rattle.olr_metric.specs.Difference.{difference};
ghost use Rattle.olr_metric.specs.Sector.{cross, direction, zero_direction, ray, ray_to, towards, IsSector};
ghost use Rattle.olr_metric.specs.Spot.{IsInPlane};

use crate::spot::Spot;

/// The rays that begin the sectors from north to east, as (east, north): 11.25 degrees apart,
/// rounded to millionths.
const RAYS: [(u64, u64); 8] = [
    (0, 1_000_000),
    (198_912, 1_000_000),
    (414_214, 1_000_000),
    (668_179, 1_000_000),
    (1_000_000, 1_000_000),
    (1_000_000, 668_179),
    (1_000_000, 414_214),
    (1_000_000, 198_912),
];

/// Whether a direction between north and east lies on a ray or clockwise of it, by the sign of
/// their cross product.
#[tactic(auto, using(crate::proofs::BearingTable::passed))]
fn has_passed(east: u64, north: u64, sector: u8) -> bool
    requires sector { sector < 8 }
    requires east { east ≤ 2 ^ 34 }
    requires north { north ≤ 2 ^ 34 }
    ensures { Decides result (cross (ray sector) (ray_to east north) ≤ℤ pos 0) }
{
    let (ray_east, ray_north) = RAYS[usize::from(sector)];
    ray_east * north <= ray_north * east
}

/// The sector of a direction between north (included) and east (excluded): the one that begins at
/// the last ray that the direction has passed.
#[tactic(auto, using(crate::proofs::BearingQuarter::passes_first, crate::proofs::BearingQuarter::in_last))]
fn sector_in_quarter(east: u64, north: u64) -> u8
    requires north_positive { 0 < north }
    requires east_at_most { east ≤ 2 ^ 34 }
    requires north_at_most { north ≤ 2 ^ 34 }
    ensures sector { IsSector (ray_to east north) result }
    ensures quarter { result < 8 }
{
    let mut sector = 0;
    while sector < 7 && has_passed(east, north, sector + 1) {
        sector += 1;
    }
    sector
}

/// The sector of a direction. The direction is turned back into the quarter from north to east by
/// quarter turns, each of which is eight sectors.
fn sector_towards(east: i64, north: i64) -> Option<u8>
    requires east { nat_abs east ≤ 2 ^ 34 }
    requires north { nat_abs north ≤ 2 ^ 34 }
    ensures { MatchOption result
        (towards east north ≡ zero_direction) (IsSector (towards east north)) }
{
    let along_x = east.unsigned_abs();
    let along_y = north.unsigned_abs();
    if east >= 0 && north > 0 {
        return Some(sector_in_quarter(along_x, along_y));
    }
    if east > 0 {
        return Some(8 + sector_in_quarter(along_y, along_x));
    }
    if north < 0 {
        return Some(16 + sector_in_quarter(along_x, along_y));
    }
    if east < 0 {
        return Some(24 + sector_in_quarter(along_y, along_x));
    }
    None
}

/// The sector of the direction from one spot to another, clockwise from north. Sector n is from
/// about 11.25 n degrees (included) to 11.25 (n + 1) degrees (excluded); the exact bounds are rays
/// of whole numbers. `None` where the spots are equal.
pub fn sector(from: Spot, to: Spot) -> Option<u8>
    requires from { IsInPlane from }
    requires to { IsInPlane to }
    ensures { MatchOption result
        (direction from to ≡ zero_direction) (IsSector (direction from to)) }
{
    sector_towards(to.x - from.x, to.y - from.y)
}

/// The difference of two sectors, the shorter way round: 0 to 16. Without a sector it is 16.
pub fn difference(sector: Option<u8>, other: u8) -> u8
    requires sector { IfSome sector (λ sector. sector < 32) }
    requires other { other < 32 }
    ensures difference { result ≡ difference sector other }
    ensures at_most { result ≤ 16 }
{
    let Some(sector) = sector else {
        return 16;
    };
    let apart = sector.abs_diff(other);
    apart.min(32 - apart)
}
