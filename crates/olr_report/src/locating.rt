//! The location of a reference on the route of its legs.

ghost use Rattle.std.specs.Prelude.{◌≡◌, ◌+◌, ◌^◌, ◌<◌, All, IfOk, length};
ghost use Rattle.olr_binary.specs.Reference.{IsReference};
ghost use Rattle.olr_report.specs.Joined.{IsJoined, IsJoinedRoute};
ghost use Rattle.olr_report.specs.Location.{AreLegsOf, IsLocation, IsMeasured, IsPartBetween};
ghost use Rattle.olr_report.specs.Location.{located_value, pieces_if_any};
ghost use Rattle.olr_report.specs.Steps.{steps_of, steps_of_legs};

use crate::along::place_on;
use crate::joining::join;
use crate::offsets::{earliest, latest};
use crate::trimming::trim;
use olr_base::NoMemory;
use olr_binary::Reference;
use olr_matching::Leg;
use olr_road::Place;
use olr_route::Piece;
use std::alloc::Global;

/// The location of a reference on the route of a matching.
#[derive(Debug, Drop)]
pub enum Located {
    /// A line, as two parts of the route. Each is `None` where its start isn't before its end.
    Line {
        /// The part between the earliest distances of the offsets.
        outer: Option<Vec<Piece>>,
        /// The part between the latest ones.
        inner: Option<Vec<Piece>>,
    },
    /// A point along a line.
    Point {
        /// The place at the earliest distance of the offset.
        earliest: Place,
        /// The place at the latest one.
        latest: Place,
    },
}

/// The sum of the lengths of legs, in decimetres.
#[tactic(auto, using(crate::proofs::LegLengths::total_more))]
fn total_length(legs: &[Leg]) -> u64
    requires at_most { length legs.now < 32 }
    requires measured { All IsMeasured legs.now }

    ensures total { result ≡ length (steps_of_legs legs.now) }
    ensures below { result < 2 ^ 25 }
{
    let mut total = 0;
    for leg in legs {
        total += leg.length;
    }
    total
}

/// The part of a joined route, `total` decimetres long, that leaves out `before` decimetres at the
/// beginning and `behind` at the end. None where that leaves nothing.
fn part_between(
    alloc: Global,
    route: &[Piece],
    total: u64,
    before: u64,
    behind: u64,
) -> Result<Option<Vec<Piece>>, NoMemory>
    requires joined { IsJoined route.now }
    requires total { total ≡ length (steps_of route.now) }
    requires left_out { before + behind < 2 ^ 64 }

    ensures { IfOk result (λ part.
        IsPartBetween (steps_of route.now) before behind (pieces_if_any part)) }
{
    if total <= before + behind {
        return Ok(None);
    }
    if before == 0 && behind == 0 {
        let part = Vec::from_slice(alloc, route)?;
        return Ok(Some(part));
    }
    let part = trim(alloc, route, before, total - behind)?;
    Ok(Some(part))
}

/// The location of a reference on the joined route of the legs between its points, as [`location`]
/// answers it.
pub(crate) fn location_on(
    alloc: Global,
    route: &[Piece],
    legs: &[Leg],
    reference: &Reference,
) -> Result<Located, NoMemory>
    requires reference { IsReference reference.now }
    requires legs { AreLegsOf reference.now legs.now }
    requires route { IsJoinedRoute legs.now route.now }

    ensures { IfOk result (λ located.
        IsLocation legs.now reference.now (located_value located)) }
{
    let (first, last) = (&legs[0], &legs[legs.len() - 1]);
    let (first, last) = (first.length, last.length);
    match reference {
        Reference::Line {
            positive,
            negative,
            ..
        } => {
            let total = total_length(legs);
            let (before, behind) = (earliest(*positive, first), earliest(*negative, last));
            let outer = part_between(alloc, route, total, before, behind)?;
            let (before, behind) = (latest(*positive, first), latest(*negative, last));
            let inner = part_between(alloc, route, total, before, behind)?;
            Ok(Located::Line { outer, inner })
        }
        Reference::PointAlong { positive, .. } => Ok(Located::Point {
            earliest: place_on(route, earliest(*positive, first)),
            latest: place_on(route, latest(*positive, first)),
        }),
    }
}

/// The location of a reference on the joined route of the legs between its points.
///
/// For a line these are two parts of the route: the outer one takes the earliest distances of the
/// offsets, the inner one the latest. For a point along a line they are two places, at those
/// distances of its offset. The positive offset is a share of the first leg's length, the negative
/// one of the last leg's.
///
/// There has to be one leg fewer than points. The length of each has to be that of its route, at
/// least 1 and below 2^20 decimetres, and no piece may go backwards.
///
/// # Errors
///
/// [`NoMemory`] where the allocator refused memory.
pub fn location(alloc: Global, legs: &[Leg], reference: &Reference) -> Result<Located, NoMemory>
    requires reference { IsReference reference.now }
    requires legs { AreLegsOf reference.now legs.now }

    ensures { IfOk result (λ located.
        IsLocation legs.now reference.now (located_value located)) }
{
    let route = join(alloc, legs)?;
    let located = location_on(alloc, &route, legs, reference)?;
    Ok(located)
}
