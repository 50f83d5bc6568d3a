//! The positions of nodes on two axes. Lines that lead from one node to another are together at
//! least as long as the two are apart on an axis, less the sum of what single lines are shorter
//! than their ends are apart.
//!
//! Positions are in decimetres, and scaled down, so that hardly a line is shorter than its ends are
//! apart. By how much lines are shorter nevertheless is summed for the positions as they are then,
//! so what follows from it holds for any positions.

ghost use Rattle.std.specs.Prelude.{◌≡◌, ◌-◌, ◌^◌, ◌<◌, ◌≤◌, min, max, length, IfOk, vec_len};
ghost use Rattle.std.specs.Int.{abs_diff};
ghost use Rattle.olr_road.specs.Axes.{AreDeficits, position_of};

use crate::line_set::Entry;
use crate::node::Node;
use olr_base::{Degrees, NoMemory};
use std::alloc::Global;

/// To how many ten-thousandths positions may be scaled.
const SCALES: [u32; 5] = [9_850, 9_500, 9_000, 8_000, 6_000];

/// How far two nodes are apart for which the scale of an axis is chosen, in ten-thousandths of a
/// decimetre: five kilometres.
const LEG: u64 = 5;

/// The square of 180 degrees, in square microdegrees.
const HALF_TURN_SQUARED: u64 = 32_400_000_000_000_000;

/// The greatest deficits of an axis, in decimetres, with which no lesser scale is tried: the next
/// one takes as much from the bound over a leg.
const SMALL: u64 = 1_750;

/// The position of a node, in decimetres from the beginning of each axis.
#[derive(Clone, Copy)]
pub(crate) struct Position {
    pub(crate) north: u32,
    pub(crate) east: u32,
}

/// For each axis the sum of the deficits of all lines, in decimetres. A line's deficit is by how
/// much it is shorter than its ends are apart on the axis.
#[derive(Clone, Copy)]
pub(crate) struct Deficits {
    pub(crate) north: u64,
    pub(crate) east: u64,
}

/// The positions of all nodes, and the deficits of all lines there.
#[derive(Drop)]
pub(crate) struct Axes {
    pub(crate) positions: Vec<Position>,
    pub(crate) deficits: Deficits,
    /// The least position on each axis.
    pub(crate) low: Position,
    /// The greatest position on each axis.
    pub(crate) high: Position,
}

impl Position {
    /// A position that is no greater than any other.
    pub(crate) const LEAST: Position = Position { north: 0, east: 0 };

    /// A position that is no less than any other.
    pub(crate) const GREATEST: Position = Position {
        north: u32::MAX,
        east: u32::MAX,
    };

    /// The lesser of two positions, on each axis.
    pub(crate) fn lesser(self, other: Position) -> Position
        ensures north { result.north ≡ min self.north other.north }
        ensures east { result.east ≡ min self.east other.east }
    {
        Position {
            north: self.north.min(other.north),
            east: self.east.min(other.east),
        }
    }

    /// The greater of two positions, on each axis.
    pub(crate) fn greater(self, other: Position) -> Position
        ensures north { result.north ≡ max self.north other.north }
        ensures east { result.east ≡ max self.east other.east }
    {
        Position {
            north: self.north.max(other.north),
            east: self.east.max(other.east),
        }
    }
}

/// To how many ten-thousandths positions are scaled on each axis.
#[derive(Clone, Copy)]
struct Scales {
    north: u32,
    east: u32,
}

/// The position of a node. A node without one is where both axes begin.
pub(crate) fn position_of(positions: &[Position], node: u32) -> Position
    ensures { result ≡ position_of positions.now node }
{
    match positions.get(node as usize) {
        Some(position) => *position,
        None => Position::LEAST,
    }
}

/// So many ten-thousandths of a number.
fn part_of(number: u32, ten_thousandths: u32) -> u32 {
    let product = u64::from(number) * u64::from(ten_thousandths);
    u32::try_from(product / 10_000).unwrap_or(u32::MAX)
}

/// The length of a degree along the parallel of a node that is farthest from the equator, in
/// ten-thousandths of one along a meridian. It is the cosine of the latitude x by the formula
/// (180² - 4x²) / (180² + x²), which is off by less than 0.2 percent of one.
fn parallel_share(nodes: &[Node]) -> u32 {
    let mut farthest = 0;
    for node in nodes {
        farthest = node.place.lat.unsigned_abs().max(farthest);
    }
    let amount = u64::from(farthest.min(80_000_000));
    let square = amount * amount;
    let lower = (HALF_TURN_SQUARED + square) / 10_000;
    u32::try_from((HALF_TURN_SQUARED - 4 * square) / lower).unwrap_or(10_000)
}

/// The decimetres along a meridian from so many microdegrees before zero to a coordinate.
fn decimetres_of(coordinate: i32, before: i32) -> u32 {
    let microdegrees = coordinate.saturating_add(before).max(0).unsigned_abs();
    part_of(microdegrees, 11_132)
}

/// The position of a place.
fn position_at(place: Degrees, share: u32, scales: Scales) -> Position {
    let north = decimetres_of(place.lat, 80_000_000);
    let east = part_of(decimetres_of(place.lon, 180_000_000), share);
    Position {
        north: part_of(north, scales.north),
        east: part_of(east, scales.east),
    }
}

/// The position of each node.
fn positions_of(
    alloc: Global,
    nodes: &[Node],
    share: u32,
    scales: Scales,
) -> Result<Vec<Position>, NoMemory>
    ensures { IfOk result (λ positions. vec_len positions ≡ length nodes.now) }
{
    let mut positions = Vec::with_capacity(alloc, nodes.len())?;
    for node in nodes {
        positions.push(position_at(node.place, share, scales))?;
    }
    Ok(positions)
}

/// By how much a line of a length is shorter than two positions on an axis are apart.
fn deficit_of(from: u32, to: u32, length: u32) -> u64
    ensures deficit { result ≡ abs_diff from to - length }
    ensures at_most { result < 2 ^ 32 }
{
    u64::from(from.abs_diff(to).saturating_sub(length))
}

/// The deficits of all lines.
fn deficits_of(entries: &[Entry], positions: &[Position]) -> Deficits
    requires { length entries.now ≤ 200000 }
    ensures { AreDeficits entries.now positions.now result }
{
    let mut north = 0;
    let mut east = 0;
    for entry in entries {
        let line = entry.line;
        let from = position_of(positions, line.from);
        let to = position_of(positions, line.to);
        north += deficit_of(from.north, to.north, line.length);
        east += deficit_of(from.east, to.east, line.length);
    }
    Deficits { north, east }
}

/// The axes, with positions of these scales.
fn with_scales(
    alloc: Global,
    nodes: &[Node],
    entries: &[Entry],
    share: u32,
    scales: Scales,
) -> Result<Axes, NoMemory>
    requires { length entries.now ≤ 200000 }
    ensures { IfOk result (λ axes. AreDeficits entries.now axes.positions.items axes.deficits) }
{
    let positions = positions_of(alloc, nodes, share, scales)?;
    let deficits = deficits_of(entries, &positions);
    let mut low = Position::GREATEST;
    let mut high = Position::LEAST;
    for position in &positions {
        low = low.lesser(*position);
        high = high.greater(*position);
    }
    Ok(Axes {
        positions,
        deficits,
        low,
        high,
    })
}

/// How long lines are at least, in decimetres, that lead between two nodes which are [`LEG`] apart
/// on an axis of this scale and with these deficits.
fn least_apart(scale: u32, deficits: u64) -> u64 {
    (LEG * u64::from(scale)).saturating_sub(deficits)
}

/// The scale of each axis for which this length is greatest.
fn best_scales(
    alloc: Global,
    nodes: &[Node],
    entries: &[Entry],
    share: u32,
) -> Result<Scales, NoMemory>
    requires { length entries.now ≤ 200000 }
{
    let mut best = Scales {
        north: SCALES[0],
        east: SCALES[0],
    };
    let mut north = 0;
    let mut east = 0;
    for scale in SCALES {
        let same = Scales {
            north: scale,
            east: scale,
        };
        let deficits = deficits_of(entries, &positions_of(alloc, nodes, share, same)?);
        if least_apart(scale, deficits.north) > north {
            north = least_apart(scale, deficits.north);
            best.north = scale;
        }
        if least_apart(scale, deficits.east) > east {
            east = least_apart(scale, deficits.east);
            best.east = scale;
        }
    }
    Ok(best)
}

/// The axes of a map with these nodes and lines.
pub(crate) fn axes_of(alloc: Global, nodes: &[Node], entries: &[Entry]) -> Result<Axes, NoMemory>
    requires { length entries.now ≤ 200000 }
    ensures { IfOk result (λ axes. AreDeficits entries.now axes.positions.items axes.deficits) }
{
    let share = parallel_share(nodes);
    let greatest = Scales {
        north: SCALES[0],
        east: SCALES[0],
    };
    let axes = with_scales(alloc, nodes, entries, share, greatest)?;
    if axes.deficits.north <= SMALL && axes.deficits.east <= SMALL {
        return Ok(axes);
    }
    let best = best_scales(alloc, nodes, entries, share)?;
    with_scales(alloc, nodes, entries, share, best)
}
