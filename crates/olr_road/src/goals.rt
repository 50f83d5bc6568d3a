//! Lines as goals of a search, and a length before which no lines lead to one of them.

ghost use Rattle.std.specs.Prelude.{◌≡◌, ◌+◌, ◌-◌, ◌^◌, ◌<◌, ◌≤◌, List, length, slice_index, All, MatchBool, ⊤};
ghost use Rattle.olr_base.specs.declared.degrees.Degrees.{Degrees};
ghost use Rattle.olr_road.specs.declared.ban.Ban.{Ban};
ghost use Rattle.olr_road.specs.declared.node.Node.{Node};
ghost use Rattle.olr_road.specs.Axes.{AreDeficits, StartsBetween, outside};
ghost use Rattle.olr_road.specs.Goals.{AreGoalsOn};
ghost use Rattle.olr_road.specs.inner.Whole.{road_of};

use crate::axes::{Axes, Position, position_of};
use crate::line_set::Entry;
use std::marker::Model;

/// The greatest sum of deficits on an axis, in decimetres, with which it can narrow a search: it
/// tells too little with a greater one.
const USEFUL: u64 = 30_000;

/// From where to where goals lie on an axis, in decimetres.
#[derive(Clone, Copy)]
pub(crate) struct Span {
    low: u64,
    high: u64,
}

/// Lines as goals of a search.
///
/// Contracts see the ranks of the lines, and for each node, by rank, a length in decimetres: no
/// lines lead from there to the start of a goal after less.
#[derive(Drop)]
pub struct Goals<'a> {
    lines: &'a [u32],
    /// The positions of all nodes.
    positions: &'a [Position],
    /// From where to where the lines start on each axis, made wider by its deficits.
    north: Span,
    east: Span,
    /// How far a node of the map is outside at most, on an axis that can narrow a search.
    most: u64,
}

impl<'a> Model for Goals<'a> {
    ghost use Rattle.olr_road.specs.Goals.{GoalLines};

    ghost Value = { GoalLines };

    ghost use Rattle.olr_road.specs.Axes.{least_of};

    ghost view = { λ goals. record {
      lines = goals.lines.now;
      least = least_of goals.positions.now goals.north goals.east;
    } };
}

impl Span {
    /// The span from `low` to `high`, wider by the deficits of its axis at each end.
    fn new(low: u32, high: u32, deficits: u64) -> Span
        requires { deficits ≤ 2 ^ 50 }
        ensures low { result.low ≡ low - deficits }
        ensures high { result.high ≡ high + deficits }
    {
        Span {
            low: u64::from(low).saturating_sub(deficits),
            high: u64::from(high) + deficits,
        }
    }

    /// How far a position is outside, in decimetres.
    fn outside(&self, position: u32) -> u64
        ensures { result ≡ outside self.now position }
    {
        let below = self.low.saturating_sub(u64::from(position));
        let above = u64::from(position).saturating_sub(self.high);
        below.max(above)
    }

    /// How far a position between these two is outside at most; 0 if the axis has so great deficits
    /// that it can't narrow a search.
    fn most_outside(&self, low: u32, high: u32, deficits: u64) -> u64 {
        if deficits > USEFUL {
            return 0;
        }
        self.outside(low).max(self.outside(high))
    }
}

/// The least and the greatest position, on each axis, where lines of these ranks start.
fn bounds_of(entries: &[Entry], positions: &[Position], lines: &[u32]) -> (Position, Position)
    requires { All (λ rank. rank < length entries.now) lines.now }
    ensures { All (StartsBetween entries.now positions.now result.0 result.1) lines.now }
{
    let mut low = Position::GREATEST;
    let mut high = Position::LEAST;
    for &rank in lines {
        let start = position_of(positions, entries[rank as usize].line.from);
        low = low.lesser(start);
        high = high.greater(start);
    }
    (low, high)
}

impl<'a> Goals<'a> {
    /// These lines as goals.
    pub(crate) fn new(axes: &'a Axes, entries: &[Entry], lines: &'a [u32]) -> Goals<'a>
        requires inside { All (λ rank. rank < length entries.now) lines.now }
        requires deficits { AreDeficits entries.now axes.now.positions.items axes.now.deficits }
        ensures lines { result.lines ≡ lines.now }
        ensures goals { (nodes : List Node) (points : List Degrees) (bans : List Ban)
            → AreGoalsOn (road_of nodes entries.now points bans) result }
    {
        let positions: &[Position] = &axes.positions;
        let (low, high) = bounds_of(entries, positions, lines);
        let deficits = axes.deficits;
        let north = Span::new(low.north, high.north, deficits.north);
        let east = Span::new(low.east, high.east, deficits.east);
        let most_north = north.most_outside(axes.low.north, axes.high.north, deficits.north);
        let most_east = east.most_outside(axes.low.east, axes.high.east, deficits.east);
        Goals {
            lines,
            positions,
            north,
            east,
            most: most_north.max(most_east),
        }
    }

    /// The ranks of the lines.
    pub fn lines(&self) -> &'a [u32]
        ensures { result.now ≡ self.now.lines }
    {
        self.lines
    }

    /// Whether a node of the map may be too far from the goals where this length, in decimetres, is
    /// left.
    pub fn narrows(&self, left: u64) -> bool {
        left < self.most
    }

    /// Whether lines may lead from a node to the start of a goal within a length in decimetres.
    /// Where no node is too far it doesn't look at this one, so that a search over a whole map
    /// takes no longer for its goals.
    pub fn may_reach(&self, node: u32, left: u64) -> bool
        ensures { MatchBool result ⊤ (left < slice_index self.now.least node) }
    {
        if !self.narrows(left) {
            return true;
        }
        match self.positions.get(node as usize) {
            Some(position) => {
                self.north.outside(position.north) <= left
                    && self.east.outside(position.east) <= left
            }
            None => true,
        }
    }
}
