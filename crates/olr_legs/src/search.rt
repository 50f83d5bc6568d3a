//! What is asked of a search for another walk, and which lines it may go over.

ghost use Rattle.std.specs.Prelude.{◌<◌, ◌≤◌, length, Decides};
ghost use Rattle.olr_legs.specs.Avoiding.{IsClearOf};
ghost use Rattle.olr_legs.specs.Search.{IsReady, MayEnd, MayPrecede};

use olr_road::{Map, Place};
use olr_route::{Piece, Reach};

/// What is asked of a search for another walk: the map; the lengths from the place where the walks
/// begin, which tell the class limit too; the place where they end; the greatest length, in
/// decimetres; and the pieces that are shut.
#[derive(Drop)]
pub(crate) struct Search<'a> {
    pub(crate) map: &'a Map,
    pub(crate) reach: &'a Reach,
    pub(crate) to: Place,
    pub(crate) bound: u64,
    pub(crate) shut: &'a [Piece],
}

/// Whether no decimetre of a piece belongs to one of the pieces that are shut.
pub(crate) fn is_clear(shut: &[Piece], piece: Piece) -> bool
    ensures { Decides result (IsClearOf shut.now piece) }
{
    shut.iter().all(|other| {
        other.line != piece.line || other.from.max(piece.from) >= other.to.min(piece.to)
    })
}

impl<'a> Search<'a> {
    /// Whether the search may go over a whole line, where that and the walk before it may be `most`
    /// decimetres long together.
    pub(crate) fn may_precede(&self, line: u32, most: u64) -> bool
        requires ready { IsReady self.now }
        requires line { line < length self.now.map.now.lines }
        requires most { most ≤ self.now.bound }
        ensures { Decides result (MayPrecede self.now line most) }
    {
        let row = self.map.line(line);
        let long = u64::from(row.length);
        let (class, _, _) = self.reach.asked();
        let whole = Piece {
            line,
            from: 0,
            to: row.length,
        };
        if row.class > class || long > most || !is_clear(self.shut, whole) {
            return false;
        }
        match self.reach.length_to(self.map, Place { line, at: 0 }) {
            Some(before) => before <= most - long,
            None => false,
        }
    }

    /// Whether the walks may end by the piece to their last place from the start of its line.
    pub(crate) fn may_end(&self) -> bool
        requires { IsReady self.now }
        ensures { Decides result (MayEnd self.now) }
    {
        let to = self.to;
        let (class, _, _) = self.reach.asked();
        let last = Piece {
            line: to.line,
            from: 0,
            to: to.at,
        };
        if to.at > 0 && self.map.line(to.line).class > class {
            return false;
        }
        u64::from(to.at) <= self.bound && is_clear(self.shut, last)
    }
}
