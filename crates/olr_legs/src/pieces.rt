//! The pieces of a walk.

ghost use Rattle.std.specs.Prelude.{◌≡◌, ◌<◌, All, IfOk, length};
ghost use Rattle.olr_route.specs.Walk.{length_at, pieces_of};

use olr_base::NoMemory;
use olr_road::{Map, Place};
use olr_route::Piece;
use std::alloc::Global;

/// The length of a line.
#[tactic(auto, using(crate::proofs::WalkPieces::long_is))]
fn length_of(map: &Map, line: u32) -> u32
    requires { line < length map.now.lines }
    ensures { result ≡ length_at map.now line }
{
    map.line(line).length
}

/// The pieces of a walk from one place to another over the line of the first one and then the lines
/// `behind` it.
#[tactic(auto, using(crate::proofs::WalkPieces::next_piece, crate::proofs::WalkPieces::last_piece))]
pub(crate) fn pieces_over(
    alloc: Global,
    map: &Map,
    from: Place,
    to: Place,
    behind: &[u32],
) -> Result<Vec<Piece>, NoMemory>
    requires from { from.line < length map.now.lines }
    requires behind { All (λ line. line < length map.now.lines) behind.now }

    ensures { IfOk result (λ pieces. pieces.items ≡ pieces_of map.now from to behind.now) }
{
    let mut pieces = Vec::new(alloc);
    let mut begin = from;
    for next in behind {
        pieces.push(Piece {
            line: begin.line,
            from: begin.at,
            to: length_of(map, begin.line),
        })?;
        begin = Place { line: *next, at: 0 };
    }
    pieces.push(Piece {
        line: begin.line,
        from: begin.at,
        to: to.at,
    })?;
    Ok(pieces)
}
