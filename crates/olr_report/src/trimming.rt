//! A part of a route.

ghost use Rattle.std.specs.Prelude.{◌≡◌, ◌<◌, All, IfOk, drop, take};
ghost use Rattle.olr_report.specs.Joined.{IsForwards, IsTrimmedPart};
ghost use Rattle.olr_report.specs.Steps.{steps_in, steps_of};

use crate::pieces::{append, length_of};
use olr_base::NoMemory;
use olr_route::Piece;
use std::alloc::Global;

/// The part of a piece that leaves out its first `skip` decimetres and is at most `most` decimetres
/// long. It is empty where nothing is left.
fn clip(piece: Piece, skip: u64, most: u64) -> Piece
    requires { IsForwards piece }

    ensures forwards { IsForwards result }
    ensures steps { steps_in result ≡ take most (drop skip (steps_in piece)) }
{
    let length = length_of(piece);
    let skipped = skip.min(length);
    let taken = most.min(length - skipped);
    let from = piece.from + skipped as u32;
    Piece {
        line: piece.line,
        from,
        to: from + taken as u32,
    }
}

/// The part of a route from one distance to another, both in decimetres from its start. The pieces
/// that are handed in may be empty or touch, but may not go backwards; `start` has to be less than
/// `end`. Where `end` is beyond the end of the route, the part goes up to that. In the answer no
/// piece is empty and no two neighbours touch.
///
/// # Errors
///
/// [`NoMemory`] where the allocator refused memory.
pub fn trim(alloc: Global, pieces: &[Piece], start: u64, end: u64) -> Result<Vec<Piece>, NoMemory>
    requires forwards { All IsForwards pieces.now }
    requires before { start < end }

    ensures { IfOk result (λ part. IsTrimmedPart (steps_of pieces.now) start end part.items) }
{
    let mut part = Vec::with_capacity(alloc, pieces.len())?;
    let mut skip = start;
    let mut left = end - start;
    for piece in pieces {
        let clipped = clip(*piece, skip, left);
        append(&mut part, clipped)?;
        skip = skip.saturating_sub(length_of(*piece));
        left -= length_of(clipped);
    }
    Ok(part)
}
