//! The pieces of a part of a route, sorted by line for look-ups.

ghost use Rattle.std.specs.Prelude.{◌≡◌, ◌-◌, ◌<◌, ◌≤◌, ◌⊎◌, All, Any, IfOk, MatchBool, length};
ghost use Rattle.std.specs.List.Sorted.{IsNonDecreasingBy, IsPartitionPoint};
ghost use Rattle.olr_report.proofs.StepLists.{stretch};
ghost use Rattle.olr_report.specs.Steps.{Step};
ghost use Rattle.olr_places.specs.Missing.{covers};
ghost use Rattle.olr_route.specs.declared.piece.Piece.{Piece};

use olr_base::NoMemory;
use olr_route::Piece;
use std::alloc::Global;

/// The pieces of a part by rising line, where they are looked up. (A route drives a line a few
/// times for each of its legs at most, so those of one line are few.)
#[derive(Debug, Drop)]
pub(crate) struct Cover {
    pub(crate) pieces: Vec<Piece>,
}

/// The next steps on a line, which are all covered or all missing.
#[derive(Clone, Copy, Debug)]
pub(crate) struct Stretch {
    /// Whether they are covered.
    pub is_covered: bool,
    /// The position behind them.
    pub end: u32,
}

/// How many of the pieces lie on lines of lesser rank.
fn count_before(pieces: &[Piece], line: u32) -> usize
    requires { IsNonDecreasingBy (λ (piece : Piece). piece.line) pieces.now }
    ensures at_most { result ≤ length pieces.now }
    ensures point { IsPartitionPoint (λ piece. piece.line < line) (λ piece. line ≤ piece.line)
        pieces.now result }
{
    pieces.partition_point(|piece| piece.line < line)
}

/// How many lie on lines of lesser rank, or on this line.
fn count_up_to(pieces: &[Piece], line: u32) -> usize
    requires { IsNonDecreasingBy (λ (piece : Piece). piece.line) pieces.now }
    ensures at_most { result ≤ length pieces.now }
    ensures point { IsPartitionPoint (λ piece. piece.line ≤ line) (λ piece. line < piece.line)
        pieces.now result }
{
    pieces.partition_point(|piece| piece.line <= line)
}

/// The next steps on a line from a position before the end, by the pieces on this line.
fn next_stretch(pieces: &[Piece], at: u32, end: u32) -> Stretch
    requires { at < end }
    ensures forwards { (at < result.end) × (result.end ≤ end) }
    ensures alike { MatchBool result.is_covered
        (Any (λ piece. (piece.from ≤ at) × (result.end ≤ piece.to)) pieces.now)
        (All (λ piece. (result.end ≤ piece.from) ⊎ (piece.to ≤ at)) pieces.now) }
{
    let mut next = end;
    for piece in pieces {
        if piece.from <= at && at < piece.to {
            return Stretch {
                is_covered: true,
                end: end.min(piece.to),
            };
        }
        if at < piece.from {
            next = next.min(piece.from);
        }
    }
    Stretch {
        is_covered: false,
        end: next,
    }
}

/// The next steps on a line from a position before the end, by pieces by rising line.
fn stretch_on(pieces: &[Piece], line: u32, at: u32, end: u32) -> Stretch
    requires rises { IsNonDecreasingBy (λ (piece : Piece). piece.line) pieces.now }
    requires before { at < end }
    ensures forwards { (at < result.end) × (result.end ≤ end) }
    ensures alike { All (λ step. covers pieces.now step ≡ result.is_covered)
        (stretch line at (result.end - at)) }
{
    let first = count_before(pieces, line);
    let behind = count_up_to(pieces, line);
    next_stretch(&pieces[first..behind], at, end)
}

impl Cover {
    /// The pieces of a part.
    pub(crate) fn new(alloc: Global, part: &[Piece]) -> Result<Cover, NoMemory>
        ensures rises { IfOk result (λ cover.
            IsNonDecreasingBy (λ (piece : Piece). piece.line) cover.pieces.items) }
        ensures same { IfOk result (λ cover.
            (step : Step) → covers cover.pieces.items step ≡ covers part.now step) }
    {
        let mut pieces = Vec::from_slice(alloc, part)?;
        pieces.sort_unstable_by_key(|piece| piece.line);
        Ok(Cover { pieces })
    }

    /// The next steps on a line from a position before the end.
    pub(crate) fn stretch(&self, line: u32, at: u32, end: u32) -> Stretch
        requires rises { IsNonDecreasingBy (λ (piece : Piece). piece.line) self.now.pieces.items }
        requires before { at < end }
        ensures forwards { (at < result.end) × (result.end ≤ end) }
        ensures alike { All (λ step. covers self.now.pieces.items step ≡ result.is_covered)
            (stretch line at (result.end - at)) }
    {
        stretch_on(&self.pieces, line, at, end)
    }
}
