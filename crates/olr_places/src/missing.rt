//! What a part of a route misses of another part.

ghost use Rattle.std.specs.Prelude.{◌≡◌, ◌+◌, ◌-◌, ◌^◌, ◌++◌, ◌<◌, ◌≤◌, Contains, IfSome, List};
ghost use Rattle.std.specs.Prelude.{MatchOption, false, if◌then◌else◌, nat_le};
ghost use Rattle.std.specs.List.Sorted.{IsNonDecreasingBy};
ghost use Rattle.olr_report.specs.Steps.{Step, steps_in};
ghost use Rattle.olr_places.specs.CoveredRoads.{IsCoverOf};
ghost use Rattle.olr_places.specs.Missing.{AreCovered, covers, longest_run, missing_of};
ghost use Rattle.olr_route.specs.declared.piece.Piece.{Piece};

use crate::cover::{Cover, Stretch};
use olr_route::Piece;

/// How many steps are missing in a row at the end of a stretch, where so many were before it.
fn run_after(before: u64, stretch: Stretch, at: u32) -> u64
    requires before { before < 2 ^ 32 }
    requires forwards { at < stretch.end }
    ensures { result ≡ (if stretch.is_covered then 0 else before + (stretch.end - at)) }
{
    if stretch.is_covered {
        return 0;
    }
    before + u64::from(stretch.end - at)
}

/// How many steps at the end of a piece are missing, with those before it where all of its own
/// are. `None` once a run exceeds `most`.
#[tactic(auto, using(olr_report::proofs::StepLists::stretch, crate::proofs::Runs::Within, crate::proofs::Runs::next_stretch))]
fn run_behind(cover: &Cover, piece: &Piece, before: u64, most: u32) -> Option<u64>
    requires rises { IsNonDecreasingBy (λ (piece : Piece). piece.line) cover.now.pieces.items }
    requires at_most { before ≤ most }
    ensures { MatchOption result
        ((rest : List Step) → nat_le (longest_run (covers cover.now.pieces.items) before
        (steps_in piece.now ++ rest)) most ≡ false)
        (λ run. (run ≤ most) × ((rest : List Step)
        → nat_le (longest_run (covers cover.now.pieces.items) before
        (steps_in piece.now ++ rest)) most
        ≡ nat_le (longest_run (covers cover.now.pieces.items) run rest) most)) }
{
    let mut run = before;
    let mut at = piece.from;
    while at < piece.to {
        let stretch = cover.stretch(piece.line, at, piece.to);
        run = run_after(run, stretch, at);
        if run > u64::from(most) {
            return None;
        }
        at = stretch.end;
    }
    Some(run)
}

/// The pieces behind a piece, where it is the first or the second one of these.
fn pieces_behind<'a>(pieces: &'a [Piece], piece: &Piece) -> Option<&'a [Piece]>
    ensures { IfSome result (λ behind. Contains pieces.now piece.now
        × ((other : Piece) → Contains behind.now other → Contains pieces.now other)) }
{
    let (first, behind) = pieces.split_first()?;
    if first == piece {
        return Some(behind);
    }
    let (second, behind) = behind.split_first()?;
    if second == piece {
        return Some(behind);
    }
    None
}

/// What [`run_behind`] answers for a piece, and which of the pieces `ahead` of the part are to be
/// compared with the next one. Two parts mostly drive the same pieces, so a piece is looked for
/// there first: then all of it is covered.
fn run_past<'a>(
    cover: &Cover,
    ahead: &'a [Piece],
    piece: &Piece,
    before: u64,
    most: u32,
) -> Option<(u64, &'a [Piece])>
    requires rises { IsNonDecreasingBy (λ (piece : Piece). piece.line) cover.now.pieces.items }
    requires at_most { before ≤ most }
    requires covered { AreCovered cover.now.pieces.items ahead.now }
    ensures { MatchOption result
        ((rest : List Step) → nat_le (longest_run (covers cover.now.pieces.items) before
        (steps_in piece.now ++ rest)) most ≡ false)
        (λ past. (past.0 ≤ most) × AreCovered cover.now.pieces.items past.1.now
        × ((rest : List Step)
        → nat_le (longest_run (covers cover.now.pieces.items) before
        (steps_in piece.now ++ rest)) most
        ≡ nat_le (longest_run (covers cover.now.pieces.items) past.0 rest) most)) }
{
    if piece.from < piece.to {
        if let Some(behind) = pieces_behind(ahead, piece) {
            return Some((0, behind));
        }
    }
    let run = run_behind(cover, piece, before, most)?;
    Some((run, ahead))
}

/// Whether a part misses at most so many neighbouring steps of another one.
pub(crate) fn misses_at_most(cover: &Cover, part: &[Piece], other: &[Piece], most: u32) -> bool
    requires { IsCoverOf part.now cover.now }
    ensures { result ≡ nat_le (missing_of cover.now.pieces.items other.now) most }
{
    let mut run = 0;
    let mut ahead = part;
    for piece in other {
        let Some(past) = run_past(cover, ahead, piece, run, most) else {
            return false;
        };
        (run, ahead) = past;
    }
    true
}
