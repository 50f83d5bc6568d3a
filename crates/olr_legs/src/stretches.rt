//! Where the stretches of a leg's route begin that another walk may miss.

ghost use Rattle.std.specs.Prelude.{◌+◌, ◌-◌, ◌^◌, ◌<◌, ◌≤◌, ℕ, All, Contains, IfOk};
ghost use Rattle.std.specs.List.{sum_by};
ghost use Rattle.olr_report.specs.Joined.{IsForwards};
ghost use Rattle.olr_route.specs.Walk.{piece_length};
ghost use Rattle.olr_legs.specs.Stretches.{IsBeginOn, IsStart};

use olr_base::NoMemory;
use olr_road::Place;
use olr_route::Piece;
use std::alloc::Global;

/// Adds the starts on a piece that begins at the step `start` of its route.
#[tactic(auto, using(crate::proofs::Starts::kept_by_push, crate::proofs::Starts::first_begin, crate::proofs::Starts::both_begins))]
fn push_starts(starts: &mut Vec<u64>, to: Place, piece: Piece, start: u64) -> Result<(), NoMemory>
    requires { start < 2 ^ 32 }
    ensures kept { IfOk result (λ _. (other : ℕ) → Contains starts.old.items other
        → Contains starts.new.items other) }
    ensures begins { IfOk result (λ _. (at : ℕ) → IsBeginOn to piece at
        → Contains starts.new.items (start + (at - piece.from))) }
{
    starts.push(start)?;
    let is_within = piece.line == to.line && piece.from < to.at && to.at < piece.to;
    if !is_within {
        return Ok(());
    }
    starts.push(start + u64::from(to.at - piece.from))?;
    Ok(())
}

/// The steps of a route, counted from 0, at which one of its pieces begins or that begin at a
/// place.
pub(crate) fn starts_of(alloc: Global, to: Place, route: &[Piece]) -> Result<Vec<u64>, NoMemory>
    requires forwards { All IsForwards route.now }
    requires short { sum_by piece_length route.now < 2 ^ 32 }
    ensures { IfOk result (λ starts. (start : ℕ) → IsStart to route.now start
        → Contains starts.items start) }
{
    let mut starts = Vec::new(alloc);
    let mut start = 0;
    for piece in route {
        push_starts(&mut starts, to, *piece, start)?;
        start += u64::from(piece.to - piece.from);
    }
    Ok(starts)
}
