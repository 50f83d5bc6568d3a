//! Pieces of a route, and how they are joined.

ghost use Rattle.std.specs.Prelude.{◌≡◌, ◌++◌, ◌↔◌, IsTrue, OnOk};
ghost use Rattle.olr_report.specs.Joined.{IsForwards, IsRouteOver, Touches};
ghost use Rattle.olr_report.specs.Steps.{steps_in, steps_of};
ghost use Rattle.olr_route.specs.Walk.{piece_length};

use olr_base::NoMemory;
use olr_route::Piece;

/// The length of a piece, in decimetres.
pub(crate) fn length_of(piece: Piece) -> u64
    requires { IsForwards piece }
    ensures { result ≡ piece_length piece }
{
    u64::from(piece.to - piece.from)
}

/// Whether the second piece begins where the first one ends, on the same line.
fn touches(first: Piece, second: Piece) -> bool
    ensures { IsTrue result ↔ Touches first second }
{
    first.line == second.line && first.to == second.from
}

/// Adds a piece to the end of a route. An empty piece adds nothing, and one that touches the last
/// piece makes that one longer.
pub(crate) fn append(route: &mut Vec<Piece>, piece: Piece) -> Result<(), NoMemory>
    requires route { IsRouteOver (steps_of route.old.items) route.old.items }
    requires forwards { IsForwards piece }

    ensures { OnOk result
        (IsRouteOver (steps_of route.old.items ++ steps_in piece) route.new.items) }
{
    if piece.from == piece.to {
        return Ok(());
    }
    if let Some(last) = route.last_mut()
        && touches(*last, piece)
    {
        last.to = piece.to;
        return Ok(());
    }
    route.push(piece)?;
    Ok(())
}
