//! The joined route of legs.

ghost use Rattle.std.specs.Prelude.{◌≡◌, ◌++◌, All, IfOk, OnOk, length, min};
ghost use Rattle.std.specs.List.{sum_by};
ghost use Rattle.olr_report.specs.Joined.{AreForwards, IsForwards, IsJoinedRoute, IsRouteOver};
ghost use Rattle.olr_report.specs.Steps.{steps_of};

use crate::pieces::append;
use olr_base::NoMemory;
use olr_matching::Leg;
use olr_route::Piece;
use std::alloc::Global;

/// How many pieces legs have, `usize::MAX` where they have more.
fn count_of_pieces(legs: &[Leg]) -> usize
    ensures { result ≡ min (sum_by (λ leg. length leg.route) legs.now) usize.MAX }
{
    let mut count: usize = 0;
    for leg in legs {
        count = count.saturating_add(leg.route.len());
    }
    count
}

/// Adds pieces to the end of a route.
fn append_all(route: &mut Vec<Piece>, pieces: &[Piece]) -> Result<(), NoMemory>
    requires route { IsRouteOver (steps_of route.old.items) route.old.items }
    requires forwards { All IsForwards pieces.now }

    ensures { OnOk result
        (IsRouteOver (steps_of route.old.items ++ steps_of pieces.now) route.new.items) }
{
    for piece in pieces {
        append(route, *piece)?;
    }
    Ok(())
}

/// The joined route of legs: their pieces one after the other without the empty ones, where
/// neighbours that touch become one piece. Two pieces touch where the second begins where the first
/// ends, on the same line. No piece may go backwards: its `from` has to be at most its `to`.
///
/// # Errors
///
/// [`NoMemory`] where the allocator refused memory.
pub fn join(alloc: Global, legs: &[Leg]) -> Result<Vec<Piece>, NoMemory>
    requires { AreForwards legs.now }
    ensures { IfOk result (λ route. IsJoinedRoute legs.now route.items) }
{
    let mut route = Vec::with_capacity(alloc, count_of_pieces(legs))?;
    for leg in legs {
        append_all(&mut route, &leg.route)?;
    }
    Ok(route)
}
