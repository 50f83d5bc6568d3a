//! The law on joined routes: the contract of a function that does nothing at run time.

ghost use Rattle.std.specs.Prelude.{◌≡◌, List};
ghost use Rattle.olr_report.specs.Joined.{IsRouteOver};
ghost use Rattle.olr_report.specs.Steps.{Step};
ghost use Rattle.olr_route.specs.declared.piece.Piece.{Piece};

/// There is at most one joined route of the same steps.
#[tactic(auto, using(crate::proofs::OneRoute::one_route))]
pub fn one_route_of_steps()
    ensures { (steps : List Step) (a b : List Piece)
        → IsRouteOver steps a
        → IsRouteOver steps b
        → a ≡ b }
{}
