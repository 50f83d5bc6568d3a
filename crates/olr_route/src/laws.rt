//! Laws on walks, without code: each is the contract of an empty function.

ghost use Rattle.std.specs.Prelude.{◌≡◌, ◌++◌, List, ℕ, []};
ghost use Rattle.olr_road.specs.Place.{IsDeparture, IsPlace};
ghost use Rattle.olr_road.specs.RoadMap.{IsSoundMap, RoadMap};
ghost use Rattle.olr_road.specs.declared.place.Place.{Place};
ghost use Rattle.olr_route.specs.Least.{IsLeastLength};
ghost use Rattle.olr_route.specs.Route.{AreRoutePieces, IsRoute, IsRouteWithin};
ghost use Rattle.olr_route.specs.declared.piece.Piece.{Piece};
ghost use Rattle.olr_route.specs.Walk.{IsWalk, walk_length};

/// There is at most one least length.
#[tactic(auto, using(crate::proofs::LawsOfWalks::least_once))]
pub fn one_least_length()
    ensures { (road : RoadMap) (class : ℕ) (from to : Place) (a b : ℕ)
        → IsLeastLength road class from to a
        → IsLeastLength road class from to b
        → a ≡ b }
{}

/// No walk is a beginning of another one of the same length between the same places.
pub fn no_beginning_of_another()
    ensures { (road : RoadMap) (class : ℕ) (from to : Place) (behind more : List ℕ)
        → IsSoundMap road
        → IsPlace road to
        → IsWalk road class from to behind
        → IsWalk road class from to (behind ++ more)
        → walk_length road from to (behind ++ more) ≡ walk_length road from to behind
        → more ≡ [] }
{}

/// There is at most one route.
pub fn one_route()
    ensures { (road : RoadMap) (class : ℕ) (from to : Place) (a b : List ℕ)
        → IsSoundMap road
        → IsRoute road class from to a
        → IsRoute road class from to b
        → a ≡ b }
{}

/// The pieces of a route lie on the map, each goes on where the one before it stops, and the sum of
/// their lengths is the least length, which is at least one decimetre.
pub fn pieces_of_route()
    ensures { (road : RoadMap) (class : ℕ) (from to : Place) (limit : ℕ) (pieces : List Piece)
        → IsSoundMap road
        → IsDeparture road from
        → IsPlace road to
        → IsRouteWithin road class from to limit pieces
        → AreRoutePieces road class from to pieces }
{}
