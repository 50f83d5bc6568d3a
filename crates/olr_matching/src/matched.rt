//! The parts of a matching.

ghost use Rattle.olr_matching.specs.Matched.{AreSound, OneMatched};

use arrayvec::ArrayVec;
use olr_binary::MAX_POINTS;
use olr_candidates::{Candidate, places};
use olr_route::{Piece, one_route, pieces_of_route};
use std::marker::Model;

/// A leg of a matching: the route from the candidate of one point to that of the next one.
#[derive(Debug, Drop)]
pub struct Leg {
    /// The length of the route in decimetres, 1 to 310,032.
    pub length: u64,
    /// The penalty, 0 to 100.
    pub penalty: u8,
    /// The route, piece by piece.
    pub route: Vec<Piece>,
}

impl Model for Leg {
    ghost use Rattle.olr_matching.specs.Values.{LegValue};

    ghost Value = { LegValue };

    ghost view = { λ leg. record {
      length = leg.length;
      penalty = leg.penalty;
      route = leg.route.items;
    } };
}

/// The parts of a matching: the candidate of each point of the reference, in order, and the leg
/// between each two neighbours.
#[derive(Debug, Drop)]
pub struct Matched {
    /// 2 to 32 candidates.
    pub candidates: ArrayVec<Candidate, MAX_POINTS>,
    /// One leg fewer.
    pub legs: Vec<Leg>,
}

impl Model for Matched {
    ghost use Rattle.olr_matching.specs.Values.{MatchedValue};

    ghost Value = { MatchedValue };

    ghost view = { λ matched. record {
      candidates = matched.candidates.items;
      legs = matched.legs.items;
    } };
}

/// What holds of the parts of every matching: there are as many candidates as the reference has
/// points, each on the map, and one leg fewer; the length of a leg is that of its route, 1 to
/// 310,032 decimetres, and the pieces of the route lie on the map, forwards.
#[tactic(auto, using(crate::proofs::Sound::are_sound))]
pub fn matchings_are_sound()
    ensures { AreSound }
{
    places();
    pieces_of_route();
}

/// A key has one value of parts at most: the same candidates, and legs of the same length, penalty
/// and route.
pub fn one_matched()
    ensures { OneMatched }
{
    one_route();
}
