//! Laws on the lines near a point of a reference. Each law is the contract of a function that does
//! nothing at run time; its body only names the laws on which it rests.

ghost use Rattle.olr_candidates.specs.Laws.{CandidatesFailNone, NearAreCandidates, NearIsOfLines, NearestAreInOrderOfIds, NearestAreNear, OneListOfNearest};

use crate::projection::one_projection;

/// A line near a point fails no condition exactly where it is a candidate of the point, and then it
/// has the candidate's place and penalty.
#[tactic(auto, using(crate::proofs::NearLines::near_are_candidates))]
pub fn near_candidates()
    ensures candidate { NearAreCandidates }
    ensures fails_none { CandidatesFailNone }
{
    one_projection();
}

/// A point has one list of nearest lines at most.
pub fn one_list_of_nearest()
    ensures { OneListOfNearest }
{}

/// Each of the nearest lines of a point is a line near it, and that is the line of its rank.
pub fn nearest_are_near()
    ensures near { NearestAreNear }
    ensures line { NearIsOfLines }
{}

/// On a map the nearest lines of a point are in the order of distances and then of their ids.
pub fn order_of_nearest()
    ensures { NearestAreInOrderOfIds }
{}
