//! Laws on the candidates of a point. Each law is the contract of a function that does nothing at
//! run time; its body only names the laws on which it rests.
//!
//! A point is given by itself, with the origin of its plane. [`point_laws`](crate::point_laws) has
//! the same and more for the points of a reference.

ghost use Rattle.olr_candidates.specs.Laws.{OneList, NoListAndTooMany, TestsOrder, RanksCount, OneCandidateALine, HoldsOfEach, IsOfLines, LiesOnLine, LiesUpToEnd, PenaltyAtMost};

use crate::projection::one_projection;
use olr_metric::{differences, nearest_within};

/// A point has one list of candidates at most.
pub fn one_list()
    ensures { OneList }
{}

/// A point whose list has at most 64 candidates hasn't too many.
pub fn no_list_and_too_many()
    ensures { NoListAndTooMany }
{}

/// The index of a candidate in the list, counted from 0, is the number of the point's candidates
/// that come before it: those with a lesser penalty, and those with the same on a line of a lesser
/// rank.
pub fn ranks_count()
    ensures before { TestsOrder }
    ensures count { RanksCount }
{}

/// A line is one candidate of a point at most.
pub fn one_candidate_a_line()
    ensures { OneCandidateALine }
{
    one_projection();
}

/// A candidate is on one of the lines, and no further than the line's end: before the end, so that
/// a route can leave from it along the line, or at the last point of a reference after the start,
/// so that a route can arrive there along it. On a map its penalty is at most 360.
pub fn bounds()
    ensures line { HoldsOfEach IsOfLines }
    ensures at { HoldsOfEach LiesOnLine }
    ensures within { HoldsOfEach LiesUpToEnd }
    ensures penalty { PenaltyAtMost }
{
    differences();
    nearest_within();
}
