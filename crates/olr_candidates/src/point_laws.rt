//! Laws on the candidates of the points of a reference. Each law is the contract of a function that
//! does nothing at run time; its body only names the laws on which it rests.

ghost use Rattle.olr_candidates.specs.Laws.{OneListOfPoint, NoListOfPointAndTooMany, OneLists, NoListsAndTooMany, OneFirstTooMany, ArePlaces, AreDepartures, AreInOrderOfIds, RejectedAreNone};

use crate::laws::{bounds, no_list_and_too_many, one_list};
use crate::projection::one_projection;

/// A point of a reference has one list of candidates at most.
pub fn one_list_of_point()
    ensures { OneListOfPoint }
{
    one_list();
}

/// A point of a reference whose list has at most 64 candidates hasn't too many.
pub fn no_list_of_point_and_too_many()
    ensures { NoListOfPointAndTooMany }
{
    no_list_and_too_many();
}

/// All points of a reference have one list of lists at most.
pub fn one_lists()
    ensures { OneLists }
{
    one_list_of_point();
}

/// Where all points of a reference have their lists, none has too many candidates.
pub fn no_lists_and_too_many()
    ensures { NoListsAndTooMany }
{
    no_list_of_point_and_too_many();
}

/// A reference has one first point with too many candidates at most.
pub fn one_first_too_many()
    ensures { OneFirstTooMany }
{
    no_list_of_point_and_too_many();
}

/// Each candidate of a point is a place on the map, and a departure where the point isn't the last.
pub fn places()
    ensures places { ArePlaces }
    ensures departures { AreDepartures }
{
    bounds();
}

/// On a map the candidates of a point are in the order of penalties and then of the ids of their
/// lines.
pub fn order()
    ensures { AreInOrderOfIds }
{}

/// A line that fails a condition is not a candidate of the point.
pub fn rejected()
    ensures { RejectedAreNone }
{
    one_projection();
}
