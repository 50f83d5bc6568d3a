//! Laws on what speaks for candidates and matchings. They are the contract of a function that does
//! nothing at run time.

ghost use Rattle.olr_detail.specs.Laws.{OneDetail, OneListing, OneMatchingDetail, PlaneLaws};

use olr_metric::{one_sector, one_spot};

/// The laws that it rests on.
fn laws_of_the_plane()
    ensures { PlaneLaws }
{
    one_spot();
    one_sector();
}

/// What speaks for a candidate of a point is one thing, and so it is for the candidates of all points
/// of a reference, and for a matching with a route.
pub fn one_detail()
    ensures candidate { OneDetail }
    ensures listing { OneListing }
    ensures matching { OneMatchingDetail }
{
    laws_of_the_plane();
}
