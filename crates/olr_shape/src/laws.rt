//! Laws of spots. Each is the contract of a function that does nothing at run time.

ghost use Rattle.olr_shape.specs.Laws.{EndsAtLastPoint, PlacesHaveSpots, PlaneLaws, StartsAtFirstPoint};

use olr_metric::{distances, one_place_a_spot};

/// The laws that these rest on.
pub(crate) fn laws_of_the_plane()
    ensures { PlaneLaws }
{
    one_place_a_spot();
    distances();
}

/// Each place on a map has a spot.
pub fn places_have_spots()
    ensures { PlacesHaveSpots }
{
    laws_of_the_plane();
}

/// The spot at position 0 of a line is its first point, and that at its length is its last point.
pub fn spots_of_ends()
    ensures first { StartsAtFirstPoint }
    ensures last { EndsAtLastPoint }
{
    laws_of_the_plane();
}
