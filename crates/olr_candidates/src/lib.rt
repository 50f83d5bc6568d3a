//! The lines of a map that may carry a point of a reference.
//!
//! Data goes through these modules in order:
//!
//! - [`tolerances`]: how far a line may differ from its point.
//! - [`reference_on_map`]: a reference on a map, with tolerances.
//! - [`query`]: a point of a reference, with all that decides which lines are its candidates.
//! - [`polyline`]: the polyline of a line of the map in a plane.
//! - [`projection`]: the projection of a point onto a line: its distance, position and bearing;
//!   [`line_projection`]: that onto a line of the map, by its rank.
//! - [`form`]: what a different form of way adds to the penalty.
//! - [`candidate`]: whether a line is a candidate, by the projection, and with which penalty;
//!   [`rejection`]: which condition a line fails that isn't one.
//! - [`line_candidate`]: whether a line of the map, by its rank, is a candidate.
//! - [`list`]: the order of candidates, and a list of them in it.
//! - [`window`]: the lines near a point, by their latitudes and longitudes.
//! - [`search`]: the candidates of a point, by a test of those lines alone.
//! - [`point`]: the candidates of a point of a reference; [`points`]: those of all its points;
//!   [`fault`]: why there are none of all points.
//!
//! For trials with many tolerances:
//!
//! - [`seen`]: the lines around a point, with the projection of the point onto each, and the
//!   candidates among them; [`surroundings`]: those around all points of a reference.
//!
//! To tell why a point has no candidate, or not the one that was expected:
//!
//! - [`near`]: a line near a point, candidate or not, and the conditions that it fails.
//! - [`nearest`]: the order of such lines by distance, and a list of the first ones.
//! - [`near_search`]: the lines nearest to a point, by wider and wider windows around it.
//! - [`near_point`]: those of a point of a reference.
//!
//! Beside them, [`laws`] states what holds of the candidates of a point, [`point_laws`] what
//! holds of those of the points of a reference, and [`near_laws`] what holds of the lines near
//! these points.
#![tactic(auto)]

mod candidate;
mod fault;
mod form;
mod laws;
mod line_candidate;
mod line_projection;
mod list;
mod near;
mod near_laws;
mod near_point;
mod near_search;
mod nearest;
mod point;
mod point_laws;
mod points;
mod polyline;
mod projection;
mod query;
mod reference_on_map;
mod rejection;
mod search;
mod seen;
mod surroundings;
mod tolerances;
mod window;

pub use candidate::Candidate;
pub use fault::LayersFault;
pub use laws::{bounds, no_list_and_too_many, one_candidate_a_line, one_list, ranks_count};
pub use list::MAX_CANDIDATES;
pub use near::{FailedConditions, NearLine};
pub use near_laws::{near_candidates, nearest_are_near, one_list_of_nearest, order_of_nearest};
pub use near_point::{near_line, nearest_lines};
pub use point::{TooManyCandidates, candidate_of_line, candidates};
pub use point_laws::{
    no_list_of_point_and_too_many, no_lists_and_too_many, one_first_too_many, one_list_of_point,
    one_lists, order, places, rejected,
};
pub use points::candidates_of_points;
pub use polyline::{MAX_POINTS, polyline_of_line};
pub use reference_on_map::ReferenceOnMap;
pub use rejection::Rejection;
pub use surroundings::Surroundings;
pub use tolerances::{BadTolerance, Tolerance, Tolerances};
