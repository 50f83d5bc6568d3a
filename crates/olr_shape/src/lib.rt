//! Where places on lines lie on the map, and the shapes of pieces of routes, in microdegrees.
//!
//! Data goes through these modules in order:
//!
//! - [`measured_line`]: a line of the map with the arcs of its points.
//! - [`share`]: coordinates at a share of the way from one point to the next.
//! - [`position`]: the spot of a position on a line.
//! - [`shape`]: the spots of pieces, joined.
//!
//! Beside them, [`laws`] states that each place on a map has a spot, and what the spots at the ends
//! of a line are.
#![tactic(auto)]

mod laws;
mod measured_line;
mod position;
mod shape;
mod share;

pub use laws::{places_have_spots, spots_of_ends};
pub use position::spot_on;
pub use shape::shape_on;
