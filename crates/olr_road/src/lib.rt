//! The road map: nodes, lines and bans on turns, whatever files they come from.
//!
//! A [`Map`] gives its lines by rank, by the node at which they start, by the node at which they
//! end and by place, and says which turns are banned. It is made of nodes, of a [`LineSet`] and of
//! bans, and data goes through these modules in order:
//!
//! - [`node`], [`line`] and [`ban`]: what a map has; [`place`]: a place on a line.
//! - [`line_set`]: lines with their points, before they are a map's.
//! - [`placed`]: the bounding boxes of the lines; [`axes`]: how far nodes are apart at least;
//!   [`step`]: what a search needs of a line.
//! - [`map`]: the map itself; [`goals`]: how far lines are at least that a search looks for.
//! - [`canonical`]: the text that names a map, row by row, of the pieces of [`canonical_row`].
#![tactic(auto)]

mod axes;
mod ban;
mod canonical;
mod canonical_row;
mod goals;
mod line;
mod line_set;
mod map;
mod node;
mod place;
mod placed;
mod step;

pub use ban::Ban;
pub use goals::Goals;
pub use line::Line;
pub use line_set::LineSet;
pub use map::{Map, sound};
pub use node::Node;
pub use olr_index::{BoundingBox, Window};
pub use place::Place;
pub use step::Step;
