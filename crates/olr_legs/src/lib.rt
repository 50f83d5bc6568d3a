//! The legs of a matching: the routes of its legs, and for each what else could be driven.
//!
//! From the legs of a matching to what else could be driven:
//!
//! - [`leg_on_map`]: a leg on a map, with its route.
//! - [`shorter`]: the least class under which a leg would be markedly shorter.
//! - [`stretches`]: where the stretches of a route begin that another walk may miss; [`seeking`]:
//!   the first walk that misses one of them, over searches whose outcomes [`best`] puts together.
//! - [`pieces`]: the pieces of a walk.
//! - [`other`]: another path of a leg, which is hardly longer.
//! - [`legs`]: all of this, leg by leg; [`json`], [`geojson`]: as JSON, and as features of GeoJSON.
//!
//! The search for another walk goes backwards from the place where the walks end:
//!
//! - [`search`]: what is asked of the search, and which lines it goes over.
//! - [`way`]: a walk to the place, by its lines, with its length.
//! - [`labels`]: the first walk that was found so far from the start of each line, and the lines
//!   that are still to be gone back from; [`spreading`]: how the search goes back from one.
//! - [`departing`]: the walks from the place where they begin.
//! - [`avoiding`]: the first walk from a place to another one that leaves out some pieces of lines.
#![tactic(auto)]

mod avoiding;
mod best;
mod departing;
mod geojson;
mod json;
mod labels;
mod leg_on_map;
mod legs;
mod other;
mod pieces;
mod search;
mod seeking;
mod shorter;
mod spreading;
mod stretches;
mod way;

pub use geojson::legs_geojson;
pub use json::{ShownLegs, legs_json};
pub use legs::{LegAlternatives, legs_of};
pub use other::{Other, OtherPath};
pub use shorter::Shorter;
