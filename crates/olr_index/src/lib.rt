//! Order and look-up: numbers grouped, found and compared, without a word on where they come from.
//!
//! - [`by_node`]: lines by the node at which they start, or end.
//! - [`window`]: lines by bounding box, so that those near a place are found without a look at
//!   each.
//! - [`keyed`]: what has a key; [`sorting`]: items by rising key; [`repeats`]: numbers that occur
//!   twice.
//! - [`look_up`]: the rank of a key among sorted items; [`key_index`]: the same with an index,
//!   which [`bucketing`] makes.
//! - [`pair_index`]: items by a pair of numbers, and those of a first number at once.
#![tactic(auto)]

mod bucketing;
mod by_node;
mod key_index;
mod keyed;
mod look_up;
mod pair_index;
mod repeats;
mod sorting;
mod window;

pub use by_node::ByNode;
pub use key_index::KeyIndex;
pub use keyed::{Keyed, keys_of, rises};
pub use look_up::rank_of_key;
pub use pair_index::PairIndex;
pub use repeats::first_repeat;
pub use sorting::sort_or_repeat;
pub use window::{BoundingBox, ByBoundingBox, PlacedLine, Window, bounding_box_of};
