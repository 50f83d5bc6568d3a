//! Road maps, read from CSV files.
//!
//! A map comes from three files: nodes, lines, and bans on turns. [`read_map_with_bans`] reads
//! them, or reports the first fault in them, and [`read_map`] reads a map without bans. The map
//! itself is that of `olr_road`, whose names are names of this crate too. Data goes through these
//! modules in order:
//!
//! - [`rows`]: the row of a single record, whose fields `olr_records` reads.
//! - [`table`]: the reader of a file: its header, its rows, its first fault, and the order of its
//!   rows.
//!   [`nodes`], [`lines`] and [`bans`] are the files; [`reading`]: the fault of a source that isn't
//!   read to its end.
//! - [`node_index`]: the rank of a node's id, found by `olr_index`.
//! - [`files`]: reading the map; [`fault`]: why there is none.
//!
//! Beside them, [`laws`] states what holds of every map and fault.
#![tactic(auto)]

mod bans;
mod fault;
mod files;
mod laws;
mod lines;
mod node_index;
mod nodes;
mod reading;
mod rows;
mod table;

pub use fault::MapFault;
pub use files::{read_map, read_map_with_bans};
pub use laws::{
    map_or_fault, no_map_and_fault, one_fault, one_map, one_map_by_canonical_text, rank_counts,
    sound_map,
};
pub use olr_records::{File, In, Source};
pub use olr_road::{Ban, BoundingBox, Goals, Line, LineSet, Map, Node, Place, Step, Window, sound};
