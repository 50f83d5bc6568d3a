//! What a matching says about its reference: the joined route, the location on it, and the text and
//! the JSON of a page of matchings.
//!
//! The legs of a matching are joined to one route, and the offsets of the reference trim it to the
//! location. Positions, lengths and distances are in decimetres. Data passes through these modules
//! in order:
//!
//! - [`pieces`]: the length of a piece, and a piece added to the end of a route.
//! - [`joining`]: the joined route of legs.
//! - [`trimming`]: a part of a route.
//! - [`offsets`]: the distances of an offset.
//! - [`along`]: the place at a distance along a route.
//! - [`locating`]: the location of a reference on the route of its legs; [`part_laws`]: what holds
//!   of routes and parts.
//! - [`page_entries`]: the matchings of a page as they are shown, whatever the format.
//! - [`route_part`]: the names of its parts.
//! - [`text_rows`]: the rows of a matching, and the last row of a page.
//! - [`text`]: the text of a page.
//! - [`matching_json`]: the JSON of a matching.
//! - [`page_json`]: the JSON of a page.
//!
//! Beside them, [`conditions`] tests what `trim`, `join` and `location` require; [`laws`] states
//! what holds of all routes, [`entry_laws`] that a matching is one value, and [`json_laws`]
//! what a reader finds in the JSON of a page.
#![tactic(auto)]

mod along;
mod conditions;
mod entry_laws;
mod joining;
mod json_laws;
mod laws;
mod locating;
mod matching_json;
mod middle;
mod offsets;
mod on_map;
mod page_entries;
mod page_json;
mod part_laws;
mod pieces;
mod route_part;
mod shape_json;
mod shown_map;
mod text;
mod text_rows;
mod trimming;

pub use conditions::{are_forwards, are_legs_of, is_forwards};
pub use entry_laws::{one_entry, sound_parts_can_be_shown};
pub use joining::join;
pub use json_laws::json_reads_as_page;
pub use laws::one_route_of_steps;
pub use locating::{Located, location};
pub use matching_json::{ShownMatching, first_length};
pub use middle::middle_of;
pub use on_map::OnMap;
pub use page_entries::{Entry, entries, entry_of};
pub use page_json::{json_page, json_page_shown, next_cursor};
pub use part_laws::inner_lies_within_outer;
pub use route_part::{RoutePart, word_drawn};
pub use shape_json::{MatchingShape, PointSpots};
pub use shown_map::ShownMap;
pub use text::{next_after, text_page};
pub use text_rows::{push_end, push_location, push_part, push_pieces, push_place, shown_id};
pub use trimming::trim;
