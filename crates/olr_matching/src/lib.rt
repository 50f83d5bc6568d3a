//! The matchings of a reference on a map.
//!
//! [`Layers`] are the candidates of each point of a reference, and for each leg the pairs of
//! candidates that it admits. A matching takes one candidate of each point, so that each leg admits
//! its pair; the search for them, over numbers alone, is in `olr_keys`, and all its public names
//! are names of this crate too. Data goes through these modules in order:
//!
//! - [`leg`]: the class limit of a leg, the lengths that it admits, and their penalties.
//! - [`leg_on_map`]: a leg between the candidates of its two points; [`searches`]: the searches
//!   that tell its lengths, kept for routes; [`lengths`]: the lengths of all legs.
//! - [`penalties`]: the penalties of candidates and legs.
//! - [`layers`]: all of these together; [`building`]: builds them on a map.
//! - [`matched`]: the parts of a matching; [`resolving`]: those of one key.
//! - [`pair`]: pairs of candidates; [`routes`]: the routes of pairs, kept for the parts of many
//!   keys.
//!
//! Beside them, [`layers_laws`] states what holds of all layers. The fingerprint of a request's
//! inputs is that of `olr_fingerprint`.
#![tactic(auto)]

mod building;
mod layers;
mod layers_laws;
mod leg;
mod leg_on_map;
mod lengths;
mod matched;
mod pair;
mod penalties;
mod resolving;
mod routes;
mod searches;

pub use layers::Layers;
pub use layers_laws::{keys_of_matchings, one_layers, table_of_layers};
pub use leg::{class_limit, greatest_admitted, least_admitted, likely_greatest, next_of};
pub use matched::{Leg, Matched, matchings_are_sound, one_matched};
pub use olr_candidates::LayersFault;
pub use olr_fingerprint::{fingerprint, fingerprint_is_mark};
pub use olr_keys::{
    BadCursor, BadPage, BoundFinder, Cursor, CursorOfOther, CursorRead, Finder, Key, Mark, Page,
    PageFault, PageSize, ProductFinder, Rows, Table, TotalsFinder, all_pages, is_table,
    keys_are_in_range, next_key, no_page_behind_others, one_chain, one_cursor, one_list, one_page,
    or_shifted, page, pages_join, reads_back, same_inputs, totals_are_below_width,
};
pub use routes::Routes;
pub use searches::{Searches, lengths_to_candidates};
