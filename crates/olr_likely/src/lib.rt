//! The likely order of places: which of them are shown first, by their likely costs.
//!
//! Places are those of `olr_places`, looked at as far as can be asked for. They go through these
//! modules:
//!
//! - [`asked`]: what is asked.
//! - [`ranked`]: a place that was looked at, with its rank and its likely cost.
//! - [`order`]: the likely order, and which places are shown.
//! - [`chances`]: how probable all of them are, by a confidence.
//! - [`answer`]: the verdict, and whether a place that would be shown may have been cut off.
//! - [`finding`]: [`likely_places`], all of this from layers to places.
//! - [`showing`]: places as they are shown, in either order.
//! - [`told`]: what is told of them by a confidence; [`extending`]: places with that, and with what
//!   speaks for each.
//! - [`asking`]: [`places_asked`], places as they are asked for.
//! - [`json`], [`text`]: their JSON and their text; [`geojson`]: as features of GeoJSON.
//!
//! Beside them, [`likely_laws`] says that the likeliest place is shown first, and what `cut` means;
//! [`one_answer`], that what is asked has one text, one JSON and
//! one GeoJSON.
#![tactic(auto)]

mod answer;
mod asked;
mod asking;
mod chances;
mod extending;
mod finding;
mod geojson;
mod json;
mod likely_laws;
mod one_answer;
mod order;
mod ranked;
mod showing;
mod text;
mod told;

pub use answer::LikelyPlaces;
pub use asked::{AskedPlaces, PlaceOrder};
pub use asking::places_asked;
pub use chances::{Chances, KnownChances};
pub use finding::likely_places;
pub use geojson::shown_geojson;
pub use json::shown_json;
pub use likely_laws::{likeliest_is_first, none_is_missing};
pub use one_answer::one_shown;
pub use ranked::RankedPlace;
pub use showing::{RankAndCost, ShownPlace, ShownPlaces};
pub use text::shown_text;
pub use told::{ToldPlace, ToldPlaces};
