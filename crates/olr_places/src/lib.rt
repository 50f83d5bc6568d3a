//! The places where a reference may lie: its matchings, grouped by the road that they cover.
//!
//! Matchings are looked at in their order, and go through these modules:
//!
//! - [`limits`]: how matchings are told apart, and how far they are looked at.
//! - [`cover`]: the pieces of a part of a route, sorted for look-ups; [`missing`]: what it misses
//!   of another part.
//! - [`covered_road`]: the stretch of road that a matching covers, and whether two are close.
//! - [`opener`]: a matching that opened a place; [`looking`]: which matchings do, and where this
//!   ends.
//! - [`ending`]: why looking ended, and the verdict; [`places`]: what is found.
//! - [`finding`]: [`places_of`], all of this from layers to places, key by key.
//!
//! Beside them, [`laws`] says that the test of closeness is right. The laws on places, verdicts and
//! margins are those of `olr_places_laws`.
#![tactic(auto)]

mod cover;
mod covered_road;
mod ending;
mod finding;
mod laws;
mod limits;
mod looking;
mod missing;
mod opener;
mod places;

pub use covered_road::CoveredRoad;
pub use ending::{Ending, Verdict};
pub use finding::places_of;
pub use laws::closeness_is_tested;
pub use limits::{BadNumber, PlaceLimit, PlaceLimits};
pub use opener::Opener;
pub use places::Places;
