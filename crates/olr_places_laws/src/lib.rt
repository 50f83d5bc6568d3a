//! Laws on the places of a reference, with no code: each law is the contract of an empty function.
//! No crate of the program stands on this one.
//!
//! - [`laws`]: what closeness of two matchings is.
//! - [`verdict_laws`]: what places, verdicts and margins are.
#![tactic(auto)]

mod laws;
mod verdict_laws;

pub use laws::close_matchings;
pub use verdict_laws::{
    looks_at_most, margin_of_matchings, one_looking, openers_are_apart, verdict_of_matchings,
};
