//! What all other crates share: coordinates on the earth, and the two errors that any crate may
//! meet. Its definitions are of these, and of checks of which the first that fails is reported.
//!
//! - [`degrees`]: longitude and latitude in microdegrees.
//! - [`failure`]: refused memory, and a device that failed.
#![tactic(auto)]

mod degrees;
mod failure;

pub use degrees::Degrees;
pub use failure::{Failed, NoMemory};
