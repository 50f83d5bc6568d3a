//! The fingerprint of the inputs of a request: the SHA-256 digest of a text that names its map, its
//! reference and its tolerances. A cursor carries it, so that a later request sees whether the
//! cursor comes from the same inputs.
//!
//! - [`fingerprint_lines`]: the lines of that text, taken into a digest one at a time.
//! - [`digest`]: the fingerprint.
#![tactic(auto)]

mod digest;
mod fingerprint_lines;

pub use digest::{fingerprint, fingerprint_is_mark};
