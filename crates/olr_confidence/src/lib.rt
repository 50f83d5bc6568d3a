//! How probable it is that a place is the one that the sender meant, and that none is, in whole
//! numbers: so every machine gives the same bytes.
//!
//! The places of a reference, and a confidence, go through these modules:
//!
//! - [`confidence`]: a confidence: by which numbers places have to be asked for, and what each
//!   difference weighs.
//! - [`file`]: [`Confidence::read`], the bytes of its file.
//! - [`asked`]: which of the numbers asked for are others.
//! - [`terms`]: what counts for and against a place; [`terms_of_detail`]: made of what speaks for the
//!   matching that opened it.
//! - [`worths`]: what a place and none of these are worth.
//! - [`powers`]: powers of two, by tables; [`shares`]: probabilities, as shares of all of them.
//! - [`probable`]: [`probabilities`], all of this from terms on.
//! - [`reason`], [`reasons`]: why a place is no more probable than it is.
//! - [`json`]: the JSON of reasons, and of what else is told with probabilities.
//!
//! Beside them, [`laws`] says that all of this is one thing.
#![tactic(auto)]

mod asked;
mod confidence;
mod file;
mod json;
mod laws;
mod powers;
mod probable;
mod reason;
mod reasons;
mod shares;
mod terms;
mod terms_of_detail;
mod worths;

pub use asked::{AskedName, asked_with, others_of};
pub use confidence::{AskedNumbers, Confidence, MapRange, Weights};
pub use file::ConfidenceError;
pub use laws::one_probability;
pub use powers::entries_are_floors;
pub use probable::probabilities;
pub use reason::{Reason, ReasonKind};
pub use reasons::reasons_of;
pub use shares::Probabilities;
pub use terms::Terms;
pub use terms_of_detail::terms_of;
