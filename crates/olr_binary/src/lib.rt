//! OpenLR location references in the binary format, version 3, written as base64.
//!
//! [`decode`] gives the reference of a text, or the first of ten refusals whose condition it meets.
//! [`show_text`] prints a reference field by field, [`show_json`] prints it as JSON, and [`trim`]
//! takes the blanks off a text's ends.
//!
//! Data goes through these modules in order:
//!
//! - [`text`]: the blanks at the ends of a text, and its base64.
//! - [`bits`]: bit fields of a byte.
//! - [`status`]: the location type, from the status byte.
//! - [`layout`]: the numbers of points and of offset bytes.
//! - [`coordinates`]: the coordinates of the points.
//! - [`attributes`]: the points, with their attributes.
//! - [`decoding`]: the whole reference, or its refusal.
//! - [`showing`]: the text of a reference; [`showing_json`]: its JSON.
//!
//! [`reference`], [`point`] and [`refusal`] define the results. By [`laws`] a text has at most one
//! outcome.
#![tactic(auto)]

mod attributes;
mod bits;
mod coordinates;
mod decoding;
mod laws;
mod layout;
mod point;
mod reference;
mod refusal;
mod showing;
mod showing_json;
mod status;
mod text;

pub use decoding::decode;
pub use laws::{one_outcome, one_reference};
pub use point::{Next, Point};
pub use reference::{MAX_POINTS, Reference};
pub use refusal::{Kind, Refused};
pub use showing::show_text;
pub use showing_json::show_json;
pub use text::trim;
