//! The lines of a map that meet a box of coordinates, for whoever draws or lists them.
//!
//! - [`geo_box`]: the box; [`line_count`]: how many lines are shown.
//! - [`lines`]: the lines that meet it, by id.
//! - [`lines_on`]: a line of a map as it is shown; [`json`]: the lines as JSON;
//!   [`features`]: the same as GeoJSON.
#![tactic(auto)]

mod features;
mod geo_box;
mod json;
mod line_count;
mod lines;
mod lines_on;

pub use features::lines_collection;
pub use geo_box::GeoBox;
pub use json::lines_json;
pub use line_count::{BadLineCount, LineCount};
pub use lines::{LinesInBox, lines_in};
