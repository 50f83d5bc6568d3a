//! The program over bytes in memory, as a static library: a page hands over the files of a map
//! once, and then records as often as it likes, and gets their lines.
//!
//! - [`answering`]: the exports.
//! - [`packed`]: many files as one string of bytes.
//! - [`kept`]: the map between two calls, behind a pointer that [`heap_pointer`] makes of a box.
#![tactic(auto)]

mod answering;
mod heap_pointer;
mod kept;
mod packed;

pub use answering::{Answer, olr_page_ask, olr_page_close, olr_page_open};
pub use kept::KeptMap;
