//! The program `olr` without its `main`: from the words of a command line to the bytes of the
//! output, the status, and the line of a fault.
//!
//! What the words ask for is found by `olr_words`. It goes through these modules in order:
//!
//! - [`opening`]: what opens files, and the files of a map; [`confidence`]: the file of a confidence.
//! - [`perform`](mod@performing): opens the files on a [`Disk`] and answers the request.
//! - [`reading`]: the map of files, for those who keep one.
//! - [`system`]: all of this over the files and outputs of the system.
#![tactic(auto)]

mod confidence;
mod opening;
mod performing;
mod reading;
mod system;

pub use olr_words::{
    Asked, AskedLegs, AskedLines, AskedRecords, AskedRequest, Files, Input, Records, Rejected,
    asked_of,
};
pub use opening::{Disk, NotOpened};
pub use performing::perform;
pub use reading::read_map_of;
pub use system::run_on_system;
