//! What the program can be asked for, and why it may not be answered.
//!
//! - [`request`]: a request about one reference, or one for the lines of a map; [`question`]: what
//!   is asked of a reference on a map, whichever it is.
//! - [`near_share`]: how much longer another path of a leg may be; [`confidence_file`]: what a file for a
//!   confidence says.
//! - [`fault`]: the faults with which requests end, and the line of text for each.
#![tactic(auto)]

mod confidence_file;
mod fault;
mod near_share;
mod question;
mod request;

pub use confidence_file::ConfidenceFile;
pub use fault::Fault;
pub use near_share::{BadNearShare, NearShare};
pub use question::{Question, QuestionKind};
pub use request::{
    Extras, Format, LegsRequest, LinesRequest, MatchRequest, Pages, PlacesRequest, Query, Request,
    WhyRequest,
};
