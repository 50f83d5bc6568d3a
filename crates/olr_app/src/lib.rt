//! A request and devices to the bytes of the output. What the outputs of several runs are together
//! is stated by the laws of `olr_app_laws`.
//!
//! A [`Request`] goes through these modules in order:
//!
//! - [`accepting`]: the reference and the cursor of its own texts, before any file is read.
//! - [`answering`]: [`run`], which reads the map that the request asks for, makes the whole output
//!   and only then writes it.
//! - [`on_map`]: the output on a map, and [`MapForRequests`], a map that answers one request after the
//!   other.
//! - [`listing`]: the text of candidates, by [`listing_json`] where it is JSON and not in detail;
//!   [`matching`]: the pages of matchings, and [`page`], what one adds to the output; [`places`]: the
//!   places, and whether the match is unique; [`why`]: why there is no matching. [`drawing`]: how
//!   matchings are drawn.
//! - [`legs`]: the legs of a matching on a map, and [`legs_run`], which answers a request for them from
//!   the files of the map; [`lines`]: [`run_lines`], which answers one for the lines of a map.
//! - [`sink`]: where the output goes, and [`writing`], the loops that hand it over.
#![tactic(auto)]

mod accepting;
mod answering;
mod drawing;
mod legs;
mod legs_run;
mod lines;
mod listing;
mod listing_json;
mod matching;
mod on_map;
mod page;
mod places;
mod sink;
mod why;
mod writing;

pub use answering::run;
pub use legs::legs_on_map;
pub use legs_run::run_legs;
pub use lines::{lines_of, run_lines};
pub use olr_candidates::{Tolerance, Tolerances};
pub use olr_likely::PlaceOrder;
pub use olr_map::{File, In, Source};
pub use olr_matching::PageSize;
pub use olr_places::{PlaceLimit, PlaceLimits};
pub use olr_report::RoutePart;
pub use olr_request::{
    ConfidenceFile, Extras, Fault, Format, LegsRequest, LinesRequest, MatchRequest, Pages,
    PlacesRequest, Query, Question, QuestionKind, Request, WhyRequest,
};
pub use olr_why::NearestCount;
pub use on_map::MapForRequests;
pub use sink::{Out, Sink};
pub use writing::{put_whole, write_whole};
