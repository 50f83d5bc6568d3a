//! Why a reference has no matching on a map, and what would help.
//!
//! Data goes through these modules in order:
//!
//! - [`verdict`]: the first thing that stands between the reference and a matching; [`chain`]:
//!   tuples of candidates of its first points, of which each leg admits the two that it joins;
//!   [`verdicts`]: finds the verdict by the layers of the reference.
//! - [`pair`]: the lengths between two candidates that a leg doesn't admit; [`pairs`]: searches for
//!   them, one class limit after another.
//! - [`leg`]: what a leg admits; [`legs`]: that of each leg of a reference.
//! - [`trial`]: what is found with some tolerances; [`trying`]: what is found with one value of a
//!   tolerance.
//! - [`bracket`], [`widening`]: the least value above the given one that gives a matching;
//!   [`narrowing`]: the greatest one below it with which no point has too many candidates;
//!   [`crowding`]: from which value on a point has too many candidates.
//! - [`remedy`]: a change that would help; [`remedies`]: all of them.
//! - [`unbanned`]: the map without its bans; [`nearest_count`]: how many of the lines nearest to a
//!   point are shown.
//! - [`point`]: a point of the reference, with the lines nearest to it; [`why`]: all of it;
//!   [`explaining`]: finds it.
//! - [`on_map`]: what is shown of a line of a map; [`text`], [`json`]: the text and the JSON of all
//!   of it.
//!
//! Beside them, [`wider`] states what a wider tolerance keeps, and [`laws`] what holds of all
//! verdicts and of all reasons.
#![tactic(auto)]

mod bracket;
mod chain;
mod crowding;
mod explaining;
mod json;
mod laws;
mod leg;
mod legs;
mod narrowing;
mod nearest_count;
mod on_map;
mod pair;
mod pairs;
mod point;
mod remedies;
mod remedy;
mod text;
mod trial;
mod trying;
mod unbanned;
mod verdict;
mod verdicts;
mod why;
mod widening;
mod wider;

pub use explaining::why_of;
pub use json::why_json;
pub use laws::{match_has_answers, matching_has_key, one_verdict, one_why};
pub use leg::LegReason;
pub use legs::legs_of;
pub use nearest_count::{BadNearest, NearestCount};
pub use pair::{Better, PairLength};
pub use point::PointReason;
pub use remedies::remedies_of;
pub use remedy::{Change, Remedy};
pub use text::why_text;
pub use unbanned::unbanned_of;
pub use verdict::Verdict;
pub use verdicts::verdict_of;
pub use why::Why;
pub use wider::wider_keeps;
