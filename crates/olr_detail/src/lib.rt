//! What speaks for a matching: the parts of its candidates' penalties, the distance intervals of its
//! legs, whether its route turns back, and its likely cost.
//!
//! Data passes through these modules in order:
//!
//! - [`candidate_detail`]: what speaks for a candidate of a point.
//! - [`leg_detail`]: what speaks for a leg.
//! - [`turning`]: whether a route turns back.
//! - [`cost`]: the likely cost of a matching.
//! - [`matching_detail`]: all of these for a matching.
//! - [`json`] and [`text`]: how these are shown.
//! - [`page`]: a page of matchings; [`listing`]: the candidates of a reference's points.
//! - [`drawing`]: where a matching is drawn; [`page_features`] and [`listing_features`]: pages and
//!   candidates as GeoJSON, [`collecting`] as one collection.
//! - [`laws`]: what speaks for them is one thing.
#![tactic(auto)]

mod candidate_detail;
mod collecting;
mod cost;
mod drawing;
mod json;
mod laws;
mod leg_detail;
mod listing;
mod listing_features;
mod matching_detail;
mod page;
mod page_features;
mod text;
mod turning;

pub use candidate_detail::{CandidateDetail, PenaltyParts, detail_of_candidate};
pub use cost::{LikelyCost, likely_cost};
pub use drawing::{Drawing, push_drawn};
pub use json::ShownInDetail;
pub use laws::one_detail;
pub use leg_detail::{LegDetail, detail_of_leg};
pub use listing::{PointDetails, listing_details, listing_json, listing_text};
pub use listing_features::{listing_collection, listing_collection_in_detail};
pub use matching_detail::{
    MatchingDetail, candidate_details, detail_of_matching, matchings_can_be_detailed,
};
pub use page::{json_page_in_detail, text_page_in_detail};
pub use page_features::{page_collection, push_page_features, push_page_features_in_detail};
pub use text::{push_detail, push_likely};
