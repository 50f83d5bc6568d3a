//! The text of GeoJSON: features and collections of features. What they are about is the caller's:
//! a feature is a geometry and the JSON text of its properties.
//!
//! Data goes through these modules in order:
//!
//! - [`coordinate`]: a position, in degrees.
//! - [`geometry`]: a point, the points of a line, or nothing.
//! - [`feature`]: a geometry with its properties.
//! - [`feature_collection`]: features, with other members of their collection.
#![tactic(auto)]

mod coordinate;
mod feature;
mod feature_collection;
mod geometry;

pub use feature::push_feature;
pub use feature_collection::collection;
pub use geometry::Geometry;
