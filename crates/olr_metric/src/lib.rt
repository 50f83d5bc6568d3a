//! Measuring: the spots of coordinates in a plane, and lengths and directions there. The names of
//! `olr_base` are names of this crate too.
//!
//! - [`plane`]: the plane of a reference, which maps coordinates to a [`spot`] in centimetres.
//! - [`root`]: the square root, rounded down.
//! - [`segment`]: the foot of a spot on a straight segment.
//! - [`polyline`]: the shape of a road: its length, its spot at an arc, where it is nearest to a
//!   spot.
//! - [`bearing`]: the sector of a direction, one of 32, and the difference of two sectors.
//! - [`laws`] and [`bearing_laws`]: laws of lengths, and of directions and sectors.
#![tactic(auto)]

mod bearing;
mod bearing_laws;
mod laws;
mod plane;
mod polyline;
mod root;
mod segment;
mod spot;

pub use bearing::{difference, sector};
pub use bearing_laws::{differences, one_sector, rays};
pub use laws::{
    distances, foot_on_segment, nearest_within, no_shorter_than_east, no_shorter_than_north,
    one_place_a_spot, one_spot,
};
pub use olr_base::{Degrees, Failed, NoMemory};
pub use plane::Plane;
pub use polyline::{Near, along, arc, nearest};
pub use segment::foot;
pub use spot::{Spot, distance};
