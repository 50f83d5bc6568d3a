//! Why a reference has no matching on a map.

use crate::leg::LegReason;
use crate::point::PointReason;
use crate::remedy::Remedy;
use crate::verdict::Verdict;

/// Why a reference has no matching on a map, or that it has one.
#[derive(Debug, Drop)]
pub struct Why {
    /// Its points, in order.
    pub points: Vec<PointReason>,
    /// Its legs, in order; none where a point has too many candidates.
    pub legs: Vec<LegReason>,
    /// The first thing that stands between it and a matching.
    pub verdict: Verdict,
    /// What would help, in the order of trust.
    pub remedies: Vec<Remedy>,
}
