//! A line near a point, candidate or not, and the conditions that it fails.

ghost use Rattle.std.specs.Prelude.{◌≤◌, ◌<◌, length, IfSome, MatchOption};
ghost use Rattle.olr_candidates.specs.Near.{AreFailed, Describes, HasPenalty};
ghost use Rattle.olr_candidates.specs.Nearest.{FindsNear};
ghost use Rattle.olr_candidates.specs.declared.near.NearLine.{NearLine as Near};

use crate::candidate::{candidate_by, is_on_line};
use crate::line_projection::{projection_at, projection_within};
use crate::projection::Projection;
use crate::query::Query;
use olr_metric::difference;
use olr_road::{Line, Map};

/// Which of the conditions on a candidate a line fails, in their order.
#[derive(Clone, Copy, Debug, PartialEq, Eq)]
pub struct FailedConditions {
    /// The point's projection onto it lies farther away than the radius.
    pub radius: bool,
    /// The bearings differ by more than the tolerance; without a bearing of the line by 16 sectors.
    pub bearing: bool,
    /// The classes differ by more than the tolerance.
    pub class: bool,
    /// No route can leave from the projection's position along the line, since it is the line's
    /// end; or, at the last point of a reference, arrive there, since it is the line's start.
    pub end: bool,
}

/// A line near a point of a reference, candidate or not.
#[derive(Clone, Copy, Debug, PartialEq, Eq)]
pub struct NearLine {
    /// The line, by rank.
    pub line: u32,
    /// How far the point's projection onto it lies from the point, in centimetres.
    pub distance: u64,
    /// Where on the line the projection lies, in decimetres from the line's start.
    pub at: u32,
    /// The sector of the line's bearing there, where it has one.
    pub sector: Option<u8>,
    /// The conditions that it fails; where it fails none it is a candidate.
    pub failed: FailedConditions,
    /// The candidate's penalty, 0 to 360; none where it fails a condition.
    pub penalty: Option<u16>,
}

/// Which conditions a line fails, by the projection of the query's point onto it.
fn failed_conditions(query: &Query, line: &Line, projection: &Projection) -> FailedConditions
    requires { IfSome projection.now.sector (λ sector. sector < 32) }
    ensures { let query = query.now in AreFailed query.tolerances query.point query.is_last line.now
        projection.now result }
{
    let sectors = difference(projection.sector, query.point.sector);
    let classes = line.class.abs_diff(query.point.class);
    FailedConditions {
        radius: projection.distance > 100 * u64::from(query.tolerances.radius),
        bearing: u32::from(sectors) > query.tolerances.bearing,
        class: u32::from(classes) > query.tolerances.class,
        end: !is_on_line(query.is_last, line.length, projection.at),
    }
}

/// The penalty of a line that meets all conditions; `None` where it fails one.
fn penalty_if_met(query: &Query, line: &Line, rank: u32, projection: &Projection) -> Option<u16>
    requires class { line.now.class ≤ 7 }
    requires sector { IfSome projection.now.sector (λ sector. sector < 32) }
    ensures { let query = query.now in HasPenalty query.tolerances query.point query.is_last
        line.now projection.now result }
{
    let Ok(candidate) = candidate_by(query, line, rank, projection) else {
        return None;
    };
    Some(candidate.penalty)
}

/// The line of a rank near the query's point, by the point's projection onto it.
fn near_by(query: &Query, line: &Line, rank: u32, projection: &Projection) -> NearLine
    requires class { line.now.class ≤ 7 }
    requires sector { IfSome projection.now.sector (λ sector. sector < 32) }
    ensures { let query = query.now in Describes query.tolerances query.point query.is_last line.now
        rank projection.now result }
{
    NearLine {
        line: rank,
        distance: projection.distance,
        at: projection.at,
        sector: projection.sector,
        failed: failed_conditions(query, line, projection),
        penalty: penalty_if_met(query, line, rank, projection),
    }
}

/// The line of a rank near the query's point, where it lies at most so many centimetres away.
#[tactic(auto, using(crate::proofs::LineCandidates::head_at))]
pub(crate) fn near_within(map: &Map, query: &Query, rank: u32, most: u64) -> Option<NearLine>
    requires { rank < length map.now.lines }
    ensures near { MatchOption result
        ((near : Near) → FindsNear query.now map.now.lines rank near → most < near.distance)
        (FindsNear query.now map.now.lines rank) }
    ensures within { IfSome result (λ near. near.distance ≤ most) }
{
    let projection = projection_within(map, query, rank, most)?;
    let line = map.line(rank);
    Some(near_by(query, &line, rank, &projection))
}

/// The line of a rank near the query's point.
#[tactic(auto, using(crate::proofs::LineCandidates::head_at))]
pub(crate) fn near_at(map: &Map, query: &Query, rank: u32) -> NearLine
    requires { rank < length map.now.lines }
    ensures { FindsNear query.now map.now.lines rank result }
{
    let projection = projection_at(map, query, rank);
    let line = map.line(rank);
    near_by(query, &line, rank, &projection)
}
