//! A candidate of a point: a line that may carry it.

ghost use Rattle.std.specs.Prelude.{◌≡◌, ◌+◌, ◌*◌, ◌/◌, ◌<◌, ◌≤◌, Decides, IfSome, MatchResult};
ghost use Rattle.std.specs.Int.{abs_diff};
ghost use Rattle.olr_candidates.specs.Candidate.{IsOnLine, Rates};
ghost use Rattle.olr_candidates.specs.Form.{form_penalty};
ghost use Rattle.olr_candidates.specs.Rejection.{IsFirstFailed};

use crate::form::form_penalty;
use crate::projection::Projection;
use crate::query::Query;
use crate::rejection::Rejection;
use olr_metric::difference;
use olr_road::{Line, Place};

/// A line that may carry a point of a reference.
#[derive(Clone, Copy, Debug, Default, PartialEq, Eq)]
pub struct Candidate {
    /// The line, by rank, and where on it the point would lie.
    pub place: Place,
    /// How badly the line fits, 0 to 360.
    pub penalty: u16,
}

/// Whether a route can leave from a place along its line of `length` decimetres, or, at the last
/// point of a reference, arrive there along it. `at` is the place, in decimetres from the line's
/// start.
pub(crate) fn is_on_line(is_last: bool, length: u32, at: u32) -> bool
    ensures { Decides result (IsOnLine is_last length at) }
{
    if is_last { 0 < at } else { at < length }
}

/// The penalty of a line at this distance in centimetres from the query's point, whose bearing and
/// class differ from the point's by so much.
fn penalty(query: &Query, line: &Line, distance: u64, sectors: u8, classes: u8) -> u16
    requires distance { distance ≤ 100 * query.now.tolerances.radius }
    requires sectors { sectors ≤ 16 }
    requires classes { classes ≤ 7 }
    ensures { result ≡ distance / query.now.tolerances.radius + 10 * sectors + 10 * classes
        + form_penalty line.now.form query.now.point.form }
{
    let away = (distance / u64::from(query.tolerances.radius)) as u16;
    let form = form_penalty(line.form, query.point.form);
    away + 10 * u16::from(sectors) + 10 * u16::from(classes) + form
}

/// The line of a rank as a candidate of the query's point, by the point's projection onto it.
///
/// # Errors
///
/// The first condition that the line fails.
pub(crate) fn candidate_by(
    query: &Query,
    line: &Line,
    rank: u32,
    projection: &Projection,
) -> Result<Candidate, Rejection>
    requires class { line.now.class ≤ 7 }
    requires sector { IfSome projection.now.sector (λ sector. sector < 32) }
    ensures { let query = query.now in MatchResult result
        (Rates query.tolerances query.point query.is_last line.now rank projection.now)
        (IsFirstFailed query.tolerances query.point query.is_last line.now projection.now) }
{
    if projection.distance > 100 * u64::from(query.tolerances.radius) {
        return Err(Rejection::Radius(projection.distance));
    }
    let sectors = difference(projection.sector, query.point.sector);
    if u32::from(sectors) > query.tolerances.bearing {
        return Err(Rejection::Bearing(sectors));
    }
    let classes = line.class.abs_diff(query.point.class);
    if u32::from(classes) > query.tolerances.class {
        return Err(Rejection::Class(classes));
    }
    if !is_on_line(query.is_last, line.length, projection.at) {
        return Err(Rejection::Position(projection.at));
    }
    Ok(Candidate {
        place: Place {
            line: rank,
            at: projection.at,
        },
        penalty: penalty(query, line, projection.distance, sectors, classes),
    })
}
