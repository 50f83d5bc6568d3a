//! What speaks for a candidate of a point: the parts of its penalty, and what they are made of.

ghost use Rattle.std.specs.Prelude.{◌≡◌, ◌<◌, length, IfSome};
ghost use Rattle.olr_binary.specs.Reference.{points_of};
ghost use Rattle.olr_candidates.specs.Points.{IsCandidateOf};
ghost use Rattle.olr_detail.specs.CandidateDetail.{IsDetailOf, end_of, parts_of, sum_of};

use olr_binary::Point;
use olr_candidates::{Candidate, NearLine, ReferenceOnMap, Tolerances, near_candidates, near_line};
use olr_metric::difference;
use olr_road::Line;

/// The four parts of a candidate's penalty, which is their sum.
#[derive(Clone, Copy, Debug, PartialEq, Eq)]
pub struct PenaltyParts {
    /// 10 for each sector by which the bearings differ: 0 to 160.
    pub bearing: u16,
    /// 10 for each class by which the classes differ: 0 to 70.
    pub class: u16,
    /// The distance in hundredths of the radius, rounded down: 0 to 100.
    pub distance: u16,
    /// What a different form of way adds: 0 to 30.
    pub form: u16,
}

/// What speaks for a candidate of a point.
#[derive(Clone, Copy, Debug, PartialEq, Eq)]
pub struct CandidateDetail {
    /// The candidate.
    pub candidate: Candidate,
    /// The parts of its penalty.
    pub parts: PenaltyParts,
    /// How far the point's projection onto the line lies from the point, in centimetres.
    pub distance: u64,
    /// By how many sectors the bearings differ, 0 to 16; 16 where the line has no bearing.
    pub sectors: u8,
    /// By how many classes the classes differ, 0 to 7.
    pub classes: u8,
    /// The form of way of the line, 0 to 7.
    pub form: u8,
    /// How far the candidate lies from the proper end of its line, in decimetres: from the start,
    /// or at the last point from the end.
    pub end: u32,
}

/// How far a position on a line of `length` decimetres lies from the line's proper end.
pub(crate) fn end_of(is_last: bool, length: u32, at: u32) -> u32
    ensures { result ≡ end_of is_last length at }
{
    if is_last {
        length.saturating_sub(at)
    } else {
        at
    }
}

/// The parts of this penalty of a line near a point.
fn parts_of(
    tolerances: &Tolerances,
    point: &Point,
    line: &Line,
    near: &NearLine,
    penalty: u16,
) -> PenaltyParts
    requires sector { IfSome near.now.sector (λ sector. sector < 32) }
    requires penalty { penalty ≡ sum_of (parts_of tolerances.now point.now line.now near.now) }
    ensures { result ≡ parts_of tolerances.now point.now line.now near.now }
{
    let distance = (near.distance / u64::from(tolerances.radius)) as u16;
    let bearing = 10 * u16::from(difference(near.sector, point.sector));
    let class = 10 * u16::from(line.class.abs_diff(point.class));
    PenaltyParts {
        bearing,
        class,
        distance,
        form: penalty - bearing - class - distance,
    }
}

/// What speaks for a candidate of the point `index` of a reference, counted from 0.
#[tactic(auto, using(crate::proofs::Candidates::sector_in_range))]
pub fn detail_of_candidate(
    on: &ReferenceOnMap<'_>,
    index: usize,
    candidate: &Candidate,
) -> CandidateDetail
    requires index { index < length (points_of on.now.reference.now) }
    requires candidate { IsCandidateOf on.now.tolerances on.now.reference.now on.now.map.now.lines
        index candidate.now.place.line candidate.now }
    ensures detail { IsDetailOf on.now.tolerances on.now.reference.now on.now.map.now.lines index
        candidate.now result }
    ensures sum { sum_of result.parts ≡ candidate.now.penalty }
{
    near_candidates();
    let points = on.reference.points();
    let point = points[index];
    let rank = candidate.place.line;
    let line = on.map.line(rank);
    let near = near_line(on.map, on.reference, &on.tolerances, index, rank);
    CandidateDetail {
        candidate: *candidate,
        parts: parts_of(&on.tolerances, &point, &line, &near, candidate.penalty),
        distance: near.distance,
        sectors: difference(near.sector, point.sector),
        classes: line.class.abs_diff(point.class),
        form: line.form,
        end: end_of(index + 1 == points.len(), line.length, candidate.place.at),
    }
}
