//! What counts for and against a place, by what speaks for the matching that opened it.

ghost use Rattle.std.specs.Prelude.{◌≡◌, ◌*◌, ◌≤◌, ◌^◌, length};
ghost use Rattle.olr_metric.specs.Root.{IsRoot};
ghost use Rattle.olr_confidence.specs.Terms.{AreTermsOf, greatest_by, length_of, missed_by, share_of_length};

use crate::terms::Terms;
use olr_detail::{CandidateDetail, LegDetail, MatchingDetail};

/// The distance of the farthest point from its line, in centimetres.
pub(crate) fn farthest(points: &[CandidateDetail]) -> u64
    ensures { result ≡ greatest_by (λ point. point.distance) points.now }
{
    let Some((first, others)) = points.split_first() else {
        return 0;
    };
    first.distance.max(farthest(others))
}

/// By how many sectors the bearing of a point and that of its line differ at most.
fn most_turned(points: &[CandidateDetail]) -> u8
    ensures { result ≡ greatest_by (λ point. point.sectors) points.now }
{
    let Some((first, others)) = points.split_first() else {
        return 0;
    };
    first.sectors.max(most_turned(others))
}

/// How far the length of a leg lies outside of the distance interval, in thousandths of the first
/// length behind the interval.
pub(crate) fn missed_by(leg: &LegDetail) -> u64
    ensures missed { result ≡ missed_by leg.now }
    ensures at_most { result ≤ 1000 }
{
    let length = u128::from(leg.length);
    let (least, greatest) = (u128::from(leg.least), u128::from(leg.greatest));
    let missed = length.saturating_sub(greatest) + least.saturating_sub(length);
    (1_000 * missed / (greatest + 1)).min(1_000) as u64
}

/// The same of the leg that misses most.
fn most_missed(legs: &[LegDetail]) -> u64
    ensures missed { result ≡ greatest_by missed_by legs.now }
    ensures at_most { result ≤ 1000 }
{
    let Some((first, others)) = legs.split_first() else {
        return 0;
    };
    missed_by(first).max(most_missed(others))
}

/// The length of the route, in decimetres.
fn length_of(legs: &[LegDetail]) -> u128
    ensures sum { result ≡ length_of legs.now }
    ensures at_most { result ≤ 2 ^ 64 * length legs.now }
{
    let mut sum = 0;
    for leg in legs {
        sum += u128::from(leg.length);
    }
    sum
}

/// A distance in centimetres, in thousandths of a length in decimetres.
fn share_of_length(distance: u64, length: u128) -> u64
    ensures share { result ≡ share_of_length distance length }
    ensures at_most { result ≤ 1000 }
{
    match (100 * u128::from(distance)).checked_div(length) {
        Some(share) => share.min(1_000) as u64,
        None => 0,
    }
}

/// The square root of a number, rounded down.
fn root_of(number: u64) -> u64
    ensures { IsRoot number result }
{
    number.isqrt()
}

/// What counts for and against a place, by what speaks for the matching that opened it, and by how
/// many lines its route has.
pub fn terms_of(detail: &MatchingDetail, lines: usize) -> Terms
    ensures { AreTermsOf detail.now lines result }
{
    let length = length_of(&detail.legs);
    Terms {
        distance: share_of_length(farthest(&detail.points), length),
        direction: most_turned(&detail.points),
        leg: most_missed(&detail.legs),
        cost: detail.likely.cost,
        turns_back: detail.likely.turns_back,
        points: detail.points.len().min(100) as u64,
        lines: root_of(16 * lines.min(100_000) as u64),
        length: root_of(length.min(1_000_000) as u64),
    }
}
