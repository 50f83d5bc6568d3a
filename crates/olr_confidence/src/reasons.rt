//! Why a place is no more probable than it is, by what it loses.

ghost use Rattle.std.specs.Prelude.{◌≡◌, ◌+◌, ◌-◌, ◌*◌, ◌<◌, ◌≤◌, ◌^◌, ◌++◌, IfOk, OnOk, length, nat_eq};
ghost use Rattle.olr_confidence.specs.Reasons.{AreReasonsOf, all_weighed, heavy_ones, is_longer, number_from, of_behind, of_direction, of_distance, of_end, of_leg, of_lines, of_turning, weighed};
ghost use Rattle.olr_confidence.specs.Terms.{AreTermsOf, greatest_by, missed_by};

use crate::confidence::Weights;
use crate::reason::{Reason, ReasonKind, WeighedReason};
use crate::terms::Terms;
use crate::terms_of_detail::{farthest, missed_by, terms_of};
use olr_detail::{CandidateDetail, LegDetail, MatchingDetail};
use std::alloc::{AllocError, Global};

/// The number of the first leg that misses so much, if the first one has this number.
fn leg_missing(legs: &[LegDetail], missed: u64, number: usize) -> Option<usize>
    requires { number + length legs.now < 2 ^ 64 }
    ensures { result ≡ number_from (λ leg. nat_eq (missed_by leg) missed) number legs.now }
{
    let (first, others) = legs.split_first()?;
    if missed_by(first) == missed {
        return Some(number);
    }
    leg_missing(others, missed, number + 1)
}

/// The number of the first point that lies so far from its line, in centimetres.
fn point_beside(points: &[CandidateDetail], distance: u64, number: usize) -> Option<usize>
    requires { number + length points.now < 2 ^ 64 }
    ensures { result ≡ number_from (λ point. nat_eq point.distance distance) number points.now }
{
    let (first, others) = points.split_first()?;
    if first.distance == distance {
        return Some(number);
    }
    point_beside(others, distance, number + 1)
}

/// The number of the first point whose bearing differs by so many sectors.
fn point_turned(points: &[CandidateDetail], sectors: u8, number: usize) -> Option<usize>
    requires { number + length points.now < 2 ^ 64 }
    ensures { result ≡ number_from (λ point. nat_eq point.sectors sectors) number points.now }
{
    let (first, others) = points.split_first()?;
    if first.sectors == sectors {
        return Some(number);
    }
    point_turned(others, sectors, number + 1)
}

/// The number of the first point that lies so far from the proper end of its line, in decimetres.
fn point_away(points: &[CandidateDetail], end: u32, number: usize) -> Option<usize>
    requires { number + length points.now < 2 ^ 64 }
    ensures { result ≡ number_from (λ point. nat_eq point.end end) number points.now }
{
    let (first, others) = points.split_first()?;
    if first.end == end {
        return Some(number);
    }
    point_away(others, end, number + 1)
}

/// How far a point lies from the proper end of its line at most, in decimetres.
fn farthest_end(points: &[CandidateDetail]) -> u32
    ensures { result ≡ greatest_by (λ point. point.end) points.now }
{
    let Some((first, others)) = points.split_first() else {
        return 0;
    };
    first.end.max(farthest_end(others))
}

/// Whether the first leg that misses so much is longer than the reference says.
fn is_longer(legs: &[LegDetail], missed: u64) -> bool
    ensures { result ≡ is_longer missed legs.now }
{
    let Some((first, others)) = legs.split_first() else {
        return false;
    };
    if missed_by(first) == missed {
        first.length > u64::from(first.greatest)
    } else {
        is_longer(others, missed)
    }
}

/// A reason, and what it loses.
fn weighed(kind: ReasonKind, at: Option<usize>, by: u64, lost: u64) -> WeighedReason
    ensures { result ≡ weighed kind at by lost }
{
    WeighedReason {
        reason: Reason { kind, at, by },
        lost,
    }
}

/// That the route turns back.
fn of_turning(weights: &Weights, detail: &MatchingDetail, terms: &Terms) -> WeighedReason
    ensures { result ≡ of_turning weights.now detail.now terms.now }
{
    let lost = if terms.turns_back {
        weights.turning_back
    } else {
        0
    };
    weighed(ReasonKind::TurningBack, None, 1, lost)
}

/// That a leg is longer or shorter than the reference says.
fn of_leg(weights: &Weights, detail: &MatchingDetail, terms: &Terms) -> WeighedReason
    requires { terms.now.leg ≡ greatest_by missed_by detail.now.legs }
    ensures { result ≡ of_leg weights.now detail.now terms.now }
{
    let kind = if is_longer(&detail.legs, terms.leg) {
        ReasonKind::Longer
    } else {
        ReasonKind::Shorter
    };
    let at = leg_missing(&detail.legs, terms.leg, 1);
    weighed(kind, at, terms.leg, weights.leg * terms.leg)
}

/// That a point lies beside its line.
fn of_distance(weights: &Weights, detail: &MatchingDetail, terms: &Terms) -> WeighedReason
    ensures { result ≡ of_distance weights.now detail.now terms.now }
{
    let distance = farthest(&detail.points);
    let at = point_beside(&detail.points, distance, 1);
    weighed(
        ReasonKind::Distance,
        at,
        distance,
        weights.distance * terms.distance,
    )
}

/// That the bearing at a point differs.
fn of_direction(weights: &Weights, detail: &MatchingDetail, terms: &Terms) -> WeighedReason
    requires { terms.now.direction
        ≡ greatest_by (λ point. point.sectors) detail.now.points }
    ensures { result ≡ of_direction weights.now detail.now terms.now }
{
    let at = point_turned(&detail.points, terms.direction, 1);
    let sectors = u64::from(terms.direction);
    weighed(
        ReasonKind::Direction,
        at,
        sectors,
        weights.direction * sectors,
    )
}

/// That a point lies away from the proper end of its line.
fn of_end(weights: &Weights, detail: &MatchingDetail, terms: &Terms, least: u32) -> WeighedReason
    ensures { result ≡ of_end weights.now detail.now terms.now least }
{
    let end = farthest_end(&detail.points);
    let at = point_away(&detail.points, end, 1);
    let counted = terms.cost.saturating_sub(least).min(end.min(500));
    weighed(
        ReasonKind::End,
        at,
        u64::from(end),
        weights.behind * u64::from(counted),
    )
}

/// That another place costs less.
fn of_behind(weights: &Weights, detail: &MatchingDetail, terms: &Terms, least: u32) -> WeighedReason
    ensures { result ≡ of_behind weights.now detail.now terms.now least }
{
    let behind = u64::from(terms.cost.saturating_sub(least));
    weighed(ReasonKind::Behind, None, behind, weights.behind * behind)
}

/// That any line of the route may be missing on the sender's map.
fn of_lines(
    weights: &Weights,
    detail: &MatchingDetail,
    terms: &Terms,
    least: u32,
    count: usize,
) -> WeighedReason
    ensures { result ≡ of_lines weights.now detail.now terms.now least count }
{
    let weight = if terms.cost > least || weights.none_lines < 0 {
        0
    } else {
        weights.none_lines.unsigned_abs()
    };
    weighed(ReasonKind::Lines, None, count as u64, weight * terms.lines)
}

/// All of these.
fn all_weighed(
    weights: &Weights,
    detail: &MatchingDetail,
    terms: &Terms,
    count: usize,
    least: u32,
) -> [WeighedReason; 7]
    requires { AreTermsOf detail.now count terms.now }
    ensures { result ≡ all_weighed weights.now detail.now terms.now least count }
{
    [
        of_turning(weights, detail, terms),
        of_leg(weights, detail, terms),
        of_distance(weights, detail, terms),
        of_direction(weights, detail, terms),
        of_end(weights, detail, terms, least),
        of_behind(weights, detail, terms, least),
        of_lines(weights, detail, terms, least, count),
    ]
}

/// Adds those reasons that halve a share, or more.
fn push_heavy(reasons: &mut Vec<Reason>, all: &[WeighedReason]) -> Result<(), AllocError>
    ensures { OnOk result (reasons.new.items ≡ reasons.old.items ++ heavy_ones all.now) }
{
    let Some((first, others)) = all.split_first() else {
        return Ok(());
    };
    if first.lost >= 1 << 24 {
        reasons.push(first.reason)?;
    }
    push_heavy(reasons, others)?;
    Ok(())
}

/// Why a place is no more probable than it is, by what speaks for the matching that opened it, by
/// how many lines its route has, and by the least cost of all places of the reference.
///
/// # Errors
///
/// [`AllocError`] where the allocator refused memory.
pub fn reasons_of(
    alloc: Global,
    weights: &Weights,
    detail: &MatchingDetail,
    count: usize,
    least: u32,
) -> Result<Vec<Reason>, AllocError>
    ensures { IfOk result (λ reasons.
        AreReasonsOf weights.now detail.now least count reasons.items) }
{
    let terms = terms_of(detail, count);
    let all = all_weighed(weights, detail, &terms, count, least);
    let mut reasons = Vec::new(alloc);
    push_heavy(&mut reasons, &all)?;
    Ok(reasons)
}
