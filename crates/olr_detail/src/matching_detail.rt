//! What speaks for a matching: for each of its candidates, for each of its legs, and as a whole.

ghost use Rattle.std.specs.Prelude.{IfOk};
ghost use Rattle.olr_report.specs.Entries.{HasPieces};
ghost use Rattle.olr_detail.specs.MatchingDetail.{AreDetailsOf, AreLegDetailsOf, AreOfPoints, CanBeDetailed, LeadOn, IsMatchingDetail, MatchingsCanBeDetailed};

use crate::candidate_detail::{CandidateDetail, detail_of_candidate};
use crate::cost::{LikelyCost, likely_cost};
use crate::leg_detail::{LegDetail, detail_of_leg};
use olr_base::NoMemory;
use olr_candidates::{Candidate, ReferenceOnMap};
use olr_matching::{Leg, Matched, next_of};
use olr_route::Piece;
use std::alloc::Global;
use std::marker::Model;

/// What speaks for a matching.
#[derive(Debug, Drop)]
pub struct MatchingDetail {
    /// What speaks for the candidate of each point.
    pub points: Vec<CandidateDetail>,
    /// What speaks for each leg.
    pub legs: Vec<LegDetail>,
    /// Its likely cost, and whether its route turns back.
    pub likely: LikelyCost,
}

impl Model for MatchingDetail {
    ghost use Rattle.olr_detail.specs.Values.{MatchingDetailValue};

    ghost Value = { MatchingDetailValue };

    ghost view = { λ detail. record {
      points = detail.points.items;
      legs = detail.legs.items;
      likely = detail.likely;
    } };
}

/// What speaks for each of these candidates, which are those of the first points of a reference, in
/// order.
///
/// # Errors
///
/// [`NoMemory`] where the allocator refused memory.
pub fn candidate_details(
    alloc: Global,
    on: &ReferenceOnMap<'_>,
    candidates: &[Candidate],
) -> Result<Vec<CandidateDetail>, NoMemory>
    requires { AreOfPoints on.now.tolerances on.now.reference.now on.now.map.now.lines
        candidates.now }
    ensures { IfOk result (λ details. AreDetailsOf on.now.tolerances on.now.reference.now
        on.now.map.now.lines candidates.now details.items) }
{
    let mut details = Vec::with_capacity(alloc, candidates.len())?;
    for (index, candidate) in candidates.iter().enumerate() {
        details.push(detail_of_candidate(on, index, candidate))?;
    }
    Ok(details)
}

/// What speaks for each leg.
fn leg_details(
    alloc: Global,
    on: &ReferenceOnMap<'_>,
    legs: &[Leg],
) -> Result<Vec<LegDetail>, NoMemory>
    requires { LeadOn on.now.reference.now legs.now }
    ensures { IfOk result (λ details. AreLegDetailsOf on.now.tolerances on.now.reference.now
        legs.now details.items) }
{
    let mut details = Vec::with_capacity(alloc, legs.len())?;
    for (index, leg) in legs.iter().enumerate() {
        let next = next_of(on.reference, index);
        details.push(detail_of_leg(&on.tolerances, &next, leg))?;
    }
    Ok(details)
}

/// What speaks for a matching with these parts and this route.
///
/// # Errors
///
/// [`NoMemory`] where the allocator refused memory.
pub fn detail_of_matching(
    alloc: Global,
    on: &ReferenceOnMap<'_>,
    matched: &Matched,
    route: &[Piece],
) -> Result<MatchingDetail, NoMemory>
    requires matched { CanBeDetailed on.now.tolerances on.now.reference.now on.now.map.now
        matched.now }
    requires route { HasPieces on.now.map.now route.now }
    ensures { IfOk result (IsMatchingDetail on.now.tolerances on.now.reference.now on.now.map.now
        matched.now route.now) }
{
    let points = candidate_details(alloc, on, &matched.candidates)?;
    let legs = leg_details(alloc, on, &matched.legs)?;
    Ok(MatchingDetail {
        points,
        legs,
        likely: likely_cost(on.map, matched, route),
    })
}

/// The parts of every matching of a reference on a map are such that [`detail_of_matching`] takes them.
pub fn matchings_can_be_detailed()
    ensures { MatchingsCanBeDetailed }
{}
