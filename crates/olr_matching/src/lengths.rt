//! The lengths of the legs: for each two candidates of neighbouring points the length with which
//! their leg admits them.

ghost use Rattle.std.specs.Prelude.{◌≡◌, ◌++◌, ◌+◌, ◌<◌, ◌↔◌, ℕ, List, Option, length, All, IfOk, IsTrue, MatchOption, None};
ghost use Rattle.olr_candidates.specs.Points.{AreLists, lists_of};
ghost use Rattle.olr_road.specs.Place.{IsPlace};
ghost use Rattle.olr_matching.specs.Leg.{IsAdmittedLength};
ghost use Rattle.olr_matching.specs.Layers.{lengths_of};
ghost use Rattle.olr_matching.specs.Lengths.{AreLengthsBetween, AreLengthsOfLegs, AreLengthsTo, AdmitPairs, HasLegWithoutPair};
ghost use Rattle.olr_matching.specs.LegOnMap.{EndsAreOnMap};
ghost use Rattle.olr_matching.specs.Searches.{AreSearchesOn, IsSearchFor};
ghost use Rattle.olr_route.specs.Reach.{Covers};

use crate::leg::least_admitted;
use crate::leg_on_map::{LegOnMap, leg_at};
use crate::searches::Searches;
use arrayvec::ArrayVec;
use olr_base::NoMemory;
use olr_candidates::{Candidate, MAX_CANDIDATES, ReferenceOnMap};
use olr_road::Place;
use olr_route::{Reach, one_least_length};
use std::alloc::Global;

/// The length in decimetres with which a leg admits a place, from which a search has the lengths,
/// and another one, 1 to 310,032; none where it doesn't admit them.
#[tactic(auto, using(crate::proofs::Admitted::greatest_at_most))]
fn admitted_length(leg: &LegOnMap<'_>, reach: &Reach, from: Place, to: Place) -> Option<u32>
    requires search { IsSearchFor leg.now from reach.now }
    requires on_map { IsPlace leg.now.map.now to }
    requires covers { Covers reach.now to.line }

    ensures { IsAdmittedLength leg.now.map.now leg.now.tolerances leg.now.next from to result }
{
    one_least_length();
    let length = reach.length_from(leg.map, from, to)?;
    if length < least_admitted(&leg.tolerances, &leg.next) {
        return None;
    }
    Some(length as u32)
}

/// Adds the lengths of a leg from a place, from which a search has them, to each second
/// candidate.
fn push_row(
    leg: &LegOnMap<'_>,
    reach: &Reach,
    from: Place,
    lengths: &mut Vec<Option<u32>>,
) -> Result<(), NoMemory>
    requires ends { EndsAreOnMap leg.now }
    requires search { IsSearchFor leg.now from reach.now }

    ensures { IfOk result (λ _. (row : List (Option ℕ))
        × (lengths.new.items ≡ lengths.old.items ++ row)
        × AreLengthsTo leg.now.map.now leg.now.tolerances leg.now.next from leg.now.seconds.now
        row) }
{
    for second in leg.seconds {
        lengths.push(admitted_length(leg, reach, from, second.place))?;
    }
    Ok(())
}

/// The lengths of a leg from each of the first candidates to each of the second ones, row by row.
/// There is no search where there are no second candidates.
fn lengths_of_leg(
    alloc: Global,
    leg: &LegOnMap<'_>,
    searches: &mut Searches,
) -> Result<Vec<Option<u32>>, NoMemory>
    requires ends { EndsAreOnMap leg.now }
    requires searches { AreSearchesOn leg.now.map.now searches.old }

    ensures lengths { IfOk result (λ lengths. AreLengthsBetween leg.now.map.now leg.now.tolerances
        leg.now.next leg.now.firsts.now leg.now.seconds.now lengths.items) }
    ensures searches { AreSearchesOn leg.now.map.now searches.new }
{
    let mut lengths = Vec::new(alloc);
    if leg.seconds.is_empty() {
        return Ok(lengths);
    }
    for first in leg.firsts {
        let index = searches.find_or_search(alloc, leg, first.place)?;
        push_row(leg, searches.at(index), first.place, &mut lengths)?;
    }
    Ok(lengths)
}

/// Whether a leg with these lengths admits no pair of candidates.
fn admits_none(lengths: &[Option<u32>]) -> bool
    ensures { IsTrue result ↔ All (λ length. length ≡ None) lengths.now }
{
    lengths.iter().all(|length| length.is_none())
}

/// The lengths of all legs of a reference, leg by leg, between the candidates of its points. If it
/// `stops_early`, there is none where a leg admits no pair of candidates, and the legs behind
/// that one aren't looked at.
///
/// There is at most one search of the map for each leg and each first candidate of it, until all
/// second candidates are reached, or as far as the greatest length that the leg admits; it may go
/// twice, first up to a likely length. As long as it is kept, it also serves each later candidate
/// whose line ends at the same node, at least as far from it, where the leg's class limit lets both
/// lines through and no turn from their ends is banned. There is none where the second point has no
/// candidates.
pub(crate) fn lengths_of_legs(
    alloc: Global,
    on: &ReferenceOnMap<'_>,
    candidates: &[ArrayVec<Candidate, MAX_CANDIDATES>],
    stops_early: bool,
    searches: &mut Searches,
) -> Result<Option<Vec<Vec<Option<u32>>>>, NoMemory>
    requires lists { AreLists on.now.tolerances on.now.reference.now on.now.map.now.lines
        (lists_of candidates.now) }
    requires searches { AreSearchesOn on.now.map.now searches.old }

    ensures lengths { IfOk result (λ lengths. MatchOption lengths
        (IsTrue stops_early
        × HasLegWithoutPair on.now.map.now on.now.tolerances on.now.reference.now (lists_of candidates.now))
        (λ lengths. AreLengthsOfLegs on.now.map.now on.now.tolerances on.now.reference.now
        (lists_of candidates.now) (lengths_of lengths.items)
        × (IsTrue stops_early → AdmitPairs (lengths_of lengths.items)))) }
    ensures searches { AreSearchesOn on.now.map.now searches.new }
{
    let mut lengths = Vec::new(alloc);
    for layer in 0..candidates.len() - 1 {
        let leg = leg_at(on.map, on.reference, &on.tolerances, candidates, layer);
        let of_leg = lengths_of_leg(alloc, &leg, searches)?;
        if stops_early && admits_none(&of_leg) {
            return Ok(None);
        }
        lengths.push(of_leg)?;
    }
    Ok(Some(lengths))
}
