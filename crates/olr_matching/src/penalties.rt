//! The penalties of the candidates and of the legs, as a table takes them.

ghost use Rattle.std.specs.Prelude.{◌≡◌, ◌+◌, IfOk, length, map, option_map};
ghost use Rattle.olr_binary.specs.Reference.{IsReference, points_of};
ghost use Rattle.olr_candidates.specs.Points.{lists_of};
ghost use Rattle.olr_matching.specs.Layers.{leg_penalties, lengths_of, penalties_of};
ghost use Rattle.olr_matching.specs.Leg.{leg_penalty};
ghost use Rattle.olr_matching.specs.Penalties.{ArePenaltiesOfLegs};

use crate::leg::{leg_penalty, next_of};
use arrayvec::ArrayVec;
use olr_base::NoMemory;
use olr_binary::{Next, Reference};
use olr_candidates::{Candidate, MAX_CANDIDATES};
use std::alloc::Global;

/// The penalties of candidates, in their order.
fn penalties_of(alloc: Global, candidates: &[Candidate]) -> Result<Vec<u16>, NoMemory>
    ensures { IfOk result (λ penalties. penalties.items ≡ penalties_of candidates.now) }
{
    let mut penalties = Vec::new(alloc);
    for candidate in candidates {
        penalties.push(candidate.penalty)?;
    }
    Ok(penalties)
}

/// The penalties of the candidates of each point.
pub(crate) fn penalties_of_points(
    alloc: Global,
    candidates: &[ArrayVec<Candidate, MAX_CANDIDATES>],
) -> Result<Vec<Vec<u16>>, NoMemory>
    ensures { IfOk result (λ layers.
        map (λ layer. layer.items) layers.items ≡ map penalties_of (lists_of candidates.now)) }
{
    let mut layers = Vec::new(alloc);
    for list in candidates {
        layers.push(penalties_of(alloc, list.as_slice())?)?;
    }
    Ok(layers)
}

/// The penalty of a leg for this length in decimetres, if it admits the pair.
fn penalty_of(next: &Next, length: Option<u32>) -> Option<u8>
    ensures { result ≡ option_map (leg_penalty next.now) length }
{
    let Some(length) = length else {
        return None;
    };
    Some(leg_penalty(next, length))
}

/// The penalties of a leg for these lengths in decimetres, in their order.
fn leg_penalties(
    alloc: Global,
    next: &Next,
    lengths: &[Option<u32>],
) -> Result<Vec<Option<u8>>, NoMemory>
    ensures { IfOk result (λ penalties. penalties.items ≡ leg_penalties next.now lengths.now) }
{
    let mut penalties = Vec::new(alloc);
    for length in lengths {
        penalties.push(penalty_of(next, *length))?;
    }
    Ok(penalties)
}

/// The penalties of all legs of a reference, leg by leg, for these lengths in decimetres.
#[tactic(auto, using(crate::proofs::Points::leads_on))]
pub(crate) fn penalties_of_legs(
    alloc: Global,
    reference: &Reference,
    lengths: &[Vec<Option<u32>>],
) -> Result<Vec<Vec<Option<u8>>>, NoMemory>
    requires reference { IsReference reference.now }
    requires count { length lengths.now + 1 ≡ length (points_of reference.now) }

    ensures { IfOk result (λ legs.
        ArePenaltiesOfLegs reference.now (lengths_of lengths.now) (lengths_of legs.items)) }
{
    let mut legs = Vec::new(alloc);
    for (layer, between) in lengths.iter().enumerate() {
        let next = next_of(reference, layer);
        legs.push(leg_penalties(alloc, &next, between)?)?;
    }
    Ok(legs)
}
