//! The least value of a tolerance above the given one that gives a matching.

ghost use Rattle.std.specs.Prelude.{◌≢◌, ◌+◌, ◌-◌, ◌<◌, ◌≤◌, ℕ, IfOk, IfSome, MatchOption};
ghost use Rattle.olr_candidates.specs.declared.tolerances.Tolerance.TheVariants.{Lowest};
ghost use Rattle.olr_candidates.specs.Seen.{AreSurroundings};
ghost use Rattle.olr_candidates.specs.Tolerances.{greatest_of, order_of};
ghost use Rattle.olr_candidates.specs.Values.{value_of};
ghost use Rattle.olr_why.specs.Common.{Reference, RoadMap, Tolerance, Tolerances};
ghost use Rattle.olr_why.specs.Remedies.{IsEnough, IsWider};
ghost use Rattle.olr_why.specs.declared.trial.Trial.TheVariants.{Crowded};
ghost use Rattle.olr_why.specs.inner.Trying.{IsBracket, IsTrialWith};

use crate::bracket::Bracket;
use crate::crowding::{greatest_between, surroundings_up_to};
use crate::laws::matching_has_key;
use crate::remedy::{Change, Remedy};
use crate::trial::Trial;
use crate::trying::{matching_with, try_value};
use olr_base::NoMemory;
use olr_candidates::{ReferenceOnMap, Surroundings, Tolerance, one_candidate_a_line};
use std::alloc::Global;

/// The given value and the greatest one, by a trial of the greatest one; none where no value
/// above the given one is enough.
fn wider_values(
    alloc: Global,
    on: &ReferenceOnMap<'_>,
    name: Tolerance,
    around: Option<&Surroundings>,
) -> Result<Option<Bracket>, NoMemory>
    requires name { order_of name ≢ order_of Lowest }
    requires around { IfSome around (λ around.
        AreSurroundings on.now.reference.now on.now.map.now.lines around.now) }
    ensures { IfOk result (λ bracket. MatchOption bracket
        ((value : ℕ) → value_of on.now.tolerances name < value
        → IsEnough on.now.map.now on.now.tolerances on.now.reference.now name value → ⊥)
        (IsBracket on.now.map.now on.now.tolerances on.now.reference.now name)) }
{
    let low = on.tolerances.value(name);
    let high = name.greatest();
    if low >= high {
        return Ok(None);
    }
    match try_value(alloc, on, name, high, around)? {
        Trial::NoMatching => Ok(None),
        Trial::Crowded => Ok(Some(Bracket {
            low,
            high,
            first: None,
        })),
        Trial::Matching(key) => Ok(Some(Bracket {
            low,
            high,
            first: Some(key),
        })),
    }
}

/// One part of these values, by what was found with one between them.
fn part_of(bracket: Bracket, value: u32, trial: Trial) -> Bracket
    requires low { bracket.low < value }
    requires high { value < bracket.high }
    ensures bracket { (road : RoadMap) (given : Tolerances) (reference : Reference)
        (name : Tolerance) → order_of name ≢ order_of Lowest
        → IsBracket road given reference name bracket
        → IsTrialWith road given reference name value trial
        → IsBracket road given reference name result }
    ensures smaller { result.high - result.low < bracket.high - bracket.low }
{
    let Bracket { low, high, first } = bracket;
    match trial {
        Trial::NoMatching => Bracket {
            low: value,
            high,
            first,
        },
        Trial::Crowded => Bracket {
            low,
            high: value,
            first: None,
        },
        Trial::Matching(key) => Bracket {
            low,
            high: value,
            first: Some(key),
        },
    }
}

/// The lines around the points up to the high end of a radius, or up to one between both ends with
/// which a point has more than 64 candidates; none for the other tolerances.
fn wide_surroundings(
    alloc: Global,
    on: &ReferenceOnMap<'_>,
    name: Tolerance,
    bracket: &Bracket,
) -> Result<Option<Surroundings>, NoMemory>
    requires lower { bracket.now.low < bracket.now.high }
    requires high { bracket.now.high ≤ greatest_of name }
    ensures around { IfOk result (λ around. IfSome around
        (AreSurroundings on.now.reference.now on.now.map.now.lines)) }
    ensures above { IfOk result (λ around. IfSome around
        (λ around. bracket.now.low < around.reach)) }
    ensures crowded { IfOk result (λ around. IfSome around
        (λ around. around.reach < bracket.now.high
        → IsTrialWith on.now.map.now on.now.tolerances on.now.reference.now name around.reach
        Crowded)) }
{
    match (name, &bracket.first) {
        (Tolerance::Radius, None) => surroundings_up_to(alloc, on, bracket.low, bracket.high),
        (Tolerance::Radius, Some(_)) => Surroundings::look(alloc, on, bracket.high),
        _ => Ok(None),
    }
}

/// The part of these values up to one above the low end with which a point has more than 64
/// candidates; all of them where that one isn't below the high end.
fn up_to(bracket: Bracket, crowded: u32) -> Bracket
    requires { bracket.low < crowded }
    ensures { (road : RoadMap) (given : Tolerances) (reference : Reference) (name : Tolerance)
        → order_of name ≢ order_of Lowest → IsBracket road given reference name bracket
        → (crowded < bracket.high → IsTrialWith road given reference name crowded Crowded)
        → IsBracket road given reference name result }
{
    if crowded < bracket.high {
        part_of(bracket, crowded, Trial::Crowded)
    } else {
        bracket
    }
}

/// The part of these values up to the least one with which a point has more than 64 candidates.
fn up_to_crowding(
    alloc: Global,
    on: &ReferenceOnMap<'_>,
    name: Tolerance,
    bracket: Bracket,
    around: Option<&Surroundings>,
) -> Result<Bracket, NoMemory>
    requires name { order_of name ≢ order_of Lowest }
    requires bracket { IsBracket on.now.map.now on.now.tolerances
        on.now.reference.now name bracket }
    requires around { IfSome around (λ around.
        AreSurroundings on.now.reference.now on.now.map.now.lines around.now) }
    ensures { IfOk result
        (IsBracket on.now.map.now on.now.tolerances on.now.reference.now name) }
{
    if bracket.first.is_some() {
        return Ok(bracket);
    }
    let value = greatest_between(alloc, on, name, bracket.low, bracket.high, around)?;
    Ok(up_to(bracket, value + 1))
}

/// The value between both ends that is tried next: the one below a value that is too much, else the
/// one in the middle.
fn next_value(bracket: &Bracket) -> u32
    requires { bracket.now.low + 1 < bracket.now.high }
    ensures { (bracket.now.low < result) × (result < bracket.now.high) }
{
    match bracket.first {
        None => bracket.high - 1,
        Some(_) => bracket.low + (bracket.high - bracket.low) / 2,
    }
}

/// The least of these values that is enough, where no other is left between them; none where a
/// point has more than 64 candidates with it.
fn least_of_them(name: Tolerance, bracket: Bracket) -> Option<Remedy>
    requires { bracket.high ≤ bracket.low + 1 }
    ensures { (road : RoadMap) (given : Tolerances) (reference : Reference)
        → order_of name ≢ order_of Lowest → IsBracket road given reference name bracket
        → IsWider road given reference name result }
{
    one_candidate_a_line();
    matching_has_key();
    let Bracket { high, first, .. } = bracket;
    let Some(key) = first else {
        return None;
    };
    Some(Remedy {
        change: Change::Set(name, high),
        matching: Some(key),
    })
}

/// The least of these values that is enough, and the first matching that it gives. Where the high
/// end is too much, the greatest value that isn't comes first; and then halving finds the least.
fn least_between(
    alloc: Global,
    on: &ReferenceOnMap<'_>,
    name: Tolerance,
    bracket: Bracket,
    around: Option<&Surroundings>,
) -> Result<Option<Remedy>, NoMemory>
    requires name { order_of name ≢ order_of Lowest }
    requires bracket { IsBracket on.now.map.now on.now.tolerances
        on.now.reference.now name bracket }
    requires around { IfSome around (λ around.
        AreSurroundings on.now.reference.now on.now.map.now.lines around.now) }
    ensures { IfOk result
        (IsWider on.now.map.now on.now.tolerances on.now.reference.now name) }
{
    let mut bracket = up_to_crowding(alloc, on, name, bracket, around)?;
    while bracket.high - bracket.low > 1 {
        let value = next_value(&bracket);
        let trial = try_value(alloc, on, name, value, around)?;
        bracket = part_of(bracket, value, trial);
    }
    Ok(least_of_them(name, bracket))
}

/// The least value above the given one that is enough, and the first matching that it gives. A
/// greater value gives a matching, or makes a point have too many candidates, where a lesser
/// one does. So a tolerance of which the greatest value does neither can't help.
fn wider(
    alloc: Global,
    on: &ReferenceOnMap<'_>,
    name: Tolerance,
    around: Option<&Surroundings>,
) -> Result<Option<Remedy>, NoMemory>
    requires name { order_of name ≢ order_of Lowest }
    requires around { IfSome around (λ around.
        AreSurroundings on.now.reference.now on.now.map.now.lines around.now) }
    ensures { IfOk result
        (IsWider on.now.map.now on.now.tolerances on.now.reference.now name) }
{
    let Some(bracket) = wider_values(alloc, on, name, around)? else {
        return Ok(None);
    };
    match wide_surroundings(alloc, on, name, &bracket)? {
        Some(wide) => {
            let bracket = up_to(bracket, wide.reach);
            let remedy = least_between(alloc, on, name, bracket, Some(&wide))?;
            Ok(remedy)
        }
        None => least_between(alloc, on, name, bracket, around),
    }
}

/// The least value of what is added to the lowest class, above the given one, that is enough,
/// and the first matching that it gives. They are tried one by one: a road of a class that is
/// let through can also take a matching away.
fn lowest(
    alloc: Global,
    on: &ReferenceOnMap<'_>,
    around: Option<&Surroundings>,
) -> Result<Option<Remedy>, NoMemory>
    requires { IfSome around (λ around.
        AreSurroundings on.now.reference.now on.now.map.now.lines around.now) }
    ensures { IfOk result
        (IsWider on.now.map.now on.now.tolerances on.now.reference.now Lowest) }
{
    matching_has_key();
    let end = Tolerance::Lowest.greatest() + 1;
    for value in on.tolerances.lowest + 1..end {
        if let Some(key) = matching_with(alloc, on, Tolerance::Lowest, value, around)? {
            return Ok(Some(Remedy {
                change: Change::Set(Tolerance::Lowest, value),
                matching: Some(key),
            }));
        }
    }
    Ok(None)
}

/// The least value of any tolerance above the given one that is enough, and the first matching
/// that it gives. Candidates are taken from the lines `around` the points, where these reach as far
/// as the radius.
pub(crate) fn greater(
    alloc: Global,
    on: &ReferenceOnMap<'_>,
    name: Tolerance,
    around: Option<&Surroundings>,
) -> Result<Option<Remedy>, NoMemory>
    requires { IfSome around (λ around.
        AreSurroundings on.now.reference.now on.now.map.now.lines around.now) }
    ensures { IfOk result
        (IsWider on.now.map.now on.now.tolerances on.now.reference.now name) }
{
    match name {
        Tolerance::Lowest => lowest(alloc, on, around),
        _ => wider(alloc, on, name, around),
    }
}
