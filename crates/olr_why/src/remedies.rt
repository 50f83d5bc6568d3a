//! What would help a reference that has no matching.

ghost use Rattle.std.specs.Prelude.{◌≡◌, [], ◌++◌, IfOk, MatchOption, OnOk};
ghost use Rattle.std.specs.Option.{option_to_list};
ghost use Rattle.olr_why.specs.Chain.{IsUncrowded};
ghost use Rattle.olr_why.specs.Remedies.{AreNarrower, AreOfNames, AreRemedies, AreWider, IsRemedyWithoutBans};
ghost use Rattle.olr_why.specs.Remedies.{IsUnbanned, IsWider, by_trust};
ghost use Rattle.olr_why.specs.Verdict.{IsVerdict};

use crate::narrowing::narrower;
use crate::remedy::{Change, Remedy};
use crate::trial::{Trial, try_tolerances};
use crate::verdict::Verdict;
use crate::widening::greater;
use olr_base::NoMemory;
use olr_candidates::{ReferenceOnMap, Surroundings, Tolerance};
use olr_road::Map;
use std::alloc::Global;

/// The tolerances of which a greater value may help, the most trusted one first.
const BY_TRUST: [Tolerance; 6] = [
    Tolerance::Lowest,
    Tolerance::Bearing,
    Tolerance::Radius,
    Tolerance::Slack,
    Tolerance::Percent,
    Tolerance::Class,
];

/// The tolerances of which a lesser value may help.
const NARROWED: [Tolerance; 3] = [Tolerance::Radius, Tolerance::Bearing, Tolerance::Class];

/// Adds a remedy, if there is one.
fn push_if(remedies: &mut Vec<Remedy>, remedy: Option<Remedy>) -> Result<(), NoMemory>
    ensures { OnOk result (remedies.new.items ≡ remedies.old.items ++ option_to_list remedy) }
{
    if let Some(remedy) = remedy {
        remedies.push(remedy)?;
    }
    Ok(())
}

/// The first matching on the map without its bans, if it has bans and there is one.
fn without_bans(
    alloc: Global,
    on: &ReferenceOnMap<'_>,
    unbanned: Option<&Map>,
) -> Result<Option<Remedy>, NoMemory>
    requires unbanned { MatchOption unbanned (on.now.map.now.bans ≡ [])
        (λ other. IsUnbanned on.now.map.now other.now) }
    requires uncrowded { IsUncrowded on.now.map.now on.now.tolerances
        on.now.reference.now }
    ensures { IfOk result
        (IsRemedyWithoutBans on.now.map.now on.now.tolerances on.now.reference.now) }
{
    let Some(unbanned) = unbanned else {
        return Ok(None);
    };
    let on = ReferenceOnMap {
        map: unbanned,
        reference: on.reference,
        tolerances: on.tolerances,
    };
    match try_tolerances(alloc, &on, None)? {
        Trial::Crowded => Ok(None),
        Trial::NoMatching => Ok(None),
        Trial::Matching(key) => Ok(Some(Remedy {
            change: Change::WithoutBans,
            matching: Some(key),
        })),
    }
}

/// The greater values of tolerances that help.
fn all_greater(alloc: Global, on: &ReferenceOnMap<'_>) -> Result<Vec<Remedy>, NoMemory>
    ensures { IfOk result (λ remedies. AreOfNames
        (IsWider on.now.map.now on.now.tolerances on.now.reference.now) by_trust
        remedies.items) }
{
    let kept = Surroundings::look(alloc, on, on.tolerances.radius)?;
    let around = kept.as_ref();
    let mut remedies = Vec::new(alloc);
    for name in BY_TRUST {
        let remedy = greater(alloc, on, name, around)?;
        push_if(&mut remedies, remedy)?;
    }
    Ok(remedies)
}

/// What helps where no point has more than 64 candidates.
fn all_wider(
    alloc: Global,
    on: &ReferenceOnMap<'_>,
    unbanned: Option<&Map>,
) -> Result<Vec<Remedy>, NoMemory>
    requires unbanned { MatchOption unbanned (on.now.map.now.bans ≡ [])
        (λ other. IsUnbanned on.now.map.now other.now) }
    requires uncrowded { IsUncrowded on.now.map.now on.now.tolerances
        on.now.reference.now }
    ensures { IfOk result (λ remedies. AreWider on.now.map.now on.now.tolerances
        on.now.reference.now remedies.items) }
{
    let mut remedies = all_greater(alloc, on)?;
    let remedy = without_bans(alloc, on, unbanned)?;
    push_if(&mut remedies, remedy)?;
    Ok(remedies)
}

/// What helps where a point has more than 64 candidates.
fn all_narrower(alloc: Global, on: &ReferenceOnMap<'_>) -> Result<Vec<Remedy>, NoMemory>
    ensures { IfOk result (λ remedies. AreNarrower on.now.map.now on.now.tolerances
        on.now.reference.now remedies.items) }
{
    let mut remedies = Vec::new(alloc);
    for name in NARROWED {
        let remedy = narrower(alloc, on, name)?;
        push_if(&mut remedies, remedy)?;
    }
    Ok(remedies)
}

/// What would help a reference that has this verdict, all else being the same.
///
/// Where there is no matching: for each tolerance the least value above the given one that gives a
/// matching, where one does, and the map without its bans, where that does; in the order of trust:
/// `lowest`, bearing, radius, slack, percent, class, the bans. Where a point has more than 64
/// candidates: for the radius, the bearing and the class the greatest value below the given one
/// with which no point has, where there is one, with the first matching, where that gives one.
/// Nothing where there is a matching.
///
/// `unbanned` is the map without its bans, where the map has bans: that of
/// [`unbanned_of`](crate::unbanned_of).
///
/// # Errors
///
/// [`NoMemory`] where the allocator refused memory.
pub fn remedies_of(
    alloc: Global,
    on: &ReferenceOnMap<'_>,
    unbanned: Option<&Map>,
    verdict: Verdict,
) -> Result<Vec<Remedy>, NoMemory>
    requires unbanned { MatchOption unbanned (on.now.map.now.bans ≡ [])
        (λ other. IsUnbanned on.now.map.now other.now) }
    requires verdict { IsVerdict on.now.map.now on.now.tolerances on.now.reference.now verdict }
    ensures { IfOk result (λ remedies.
        AreRemedies on.now.map.now on.now.tolerances on.now.reference.now verdict remedies.items) }
{
    match verdict {
        Verdict::Crowded(_) => all_narrower(alloc, on),
        Verdict::Point(_) => all_wider(alloc, on, unbanned),
        Verdict::Leg(_) => all_wider(alloc, on, unbanned),
        Verdict::Chain(_) => all_wider(alloc, on, unbanned),
        Verdict::Match => Ok(Vec::new(alloc)),
    }
}
