//! What is answered in the likely order: the places that are shown, and what is known of all.

ghost use Rattle.std.specs.Prelude.{◌≡◌, IfOk, option_map};
ghost use Rattle.olr_likely.specs.Answer.{IsAnswerOf, count_listed, ending_within, is_cut, second_gap};
ghost use Rattle.olr_likely.specs.Ranked.{AreNumbered};

use crate::chances::Chances;
use crate::order::{least_cost, shown};
use crate::ranked::RankedPlace;
use olr_base::NoMemory;
use olr_keys::Key;
use olr_places::{Ending, PlaceLimits, Verdict};

/// The places of a reference in the likely order: those that are shown, and what is known of all
/// that were looked at.
#[derive(Debug, Drop)]
pub struct LikelyPlaces {
    /// The places that are shown, the likeliest one first.
    pub places: Vec<RankedPlace>,
    /// How many matchings were looked at.
    pub looked: u32,
    /// The key after which looking would go on, where it was cut off.
    pub next: Option<Key>,
    /// The gap of the second place that was looked at, in penalty points.
    pub margin: Option<u32>,
    /// Whether a place may be missing that would be shown.
    pub cut: bool,
    /// Whether the match is unique.
    pub verdict: Verdict,
    /// What a confidence says of all that were looked at, if one is given.
    pub chances: Option<Chances>,
}

/// The gap of the second place that was looked at.
fn second_gap(places: &[RankedPlace]) -> Option<u32>
    ensures { result ≡ second_gap places.now }
{
    let second = places.get(1)?;
    Some(second.opener.gap)
}

/// How many places have a gap of at most `within`.
fn count_listed(places: &[RankedPlace], within: u32) -> usize
    ensures { result ≡ count_listed within places.now }
{
    places
        .iter()
        .filter(|place| place.opener.gap <= within)
        .count()
}

/// Why looking ended, for the verdict: behind the first place with a gap greater than `within`, else
/// as it did.
fn ending_within(places: &[RankedPlace], within: u32, ending: Ending) -> Ending
    ensures { result ≡ ending_within within places.now ending }
{
    match places.iter().find(|place| place.opener.gap > within) {
        Some(place) => Ending::Beyond(place.opener.gap),
        None => ending,
    }
}

/// Whether a place may be missing that would be shown, where looking was cut off behind `next`. A
/// cost is at least 6 times the total.
fn is_cut(places: &[RankedPlace], next: Option<&Key>, within: u32) -> bool
    ensures { result ≡ is_cut within places.now (option_map (λ key. key.now) next.entry) }
{
    let Some(last) = next else {
        return false;
    };
    if places.is_empty() {
        return false;
    }
    let least = least_cost(places);
    6 * u64::from(last.total) <= u64::from(least) + 30 * u64::from(within)
}

/// What is answered of all places that were looked at, which are given by rank: by how many
/// matchings were looked at, why looking ended, the key behind which it was cut off, and what a
/// confidence says of them.
pub(crate) fn answer_of(
    places: Vec<RankedPlace>,
    looked: u32,
    ending: Ending,
    next: Option<Key>,
    limits: &PlaceLimits,
    chances: Option<Chances>,
) -> Result<LikelyPlaces, NoMemory>
    requires { AreNumbered places.items }
    ensures { IfOk result (IsAnswerOf limits.now looked ending next chances places.items) }
{
    let margin = second_gap(&places);
    let cut = is_cut(&places, next.as_ref(), limits.within);
    let listed = count_listed(&places, limits.within);
    let verdict = ending_within(&places, limits.within, ending).verdict(looked, listed);
    Ok(LikelyPlaces {
        places: shown(places, limits)?,
        looked,
        next,
        margin,
        cut,
        verdict,
        chances,
    })
}
