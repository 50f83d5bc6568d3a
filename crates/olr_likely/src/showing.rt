//! Places as they are shown: in the order of totals or in the likely order.

ghost use Rattle.std.specs.Prelude.{◌≡◌, All, IfOk, map};
ghost use Rattle.olr_road.specs.RoadMap.{RoadMap};
ghost use Rattle.olr_matching.specs.Layers.{LayersValue};
ghost use Rattle.olr_places.specs.Places.{IsOpenerAt};
ghost use Rattle.olr_likely.specs.Showing.{AreShownByCost, AreShownByTotal, IsShownAt, shown_by_cost, shown_by_total};

use crate::answer::LikelyPlaces;
use crate::chances::Chances;
use crate::ranked::RankedPlace;
use crate::told::{ToldPlace, ToldPlaces};
use olr_base::NoMemory;
use olr_confidence::AskedName;
use olr_detail::MatchingDetail;
use olr_keys::Key;
use olr_places::{Opener, Places, Verdict};
use std::alloc::Global;

/// The rank and the likely cost of a place.
#[derive(Clone, Copy, Debug, PartialEq, Eq)]
pub struct RankAndCost {
    /// Its rank among all places that were looked at, from 1, in the order in which they opened.
    pub rank: usize,
    /// Its likely cost, in thirtieths of a penalty point.
    pub cost: u32,
}

/// A place as it is shown.
#[derive(Debug, Drop)]
pub struct ShownPlace {
    /// The matching that opened it, with its gap and the number of its members.
    pub opener: Opener,
    /// Its rank and its likely cost, in the likely order.
    pub likely: Option<RankAndCost>,
    /// What speaks for the matching that opened it, where that is asked for.
    pub detail: Option<MatchingDetail>,
    /// What a confidence says of it, where one is given: nothing where a number differs from its own,
    /// and of a point along a line.
    pub told: Option<Option<ToldPlace>>,
}

/// The places of a reference as they are shown.
#[derive(Debug, Drop)]
pub struct ShownPlaces {
    /// The places.
    pub places: Vec<ShownPlace>,
    /// How many matchings were looked at.
    pub looked: u32,
    /// The gap of the second place, in penalty points.
    pub margin: Option<u32>,
    /// The key after which looking would go on, where it was cut off.
    pub next: Option<Key>,
    /// In the likely order, whether a place may be missing that would be shown.
    pub cut: Option<bool>,
    /// Whether the match is unique.
    pub verdict: Verdict,
    /// What a confidence says of all places, where one is given.
    pub told: Option<ToldPlaces>,
    /// The names of the numbers by which places were asked for that aren't those of the confidence,
    /// where one is given.
    pub differs: Option<Vec<AskedName>>,
}

/// The places of these openers, as the order of totals shows them.
fn places_by_total(alloc: Global, openers: Vec<Opener>) -> Result<Vec<ShownPlace>, NoMemory>
    ensures { IfOk result (λ shown. shown.items ≡ map shown_by_total openers.items) }
{
    let mut shown = Vec::with_capacity(alloc, openers.len())?;
    for opener in openers {
        shown.push(ShownPlace {
            opener,
            likely: None,
            detail: None,
            told: None,
        })?;
    }
    Ok(shown)
}

/// These places, as the likely order shows them.
fn places_by_cost(alloc: Global, places: Vec<RankedPlace>) -> Result<Vec<ShownPlace>, NoMemory>
    ensures { IfOk result (λ shown. shown.items ≡ map shown_by_cost places.items) }
{
    let mut shown = Vec::with_capacity(alloc, places.len())?;
    for place in places {
        shown.push(ShownPlace {
            opener: place.opener,
            likely: Some(RankAndCost {
                rank: place.rank,
                cost: place.likely.cost,
            }),
            detail: None,
            told: None,
        })?;
    }
    Ok(shown)
}

/// Places in the order of totals, as they are shown.
///
/// # Errors
///
/// [`NoMemory`] where the allocator refused memory.
pub(crate) fn shown_by_total(alloc: Global, places: Places) -> Result<ShownPlaces, NoMemory>
    ensures shown { IfOk result (AreShownByTotal places) }
    ensures openers { IfOk result (λ shown. (road : RoadMap) (layers : LayersValue)
        → All (IsOpenerAt road layers) places.openers.items
        → All (IsShownAt road layers) shown.places.items) }
{
    let verdict = places.verdict();
    let Places {
        openers,
        looked,
        last,
        margin,
        ending,
    } = places;
    Ok(ShownPlaces {
        places: places_by_total(alloc, openers)?,
        looked,
        margin,
        next: ending.key_behind(last),
        cut: None,
        verdict,
        told: None,
        differs: None,
    })
}

/// Places in the likely order, as they are shown, and what a confidence says of all that were looked
/// at, if one is given.
///
/// # Errors
///
/// [`NoMemory`] where the allocator refused memory.
pub(crate) fn shown_by_cost(
    alloc: Global,
    likely: LikelyPlaces,
) -> Result<(ShownPlaces, Option<Chances>), NoMemory>
    ensures shown { IfOk result (λ found. AreShownByCost likely found.0) }
    ensures chances { IfOk result (λ found. found.1 ≡ likely.chances) }
    ensures openers { IfOk result (λ found. (road : RoadMap) (layers : LayersValue)
        → All (λ place. IsOpenerAt road layers place.opener) likely.places.items
        → All (IsShownAt road layers) found.0.places.items) }
{
    let LikelyPlaces {
        places,
        looked,
        next,
        margin,
        cut,
        verdict,
        chances,
    } = likely;
    let shown = ShownPlaces {
        places: places_by_cost(alloc, places)?,
        looked,
        margin,
        next,
        cut: Some(cut),
        verdict,
        told: None,
        differs: None,
    };
    Ok((shown, chances))
}
