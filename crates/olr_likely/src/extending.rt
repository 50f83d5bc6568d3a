//! Places with more than they always show: what speaks for each, and how probable it is.

ghost use Rattle.std.specs.Prelude.{◌≡◌, All, IfOk, None, Some, if◌then◌else◌, option_map};
ghost use Rattle.olr_matching.specs.Layers.{AreLayersOn};
ghost use Rattle.olr_detail.specs.MatchingDetail.{CanBeDetailed};
ghost use Rattle.olr_report.specs.Entries.{HasPieces};
ghost use Rattle.olr_likely.specs.Extending.{AreExtendedPlaces, IsExtended, IsExtendedPlace, IsSaid, IsTold, differs_of, names_in, probability_at, told_of};
ghost use Rattle.olr_likely.specs.Showing.{IsShownAt};

use crate::chances::{Chances, KnownChances};
use crate::showing::{RankAndCost, ShownPlace, ShownPlaces};
use crate::told::{ToldPlace, ToldPlaces};
use olr_base::NoMemory;
use olr_candidates::ReferenceOnMap;
use olr_confidence::{AskedName, reasons_of};
use olr_detail::{MatchingDetail, detail_of_matching, matchings_can_be_detailed};
use olr_matching::Layers;
use olr_road::Map;
use std::alloc::Global;

/// What places show beside what they always do.
#[derive(Clone, Copy)]
pub(crate) struct More<'a> {
    /// Whether it is shown what speaks for each.
    pub detailed: bool,
    /// How probable those are that were looked at, where a confidence is given.
    pub chances: &'a Option<Chances>,
}

/// The probability of a place in the likely order, by its rank.
fn probability_at(probabilities: &[u64], likely: Option<RankAndCost>) -> u64
    ensures { result ≡ probability_at probabilities.now likely }
{
    let Some(likely) = likely else {
        return 0;
    };
    match probabilities.get(likely.rank.saturating_sub(1)) {
        Some(probability) => *probability,
        None => 0,
    }
}

/// What a confidence says of a place, by how probable all are, and by what speaks for the matching that
/// opened it.
fn said_of(
    alloc: Global,
    chances: &Chances,
    known: &KnownChances,
    place: &ShownPlace,
    detail: &MatchingDetail,
) -> Result<ToldPlace, NoMemory>
    ensures { IfOk result (IsSaid chances.now.confidence.weights known.now place.now detail.now) }
{
    let weights = &chances.confidence.weights;
    let reasons = reasons_of(
        alloc,
        weights,
        detail,
        place.opener.route.len(),
        known.least,
    )?;
    Ok(ToldPlace {
        probability: probability_at(&known.probabilities.places, place.likely),
        reasons,
    })
}

/// The same where it is known, if a confidence is given.
fn told(
    alloc: Global,
    chances: &Option<Chances>,
    place: &ShownPlace,
    detail: &MatchingDetail,
) -> Result<Option<Option<ToldPlace>>, NoMemory>
    ensures { IfOk result (IsTold chances.now place.now detail.now) }
{
    let Some(chances) = chances else {
        return Ok(None);
    };
    let Some(known) = &chances.known else {
        return Ok(Some(None));
    };
    let said = said_of(alloc, chances, known, place, detail)?;
    Ok(Some(Some(said)))
}

/// What speaks for a matching, where it is shown.
fn kept_if(detailed: bool, detail: MatchingDetail) -> Option<MatchingDetail>
    ensures { result ≡ (if detailed then Some detail else None) }
{
    if detailed { Some(detail) } else { None }
}

/// A place with more.
fn extended_place(
    alloc: Global,
    on: &ReferenceOnMap<'_>,
    more: More<'_>,
    place: ShownPlace,
) -> Result<ShownPlace, NoMemory>
    requires matched { CanBeDetailed on.now.tolerances on.now.reference.now on.now.map.now
        place.opener.matched }
    requires route { HasPieces on.now.map.now place.opener.route.items }
    ensures { IfOk result (IsExtendedPlace more.entry.detailed more.entry.chances.now on.now.tolerances
        on.now.reference.now on.now.map.now place) }
{
    let opener = &place.opener;
    let detail = detail_of_matching(alloc, on, &opener.matched, &opener.route)?;
    let told = told(alloc, more.chances, &place, &detail)?;
    let detail = kept_if(more.detailed, detail);
    Ok(ShownPlace {
        detail,
        told,
        ..place
    })
}

/// Places with more.
fn extended_places(
    alloc: Global,
    map: &Map,
    layers: &Layers,
    more: More<'_>,
    places: Vec<ShownPlace>,
) -> Result<Vec<ShownPlace>, NoMemory>
    requires layers { AreLayersOn map.now layers.now }
    requires places { All (IsShownAt map.now layers.now) places.items }
    ensures { IfOk result (λ extended. AreExtendedPlaces more.entry.detailed more.entry.chances.now map.now
        layers.now places.items extended.items) }
{
    matchings_can_be_detailed();
    let on = ReferenceOnMap {
        map,
        reference: layers.reference(),
        tolerances: *layers.tolerances(),
    };
    let mut extended = Vec::with_capacity(alloc, places.len())?;
    for place in places {
        extended.push(extended_place(alloc, &on, more, place)?)?;
    }
    Ok(extended)
}

/// What a confidence says of all places.
fn told_of(chances: &Chances) -> ToldPlaces
    ensures { result ≡ told_of chances.now }
{
    match &chances.known {
        Some(known) => ToldPlaces {
            none: Some(known.probabilities.none),
            map_differs: chances.confidence.map_differs,
        },
        None => ToldPlaces {
            none: None,
            map_differs: None,
        },
    }
}

/// The names of the numbers that differ, where a confidence is given.
fn differs_of(chances: &Option<Chances>) -> Result<Option<Vec<AskedName>>, NoMemory>
    ensures { IfOk result (λ differs. names_in differs ≡ option_map differs_of chances.now) }
{
    let Some(chances) = chances else {
        return Ok(None);
    };
    let differs = chances.differs.clone()?;
    Ok(Some(differs))
}

/// The same places with more, if more is asked for.
pub(crate) fn extended(
    alloc: Global,
    map: &Map,
    layers: &Layers,
    more: More<'_>,
    shown: ShownPlaces,
) -> Result<ShownPlaces, NoMemory>
    requires layers { AreLayersOn map.now layers.now }
    requires places { All (IsShownAt map.now layers.now) shown.places.items }
    ensures { IfOk result (IsExtended more.entry.detailed more.entry.chances.now map.now layers.now shown) }
{
    if !more.detailed && more.chances.is_none() {
        return Ok(shown);
    }
    let differs = differs_of(more.chances)?;
    Ok(ShownPlaces {
        places: extended_places(alloc, map, layers, more, shown.places)?,
        told: more.chances.as_ref().map(told_of),
        differs,
        ..shown
    })
}
