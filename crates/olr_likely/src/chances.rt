//! How probable the places are that were looked at, by a confidence.

ghost use Rattle.std.specs.Prelude.{◌≡◌, All, IfOk, option_map};
ghost use Rattle.olr_matching.specs.Layers.{AreLayersOn};
ghost use Rattle.olr_detail.specs.MatchingDetail.{CanBeDetailed};
ghost use Rattle.olr_report.specs.Entries.{HasPieces};
ghost use Rattle.olr_places.specs.Places.{IsOpenerAt};
ghost use Rattle.olr_likely.specs.Chances.{AreChances, AreKnownChances, AreTermsOfPlaces, HasTerms, IsKnown, are_known, is_line};

use crate::order::least_cost;
use crate::ranked::RankedPlace;
use olr_base::NoMemory;
use olr_binary::Reference;
use olr_candidates::ReferenceOnMap;
use olr_confidence::{
    AskedName, Confidence, Probabilities, Terms, asked_with, others_of, probabilities, terms_of,
};
use olr_detail::{detail_of_matching, matchings_can_be_detailed};
use olr_matching::Layers;
use olr_road::Map;
use std::alloc::Global;

/// How probable the places are.
#[derive(Debug, Drop)]
pub struct KnownChances {
    /// Of each place, by rank, and that none of them is right.
    pub probabilities: Probabilities,
    /// The least cost of all of them, in thirtieths of a penalty point.
    pub least: u32,
}

/// What a confidence says of all places that were looked at.
#[derive(Debug, Drop)]
pub struct Chances {
    /// The confidence.
    pub confidence: Confidence,
    /// The names of the numbers by which places were asked for that aren't its own.
    pub differs: Vec<AskedName>,
    /// How probable the places are. It isn't known where a number differs, nor of points along lines.
    pub known: Option<KnownChances>,
}

/// What counts for and against a place.
fn terms_of_place(
    alloc: Global,
    on: &ReferenceOnMap<'_>,
    place: &RankedPlace,
) -> Result<Terms, NoMemory>
    requires matched { CanBeDetailed on.now.tolerances on.now.reference.now on.now.map.now
        place.now.opener.matched }
    requires route { HasPieces on.now.map.now place.now.opener.route.items }
    ensures { IfOk result (HasTerms on.now.tolerances on.now.reference.now on.now.map.now place.now) }
{
    let opener = &place.opener;
    let detail = detail_of_matching(alloc, on, &opener.matched, &opener.route)?;
    Ok(terms_of(&detail, opener.route.len()))
}

/// What counts for and against each place.
fn terms_of_places(
    alloc: Global,
    map: &Map,
    layers: &Layers,
    places: &[RankedPlace],
) -> Result<Vec<Terms>, NoMemory>
    requires layers { AreLayersOn map.now layers.now }
    requires places { All (λ place. IsOpenerAt map.now layers.now place.opener) places.now }
    ensures { IfOk result (λ terms. AreTermsOfPlaces map.now layers.now places.now terms.items) }
{
    matchings_can_be_detailed();
    let on = ReferenceOnMap {
        map,
        reference: layers.reference(),
        tolerances: *layers.tolerances(),
    };
    let mut terms = Vec::with_capacity(alloc, places.len())?;
    for place in places {
        terms.push(terms_of_place(alloc, &on, place)?)?;
    }
    Ok(terms)
}

/// How probable places are, by the confidence.
fn known_chances(
    alloc: Global,
    map: &Map,
    layers: &Layers,
    confidence: &Confidence,
    places: &[RankedPlace],
) -> Result<KnownChances, NoMemory>
    requires layers { AreLayersOn map.now layers.now }
    requires places { All (λ place. IsOpenerAt map.now layers.now place.opener) places.now }
    ensures { IfOk result (AreKnownChances confidence.now map.now layers.now places.now) }
{
    let terms = terms_of_places(alloc, map, layers, places)?;
    let probabilities = probabilities(alloc, &confidence.weights, &terms)?;
    Ok(KnownChances {
        probabilities,
        least: least_cost(places),
    })
}

/// Whether a reference is a line.
fn is_line(reference: &Reference) -> bool
    ensures { result ≡ is_line reference.now }
{
    matches!(reference, Reference::Line { .. })
}

/// How probable places are, if that is known, by the names of the numbers that differ.
fn chances_if(
    alloc: Global,
    map: &Map,
    layers: &Layers,
    confidence: &Confidence,
    places: &[RankedPlace],
    differs: &[AskedName],
) -> Result<Option<KnownChances>, NoMemory>
    requires layers { AreLayersOn map.now layers.now }
    requires places { All (λ place. IsOpenerAt map.now layers.now place.opener) places.now }
    ensures { IfOk result (IsKnown confidence.now map.now layers.now places.now
        (are_known differs.now layers.now.reference)) }
{
    if !differs.is_empty() || !is_line(layers.reference()) {
        return Ok(None);
    }
    let known = known_chances(alloc, map, layers, confidence, places)?;
    Ok(Some(known))
}

/// What a confidence says of places, which are given by rank, and for which `apart` was asked.
pub(crate) fn chances_of(
    alloc: Global,
    map: &Map,
    layers: &Layers,
    confidence: &Confidence,
    apart: u32,
    places: &[RankedPlace],
) -> Result<Chances, NoMemory>
    requires layers { AreLayersOn map.now layers.now }
    requires places { All (λ place. IsOpenerAt map.now layers.now place.opener) places.now }
    ensures { IfOk result (AreChances confidence.now apart map.now layers.now places.now) }
{
    let asked = asked_with(layers.tolerances(), apart);
    let differs = others_of(alloc, &asked, &confidence.asked)?;
    let known = chances_if(alloc, map, layers, confidence, places, &differs)?;
    Ok(Chances {
        confidence: *confidence,
        differs,
        known,
    })
}
