//! The places of a reference in the likely order, from the layers of its candidates.

ghost use Rattle.std.specs.Prelude.{All, IfOk};
ghost use Rattle.olr_matching.specs.Layers.{AreLayersOn};
ghost use Rattle.olr_matching.specs.Searches.{AreSearchesOn};
ghost use Rattle.olr_likely.specs.Chances.{AreChancesIf};
ghost use Rattle.olr_likely.specs.Finding.{AreLikelyPlaces, AreWidest};
ghost use Rattle.olr_places.specs.Places.{IsOpenerAt};

use crate::answer::{LikelyPlaces, answer_of};
use crate::asked::AskedPlaces;
use crate::chances::{Chances, chances_of};
use crate::ranked::{RankedPlace, ranked};
use olr_base::NoMemory;
use olr_detail::matchings_can_be_detailed;
use olr_keys::keys_are_in_range;
use olr_matching::{Layers, Searches};
use olr_places::{PlaceLimits, Places, places_of};
use olr_road::Map;
use std::alloc::Global;

/// The limits by which as many places are looked at as can be asked for.
fn widest(limits: &PlaceLimits) -> PlaceLimits
    ensures { AreWidest limits.now result }
{
    PlaceLimits {
        apart: limits.apart,
        within: 14_620,
        look: limits.look,
        most: 100,
    }
}

/// What a confidence says of places, which are given by rank, where one is given.
fn chances_asked(
    alloc: Global,
    map: &Map,
    layers: &Layers,
    asked: &AskedPlaces,
    places: &[RankedPlace],
) -> Result<Option<Chances>, NoMemory>
    requires layers { AreLayersOn map.now layers.now }
    requires places { All (λ place. IsOpenerAt map.now layers.now place.opener) places.now }
    ensures { IfOk result (AreChancesIf asked.now.confidence asked.now.limits.apart map.now layers.now
        places.now) }
{
    let Some(confidence) = &asked.confidence else {
        return Ok(None);
    };
    let chances = chances_of(alloc, map, layers, confidence, asked.limits.apart, places)?;
    Ok(Some(chances))
}

/// The places of a reference on a map in the likely order, by its layers there and the searches
/// that they were built with ([`Layers::build_with_searches`]). At most `look` matchings are looked
/// at, and at most 100 places. A place is shown where its gap is at most `within`, or its likely
/// cost at most the least one and `within` penalty points; these by cost, at most `most` of them.
/// Where a confidence is given, it says how probable those are that were looked at.
///
/// # Errors
///
/// [`NoMemory`] where the allocator refused memory.
pub fn likely_places(
    alloc: Global,
    map: &Map,
    layers: &Layers,
    searches: Searches,
    asked: &AskedPlaces,
) -> Result<LikelyPlaces, NoMemory>
    requires layers { AreLayersOn map.now layers.now }
    requires searches { AreSearchesOn map.now searches }
    ensures places { IfOk result (AreLikelyPlaces asked.now map.now layers.now) }
    ensures openers { IfOk result (λ likely.
        All (λ place. IsOpenerAt map.now layers.now place.opener) likely.places.items) }
{
    matchings_can_be_detailed();
    keys_are_in_range();
    let Places {
        openers,
        looked,
        last,
        ending,
        ..
    } = places_of(alloc, map, layers, searches, &widest(&asked.limits))?;
    let places = ranked(alloc, map, openers)?;
    let chances = chances_asked(alloc, map, layers, asked, &places)?;
    let next = ending.key_behind(last);
    let likely = answer_of(places, looked, ending, next, &asked.limits, chances)?;
    Ok(likely)
}
