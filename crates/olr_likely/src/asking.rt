//! The places of a reference as they are asked for: in either order, and with more where more is asked
//! for.

ghost use Rattle.std.specs.Prelude.{IfOk};
ghost use Rattle.olr_matching.specs.Layers.{AreLayersOn};
ghost use Rattle.olr_matching.specs.Searches.{AreSearchesOn};
ghost use Rattle.olr_likely.specs.Asking.{AreAsked, AreAskedByCost, AreAskedByTotal};

use crate::asked::{AskedPlaces, PlaceOrder};
use crate::extending::{More, extended};
use crate::finding::likely_places;
use crate::showing::{ShownPlaces, shown_by_cost, shown_by_total};
use olr_base::NoMemory;
use olr_matching::{Layers, Searches};
use olr_places::places_of;
use olr_road::Map;
use std::alloc::Global;

/// The places in the order of totals, of which no confidence says anything.
fn asked_by_total(
    alloc: Global,
    map: &Map,
    layers: &Layers,
    searches: Searches,
    asked: &AskedPlaces,
) -> Result<ShownPlaces, NoMemory>
    requires layers { AreLayersOn map.now layers.now }
    requires searches { AreSearchesOn map.now searches }
    ensures { IfOk result (AreAskedByTotal asked.now map.now layers.now) }
{
    let places = places_of(alloc, map, layers, searches, &asked.limits)?;
    let found = shown_by_total(alloc, places)?;
    let more = More {
        detailed: asked.detailed,
        chances: &None,
    };
    let shown = extended(alloc, map, layers, more, found)?;
    Ok(shown)
}

/// The places in the likely order.
fn asked_by_cost(
    alloc: Global,
    map: &Map,
    layers: &Layers,
    searches: Searches,
    asked: &AskedPlaces,
) -> Result<ShownPlaces, NoMemory>
    requires layers { AreLayersOn map.now layers.now }
    requires searches { AreSearchesOn map.now searches }
    ensures { IfOk result (AreAskedByCost asked.now map.now layers.now) }
{
    let likely = likely_places(alloc, map, layers, searches, asked)?;
    let (found, chances) = shown_by_cost(alloc, likely)?;
    let more = More {
        detailed: asked.detailed,
        chances: &chances,
    };
    let shown = extended(alloc, map, layers, more, found)?;
    Ok(shown)
}

/// The places of a reference on a map, by its layers there and the searches that they were built
/// with ([`Layers::build_with_searches`]), in the order that is asked for. In the order of totals they
/// are those of [`olr_places::places_of`], in the likely order those of [`likely_places`]. Where that is
/// asked for they show what speaks for each; and in the likely order, where a confidence is given, how
/// probable each is, and that none is right.
///
/// # Errors
///
/// [`NoMemory`] where the allocator refused memory.
pub fn places_asked(
    alloc: Global,
    map: &Map,
    layers: &Layers,
    searches: Searches,
    asked: &AskedPlaces,
) -> Result<ShownPlaces, NoMemory>
    requires layers { AreLayersOn map.now layers.now }
    requires searches { AreSearchesOn map.now searches }
    ensures { IfOk result (AreAsked asked.now map.now layers.now) }
{
    match asked.order {
        PlaceOrder::Total => asked_by_total(alloc, map, layers, searches, asked),
        PlaceOrder::Likely => asked_by_cost(alloc, map, layers, searches, asked),
    }
}
