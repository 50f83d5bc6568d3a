//! The places of a reference: its matchings are looked at in order, one after the other.

ghost use Rattle.std.specs.Prelude.{◌≡◌, All, IfOk, List};
ghost use Rattle.olr_keys.specs.Answers.{AreAnswers};
ghost use Rattle.olr_keys.specs.Key.{KeyValue};
ghost use Rattle.olr_keys.specs.Matching.{IsKey};
ghost use Rattle.olr_matching.specs.Layers.{AreLayersOn};
ghost use Rattle.olr_matching.specs.Searches.{AreSearchesOn};
ghost use Rattle.olr_places.specs.Looking.{IsLooked, Looked};
ghost use Rattle.olr_places.specs.Places.{AreOnMap, ArePlacesOf, IsOpenerAt};

use crate::covered_road::CoveredRoad;
use crate::ending::Ending;
use crate::limits::PlaceLimits;
use crate::looking::Looking;
use crate::opener::Opener;
use crate::places::Places;
use olr_base::NoMemory;
use olr_keys::{Finder, Key, TotalsFinder};
use olr_matching::{Layers, Routes, Searches, matchings_are_sound};
use olr_report::{Entry, entry_of, sound_parts_can_be_shown};
use olr_road::{Map, sound};
use std::alloc::Global;
use std::slice;

/// The matching of a key, with its parts, as one that opens a place.
fn opener_of(alloc: Global, routes: &mut Routes<'_>, key: Key) -> Result<Opener, NoMemory>
    requires { IsKey routes.old.layers.penalties key }
    ensures key { IfOk result (λ opener. opener.key ≡ key) }
    ensures entry { IfOk result (IsOpenerAt routes.old.road routes.old.layers) }
    ensures itself { IfOk result (λ opener. opener.members ≡ 1) }
    ensures same { routes.new ≡ routes.old }
{
    matchings_are_sound();
    sound_parts_can_be_shown();
    sound(routes.map());
    let mut all = routes.matched(alloc, slice::from_ref(&key))?;
    let Some(matched) = all.pop() else {
        unreachable!()
    };
    let Entry {
        route,
        location,
        ..
    } = entry_of(alloc, routes.layers().reference(), &key, &matched)?;
    Ok(Opener {
        key,
        matched,
        route,
        covered: CoveredRoad::new(alloc, location)?,
        gap: 0,
        members: 1,
    })
}

/// The places of a reference on a map, by its layers there and the searches that they were built
/// with ([`Layers::build_with_searches`]). The matchings are looked at in their order: one that is
/// close to the opener of a place before it belongs to the first such place, else it opens a place.
/// At most as many openers are kept as `limits` lists.
///
/// # Errors
///
/// [`NoMemory`] where the allocator refused memory.
pub fn places_of(
    alloc: Global,
    map: &Map,
    layers: &Layers,
    searches: Searches,
    limits: &PlaceLimits,
) -> Result<Places, NoMemory>
    requires layers { AreLayersOn map.now layers.now }
    requires searches { AreSearchesOn map.now searches }
    ensures places { IfOk result (λ places. (answers : List KeyValue) × (looked : Looked)
        × AreAnswers layers.now.penalties answers
        × IsLooked limits.now map.now layers.now answers looked
        × ArePlacesOf limits.now looked places) }
    ensures openers { IfOk result (λ places.
        All (IsOpenerAt map.now layers.now) places.openers.items) }
    ensures on_map { IfOk result (AreOnMap map.now) }
{
    let mut finder = TotalsFinder::build(alloc, layers.table())?;
    let mut routes = Routes::with_searches(alloc, map, layers, searches);
    let mut looking = Looking::new(alloc);
    while let Some(key) = finder.next(alloc, looking.last.as_ref())? {
        if looking.looked == limits.look {
            return Ok(looking.places(Ending::Cut));
        }
        let opener = opener_of(alloc, &mut routes, key)?;
        if let Some(ending) = looking.look_at(limits, opener)? {
            return Ok(looking.places(ending));
        }
    }
    Ok(looking.places(Ending::NoMore))
}
