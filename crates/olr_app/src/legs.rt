//! The legs of a matching, and what else could be driven for each: their output on a map.

ghost use Rattle.std.specs.Prelude.{◌≡◌, ◌∷◌, [], IfErr, IfOk, IfSome, Ok, option_map};
ghost use Rattle.std.specs.Prelude.{string_bytes};
ghost use Rattle.olr_binary.specs.Reference.{IsReference};
ghost use Rattle.std.specs.List.{AllZip};
ghost use Rattle.olr_keys.specs.Matching.{IsKey};
ghost use Rattle.olr_matching.specs.Layers.{AreLayersOn};
ghost use Rattle.olr_matching.specs.Matched.{IsMatchedBy};
ghost use Rattle.olr_matching.specs.Searches.{AreSearchesOn};
ghost use Rattle.olr_request.specs.Request.{matching_request};
ghost use Rattle.olr_app.specs.Legs.{AreLegs, AreLegsIn, AreLegsOf, AreLegsOnMap, IsLegsFault};
ghost use Rattle.olr_app.specs.Legs.{as_match, matching_of};
ghost use Rattle.olr_app.specs.Accepting.{ReportsRefusal};
ghost use Rattle.olr_app.specs.Matching.{values_of};
ghost use Rattle.olr_app.specs.Stages.{IsStageFault};

use crate::accepting::{Accepted, accept_texts};
use crate::matching::{check_inputs, layers_of, pages_asked};
use olr_base::NoMemory;
use olr_legs::{LegAlternatives, ShownLegs, legs_geojson, legs_json, legs_of};
use olr_matching::{CursorRead, Key, Layers, Matched, Page, PageSize, Routes, Searches};
use olr_request::{Fault, Format, LegsRequest, MatchRequest, Pages};
use olr_road::Map;
use std::alloc::Global;
use std::slice;

/// The key of the matching whose legs are shown: that of the cursor, or else the first one of the
/// pages, which are that of one matching.
fn matching_of<'a>(start: &'a Option<CursorRead>, pages: &'a [Page]) -> Option<&'a Key>
    ensures { option_map (λ key. key.now) result ≡ matching_of start.now (values_of pages.now) }
{
    if let Some(read) = start {
        return Some(&read.key);
    }
    for page in pages {
        if let Some(key) = page.keys.first() {
            return Some(key);
        }
    }
    None
}

/// The matching of a key.
fn matched_by(
    alloc: Global,
    map: &Map,
    layers: &Layers,
    searches: Searches,
    key: &Key,
) -> Result<Vec<Matched>, NoMemory>
    requires layers { AreLayersOn map.now layers.now }
    requires searches { AreSearchesOn map.now searches }
    requires key { IsKey layers.now.penalties key.now }
    ensures { IfOk result (λ all.
        AllZip (IsMatchedBy map.now layers.now) (key.now ∷ []) all.items) }
{
    let mut routes = Routes::with_searches(alloc, map, layers, searches);
    routes.matched(alloc, slice::from_ref(key))
}

/// The legs of the matching of a key, and what else could be driven for each; none where there is no
/// matching.
fn legs_of_key(
    alloc: Global,
    map: &Map,
    layers: &Layers,
    searches: Searches,
    key: Option<&Key>,
    near: u32,
) -> Result<Vec<LegAlternatives>, NoMemory>
    requires layers { AreLayersOn map.now layers.now }
    requires searches { AreSearchesOn map.now searches }
    requires key { IfSome key (λ key. IsKey layers.now.penalties key.now) }
    ensures { IfOk result (λ legs. AreLegsOf map.now layers.now near
        (option_map (λ key. key.now) key.entry) legs.items) }
{
    let Some(key) = key else {
        return Ok(Vec::new(alloc));
    };
    let all = matched_by(alloc, map, layers, searches, key)?;
    let Some(matched) = all.first() else {
        return Err(NoMemory);
    };
    legs_of(alloc, map, layers, matched, near)
}

/// The legs of a matching in a format.
fn printed_legs<'a>(
    alloc: Global,
    map: &Map,
    matching: Option<&'a Key>,
    legs: &'a [LegAlternatives],
    format: Format,
) -> Result<String, NoMemory>
    ensures { IfOk result (λ text. AreLegsIn format map.now
        (option_map (λ key. key.now) matching.entry) legs.entry.now (string_bytes text)) }
{
    let shown = ShownLegs { matching, legs };
    match format {
        Format::Text | Format::Json => legs_json(alloc, map, &shown),
        Format::GeoJson => legs_geojson(alloc, map, &shown),
    }
}

/// The output of a request for legs that is accepted, on a map, where the request for the page of its
/// one matching is `one`.
///
/// # Errors
///
/// Those of [`legs_output`].
fn output_by(
    alloc: Global,
    map: &Map,
    asked: &LegsRequest<'_>,
    one: &MatchRequest<'_>,
    accepted: &Accepted,
) -> Result<String, Fault>
    requires reference { IsReference accepted.now.reference }
    requires one { one.now ≡ matching_request asked.now }
    ensures output { IfOk result (λ output.
        AreLegs asked.now map.now accepted.now (Ok (string_bytes output))) }
    ensures fault { IfErr result (IsStageFault (AreLegs asked.now map.now accepted.now)) }
{
    let Accepted { reference, start } = accepted;
    check_inputs(alloc, map, one, start)?;
    let (layers, searches) = layers_of(alloc, map, reference, &asked.tolerances)?;
    let pages = pages_asked(alloc, &layers, one, start)?;
    let matching = matching_of(start, &pages);
    let near = asked.near.thousandths();
    let legs = legs_of_key(alloc, map, &layers, searches, matching, near)?;
    let output = printed_legs(alloc, map, matching, &legs, asked.format)?;
    Ok(output)
}

/// The output of a request for legs that is accepted, on a map.
///
/// # Errors
///
/// [`Fault::CursorOfOther`] where the cursor has the mark of other inputs; else
/// [`Fault::TooManyCandidates`] with the first point that has more than 64; else
/// [`Fault::CursorNotHere`] where the cursor isn't that of a matching; [`Fault::NoMemory`] where the
/// allocator refused memory.
pub(crate) fn legs_output(
    alloc: Global,
    map: &Map,
    asked: &LegsRequest<'_>,
    accepted: &Accepted,
) -> Result<String, Fault>
    requires { IsReference accepted.now.reference }
    ensures output { IfOk result (λ output.
        AreLegs asked.now map.now accepted.now (Ok (string_bytes output))) }
    ensures fault { IfErr result (IsStageFault (AreLegs asked.now map.now accepted.now)) }
{
    // The pages are the same again: the proof needs to see their type here.
    let pages = Pages::One(asked.at);
    let size = PageSize::new(1)?;
    let one = MatchRequest {
        pages,
        ..asked.matching_request(size)
    };
    output_by(alloc, map, asked, &one, accepted)
}

/// The answer of a request for legs on a map that was read before.
///
/// # Errors
///
/// The refusal of the reference, or else [`Fault::BadCursor`] where the text of the cursor isn't that
/// of one, whatever memory does; else those of [`legs_output`].
pub fn legs_on_map(alloc: Global, map: &Map, asked: &LegsRequest<'_>) -> Result<String, Fault>
    ensures answer { IfOk result (λ output.
        AreLegsOnMap asked.now map.now (Ok (string_bytes output))) }
    ensures fault { IfErr result (IsLegsFault asked.now map.now) }
    ensures refused { ReportsRefusal (as_match asked.now) result }
{
    let accepted = accept_texts(asked.text, asked.at)?;
    legs_output(alloc, map, asked, &accepted)
}
