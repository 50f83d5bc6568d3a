//! What a page of matchings adds to the output, in a format, in detail or not: its text, or in
//! GeoJSON its features.

ghost use Rattle.std.specs.Prelude.{◌≡◌, All, IfOk, length, option_map, string_bytes};
ghost use Rattle.std.specs.List.{AllZip};
ghost use Rattle.olr_keys.specs.Matching.{IsKey};
ghost use Rattle.olr_keys.specs.Page.{page_of};
ghost use Rattle.olr_matching.specs.Matched.{IsMatchedBy};
ghost use Rattle.olr_detail.specs.Page.{CanBeShownInDetail};
ghost use Rattle.olr_binary.specs.Reference.{IsReference};
ghost use Rattle.olr_app.specs.inner.Added.{IsAddedFor};
ghost use Rattle.olr_app.specs.inner.PageOfParts.{AreFeaturesOfParts, IsJsonOfParts};
ghost use Rattle.olr_app.specs.inner.PageOfParts.{IsPageOfParts, IsTextOfParts};

use crate::drawing::drawing_for;
use olr_base::NoMemory;
use olr_candidates::ReferenceOnMap;
use olr_detail::{
    json_page_in_detail, matchings_can_be_detailed, push_page_features,
    push_page_features_in_detail, text_page_in_detail,
};
use olr_matching::{Mark, Matched, Page, Routes, matchings_are_sound};
use olr_report::{ShownMap, json_page_shown, sound_parts_can_be_shown, text_page};
use olr_request::{Extras, Format, MatchRequest};
use olr_road::sound;
use std::alloc::Global;

/// The parts of the matchings of a page.
fn matched_on_page(
    alloc: Global,
    routes: &mut Routes<'_>,
    page: &Page,
) -> Result<Vec<Matched>, NoMemory>
    requires { All (IsKey routes.old.layers.penalties) page.now.keys.items }
    ensures each { IfOk result (λ matched.
        AllZip (IsMatchedBy routes.old.road routes.old.layers) page.now.keys.items
        matched.items) }
    ensures one_each { IfOk result (λ matched.
        length matched.items ≡ length page.now.keys.items) }
    ensures shown { IfOk result (λ matched. All (CanBeShownInDetail routes.old.layers.tolerances
        routes.old.layers.reference routes.old.road) matched.items) }
    ensures same { routes.new ≡ routes.old }
{
    matchings_are_sound();
    sound_parts_can_be_shown();
    matchings_can_be_detailed();
    sound(routes.map());
    // Called for its clause: the layers are those of a reference on this map.
    let _layers = routes.layers();
    let matched = routes.matched(alloc, &page.keys)?;
    Ok(matched)
}

/// The features of the matchings of a page, each behind a comma, by the parts of these.
fn features_of_parts(
    alloc: Global,
    on: &ReferenceOnMap<'_>,
    page: &Page,
    matched: &[Matched],
    extras: &Extras,
) -> Result<String, NoMemory>
    requires reference { IsReference on.now.reference.now }
    requires one_each { length matched.now ≡ length page.now.keys.items }
    requires shown { All (CanBeShownInDetail on.now.tolerances on.now.reference.now
        on.now.map.now) matched.now }
    ensures { IfOk result (λ added.
        AreFeaturesOfParts extras.now.detail extras.now on.now.tolerances on.now.reference.now
        on.now.map.now (page_of page.now) matched.now (string_bytes added)) }
{
    let drawing = drawing_for(alloc, on.map, on.reference, extras);
    let mut added = String::new(alloc);
    if extras.detail {
        push_page_features_in_detail(&drawing, &on.tolerances, page, matched, &mut added)?;
    } else {
        push_page_features(&drawing, page, matched, &mut added)?;
    }
    Ok(added)
}

/// The text of a page, by the parts of its matchings.
fn text_of_parts(
    alloc: Global,
    on: &ReferenceOnMap<'_>,
    page: &Page,
    matched: &[Matched],
    mark: Option<&Mark>,
    detail: bool,
) -> Result<String, NoMemory>
    requires reference { IsReference on.now.reference.now }
    requires one_each { length matched.now ≡ length page.now.keys.items }
    requires shown { All (CanBeShownInDetail on.now.tolerances on.now.reference.now
        on.now.map.now) matched.now }
    ensures { let mark = option_map (λ mark. mark.now) mark.entry in IfOk result (λ text.
        IsTextOfParts detail on.now.tolerances on.now.reference.now on.now.map.now
        (page_of page.now) matched.now mark (string_bytes text)) }
{
    if detail {
        text_page_in_detail(alloc, on, page, matched, mark)
    } else {
        text_page(alloc, on.map, on.reference, page, matched, mark)
    }
}

/// The JSON of a page, by the parts of its matchings.
fn json_of_parts(
    alloc: Global,
    on: &ReferenceOnMap<'_>,
    page: &Page,
    matched: &[Matched],
    mark: Option<&Mark>,
    extras: &Extras,
) -> Result<String, NoMemory>
    requires reference { IsReference on.now.reference.now }
    requires one_each { length matched.now ≡ length page.now.keys.items }
    requires shown { All (CanBeShownInDetail on.now.tolerances on.now.reference.now
        on.now.map.now) matched.now }
    ensures { let mark = option_map (λ mark. mark.now) mark.entry in IfOk result (λ text.
        IsJsonOfParts extras.now.detail extras.now.shape on.now.tolerances on.now.reference.now
        on.now.map.now (page_of page.now) matched.now mark (string_bytes text)) }
{
    if extras.detail {
        return json_page_in_detail(alloc, on, page, matched, mark, extras.shape);
    }
    let shown = ShownMap::new(alloc, on.map, on.reference, extras.shape);
    json_page_shown(&shown, on.reference, page, matched, mark)
}

/// What a page adds to the output as it is asked for, by the parts of its matchings.
fn page_of_parts(
    alloc: Global,
    on: &ReferenceOnMap<'_>,
    page: &Page,
    matched: &[Matched],
    mark: Option<&Mark>,
    asked: &MatchRequest<'_>,
) -> Result<String, NoMemory>
    requires reference { IsReference on.now.reference.now }
    requires one_each { length matched.now ≡ length page.now.keys.items }
    requires shown { All (CanBeShownInDetail on.now.tolerances on.now.reference.now
        on.now.map.now) matched.now }
    ensures { let mark = option_map (λ mark. mark.now) mark.entry in IfOk result (λ added.
        IsPageOfParts asked.now.format asked.now.extras on.now.tolerances on.now.reference.now
        on.now.map.now (page_of page.now) matched.now mark (string_bytes added)) }
{
    let extras = &asked.extras;
    match asked.format {
        Format::Text => text_of_parts(alloc, on, page, matched, mark, extras.detail),
        Format::Json => json_of_parts(alloc, on, page, matched, mark, extras),
        Format::GeoJson => features_of_parts(alloc, on, page, matched, extras),
    }
}

/// What a page adds to the output as it is asked for, with a mark in the cursor at its end or
/// without one: its text, or in GeoJSON its features, each behind a comma.
pub(crate) fn added_for_page(
    alloc: Global,
    routes: &mut Routes<'_>,
    page: &Page,
    mark: Option<&Mark>,
    asked: &MatchRequest<'_>,
) -> Result<String, NoMemory>
    requires { All (IsKey routes.old.layers.penalties) page.now.keys.items }
    ensures added { let mark = option_map (λ mark. mark.now) mark.entry in IfOk result (λ added.
        IsAddedFor asked.now.format asked.now.extras routes.old.road routes.old.layers mark
        (page_of page.now) (string_bytes added)) }
    ensures same { routes.new ≡ routes.old }
{
    let matched = matched_on_page(alloc, routes, page)?;
    let layers = routes.layers();
    let on = ReferenceOnMap {
        map: routes.map(),
        reference: layers.reference(),
        tolerances: *layers.tolerances(),
    };
    let added = page_of_parts(alloc, &on, page, &matched, mark, asked)?;
    Ok(added)
}
