//! The matchings of a page as features of GeoJSON.

ghost use Rattle.std.specs.Prelude.{◌≡◌, ◌++◌, All, IfOk, List, [], OnOk, codes, length, option_map, string_bytes};
ghost use Rattle.olr_binary.specs.Reference.{IsReference};
ghost use Rattle.olr_geojson.specs.Collection.{collection_text};
ghost use Rattle.olr_geojson.specs.Feature.{Feature, feature_text};
ghost use Rattle.olr_geojson.specs.Joined.{behind_commas};
ghost use Rattle.olr_keys.specs.Page.{page_of};
ghost use Rattle.olr_report.specs.Entries.{CanBeShown, entry_of};
ghost use Rattle.olr_report.specs.ShownMap.{map_shown};
ghost use Rattle.olr_text.specs.Texts.{unnumbered};
ghost use Rattle.olr_detail.specs.GeoJson.{AddsDetailed, AddsEntries, detailed_feature, entry_feature, page_members};
ghost use Rattle.olr_detail.specs.inner.Members.{members_object};
ghost use Rattle.olr_detail.specs.Page.{CanBeShownInDetail, detailed_of};

use crate::collecting::collected;
use crate::drawing::{Drawing, push_drawn};
use crate::json::ShownInDetail;
use crate::page::{DetailedEntry, detailed_entries};
use arrayvec::ArrayString;
use olr_base::NoMemory;
use olr_candidates::{ReferenceOnMap, Tolerances};
use olr_keys::{Key, Mark, Page};
use olr_matching::Matched;
use olr_report::{Entry, ShownMatching, entries, first_length, next_cursor};
use olr_text::{ToJson, ToText, push_texts, send_object};
use serde::Serializer;
use std::alloc::Global;

/// The feature of a matching, behind a comma.
impl ToText<Drawing<'_>> for Entry<'_> {
    ghost text = { λ drawing. unnumbered (λ entry. codes "," ++ feature_text (entry_feature
        (map_shown drawing.on) drawing.reference.now drawing.part (entry_of entry))) };

    fn push(&self, drawing: &Drawing<'_>, _: usize, out: &mut String) -> Result<(), NoMemory> {
        let matched = self.matched;
        let shown = ShownMatching {
            key: self.key,
            matched,
            route: &self.route,
            location: &self.location,
            part: drawing.part_named(),
        };
        let length = first_length(&matched.legs);
        push_drawn(drawing, length, &self.route, &self.location, &shown, out)
    }
}

/// The feature of a matching with what speaks for it, behind a comma.
impl ToText<Drawing<'_>> for DetailedEntry<'_> {
    ghost text = { λ drawing. unnumbered (λ one. codes "," ++ feature_text (detailed_feature
        (map_shown drawing.on) drawing.reference.now drawing.part (detailed_of one))) };

    fn push(&self, drawing: &Drawing<'_>, _: usize, out: &mut String) -> Result<(), NoMemory> {
        let entry = &self.entry;
        let matched = entry.matched;
        let shown = ShownInDetail {
            key: entry.key,
            matched,
            route: &entry.route,
            location: &entry.location,
            detail: &self.detail,
            part: drawing.part_named(),
        };
        let length = first_length(&matched.legs);
        push_drawn(drawing, length, &entry.route, &entry.location, &shown, out)
    }
}

/// Adds the features of the matchings of a page, each behind a comma. There has to be one
/// [`Matched`] for each key of the page, as [`olr_report::json_page`] needs them.
///
/// # Errors
///
/// [`NoMemory`] where the allocator refused memory.
pub fn push_page_features(
    drawing: &Drawing<'_>,
    page: &Page,
    matched: &[Matched],
    out: &mut String,
) -> Result<(), NoMemory>
    requires reference { IsReference drawing.now.reference.now }
    requires one_each { length matched.now ≡ length page.now.keys.items }
    requires shown { All (CanBeShown drawing.now.on.map.now drawing.now.reference.now)
        matched.now }
    ensures { OnOk result (AddsEntries (map_shown drawing.now.on) drawing.now.reference.now
        drawing.now.part (page_of page.now) matched.now (string_bytes out.old)
        (string_bytes out.new)) }
{
    let all = entries(drawing.on.alloc, drawing.reference, page, matched)?;
    push_texts(&all, drawing, out)?;
    Ok(())
}

/// Adds the features of the matchings of a page with what speaks for each, by the tolerances that it
/// was matched by; else as [`push_page_features`].
///
/// # Errors
///
/// [`NoMemory`] where the allocator refused memory.
pub fn push_page_features_in_detail(
    drawing: &Drawing<'_>,
    tolerances: &Tolerances,
    page: &Page,
    matched: &[Matched],
    out: &mut String,
) -> Result<(), NoMemory>
    requires reference { IsReference drawing.now.reference.now }
    requires one_each { length matched.now ≡ length page.now.keys.items }
    requires shown { All (CanBeShownInDetail tolerances.now drawing.now.reference.now
        drawing.now.on.map.now) matched.now }
    ensures { OnOk result (AddsDetailed (map_shown drawing.now.on) drawing.now.reference.now
        drawing.now.part tolerances.now (page_of page.now) matched.now (string_bytes out.old)
        (string_bytes out.new)) }
{
    let on = ReferenceOnMap {
        map: drawing.on.map,
        reference: drawing.reference,
        tolerances: *tolerances,
    };
    let all = detailed_entries(drawing.on.alloc, &on, page, matched)?;
    push_texts(&all, drawing, out)?;
    Ok(())
}

/// What a collection of matchings says behind its features: the cursor after which further ones
/// follow.
#[derive(Drop)]
struct PageMembers {
    next: Option<ArrayString<166>>,
}

/// The object of the members.
impl ToJson<()> for PageMembers {
    ghost value = { λ _ page. members_object page.next };

    fn send<S: Serializer>(&self, on: &(), out: &mut S) -> Result<(), S::Error> {
        send_object!(on, out, { "next": self.next, "type": "FeatureCollection" })
    }
}

/// The line of a collection of the matchings of pages: their features, which
/// [`push_page_features`] added to an empty text, and the cursor after which further ones follow,
/// with a mark or without one.
///
/// # Errors
///
/// [`NoMemory`] where the allocator refused memory.
pub fn page_collection(
    alloc: Global,
    features: &str,
    next: Option<&Key>,
    mark: Option<&Mark>,
) -> Result<String, NoMemory>
    ensures { let mark = option_map (λ mark. mark.now) mark.entry in
        let next = option_map (λ key. key.now) next.entry in
        IfOk result (λ text. (all : List Feature)
        → features.now ≡ behind_commas feature_text all
        → string_bytes text ≡ collection_text [] all (page_members next mark)) }
{
    let members = PageMembers {
        next: next_cursor(next, mark),
    };
    let text = collected(alloc, features, &members)?;
    Ok(text)
}
