//! A page of matchings with what speaks for each of them.

ghost use Rattle.std.specs.Prelude.{◌≡◌, codes, length, map, option_map, string_bytes, All, IfOk};
ghost use Rattle.serde_json.specs.Data.{member, no_members, object, string};
ghost use Rattle.olr_text.specs.JsonValues.{array_of, or_null};
ghost use Rattle.olr_text.specs.Texts.{unnumbered};
ghost use Rattle.olr_keys.specs.Page.{page_of};
ghost use Rattle.olr_report.specs.ShownMap.{map_shown};
ghost use Rattle.olr_detail.specs.Json.{detailed_object};
ghost use Rattle.olr_detail.specs.Page.{AreDetailed, CanBeShownInDetail, IsDetailedEntry, IsPageJson, IsPageText, detailed_of};
ghost use Rattle.olr_detail.specs.Text.{detailed_rows};

use crate::json::ShownInDetail;
use crate::matching_detail::{MatchingDetail, detail_of_matching};
use crate::text::{push_detail, push_likely};
use arrayvec::ArrayString;
use olr_base::NoMemory;
use olr_candidates::ReferenceOnMap;
use olr_keys::{Cursor, Key, Mark, Page};
use olr_matching::Matched;
use olr_report::{
    Entry, OnMap, ShownMap, entry_of, next_after, next_cursor, push_end, push_location, push_pieces,
};
use olr_text::{ToJson, ToText, push_texts, send_object, to_json_line};
use serde::Serializer;
use std::alloc::Global;
use std::fmt::Write;

/// A matching as a page shows it, with what speaks for it.
#[derive(Drop)]
pub(crate) struct DetailedEntry<'a> {
    pub entry: Entry<'a>,
    pub detail: MatchingDetail,
}

/// The object of the matching.
impl ToJson<ShownMap<'_>> for DetailedEntry<'_> {
    ghost value = { λ on one. detailed_object (map_shown on) (detailed_of one) };

    fn send<S: Serializer>(&self, on: &ShownMap<'_>, out: &mut S) -> Result<(), S::Error> {
        let shown = ShownInDetail {
            key: self.entry.key,
            matched: self.entry.matched,
            route: &self.entry.route,
            location: &self.entry.location,
            detail: &self.detail,
            part: None,
        };
        shown.send(on, out)
    }
}

/// The rows of the matching: its key with its likely cost, its points and legs, its joined route and
/// its location.
impl ToText<OnMap<'_>> for DetailedEntry<'_> {
    ghost text = { λ on. unnumbered (λ one. detailed_rows on.map.now (detailed_of one)) };

    fn push(&self, on: &OnMap<'_>, _: usize, out: &mut String) -> Result<(), NoMemory> {
        let entry = &self.entry;
        write!(out, "matching {}", Cursor::write(entry.key, None))?;
        push_likely(out, &self.detail.likely)?;
        out.push('\n')?;
        push_detail(out, on, &self.detail)?;
        push_pieces(out, on, "route", &entry.route)?;
        push_location(out, on, &entry.location)?;
        Ok(())
    }
}

/// A page as it is written: its matchings, and the cursor after which the next page begins.
#[derive(Drop)]
struct DetailedPage<'a> {
    matchings: Vec<DetailedEntry<'a>>,
    next: Option<ArrayString<166>>,
}

/// The object of a page.
impl ToJson<ShownMap<'_>> for DetailedPage<'_> {
    ghost value = { λ on page. object (
        member (codes "matchings")
        (array_of (λ one. detailed_object (map_shown on) (detailed_of one)) page.matchings.items) (
        member (codes "next") (or_null (λ next. string next.bytes) page.next) no_members)) };

    fn send<S: Serializer>(&self, on: &ShownMap<'_>, out: &mut S) -> Result<(), S::Error> {
        send_object!(on, out, { "matchings": self.matchings, "next": self.next })
    }
}

/// The matching of a key with these parts, and what speaks for it.
fn detailed_entry<'a>(
    alloc: Global,
    on: &ReferenceOnMap<'_>,
    key: &'a Key,
    matched: &'a Matched,
) -> Result<DetailedEntry<'a>, NoMemory>
    requires { CanBeShownInDetail on.now.tolerances on.now.reference.now on.now.map.now
        matched.now }
    ensures { IfOk result (λ one. IsDetailedEntry on.now.tolerances on.now.reference.now
        on.now.map.now key.now matched.now (detailed_of one)) }
{
    let entry = entry_of(alloc, on.reference, key, matched)?;
    let detail = detail_of_matching(alloc, on, matched, &entry.route)?;
    Ok(DetailedEntry { entry, detail })
}

/// The matchings of a page, and what speaks for each.
pub(crate) fn detailed_entries<'a>(
    alloc: Global,
    on: &ReferenceOnMap<'_>,
    page: &'a Page,
    matched: &'a [Matched],
) -> Result<Vec<DetailedEntry<'a>>, NoMemory>
    requires one_each { length matched.now ≡ length page.now.keys.items }
    requires shown { All (CanBeShownInDetail on.now.tolerances on.now.reference.now
        on.now.map.now) matched.now }
    ensures { IfOk result (λ all. AreDetailed on.now.tolerances on.now.reference.now
        on.now.map.now (page_of page.now) matched.now (map detailed_of all.items)) }
{
    let mut all = Vec::with_capacity(alloc, page.keys.len())?;
    for (key, matched) in page.keys.iter().zip(matched) {
        let one = detailed_entry(alloc, on, key, matched)?;
        all.push(one)?;
    }
    Ok(all)
}

/// The JSON of a page as [`olr_report::json_page`] makes it, with what speaks for each matching: its
/// `cost` and whether it `turns_back`; for each of its points the `parts` of the penalty, `distance`,
/// `sectors`, `classes`, `form` and `end`; for each of its legs `least`, `greatest` and `limit`. Where
/// `shapes` are asked for, it has its `shape`, and each of its points its `spot`.
///
/// # Errors
///
/// [`NoMemory`] where the allocator refused memory.
pub fn json_page_in_detail(
    alloc: Global,
    on: &ReferenceOnMap<'_>,
    page: &Page,
    matched: &[Matched],
    mark: Option<&Mark>,
    shapes: bool,
) -> Result<String, NoMemory>
    requires one_each { length matched.now ≡ length page.now.keys.items }
    requires shown { All (CanBeShownInDetail on.now.tolerances on.now.reference.now
        on.now.map.now) matched.now }
    ensures { let mark = option_map (λ mark. mark.now) mark.entry in IfOk result (λ text.
        IsPageJson on.now.tolerances on.now.reference.now on.now.map.now shapes
        (page_of page.now) matched.now mark (string_bytes text)) }
{
    let matchings = detailed_entries(alloc, on, page, matched)?;
    let next = next_cursor(next_after(page), mark);
    let shown = ShownMap::new(alloc, on.map, on.reference, shapes);
    let line = to_json_line(alloc, &shown, &DetailedPage { matchings, next })?;
    Ok(line)
}

/// The text of a page as [`olr_report::text_page`] makes it, with what speaks for each matching:
/// behind its key its likely cost and whether it turns back, behind the penalty of a candidate its
/// parts, behind that of a leg the distance interval of its path and its class limit.
///
/// # Errors
///
/// [`NoMemory`] where the allocator refused memory.
pub fn text_page_in_detail(
    alloc: Global,
    on: &ReferenceOnMap<'_>,
    page: &Page,
    matched: &[Matched],
    mark: Option<&Mark>,
) -> Result<String, NoMemory>
    requires one_each { length matched.now ≡ length page.now.keys.items }
    requires shown { All (CanBeShownInDetail on.now.tolerances on.now.reference.now
        on.now.map.now) matched.now }
    ensures { let mark = option_map (λ mark. mark.now) mark.entry in IfOk result (λ text.
        IsPageText on.now.tolerances on.now.reference.now on.now.map.now (page_of page.now)
        matched.now mark (string_bytes text)) }
{
    let all = detailed_entries(alloc, on, page, matched)?;
    let mut text = String::new(alloc);
    push_texts(&all, &OnMap { map: on.map }, &mut text)?;
    push_end(&mut text, next_after(page), mark)?;
    Ok(text)
}
