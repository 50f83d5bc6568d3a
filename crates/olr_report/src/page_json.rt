//! The JSON of a page of matchings.

ghost use Rattle.std.specs.Prelude.{◌≡◌, codes, length, option_map, string_bytes, All, IfOk};
ghost use Rattle.serde_json.specs.Data.{member, no_members, object, string};
ghost use Rattle.olr_text.specs.JsonValues.{array_of, or_null};
ghost use Rattle.olr_binary.specs.Reference.{IsReference};
ghost use Rattle.olr_keys.specs.Cursor.{cursor_text};
ghost use Rattle.olr_keys.specs.Page.{page_of};
ghost use Rattle.olr_report.specs.Entries.{entry_of, CanBeShown};
ghost use Rattle.olr_report.specs.Json.{entry_object, IsPageJson};
ghost use Rattle.olr_report.specs.ShownMap.{map_shown, without_shapes};

use crate::page_entries::{Entry, entries};
use crate::shown_map::ShownMap;
use crate::text::next_after;
use arrayvec::ArrayString;
use olr_base::NoMemory;
use olr_binary::Reference;
use olr_keys::{Cursor, Key, Mark, Page};
use olr_matching::Matched;
use olr_road::Map;
use olr_text::{ToJson, send_object, to_json_line};
use serde::Serializer;
use std::alloc::Global;

/// A page as it is written: its matchings, and the cursor after which the next page begins.
#[derive(Drop)]
struct PageEntries<'a> {
    matchings: Vec<Entry<'a>>,
    next: Option<ArrayString<166>>,
}

/// The object of a page.
impl ToJson<ShownMap<'_>> for PageEntries<'_> {
    ghost value = { λ on page. object (
        member (codes "matchings")
        (array_of (λ entry. entry_object (map_shown on) (entry_of entry)) page.matchings.items) (
        member (codes "next") (or_null (λ next. string next.bytes) page.next) no_members)) };

    fn send<S: Serializer>(&self, on: &ShownMap<'_>, out: &mut S) -> Result<(), S::Error> {
        send_object!(on, out, { "matchings": self.matchings, "next": self.next })
    }
}

/// The cursor after which further matchings follow, with this mark or without one; none where there
/// are no more.
pub fn next_cursor(last: Option<&Key>, mark: Option<&Mark>) -> Option<ArrayString<166>>
    ensures { option_map (λ next. next.bytes) result
        ≡ option_map (λ key. cursor_text key.now (option_map (λ mark. mark.now) mark.entry))
        last.entry }
{
    let Some(last) = last else {
        return None;
    };
    Some(Cursor::write(last, mark))
}

/// The JSON of a page on a map, as [`json_page`] makes it, and with shapes where these are asked
/// for: a matching then has its `shape`, and each of its points its `spot`.
///
/// # Errors
///
/// [`NoMemory`] where the allocator refused memory.
pub fn json_page_shown(
    on: &ShownMap<'_>,
    reference: &Reference,
    page: &Page,
    matched: &[Matched],
    mark: Option<&Mark>,
) -> Result<String, NoMemory>
    requires reference { IsReference reference.now }
    requires one_each { length matched.now ≡ length page.now.keys.items }
    requires shown { All (CanBeShown on.now.map.now reference.now) matched.now }
    ensures { let page = page_of page.now in let mark = option_map (λ mark. mark.now) mark.entry in
        IfOk result (λ text.
        IsPageJson (map_shown on.now) reference.now page matched.now mark (string_bytes text)) }
{
    let matchings = entries(on.alloc, reference, page, matched)?;
    let next = next_cursor(next_after(page), mark);
    let line = to_json_line(on.alloc, on, &PageEntries { matchings, next })?;
    Ok(line)
}

/// The JSON of a page: one compact object and a line feed, with the members of each object in the
/// order of their names. The page has `matchings`, and as `next` the cursor after which the next
/// page begins, or null. A matching has its `cursor`, its `total`, the `points` with their
/// candidates, the `legs`, the joined `route`, and its location: `outer` and `inner` of a line,
/// which may be null, or `earliest` and `latest` of a point along a line. A piece is an array of
/// an id and two positions, `[id, from, to]`, and a place is `[id, at]`. Lines are shown by their
/// ids, positions and lengths in decimetres.
///
/// The cursor in `next` has the mark, where there is one: it is then of version 2, else of version
/// 1. The JSON of a page after which no more follow has no mark.
///
/// There has to be one [`Matched`] for each key of the page, in order: its legs lie between the
/// points of the reference, as [`location`](crate::location) needs them, and its lines are on the
/// map.
///
/// # Errors
///
/// [`NoMemory`] where the allocator refused memory.
pub fn json_page(
    alloc: Global,
    map: &Map,
    reference: &Reference,
    page: &Page,
    matched: &[Matched],
    mark: Option<&Mark>,
) -> Result<String, NoMemory>
    requires reference { IsReference reference.now }
    requires one_each { length matched.now ≡ length page.now.keys.items }
    requires shown { All (CanBeShown map.now reference.now) matched.now }
    ensures { let page = page_of page.now in let mark = option_map (λ mark. mark.now) mark.entry in
        IfOk result (λ text.
        IsPageJson (without_shapes map.now) reference.now page matched.now mark
        (string_bytes text)) }
{
    let on = ShownMap {
        alloc,
        map,
        shapes_of: None,
    };
    json_page_shown(&on, reference, page, matched, mark)
}
