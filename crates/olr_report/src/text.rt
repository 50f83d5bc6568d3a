//! The text of a page of matchings.

ghost use Rattle.std.specs.Prelude.{◌≡◌, length, string_bytes, option_map, All, IfOk};
ghost use Rattle.olr_binary.specs.Reference.{IsReference};
ghost use Rattle.olr_keys.specs.Page.{page_of};
ghost use Rattle.olr_report.specs.Entries.{CanBeShown};
ghost use Rattle.olr_report.specs.Text.{IsPageText, next_after};

use crate::on_map::OnMap;
use crate::page_entries::entries;
use crate::text_rows::push_end;
use olr_base::NoMemory;
use olr_binary::Reference;
use olr_keys::{Key, Mark, Page};
use olr_matching::Matched;
use olr_road::Map;
use olr_text::push_texts;
use std::alloc::Global;

/// The key after which the next page begins: the last one of the page, where more remain.
pub fn next_after(page: &Page) -> Option<&Key>
    ensures { option_map (λ key. key.now) result ≡ next_after (page_of page.now) }
{
    if page.more { page.keys.last() } else { None }
}

/// The text of a page: for each matching its key, the candidate of each point, each leg, the joined
/// route and the location; and a last row, `more` and the cursor after which the next page begins,
/// or `end`. Lines are shown by their ids, positions and lengths in decimetres.
///
/// The cursor in the last row has the mark, where there is one: it is then of version 2, else of
/// version 1. The text of a page after which no more follow has no mark. A page without keys ends
/// with `end`.
///
/// There has to be one [`Matched`] for each key of the page, in order: its legs lie between the
/// points of the reference, as [`location`](crate::location) needs them, and its lines are on the
/// map.
///
/// # Errors
///
/// [`NoMemory`] where the allocator refused memory.
pub fn text_page(
    alloc: Global,
    map: &Map,
    reference: &Reference,
    page: &Page,
    matched: &[Matched],
    mark: Option<&Mark>,
) -> Result<String, NoMemory>
    requires reference { IsReference reference.now }
    requires one_each { length matched.now ≡ length page.now.keys.items }
    requires shown { All (CanBeShown map.now reference.now) matched.now }
    ensures { let page = page_of page.now in let mark = option_map (λ mark. mark.now) mark.entry in
        IfOk result (λ text.
        IsPageText map.now reference.now page matched.now mark (string_bytes text)) }
{
    let list = entries(alloc, reference, page, matched)?;
    let mut text = String::new(alloc);
    push_texts(&list, &OnMap { map }, &mut text)?;
    push_end(&mut text, next_after(page), mark)?;
    Ok(text)
}
