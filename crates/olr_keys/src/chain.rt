//! All pages of the keys of a finder, one after the other.

ghost use Rattle.std.specs.Prelude.{◌≡◌, IfOk, None, map, option_map};
ghost use Rattle.olr_keys.specs.Headline.{AreAllPages, Headline};
ghost use Rattle.olr_keys.specs.Page.{last_key_of, page_of};

use crate::finder::Finder;
use crate::key::Key;
use crate::page_size::PageSize;
use crate::pages::{Page, last_or};
use crate::paging::page_after;
use olr_base::NoMemory;
use std::alloc::Global;

/// The last key of the last page; `None` where it has none or there is no page.
#[tactic(auto, using(crate::proofs::Chains::last_key_found))]
fn last_key(pages: &[Page]) -> Option<&Key>
    ensures { option_map (λ key. key.now) result ≡ last_key_of None (map page_of pages.now) }
{
    let Some(page) = pages.last() else {
        return None;
    };
    last_or(&page.keys, None)
}

/// All pages of a size, each resumed at the last key of the one before. The list stays, whatever
/// the result.
///
/// Joined, they are exactly the keys of all matchings, each once, by the total and then by the
/// ranks. There is at least one page, and none after a page without more.
///
/// # Errors
///
/// [`NoMemory`] where the allocator refused memory.
#[tactic(auto, using(crate::proofs::Chains::chain_start, crate::proofs::Chains::continues))]
pub fn all_pages<F: Finder>(
    alloc: Global,
    finder: &mut F,
    size: PageSize,
) -> Result<Vec<Page>, NoMemory>
    ensures pages { IfOk result (λ pages.
        AreAllPages (F.answers finder.old) None size (map page_of pages.items)) }
    ensures headline { IfOk result (λ pages.
        Headline (F.answers finder.old) None size (map page_of pages.items)) }
    ensures same { F.answers finder.new ≡ F.answers finder.old }
{
    let count = size.keys();
    let mut pages = Vec::new(alloc);
    'pages: loop {
        let page = page_after(alloc, finder, last_key(&pages), count)?;
        let more = page.more;
        pages.push(page)?;
        if !more {
            return Ok(pages);
        }
    }
}
