//! One page of the keys of a finder.

ghost use Rattle.std.specs.Prelude.{◌≡◌, ◌↔◌, Err, IfOk, option_map};
ghost use Rattle.olr_keys.specs.Finder.{IsPosition};
ghost use Rattle.olr_keys.specs.Page.{IsPageAfter, page_of};
ghost use Rattle.olr_keys.specs.declared.pages.PageFault.TheVariants as fault;

use crate::finder::Finder;
use crate::key::Key;
use crate::page_size::PageSize;
use crate::pages::{Page, PageFault, last_or};
use olr_base::NoMemory;
use std::alloc::Global;

/// The page of so many keys after a key of the list, or the first page. The list stays, whatever
/// the result.
#[tactic(auto, using(crate::proofs::PageLists::first_none))]
pub(crate) fn page_after<F: Finder>(
    alloc: Global,
    finder: &mut F,
    after: Option<&Key>,
    count: u32,
) -> Result<Page, NoMemory>
    requires { IsPosition (F.answers finder.old) (option_map (λ key. key.now) after) }
    ensures page { IfOk result (λ page. IsPageAfter (F.answers finder.old)
        (option_map (λ key. key.now) after.entry) count (page_of page)) }
    ensures same { F.answers finder.new ≡ F.answers finder.old }
{
    let mut keys = Vec::new(alloc);
    for _taken in 0..count {
        let Some(key) = finder.next(alloc, last_or(&keys, after))? else {
            return Ok(Page { keys, more: false });
        };
        keys.push(key)?;
    }
    let more = finder.next(alloc, last_or(&keys, after))?.is_some();
    Ok(Page { keys, more })
}

/// The page of a size after a key of the list, or the first page: the next keys, at most as many as
/// the size, and whether further ones follow. The list stays, whatever the result.
///
/// # Errors
///
/// [`PageFault::CursorNotHere`] exactly where `after` isn't in the list; [`PageFault::NoMemory`]
/// where the allocator refused memory.
pub fn page<F: Finder>(
    alloc: Global,
    finder: &mut F,
    after: Option<&Key>,
    size: PageSize,
) -> Result<Page, PageFault>
    ensures page { IfOk result (λ page. IsPageAfter (F.answers finder.old)
        (option_map (λ key. key.now) after.entry) size (page_of page)) }
    ensures not_here { (result ≡ Err fault.CursorNotHere)
        ↔ (IsPosition (F.answers finder.old) (option_map (λ key. key.now) after.entry) → ⊥) }
    ensures same { F.answers finder.new ≡ F.answers finder.old }
{
    if let Some(key) = after {
        if !finder.check(key) {
            return Err(PageFault::CursorNotHere);
        }
    }
    Ok(page_after(alloc, finder, after, size.keys())?)
}
