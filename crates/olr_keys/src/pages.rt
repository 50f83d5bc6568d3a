//! Pages of keys, and why there is none.

ghost use Rattle.std.specs.Prelude.{◌≡◌, option_map};
ghost use Rattle.olr_keys.specs.Page.{last_of};
ghost use Rattle.olr_keys.specs.declared.pages.PageFault.TheVariants as fault;

use crate::key::Key;
use olr_base::NoMemory;
use thiserror::Error;

/// A page: some keys in order, and whether more follow.
#[derive(Drop)]
pub struct Page {
    /// The keys of this page, at most as many as the page size.
    pub keys: Vec<Key>,
    /// Whether further keys follow.
    pub more: bool,
}

/// Why there is no page.
#[derive(Clone, Copy, Debug, PartialEq, Eq, Error)]
pub enum PageFault {
    /// The cursor's key isn't the key of a matching.
    #[error("the cursor isn't here")]
    CursorNotHere,
    /// The allocator refused memory.
    #[error("no memory is left")]
    NoMemory,
}

impl From<NoMemory> for PageFault {
    ghost from_gives = { λ _ given. given ≡ fault.NoMemory };

    fn from(_error: NoMemory) -> PageFault {
        PageFault::NoMemory
    }
}

/// The last one of these keys, or the position before them where there is none.
#[tactic(auto, using(crate::proofs::PageLists::last_found))]
pub(crate) fn last_or<'a>(keys: &'a [Key], before: Option<&'a Key>) -> Option<&'a Key>
    ensures { option_map (λ key. key.now) result
        ≡ last_of (option_map (λ key. key.now) before.entry) keys.now }
{
    let Some(key) = keys.last() else {
        return before;
    };
    Some(key)
}
