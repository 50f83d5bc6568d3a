//! Items by rising key.

ghost use Rattle.std.specs.Prelude.{IfOk, IsPermutation, MatchOption, map};
ghost use Rattle.std.specs.List.Sorted.{IsStrictlyIncreasing};
ghost use Rattle.olr_index.specs.Repeats.{AllDiffer, IsFirstRepeat, Sorts};

use crate::keyed::{Keyed, keys_of, rises};
use crate::repeats::first_repeat;
use olr_base::NoMemory;
use std::alloc::Global;

/// Sorts items by key. Their keys rise then, unless one occurs twice.
fn sort<T: Keyed>(items: &mut Vec<T>)
    ensures same { IsPermutation items.old.items items.new.items }
    ensures rise { AllDiffer (map T.key_of items.old.items)
        → IsStrictlyIncreasing (map T.key_of items.new.items) }
{
    items.sort_unstable_by_key(|item| item.key());
}

/// Sorts items by rising key. Where a key occurs twice they can't rise; the answer is then the
/// place, in the order in which they came, of the first item whose key an earlier one has.
///
/// # Errors
///
/// [`NoMemory`] where the allocator refused memory. The items may be in another order then.
#[tactic(auto, using(crate::proofs::Permuted::sorts_or_first))]
pub fn sort_or_repeat<T: Keyed>(
    alloc: Global,
    items: &mut Vec<T>,
) -> Result<Option<usize>, NoMemory>
    ensures same { IsPermutation items.old.items items.new.items }
    ensures sorted { IfOk result (λ repeat. MatchOption repeat
        (Sorts T.key_of items.old.items items.new.items)
        (IsFirstRepeat (map T.key_of items.old.items))) }
{
    if rises(items) {
        return Ok(None);
    }
    // The sort loses the order in which a repeat is looked for.
    let keys = keys_of(alloc, items)?;
    sort(items);
    if rises(items) {
        return Ok(None);
    }
    let repeat = first_repeat(alloc, &keys)?;
    Ok(repeat)
}
