//! The rank of a key among sorted items, without an index.

ghost use Rattle.std.specs.Prelude.{◌≡◌, ◌^◌, ◌<◌, length, map, slice_get, MatchOption, Some, Contains};
ghost use Rattle.std.specs.List.Sorted.{IsStrictlyIncreasing};

use crate::keyed::Keyed;

/// The rank of the item of a key among items by rising key, or `None` where no item has the key.
pub fn rank_of_key<T: Keyed>(items: &[T], key: u64) -> Option<u32>
    requires rise { IsStrictlyIncreasing (map T.key_of items.now) }
    requires at_most { length items.now < 2 ^ 32 }
    ensures { MatchOption result
        (Contains (map T.key_of items.now) key → ⊥)
        (λ rank. slice_get (map T.key_of items.now) rank ≡ Some key) }
{
    let Ok(rank) = items.binary_search_by_key(&key, |item| item.key()) else {
        return None;
    };
    Some(rank as u32)
}
