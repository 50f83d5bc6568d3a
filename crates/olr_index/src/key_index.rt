//! Items by rising key, and the rank of a key among them.

ghost use Rattle.std.specs.Prelude.{◌≡◌, ◌/◌, ◌^◌, ◌<◌, length, map, slice_get, IfOk, MatchOption, Some, Contains};
ghost use Rattle.std.specs.List.Sorted.{IsStrictlyIncreasing};

use crate::bucketing::{bucket_of, find_in, greatest, heads_up_to};
use crate::keyed::{Keyed, keys_of};
use olr_base::NoMemory;
use std::alloc::Global;
use std::marker::Model;

/// How many buckets there may be.
const BUCKETS: u64 = 131_072;

/// Items by rising key, each named by its rank, which is the number of those with a lesser key.
///
/// The items whose keys have the same foremost bits are a bucket, so that a key is looked for in
/// its bucket alone. Contracts see the list of the items.
#[derive(Drop)]
pub struct KeyIndex<T: Keyed> {
    items: Vec<T>,
    /// How many of a key's last bits don't name its bucket.
    shift: u32,
    /// Of each bucket, and of the one behind the last, how many keys are in buckets before it.
    heads: Vec<u32>,
}

impl<T: Keyed> Model for KeyIndex<T> {
    ghost use Rattle.std.specs.Prelude.{List, map};

    ghost Value = { List T };

    ghost use Rattle.olr_index.specs.inner.Buckets.{IsIndex};

    ghost view = { λ index. index.items.items };

    ghost invariant = { λ index. IsIndex (map T.key_of index.items.items)
        index.shift index.heads.items };
}

/// How many of the last bits don't name a bucket, where `last` is the greatest key.
fn shift_for(last: u64) -> u32
    ensures small { result < 64 }
    ensures at_most { last / 2 ^ result < 131072 }
{
    for shift in 0..63 {
        if bucket_of(last, shift) < BUCKETS {
            return shift;
        }
    }
    63
}

impl<T: Keyed> KeyIndex<T> {
    /// The index of items whose keys rise, each less than the next; at most 2^32 - 1 of them.
    ///
    /// # Errors
    ///
    /// [`NoMemory`] where the allocator refused memory.
    #[tactic(auto, using(crate::proofs::Buckets::index_of))]
    pub fn new(alloc: Global, items: Vec<T>) -> Result<KeyIndex<T>, NoMemory>
        requires rise { IsStrictlyIncreasing (map T.key_of items.items) }
        requires at_most { length items.items < 2 ^ 32 }
        ensures { IfOk result (λ index. index ≡ items.items) }
    {
        let keys = keys_of(alloc, &items)?;
        let last = greatest(&keys);
        let shift = shift_for(last);
        let heads = heads_up_to(alloc, &keys, shift, bucket_of(last, shift) + 1)?;
        Ok(KeyIndex {
            items,
            shift,
            heads,
        })
    }

    /// The rank of the item of a key, or `None` where no item has the key.
    pub fn find(&self, key: u64) -> Option<u32>
        ensures { MatchOption result
            (Contains (map T.key_of self.now) key → ⊥)
            (λ rank. slice_get (map T.key_of self.now) rank ≡ Some key) }
    {
        find_in(&self.items, self.shift, &self.heads, key)
    }

    /// The items, by rank.
    pub fn items(&self) -> &[T]
        ensures { result.now ≡ self.now }
    {
        &self.items
    }

    /// The items, without the index.
    pub fn into_items(self) -> Vec<T>
        ensures { result.items ≡ self }
    {
        self.items
    }
}
