//! Items by a pair of numbers, and the items of a first number at once.

ghost use Rattle.std.specs.Prelude.{◌≡◌, ◌^◌, ◌<◌, length, map, slice_get, IfOk, MatchOption, Some, Contains};
ghost use Rattle.std.specs.List.Sorted.{IsStrictlyIncreasing};
ghost use Rattle.olr_index.specs.Pairs.{AreOfFirst};

use crate::bucketing::{bounds_of, bucket_of, find_in, greatest, heads_up_to};
use crate::keyed::{Keyed, keys_of};
use olr_base::NoMemory;
use std::alloc::Global;
use std::marker::Model;

/// How many bits of a key the second number of a pair takes.
const SECOND: u32 = 32;

/// Items by rising key, where a key is a pair of numbers packed into one: the first foremost, and
/// the second in the last 32 bits.
///
/// It takes 4 bytes for each first number up to the greatest, whether or not an item has it.
/// Contracts see the list of the items.
#[derive(Drop)]
pub struct PairIndex<T: Keyed> {
    items: Vec<T>,
    /// Of each first number up to the greatest, and of the one behind it, how many items have a
    /// lesser one.
    heads: Vec<u32>,
}

impl<T: Keyed> Model for PairIndex<T> {
    ghost use Rattle.std.specs.Prelude.{List, map};

    ghost Value = { List T };

    ghost use Rattle.olr_index.specs.inner.Buckets.{IsIndex};

    ghost view = { λ index. index.items.items };

    ghost invariant = { λ index. IsIndex (map T.key_of index.items.items) 32 index.heads.items };
}

impl<T: Keyed> PairIndex<T> {
    /// The index of items whose keys rise, each less than the next; at most 2^32 - 1 of them.
    ///
    /// # Errors
    ///
    /// [`NoMemory`] where the allocator refused memory.
    #[tactic(auto, using(crate::proofs::Buckets::index_of))]
    pub fn new(alloc: Global, items: Vec<T>) -> Result<PairIndex<T>, NoMemory>
        requires rise { IsStrictlyIncreasing (map T.key_of items.items) }
        requires at_most { length items.items < 2 ^ 32 }
        ensures { IfOk result (λ index. index ≡ items.items) }
    {
        let keys = keys_of(alloc, &items)?;
        let last = greatest(&keys);
        let heads = heads_up_to(alloc, &keys, SECOND, bucket_of(last, SECOND) + 1)?;
        Ok(PairIndex { items, heads })
    }

    /// The items whose first number is this one, by rising key.
    pub fn of_first(&self, first: u32) -> &[T]
        ensures { AreOfFirst T.key_of self.now first result.now }
    {
        let Some((low, high)) = bounds_of(&self.heads, u64::from(first)) else {
            return &[];
        };
        &self.items[low..high]
    }

    /// The rank of the item of a key, or `None` where no item has the key.
    pub fn find(&self, key: u64) -> Option<u32>
        ensures { MatchOption result
            (Contains (map T.key_of self.now) key → ⊥)
            (λ rank. slice_get (map T.key_of self.now) rank ≡ Some key) }
    {
        find_in(&self.items, SECOND, &self.heads, key)
    }

    /// The items, by rank.
    pub fn items(&self) -> &[T]
        ensures { result.now ≡ self.now }
    {
        &self.items
    }
}
