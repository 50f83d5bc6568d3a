//! Items by rising key, in buckets. Keys that differ only in their last bits, a fixed number of
//! them, are in one bucket.

ghost use Rattle.std.specs.Prelude.{◌≡◌, ℕ, ◌+◌, ◌/◌, ◌^◌, ◌<◌, ◌≤◌, ◌⊎◌, length, map, slice_get, slice_index, IfOk, IfSome, MatchOption, Some, Contains};
ghost use Rattle.std.specs.List.Sorted.{IsStrictlyIncreasing};
ghost use Rattle.olr_index.specs.inner.Buckets.{IsHead, AreHeads, IsIndex};

use crate::keyed::Keyed;
use olr_base::NoMemory;
use std::alloc::Global;

/// The bucket of a key.
pub(crate) fn bucket_of(key: u64, shift: u32) -> u64
    requires { shift < 64 }
    ensures { result ≡ key / 2 ^ shift }
{
    key >> shift
}

/// The first place from `place` on whose key is in this bucket or a later one.
fn pass(keys: &[u64], shift: u32, bucket: u64, place: usize) -> usize
    requires rise { IsStrictlyIncreasing keys.now }
    requires shift { shift < 64 }
    requires within { place ≤ length keys.now }
    requires before { (k : ℕ) → k < place → slice_index keys.now k / 2 ^ shift < bucket }
    ensures { IsHead shift keys.now bucket result }
{
    let mut next = place;
    while next < keys.len() {
        if bucket_of(keys[next], shift) >= bucket {
            return next;
        }
        next += 1;
    }
    next
}

/// Of each bucket up to this one, how many keys are in buckets before it.
pub(crate) fn heads_up_to(
    alloc: Global,
    keys: &[u64],
    shift: u32,
    last: u64,
) -> Result<Vec<u32>, NoMemory>
    requires rise { IsStrictlyIncreasing keys.now }
    requires shift { shift < 64 }
    requires at_most { length keys.now < 2 ^ 32 }
    requires last { last < 2 ^ 63 }
    ensures heads { IfOk result (λ heads. AreHeads shift keys.now heads.items) }
    ensures count { IfOk result (λ heads. length heads.items ≡ last + 1) }
{
    let mut heads = Vec::with_capacity(alloc, (last + 1) as usize)?;
    let mut place = 0;
    for bucket in 0..last + 1 {
        place = pass(keys, shift, bucket, place);
        heads.push(place as u32)?;
    }
    Ok(heads)
}

/// The greatest key, or 0 where there is none.
pub(crate) fn greatest(keys: &[u64]) -> u64
    requires rise { IsStrictlyIncreasing keys.now }
    ensures at_least { (k : ℕ) → k < length keys.now → slice_index keys.now k ≤ result }
    ensures found { (result ≡ 0) ⊎ Contains keys.now result }
{
    let Some(&greatest) = keys.last() else {
        return 0;
    };
    greatest
}

/// Where the keys of a bucket begin and where they end, or `None` where there is no such bucket.
pub(crate) fn bounds_of(heads: &[u32], bucket: u64) -> Option<(usize, usize)>
    ensures { MatchOption result
        (length heads.now ≤ bucket + 1)
        (λ bounds. (bucket + 1 < length heads.now)
        × (bounds.0 ≡ slice_index heads.now bucket)
        × (bounds.1 ≡ slice_index heads.now (bucket + 1))) }
{
    let buckets = heads.len().saturating_sub(1) as u64;
    if bucket >= buckets {
        return None;
    }
    let place = bucket as usize;
    Some((heads[place] as usize, heads[place + 1] as usize))
}

/// How many ranks an item with a lesser key than this one moves the guess of [`find_near`] on.
#[inline(always)]
fn is_less<T: Keyed>(item: &T, key: u64) -> usize
    ensures { result ≤ 1 }
{
    usize::from(item.key() < key)
}

/// The rank of the item of a key, where it is one of the four from `low` on and no lesser key is
/// among those behind it. It is guessed without a branch, so that the look-ups of several keys wait
/// for memory side by side; `None` says nothing.
#[inline(always)]
fn find_near<T: Keyed>(items: &[T], low: usize, key: u64) -> Option<u32>
    requires at_most { length items.now < 2 ^ 32 }
    requires low { low ≤ length items.now }
    ensures { IfSome result (λ rank. slice_get (map T.key_of items.now) rank ≡ Some key) }
{
    if items.len() - low < 4 {
        return None;
    }
    let place = low
        + is_less(&items[low], key)
        + is_less(&items[low + 1], key)
        + is_less(&items[low + 2], key);
    if items[place].key() != key {
        return None;
    }
    Some(place as u32)
}

/// The rank of the item of a key whose bucket lies from `low` to `high`.
fn find_between<T: Keyed>(items: &[T], shift: u32, low: usize, high: usize, key: u64) -> Option<u32>
    requires rise { IsStrictlyIncreasing (map T.key_of items.now) }
    requires at_most { length items.now < 2 ^ 32 }
    requires low { IsHead shift (map T.key_of items.now) (key / 2 ^ shift) low }
    requires high { IsHead shift (map T.key_of items.now) (key / 2 ^ shift + 1) high }
    ensures { MatchOption result
        (Contains (map T.key_of items.now) key → ⊥)
        (λ rank. slice_get (map T.key_of items.now) rank ≡ Some key) }
{
    let Ok(place) = items[low..high].binary_search_by_key(&key, |item| item.key()) else {
        return None;
    };
    Some((low + place) as u32)
}

/// The rank of the item of a key, or `None` where no item has the key.
#[inline(always)]
pub(crate) fn find_in<T: Keyed>(items: &[T], shift: u32, heads: &[u32], key: u64) -> Option<u32>
    requires { IsIndex (map T.key_of items.now) shift heads.now }
    ensures { MatchOption result
        (Contains (map T.key_of items.now) key → ⊥)
        (λ rank. slice_get (map T.key_of items.now) rank ≡ Some key) }
{
    let bucket = bucket_of(key, shift);
    let Some((low, high)) = bounds_of(heads, bucket) else {
        return None;
    };
    if let Some(rank) = find_near(items, low, key) {
        return Some(rank);
    }
    find_between(items, shift, low, high, key)
}
