//! Values that have a key, by which they are sorted and found.

ghost use Rattle.std.specs.Prelude.{◌≡◌, ℕ, ◌↔◌, map, IfOk, IsTrue};
ghost use Rattle.std.specs.List.Sorted.{IsStrictlyIncreasing};

use olr_base::NoMemory;
use std::alloc::Global;

/// A value that has a key.
///
/// A pair of numbers, too, can be a key: packed into one number, the first of them foremost.
pub trait Keyed: Drop {
    // The key.
    ghost key_of: { Self → ℕ };

    /// The key.
    fn key(&self) -> u64
        ensures { result ≡ key_of self.now };
}

/// The keys of items, in their order.
///
/// # Errors
///
/// [`NoMemory`] where the allocator refused memory.
#[tactic(auto, using(std::proofs::lemmas::List::map_more))]
pub fn keys_of<T: Keyed>(alloc: Global, items: &[T]) -> Result<Vec<u64>, NoMemory>
    ensures { IfOk result (λ keys. keys.items ≡ map T.key_of items.now) }
{
    let mut keys = Vec::with_capacity(alloc, items.len())?;
    for item in items {
        keys.push(item.key())?;
    }
    Ok(keys)
}

/// Whether the keys of items rise, each less than the next.
pub fn rises<T: Keyed>(items: &[T]) -> bool
    ensures { IsTrue result ↔ IsStrictlyIncreasing (map T.key_of items.now) }
{
    items.is_sorted_by(|item, next| item.key() < next.key())
}
