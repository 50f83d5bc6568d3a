//! Numbers that occur twice.

ghost use Rattle.std.specs.Prelude.{◌↔◌, IfOk, IsTrue, MatchOption};
ghost use Rattle.std.specs.BTreeSet.{IsEmpty};
ghost use Rattle.std.specs.List.Sorted.{IsStrictlyIncreasing};
ghost use Rattle.olr_index.specs.Repeats.{AllDiffer};
ghost use Rattle.olr_index.specs.Repeats.{IsFirstRepeat};

use olr_base::NoMemory;
use std::alloc::Global;
use std::collections::BTreeSet;

/// Whether each number is less than the next.
fn rises(numbers: &[u64]) -> bool
    ensures { IsTrue result ↔ IsStrictlyIncreasing numbers.now }
{
    numbers.is_sorted_by(|number, next| number < next)
}

/// Whether no number occurs twice.
fn all_differ(alloc: Global, numbers: &[u64]) -> Result<bool, NoMemory>
    ensures { IfOk result (λ differ. IsTrue differ ↔ AllDiffer numbers.now) }
{
    let mut sorted = Vec::from_slice(alloc, numbers)?;
    sorted.sort_unstable();
    Ok(rises(&sorted))
}

/// Adds numbers to a set, up to the first that the set has already, and answers that one's place.
#[tactic(auto, using(crate::proofs::Known::nothing_known))]
fn first_known(numbers: &[u64], known: &mut BTreeSet<u64>) -> Result<Option<usize>, NoMemory>
    requires { IsEmpty known.old }
    ensures { IfOk result (λ found. MatchOption found
        (AllDiffer numbers.now)
        (IsFirstRepeat numbers.now)) }
{
    for (place, number) in numbers.iter().enumerate() {
        let is_new = known.insert(*number)?;
        if !is_new {
            return Ok(Some(place));
        }
    }
    Ok(None)
}

/// The place of the first number that an earlier one equals, if there is one.
///
/// # Errors
///
/// [`NoMemory`] where the allocator refused the memory for it.
#[tactic(auto, using(crate::proofs::Permuted::rising_differ))]
pub fn first_repeat(alloc: Global, numbers: &[u64]) -> Result<Option<usize>, NoMemory>
    ensures { IfOk result (λ found. MatchOption found
        (AllDiffer numbers.now)
        (IsFirstRepeat numbers.now)) }
{
    // Mostly no number occurs twice. Where the numbers rise that is seen at once, and else a sort
    // shows it faster than a set.
    if rises(numbers) {
        return Ok(None);
    }
    if all_differ(alloc, numbers)? {
        return Ok(None);
    }
    let mut known = BTreeSet::new(alloc);
    let found = first_known(numbers, &mut known)?;
    Ok(found)
}
