//! The least class under which a leg would be markedly shorter. Lengths are in decimetres.

ghost use Rattle.std.specs.Prelude.{◌*◌, ◌^◌, ◌<◌, ◌≤◌, ◌↔◌, ℕ, IfOk};
ghost use Rattle.olr_road.specs.Place.{IsDeparture, IsPlace};
ghost use Rattle.olr_route.specs.Least.{IsLengthWithin};
ghost use Rattle.olr_legs.specs.Shorter.{IsFirstShorter};

use olr_base::NoMemory;
use olr_road::{Map, Place};
use olr_route::{Limits, lengths_to};
use std::alloc::Global;

/// The greatest class of a line.
const MAX_CLASS: u8 = 7;

/// A class above the limit of a leg under which the leg would be shorter.
#[derive(Clone, Copy, Debug, PartialEq, Eq)]
pub struct Shorter {
    /// By how much it would be shorter, in decimetres.
    pub by: u64,
    /// The class.
    pub class: u8,
}

/// The least length by which a leg of this length has to be shorter: 100, or a hundredth of it.
fn least_gain(length: u64) -> u64
    requires { length < 2 ^ 32 }
    ensures { (by : ℕ) → (result ≤ by) ↔ ((100 ≤ by) × (length ≤ 100 * by)) }
{
    ((length + 99) / 100).max(100)
}

/// The least length from one place to another under a class limit, where that is at most `most`.
fn least_length(
    alloc: Global,
    map: &Map,
    class: u8,
    from: Place,
    to: Place,
    most: u64,
) -> Result<Option<u64>, NoMemory>
    requires from { IsDeparture map.now from }
    requires to { IsPlace map.now to }
    ensures { IfOk result (IsLengthWithin map.now class from to most) }
{
    let limits = Limits {
        class,
        near: most,
        length: most,
    };
    let targets = [to];
    let reach = lengths_to(alloc, map, from, limits, &targets)?;
    Ok(reach.length_to(map, to))
}

/// The least class above the limit, of classes up to 7, under which the least length from one place
/// to another is shorter than this length by at least 100 and by at least a hundredth of it.
///
/// # Errors
///
/// [`NoMemory`] where the allocator refused memory.
pub(crate) fn first_shorter(
    alloc: Global,
    map: &Map,
    limit: u8,
    from: Place,
    to: Place,
    length: u64,
) -> Result<Option<Shorter>, NoMemory>
    requires from { IsDeparture map.now from }
    requires to { IsPlace map.now to }
    requires limit { limit ≤ 7 }
    requires length { length < 2 ^ 32 }

    ensures { IfOk result (IsFirstShorter map.now from to length limit) }
{
    let Some(most) = length.checked_sub(least_gain(length)) else {
        return Ok(None);
    };
    for class in limit + 1..MAX_CLASS + 1 {
        if let Some(least) = least_length(alloc, map, class, from, to, most)? {
            let by = length - least;
            return Ok(Some(Shorter { by, class }));
        }
    }
    Ok(None)
}
