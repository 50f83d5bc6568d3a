//! How probable places are, and that none of them is right, by their worths.

ghost use Rattle.std.specs.Prelude.{◌≡◌, ◌+◌, ◌*◌, ◌<◌, ◌≤◌, ◌^◌, All, IfOk, length, map, sum, sum_by};
ghost use Rattle.olr_confidence.specs.Power.{power};
ghost use Rattle.olr_confidence.specs.Shares.{AreProbabilities, millionths_of, probabilities_of, whole_of};

use crate::powers::power;
use std::alloc::{AllocError, Global};

/// How probable the places of a reference are, and that none of them is right, in millionths.
#[derive(Debug, Drop)]
pub struct Probabilities {
    /// Of each place.
    pub places: Vec<u64>,
    /// That none of them is right: the rest of a million.
    pub none: u64,
}

/// All shares together.
fn whole_of(none: u64, places: &[u64]) -> u128
    requires none { none ≤ 2 ^ 63 }
    requires places { All (λ below. below ≤ 2 ^ 63) places.now }
    ensures whole { result ≡ whole_of none places.now }
    ensures at_most { result ≤ 2 ^ 31 * (length places.now + 1) }
{
    let mut whole = u128::from(power(none));
    for below in places {
        whole += u128::from(power(*below));
    }
    whole
}

/// A share in the whole, in millionths.
fn millionths_of(whole: u128, below: u64) -> u64
    requires whole { 0 < whole }
    requires below { below ≤ 2 ^ 63 }
    ensures { result ≡ millionths_of whole below }
{
    (1_000_000 * u128::from(power(below)) / whole) as u64
}

/// The shares of places in the whole, in millionths.
fn all_millionths(alloc: Global, whole: u128, places: &[u64]) -> Result<Vec<u64>, AllocError>
    requires whole { 0 < whole }
    requires places { All (λ below. below ≤ 2 ^ 63) places.now }
    ensures { IfOk result (λ shares. shares.items ≡ map (millionths_of whole) places.now) }
{
    let mut shares = Vec::with_capacity(alloc, places.len())?;
    for below in places {
        shares.push(millionths_of(whole, *below))?;
    }
    Ok(shares)
}

/// The sum of numbers that is known to be at most a million.
fn sum_of(shares: &[u64]) -> u64
    requires { sum shares.now ≤ 1000000 }
    ensures { result ≡ sum shares.now }
{
    shares.iter().sum()
}

/// How probable places are, and that none of them is right, by how far their worths lie below the
/// greatest one of all of them.
///
/// # Errors
///
/// [`AllocError`] where the allocator refused memory.
#[tactic(auto, using(crate::proofs::Together::at_most_million))]
pub(crate) fn probabilities_of(
    alloc: Global,
    none: u64,
    places: &[u64],
) -> Result<Probabilities, AllocError>
    requires none { none ≤ 2 ^ 63 }
    requires places { All (λ below. below ≤ 2 ^ 63) places.now }
    requires greatest { 0 < whole_of none places.now }
    ensures { IfOk result (AreProbabilities none places.now) }
{
    let whole = whole_of(none, places);
    let shares = all_millionths(alloc, whole, places)?;
    let none = 1_000_000 - sum_of(&shares);
    Ok(Probabilities {
        places: shares,
        none,
    })
}
