//! The square root, rounded down.

ghost use Rattle.std.specs.Prelude.{◌≡◌, ◌*◌, ◌<◌, ◌≤◌, ◌^◌, Decides};
ghost use Rattle.olr_metric.specs.Root.{root, IsRoot};

use std::num::{nearest_u64_to_f64, saturating_f64_to_u64};

/// The greatest number that is guessed to be a root.
const GREATEST_GUESS: u64 = (1 << 32) - 1;

/// A number that is the square root, rounded down, for nearly every square. Nothing rests on it but
/// how long `root_of` takes.
fn guess_of(square: u64) -> u64
    ensures { result < 2 ^ 32 }
{
    saturating_f64_to_u64(nearest_u64_to_f64(square).sqrt()).min(GREATEST_GUESS)
}

/// Whether a number is the square root of another, rounded down.
fn is_root(square: u64, root: u64) -> bool
    requires { root < 2 ^ 32 }
    ensures { Decides result (IsRoot square root) }
{
    let least = root * root;
    least <= square && square - least <= 2 * root
}

#[tactic(auto, using(crate::proofs::Roots::is_root))]
/// The square root, rounded down: the guess where it is the root, else by halving an interval.
pub(crate) fn root_of(square: u128) -> u64
    requires { square < 2 ^ 70 }
    ensures root { result ≡ root square }
    ensures at_most { result < 2 ^ 35 }
{
    if let Ok(short) = u64::try_from(square) {
        let guess = guess_of(short);
        if is_root(short, guess) {
            return guess;
        }
    }
    square.isqrt() as u64
}

/// The square of a length.
pub(crate) fn squared(length: u64) -> u128
    requires { length ≤ 2 ^ 35 }
    ensures { result ≡ length * length }
{
    u128::from(length) * u128::from(length)
}
