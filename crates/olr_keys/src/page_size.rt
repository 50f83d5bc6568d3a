//! How many keys a page has.

ghost use Rattle.std.specs.Prelude.{◌≡◌, ◌≤◌, ◌↔◌, ℕ, IfErr, IfOk, IsOk};

use std::marker::Model;
use thiserror::Error;

/// A page size out of its range.
#[derive(Clone, Copy, Debug, PartialEq, Eq, Error)]
#[error("the page size {0} isn't from 1 to 1000")]
pub struct BadPage(pub u32);

/// How many keys a page has at most: 1 to 1000.
#[derive(Clone, Copy, Debug, PartialEq, Eq)]
pub struct PageSize {
    keys: u32,
}

impl Model for PageSize {
    ghost Value = { ℕ };

    ghost view = { λ size. size.keys };

    ghost invariant = { λ size. (1 ≤ size.keys) × (size.keys ≤ 1000) };

    ghost inverse = { λ keys. record { keys = keys } };
}

impl PageSize {
    /// The page size of so many keys.
    ///
    /// # Errors
    ///
    /// [`BadPage`] with the number where it isn't from 1 to 1000.
    pub fn new(n: u32) -> Result<PageSize, BadPage>
        ensures range { IsOk result ↔ ((1 ≤ n) × (n ≤ 1000)) }
        ensures size { IfOk result (λ size. size ≡ n) }
        ensures bad { IfErr result (λ bad. bad ≡ record { 0 = n }) }
    {
        if n < 1 || n > 1000 {
            return Err(BadPage(n));
        }
        Ok(PageSize { keys: n })
    }

    /// How many keys, 1 to 1000.
    pub fn keys(self) -> u32
        ensures keys { result ≡ self }
        ensures at_least { 1 ≤ result }
        ensures at_most { result ≤ 1000 }
    {
        self.keys
    }
}
