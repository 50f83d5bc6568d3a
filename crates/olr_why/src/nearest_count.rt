//! How many of the lines nearest to a point are shown.

ghost use Rattle.std.specs.Prelude.{◌≡◌, ◌≤◌, ◌↔◌, ℕ, IfOk, IsOk};

use std::marker::Model;
use thiserror::Error;

/// A number of nearest lines out of its range.
#[derive(Clone, Copy, Debug, PartialEq, Eq, Error)]
#[error("the number of nearest lines isn't from 0 to 64")]
pub struct BadNearest;

/// How many of the lines nearest to a point are shown at most: 0 to 64.
#[derive(Clone, Copy, Debug, PartialEq, Eq)]
pub struct NearestCount {
    lines: u32,
}

impl Model for NearestCount {
    ghost Value = { ℕ };

    ghost view = { λ nearest. nearest.lines };

    ghost invariant = { λ nearest. nearest.lines ≤ 64 };

    ghost inverse = { λ lines. record { lines = lines } };
}

impl NearestCount {
    /// This number of lines.
    ///
    /// # Errors
    ///
    /// [`BadNearest`] where it isn't from 0 to 64.
    pub fn new(n: u32) -> Result<NearestCount, BadNearest>
        ensures range { IsOk result ↔ (n ≤ 64) }
        ensures count { IfOk result (λ nearest. nearest ≡ n) }
    {
        if n > 64 {
            return Err(BadNearest);
        }
        Ok(NearestCount { lines: n })
    }

    /// How many lines, 0 to 64.
    pub fn lines(self) -> u32
        ensures lines { result ≡ self }
        ensures at_most { result ≤ 64 }
    {
        self.lines
    }
}
