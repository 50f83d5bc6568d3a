//! How many lines are shown.

ghost use Rattle.std.specs.Prelude.{◌≡◌, ◌≤◌, ◌↔◌, ℕ, IfOk, IsOk};

use std::marker::Model;
use thiserror::Error;

/// A number of lines out of its range.
#[derive(Clone, Copy, Debug, PartialEq, Eq, Error)]
#[error("the number of lines isn't from 1 to 200000")]
pub struct BadLineCount;

/// How many lines are shown at most: 1 to 200,000, which is as many as a map may have.
#[derive(Clone, Copy, Debug, PartialEq, Eq)]
pub struct LineCount {
    lines: u32,
}

impl Model for LineCount {
    ghost Value = { ℕ };

    ghost view = { λ count. count.lines };

    ghost invariant = { λ count. (1 ≤ count.lines) × (count.lines ≤ 200000) };

    ghost inverse = { λ lines. record { lines = lines } };
}

impl LineCount {
    /// This number of lines.
    ///
    /// # Errors
    ///
    /// [`BadLineCount`] where it isn't from 1 to 200,000.
    pub fn new(n: u32) -> Result<LineCount, BadLineCount>
        ensures range { IsOk result ↔ ((1 ≤ n) × (n ≤ 200000)) }
        ensures count { IfOk result (λ count. count ≡ n) }
    {
        if n < 1 || n > 200_000 {
            return Err(BadLineCount);
        }
        Ok(LineCount { lines: n })
    }

    /// How many lines, 1 to 200,000.
    pub fn lines(self) -> u32
        ensures { result ≡ self }
    {
        self.lines
    }
}
