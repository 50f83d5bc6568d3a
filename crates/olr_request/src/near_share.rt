//! How much longer another path of a leg may be.

ghost use Rattle.std.specs.Prelude.{◌≡◌, ◌≤◌, ◌↔◌, ℕ, IfOk, IsOk};

use std::marker::Model;
use thiserror::Error;

/// A share out of its range.
#[derive(Clone, Copy, Debug, PartialEq, Eq, Error)]
#[error("the share isn't from 0 to 100 thousandths")]
pub struct BadNearShare;

/// By how much another path of a leg may be longer: 0 to 100 thousandths of the leg's length.
#[derive(Clone, Copy, Debug, PartialEq, Eq)]
pub struct NearShare {
    thousandths: u32,
}

impl Model for NearShare {
    ghost Value = { ℕ };

    ghost view = { λ share. share.thousandths };

    ghost invariant = { λ share. share.thousandths ≤ 100 };

    ghost inverse = { λ thousandths. record { thousandths = thousandths } };
}

impl NearShare {
    /// This many thousandths.
    ///
    /// # Errors
    ///
    /// [`BadNearShare`] where they aren't from 0 to 100.
    pub fn new(n: u32) -> Result<NearShare, BadNearShare>
        ensures range { IsOk result ↔ (n ≤ 100) }
        ensures share { IfOk result (λ share. share ≡ n) }
    {
        if n > 100 {
            return Err(BadNearShare);
        }
        Ok(NearShare { thousandths: n })
    }

    /// How many thousandths, 0 to 100.
    pub fn thousandths(self) -> u32
        ensures { result ≡ self }
    {
        self.thousandths
    }
}
