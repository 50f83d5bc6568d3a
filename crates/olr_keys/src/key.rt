//! The key of a matching.

use arrayvec::ArrayVec;
use std::marker::Model;

/// The key of a matching: the total of its penalties, and the rank of its candidate in each layer.
///
/// The total is at most 14,620; there are 2 to 32 ranks, each from 1 to 64.
#[derive(Clone, Debug, Drop, PartialEq, Eq)]
pub struct Key {
    /// The total of the penalties.
    pub total: u16,
    /// The rank of the candidate in each layer, 2 to 32 ranks from 1 to 64.
    pub ranks: ArrayVec<u8, 32>,
}

impl Model for Key {
    ghost use Rattle.olr_keys.specs.Key.{KeyValue};

    ghost Value = { KeyValue };

    ghost use Rattle.olr_keys.specs.Key.{IsInRange};

    ghost view = { λ k. record { total = k.total; ranks = k.ranks.items } };

    ghost inverse = { λ k. record { total = k.total; ranks = record { items = k.ranks } } };

    ghost invariant = { λ k. IsInRange record { total = k.total; ranks = k.ranks.items } };
}
