//! What a leg admits, and why it admits nothing.

use crate::pair::PairLength;
use std::marker::Model;

/// What a leg admits. Lengths are in decimetres.
#[derive(Debug, Drop)]
pub struct LegReason {
    /// The greatest class of the lines that its route may drive, 0 to 7.
    pub class: u8,
    /// The least length that it admits.
    pub from: u64,
    /// The greatest length that it admits.
    pub to: u64,
    /// How many pairs of candidates it admits, 0 to 4,096.
    pub admits: u32,
    /// How many pairs of candidates there are, 0 to 4,096.
    pub of: u32,
    /// Where it admits none, the pairs of candidates of ranks up to 3, by their ranks.
    pub pairs: Vec<PairLength>,
}

impl Model for LegReason {
    ghost use Rattle.olr_why.specs.Values.{LegValue};

    ghost Value = { LegValue };

    ghost view = { λ leg. record {
      class = leg.class;
      from = leg.from;
      to = leg.to;
      admits = leg.admits;
      of = leg.of;
      pairs = leg.pairs.items;
    } };
}
