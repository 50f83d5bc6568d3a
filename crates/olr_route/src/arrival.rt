//! An arrival of the search at the end of a line.

ghost use Rattle.std.proofs.Common.{rules};
ghost use Rattle.std.specs.Cmp.{partial_order_from_own_ties};
ghost use Rattle.std.specs.Cmp.Rules.{comparing};
ghost use Rattle.std.specs.Ordering.{as_partial_cmp, flip_args, nat_cmp, on};
ghost use Rattle.std.specs.Prelude.{nat_eq};

use std::cmp::Ordering;

/// An arrival that is still to come.
///
/// Arrivals are compared by their lengths alone: the shorter one is the greater, so that a
/// `BinaryHeap` gives the nearest one first.
#[derive(Clone, Copy, Drop)]
pub(crate) struct Arrival {
    /// The length to the end of the line, in decimetres.
    pub(crate) at_end: u64,
    /// The rank of the line.
    pub(crate) line: u32,
    /// The rank of the node at its end.
    pub(crate) node: u32,
}

impl PartialEq for Arrival {
    ghost eq = { on (λ arrival. arrival.at_end) nat_eq };

    ghost laws = { Prim.search (comparing, rules) };

    fn eq(&self, other: &Arrival) -> bool {
        self.at_end == other.at_end
    }
}

impl Eq for Arrival {
    ghost laws = { Prim.search (comparing, rules) };
}

impl PartialOrd for Arrival {
    ghost partial_cmp = { as_partial_cmp (flip_args (on (λ arrival. arrival.at_end) nat_cmp)) };

    ghost laws = { partial_order_from_own_ties (Prim.search (comparing, rules))
        (Prim.search (comparing, rules)) };

    fn partial_cmp(&self, other: &Arrival) -> Option<Ordering> {
        Some(self.cmp(other))
    }
}

impl Ord for Arrival {
    ghost cmp = { flip_args (on (λ arrival. arrival.at_end) nat_cmp) };

    ghost total = { Prim.search (comparing, rules) };

    ghost matches_partial_cmp = { Prim.search (comparing, rules) };

    ghost matches_eq = { Prim.search (comparing, rules) };

    fn cmp(&self, other: &Arrival) -> Ordering {
        other.at_end.cmp(&self.at_end)
    }
}
