//! The order of keys.

ghost use Rattle.std.specs.Prelude.{Decides};
ghost use Rattle.olr_keys.specs.Key.{AreBefore, IsBefore};

use crate::key::Key;
use std::cmp::Ordering;

/// Whether a key comes before another one: its total is less, or it is the same and its ranks come
/// first.
pub(crate) fn is_before(key: &Key, other: &Key) -> bool
    ensures { Decides result (IsBefore key.now other.now) }
{
    comes_before(key, other.total, &other.ranks)
}

/// Whether a key comes before one with this total and these ranks.
pub(crate) fn comes_before(key: &Key, total: u16, ranks: &[u8]) -> bool
    ensures { Decides result (IsBefore key.now record { total = total; ranks = ranks.now }) }
{
    match key.total.cmp(&total) {
        Ordering::Less => true,
        Ordering::Equal => are_before(&key.ranks, ranks),
        Ordering::Greater => false,
    }
}

/// Whether ranks come before others in lexicographic order.
fn are_before(ranks: &[u8], others: &[u8]) -> bool
    ensures { Decides result (AreBefore ranks.now others.now) }
{
    let Some((other, others)) = others.split_first() else {
        return false;
    };
    let Some((rank, ranks)) = ranks.split_first() else {
        return true;
    };
    rank < other || (rank == other && are_before(ranks, others))
}
