//! The ranks of a key as text: in decimal, joined by dots.

ghost use Rattle.std.specs.Prelude.{◌≡◌, ◌≢◌, ℕ, ◌+◌, ◌-◌, ◌<◌, ◌≤◌, List, ◌++◌, length};
ghost use Rattle.std.specs.Prelude.{MatchOption, decimal};
ghost use Rattle.olr_keys.specs.Cursor.{AreRanks, ranks_text};
ghost use Rattle.olr_keys.specs.Key.{IsRank};

use crate::decimal::number_of;
use arrayvec::{ArrayString, ArrayVec};
use itoa::Buffer;

/// The rank that a text writes, 1 to 64; `None` where it writes none.
fn rank_of(text: &str) -> Option<u8>
    ensures { MatchOption result
        ((rank : ℕ) → IsRank rank → text.now ≢ decimal rank)
        (λ rank. IsRank rank × (text.now ≡ decimal rank)) }
{
    let rank = number_of(text, 64)?;
    if rank == 0 {
        return None;
    }
    Some(rank as u8)
}

/// Adds the ranks that a text writes after fewer than 32 others; `None` where it writes none, or
/// too many for 32 in all.
fn add_ranks(ranks: &mut ArrayVec<u8, 32>, text: &str) -> Option<()>
    requires { length ranks.old.items < 32 }
    ensures { MatchOption result
        ((more : List ℕ) → AreRanks (32 - length ranks.old.items) more
        → text.now ≢ ranks_text more)
        (λ _. (more : List ℕ) × AreRanks (32 - length ranks.old.items) more
        × (text.now ≡ ranks_text more) × (ranks.new.items ≡ ranks.old.items ++ more)) }
{
    let Some((piece, rest)) = text.split_once('.') else {
        ranks.push(rank_of(text)?);
        return Some(());
    };
    ranks.push(rank_of(piece)?);
    if ranks.is_full() {
        return None;
    }
    add_ranks(ranks, rest)
}

/// The ranks that a text writes, 1 to 32; `None` where it writes none.
pub(crate) fn ranks_of(text: &str) -> Option<ArrayVec<u8, 32>>
    ensures { MatchOption result
        ((ranks : List ℕ) → AreRanks 32 ranks → text.now ≢ ranks_text ranks)
        (λ ranks. AreRanks 32 ranks.items × (text.now ≡ ranks_text ranks.items)) }
{
    let mut ranks = ArrayVec::new();
    add_ranks(&mut ranks, text)?;
    Some(ranks)
}

/// Adds ranks to a text, 95 bytes at most.
pub(crate) fn push_ranks(text: &mut ArrayString<166>, ranks: &[u8])
    requires ranks { AreRanks 32 ranks.now }
    requires room { length text.old.bytes + 95 ≤ 166 }
    ensures text { text.new.bytes ≡ text.old.bytes ++ ranks_text ranks.now }
    ensures at_most { length text.new.bytes ≤ length text.old.bytes + 95 }
{
    let Some((first, others)) = ranks.split_first() else {
        return;
    };
    let mut buffer = Buffer::new();
    text.push_str(buffer.format(*first));
    for &rank in others {
        text.push('.');
        text.push_str(buffer.format(rank));
    }
}
