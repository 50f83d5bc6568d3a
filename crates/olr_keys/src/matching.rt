//! The total of a matching.

ghost use Rattle.std.specs.Prelude.{◌+◌, ◌≤◌, ℕ, length, Decides, IfSome, MatchOption};
ghost use Rattle.olr_keys.specs.Matching.{IsKey, IsCompletion};

use crate::key::Key;
use crate::table::Table;

/// The sum of the penalties of candidates, one of each layer from `layer` to the last one, and of
/// the legs to them, to the first from the candidate `before` it; `None` where they aren't joined
/// or there is no such candidate.
#[tactic(auto, using(crate::proofs::Completions::completion_at_most))]
pub(crate) fn total_from(
    table: &Table,
    layer: usize,
    before: Option<u8>,
    ranks: &[u8],
) -> Option<u16>
    requires before { IfSome before (λ first. (1 ≤ layer) × (1 ≤ first)) }
    requires room { layer + length ranks.now ≤ 64 }
    ensures { MatchOption result
        ((total : ℕ) → IsCompletion table.now layer before ranks.now total → ⊥)
        (IsCompletion table.now layer before ranks.now) }
{
    let layers = table.layers();
    let Some((rank, rest)) = ranks.split_first() else {
        if layer == layers {
            return Some(0);
        }
        return None;
    };
    let joined = table.joined(layer, before, *rank)?;
    let total = total_from(table, layer + 1, Some(*rank), rest)?;
    Some(joined.leg + joined.penalty + total)
}

/// Whether a key is that of a matching: there are such candidates, each two neighbours are joined,
/// and the total is right.
#[tactic(auto, using(crate::proofs::Completions::key_decides))]
pub(crate) fn is_key(table: &Table, key: &Key) -> bool
    ensures { Decides result (IsKey table.now key.now) }
{
    let Some(total) = total_from(table, 0, None, &key.ranks) else {
        return false;
    };
    total == key.total
}
