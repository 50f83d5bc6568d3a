//! A walk to a place.

ghost use Rattle.std.specs.Prelude.{◌≡◌, ◌∷◌, ◌⊎◌, IfOk, IfSome, MatchBool};
ghost use Rattle.olr_legs.specs.Way.{IsUpToWay};

use olr_base::NoMemory;
use std::alloc::Global;

/// A walk from a place, which isn't kept in it, to another one.
#[derive(Debug, Drop)]
pub(crate) struct Way {
    /// Its length, in decimetres.
    pub(crate) length: u64,
    /// The ranks of its lines behind the first one.
    pub(crate) behind: Vec<u32>,
}

impl Way {
    /// The lines behind the first one of a walk that goes over `line` and then on by this one.
    pub(crate) fn with_line(&self, alloc: Global, line: u32) -> Result<Vec<u32>, NoMemory>
        ensures { IfOk result (λ behind. behind.items ≡ line ∷ self.now.behind.items) }
    {
        let mut behind = vec![in alloc; line]?;
        behind.extend_from_slice(&self.behind)?;
        Ok(behind)
    }

    /// Whether a walk of this length over these lines comes before this one, or neither of them
    /// comes before the other.
    pub(crate) fn is_behind(&self, length: u64, behind: &[u32]) -> bool
        ensures { MatchBool result
            (IsUpToWay length behind.now self.now.length self.now.behind.items)
            (IsUpToWay self.now.length self.now.behind.items length behind.now) }
    {
        if length != self.length {
            return length < self.length;
        }
        behind < self.behind.as_slice()
    }
}

/// The first one of two walks, of which the one may be none.
pub(crate) fn first_of(best: Option<Way>, other: Way) -> Way
    ensures other { IsUpToWay result.length result.behind.items other.length other.behind.items }
    ensures best { IfSome best (λ way.
        IsUpToWay result.length result.behind.items way.length way.behind.items) }
    ensures either { (result ≡ other) ⊎ (best ≡ Some result) }
{
    match best {
        Some(best) if !best.is_behind(other.length, &other.behind) => best,
        _ => other,
    }
}
