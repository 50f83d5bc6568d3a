//! Whether a line may follow another one that ends where it starts.

ghost use Rattle.std.specs.Prelude.{map, MatchBool};
ghost use Rattle.std.specs.List.Sorted.{IsStrictlyIncreasing};
ghost use Rattle.olr_route.specs.Turn.{IsAllowed, IsNoneTo};

use olr_road::{Ban, Map};

/// Whether the turn from the end of a line to a line isn't banned.
pub(crate) fn is_allowed(map: &Map, line: u32, next: u32) -> bool
    ensures { MatchBool result (IsAllowed map.now line next) (IsAllowed map.now line next → ⊥) }
{
    !map.banned(line, next)
}

/// Whether no ban of a list is on the turn to this line. The list has the bans on turns from one
/// line, by the rising ranks of the lines that may not follow.
pub(crate) fn is_allowed_by(bans: &[Ban], next: u32) -> bool
    requires { IsStrictlyIncreasing (map (λ ban. ban.to) bans.now) }
    ensures { MatchBool result (IsNoneTo bans.now next) (IsNoneTo bans.now next → ⊥) }
{
    bans.binary_search_by_key(&next, |ban| ban.to).is_err()
}
