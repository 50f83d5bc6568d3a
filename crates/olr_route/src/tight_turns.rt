//! Tight turns: those from the end of a line to a line whose least length to the start goes over
//! that end. Lengths and limits are in decimetres.

ghost use Rattle.std.specs.Prelude.{ℕ, Decides, MatchBool};
ghost use Rattle.olr_road.specs.Place.{IsPlace};
ghost use Rattle.olr_route.specs.Shortest.{AreGroups, AreTightAhead, HasUpTo, IsFirstTight};
ghost use Rattle.olr_route.specs.Shortest.{IsTightIn};

use crate::groups::Groups;
use crate::line_end::length_at_end;
use crate::search::Search;
use crate::turn::is_allowed;
use olr_road::Place;

/// The lines of `groups` that start where a place's line ends, and to whose start the least length
/// is that to this end. Those turns to them that aren't banned are the tight ones. `so_far` is the
/// length to the place in decimetres.
#[tactic(auto, using(std::proofs::lemmas::Option::slice_get_within, crate::proofs::Lines::end_of, crate::proofs::Tight::group_ahead, crate::proofs::Tight::none_ahead))]
fn tight_ahead<'a>(search: &Search, place: Place, so_far: u64, groups: &'a Groups) -> &'a [u32]
    requires on_map { IsPlace search.now.map.now place }
    requires groups { AreGroups search.now groups.now }

    ensures { AreTightAhead search.now groups.now place so_far result.now }
{
    let Some(at_end) = length_at_end(search, place, so_far) else {
        return &[];
    };
    groups.lines(search.map.line(place.line).to, at_end)
}

/// Whether a turn from the end of a place's line to a line of `groups` is tight. Each line that is
/// looked at in vain is one to which the turn is banned.
pub(crate) fn has_tight_turn(search: &Search, place: Place, so_far: u64, groups: &Groups) -> bool
    requires on_map { IsPlace search.now.map.now place }
    requires groups { AreGroups search.now groups.now }

    ensures { MatchBool result ((next : ℕ) × IsTightIn search.now groups.now place so_far next)
        ((next : ℕ) → IsTightIn search.now groups.now place so_far next → ⊥) }
{
    tight_ahead(search, place, so_far, groups)
        .iter()
        .any(|next| is_allowed(search.map, place.line, *next))
}

/// Whether a rank was found that is no greater than this one.
fn has_up_to(found: Option<u32>, rank: u32) -> bool
    ensures { Decides result (HasUpTo found rank) }
{
    found.is_some_and(|least| least <= rank)
}

/// The line of least rank among those of `groups` to which a turn from the end of a place's line is
/// tight. All lines of one group are looked at.
#[tactic(auto, using(crate::proofs::Tight::least_over))]
pub(crate) fn first_tight_turn(
    search: &Search,
    place: Place,
    so_far: u64,
    groups: &Groups,
) -> Option<u32>
    requires on_map { IsPlace search.now.map.now place }
    requires groups { AreGroups search.now groups.now }

    ensures { IsFirstTight search.now groups.now place so_far result }
{
    let ahead = tight_ahead(search, place, so_far, groups);
    let mut first = None;
    for &next in ahead {
        if has_up_to(first, next) || !is_allowed(search.map, place.line, next) {
            continue;
        }
        first = Some(next);
    }
    first
}
