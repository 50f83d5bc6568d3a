//! Another path of a leg: a walk between its places that leaves out a stretch of its route, and is
//! hardly longer. Lengths and bounds are in decimetres.

ghost use Rattle.std.specs.Prelude.{◌≡◌, ◌+◌, ◌^◌, ◌<◌, ◌≤◌, ◌↔◌, ℕ, All, Decides, IfOk, length};
ghost use Rattle.olr_route.specs.Walk.{pieces_of};
ghost use Rattle.olr_legs.specs.Avoiding.{most_turns};
ghost use Rattle.olr_legs.specs.LegOnMap.{IsApartOf, IsLegOnMap, IsOtherOf};
ghost use Rattle.olr_legs.specs.Other.{IsHardlyLonger};
ghost use Rattle.olr_legs.specs.Seeking.{IsSoughtFor};

use crate::avoiding::Sought;
use crate::leg_on_map::LegOnMap;
use crate::pieces::pieces_over;
use crate::seeking::{Seek, first_missing_any};
use crate::stretches::starts_of;
use crate::way::Way;
use olr_base::NoMemory;
use olr_road::{Place, sound};
use olr_route::{Piece, lengths_from, no_beginning_of_another, one_least_length, pieces_of_route};
use std::alloc::Global;

/// Another path of a leg.
#[derive(Debug, Drop)]
pub struct OtherPath {
    /// By how much it is longer than the leg, in decimetres.
    pub longer: u64,
    /// Its pieces.
    pub pieces: Vec<Piece>,
}

/// What is known of the other path of a leg.
#[derive(Debug, Drop)]
pub enum Other {
    /// The search for it was cut.
    Cut,
    /// There is none that is hardly longer.
    Nothing,
    /// This one.
    Path(OtherPath),
}

/// The greatest length of another path of a leg of this length, where it may be longer by so many
/// thousandths or by 10.
fn bound_of(length: u64, near: u32) -> u64
    requires { length < 2 ^ 32 }
    ensures { (longer : ℕ) → (length + longer ≤ result) ↔ IsHardlyLonger near length longer }
{
    length + (u64::from(near) * length / 1000).max(10)
}

/// Whether a place is ahead of another one on the same line.
fn is_ahead(from: Place, to: Place) -> bool
    ensures { Decides result ((from.line ≡ to.line) × (from.at < to.at)) }
{
    from.line == to.line && from.at < to.at
}

/// What the search for another path of a leg came to that isn't over one line alone.
fn sought_for(alloc: Global, leg: LegOnMap, bound: u64, turns: &mut u32) -> Result<Sought, NoMemory>
    requires leg { IsLegOnMap leg }
    requires turns { turns.old ≤ most_turns }
    requires not_ahead { leg.from.line ≡ leg.to.line → leg.from.at < leg.to.at → ⊥ }

    ensures { IfOk result (IsSoughtFor leg.entry.map.now leg.entry.from leg.entry.to
        (IsApartOf leg.entry) bound turns.new) }
{
    sound(leg.map);
    pieces_of_route();
    one_least_length();
    let starts = starts_of(alloc, leg.to, leg.route)?;
    let reach = lengths_from(alloc, leg.map, leg.limit, leg.from, bound)?;
    let seek = Seek {
        map: leg.map,
        reach: &reach,
        to: leg.to,
        route: leg.route,
        length: leg.length,
    };
    let sought = first_missing_any(alloc, seek, &starts, bound, turns)?;
    Ok(sought)
}

/// The other path of a leg over the lines of a walk that was found.
fn path_of(alloc: Global, leg: LegOnMap, way: &Way) -> Result<OtherPath, NoMemory>
    requires leg { IsLegOnMap leg }
    requires lines { All (λ line. line < length leg.map.now.lines) way.now.behind.items }
    requires at_least { leg.length ≤ way.now.length }

    ensures longer { IfOk result (λ path. leg.entry.length + path.longer ≡ way.now.length) }
    ensures pieces { IfOk result (λ path. path.pieces.items
        ≡ pieces_of leg.entry.map.now leg.entry.from leg.entry.to way.now.behind.items) }
{
    let pieces = pieces_over(alloc, leg.map, leg.from, leg.to, &way.behind)?;
    Ok(OtherPath {
        longer: way.length - leg.length,
        pieces,
    })
}

/// The other path of a leg: the walk of least length under its class limit that misses at least 200
/// decimetres in a row of its route, the first of those by the ids of their lines, where that is
/// longer by at most `near` thousandths of the leg's length or by at most 10.
///
/// # Errors
///
/// [`NoMemory`] where the allocator refused memory.
pub(crate) fn other_of(
    alloc: Global,
    leg: LegOnMap,
    near: u32,
    turns: &mut u32,
) -> Result<Other, NoMemory>
    requires leg { IsLegOnMap leg }
    requires turns { turns.old ≤ most_turns }

    ensures other { IfOk result (IsOtherOf leg.entry near) }
    ensures cut { IfOk result (λ other. other ≡ Other.Cut → most_turns < turns.new) }
{
    sound(leg.map);
    no_beginning_of_another();
    if is_ahead(leg.from, leg.to) {
        return Ok(Other::Nothing);
    }
    match sought_for(alloc, leg, bound_of(leg.length, near), turns)? {
        Sought::Cut => Ok(Other::Cut),
        Sought::Nothing => Ok(Other::Nothing),
        Sought::Found(way) => Ok(Other::Path(path_of(alloc, leg, &way)?)),
    }
}
