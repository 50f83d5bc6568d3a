//! The first of the walks that miss a stretch of a route. Lengths and bounds are in decimetres.

ghost use Rattle.std.specs.Prelude.{◌≡◌, ◌∷◌, ◌≤◌, ℕ, [], Decides, IfOk, OnOk};
ghost use Rattle.olr_legs.specs.Avoiding.{most_turns};
ghost use Rattle.olr_legs.specs.Seeking.{IsSeek, IsSoughtOf};

use crate::avoiding::{Sought, first_avoiding};
use crate::best::{both, next_bound};
use olr_base::NoMemory;
use olr_report::trim;
use olr_road::{Map, Place, sound};
use olr_route::{Piece, Reach};
use std::alloc::Global;

/// How many neighbouring steps of a route another walk has to miss.
const LEAST_MISSED: u64 = 200;

/// What is asked of the searches for another walk.
#[derive(Clone, Copy)]
pub(crate) struct Seek<'a> {
    pub(crate) map: &'a Map,
    /// The lengths to all lines from the place where the walks begin, up to the bound of the
    /// searches.
    pub(crate) reach: &'a Reach,
    /// The place where they end.
    pub(crate) to: Place,
    /// The route of which they miss a stretch.
    pub(crate) route: &'a [Piece],
    /// Its length.
    pub(crate) length: u64,
}

/// The first walk that misses the stretch of the route from the step `start` on.
fn first_missing(
    alloc: Global,
    seek: Seek,
    start: u64,
    bound: u64,
    turns: &mut u32,
) -> Result<Sought, NoMemory>
    requires seek { IsSeek seek }
    requires far { bound ≤ seek.reach.now.limit }
    requires turns { turns.old ≤ most_turns }

    ensures { IfOk result (IsSoughtOf seek.entry (start ∷ []) bound turns.new) }
{
    if seek.length.saturating_sub(start) < LEAST_MISSED {
        return Ok(Sought::Nothing);
    }
    let shut = trim(alloc, seek.route, start, start + LEAST_MISSED)?;
    let sought = first_avoiding(alloc, seek.map, seek.reach, seek.to, bound, &shut, turns)?;
    Ok(sought)
}

/// Whether a search was cut.
fn is_cut(sought: &Sought) -> bool
    ensures { Decides result (sought.now ≡ Sought.Cut) }
{
    matches!(sought, Sought::Cut)
}

/// The first walk that misses the stretch of the route from one of the steps `starts` on. `turns`
/// counts the turns that are looked at, over all searches.
pub(crate) fn first_missing_any(
    alloc: Global,
    seek: Seek,
    starts: &[u64],
    bound: u64,
    turns: &mut u32,
) -> Result<Sought, NoMemory>
    requires seek { IsSeek seek }
    requires far { bound ≤ seek.reach.now.limit }
    requires turns { turns.old ≤ most_turns }

    ensures { IfOk result (IsSoughtOf seek.entry starts.now bound turns.new) }
{
    sound(seek.map);
    let mut best = Sought::Nothing;
    for start in starts {
        let next = first_missing(alloc, seek, *start, next_bound(&best, bound), turns)?;
        best = both(best, next);
        if is_cut(&best) {
            return Ok(best);
        }
    }
    Ok(best)
}
