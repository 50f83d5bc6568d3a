//! The first walk that leaves out some pieces of lines.

ghost use Rattle.std.specs.Prelude.{◌≡◌, ◌≤◌, IfOk, None, OnOk};
ghost use Rattle.olr_legs.specs.Avoiding.{IsSought, most_turns};
ghost use Rattle.olr_road.specs.Place.{IsPlace};
ghost use Rattle.olr_route.specs.Reach.{AreLengthsOn};

use crate::departing::first_departing;
use crate::labels::Labels;
use crate::search::Search;
use crate::way::Way;
use olr_base::NoMemory;
use olr_road::{Map, Place, sound};
use olr_route::{Piece, Reach};
use std::alloc::Global;
use std::cmp::Reverse;

/// What a search for another walk came to.
#[derive(Debug, Drop)]
pub(crate) enum Sought {
    /// More turns were looked at than it may look at.
    Cut,
    /// There is no such walk within the bound.
    Nothing,
    /// The first one.
    Found(Way),
}

/// The first walk over two lines or more that has no decimetre of the pieces that are shut: from
/// the place of `reach` to `to`, under the class limit of `reach` and at most `bound` decimetres
/// long. `reach` has the lengths to all lines, up to a limit of at least `bound`.
///
/// `turns` counts the turns that are looked at, over the searches of a leg; where there are more
/// than 300,000 of them the search is cut.
///
/// # Errors
///
/// [`NoMemory`] where the allocator refused memory.
pub(crate) fn first_avoiding(
    alloc: Global,
    map: &Map,
    reach: &Reach,
    to: Place,
    bound: u64,
    shut: &[Piece],
    turns: &mut u32,
) -> Result<Sought, NoMemory>
    requires held { AreLengthsOn map.now reach.now }
    requires all { reach.now.asked ≡ None }
    requires far { bound ≤ reach.now.limit }
    requires to { IsPlace map.now to }
    requires turns { turns.old ≤ most_turns }

    ensures sought { IfOk result (IsSought map.now reach.now.class reach.now.from to shut.now bound
        turns.new) }
    ensures turns { OnOk result (turns.old ≤ turns.new) }
{
    sound(map);
    let search = Search {
        map,
        reach,
        to,
        bound,
        shut,
    };
    let mut labels = Labels::new(alloc, &search)?;
    while let Some(Reverse((length, line))) = labels.waiting.pop() {
        if !labels.spread(alloc, &search, line, length, turns)? {
            return Ok(Sought::Cut);
        }
    }
    match first_departing(alloc, &search, &labels)? {
        Some(way) => Ok(Sought::Found(way)),
        None => Ok(Sought::Nothing),
    }
}
