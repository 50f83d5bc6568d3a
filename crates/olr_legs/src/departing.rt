//! The walks from the place where they begin.

ghost use Rattle.std.specs.Prelude.{Decides, IfOk};
ghost use Rattle.olr_legs.specs.Departing.{IsFirstDeparting, MayDepart};
ghost use Rattle.olr_legs.specs.Labels.{AreSound};
ghost use Rattle.olr_legs.specs.Search.{IsReady};

use crate::labels::Labels;
use crate::search::{Search, is_clear};
use crate::way::{Way, first_of};
use olr_base::NoMemory;
use olr_route::Piece;
use std::alloc::Global;

/// Whether the walks may begin by the rest of their first line.
fn may_depart(search: &Search) -> bool
    requires { IsReady search.now }
    ensures { Decides result (MayDepart search.now) }
{
    let (class, from, _) = search.reach.asked();
    let row = search.map.line(from.line);
    let rest = Piece {
        line: from.line,
        from: from.at,
        to: row.length,
    };
    row.class <= class && is_clear(search.shut, rest)
}

/// The first walk from the place where they begin: over the rest of its line, and then by one that
/// the search has found from the start of a line that may follow. None where each is longer than
/// the bound.
pub(crate) fn first_departing(
    alloc: Global,
    search: &Search,
    labels: &Labels,
) -> Result<Option<Way>, NoMemory>
    requires ready { IsReady search.now }
    requires sound { AreSound search.now labels.now }

    ensures { IfOk result (IsFirstDeparting search.now labels.now) }
{
    if !may_depart(search) {
        return Ok(None);
    }
    let (_, from, _) = search.reach.asked();
    let row = search.map.line(from.line);
    let rest = u64::from(row.length - from.at);
    let lines = search.map.lines_from(row.to);
    let mut best = None;
    for &next in lines {
        if search.map.banned(from.line, next) {
            continue;
        }
        let Some(way) = labels.ways.get(&next) else {
            continue;
        };
        if rest > search.bound - way.length {
            continue;
        }
        let length = rest + way.length;
        let behind = way.with_line(alloc, next)?;
        best = Some(first_of(best, Way { length, behind }));
    }
    Ok(best)
}
