//! The places that were looked at, with their ranks and their likely costs.

ghost use Rattle.std.specs.Prelude.{All, IfOk};
ghost use Rattle.olr_likely.specs.Ranked.{AreRanked, CanBeRanked};

use olr_base::NoMemory;
use olr_detail::{LikelyCost, likely_cost};
use olr_places::Opener;
use olr_road::Map;
use std::alloc::Global;

/// A place that was looked at.
#[derive(Debug, Drop)]
pub struct RankedPlace {
    /// The matching that opened it, with its gap and the number of its members.
    pub opener: Opener,
    /// Its rank among all places that were looked at, from 1, in the order in which they opened.
    pub rank: usize,
    /// The likely cost of the matching that opened it.
    pub likely: LikelyCost,
}

/// Places with their ranks and their likely costs, by their openers in order.
pub(crate) fn ranked(
    alloc: Global,
    map: &Map,
    openers: Vec<Opener>,
) -> Result<Vec<RankedPlace>, NoMemory>
    requires { All (CanBeRanked map.now) openers.items }
    ensures { IfOk result (λ ranked. AreRanked map.now openers.items ranked.items) }
{
    let mut ranked = Vec::with_capacity(alloc, openers.len())?;
    for opener in openers {
        let likely = likely_cost(map, &opener.matched, &opener.route);
        ranked.push(RankedPlace {
            rank: ranked.len() + 1,
            opener,
            likely,
        })?;
    }
    Ok(ranked)
}
