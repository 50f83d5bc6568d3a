//! The lines around a point, with the projection of the point onto each.

ghost use Rattle.std.specs.Prelude.{◌<◌, ◌≤◌, ◌+◌, ◌++◌, ◌∷◌, [], ℕ, List, length, Contains, IfOk, IfSome, MatchOption, OnOk};
ghost use Rattle.olr_candidates.specs.Query.{Answers, AreSeenAmong, FindsTooMany, Sees, SeesRadius};

use crate::candidate::Candidate;
use crate::line_candidate::candidate_from;
use crate::line_projection::projection_within;
use crate::list::MAX_CANDIDATES;
use crate::projection::{Projection, one_projection};
use crate::query::Query;
use crate::search::add_if;
use crate::window::lines_within;
use arrayvec::ArrayVec;
use olr_base::NoMemory;
use olr_road::Map;
use std::alloc::Global;

/// A line around a point.
#[derive(Clone, Copy, Drop)]
pub(crate) struct SeenLine {
    /// The line, by rank.
    pub(crate) line: u32,
    /// The projection of the point onto it.
    pub(crate) projection: Projection,
}

/// Adds the line of a rank to those seen so far, where it lies at most so many metres away.
fn add_seen(
    seen: &mut Vec<SeenLine>,
    map: &Map,
    query: &Query,
    rank: u32,
    reach: u32,
) -> Result<(), NoMemory>
    requires { rank < length map.now.lines }
    ensures seen { (ranks : List ℕ)
        → AreSeenAmong query.now map.now.lines reach ranks seen.old.items
        → (Contains ranks rank → ⊥)
        → OnOk result
        (AreSeenAmong query.now map.now.lines reach (ranks ++ rank ∷ []) seen.new.items) }
    ensures at_most { OnOk result (length seen.new.items ≤ length seen.old.items + 1) }
{
    one_projection();
    let Some(projection) = projection_within(map, query, rank, 100 * u64::from(reach)) else {
        return Ok(());
    };
    seen.push(SeenLine {
        line: rank,
        projection,
    })?;
    Ok(())
}

/// The lines at most so many metres away from the query's point; `None` where there are more than
/// `most`, or `most` of them and another one near by.
pub(crate) fn see(
    alloc: Global,
    map: &Map,
    query: &Query,
    reach: u32,
    most: usize,
) -> Result<Option<Vec<SeenLine>>, NoMemory>
    requires { reach ≤ 1000000 }
    ensures seen { IfOk result (λ seen. IfSome seen (λ seen.
        Sees query.now map.now.lines reach seen.items)) }
    ensures at_most { IfOk result (λ seen. IfSome seen (λ seen. length seen.items ≤ most)) }
{
    let mut seen = Vec::new(alloc);
    for rank in lines_within(map, query, reach) {
        if seen.len() >= most {
            return Ok(None);
        }
        add_seen(&mut seen, map, query, rank, reach)?;
    }
    Ok(Some(seen))
}

/// The candidates of the query's point among the lines seen from it; `None` where there are more
/// than 64.
pub(crate) fn search_among(
    map: &Map,
    query: &Query,
    seen: &[SeenLine],
) -> Option<ArrayVec<Candidate, MAX_CANDIDATES>>
    requires { SeesRadius query.now map.now.lines seen.now }
    ensures { MatchOption result (FindsTooMany query.now map.now.lines)
        (λ list. Answers query.now map.now.lines list.items) }
{
    let mut list = ArrayVec::new();
    for line in seen {
        let candidate = candidate_from(map, query, line.line, &line.projection);
        add_if(&mut list, candidate)?;
    }
    Some(list)
}
