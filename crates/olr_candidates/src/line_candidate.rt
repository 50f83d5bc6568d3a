//! Whether a line of the map is a candidate of a point.

ghost use Rattle.std.specs.Prelude.{◌<◌, length, MatchOption, MatchResult};
ghost use Rattle.olr_candidates.specs.Query.{Finds, Projects, Rejects};
ghost use Rattle.olr_candidates.specs.declared.candidate.Candidate.{Candidate as Found};

use crate::candidate::{Candidate, candidate_by};
use crate::line_projection::{projection_at, projection_within};
use crate::projection::{Projection, one_projection};
use crate::query::Query;
use crate::rejection::Rejection;
use olr_road::Map;

/// The line of a rank as a candidate of the query's point.
///
/// # Errors
///
/// The first condition that the line fails.
#[tactic(auto, using(crate::proofs::LineCandidates::rated, crate::proofs::LineCandidates::head_at))]
pub(crate) fn candidate_at(map: &Map, query: &Query, rank: u32) -> Result<Candidate, Rejection>
    requires { rank < length map.now.lines }
    ensures { MatchResult result (Finds query.now map.now.lines rank)
        (Rejects query.now map.now.lines rank) }
{
    let projection = projection_at(map, query, rank);
    let line = map.line(rank);
    candidate_by(query, &line, rank, &projection)
}

/// The line of a rank as a candidate of the query's point, if it is one, where the point's
/// projection onto it is known.
pub(crate) fn candidate_from(
    map: &Map,
    query: &Query,
    rank: u32,
    projection: &Projection,
) -> Option<Candidate>
    requires { Projects query.now map.now.lines rank projection.now }
    ensures { MatchOption result
        ((candidate : Found) → Finds query.now map.now.lines rank candidate → ⊥)
        (Finds query.now map.now.lines rank) }
{
    one_projection();
    let line = map.line(rank);
    let Ok(candidate) = candidate_by(query, &line, rank, projection) else {
        return None;
    };
    Some(candidate)
}

/// The line of a rank as a candidate of the query's point, if it is one. Of a line farther away
/// than the radius no more is measured than how far it is.
pub(crate) fn candidate_within(map: &Map, query: &Query, rank: u32) -> Option<Candidate>
    requires { rank < length map.now.lines }
    ensures { MatchOption result
        ((candidate : Found) → Finds query.now map.now.lines rank candidate → ⊥)
        (Finds query.now map.now.lines rank) }
{
    let most = 100 * u64::from(query.tolerances.radius);
    let projection = projection_within(map, query, rank, most)?;
    candidate_from(map, query, rank, &projection)
}
