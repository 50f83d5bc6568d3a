//! The candidates of a point of a reference.

ghost use Rattle.std.specs.Prelude.{◌≡◌, ◌<◌, ◌+◌, length, MatchResult};
ghost use Rattle.olr_binary.specs.Reference.{points_of};
ghost use Rattle.olr_candidates.specs.Points.{AreCandidatesOf, HasTooMany, IsCandidateOf, IsRejectionOf};

use crate::candidate::Candidate;
use crate::line_candidate::candidate_at;
use crate::list::MAX_CANDIDATES;
use crate::query::query_of;
use crate::rejection::Rejection;
use crate::search::search_near;
use crate::tolerances::Tolerances;
use arrayvec::ArrayVec;
use olr_binary::Reference;
use olr_road::Map;

/// The point of this number, from 1, has more than 64 candidates.
#[derive(Clone, Copy, Debug, PartialEq, Eq)]
pub struct TooManyCandidates(pub usize);

/// The candidates of the point `index` of a reference, counted from 0, by penalty and then by the
/// id of the line. The reference has to have that point. Only the lines near the point are tested.
///
/// # Errors
///
/// [`TooManyCandidates`] with `index + 1`, exactly where there are more than 64.
pub fn candidates(
    map: &Map,
    reference: &Reference,
    tolerances: &Tolerances,
    index: usize,
) -> Result<ArrayVec<Candidate, MAX_CANDIDATES>, TooManyCandidates>
    requires { index < length (points_of reference.now) }
    ensures { MatchResult result
        (λ list. AreCandidatesOf tolerances.now reference.now map.now.lines index list.items)
        (λ refused. (refused.0 ≡ index + 1)
        × HasTooMany tolerances.now reference.now map.now.lines index) }
{
    let query = query_of(reference, tolerances, index);
    search_near(map, &query).ok_or(TooManyCandidates(index + 1))
}

/// The line of a rank as a candidate of the point `index` of a reference, counted from 0. The
/// reference has to have that point, and the map that line.
///
/// # Errors
///
/// A [`Rejection`] with the first condition that the line fails, exactly where it is no candidate.
pub fn candidate_of_line(
    map: &Map,
    reference: &Reference,
    tolerances: &Tolerances,
    index: usize,
    rank: u32,
) -> Result<Candidate, Rejection>
    requires index { index < length (points_of reference.now) }
    requires rank { rank < length map.now.lines }
    ensures { MatchResult result
        (IsCandidateOf tolerances.now reference.now map.now.lines index rank)
        (IsRejectionOf tolerances.now reference.now map.now.lines index rank) }
{
    candidate_at(map, &query_of(reference, tolerances, index), rank)
}
