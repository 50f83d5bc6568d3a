//! The candidates of a point among the lines of a map.

ghost use Rattle.std.specs.Prelude.{◌++◌, ◌∷◌, [], ℕ, List, Contains, MatchOption};
ghost use Rattle.olr_road.specs.RoadMap.{RoadLine};
ghost use Rattle.olr_candidates.specs.Query.{Answers, AreFound, Finds, FindsTooMany};
ghost use Rattle.olr_candidates.specs.declared.candidate.Candidate.{Candidate as Found};
ghost use Rattle.olr_candidates.specs.declared.query.Query.{Query as Asked};

use crate::candidate::Candidate;
use crate::line_candidate::candidate_within;
use crate::list::{MAX_CANDIDATES, add};
use crate::projection::one_projection;
use crate::query::Query;
use crate::window::lines_within;
use arrayvec::ArrayVec;
use olr_road::Map;

/// Adds the candidate that the line of a rank is, if it is one, to those found so far. `None` where
/// they are 64 already: then there are too many.
pub(crate) fn add_if(
    list: &mut ArrayVec<Candidate, MAX_CANDIDATES>,
    candidate: Option<Candidate>,
) -> Option<()>
    ensures { (query : Asked) (lines : List RoadLine) (seen : List ℕ) (rank : ℕ)
        → AreFound query lines seen list.old.items → (Contains seen rank → ⊥)
        → MatchOption candidate ((candidate : Found) → Finds query lines rank candidate → ⊥)
        (Finds query lines rank)
        → MatchOption result (FindsTooMany query lines)
        (λ _. AreFound query lines (seen ++ rank ∷ []) list.new.items) }
{
    one_projection();
    let Some(candidate) = candidate else {
        return Some(());
    };
    add(list, candidate)?;
    Some(())
}

/// The candidates of the query's point, by a test of the lines near it alone; `None` where there
/// are more than 64.
pub(crate) fn search_near(map: &Map, query: &Query) -> Option<ArrayVec<Candidate, MAX_CANDIDATES>>
    ensures { MatchOption result (FindsTooMany query.now map.now.lines)
        (λ list. Answers query.now map.now.lines list.items) }
{
    let mut list = ArrayVec::new();
    for rank in lines_within(map, query, query.tolerances.radius) {
        let candidate = candidate_within(map, query, rank);
        add_if(&mut list, candidate)?;
    }
    Some(list)
}
