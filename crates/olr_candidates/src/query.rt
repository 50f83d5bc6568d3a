//! What is asked: the candidates of one point of a reference.

ghost use Rattle.std.specs.Prelude.{◌<◌, length};
ghost use Rattle.olr_binary.specs.Reference.{points_of};
ghost use Rattle.olr_candidates.specs.Query.{IsQueryOf};

use crate::tolerances::Tolerances;
use olr_binary::{Point, Reference};
use olr_metric::Plane;

/// A point of a reference, with all that decides which lines are its candidates.
#[derive(Clone, Copy, Drop)]
pub(crate) struct Query {
    /// The plane of the reference, with its origin at the first point.
    pub(crate) plane: Plane,
    /// The point.
    pub(crate) point: Point,
    /// Whether it is the reference's last point.
    pub(crate) is_last: bool,
    /// How far a line may differ from it.
    pub(crate) tolerances: Tolerances,
}

/// The query for the point `index` of a reference, counted from 0.
pub(crate) fn query_of(reference: &Reference, tolerances: &Tolerances, index: usize) -> Query
    requires { index < length (points_of reference.now) }
    ensures query { IsQueryOf tolerances.now reference.now index result }
    ensures index { index < usize.MAX }
{
    let points = reference.points();
    Query {
        plane: Plane::at(points[0].at),
        point: points[index],
        is_last: index + 1 == points.len(),
        tolerances: *tolerances,
    }
}
