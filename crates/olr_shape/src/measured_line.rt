//! A line of the map with the arcs of its points.

ghost use Rattle.std.specs.Prelude.{◌≡◌, ◌<◌, ◌≤◌, ◌^◌, Some, length, map, slice_get};
ghost use Rattle.olr_base.specs.Coordinates.{coordinates_of};
ghost use Rattle.olr_metric.specs.Polyline.{IsPolyline};
ghost use Rattle.olr_shape.specs.Position.{arc_of_point, arc_of_position};
ghost use Rattle.olr_shape.specs.inner.Measured.{AreArcs, IsMeasurable};

use arrayvec::ArrayVec;
use olr_base::Degrees;
use olr_candidates::{MAX_POINTS, polyline_of_line};
use olr_metric::{Plane, Spot, distance, distances};
use olr_road::{Line, Map};
use std::marker::Model;

/// A line of a map with the arcs of its points: lengths along its polyline in centimetres, in the
/// plane that has its origin at its first point.
///
/// Contracts see the line.
#[derive(Drop)]
pub(crate) struct MeasuredLine<'a> {
    line: Line,
    points: &'a [Degrees],
    arcs: ArrayVec<u64, MAX_POINTS>,
}

impl<'a> Model for MeasuredLine<'a> {
    ghost use Rattle.std.specs.Prelude.{map};
    ghost use Rattle.olr_base.specs.Coordinates.{coordinates_of};
    ghost use Rattle.olr_road.specs.RoadMap.{RoadLine, line_of};

    ghost Value = { RoadLine };

    ghost view = { λ m. line_of m.line (map coordinates_of m.points.now) };

    ghost use Rattle.olr_shape.specs.inner.Measured.{IsMeasured};

    ghost invariant = { λ m.
        IsMeasured (line_of m.line (map coordinates_of m.points.now)) m.arcs.items };
}

/// The arcs of the spots of a polyline, in centimetres.
fn arcs_of(polyline: &[Spot]) -> ArrayVec<u64, MAX_POINTS>
    requires { IsPolyline polyline.now }
    ensures { AreArcs polyline.now result.items }
{
    distances();
    let mut arcs = ArrayVec::new();
    let mut arc = 0;
    for start in 0..polyline.len() - 1 {
        arcs.push(arc);
        arc += distance(polyline[start], polyline[start + 1]);
    }
    arcs.push(arc);
    arcs
}

/// The line of a rank, measured.
pub(crate) fn measured(map: &Map, rank: u32) -> MeasuredLine<'_>
    requires { rank < length map.now.lines }
    ensures { slice_get map.now.lines rank ≡ Some result }
{
    let points = map.points(rank);
    let plane = Plane::at(points[0]);
    MeasuredLine {
        line: map.line(rank),
        points,
        arcs: arcs_of(&polyline_of_line(map, &plane, rank)),
    }
}

impl<'a> MeasuredLine<'a> {
    /// Its points.
    pub(crate) fn points(&self) -> &'a [Degrees]
        ensures points { map coordinates_of result.now ≡ self.now.points }
        ensures measurable { IsMeasurable self.now }
    {
        self.points
    }

    /// The arc of a position in decimetres, as a multiple of 1 / length.
    pub(crate) fn arc_of_position(&self, at: u32) -> u128
        ensures { result ≡ arc_of_position self.now.points self.now.length at }
    {
        u128::from(self.arcs[self.arcs.len() - 1]) * u128::from(at)
    }

    /// The arc of the point of a number, counted from 0, as a multiple of 1 / length.
    pub(crate) fn arc_of_point(&self, number: usize) -> u128
        requires { number < length self.now.points }
        ensures arc { result ≡ arc_of_point self.now.points self.now.length number }
        ensures at_most { result ≤ 2 ^ 66 }
    {
        u128::from(self.arcs[number]) * u128::from(self.line.length)
    }
}
