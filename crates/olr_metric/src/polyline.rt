//! Polylines, the shapes of roads.

ghost use Rattle.std.specs.Prelude.{◌≡◌, ◌≢◌, ◌+◌, ◌*◌, ◌<◌, ◌≤◌, ◌^◌, suc, min, length, slice_get, Some, All, false};
ghost use Rattle.olr_metric.specs.declared.spot.Spot.{Spot};
ghost use Rattle.olr_metric.specs.Polyline.{arc, arc_at, IsPolyline, IsNearest, IsNearestSegment, IsSegmentAt, IsAlong};
ghost use Rattle.olr_metric.specs.Spot.{IsInPlane, distance};
ghost use Rattle.olr_metric.specs.Segment.{foot, spot_between};

use crate::root::{root_of, squared};
use crate::segment::{foot, spot_between, square_outside};
use crate::spot::{Spot, distance, square_distance};

/// Where a polyline is nearest to a spot.
#[derive(Clone, Copy, Debug, PartialEq, Eq)]
pub struct Near {
    /// The distance to that spot of the polyline, in centimetres.
    pub distance: u64,
    /// The arc of that spot, in centimetres from the start of the polyline.
    pub arc: u64,
    /// That spot.
    pub spot: Spot,
}

/// The length of the part of a polyline before one of its spots, in centimetres. Spots are numbered
/// from 0.
#[tactic(auto, using(crate::proofs::Arcs::arc_more))]
fn arc_to(spots: &[Spot], last: usize) -> u64
    requires in_plane { All IsInPlane spots.now }
    requires at_most { length spots.now ≤ 66 }
    requires last { last < length spots.now }
    ensures arc { result ≡ arc_at spots.now last }
    ensures at_most { result ≤ 66 * 2 ^ 35 }
{
    let mut arc = 0;
    for end in 0..last {
        arc += distance(spots[end], spots[end + 1]);
    }
    arc
}

/// The length of a polyline in centimetres: the sum of the distances of neighbours.
#[tactic(auto, using(crate::proofs::Arcs::arc_positive, crate::proofs::Arcs::arc_all))]
pub fn arc(spots: &[Spot]) -> u64
    requires { IsPolyline spots.now }
    ensures arc { result ≡ arc spots.now }
    ensures positive { 0 < result }
    ensures at_most { result ≤ 66 * 2 ^ 35 }
{
    arc_to(spots, spots.len() - 1)
}

/// The segment of a polyline that is nearest to a spot.
#[derive(Clone, Copy, Drop)]
struct NearestSegment {
    /// Its number, from 0.
    segment: usize,
    /// The foot of the spot on it.
    foot: Spot,
    /// The distance of the spot from that foot, in centimetres.
    distance: u64,
}

/// The foot of a spot on a segment. Segments are numbered from 0.
fn foot_on(spots: &[Spot], p: Spot, segment: usize) -> Spot
    requires in_plane { All IsInPlane spots.now }
    requires p { IsInPlane p }
    requires segment { segment + 1 < length spots.now }
    ensures foot { (a b : Spot) → slice_get spots.now segment ≡ Some a
        → slice_get spots.now (suc segment) ≡ Some b → result ≡ foot p a b }
    ensures in_plane { IsInPlane result }
{
    foot(p, spots[segment], spots[segment + 1])
}

/// Whether a segment may be less than so many centimetres away from a spot: true wherever it is.
fn may_be_nearer(spots: &[Spot], p: Spot, segment: usize, least: u64) -> bool
    requires in_plane { All IsInPlane spots.now }
    requires p { IsInPlane p }
    requires segment { segment + 1 < length spots.now }
    requires least { least < 2 ^ 35 }
    ensures { result ≡ false → (a b : Spot) → slice_get spots.now segment ≡ Some a
        → slice_get spots.now (suc segment) ≡ Some b → least ≤ distance p (foot p a b) }
{
    square_outside(p, spots[segment], spots[segment + 1]) < squared(least)
}

/// The segment nearest to a spot: the first where several are equally near.
///
/// Distances are rounded down, so one is less than a whole number exactly where its square is less
/// than that number's square. No root is taken where the segment isn't nearer, and no foot where
/// its ends tell already.
fn nearest_segment(spots: &[Spot], p: Spot) -> NearestSegment
    requires in_plane { All IsInPlane spots.now }
    requires p { IsInPlane p }
    requires at_least { 2 ≤ length spots.now }
    ensures within { result.segment + 1 < length spots.now }
    ensures nearest { (a b : Spot) → slice_get spots.now result.segment ≡ Some a
        → slice_get spots.now (suc result.segment) ≡ Some b
        → IsNearestSegment spots.now p result.segment a b }
    ensures foot { (a b : Spot) → slice_get spots.now result.segment ≡ Some a
        → slice_get spots.now (suc result.segment) ≡ Some b → result.foot ≡ foot p a b }
    ensures distance { result.distance ≡ distance p result.foot }
    ensures in_plane { IsInPlane result.foot }
{
    let mut nearest = 0;
    let mut foot = foot_on(spots, p, 0);
    let mut least = distance(p, foot);
    for segment in 1..spots.len() - 1 {
        if !may_be_nearer(spots, p, segment, least) {
            continue;
        }
        let found = foot_on(spots, p, segment);
        let square = square_distance(p, found);
        if square >= squared(least) {
            continue;
        }
        nearest = segment;
        foot = found;
        least = root_of(square);
    }
    NearestSegment {
        segment: nearest,
        foot,
        distance: least,
    }
}

/// The lesser of the distances from a spot to two others, in centimetres.
#[tactic(auto, using(crate::proofs::Roots::root_min))]
fn lesser_distance(from: Spot, a: Spot, b: Spot) -> u64
    requires from { IsInPlane from }
    requires a { IsInPlane a }
    requires b { IsInPlane b }
    ensures lesser { result ≡ min (distance from a) (distance from b) }
    ensures at_most { result < 2 ^ 35 }
{
    root_of(square_distance(from, a).min(square_distance(from, b)))
}

/// Where a polyline is nearest to a spot: at the spot's foot on the nearest segment, the first of
/// those equally near. All lengths are in centimetres, rounded down.
#[tactic(auto, using(crate::proofs::Nearests::is_nearest, crate::proofs::Nearests::arc_is_within))]
pub fn nearest(spots: &[Spot], p: Spot) -> Near
    requires polyline { IsPolyline spots.now }
    requires p { IsInPlane p }
    ensures nearest { IsNearest spots.now p result }
    ensures in_plane { IsInPlane result.spot }
    ensures within { result.arc ≤ arc spots.now }
{
    let NearestSegment {
        segment,
        foot,
        distance,
    } = nearest_segment(spots, p);
    let beyond_start = lesser_distance(spots[segment], foot, spots[segment + 1]);
    Near {
        distance,
        arc: arc_to(spots, segment) + beyond_start,
        spot: foot,
    }
}

/// The first segment whose end has an arc of at least `s`, numbered from 0, and the arc of its
/// start.
fn segment_at(spots: &[Spot], s: u64) -> (usize, u64)
    requires polyline { IsPolyline spots.now }
    requires s { s ≤ arc spots.now }
    ensures within { result.0 + 1 < length spots.now }
    ensures start { result.1 ≡ arc_at spots.now result.0 }
    ensures before { result.1 ≤ s }
    ensures segment { (a b : Spot) → slice_get spots.now result.0 ≡ Some a
        → slice_get spots.now (suc result.0) ≡ Some b
        → IsSegmentAt spots.now s result.0 a b }
{
    let mut start = 0;
    let last = spots.len() - 2;
    for segment in 0..last {
        let end = start + distance(spots[segment], spots[segment + 1]);
        if s <= end {
            return (segment, start);
        }
        start = end;
    }
    (last, start)
}

/// The spot of a segment at a length from its start, in centimetres.
#[tactic(auto, using(crate::proofs::SpotDistances::distance_positive))]
fn along_segment(a: Spot, b: Spot, s: u64) -> Spot
    requires a { IsInPlane a }
    requires b { IsInPlane b }
    requires apart { a ≢ b }
    requires s { s ≤ distance a b }
    ensures spot { result ≡ spot_between a b s (distance a b) }
    ensures in_plane { IsInPlane result }
{
    spot_between(a, b, u128::from(s), u128::from(distance(a, b)))
}

/// The spot of a polyline at an arc, in centimetres from its start.
pub fn along(spots: &[Spot], s: u64) -> Spot
    requires polyline { IsPolyline spots.now }
    requires s { s ≤ arc spots.now }
    ensures along { IsAlong spots.now s result }
    ensures in_plane { IsInPlane result }
{
    let (segment, start) = segment_at(spots, s);
    along_segment(spots[segment], spots[segment + 1], s - start)
}
