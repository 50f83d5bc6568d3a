//! Laws of lengths in the plane. Each is the contract of an empty function.

ghost use Rattle.std.specs.Prelude.{◌≡◌, ◌↔◌, ℕ, ◌-◌, ◌≤◌, ℤ, ◌-ℤ◌, List, nat_abs};
ghost use Rattle.olr_metric.specs.declared.spot.Spot.{Spot};
ghost use Rattle.olr_metric.specs.declared.polyline.Near.{Near};
ghost use Rattle.olr_base.specs.Coordinates.{Coordinates};
ghost use Rattle.olr_metric.specs.Plane.{spot_of};
ghost use Rattle.olr_metric.specs.Polyline.{arc, IsAlong, IsNearest};
ghost use Rattle.olr_base.specs.Range.{IsLatitude};
ghost use Rattle.olr_metric.specs.Segment.{foot, IsBetween};
ghost use Rattle.olr_metric.specs.Spot.{distance};

/// Only equal spots are at distance 0, and the distance is symmetric.
pub fn distances()
    ensures zero { (a b : Spot) → (distance a b ≡ 0) ↔ (a ≡ b) }
    ensures symmetric { (a b : Spot) → distance a b ≡ distance b a }
{}

/// A distance is at least the difference of the y coordinates.
#[tactic(auto, using(crate::proofs::AlongAxes::north_within))]
pub fn no_shorter_than_north()
    ensures { (a b : Spot) → nat_abs (a.y -ℤ b.y) ≤ distance a b }
{}

/// A distance is at least the difference of the x coordinates.
#[tactic(auto, using(crate::proofs::AlongAxes::east_within))]
pub fn no_shorter_than_east()
    ensures { (a b : Spot) → nat_abs (a.x -ℤ b.x) ≤ distance a b }
{}

/// Unequal coordinates have unequal spots in a plane.
#[tactic(auto, using(crate::proofs::OnePlace::one_place))]
pub fn one_place_a_spot()
    ensures { (origin a b : Coordinates) → IsLatitude origin.lat
        → spot_of origin a ≡ spot_of origin b → a ≡ b }
{}

/// Each coordinate of a foot lies between those of the segment's ends.
pub fn foot_on_segment()
    ensures x { (p a b : Spot) → IsBetween a.x b.x (foot p a b).x }
    ensures y { (p a b : Spot) → IsBetween a.y b.y (foot p a b).y }
{}

/// A polyline has one nearest spot to another, and one spot at an arc.
pub fn one_spot()
    ensures nearest { (spots : List Spot) (p : Spot) (a b : Near) → IsNearest spots p a
        → IsNearest spots p b → a ≡ b }
    ensures along { (spots : List Spot) (s : ℕ) (a b : Spot) → IsAlong spots s a
        → IsAlong spots s b → a ≡ b }
{}

/// The arc of the nearest spot is at most the arc of the polyline.
pub fn nearest_within()
    ensures { (spots : List Spot) (p : Spot) (near : Near) → IsNearest spots p near
        → near.arc ≤ arc spots }
{}
