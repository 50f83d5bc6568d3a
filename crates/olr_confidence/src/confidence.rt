//! What is known of how probable places are: by which numbers they were asked for, and what each
//! difference weighs.

ghost use Rattle.std.specs.Prelude.{◌≤◌, ◌^◌, nat_abs};

/// The numbers by which places were asked for.
#[derive(Clone, Copy, Debug, PartialEq, Eq)]
pub struct AskedNumbers {
    /// The radius, in metres.
    pub radius: u64,
    /// How far bearings may differ, in sectors.
    pub bearing: u64,
    /// How far classes may differ.
    pub class: u64,
    /// What is added to the lowest class of a leg.
    pub lowest: u64,
    /// How far the interval of a leg is widened, in percent.
    pub percent: u64,
    /// How far it is then widened, in decimetres.
    pub slack: u64,
    /// The longest stretch that two matchings of one place may miss of each other, in decimetres.
    pub apart: u64,
}

/// What each difference weighs: a worth that is 2^24 greater is twice the share. The first five lower
/// the worth of a place and are from 0 to 2^28. The others make that of "none of these", by the
/// likeliest place, and are from -2^32 to 2^32.
#[derive(Clone, Copy, Debug, PartialEq, Eq)]
pub struct Weights {
    /// A thousandth of the route by which a point lies from its line: of the farthest point.
    pub distance: u64,
    /// A sector between a point and its line: of the point that differs most.
    pub direction: u64,
    /// A thousandth by which a leg misses what the reference says: of the leg that misses most.
    pub leg: u64,
    /// A thirtieth of a penalty point of likely cost beyond that of the likeliest place.
    pub behind: u64,
    /// A route that turns back.
    pub turning_back: u64,
    /// None of these, of a reference of two points.
    pub none: i64,
    /// Each further point of the reference.
    pub none_points: i64,
    /// One of the square root of 16 times the number of lines of the route.
    pub none_lines: i64,
    /// One of the square root of its length in decimetres.
    pub none_length: i64,
    pub ghost distance_in_range: { distance ≤ 2 ^ 28 },
    pub ghost direction_in_range: { direction ≤ 2 ^ 28 },
    pub ghost leg_in_range: { leg ≤ 2 ^ 28 },
    pub ghost behind_in_range: { behind ≤ 2 ^ 28 },
    pub ghost turning_back_in_range: { turning_back ≤ 2 ^ 28 },
    pub ghost none_in_range: { nat_abs none ≤ 2 ^ 32 },
    pub ghost none_points_in_range: { nat_abs none_points ≤ 2 ^ 32 },
    pub ghost none_lines_in_range: { nat_abs none_lines ≤ 2 ^ 32 },
    pub ghost none_length_in_range: { nat_abs none_length ≤ 2 ^ 32 },
}

/// How different the sender's map is, in thousandths: 1000 as another maker's.
#[derive(Clone, Copy, Debug, PartialEq, Eq)]
pub struct MapRange {
    /// The number itself.
    pub value: u64,
    /// Where its interval of 95 percent begins.
    pub low: u64,
    /// And where it ends.
    pub high: u64,
    pub ghost from: { low ≤ value },
    pub ghost to: { value ≤ high },
}

/// A confidence: what its file says.
#[derive(Clone, Copy, Debug, PartialEq, Eq)]
pub struct Confidence {
    /// The numbers that it is for.
    pub asked: AskedNumbers,
    /// What each difference weighs.
    pub weights: Weights,
    /// How different the sender's map is, if that is known.
    pub map_differs: Option<MapRange>,
}
