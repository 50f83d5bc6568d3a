//! What counts for and against a place, in whole numbers.

ghost use Rattle.std.specs.Prelude.{◌≤◌};

/// What counts for and against a place.
#[derive(Clone, Copy, Debug, PartialEq, Eq)]
pub struct Terms {
    /// How far the farthest point lies from its line, in thousandths of the route: 0 to 1000.
    pub distance: u64,
    /// By how many sectors the bearing of a point and that of its line differ at most, 0 to 16.
    pub direction: u8,
    /// How far the length of a leg lies outside of what the reference says, in thousandths: of the
    /// leg that misses most, 0 to 1000.
    pub leg: u64,
    /// The likely cost, in thirtieths of a penalty point.
    pub cost: u32,
    /// Whether the route turns back.
    pub turns_back: bool,
    /// How many points the reference has, 100 at most.
    pub points: u64,
    /// The square root of 16 times the number of lines of the route, which counts up to 100,000:
    /// rounded down, 0 to 1264.
    pub lines: u64,
    /// The square root of the length of the route in decimetres, which counts up to 1,000,000:
    /// rounded down, 0 to 1000.
    pub length: u64,
    pub ghost distance_at_most: { distance ≤ 1000 },
    pub ghost leg_at_most: { leg ≤ 1000 },
    pub ghost points_at_most: { points ≤ 100 },
    pub ghost lines_at_most: { lines ≤ 1264 },
    pub ghost length_at_most: { length ≤ 1000 },
}
