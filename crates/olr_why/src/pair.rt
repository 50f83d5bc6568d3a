//! Why a leg admits no pair of candidates: the lengths between the first candidates of its points.

ghost use Rattle.std.specs.Prelude.{◌≡◌};
ghost use Rattle.olr_why.specs.Text.{long_of, short_of};

/// The least class limit above that of the leg under which a pair has a lesser length.
#[derive(Clone, Copy, Debug, PartialEq, Eq)]
pub struct Better {
    /// The class limit, 1 to 7.
    pub class: u8,
    /// The least length under it, in decimetres.
    pub length: u64,
}

/// Two candidates of the points of a leg that doesn't admit them.
#[derive(Clone, Copy, Debug, PartialEq, Eq)]
pub struct PairLength {
    /// The rank of the candidate of its first point, 1 to 3.
    pub first: u8,
    /// The rank of the candidate of its second point, 1 to 3.
    pub second: u8,
    /// The least length from one to the other under the leg's class limit, in decimetres, where it
    /// is not too far for any percent and slack.
    pub length: Option<u64>,
    /// What another class limit gives, where that is less, and `length` is none or greater than the
    /// leg admits.
    pub better: Option<Better>,
}

impl PairLength {
    /// How far the length lies below the least one that the leg admits, in decimetres, where it
    /// does.
    pub fn short(&self, least: u64) -> Option<u64>
        ensures { result ≡ short_of least self.now.length }
    {
        let length = self.length?;
        if length < least {
            return Some(least - length);
        }
        None
    }

    /// How far the length lies above the greatest one that the leg admits, in decimetres, where it
    /// does.
    pub fn long(&self, greatest: u64) -> Option<u64>
        ensures { result ≡ long_of greatest self.now.length }
    {
        let length = self.length?;
        if greatest < length {
            return Some(length - greatest);
        }
        None
    }
}
