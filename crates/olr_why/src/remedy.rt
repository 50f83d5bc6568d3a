//! What would help a reference without a matching.

use olr_candidates::Tolerance;
use olr_keys::Key;

/// What is changed, all else being the same.
#[derive(Clone, Copy, Debug, PartialEq, Eq)]
pub enum Change {
    /// A tolerance has this value.
    Set(Tolerance, u32),
    /// No turn of the map is banned.
    WithoutBans,
}

/// A change that would help, and the first matching that it gives, if it gives one.
#[derive(Debug, Drop)]
pub struct Remedy {
    /// The change.
    pub change: Change,
    /// The key of the first matching; none where a point had too many candidates, and now none has,
    /// but there is no matching either.
    pub matching: Option<Key>,
}
