//! What is known of the values of a tolerance while the least one that is enough is looked for.

use olr_keys::Key;

/// No value up to the low end is enough; the high end is enough, or too much.
#[derive(Drop)]
pub(crate) struct Bracket {
    /// The low end.
    pub low: u32,
    /// The high end, above the low one.
    pub high: u32,
    /// The key of the first matching that the high end gives; none where a point has more than 64
    /// candidates with it.
    pub first: Option<Key>,
}
