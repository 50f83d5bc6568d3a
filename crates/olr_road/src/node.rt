//! A node of a map.

ghost use Rattle.olr_road.specs.Entries.{node_key};

use olr_base::Degrees;
use olr_index::Keyed;

/// A node of a map: an end of lines.
#[derive(Clone, Copy, Debug, PartialEq, Eq, Drop)]
pub struct Node {
    /// Its id, from 1 to 2^53.
    pub id: u64,
    /// Where it lies.
    pub place: Degrees,
}

impl Keyed for Node {
    ghost key_of = { node_key };

    fn key(&self) -> u64 {
        self.id
    }
}
