//! A ban on a turn.

ghost use Rattle.olr_road.specs.RoadMap.{ban_key};

use olr_index::Keyed;

/// A ban on a turn: a vehicle that reaches the end of one line may not go on to the other, which
/// may be the same line again.
#[derive(Clone, Copy, Debug, PartialEq, Eq, Drop)]
pub struct Ban {
    /// The rank of the line at whose end the turn begins.
    pub from: u32,
    /// The rank of the line that may not follow. It starts at the node at which the other one ends.
    pub to: u32,
}

impl Keyed for Ban {
    ghost key_of = { ban_key };

    /// Both ranks in one number, so that bans are sorted by `from` and then by `to`.
    fn key(&self) -> u64 {
        u64::from(self.from) * 0x1_0000_0000 + u64::from(self.to)
    }
}
