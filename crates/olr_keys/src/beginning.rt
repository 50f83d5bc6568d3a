//! The beginning of a matching, which a finder completes layer by layer.

ghost use Rattle.std.specs.Prelude.{◌≡◌, ◌+◌, ◌<◌, ◌^◌, [], ◌∷◌, ◌++◌, Some, length};

use arrayvec::ArrayVec;

/// The beginning of a matching: a candidate of each of the first layers.
#[derive(Drop)]
pub(crate) struct Beginning {
    /// The rank of the last of these candidates, `None` where there are none.
    pub(crate) before: Option<u8>,
    /// The sum of their penalties and of those of the legs between them.
    pub(crate) total: u16,
    /// Their ranks.
    pub(crate) ranks: ArrayVec<u8, 32>,
}

/// These ranks and one more.
fn with_rank(ranks: &ArrayVec<u8, 32>, rank: u8) -> ArrayVec<u8, 32>
    requires { length ranks.now.items < 32 }
    ensures { result.items ≡ ranks.now.items ++ rank ∷ [] }
{
    let mut longer = ArrayVec::new();
    for other in ranks.as_slice() {
        longer.push(*other);
    }
    longer.push(rank);
    longer
}

impl Beginning {
    /// The beginning without candidates.
    pub(crate) fn new() -> Beginning
        ensures { result ≡ record { before = None; total = 0; ranks = record { items = [] } } }
    {
        Beginning {
            before: None,
            total: 0,
            ranks: ArrayVec::new(),
        }
    }

    /// This beginning and the candidate of this rank in the next layer. `sum` is that of its
    /// penalty and that of the leg to it.
    pub(crate) fn longer(&self, rank: u8, sum: u16) -> Beginning
        requires layers { length self.now.ranks.items < 32 }
        requires total { self.now.total + sum < 2 ^ 16 }
        ensures before { result.before ≡ Some rank }
        ensures total { result.total ≡ self.now.total + sum }
        ensures ranks { result.ranks.items ≡ self.now.ranks.items ++ rank ∷ [] }
    {
        Beginning {
            before: Some(rank),
            total: self.total + sum,
            ranks: with_rank(&self.ranks, rank),
        }
    }
}
