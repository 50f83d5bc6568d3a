//! Pairs of candidates of neighbouring layers.

ghost use Rattle.std.specs.Prelude.{◌≡◌, ◌+◌, ◌<◌, ◌≤◌, length, slice_index_or};
ghost use Rattle.olr_matching.specs.Layers.{LayersValue};
ghost use Rattle.olr_matching.specs.Matched.{AreRanks};
ghost use Rattle.olr_matching.specs.Routes.{IsAdmittedPair, slot_of};

/// Two candidates of neighbouring layers, by the layer of the first one, counted from 0, and their
/// ranks, from 1.
#[derive(Clone, Copy, Debug, PartialEq, Eq, PartialOrd, Ord)]
pub(crate) struct Pair {
    pub(crate) layer: usize,
    pub(crate) first: u8,
    pub(crate) second: u8,
}

/// The pair of the candidate in a layer and that in the next one, by the ranks of one candidate of
/// each layer.
pub(crate) fn pair_at(ranks: &[u8], layer: usize) -> Pair
    requires inside { layer + 1 < length ranks.now }
    requires at_most { length ranks.now ≤ 32 }

    ensures is { result ≡ record {
      layer = layer;
      first = slice_index_or ranks.now layer 0;
      second = slice_index_or ranks.now (layer + 1) 0;
    } }
    ensures admitted { (layers : LayersValue) → AreRanks layers ranks.now
        → IsAdmittedPair layers result }
{
    Pair {
        layer,
        first: ranks[layer],
        second: ranks[layer + 1],
    }
}

/// The number by which the route of a pair is kept.
pub(crate) fn slot(pair: Pair) -> u32
    requires { pair.layer < 31 }
    ensures { result ≡ slot_of pair.layer pair.first pair.second }
{
    65536 * (pair.layer as u32) + 256 * u32::from(pair.first) + u32::from(pair.second)
}
