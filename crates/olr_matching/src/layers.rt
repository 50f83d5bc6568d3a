//! The layers of a reference on a map.

ghost use Rattle.std.specs.Prelude.{◌≡◌, ◌≤◌, [], length, slice_index_or};

use arrayvec::ArrayVec;
use olr_binary::Reference;
use olr_candidates::{Candidate, MAX_CANDIDATES, Tolerances};
use olr_keys::Table;
use std::marker::Model;

/// The layers of a reference on a map: the candidates of each point, and the table of their
/// penalties and of the legs between them.
#[derive(Drop)]
pub struct Layers {
    pub(crate) reference: Reference,
    pub(crate) tolerances: Tolerances,
    pub(crate) candidates: Vec<ArrayVec<Candidate, MAX_CANDIDATES>>,
    // For each leg, by the rank of its first candidate and then by that of its second one: the
    // length in decimetres.
    pub(crate) lengths: Vec<Vec<Option<u32>>>,
    pub(crate) table: Table,
}

impl Model for Layers {
    ghost use Rattle.olr_matching.specs.Layers.{LayersValue, lengths_of};
    ghost use Rattle.olr_candidates.specs.Points.{lists_of};

    ghost Value = { LayersValue };

    ghost view = { λ l. record {
      reference = l.reference;
      tolerances = l.tolerances;
      candidates = lists_of l.candidates.items;
      lengths = lengths_of l.lengths.items;
      penalties = l.table;
    } };
}

impl Layers {
    /// The reference whose layers these are.
    pub fn reference(&self) -> &Reference
        ensures { result.now ≡ self.now.reference }
    {
        &self.reference
    }

    /// The tolerances that they were built with.
    pub fn tolerances(&self) -> &Tolerances
        ensures { result.now ≡ self.now.tolerances }
    {
        &self.tolerances
    }

    /// The penalties of all candidates and legs.
    pub fn table(&self) -> &Table
        ensures { result.now ≡ self.now.penalties }
    {
        &self.table
    }

    /// The candidates of a layer, counted from 0, by rank, at most 64; none after the last layer.
    pub fn layer(&self, layer: usize) -> &[Candidate]
        ensures layer { result.now ≡ slice_index_or self.now.candidates layer [] }
        ensures at_most { length result.now ≤ 64 }
    {
        let Some(candidates) = self.candidates.get(layer) else {
            return &[];
        };
        candidates.as_slice()
    }

    /// The lengths in decimetres with which the leg from a layer, counted from 0, admits each two
    /// candidates, by the rank of the first and then by that of the second; none after the last
    /// leg.
    pub fn lengths(&self, layer: usize) -> &[Option<u32>]
        ensures { result.now ≡ slice_index_or self.now.lengths layer [] }
    {
        let Some(lengths) = self.lengths.get(layer) else {
            return &[];
        };
        lengths
    }
}
