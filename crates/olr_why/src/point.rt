//! A point of a reference: its candidates, and the lines nearest to it.

use olr_candidates::NearLine;
use std::marker::Model;

/// A point of a reference.
#[derive(Debug, Drop)]
pub struct PointReason {
    /// How many candidates it has, 0 to 64; none where they are more.
    pub candidates: Option<u8>,
    /// The lines nearest to it, by distance and then by id.
    pub nearest: Vec<NearLine>,
}

impl Model for PointReason {
    ghost use Rattle.olr_why.specs.Values.{PointValue};

    ghost Value = { PointValue };

    ghost view = { λ point. record {
      candidates = point.candidates;
      nearest = point.nearest.items;
    } };
}
