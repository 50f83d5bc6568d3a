//! What is told of places by a confidence.

use olr_confidence::{MapRange, Reason};
use std::marker::Model;

/// What is told of a place.
#[derive(Debug, Drop)]
pub struct ToldPlace {
    /// How probable it is that it is the right one, in millionths.
    pub probability: u64,
    /// Why it is no more probable.
    pub reasons: Vec<Reason>,
}

impl Model for ToldPlace {
    ghost use Rattle.olr_likely.specs.Values.{ToldPlaceValue};

    ghost Value = { ToldPlaceValue };

    ghost view = { λ told. record { probability = told.probability; reasons = told.reasons.items } };
}

/// What is told of all places together.
#[derive(Clone, Copy, Debug, PartialEq, Eq)]
pub struct ToldPlaces {
    /// How probable it is that none of those that were looked at is right, in millionths: not known where
    /// a number differs from those of the confidence, nor of a point along a line.
    pub none: Option<u64>,
    /// How different the sender's map is, where that is known and the confidence says it.
    pub map_differs: Option<MapRange>,
}
