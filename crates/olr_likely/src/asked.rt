//! What is asked of the places of a reference.

use olr_confidence::Confidence;
use olr_places::PlaceLimits;

/// The order in which places are shown.
#[derive(Clone, Copy, Debug, PartialEq, Eq)]
pub enum PlaceOrder {
    /// In the order in which they opened, which is that of their totals.
    Total,
    /// By their likely costs.
    Likely,
}

/// What is asked of the places of a reference.
#[derive(Clone, Copy, Debug, PartialEq, Eq)]
pub struct AskedPlaces {
    /// How matchings are told apart, and how far they are looked at.
    pub limits: PlaceLimits,
    /// In which order the places are shown.
    pub order: PlaceOrder,
    /// Whether it is shown what speaks for each.
    pub detailed: bool,
    /// What says, in the likely order, how probable each is.
    pub confidence: Option<Confidence>,
}
