//! The law that what a confidence says of places is one thing, with no code: it is the contract of an
//! empty function.

ghost use Rattle.olr_confidence.specs.Laws.{OneProbability, OneReasons, OneTerms};

/// What counts for and against a place is one thing, so are the probabilities of the same places, and
/// so are the reasons of a place.
#[tactic(auto, using(crate::proofs::Once::terms_once, crate::proofs::Once::probability_once, crate::proofs::Once::reasons_once))]
pub fn one_probability()
    ensures terms { OneTerms }
    ensures probability { OneProbability }
    ensures reasons { OneReasons }
{}
