//! Laws of texts and their bytes. Each is the contract of an empty function.

ghost use Rattle.std.specs.Prelude.{◌≡◌, ℕ, List, Result};
ghost use Rattle.olr_binary.specs.declared.reference.Reference.{Reference};
ghost use Rattle.olr_binary.specs.declared.refusal.Refused.{Refused};
ghost use Rattle.olr_binary.specs.Outcome.{IsOutcome};
ghost use Rattle.olr_binary.specs.Reference.{IsReferenceOf};

/// A byte list has at most one reference.
#[tactic(auto, using(crate::proofs::References::reference_is_one))]
pub fn one_reference()
    ensures { (bytes : List ℕ) (one other : Reference) → IsReferenceOf bytes one
        → IsReferenceOf bytes other → one ≡ other }
{}

/// A text has at most one outcome. [`crate::decode`] gives one.
#[tactic(auto, using(crate::proofs::Unique::outcome_is_one))]
pub fn one_outcome()
    ensures { (text : List ℕ) (one other : Result Reference Refused) → IsOutcome text one
        → IsOutcome text other → one ≡ other }
{}
