//! The law on the test of closeness, with no code: it is the contract of an empty function.

ghost use Rattle.olr_places.specs.Laws.{MissingIsComputed, TestsCloseness};

/// What a part misses of another one is the longest run of neighbouring steps of the other one none
/// of which is a step of the part, and so it is computed. The test of closeness holds exactly for
/// matchings that are close.
#[tactic(auto, using(crate::proofs::CloseLaws::computed, crate::proofs::CloseLaws::tests))]
pub fn closeness_is_tested()
    ensures missing { MissingIsComputed }
    ensures tests { TestsCloseness }
{}
