//! Laws on joined routes and on the two parts of a line. Each is the contract of a function that
//! does nothing at run time.

ghost use Rattle.olr_report.specs.PartLaws.{InnerLiesWithinOuter};

/// The inner part of a line lies within the outer one: where there is an inner part there is an
/// outer one, and no step of the inner part lies outside it.
#[tactic(auto, using(crate::proofs::Within::inner_within))]
pub fn inner_lies_within_outer()
    ensures { InnerLiesWithinOuter }
{}
