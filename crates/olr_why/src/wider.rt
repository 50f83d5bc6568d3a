//! A law on wider tolerances. It is the contract of a function that does nothing at run time.

ghost use Rattle.olr_why.specs.Laws.{WiderKeeps};

use olr_candidates::one_candidate_a_line;

/// A wider tolerance, of any name but `Lowest`, keeps each matching, and that a point has more than
/// 64 candidates.
pub fn wider_keeps()
    ensures { WiderKeeps }
{
    one_candidate_a_line();
}
