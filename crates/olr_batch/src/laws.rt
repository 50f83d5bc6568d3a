//! A law on the lines of records: the contract of a function that does nothing at run time.

ghost use Rattle.olr_batch.specs.Line.{LineIsObject};

/// The line of a record whose answer is the JSON text of a value is the line of an object that has
/// this value under the name `answer`. (GeoJSON has numbers that such values don't have.)
#[tactic(auto, using(crate::proofs::Tokens::line_is_object))]
pub fn json_answers_are_members()
    ensures { LineIsObject }
{}
