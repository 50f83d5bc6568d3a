//! Laws on verdicts and all reasons, with no code: each is the contract of a function that does
//! nothing at run time, and its body only names the laws on which it rests.

ghost use Rattle.olr_why.specs.Laws.{MatchHasAnswers, MatchingHasKey, OneVerdict, OneWhy};

use olr_candidates::{
    no_list_of_point_and_too_many, no_lists_and_too_many, one_list_of_nearest, one_list_of_point,
};
use olr_keys::one_list;
use olr_matching::{keys_of_matchings, one_layers};

/// Where the layers of a reference can be given, it has a matching exactly where their table has a
/// key.
pub fn matching_has_key()
    ensures { MatchingHasKey }
{
    keys_of_matchings();
}

/// A reference has one verdict at most.
pub fn one_verdict()
    ensures { OneVerdict }
{}

/// Where the layers of a reference can be given, the verdict is that there is a matching exactly
/// where their table has answers.
pub fn match_has_answers()
    ensures { MatchHasAnswers }
{
    matching_has_key();
    no_lists_and_too_many();
}

/// The map, the reference, the tolerances and the count of nearest lines determine the reasons, and
/// so their text and their JSON.
pub fn one_why()
    ensures { OneWhy }
{
    one_verdict();
    matching_has_key();
    one_list_of_point();
    no_list_of_point_and_too_many();
    one_list_of_nearest();
    one_list();
    one_layers();
}
