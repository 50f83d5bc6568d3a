//! Laws on the answers of a table and their pages. Each law is the contract of a function that does
//! nothing at run time.

ghost use Rattle.olr_keys.specs.Laws.{HasList, KeysAreInRange, OneList, RemainingAreBelow};
ghost use Rattle.olr_keys.specs.Laws.{NoPageBehindOthers, OneChain, OnePage, PagesJoin};
ghost use Rattle.olr_keys.specs.Laws.{TotalsAreBelow};

/// A table has exactly one list of answers: the keys of all matchings, strictly rising.
pub fn one_list()
    ensures at_most { OneList }
    ensures at_least { HasList }
{}

/// The key of a matching has a total of at most 14,620 and 2 to 32 ranks, each from 1 to 64.
#[tactic(auto, using(crate::proofs::Ranges::key_in_range))]
pub fn keys_are_in_range()
    ensures { KeysAreInRange }
{}

/// Each remaining total of a candidate, and the total of each matching, is below the width W of the
/// table: one more than the sum of the greatest penalty of each layer and of the legs between each
/// two neighbouring layers.
pub fn totals_are_below_width()
    ensures remaining { RemainingAreBelow }
    ensures totals { TotalsAreBelow }
{}

/// Take pages by separate calls of `page`, each after the last key of the one before, up to the
/// first page without `more`: joined, they are exactly the keys after the position at which the
/// first page began: the keys after a key, or all keys.
pub fn pages_join()
    ensures { PagesJoin }
{}

/// The answers of a table have at most one page of a size after a position: two such pages have
/// the same keys and the same `more`.
pub fn one_page()
    ensures { OnePage }
{}

/// They have at most one list of all pages of a size, and at most one of the pages after a key: two
/// such lists have the same pages in the same order.
pub fn one_chain()
    ensures { OneChain }
{}

/// A list has a page after a key only where it contains the key: where the list is the answers of a
/// table, a key that isn't a matching's has no page.
pub fn no_page_behind_others()
    ensures { NoPageBehindOthers }
{}
