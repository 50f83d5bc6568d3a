//! Laws on places, verdicts and margins, with no code: each is the contract of a function that does
//! nothing at run time.

ghost use Rattle.olr_places_laws.specs.VerdictLaws.{AmbiguousIsElsewhere, LooksAtMost, MarginIsOfNearest};
ghost use Rattle.olr_places_laws.specs.VerdictLaws.{NoneWithoutMatching, OneLooking, OpenersAreApart};
ghost use Rattle.olr_places_laws.specs.VerdictLaws.{UniqueIsClose};

use olr_report::one_entry;

/// Looking at the matchings of a reference on a map gives one value at most. So its places have one
/// text and one JSON at most.
pub fn one_looking()
    ensures { OneLooking }
{
    one_entry();
}

/// At most as many matchings are looked at as are asked for, and at most as many places are listed.
pub fn looks_at_most()
    ensures { LooksAtMost }
{}

/// No two matchings that open a place are close.
#[tactic(auto, using(crate::proofs::Verdicts::openers_are_apart))]
pub fn openers_are_apart()
    ensures { OpenersAreApart }
{}

/// The verdict is `none` exactly where there is no matching. It is `unique` only where each
/// matching within the gap is close to the first one, and `ambiguous` only where one of them isn't,
/// whose place is listed.
pub fn verdict_of_matchings()
    ensures none { NoneWithoutMatching }
    ensures unique { UniqueIsClose }
    ensures ambiguous { AmbiguousIsElsewhere }
{
    one_entry();
}

/// The margin is the gap of the nearest matching that isn't close to the first one: each matching
/// with a lesser gap is close to it. Where there is none, each matching that was looked at is.
#[tactic(auto, using(crate::proofs::Verdicts::margin_is_of_nearest))]
pub fn margin_of_matchings()
    ensures { MarginIsOfNearest }
{
    one_entry();
}
