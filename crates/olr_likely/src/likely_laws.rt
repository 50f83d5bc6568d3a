//! The laws on the likely order, with no code: they are the contracts of empty functions.

ghost use Rattle.olr_likely.specs.LikelyLaws.{CostsAreAtLeast, FirstIsLikeliest, NoneIsLess, NoneIsMissing, ShownAreFirst};

use olr_matching::keys_of_matchings;

/// The places that are shown are in the likely order, no more of them than are asked for; and no
/// place that was looked at costs less than the first one of them.
pub fn likeliest_is_first()
    ensures least { NoneIsLess }
    ensures in_order { ShownAreFirst }
    ensures likeliest { FirstIsLikeliest }
{}

/// No matching costs less than 6 times its total. So where looking was cut off, and no place is
/// said to be missing, no matching behind would be shown, by its gap or by its cost.
pub fn none_is_missing()
    ensures at_least { CostsAreAtLeast }
    ensures none_missing { NoneIsMissing }
{
    keys_of_matchings();
}
