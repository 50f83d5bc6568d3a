//! Laws on the entries of matchings. Each law is the contract of a function that does nothing at
//! run time.

ghost use Rattle.olr_report.specs.EntryLaws.{OneEntries, OneEntry, OneOfParts, SoundCanBeShown};

use crate::laws::one_route_of_steps;
use olr_matching::one_matched;

/// A matching is one value: a key has one entry at most on a map, and keys have one list of them at
/// most; and so have keys with parts of each, whichever these are. A page's text and its JSON are
/// made of its entries, of the key after which more follow, and of the mark, with the ids of the
/// map: there is one at most.
pub fn one_entry()
    ensures parts { OneOfParts }
    ensures entry { OneEntry }
    ensures entries { OneEntries }
{
    one_matched();
    one_route_of_steps();
}

/// Sound parts, as the matching of every key has them, can be shown:
/// [`text_page`](crate::text_page) takes them.
pub fn sound_parts_can_be_shown()
    ensures { SoundCanBeShown }
{}
