//! The headline, with no code: it is the contract of an empty function.
//!
//! It speaks of the bytes of several runs that have the same files of a map, the same text of a
//! reference, the same tolerances and the same format, text or JSON, and that show the same of each
//! matching: in detail or not, with shapes or without. Each run begins at the cursor at the end of
//! the output before it, and may have a page size of its own. A text shows matchings by its rows, of
//! which the last one says whether more follow; JSON shows them by the values of the array
//! `matchings`, and has that cursor, or null, under the name `next`. In detail the rows or the value
//! of a matching say what speaks for it, too.

ghost use Rattle.olr_app_laws.specs.Headline.{AllAsOne, AllPages, EachHasCursor, GoesOnHere, Headline};
ghost use Rattle.olr_app_laws.specs.Headline.{NoneRefused, OneMatchings, RefusedByName, RunsEnd};
ghost use Rattle.olr_app_laws.specs.Headline.{SizesAgree};

use crate::laws::laws_below;

/// Take runs that follow each other, from the start or from the cursor of a matching, up to one
/// that says that there are no more matchings. What their outputs show, joined, is all matchings,
/// or exactly those after that matching: each once, by the total and then by the ranks, and in detail
/// with what speaks for it. Of texts the rows are joined, without the last row of each; of JSON the
/// members of the arrays. The inputs have one list of matchings. A text that is no reference is
/// refused by its name.
#[tactic(auto, using(crate::proofs::HeadlineChain::runs_join))]
pub fn outputs_join()
    ensures shown { Headline }
    ensures one { OneMatchings }
    ensures refused { RefusedByName }
{
    laws_below();
}

/// Every page size gives the same bytes: the texts of two such chains of runs that begin at the
/// same cursor, or both from the start, are the same without their last rows.
#[tactic(auto, using(crate::proofs::HeadlineChain::sizes_agree))]
pub fn outputs_agree()
    ensures { SizesAgree }
{
    laws_below();
}

/// Each matching has a cursor, and so has the end of each output after which more follow. A run
/// that begins at such a cursor is never refused: only for want of memory, or where a device fails,
/// does it end without its output. Runs that go on so come to an end: there are no more of them
/// than matchings.
#[tactic(auto, using(crate::proofs::HeadlineCursors::each_has_cursor, crate::proofs::HeadlineChain::runs_end))]
pub fn cursors_go_on()
    ensures each { EachHasCursor }
    ensures next { GoesOnHere }
    ensures answer { NoneRefused }
    ensures end { RunsEnd }
{
    laws_below();
}

/// What a request for all pages writes as text or JSON is what runs write that follow each other from
/// the start, with pages of the same size: all outputs, one after the other. As GeoJSON it is one
/// collection of all matchings, whatever the size of a page.
pub fn all_pages_follow()
    ensures pages { AllPages }
    ensures geojson { AllAsOne }
{
    laws_below();
}
