//! Laws on answers, with no code: each is the contract of an empty function.
//!
//! [`one_answer`] speaks of a request and of the texts of the files of a map; a request to show a
//! reference depends on its own text alone. A fault of texts is the refusal of the reference or of
//! the text of a cursor, or the fault of the files, or that a cursor is of other inputs, or the
//! first point that has too many candidates, or that no matching has a cursor's key. Want of memory
//! and the failure of a device are not among them: they may come in place of the output, and of a
//! fault of the files.

ghost use Rattle.std.specs.Prelude.{ℕ, List};
ghost use Rattle.olr_map.specs.Files.{known};
ghost use Rattle.olr_app.specs.Answer.{IsAnswer};
ghost use Rattle.olr_app_laws.specs.AnswerLaws.{FaultIsOfRun, OneAnswerOfMany};
ghost use Rattle.olr_app_laws.specs.AnswerLaws.{OutputIsOfRun};
ghost use Rattle.olr_app_laws.specs.Laws.{Laws};
ghost use Rattle.olr_app.specs.Stages.{IsSingle};
ghost use Rattle.olr_request.specs.declared.request.Request.{Request};

use olr_binary::one_outcome;
use olr_candidates::{no_lists_and_too_many, one_first_too_many, one_lists};
use olr_detail::one_detail;
use olr_fingerprint::fingerprint_is_mark;
use olr_keys::{
    keys_are_in_range, no_page_behind_others, one_chain, one_cursor, one_list, one_page,
};
use olr_likely::one_shown;
use olr_map::{no_map_and_fault, one_fault, one_map};
use olr_matching::one_layers;
use olr_places_laws::one_looking;
use olr_report::{json_reads_as_page, one_entry};
use olr_why::one_why;

/// The laws of the crates below.
pub(crate) fn laws_below()
    ensures { Laws }
{
    one_outcome();
    one_map();
    one_fault();
    no_map_and_fault();
    one_lists();
    one_first_too_many();
    no_lists_and_too_many();
    one_layers();
    keys_are_in_range();
    one_list();
    one_page();
    one_chain();
    no_page_behind_others();
    one_cursor();
    fingerprint_is_mark();
    one_entry();
    json_reads_as_page();
    one_detail();
    one_looking();
    one_shown();
    one_why();
}

/// A request has one answer by the texts at most: one output, or one fault, and not both.
pub fn one_answer()
    ensures { (nodes lines bans : List ℕ) (request : Request)
        → IsSingle (IsAnswer (known nodes lines bans) request) }
{
    laws_below();
}

/// The answer of one of many requests on a map is what a run for it alone prints on the same files:
/// the same bytes for candidates, places and reasons, and for one page of matchings as JSON or GeoJSON,
/// in detail or not, the same page, but for the mark in the cursor at its end. It has a fault exactly
/// where that run ends with this fault of the texts. On a map it has one answer at most or one fault,
/// and not both.
pub fn answers_of_many()
    ensures output { OutputIsOfRun }
    ensures fault { FaultIsOfRun }
    ensures one { OneAnswerOfMany }
{
    laws_below();
}
