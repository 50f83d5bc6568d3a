//! The laws on the answers to records.

ghost use Rattle.olr_app_laws.specs.RecordLaws.{AnswersAreOfRuns, BatchFaultIsAnswers};
ghost use Rattle.olr_app_laws.specs.RecordLaws.{BatchIsAnswer, FaultsAreOfRuns, LawsBelow, OneAnswer};
ghost use Rattle.olr_app_laws.specs.RecordLaws.{LinesAreOfRuns, OneReply, RequestFaultsAreOfRuns, RequestsAreOfRuns};

use crate::laws::answers_of_many;
use olr_words::one_request_of_record;

/// The laws that it rests on.
fn laws_below()
    ensures { LawsBelow }
{
    answers_of_many();
    one_request_of_record();
}

/// The answer to a record that is a reference is what [`run`](olr_app::run) prints for it alone on
/// the same files, as JSON: the same bytes for candidates, places and reasons, and for matchings the
/// same page, but for the mark in the cursor at its end. Where that run ends with a fault of the
/// texts, the record has this fault. So it has one answer or one fault by its text, whatever stands
/// before it.
pub fn answers_are_of_runs()
    ensures answer { AnswersAreOfRuns }
    ensures fault { FaultsAreOfRuns }
    ensures one { OneAnswer }
{
    laws_below();
}

/// The text of a record has one answer at most, or one fault in place of it, and not both: a function
/// of the map, of what records are and of the text alone, whatever stands before it. That holds of
/// references and of whole requests, but for those for the legs of a matching, whose search may be cut
/// in more than one place. [`NoMemory`](olr_app::Fault::NoMemory) may come in place of
/// either, and the line for words that aren't understood isn't stated.
pub fn one_reply()
    ensures { OneReply }
{
    laws_below();
}

/// A text whose words ask the question of a reference, as `match --page 3 -- REF` does, is answered
/// as that reference is as a record of `batch` with this question: by the same answer or the same
/// fault. Of [`NoMemory`](olr_app::Fault::NoMemory) nothing is stated.
pub fn batch_is_answer()
    ensures answer { BatchIsAnswer }
    ensures fault { BatchFaultIsAnswers }
{
    laws_below();
}

/// The answer to a record that is a request is what [`run`](olr_app::run) prints for this request on
/// the same files: the same bytes, but for a page of matchings, which is the same but for the mark
/// in the cursor at its end. It has a fault in place of an answer exactly where that run ends with
/// this fault of the texts; of [`NoMemory`](olr_app::Fault::NoMemory) nothing is stated.
pub fn requests_are_of_runs()
    ensures answer { RequestsAreOfRuns }
    ensures fault { RequestFaultsAreOfRuns }
{
    laws_below();
}

/// The answer to a record that asks for lines of the map is what [`run_lines`](olr_app::run_lines)
/// prints for them on the same map: the same bytes.
pub fn lines_are_of_runs()
    ensures { LinesAreOfRuns }
{
    laws_below();
}
