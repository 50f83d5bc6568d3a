//! What is answered to the text of a record.

ghost use Rattle.std.specs.Prelude.{◌≡◌, Err, IfErr, IfOk, IfSome, IsOk, Ok, string_bytes};
ghost use Rattle.olr_request.specs.Question.{asked_alone};
ghost use Rattle.olr_batch.specs.Answers.{IsAnswerTo, IsAsked, IsFaultFor, IsFaultTo, IsReply};
ghost use Rattle.olr_request.specs.Request.{query_with_confidence};
ghost use Rattle.olr_request.specs.declared.fault.Fault.{Fault};
ghost use Rattle.olr_request.specs.declared.request.Query.{Query as QueryOf};
ghost use Rattle.olr_request.specs.declared.request.Query.TheVariants.{Reference};
ghost use Rattle.olr_words.specs.Record.{IsQueryOfWords, parts_of};
ghost use Rattle.olr_words.specs.declared.record.RecordFault.TheVariants as record_fault;
ghost use Rattle.olr_words.specs.declared.asked.Records.TheVariants.{References, Requests};

use olr_app::{
    ConfidenceFile, Format, MapForRequests, Pages, Query, Question, Request, legs_on_map, lines_of,
};
use olr_words::{
    LastQuestion, RecordFault, RecordWords, Records, request_of_record, words_of_record,
};
use std::alloc::Global;

/// What the texts of records are, on the map that they are answered on.
#[derive(Drop)]
pub(crate) struct RecordsOnMap<'a> {
    /// What the texts are.
    pub records: &'a Records,
    /// The map.
    pub map: MapForRequests<'a>,
    /// The question that was kept last.
    pub last: LastQuestion,
}

/// The request that asks a question of the reference of a text. There is always one: it is a result
/// since the toolchain lends no request that is a call's bare value.
fn request_about<'a>(question: &Question, text: &'a str) -> Result<Request<'a>, RecordFault>
    ensures asked { IfOk result (λ request.
        request ≡ asked_alone question.now.what question.now.tolerances text.entry) }
    ensures always { IsOk result }
{
    Ok(question.request(text, Pages::One(None), Format::Json))
}

/// The answer to a question about the reference of a text.
///
/// # Errors
///
/// That of [`MapForRequests::answer`].
fn reply_to_reference(
    alloc: Global,
    on: &mut MapForRequests<'_>,
    question: &Question,
    text: &str,
) -> Result<String, RecordFault>
    ensures map { on.new.map ≡ on.old.map }
    ensures answer { IfOk result (λ answer. IsReply (References question.now) on.old.map.now text.now
        (string_bytes answer)) }
    ensures fault { IfErr result (IsFaultFor (References question.now) on.old.map.now text.now) }
{
    let request = request_about(question, text)?;
    let answer = on.answer(alloc, &request)?;
    Ok(answer)
}

/// The answer to what is asked.
///
/// # Errors
///
/// That of [`MapForRequests::answer`] or of [`legs_on_map`]; of lines only that the allocator refused
/// memory.
fn reply_to_query(
    alloc: Global,
    on: &mut MapForRequests<'_>,
    query: &Query<'_>,
) -> Result<String, RecordFault>
    ensures map { on.new.map ≡ on.old.map }
    ensures answer { IfOk result (λ answer.
        IsAnswerTo on.old.map.now query.now (string_bytes answer)) }
    ensures fault { IfErr result (λ why. (fault : Fault)
        × IsFaultTo on.old.map.now query.now fault × (why ≡ record_fault.Fault fault)) }
{
    match query {
        Query::Reference(request) => {
            let answer = on.answer(alloc, request)?;
            Ok(answer)
        }
        Query::Legs(asked) => {
            let answer = legs_on_map(alloc, on.map, asked)?;
            Ok(answer)
        }
        Query::Lines(asked) => {
            let answer = lines_of(alloc, on.map, asked)?;
            Ok(answer)
        }
    }
}

/// What a text asks for whose words are those of the last question, by this confidence.
fn asked_again<'a>(
    last: &LastQuestion,
    confidence: Option<ConfidenceFile>,
    text: &'a str,
) -> Option<Request<'a>>
    ensures { IfSome result
        (λ request. IsAsked (Requests confidence) text.now (Ok (Reference request))) }
{
    let Some(mut request) = last.asked_again(text) else {
        return None;
    };
    request.set_confidence(confidence);
    Some(request)
}

/// What the words of a record ask for, by this confidence.
///
/// # Errors
///
/// That of [`request_of_record`].
fn asked_by<'a, 'b: 'a>(
    alloc: Global,
    last: &mut LastQuestion,
    confidence: Option<ConfidenceFile>,
    words: &'a RecordWords<'b>,
) -> Result<Query<'a>, RecordFault>
    ensures asked { IfOk result (λ query. (own : QueryOf)
        × IsQueryOfWords (parts_of words.entry.now) (Ok own)
        × (query ≡ query_with_confidence confidence own)) }
    ensures fault { IfErr result (λ why. IsQueryOfWords (parts_of words.entry.now) (Err why)) }
{
    let mut query = request_of_record(alloc, last, words)?;
    query.set_confidence(confidence);
    Ok(query)
}

/// The answer to the request of a text, by this confidence where it asks for places. Words that are
/// those of the last question aren't understood again.
///
/// # Errors
///
/// That of [`request_of_record`]; else that of [`reply_to_query`].
fn reply_to_request(
    alloc: Global,
    on: &mut MapForRequests<'_>,
    last: &mut LastQuestion,
    confidence: Option<ConfidenceFile>,
    text: &str,
) -> Result<String, RecordFault>
    ensures map { on.new.map ≡ on.old.map }
    ensures answer { IfOk result (λ answer.
        IsReply (Requests confidence) on.old.map.now text.now (string_bytes answer)) }
    ensures fault { IfErr result (IsFaultFor (Requests confidence) on.old.map.now text.now) }
{
    if let Some(request) = asked_again(last, confidence, text) {
        let answer = on.answer(alloc, &request)?;
        return Ok(answer);
    }
    let words = words_of_record(alloc, text)?;
    let query = asked_by(alloc, last, confidence, &words)?;
    reply_to_query(alloc, on, &query)
}

impl RecordsOnMap<'_> {
    /// The JSON that answers the text of a record, and a line feed. Of matchings it is the page
    /// that is asked for, whose cursor has no mark.
    ///
    /// # Errors
    ///
    /// That of [`request_of_record`] where records are requests; else that of
    /// [`MapForRequests::answer`], or that the allocator refused memory.
    pub(crate) fn reply(&mut self, alloc: Global, text: &str) -> Result<String, RecordFault>
        ensures records { self.new.records ≡ self.old.records }
        ensures map { self.new.map.map ≡ self.old.map.map }
        ensures answer { IfOk result (λ answer.
            IsReply self.old.records.now self.old.map.map.now text.now (string_bytes answer)) }
        ensures fault { IfErr result (IsFaultFor self.old.records.now self.old.map.map.now text.now) }
    {
        let records = self.records;
        match records {
            Records::References(question) => {
                reply_to_reference(alloc, &mut self.map, question, text)
            }
            Records::Requests(confidence) => {
                reply_to_request(alloc, &mut self.map, &mut self.last, *confidence, text)
            }
        }
    }
}
