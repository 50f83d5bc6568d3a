//! From the text of a record to the request that its words ask for.

ghost use Rattle.std.specs.Prelude.{◌≡◌, ◌≢◌, All, Contains, IfErr, IfNone, IfOk, IfSome, OnOk};
ghost use Rattle.std.specs.Prelude.{[], ⊤, Some, codes, false, true, ℕ, List, Result, string_bytes, unwrap_or};
ghost use Rattle.std.specs.List.{flat_map};
ghost use Rattle.clap.specs.Walk.{texts};
ghost use Rattle.clap.specs.Words.{fault_of, first_value, found_of, kind_of};
ghost use Rattle.clap.specs.declared.error.kind.ErrorKind.TheVariants.{OutOfMemory as NoMemoryKind};
ghost use Rattle.olr_words.specs.Found.{AreFound, IsFoundIn, IsOfWords};
ghost use Rattle.olr_words.specs.Record.{AskForNothing, HasValue, IsGivenBy};
ghost use Rattle.olr_words.specs.Record.{AreLegsOfWords, AreLinesOfWords, IsQueryOf, IsQueryOfWords, IsRequestOfWords};
ghost use Rattle.olr_words.specs.Record.{IsWordsLine, app_of_words, has_reference};
ghost use Rattle.olr_words.specs.Record.{name_of, parts_of};
ghost use Rattle.olr_words.specs.RecordWords.{ArePartsOf, at_spaces, parts};
ghost use Rattle.olr_words.specs.OneRequest.{StateTheSame};
ghost use Rattle.olr_request.specs.declared.request.Query.{Query as QueryOf};
ghost use Rattle.olr_words.specs.declared.record.RecordFault.{RecordFault as FaultOf};
ghost use Rattle.olr_words.specs.RecordCommand.{record_option, record_options};
ghost use Rattle.olr_request.specs.declared.fault.Fault.TheVariants as fault;
ghost use Rattle.olr_words.specs.declared.record.RecordFault.TheVariants as record_fault;

use crate::command::{Subcommand, subcommand_named};
use crate::last_question::LastQuestion;
use crate::lines::joined_words;
use crate::options::CommandOption;
use crate::record_command::record_command_of;
use crate::record_words::RecordWords;
use crate::words::Given;
use clap::error::ErrorKind;
use clap::{ArgMatches, Error};
use olr_base::NoMemory;
use olr_request::{Fault, LegsRequest, LinesRequest, Query, Request};
use std::alloc::{AllocError, Global};

/// Why the text of a record asks for nothing, or isn't answered.
#[derive(Debug, Drop)]
pub enum RecordFault {
    /// Its words aren't those of a request. The text is the fault of its line: `Words`, a space and
    /// why.
    Words(String),
    /// A fault of the request.
    Fault(Fault),
}

impl From<Fault> for RecordFault {
    ghost from_gives = { λ why given. given ≡ record_fault.Fault why };

    fn from(fault: Fault) -> RecordFault {
        RecordFault::Fault(fault)
    }
}

impl From<NoMemory> for RecordFault {
    ghost from_gives = { λ _ given. given ≡ record_fault.Fault fault.NoMemory };

    fn from(_failure: NoMemory) -> RecordFault {
        RecordFault::Fault(Fault::NoMemory)
    }
}

impl From<AllocError> for RecordFault {
    ghost from_gives = { λ _ given. given ≡ record_fault.Fault fault.NoMemory };

    fn from(_failure: AllocError) -> RecordFault {
        RecordFault::Fault(Fault::NoMemory)
    }
}

/// A text split at each space.
fn words_in<'a>(alloc: Global, text: &'a str) -> Result<Vec<&'a str>, AllocError>
    ensures { IfOk result (λ words. texts words.items ≡ at_spaces text.now) }
{
    text.split(' ').collect(alloc)
}

/// The words of a record, and the reference. What stands behind the first ` -- ` is the reference;
/// the text before it, or the whole, is split at each space.
///
/// # Errors
///
/// Where the allocator refused memory.
pub fn words_of_record<'a>(alloc: Global, text: &'a str) -> Result<RecordWords<'a>, AllocError>
    ensures { IfOk result (λ words. ArePartsOf text.now (parts_of words)) }
{
    let Some((before, reference)) = text.split_once(" -- ") else {
        let words = words_in(alloc, text)?;
        return Ok(RecordWords {
            text,
            words,
            reference: None,
        });
    };
    let words = words_in(alloc, before)?;
    Ok(RecordWords {
        text: before,
        words,
        reference: Some(reference),
    })
}

/// The first line of a text.
fn first_line(text: &str) -> &str
    ensures { ¬ (Contains result.now 10) }
{
    match text.split_once('\n') {
        Some((line, _)) => line,
        None => text,
    }
}

/// The text of a fault of words: `Words`, a space, and the first line of why they are refused.
fn words_line(alloc: Global, why: &str) -> Result<String, AllocError>
    ensures { IfOk result (λ line. IsWordsLine (string_bytes line)) }
{
    let line = first_line(why);
    format!(in alloc; "Words {line}")
}

/// The fault of words that are refused, and why.
fn words_fault(alloc: Global, why: Result<String, AllocError>) -> RecordFault
    ensures { IsOfWords ⊤ result }
{
    let Ok(why) = why else {
        return RecordFault::Fault(Fault::NoMemory);
    };
    match words_line(alloc, &why) {
        Ok(line) => RecordFault::Words(line),
        Err(_) => RecordFault::Fault(Fault::NoMemory),
    }
}

/// Why `clap` refuses words: the first line of its text, and the second one where a list begins.
fn why_refused(alloc: Global, error: &Error) -> Result<String, AllocError> {
    let text = format!(in alloc; "{error}")?;
    let mut lines = text.lines();
    let line = lines.next().unwrap_or("");
    let why = line.strip_prefix("error: ").unwrap_or(line);
    if !why.ends_with(':') {
        return String::from_str(alloc, why);
    }
    format!(in alloc; "{why} {}", lines.next().unwrap_or("").trim_start())
}

/// The fault of words that `clap` refuses.
fn refused(alloc: Global, error: Error) -> RecordFault
    ensures { IsOfWords (kind_of error ≢ NoMemoryKind) result }
{
    if error.kind() == ErrorKind::OutOfMemory {
        return RecordFault::Fault(Fault::NoMemory);
    }
    words_fault(alloc, why_refused(alloc, &error))
}

/// Whether the reference is one of the words, since none stands behind them.
fn has_reference(words: &RecordWords<'_>) -> bool
    ensures { result ≡ has_reference (parts_of words.now) }
{
    words.reference.is_none()
}

/// What is found in the words that begin with the name of a subcommand.
fn found_in<'a, 'b: 'a>(
    alloc: Global,
    subcommand: &Subcommand,
    words: &'a RecordWords<'b>,
) -> Result<ArgMatches<'a>, RecordFault>
    ensures found { IfOk result (AreFound (app_of_words subcommand.now (parts_of words.entry.now))
        (parts_of words.entry.now).words) }
    ensures refused { IfErr result (IsOfWords (fault_of
        (app_of_words subcommand.now (parts_of words.entry.now)) (parts_of words.entry.now).words
        ≢ [])) }
{
    let mut command = record_command_of(alloc, subcommand, has_reference(words))?;
    match command.try_get_matches_from_mut(words.words.as_slice()) {
        Ok(found) => Ok(found),
        Err(error) => Err(refused(alloc, error)),
    }
}

/// Whether an option doesn't take the text that is found for it.
fn is_wrong(option: &CommandOption, found: &ArgMatches<'_>) -> bool
    ensures wrong { result ≡ true
        → ¬ (IfSome (record_option option.now) (HasValue (first_value (found_of found.now)))) }
    ensures right { result ≡ false
        → IfSome (record_option option.now) (HasValue (first_value (found_of found.now))) }
{
    match found.get_str(option.name) {
        Some(text) => !option.takes_in_record(text),
        None => false,
    }
}

/// The first of these options that doesn't take the text which is found for it.
fn first_wrong(options: &[CommandOption], found: &ArgMatches<'_>) -> Option<CommandOption>
    ensures right { IfNone result
        (All (HasValue (first_value (found_of found.now))) (record_options options.now)) }
    ensures wrong { IfSome result (λ _. ¬
        (All (HasValue (first_value (found_of found.now))) (record_options options.now))) }
{
    for option in options {
        if is_wrong(option, found) {
            return Some(*option);
        }
    }
    None
}

/// Refuses a text that is found for an option of these groups which doesn't take it.
fn check_values(
    alloc: Global,
    groups: &[&[CommandOption]],
    found: &ArgMatches<'_>,
) -> Result<(), RecordFault>
    ensures right { OnOk result (All (HasValue (first_value (found_of found.now)))
        (flat_map (λ group. record_options group.now) groups.now)) }
    ensures wrong { IfErr result (IsOfWords (¬ (All (HasValue (first_value (found_of found.now)))
        (flat_map (λ group. record_options group.now) groups.now)))) }
{
    for &options in groups {
        if let Some(option) = first_wrong(options, found) {
            let text = found.get_str(option.name).unwrap_or("");
            let why = format!(in alloc; "invalid value '{text}' for '--{}'", option.name);
            return Err(words_fault(alloc, why));
        }
    }
    Ok(())
}

/// The first of the words, which names a subcommand.
fn name_in<'a>(words: &RecordWords<'a>) -> &'a str
    ensures { result.now ≡ name_of (parts_of words.now).words }
{
    match words.words.first() {
        Some(word) => *word,
        None => "",
    }
}

/// What is found in words that are understood.
fn understood<'a, 'b: 'a>(
    alloc: Global,
    words: &'a RecordWords<'b>,
) -> Result<ArgMatches<'a>, RecordFault>
    ensures found { IfOk result (IsFoundIn (parts_of words.entry.now)) }
    ensures refused { IfErr result (IsOfWords (AskForNothing (parts_of words.entry.now))) }
{
    let name = name_in(words);
    let Some(subcommand) = subcommand_named(name) else {
        let why = format!(in alloc; "unrecognized subcommand '{name}'");
        return Err(words_fault(alloc, why));
    };
    let found = found_in(alloc, &subcommand, words)?;
    check_values(alloc, subcommand.options, &found)?;
    Ok(found)
}

/// The text of the reference: the one behind the words, or that found among them.
fn reference_in<'a, 'b: 'a>(words: &RecordWords<'b>, found: &ArgMatches<'a>) -> &'a str
    ensures { result.now ≡ unwrap_or (parts_of words.now).reference
        (unwrap_or (first_value (found_of found.now) (codes "REF")) []) }
{
    match words.reference {
        Some(reference) => reference,
        None => found.get_str("REF").unwrap_or(""),
    }
}

/// What the words of a record give.
fn given_in<'a, 'b: 'a>(alloc: Global, words: &'a RecordWords<'b>) -> Result<Given<'a>, RecordFault>
    ensures given { IfOk result (IsGivenBy (parts_of words.entry.now)) }
    ensures refused { IfErr result (IsOfWords (AskForNothing (parts_of words.entry.now))) }
{
    let found = understood(alloc, words)?;
    let given = Given::read(&found, reference_in(words, &found));
    Ok(given.of_record())
}

/// Keeps the question of words that a reference stands behind and that have no cursor.
fn keep_question(alloc: Global, last: &mut LastQuestion, words: &RecordWords<'_>, given: &Given<'_>)
    requires { IsGivenBy (parts_of words.now) given.now }
{
    if has_reference(words) {
        return;
    }
    if let Some(question) = given.question_without_cursor(name_in(words)) {
        last.keep(alloc, words.text, question, given.format);
    }
}

/// What the words of a record ask of a reference. A question of one behind the words, with no cursor
/// and nothing refused, is kept as the last one.
fn request_about<'a, 'b: 'a>(
    alloc: Global,
    last: &mut LastQuestion,
    words: &'a RecordWords<'b>,
) -> Result<Request<'a>, RecordFault>
    requires legs { name_of (parts_of words.now).words ≢ codes "legs" }
    requires lines { name_of (parts_of words.now).words ≢ codes "lines" }
    ensures { IsRequestOfWords (parts_of words.entry.now) result }
{
    let given = given_in(alloc, words)?;
    keep_question(alloc, last, words, &given);
    let Some(asked) = given.request(name_in(words)) else {
        return Err(words_fault(alloc, format!(in alloc; "nothing is asked for")));
    };
    match asked {
        Ok(request) => Ok(request),
        Err(fault) => Err(RecordFault::Fault(fault)),
    }
}

/// The legs of a matching that the words of a record ask for.
fn legs_of_record<'a, 'b: 'a>(
    alloc: Global,
    words: &'a RecordWords<'b>,
) -> Result<LegsRequest<'a>, RecordFault>
    ensures { AreLegsOfWords (parts_of words.entry.now) result }
{
    let given = given_in(alloc, words)?;
    match given.legs() {
        Ok(asked) => Ok(asked),
        Err(fault) => Err(RecordFault::Fault(fault)),
    }
}

/// The words of a record that asks for lines, as they are read from this text.
fn line_words<'a>(alloc: Global, text: &'a str) -> Result<RecordWords<'a>, AllocError>
    ensures { IfOk result (λ words. parts_of words ≡ parts (at_spaces text.now) (Some [])) }
{
    let words = words_in(alloc, text)?;
    Ok(RecordWords {
        text,
        words,
        reference: Some(""),
    })
}

/// The lines of a map that the words of a record ask for.
fn lines_of_record(alloc: Global, words: &RecordWords<'_>) -> Result<LinesRequest, RecordFault>
    ensures { AreLinesOfWords (parts_of words.now) result }
{
    if words.reference.is_some() {
        let why = format!(in alloc; "unexpected reference behind the words of 'lines'");
        return Err(words_fault(alloc, why));
    }
    let text = joined_words(alloc, &words.words)?;
    let words = line_words(alloc, &text)?;
    let given = given_in(alloc, &words)?;
    match given.lines() {
        Ok(asked) => Ok(asked),
        Err(fault) => Err(RecordFault::Fault(fault)),
    }
}

/// What the words of a record ask for, as JSON or GeoJSON. A question of a reference behind the words,
/// with no cursor and nothing refused, is kept as the last one.
///
/// # Errors
///
/// [`RecordFault::Words`] where the first word is no subcommand that has one answer, or the others
/// give it something that it doesn't take in a record, or lack something that it requires; else the
/// fault with which the program refuses the same words.
pub fn request_of_record<'a, 'b: 'a>(
    alloc: Global,
    last: &mut LastQuestion,
    words: &'a RecordWords<'b>,
) -> Result<Query<'a>, RecordFault>
    ensures { IsQueryOfWords (parts_of words.entry.now) result }
{
    match name_in(words) {
        "legs" => {
            let asked = legs_of_record(alloc, words)?;
            Ok(Query::Legs(asked))
        }
        "lines" => {
            let asked = lines_of_record(alloc, words)?;
            Ok(Query::Lines(asked))
        }
        _ => match request_about(alloc, last, words) {
            Ok(request) => Ok(Query::Reference(request)),
            Err(fault) => Err(fault),
        },
    }
}

/// A text asks for one thing, wherever its parts lie in memory. [`words_of_record`] and
/// [`request_of_record`] give it.
pub fn one_request_of_record()
    ensures { (text : List ℕ) (one other : Result QueryOf FaultOf) → IsQueryOf text one
        → IsQueryOf text other → StateTheSame one other }
{}
