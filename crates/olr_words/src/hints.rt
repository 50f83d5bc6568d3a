//! What words that aren't understood are rejected with, where it can be said what to write instead.

use crate::box_text::edges_in;
use crate::command::{EXPLAIN, Subcommand, batch_subcommand_named, command_of, subcommand_named};
use crate::options::CommandOption;
use crate::reading::{flag_in, format_in};
use crate::rejected::Rejected;
use clap::error::ErrorKind;
use clap::{ArgMatches, Command, Error};
use olr_explain::{Topic, faults, similar_name};
use olr_request::Format;
use std::alloc::Global;

/// The least number of letters of a word that looks like a reference.
const LEAST_LETTERS: usize = 8;

/// Why coordinates aren't printed as text.
const NO_SHAPE_AS_TEXT: &str =
    "the argument '--shape' cannot be used with '--format text'\n\n  tip: '--format json' prints it";

/// Why probabilities aren't printed as text.
const NO_CONFIDENCE_AS_TEXT: &str =
    "the argument '--confidence' cannot be used with '--format text'\n\n  tip: '--format json' prints probabilities";

/// Whether a byte may be a letter of base64, in either alphabet.
fn is_of_base64(byte: u8) -> bool {
    byte.is_ascii_alphanumeric() || matches!(byte, b'+' | b'/' | b'-' | b'_' | b'=')
}

/// Whether the first two letters of a word are those of a line or of a point along a line, in either
/// alphabet: their first byte is 11 or 43.
fn begins_as_reference(word: &str) -> bool {
    let mut bytes = word.bytes();
    matches!(bytes.next(), Some(b'C' | b'K'))
        && matches!(
            bytes.next(),
            Some(b'w'..=b'z' | b'0'..=b'9' | b'+' | b'/' | b'-' | b'_')
        )
}

/// Whether a word looks like a reference.
fn looks_like_reference(word: &str) -> bool {
    word.len() >= LEAST_LETTERS && begins_as_reference(word) && word.bytes().all(is_of_base64)
}

/// What words are rejected with that `clap` didn't understand: where the first one behind the
/// program's name is a reference and no subcommand, a hint to the one that reads it.
///
/// # Errors
///
/// [`Rejected::Fault`] where the allocator refused memory.
pub fn not_understood(
    alloc: Global,
    command: &mut Command<'_>,
    words: &[String],
    error: Error,
) -> Result<Rejected, Rejected> {
    let Some(word) = words.get(1) else {
        return Ok(Rejected::from(error));
    };
    if error.kind() != ErrorKind::InvalidSubcommand || !looks_like_reference(word) {
        return Ok(Rejected::from(error));
    }
    let message = format!(in alloc;
        "unrecognized subcommand '{word}'\n\n  tip: it looks like a reference: 'olr show {word}' reads it, \
        and 'olr match {word} --map FOLDER' finds it on a map"
    )?;
    Ok(Rejected::from(command.error(ErrorKind::InvalidSubcommand, &message)?))
}

/// A rejection with this message of the words of a subcommand, which stands behind these words.
fn rejection(
    alloc: Global,
    before: &str,
    subcommand: &Subcommand,
    kind: ErrorKind,
    message: &str,
) -> Result<Rejected, Rejected> {
    let path = format!(in alloc; "{before} {}", subcommand.name)?;
    let mut command = command_of(alloc, subcommand)?.bin_name(&path)?;
    Ok(Rejected::from(command.error(kind, message)?))
}

/// The first option of a subcommand that is given a text that isn't a whole number of 32 bits, but
/// takes one; and the text.
fn wrong_number<'a>(
    subcommand: &Subcommand,
    found: &ArgMatches<'a>,
) -> Option<(CommandOption, &'a str)> {
    for options in subcommand.options {
        for &option in *options {
            if !option.takes_number() {
                continue;
            }
            let Some(text) = found.get_str(option.name) else {
                continue;
            };
            if text.parse::<u32>().is_err() {
                return Some((option, text));
            }
        }
    }
    None
}

/// Refuses a text that is given for a number and isn't one, and says what the option takes.
fn check_numbers(
    alloc: Global,
    before: &str,
    subcommand: Option<Subcommand>,
    found: &ArgMatches<'_>,
) -> Result<(), Rejected> {
    let Some(subcommand) = subcommand else {
        return Ok(());
    };
    let Some((option, text)) = wrong_number(&subcommand, found) else {
        return Ok(());
    };
    let (name, help) = (option.name, option.help);
    let message = format!(in alloc;
        "invalid value '{text}' for '--{name} <N>': it takes a whole number\n\n  --{name} <N>  {help}"
    )?;
    Err(rejection(
        alloc,
        before,
        &subcommand,
        ErrorKind::ValueValidation,
        &message,
    )?)
}

/// Refuses a text that is given for a box and isn't one.
fn check_box(
    alloc: Global,
    subcommand: Option<Subcommand>,
    found: &ArgMatches<'_>,
) -> Result<(), Rejected> {
    let (Some(subcommand), Some(text)) = (subcommand, found.get_str("box")) else {
        return Ok(());
    };
    if edges_in(text).is_some() {
        return Ok(());
    }
    let message = format!(in alloc;
        "invalid value '{text}' for '--box <W,S,E,N>': it takes four whole numbers, joined by commas"
    )?;
    Err(rejection(
        alloc,
        "olr",
        &subcommand,
        ErrorKind::ValueValidation,
        &message,
    )?)
}

/// Why an output that is text can't show what is asked for, if it can't.
fn not_as_text(found: &ArgMatches<'_>) -> Option<&'static str> {
    if flag_in(found, "shape") {
        return Some(NO_SHAPE_AS_TEXT);
    }
    if found.get_str("confidence").is_some() {
        return Some(NO_CONFIDENCE_AS_TEXT);
    }
    None
}

/// Refuses coordinates and probabilities in an output that is text, which is the format where none is
/// given.
fn check_text(
    alloc: Global,
    subcommand: Option<Subcommand>,
    found: &ArgMatches<'_>,
) -> Result<(), Rejected> {
    let Some(subcommand) = subcommand else {
        return Ok(());
    };
    let Some(why) = not_as_text(found) else {
        return Ok(());
    };
    if !matches!(format_in(found), Format::Text) {
        return Ok(());
    }
    Err(rejection(alloc, "olr", &subcommand, ErrorKind::ArgumentConflict, why)?)
}

/// The faults that the words found for `explain` ask about.
pub fn topic_in<'a>(found: &ArgMatches<'a>) -> Topic<'a> {
    match found.get_strs("NAME") {
        Some(words) => Topic::of(words),
        None => Topic::Every,
    }
}

/// Refuses the name of a fault that there isn't, and says which one is like it.
fn check_topic(alloc: Global, found: &ArgMatches<'_>) -> Result<(), Rejected> {
    let topic = topic_in(found);
    let table = faults();
    let Topic::Named { name, word } = topic else {
        return Ok(());
    };
    if topic.is_known(&table) {
        return Ok(());
    }
    let mut message = format!(in alloc; "there is no fault '{name}")?;
    if let Some(word) = word {
        write!(message, " {word}")?;
    }
    message.push_str("'\n")?;
    if let Some(similar) = similar_name(alloc, &table, name)? {
        write!(message, "\n  tip: a similar name exists: '{similar}'")?;
    }
    message.push_str("\n  tip: 'olr explain' lists all faults")?;
    Err(rejection(alloc, "olr", &EXPLAIN, ErrorKind::ValueValidation, &message)?)
}

/// Refuses what is found among the words where `clap` took a text that isn't what its place takes, a
/// number, a box or the name of a fault; and coordinates and probabilities in an output that is text. In a
/// batch each answer is JSON, and lines have no text.
///
/// # Errors
///
/// [`Rejected::Words`] with the first such text; else where the two options exclude each other;
/// [`Rejected::Fault`] where the allocator refused memory.
pub fn check_values(alloc: Global, matches: &ArgMatches<'_>) -> Result<(), Rejected> {
    let Some((name, found)) = matches.subcommand() else {
        return Ok(());
    };
    if name == "explain" {
        return check_topic(alloc, found);
    }
    if name != "batch" {
        let subcommand = subcommand_named(name);
        check_numbers(alloc, "olr", subcommand, found)?;
        if name == "lines" {
            return check_box(alloc, subcommand, found);
        }
        return check_text(alloc, subcommand, found);
    }
    let Some((name, found)) = found.subcommand() else {
        return Ok(());
    };
    check_numbers(alloc, "olr batch", batch_subcommand_named(name), found)
}
