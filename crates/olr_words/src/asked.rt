//! From the words of a command line to what they ask for, and the files that it reads.

ghost use Rattle.std.specs.Prelude.{◌≡◌};
ghost use Rattle.olr_words.specs.Asked.{records_with_confidence};

use crate::command::whole_command;
use crate::hints::{check_values, not_understood, topic_in};
use crate::rejected::Rejected;
use crate::words::{Given, MapSubcommand};
use clap::error::ErrorKind;
use clap::{ArgMatches, Command};
use olr_explain::Topic;
use olr_request::{ConfidenceFile, Fault, LegsRequest, LinesRequest, Question, Request};
use std::alloc::{AllocError, Global};

/// Where the files of a map are.
#[derive(Clone, Copy, Debug, PartialEq, Eq)]
pub enum Files<'a> {
    /// At these paths.
    At {
        /// The file of nodes.
        nodes: &'a str,
        /// The file of lines.
        lines: &'a str,
        /// The file of bans on turns, if there is one.
        bans: Option<&'a str>,
    },
    /// In this folder, under the names `nodes.csv`, `lines.csv`, and `bans.csv` if there is such a
    /// file.
    Folder(&'a str),
}

/// A request, and the files that it reads.
#[derive(Clone, Copy, Debug, PartialEq, Eq)]
pub struct AskedRequest<'a> {
    /// The request. Its confidence isn't read yet.
    pub request: Request<'a>,
    /// The files of its map, if it reads one.
    pub files: Option<Files<'a>>,
    /// The path of the file of its confidence, if one is given.
    pub confidence: Option<&'a str>,
}

/// A request for the legs of a matching, and the files of its map.
#[derive(Clone, Copy, Debug, PartialEq, Eq)]
pub struct AskedLegs<'a> {
    /// The request.
    pub request: LegsRequest<'a>,
    /// The files.
    pub files: Files<'a>,
}

/// A request for lines of a map, and its files.
#[derive(Clone, Copy, Debug, PartialEq, Eq)]
pub struct AskedLines<'a> {
    /// The request.
    pub request: LinesRequest,
    /// The files.
    pub files: Files<'a>,
}

/// Records, and the files that are read for them.
#[derive(Clone, Copy, Debug, PartialEq, Eq)]
pub struct AskedRecords<'a> {
    /// What their texts are. Their confidence isn't read yet.
    pub records: Records,
    /// The files of their map.
    pub files: Files<'a>,
    /// The path of the file of their confidence, if one is given.
    pub confidence: Option<&'a str>,
    /// Where they come from.
    pub input: Input<'a>,
}

/// What a command line asks for. Its texts are borrowed from the words.
#[derive(Clone, Copy, Debug, PartialEq, Eq)]
pub enum Asked<'a> {
    /// The answer to one request.
    One(AskedRequest<'a>),
    /// The legs of a matching.
    Legs(AskedLegs<'a>),
    /// The lines of a map that meet a box.
    Lines(AskedLines<'a>),
    /// The answers to many records.
    Many(AskedRecords<'a>),
    /// What these faults mean.
    Explain(Topic<'a>),
}

/// What the texts of records are.
#[derive(Clone, Copy, Debug, PartialEq, Eq)]
pub enum Records {
    /// References, of each of which this is asked.
    References(Question),
    /// Requests: the words of each say what is asked. Those for places have the file of this
    /// confidence.
    Requests(Option<ConfidenceFile>),
}

impl Records {
    /// Gives them the file of this confidence, where they ask for places.
    pub fn set_confidence(&mut self, confidence: Option<ConfidenceFile>)
        ensures { self.new ≡ records_with_confidence confidence self.old }
    {
        match self {
            Records::References(question) => question.set_confidence(confidence),
            Records::Requests(file) => *file = confidence,
        }
    }
}

/// Where the records of a batch come from.
#[derive(Clone, Copy, Debug, PartialEq, Eq)]
pub enum Input<'a> {
    /// The file of this path.
    File(&'a str),
    /// Standard input.
    Standard,
}

/// Where the files of a map are that the words give.
fn files_of<'a>(found: &ArgMatches<'a>) -> Option<Files<'a>> {
    if let Some(folder) = found.get_str("map") {
        return Some(Files::Folder(folder));
    }
    Some(Files::At {
        nodes: found.get_str("nodes")?,
        lines: found.get_str("lines")?,
        bans: found.get_str("bans"),
    })
}

/// Where the records come from that the words give.
fn input_of<'a>(found: &ArgMatches<'a>) -> Input<'a> {
    match found.get_str("input") {
        Some(path) => Input::File(path),
        None => Input::Standard,
    }
}

/// The answers to records of an input that the words give, on the map that they give.
fn many_in<'a>(found: &ArgMatches<'a>, records: Records) -> Option<Result<Asked<'a>, Fault>> {
    Some(Ok(Asked::Many(AskedRecords {
        records,
        files: files_of(found)?,
        confidence: found.get_str("confidence"),
        input: input_of(found),
    })))
}

/// What the subcommand of `batch` found among the words asks for, if there is one.
fn batch_in<'a>(matches: &ArgMatches<'a>) -> Option<Result<Asked<'a>, Fault>> {
    let (name, found) = matches.subcommand()?;
    let subcommand = MapSubcommand::named(name)?;
    match Given::read(found, "").question(subcommand) {
        Ok(question) => many_in(found, Records::References(question)),
        Err(fault) => Some(Err(fault)),
    }
}

/// The lines that are asked for, of the map that the words give.
fn lines_in<'a>(found: &ArgMatches<'a>) -> Option<Result<Asked<'a>, Fault>> {
    match Given::read(found, "").lines() {
        Ok(request) => Some(Ok(Asked::Lines(AskedLines {
            request,
            files: files_of(found)?,
        }))),
        Err(fault) => Some(Err(fault)),
    }
}

/// The legs that are asked for, on the map that the words give.
fn legs_in<'a>(found: &ArgMatches<'a>) -> Option<Result<Asked<'a>, Fault>> {
    match Given::read(found, found.get_str("REF")?).legs() {
        Ok(request) => Some(Ok(Asked::Legs(AskedLegs {
            request,
            files: files_of(found)?,
        }))),
        Err(fault) => Some(Err(fault)),
    }
}

/// What the subcommand found among the words asks for, if there is one.
fn asked_in<'a>(matches: &ArgMatches<'a>) -> Option<Result<Asked<'a>, Fault>> {
    let (name, found) = matches.subcommand()?;
    match name {
        "batch" => return batch_in(found),
        "legs" => return legs_in(found),
        "lines" => return lines_in(found),
        "answer" => return many_in(found, Records::Requests(None)),
        "explain" => return Some(Ok(Asked::Explain(topic_in(found)))),
        _ => {}
    }
    let given = Given::read(found, found.get_str("REF")?);
    match given.request(name) {
        Some(Ok(request)) => Some(Ok(Asked::One(AskedRequest {
            request,
            files: files_of(found),
            confidence: found.get_str("confidence"),
        }))),
        Some(Err(fault)) => Some(Err(fault)),
        None => None,
    }
}

/// Why words that name no subcommand are rejected.
fn nothing_asked(command: &mut Command<'_>) -> Result<Rejected, AllocError> {
    let error = command.error(ErrorKind::MissingSubcommand, "nothing is asked for")?;
    Ok(Rejected::from(error))
}

/// What the words ask for. The first word is the program's name.
///
/// # Errors
///
/// [`Rejected::Words`] where the words name no subcommand, give it something that it doesn't take,
/// lack something that it requires, ask for help, give a number that isn't a whole one of 32 bits,
/// ask for coordinates or probabilities in text, give a box that isn't four signed numbers of 32 bits, or name a fault
/// that there isn't; else [`Rejected::Fault`]: with
/// [`Fault::AfterWithAll`] where both a cursor and all pages are asked for; else with
/// [`Fault::BadTolerance`] and the first tolerance that is out of its range; else with
/// [`Fault::BadPage`] and a page size that is out of its range, [`Fault::BadNumber`] and the first
/// number for places that is, [`Fault::BadNearest`], [`Fault::BadNear`], or with a number of lines that is out of its range
/// and then [`Fault::BadBox`]. [`Fault::NoMemory`] where the allocator
/// refused memory.
pub fn asked_of<'a>(alloc: Global, words: &'a [String]) -> Result<Asked<'a>, Rejected> {
    let mut command = whole_command(alloc)?;
    let matches = match command.try_get_matches_from_mut(words) {
        Ok(matches) => matches,
        Err(error) => return Err(not_understood(alloc, &mut command, words, error)?),
    };
    check_values(alloc, &matches)?;
    match asked_in(&matches) {
        Some(Ok(asked)) => Ok(asked),
        Some(Err(fault)) => Err(Rejected::from(fault)),
        None => Err(nothing_asked(&mut command)?),
    }
}
