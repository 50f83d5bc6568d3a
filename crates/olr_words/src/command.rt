//! The command of `clap`, as tables: the subcommands, with their options.

ghost use Rattle.std.specs.Prelude.{◌≡◌, IfSome, map, option_map};
ghost use Rattle.olr_words.specs.Options.{options_named, options_of};
ghost use Rattle.olr_words.specs.RecordCommand.{options_in, row_of};

use crate::options::{
    BOX, CommandOption, DETAIL, FAULT, FILES, FORMAT, GEO_FORMAT, LEGS, LIMITS, LINES, NEAREST,
    NEAREST_SHAPE, ORDER, PAGE, PAGE_FORMAT, PAGES, PART, RECORDS, REFERENCE, REQUESTS, SHAPE,
    TOLERANCES, Takes,
};
use clap::{Arg, ArgAction, ArgGroup, Command, Error};
use std::alloc::Global;

/// The version of the program, and of all that is released with it.
const VERSION: &str = "2.0.0.dev";

/// What the help says about faults.
const AFTER_HELP: &str =
    "If a command prints a fault, as 'olr: Header nodes', 'olr explain Header' says what it means.";

/// A subcommand, with the groups of options that it has, in the order of its help.
#[derive(Clone, Copy)]
pub struct Subcommand {
    /// Its name.
    pub name: &'static str,
    about: &'static str,
    /// The groups.
    pub options: &'static [&'static [CommandOption]],
}

/// The subcommand for faults.
pub const EXPLAIN: Subcommand = Subcommand {
    name: "explain",
    about: "Print what a fault means, what usually causes it, and what to do about it",
    options: &[FAULT],
};

/// The subcommand for records that have words of their own.
const ANSWER: Subcommand = Subcommand {
    name: "answer",
    about: "Answer records that each ask a question about one map, by a line of JSON each, as they come",
    options: &[FILES, REQUESTS],
};

/// The subcommands for what a reference says, and where it may lie.
const SUBCOMMANDS: &[Subcommand] = &[
    Subcommand {
        name: "show",
        about: "Print the points and offsets of an OpenLR reference",
        options: &[REFERENCE, FORMAT],
    },
    Subcommand {
        name: "candidates",
        about: "Print the lines of a map that may carry each point of an OpenLR reference, best first",
        options: &[REFERENCE, FILES, DETAIL, SHAPE, GEO_FORMAT, TOLERANCES],
    },
    Subcommand {
        name: "match",
        about: "Print every place of a map where an OpenLR reference may lie, best first, page by page",
        options: &[
            REFERENCE,
            FILES,
            PAGE,
            PAGES,
            DETAIL,
            SHAPE,
            PAGE_FORMAT,
            PART,
            TOLERANCES,
        ],
    },
    Subcommand {
        name: "places",
        about: "Print the places of a map where an OpenLR reference may lie, and whether its match is unique",
        options: &[
            REFERENCE, FILES, LIMITS, ORDER, DETAIL, SHAPE, GEO_FORMAT, PART, TOLERANCES,
        ],
    },
];

/// The other subcommands that have one answer.
const OTHER_SUBCOMMANDS: &[Subcommand] = &[
    Subcommand {
        name: "why",
        about: "Print why an OpenLR reference has no matching on a map, and what would help",
        options: &[REFERENCE, FILES, NEAREST, NEAREST_SHAPE, FORMAT, TOLERANCES],
    },
    Subcommand {
        name: "legs",
        about: "Print for each leg of a matching another path that is nearly as short, and a shorter one on worse roads",
        options: &[REFERENCE, FILES, LEGS, TOLERANCES],
    },
    Subcommand {
        name: "lines",
        about: "Print the lines of a map that meet a box of coordinates",
        options: &[BOX, FILES, LINES],
    },
];

/// The subcommands of `batch`.
const BATCH_SUBCOMMANDS: &[Subcommand] = &[
    Subcommand {
        name: "candidates",
        about: "Print the lines that may carry each point of each reference",
        options: &[DETAIL, SHAPE, FILES, RECORDS, TOLERANCES],
    },
    Subcommand {
        name: "match",
        about: "Print the first page of matchings of each reference",
        options: &[PAGE, DETAIL, SHAPE, FILES, RECORDS, TOLERANCES],
    },
    Subcommand {
        name: "places",
        about: "Print the places where each reference may lie, and whether its match is unique",
        options: &[LIMITS, ORDER, DETAIL, SHAPE, FILES, RECORDS, TOLERANCES],
    },
    Subcommand {
        name: "why",
        about: "Print why each reference has no matching, and what would help",
        options: &[NEAREST, NEAREST_SHAPE, FILES, RECORDS, TOLERANCES],
    },
];

/// An option with its name and its help, without what it takes.
fn named<'a>(alloc: Global, option: &CommandOption) -> Arg<'a> {
    Arg::new(alloc, option.name)
        .long(option.name)
        .help(option.help)
}

/// The option of a map's folder. It excludes those of single files.
fn folder<'a>(option: Arg<'a>) -> Result<Arg<'a>, Error> {
    let option = option.conflicts_with("nodes")?;
    let option = option.conflicts_with("lines")?;
    Ok(option.conflicts_with("bans")?)
}

/// The argument of `clap` for an option.
fn argument<'a>(alloc: Global, option: &CommandOption) -> Result<Arg<'a>, Error> {
    match option.takes {
        Takes::Reference => Ok(
            Arg::new(alloc, option.name)
                .help(option.help)
                .required(true),
        ),
        Takes::MapFile(other) => Ok(named(alloc, option).value_name("FILE").requires_arg(other)?),
        Takes::File => Ok(named(alloc, option).value_name("FILE")),
        Takes::MapFolder => folder(named(alloc, option).value_name("FOLDER")),
        Takes::Number => Ok(
            named(alloc, option)
                .value_name("N")
                .allow_negative_numbers(true),
        ),
        Takes::OneOf(name, words) => Ok(named(alloc, option).value_name(name).value_parser(words)),
        Takes::Format(words, _) => Ok(
            named(alloc, option)
                .value_name("FORMAT")
                .value_parser(words),
        ),
        Takes::Cursor => Ok(named(alloc, option).value_name("CURSOR")),
        Takes::GeoBox => Ok(
            named(alloc, option)
                .value_name("W,S,E,N")
                .required(true)
                .allow_hyphen_values(true),
        ),
        Takes::Flag | Takes::AllPages => Ok(named(alloc, option).action(ArgAction::SetTrue)),
        Takes::Words => Ok(Arg::new(alloc, option.name).help(option.help).num_args(0..)),
    }
}

/// The same command with an option. A map is required, by its folder or by its files.
fn with_option<'a>(
    alloc: Global,
    command: Command<'a>,
    option: &CommandOption,
) -> Result<Command<'a>, Error> {
    let command = command.arg(argument(alloc, option)?)?;
    if !matches!(option.takes, Takes::MapFolder) {
        return Ok(command);
    }
    let group = ArgGroup::new(alloc, "map or files");
    let group = group.arg("map")?.arg("nodes")?;
    Ok(command.group(group.required(true))?)
}

/// The same command with these options.
fn with_options<'a>(
    alloc: Global,
    mut command: Command<'a>,
    options: &[CommandOption],
) -> Result<Command<'a>, Error> {
    for option in options {
        command = with_option(alloc, command, option)?;
    }
    Ok(command)
}

/// The command of `clap` for a subcommand.
///
/// # Errors
///
/// Only where the allocator refused memory.
pub fn command_of<'a>(alloc: Global, subcommand: &Subcommand) -> Result<Command<'a>, Error> {
    let mut command = Command::new(alloc, subcommand.name).about(subcommand.about);
    for &options in subcommand.options {
        command = with_options(alloc, command, options)?;
    }
    Ok(command)
}

/// The same command with these subcommands, one of which it requires.
fn with_subcommands<'a>(
    alloc: Global,
    command: Command<'a>,
    subcommands: &[Subcommand],
) -> Result<Command<'a>, Error> {
    let mut command = command
        .subcommand_required(true)
        .arg_required_else_help(true);
    for subcommand in subcommands {
        command = command.subcommand(command_of(alloc, subcommand)?)?;
    }
    Ok(command)
}

/// The subcommand for many references.
fn batch_command<'a>(alloc: Global) -> Result<Command<'a>, Error> {
    let command = Command::new(alloc, "batch")
        .about(
            "Answer many references on one map, by one line of JSON for each record, as they come",
        )
        .after_help(AFTER_HELP);
    with_subcommands(alloc, command, BATCH_SUBCOMMANDS)
}

/// The command with the subcommands that have one answer.
fn main_command<'a>(alloc: Global) -> Result<Command<'a>, Error> {
    let command = Command::new(alloc, "olr")
        .about("Read OpenLR location references, and find them on a road map")
        .version(VERSION)
        .after_help(AFTER_HELP);
    let command = with_subcommands(alloc, command, SUBCOMMANDS)?;
    with_subcommands(alloc, command, OTHER_SUBCOMMANDS)
}

/// The command with its subcommands.
///
/// # Errors
///
/// Only where the allocator refused memory.
pub fn whole_command<'a>(alloc: Global) -> Result<Command<'a>, Error> {
    let batch = batch_command(alloc)?;
    let answer = command_of(alloc, &ANSWER)?.after_help(AFTER_HELP);
    let explain = command_of(alloc, &EXPLAIN)?;
    let command = main_command(alloc)?.subcommand(batch)?;
    Ok(command.subcommand(answer)?.subcommand(explain)?)
}

/// The subcommand of this name among these, if there is one.
fn named_in(subcommands: &[Subcommand], name: &str) -> Option<Subcommand>
    ensures options { option_map options_in result ≡ options_named (map row_of subcommands.now) name.now }
    ensures name { IfSome result (λ subcommand. subcommand.name.now ≡ name.now) }
{
    for subcommand in subcommands {
        if subcommand.name == name {
            return Some(*subcommand);
        }
    }
    None
}

/// The subcommand of this name that has one answer, if there is one.
pub fn subcommand_named(name: &str) -> Option<Subcommand>
    ensures options { option_map options_in result ≡ options_of name.now }
    ensures name { IfSome result (λ subcommand. subcommand.name.now ≡ name.now) }
{
    match named_in(SUBCOMMANDS, name) {
        Some(subcommand) => Some(subcommand),
        None => named_in(OTHER_SUBCOMMANDS, name),
    }
}

/// The subcommand of `batch` of this name, if there is one.
pub fn batch_subcommand_named(name: &str) -> Option<Subcommand> {
    named_in(BATCH_SUBCOMMANDS, name)
}
