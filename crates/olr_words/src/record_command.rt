//! The command of `clap` for the words of a record.

ghost use Rattle.std.specs.Prelude.{◌≡◌, IfOk, IfSome, false};
ghost use Rattle.clap.specs.Words.{app_of, rule_of};
ghost use Rattle.olr_words.specs.RecordCommand.{bare_app, options_in, record_app, record_option};
ghost use Rattle.olr_words.specs.RecordCommand.{record_options, record_rule, reference_rule};
ghost use Rattle.olr_words.specs.RecordCommand as specified;

use crate::command::Subcommand;
use crate::options::CommandOption;
use clap::{Arg, ArgAction, Command};
use std::alloc::{AllocError, Global};

/// The argument for an option of a record: a name, and a word unless it is a flag. A box has to be
/// there.
fn argument<'a>(alloc: Global, option: &CommandOption) -> Arg<'a>
    ensures rule { IfSome (record_option option.now) (λ o. rule_of result ≡ record_rule o) }
    ensures local { result.global ≡ false }
{
    let argument = Arg::new(alloc, option.name)
        .long(option.name)
        .required(option.takes_box());
    if option.is_flag() {
        return argument.action(ArgAction::SetTrue);
    }
    argument
}

/// The argument for the reference: a word without a name.
fn reference<'a>(alloc: Global) -> Arg<'a>
    ensures rule { rule_of result ≡ reference_rule }
    ensures local { result.global ≡ false }
{
    Arg::new(alloc, "REF").required(true)
}

/// The command without options, with the reference among its arguments or without it.
fn bare_command<'a>(
    alloc: Global,
    name: &'static str,
    has_reference: bool,
) -> Result<Command<'a>, AllocError>
    ensures { IfOk result (λ command. app_of command ≡ bare_app name.now has_reference) }
{
    let command = Command::new(alloc, name).disable_help_flag(true);
    if !has_reference {
        return Ok(command);
    }
    let command = command.arg(reference(alloc))?;
    Ok(command)
}

/// The same command with those of these options that a record may have.
fn with_options<'a>(
    alloc: Global,
    mut command: Command<'a>,
    options: &[CommandOption],
) -> Result<Command<'a>, AllocError>
    ensures { IfOk result (λ with.
        app_of with ≡ specified.with_options (app_of command.entry) (record_options options.now)) }
{
    for option in options {
        if option.is_of_record() {
            command = command.arg(argument(alloc, option))?;
        }
    }
    Ok(command)
}

/// The command for the words of a record that begin with the name of this subcommand, with the
/// reference among its arguments or without it. It has no help.
///
/// # Errors
///
/// Where the allocator refused memory.
pub fn record_command_of<'a>(
    alloc: Global,
    subcommand: &Subcommand,
    has_reference: bool,
) -> Result<Command<'a>, AllocError>
    ensures { IfOk result (λ command. app_of command
        ≡ record_app subcommand.now.name.now has_reference (options_in subcommand.now)) }
{
    let mut command = bare_command(alloc, subcommand.name, has_reference)?;
    for &options in subcommand.options {
        command = with_options(alloc, command, options)?;
    }
    Ok(command)
}
