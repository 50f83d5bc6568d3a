//! Why a command line wasn't answered.

ghost use Rattle.std.specs.Prelude.{◌≡◌};
ghost use Rattle.clap.specs.Values.{kind_of};
ghost use Rattle.olr_request.specs.declared.fault.Fault.TheVariants as fault;
ghost use Rattle.olr_words.specs.Rejected.{is_help_of, rejected_by, rejected_text};
ghost use Rattle.olr_words.specs.Rejected.{status_of};
ghost use Rattle.olr_words.specs.declared.rejected.Rejected.TheVariants as rejected;

use clap::Error;
use clap::error::ErrorKind;
use olr_base::NoMemory;
use olr_request::Fault;
use std::alloc::AllocError;
use std::fmt;

/// The status after a refusal or a failure.
const FAILED: u8 = 1;

/// The status after words that weren't understood.
const NOT_UNDERSTOOD: u8 = 2;

/// The last line about a mistake in the words.
const EXPLAIN: &str = "'olr explain NAME' says what a fault means.\n";

/// Whether an error is a mistake in the words: it isn't help, which says more.
fn is_mistake(kind: ErrorKind) -> bool {
    !matches!(
        kind,
        ErrorKind::DisplayHelp
            | ErrorKind::DisplayVersion
            | ErrorKind::DisplayHelpOnMissingArgumentOrSubcommand
    )
}

/// Why a command line wasn't answered. Displayed, it is the text that the program prints.
#[derive(Debug, Drop)]
pub enum Rejected {
    /// The words weren't understood, or ask for help.
    Words(Error),
    /// The words aren't UTF-8 text.
    NotText,
    /// The request wasn't answered, or a tolerance is out of its range.
    Fault(Fault),
}

impl Rejected {
    /// Whether the text is help that was asked for. It goes to the standard output then, and else
    /// to the standard error.
    pub fn is_help(&self) -> bool
        ensures { result ≡ is_help_of self.now }
    {
        match self {
            Rejected::Words(error) => matches!(
                error.kind(),
                ErrorKind::DisplayHelp | ErrorKind::DisplayVersion
            ),
            Rejected::NotText | Rejected::Fault(_) => false,
        }
    }

    /// The status that the program ends with: 0 for help, 1 for a fault, 2 for words that weren't
    /// understood or that ask for a cursor and all pages.
    pub fn status(&self) -> u8
        ensures { result ≡ status_of self.now }
    {
        match self {
            Rejected::Words(_) if self.is_help() => 0,
            Rejected::Words(_) | Rejected::NotText => NOT_UNDERSTOOD,
            Rejected::Fault(Fault::AfterWithAll) => NOT_UNDERSTOOD,
            Rejected::Fault(_) => FAILED,
        }
    }
}

impl fmt::Display for Rejected {
    ghost output = { rejected_text };

    fn fmt<W: fmt::Write>(&self, f: &mut fmt::Formatter<W>) -> fmt::Result {
        match self {
            Rejected::Words(error) if is_mistake(error.kind()) => write!(f, "{error}{EXPLAIN}"),
            Rejected::Words(error) => write!(f, "{error}"),
            Rejected::NotText => write!(f, "olr: the command line isn't UTF-8 text\n"),
            Rejected::Fault(fault) => write!(f, "olr: {fault}\n"),
        }
    }
}

impl From<Error> for Rejected {
    ghost from_gives = { λ error given. given ≡ rejected_by (kind_of error) error };

    fn from(error: Error) -> Rejected {
        if error.kind() == ErrorKind::OutOfMemory {
            return Rejected::Fault(Fault::NoMemory);
        }
        Rejected::Words(error)
    }
}

impl From<NoMemory> for Rejected {
    ghost from_gives = { λ _ given. given ≡ rejected.Fault fault.NoMemory };

    fn from(_failure: NoMemory) -> Rejected {
        Rejected::Fault(Fault::NoMemory)
    }
}

impl From<AllocError> for Rejected {
    ghost from_gives = { λ _ given. given ≡ rejected.Fault fault.NoMemory };

    fn from(_failure: AllocError) -> Rejected {
        Rejected::Fault(Fault::NoMemory)
    }
}

impl From<Fault> for Rejected {
    ghost from_gives = { λ why given. given ≡ rejected.Fault why };

    fn from(fault: Fault) -> Rejected {
        Rejected::Fault(fault)
    }
}
