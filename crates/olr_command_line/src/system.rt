//! The program over the system: the words of its command line, its files and its outputs.

use crate::opening::{Disk, NotOpened};
use crate::performing::perform;
use olr_app::{Fault, In, Out};
use olr_words::Rejected;
use std::io::Input;
use std::process::ExitCode;
use std::{env, fs, io};

/// The files of the system.
#[derive(Drop)]
struct SystemFiles<'a> {
    rt: &'a HostRuntime,
}

impl Disk for SystemFiles<'_> {
    type Opened = In<fs::File>;

    type Standard = In<io::StdinLock<'static>>;

    fn open(&mut self, path: &str) -> Result<In<fs::File>, NotOpened> {
        match fs::open(self.rt, path) {
            Ok(opened) => Ok(In::new(opened)),
            Err(error) if error.kind() == io::ErrorKind::OutOfMemory => Err(NotOpened::NoMemory),
            Err(_) => Err(NotOpened::Failed),
        }
    }

    fn has(&mut self, path: &str) -> bool {
        !matches!(fs::exists(self.rt, path), Ok(false))
    }

    fn standard_input(&mut self) -> In<io::StdinLock<'static>> {
        In::new(self.rt.reader())
    }
}

/// The words of the command line.
fn words(rt: &HostRuntime) -> Result<Vec<String>, Rejected> {
    match env::args(rt) {
        Ok(words) => Ok(words.collect(rt.alloc())?),
        Err(error) if error.kind() == io::ErrorKind::OutOfMemory => Err(Rejected::from(
            Fault::NoMemory,
        )),
        Err(_) => Err(Rejected::NotText),
    }
}

/// Does what the words ask for, and writes to the standard output.
fn answer(rt: &HostRuntime) -> Result<(), Rejected> {
    let words = words(rt)?;
    let mut out = Out::new(io::writer(rt));
    perform(
        rt.alloc(),
        words.as_slice(),
        &mut SystemFiles { rt },
        &mut out,
    )
}

/// All of the program: [`perform`] with the words of the command line, the files of the system and
/// the standard output. The text of a rejection is printed where it belongs. The result is what the
/// process ends with.
///
/// # Errors
///
/// Where the text of a rejection can't be printed.
pub fn run_on_system(rt: &HostRuntime) -> io::Result<ExitCode> {
    let Err(rejected) = answer(rt) else {
        return Ok(ExitCode::SUCCESS);
    };
    if rejected.is_help() {
        print!(rt; "{rejected}")?;
    } else {
        eprint!(rt; "{rejected}")?;
    }
    Ok(ExitCode::from(rejected.status()))
}
