//! What the program does with a case, and how it differs from what the case wants.

use crate::suite::{Case, Suite};
use olr_app::{In, Out};
use olr_command_line::{Disk, NotOpened, perform};
use std::alloc::{AllocError, Global};
use std::fmt::Write;

/// The status of words that weren't understood. The text that is printed for them isn't compared.
const NOT_UNDERSTOOD: u8 = 2;

/// What the fault of a record begins with whose words aren't understood. What follows isn't
/// compared.
const WORDS: &str = "\"fault\":\"Words ";

/// The files of a case, in memory.
#[derive(Drop)]
struct Memory<'a> {
    suite: &'a Suite,
    case: &'a Case,
}

impl<'a> Disk for Memory<'a> {
    type Opened = In<&'a [u8]>;

    type Standard = In<&'a [u8]>;

    fn open(&mut self, path: &str) -> Result<In<&'a [u8]>, NotOpened> {
        match self.suite.file_of(self.case, path) {
            Some(text) => Ok(In::new(text.as_bytes())),
            None => Err(NotOpened::Failed),
        }
    }

    fn has(&mut self, path: &str) -> bool {
        self.suite.file_of(self.case, path).is_some()
    }

    fn standard_input(&mut self) -> In<&'a [u8]> {
        In::new(self.case.input.as_bytes())
    }
}

/// What the program does.
#[derive(Drop)]
pub struct Answer {
    status: u8,
    output: String,
    errors: String,
}

/// What the program does with the words and files of a case.
pub fn answer_of(alloc: Global, suite: &Suite, case: &Case) -> Result<Answer, AllocError> {
    let mut words = Vec::new(alloc);
    words.push(String::from_str(alloc, "olr")?)?;
    for word in suite.words_of(case) {
        words.push(word.clone()?)?;
    }
    let mut out = Out::new(Vec::new(alloc));
    let performed = perform(
        alloc,
        words.as_slice(),
        &mut Memory { suite, case },
        &mut out,
    );
    let mut answer = Answer {
        status: 0,
        output: String::from_utf8_lossy(alloc, out.into_writer().as_slice())?,
        errors: String::new(alloc),
    };
    if let Err(rejected) = performed {
        answer.status = rejected.status();
        let text = rejected.to_string(alloc)?;
        if rejected.is_help() {
            answer.output.push_str(&text)?;
        } else {
            answer.errors.push_str(&text)?;
        }
    }
    Ok(answer)
}

/// Whether a line begins with these columns.
fn has_columns(line: &str, columns: &str) -> bool {
    match line.strip_prefix(columns) {
        Some(rest) => rest.is_empty() || rest.starts_with(' '),
        None => false,
    }
}

/// Whether a line is a wanted one that has a fault of words, but for what the fault says.
fn has_words(line: &str, wanted: &str) -> bool {
    let Some((before, behind)) = wanted.split_once(WORDS) else {
        return false;
    };
    match line.strip_prefix(before) {
        Some(rest) => rest.starts_with(WORDS) && rest.ends_with(behind),
        None => false,
    }
}

/// Whether a line is a wanted one, or goes on behind it where there may be more columns.
fn is_line(line: &str, wanted: &str, more_columns: bool) -> bool {
    line == wanted || has_words(line, wanted) || (more_columns && has_columns(line, wanted))
}

/// Whether a text has as many lines as the wanted one, each of which is a wanted one.
fn have_lines(text: &str, wanted: &str, more_columns: bool) -> bool {
    let mut wanted = wanted.lines();
    for line in text.lines() {
        match wanted.next() {
            Some(expected) if is_line(line, expected, more_columns) => {}
            _ => return false,
        }
    }
    wanted.next().is_none()
}

/// Whether an output is the wanted one: byte for byte, unless there may be more columns or it has a
/// fault of words.
fn is_output(output: &str, wanted: &str, more_columns: bool) -> bool {
    if more_columns || wanted.contains(WORDS) {
        return have_lines(output, wanted, more_columns);
    }
    output == wanted
}

impl Answer {
    /// Lines that name what differs from what a case of a suite wants; none where nothing does.
    pub fn differences(
        &self,
        alloc: Global,
        suite: &Suite,
        case: &Case,
    ) -> Result<String, AllocError> {
        let mut lines = String::new(alloc);
        if self.status != case.status {
            write!(
                lines,
                "  status {} in place of {}\n",
                self.status, case.status
            )?;
        }
        self.compare_output(suite, case, &mut lines)?;
        self.compare_errors(case, &mut lines)?;
        Ok(lines)
    }

    fn compare_output(
        &self,
        suite: &Suite,
        case: &Case,
        lines: &mut String,
    ) -> Result<(), AllocError> {
        let wanted = match &case.output {
            Some(output) => output.as_str(),
            None if case.status == 0 => return Ok(()),
            None => "",
        };
        let output = self.output.as_str();
        if !is_output(output, wanted, suite.more_columns) {
            write!(lines, "  output:\n{}  in place of:\n{wanted}", self.output)?;
        }
        Ok(())
    }

    fn compare_errors(&self, case: &Case, lines: &mut String) -> Result<(), AllocError> {
        if case.status == NOT_UNDERSTOOD && case.fault.is_none() {
            return Ok(());
        }
        let errors = self.errors.as_str();
        let wanted = match &case.fault {
            Some(fault) => fault.as_str(),
            None => "",
        };
        let is_same = if wanted.is_empty() {
            errors.is_empty()
        } else {
            errors.strip_suffix("\n") == Some(wanted)
        };
        if !is_same {
            write!(lines, "  fault {errors:?} in place of {wanted:?}\n")?;
        }
        Ok(())
    }
}
