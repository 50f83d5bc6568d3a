//! What is asked of the lines of a map.

ghost use Rattle.std.specs.Prelude.{◌≡◌, ◌<◌, ◌++◌, IfErr, IfOk, OnOk, string_bytes};
ghost use Rattle.clap.specs.Walk.{texts};
ghost use Rattle.olr_request.specs.declared.fault.Fault.TheVariants as fault;
ghost use Rattle.olr_words.specs.Lines.{AreLinesAsked, AreRefusedLines, HasNoBox, IsGivenBox};
ghost use Rattle.olr_words.specs.Lines.{byte_behind, joined, joined_behind};

use crate::words::Given;
use olr_lines::{GeoBox, LineCount};
use olr_request::{Fault, LinesRequest};
use std::alloc::{AllocError, Global};

/// How many lines are printed where the words don't say it.
const DEFAULT_LINES: u32 = 20_000;

impl Given<'_> {
    /// The box that is given.
    ///
    /// # Errors
    ///
    /// [`Fault::BadBox`] where it ends farther west or south than it begins.
    fn within(&self) -> Result<GeoBox, Fault>
        ensures accepted { IfOk result (IsGivenBox self.now) }
        ensures refused { IfErr result (λ why. (why ≡ fault.BadBox) × HasNoBox self.now) }
    {
        let Some(edges) = self.edges else {
            return Err(Fault::BadBox);
        };
        match GeoBox::new(edges.west, edges.south, edges.east, edges.north) {
            Some(within) => Ok(within),
            None => Err(Fault::BadBox),
        }
    }

    /// The lines that are asked for.
    ///
    /// # Errors
    ///
    /// [`Fault::BadNumber`] where the number of lines is out of its range; else that of
    /// [`Given::within`].
    pub(crate) fn lines(&self) -> Result<LinesRequest, Fault>
        ensures accepted { IfOk result (AreLinesAsked self.now) }
        ensures refused { IfErr result (AreRefusedLines self.now) }
    {
        let most = LineCount::new(self.numbers.most.unwrap_or(DEFAULT_LINES))?;
        let within = self.within()?;
        Ok(LinesRequest {
            within,
            most,
            shape: self.extras.shape,
            format: self.format,
        })
    }
}

/// What stands between a word and the next one: `=` behind `--box`, whose text may begin with a
/// minus.
fn separator_behind(word: &str) -> char
    ensures byte { result ≡ byte_behind word.now }
    ensures ascii { result < 128 }
{
    if word == "--box" { '=' } else { ' ' }
}

/// Adds words, each with what stands before it; before the first one stands this.
fn push_joined(first: char, words: &[&str], text: &mut String) -> Result<(), AllocError>
    requires { first < 128 }
    ensures { OnOk result (string_bytes text.new
        ≡ string_bytes text.old ++ joined_behind first (texts words.now)) }
{
    let mut before = first;
    for &word in words {
        text.push(before)?;
        text.push_str(word)?;
        before = separator_behind(word);
    }
    Ok(())
}

/// The words of a record that asks for lines as they are read: joined, by `=` behind `--box`. (`clap`
/// takes no word that begins with a minus for the text of an option, unless it stands behind `=`.)
pub(crate) fn joined_words(alloc: Global, words: &[&str]) -> Result<String, AllocError>
    ensures { IfOk result (λ text. string_bytes text ≡ joined (texts words.now)) }
{
    let mut text = String::new(alloc);
    if let Some((first, others)) = words.split_first() {
        text.push_str(first)?;
        push_joined(separator_behind(first), others, &mut text)?;
    }
    Ok(text)
}
