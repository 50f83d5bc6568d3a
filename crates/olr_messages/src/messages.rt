//! The lines of an input, one after the other, as the bytes of a source come in.

ghost use Rattle.std.specs.Prelude.{◌≡◌, ◌<◌, ◌≤◌, ◌↔◌, ◌++◌, ℕ, true, List, [], length, vec_capacity};
ghost use Rattle.std.specs.Prelude.{Contains, IfOk, IsTrue, MatchBool, OnErr, OnOk};
ghost use Rattle.std.specs.Io.KnownBytes.{Keeps};
ghost use Rattle.olr_base.specs.Counting.{Counts};
ghost use Rattle.olr_messages.specs.Content.{IsMessageOfLine, message_of};
ghost use Rattle.olr_messages.specs.Messages.{front_of, left_of, ReadsLine, IsOver, IsCutOff};
ghost use Rattle.olr_messages.specs.Messages.{IsGiven, ReadsToLf, ReadsAll};

use crate::content::{Content, content_of_line};
use memchr::memchr;
use olr_base::{Failed, NoMemory};
use olr_records::Source;
use std::alloc::Global;
use std::marker::Model;

/// How many bytes are asked for at once.
const CHUNK: usize = 65_536;

/// [`CHUNK`], of which a proof only knows that it isn't 0.
fn chunk() -> usize
    ensures { 0 < result }
{
    CHUNK
}

/// The most bytes that are held of a line: one more than the longest line of a record that isn't
/// long, so that a line of which more is left out has a long record, whether it ends with a CR or
/// not.
const HELD: usize = 65_538;

const LF: u8 = b'\n';

/// Appends bytes to the front of a line, as far as it is held.
#[tactic(auto, using(crate::proofs::Fronts::held_front))]
fn hold(line: &mut Vec<u8>, part: &[u8])
    requires is_front { length line.old.items ≤ HELD }
    requires room { HELD ≤ vec_capacity line.old }
    ensures front { line.new.items ≡ front_of (line.old.items ++ part.now) }
    ensures room { HELD ≤ vec_capacity line.new }
{
    let count = part.len().min(HELD - line.len());
    line.extend_from_slice(&part[..count]).unwrap();
}

/// The messages of an input, at one of its lines.
///
/// It takes all the memory that it needs when it is made: of a line only the front is held.
#[derive(Drop)]
pub struct Messages {
    /// What the source gave last.
    chunk: Vec<u8>,
    /// Where the bytes at hand begin in the chunk.
    from: usize,
    /// Where they end.
    to: usize,
    /// The front of the line.
    line: Vec<u8>,
}

impl Model for Messages {
    ghost use Rattle.std.specs.Prelude.{ℕ, ◌≤◌, ◌<◌, length, slice_range, vec_capacity};
    ghost use Rattle.olr_messages.specs.Messages.{Reading, IsSound};

    ghost Value = { Reading };

    ghost view = { λ m. record {
      at_hand = slice_range m.chunk.items m.from m.to;
      front = m.line.items;
    } };

    ghost invariant = { λ m. IsSound m.chunk.items m.from m.to m.line.items (vec_capacity m.line) };
}

impl Messages {
    /// The messages of an input, before its first line.
    ///
    /// # Errors
    ///
    /// [`NoMemory`] where there is no memory. No other call asks for any.
    pub fn new(alloc: Global) -> Result<Messages, NoMemory>
        ensures none_at_hand { IfOk result (λ messages. messages.at_hand ≡ []) }
    {
        Ok(Messages {
            chunk: vec![in alloc; 0u8; chunk()]?,
            from: 0,
            to: 0,
            line: Vec::with_capacity(alloc, HELD)?,
        })
    }

    /// Whether the bytes at hand hold the next line as a whole, with its LF.
    /// [`next`](Messages::next) doesn't ask the source for more then.
    #[tactic(auto, using(crate::proofs::Chunks::holds_lf))]
    pub fn holds_whole(&self) -> bool
        ensures { IsTrue result ↔ Contains self.now.at_hand LF }
    {
        memchr(LF, &self.chunk[self.from..self.to]).is_some()
    }

    /// Moves on to the next line, and answers whether there was one. It asks the source for more
    /// only while the bytes at hand have no LF. After an error, the bytes that were read of the
    /// line are lost.
    ///
    /// # Errors
    ///
    /// [`Failed`] where a call of the source failed, or where the line has more bytes than any
    /// machine holds.
    pub fn next<S: Source>(&mut self, source: &mut S) -> Result<bool, Failed>
        // What was left, at hand and in the source, is the next line and what is left now.
        ensures moves { IfOk result (λ found. MatchBool found
            (ReadsLine (left_of self.old (S.left source.old)) (left_of self.new (S.left source.new))
            self.new.front)
            (IsOver (left_of self.old (S.left source.old))
            (left_of self.new (S.left source.new)))) }
        ensures none_failed { OnOk result (S.failed source.new ≡ S.failed source.old) }
        ensures cut_off { OnErr result (IsCutOff
            (left_of self.old (S.left source.old)) (left_of self.new (S.left source.new))
            self.new.at_hand (S.failed source.old) (S.failed source.new)) }
        ensures none_at_hand { OnErr result (self.new.at_hand ≡ []) }

        // A line that is at hand as a whole is answered from the bytes at hand alone.
        ensures answers { Contains self.old.at_hand LF → result ≡ Ok true }
        ensures asks_nothing { Contains self.old.at_hand LF → source.new ≡ source.old }
        ensures at_hand { Contains self.old.at_hand LF
            → ReadsLine (Some self.old.at_hand) (Some self.new.at_hand) self.new.front }
    {
        self.begin();
        for _call in 0..u64::MAX {
            if self.read_to_lf() {
                return Ok(true);
            }
            if !self.refill(source)? {
                return Ok(!self.line.is_empty());
            }
        }
        if self.read_to_lf() {
            return Ok(true);
        }
        Err(Failed)
    }

    /// What the record of the line says.
    #[tactic(auto, using(crate::proofs::Fronts::message_of_front))]
    pub fn content(&self) -> Content<'_>
        ensures { (line : List ℕ) → self.now.front ≡ front_of line
            → IsMessageOfLine line (message_of result) }
    {
        content_of_line(&self.line)
    }

    /// Begins a line: nothing of it is held.
    fn begin(&mut self)
        ensures at_hand { self.new.at_hand ≡ self.old.at_hand }
        ensures front { self.new.front ≡ [] }
    {
        self.line.clear();
    }

    /// Reads the bytes at hand up to an LF, and passes that over; whether there was one.
    fn read_to_lf(&mut self) -> bool
        ensures { MatchBool result (ReadsToLf self.old self.new) (ReadsAll self.old self.new) }
    {
        let at_hand = &self.chunk[self.from..self.to];
        let Some(end) = memchr(LF, at_hand) else {
            hold(&mut self.line, at_hand);
            self.from = self.to;
            return false;
        };
        hold(&mut self.line, &at_hand[..end]);
        self.from += end + 1;
        true
    }

    /// Asks the source for bytes, where none is at hand; whether it gave any.
    fn refill<S: Source>(&mut self, source: &mut S) -> Result<bool, Failed>
        requires none_at_hand { self.old.at_hand ≡ [] }
        ensures gives { IfOk result (λ found.
            IsGiven found (S.left source.old) (S.left source.new) self.new.at_hand) }
        ensures counts { Counts result (S.failed source.old) (S.failed source.new) }
        ensures err { OnErr result (Keeps (S.left source.old) (S.left source.new)) }
        ensures none_at_hand { OnErr result (self.new.at_hand ≡ []) }
        ensures same_line { self.new.front ≡ self.old.front }
    {
        self.from = 0;
        self.to = 0;
        self.to = source.pull(&mut self.chunk)?;
        Ok(self.to > 0)
    }
}
