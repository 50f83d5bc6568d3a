//! Where output goes.

ghost use Rattle.std.specs.Prelude.{◌≡◌, ℕ, ◌≤◌, List, Option, Result, length, IfOk, OnErr, IsErr, IsTrue};
ghost use Rattle.std.specs.Prelude.{Ok};
ghost use Rattle.std.specs.Io.KnownBytes.{Keeps, WriteAppends};
ghost use Rattle.olr_base.specs.declared.failure.Failed.{Failed};
ghost use Rattle.olr_base.specs.Counting.{one_more, Counts};
ghost use Rattle.olr_app.specs.Out.{writer_of, failures_of};

use olr_base::Failed;
use std::io;
use std::io::{ErrorKind, Write};

/// A device that takes bytes.
///
/// It counts the calls that failed. The count stays at its greatest value once it is there.
pub trait Sink {
    // The bytes taken so far, where the device knows them.
    ghost taken: { Self → Option (List ℕ) };

    // The count of failures.
    ghost failed: { Self → ℕ };

    // What one call of `put` may have done: the sink before it, the bytes, the answer, and the sink
    // after it.
    ghost put_gives: { Self → List ℕ → Result ℕ Failed → Self → Type 0 };

    // What one call of `flush_out` may have done: the sink before it, the answer, and the sink
    // after it.
    ghost flush_gives: { Self → Result (Unit {0}) Failed → Self → Type 0 };

    /// Hands bytes over, and answers how many of `bytes`, from the first on, were taken.
    ///
    /// # Errors
    ///
    /// [`Failed`] where the device failed. It took no byte then.
    fn put(&mut self, bytes: &[u8]) -> Result<usize, Failed>
        ensures most { IfOk result (λ n. n ≤ length bytes.now) }
        ensures takes { WriteAppends (taken self.old) (taken self.new) result bytes.now }
        ensures counts { Counts result (failed self.old) (failed self.new) }
        ensures gives { put_gives self.old bytes.now result self.new };

    /// Passes on what was taken, as far as the device keeps it back.
    ///
    /// # Errors
    ///
    /// [`Failed`] where the device failed.
    fn flush_out(&mut self) -> Result<(), Failed>
        ensures keeps { Keeps (taken self.old) (taken self.new) }
        ensures counts { Counts result (failed self.old) (failed self.new) }
        ensures gives { flush_gives self.old result self.new };

    /// How many calls failed.
    fn failures(&self) -> u64
        ensures { result ≡ failed self.now };
}

/// A sink over any writer. An interrupted call of the writer is made again; each other error of it,
/// of whatever kind, is a failure.
#[derive(Drop)]
pub struct Out<W> {
    writer: W,
    failures: u64,
}

impl<W> Out<W> {
    /// A sink over a writer, with no failure so far.
    pub fn new(writer: W) -> Out<W>
        ensures writer { writer_of result ≡ writer }
        ensures none { failures_of result ≡ 0 }
    {
        Out {
            writer,
            failures: 0,
        }
    }

    /// The writer.
    pub fn into_writer(self) -> W
        ensures { result ≡ writer_of self }
    {
        let Out {
            writer,
            failures: _,
        } = self;
        writer
    }

    /// What the writer answered, with a failure counted.
    fn counted<T>(&mut self, answer: io::Result<T>) -> Result<T, Failed>
        ensures writer { writer_of self.new ≡ writer_of self.old }
        ensures passed { IfOk answer (λ value.
            (result ≡ Ok value) × (failures_of self.new ≡ failures_of self.old)) }
        ensures failed { OnErr answer
            (IsErr result × (failures_of self.new ≡ one_more (failures_of self.old))) }
    {
        let Ok(value) = answer else {
            self.failures = self.failures.saturating_add(1);
            return Err(Failed);
        };
        Ok(value)
    }
}

/// Whether a signal interrupted a call, which did nothing then.
fn is_interrupted<T>(answer: &io::Result<T>) -> bool
    ensures { IsTrue result → IsErr answer.now }
{
    matches!(answer, Err(error) if error.kind() == ErrorKind::Interrupted)
}

/// What a writer answers where no signal interrupts it.
fn write_uninterrupted<W: Write>(writer: &mut W, bytes: &[u8]) -> io::Result<usize>
    ensures most { IfOk result (λ n. n ≤ length bytes.now) }
    ensures takes { WriteAppends (W.contents writer.old) (W.contents writer.new) result bytes.now }
{
    for _ in 0..u64::MAX {
        let answer = writer.write(bytes);
        if !is_interrupted(&answer) {
            return answer;
        }
    }
    writer.write(bytes)
}

/// What a writer answers to a flush where no signal interrupts it.
fn flush_uninterrupted<W: Write>(writer: &mut W) -> io::Result<()>
    ensures { Keeps (W.contents writer.old) (W.contents writer.new) }
{
    for _ in 0..u64::MAX {
        let answer = writer.flush();
        if !is_interrupted(&answer) {
            return answer;
        }
    }
    writer.flush()
}

impl<W: Write> Sink for Out<W> {
    ghost taken = { λ out. W.contents (writer_of out) };

    ghost failed = { failures_of };

    ghost put_gives = { λ old bytes r new.
        WriteAppends (W.contents (writer_of old)) (W.contents (writer_of new)) r bytes };

    ghost flush_gives = { λ old _ new.
        Keeps (W.contents (writer_of old)) (W.contents (writer_of new)) };

    fn put(&mut self, bytes: &[u8]) -> Result<usize, Failed> {
        let answer = write_uninterrupted(&mut self.writer, bytes);
        self.counted(answer)
    }

    fn flush_out(&mut self) -> Result<(), Failed> {
        let answer = flush_uninterrupted(&mut self.writer);
        self.counted(answer)
    }

    fn failures(&self) -> u64 {
        self.failures
    }
}
