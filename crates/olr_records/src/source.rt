//! Where the bytes of a file come from.

ghost use Rattle.std.specs.Prelude.{◌≡◌, ℕ, List, Option, IsErr, IsTrue};
ghost use Rattle.std.specs.Io.{ReadsAtMost};
ghost use Rattle.std.specs.Io.KnownBytes.{ReadConsumes};
ghost use Rattle.either.specs.Either.{either};
ghost use Rattle.olr_base.specs.Counting.{Counts};
ghost use Rattle.olr_records.specs.In.{reader_of, failures_of};

use either::Either;
use olr_base::Failed;
use std::io;
use std::io::{ErrorKind, Read};

/// A device that gives bytes.
///
/// It counts the calls that failed. The count stays at its greatest value once it is there.
pub trait Source {
    // The bytes that are left, where they are known.
    ghost left: { Self → Option (List ℕ) };

    // How many calls failed.
    ghost failed: { Self → ℕ };

    /// Moves bytes to the front of the buffer, and answers how many. For a buffer that isn't empty,
    /// it answers 0 only where no byte is left.
    ///
    /// # Errors
    ///
    /// [`Failed`] where the device failed. It gave no byte then.
    fn pull(&mut self, buffer: &mut [u8]) -> Result<usize, Failed>
        ensures at_most { ReadsAtMost result buffer.new }
        ensures gives { ReadConsumes (left self.old) (left self.new) result buffer.new }
        ensures counts { Counts result (failed self.old) (failed self.new) };

    /// How many calls failed.
    fn failures(&self) -> u64
        ensures { result ≡ failed self.now };
}

/// A source over any reader. An interrupted call of the reader is made again; each other error of
/// it, of whatever kind, is a failure.
#[derive(Drop)]
pub struct In<R> {
    reader: R,
    failures: u64,
}

impl<R> In<R> {
    /// A source over a reader, with no failure so far.
    pub fn new(reader: R) -> In<R>
        ensures reader { reader_of result ≡ reader }
        ensures no_failure { failures_of result ≡ 0 }
    {
        In {
            reader,
            failures: 0,
        }
    }
}

/// Whether a signal interrupted a call, which did nothing then.
fn is_interrupted(answer: &io::Result<usize>) -> bool
    ensures { IsTrue result → IsErr answer.now }
{
    matches!(answer, Err(error) if error.kind() == ErrorKind::Interrupted)
}

/// What a reader answers where no signal interrupts it.
fn read_uninterrupted<R: Read>(reader: &mut R, buffer: &mut [u8]) -> io::Result<usize>
    ensures at_most { ReadsAtMost result buffer.new }
    ensures gives { ReadConsumes (R.remaining reader.old) (R.remaining reader.new) result buffer.new }
{
    for _ in 0..u64::MAX {
        let answer = reader.read(buffer);
        if !is_interrupted(&answer) {
            return answer;
        }
    }
    reader.read(buffer)
}

impl<R: Read> Source for In<R> {
    ghost left = { λ source. R.remaining (reader_of source) };

    ghost failed = { failures_of };

    fn pull(&mut self, buffer: &mut [u8]) -> Result<usize, Failed> {
        let Ok(count) = read_uninterrupted(&mut self.reader, buffer) else {
            self.failures = self.failures.saturating_add(1);
            return Err(Failed);
        };
        Ok(count)
    }

    fn failures(&self) -> u64 {
        self.failures
    }
}

/// One of two sources.
impl<L: Source, R: Source> Source for Either<L, R> {
    ghost left = { either L.left R.left };

    ghost failed = { either L.failed R.failed };

    fn pull(&mut self, buffer: &mut [u8]) -> Result<usize, Failed> {
        match self {
            Either::Left(source) => source.pull(buffer),
            Either::Right(source) => source.pull(buffer),
        }
    }

    fn failures(&self) -> u64 {
        match self {
            Either::Left(source) => source.failures(),
            Either::Right(source) => source.failures(),
        }
    }
}
