//! Sources, sinks, readers and writers over memory that fail in one of their calls, or that give or
//! take few bytes a call. Calls are counted from 0.

ghost use Rattle.std.specs.Prelude.{Some};
ghost use Rattle.std.specs.Io.KnownBytes.{Keeps, WriteAppends};

use olr_app::{Sink, Source};
use olr_base::Failed;
use std::alloc::Global;
use std::io;
use std::io::{Read, Write};

/// The number of no call.
pub const NEVER: u32 = u32::MAX;

/// A source over memory that gives few bytes a call, and that fails in one of its calls.
#[derive(Drop)]
pub struct Given<'a> {
    rest: &'a [u8],
    /// The most bytes that a call gives; it gives one where this is 0.
    width: usize,
    /// The call that fails.
    failing: u32,
    /// The calls so far.
    pub calls: u32,
    failures: u64,
}

impl<'a> Given<'a> {
    /// A source of bytes that wasn't called so far.
    pub fn new(rest: &'a [u8], width: usize, failing: u32) -> Given<'a> {
        Given {
            rest,
            width,
            failing,
            calls: 0,
            failures: 0,
        }
    }
}

impl<'a> Source for Given<'a> {
    ghost left = { λ source. Some source.rest.now };

    ghost failed = { λ source. source.failures };

    fn pull(&mut self, buffer: &mut [u8]) -> Result<usize, Failed> {
        let call = self.calls;
        self.calls = call.saturating_add(1);
        if call == self.failing {
            self.failures = self.failures.saturating_add(1);
            return Err(Failed);
        }
        let size = buffer.len().min(self.rest.len()).min(self.width.max(1));
        buffer[..size].copy_from_slice(&self.rest[..size]);
        self.rest = &self.rest[size..];
        Ok(size)
    }

    fn failures(&self) -> u64 {
        self.failures
    }
}

/// A sink over memory that takes few bytes a call, and that fails or takes none in one of them.
#[derive(Drop)]
pub struct Taken {
    pub bytes: Vec<u8>,
    /// The most bytes that a call of `put` takes.
    width: usize,
    /// The call of `put` or of `flush_out` that fails.
    pub failing: u32,
    /// The call of `put` that takes no byte.
    pub empty: u32,
    /// The calls of `put` and of `flush_out` so far.
    pub calls: u32,
    /// The calls of `flush_out` so far.
    pub flushes: u32,
    failures: u64,
}

impl Taken {
    /// A sink whose calls all pass.
    pub fn new(alloc: Global, width: usize) -> Taken {
        Taken {
            bytes: Vec::new(alloc),
            width,
            failing: NEVER,
            empty: NEVER,
            calls: 0,
            flushes: 0,
            failures: 0,
        }
    }
}

impl Sink for Taken {
    ghost taken = { λ sink. Some sink.bytes.items };

    ghost failed = { λ sink. sink.failures };

    ghost put_gives = { λ old bytes r new. WriteAppends (Some old.bytes.items) (Some new.bytes.items) r bytes };

    ghost flush_gives = { λ old _ new. Keeps (Some old.bytes.items) (Some new.bytes.items) };

    fn put(&mut self, bytes: &[u8]) -> Result<usize, Failed> {
        let call = self.calls;
        self.calls = call.saturating_add(1);
        let width = if call == self.empty { 0 } else { self.width };
        let size = bytes.len().min(width);
        if call == self.failing || self.bytes.extend_from_slice(&bytes[..size]).is_err() {
            self.failures = self.failures.saturating_add(1);
            return Err(Failed);
        }
        Ok(size)
    }

    fn flush_out(&mut self) -> Result<(), Failed> {
        let call = self.calls;
        self.calls = call.saturating_add(1);
        self.flushes = self.flushes.saturating_add(1);
        if call == self.failing {
            self.failures = self.failures.saturating_add(1);
            return Err(Failed);
        }
        Ok(())
    }

    fn failures(&self) -> u64 {
        self.failures
    }
}

/// A writer that fails in one of its calls, and else drops what it is given.
#[derive(Clone, Copy)]
pub struct Dropping {
    /// The call of `write` or of `flush` that fails.
    pub failing: u32,
    /// How it fails.
    pub kind: io::ErrorKind,
    /// The calls so far.
    pub calls: u32,
}

impl Write for Dropping {
    fn write(&mut self, bytes: &[u8]) -> io::Result<usize> {
        self.flush()?;
        Ok(bytes.len())
    }

    fn flush(&mut self) -> io::Result<()> {
        let call = self.calls;
        self.calls = call.saturating_add(1);
        if call == self.failing {
            return Err(io::Error::from(self.kind));
        }
        Ok(())
    }
}

/// A reader that gives a byte a call, and fails in one of its calls.
#[derive(Drop)]
pub struct Dripping<'a> {
    pub rest: &'a [u8],
    /// The call that fails.
    pub failing: u32,
    /// How it fails.
    pub kind: io::ErrorKind,
    /// The calls so far.
    pub calls: u32,
}

impl<'a> Read for Dripping<'a> {
    fn read(&mut self, buffer: &mut [u8]) -> io::Result<usize> {
        let call = self.calls;
        self.calls = call.saturating_add(1);
        if call == self.failing {
            return Err(io::Error::from(self.kind));
        }
        let Some((first, rest)) = self.rest.split_first() else {
            return Ok(0);
        };
        let Some(place) = buffer.first_mut() else {
            return Ok(0);
        };
        *place = *first;
        self.rest = rest;
        Ok(1)
    }
    /// No test calls it; the body that it would have is dear to prove.
    fn read_exact(&mut self, _buffer: &mut [u8]) -> io::Result<()> {
        Err(io::Error::from(io::ErrorKind::Unsupported))
    }
}
