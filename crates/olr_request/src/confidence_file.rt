//! The file of a confidence, which may be none.

ghost use Rattle.std.specs.Prelude.{IfOk};
ghost use Rattle.olr_request.specs.ConfidenceFile.{IsReadFrom};

use olr_base::NoMemory;
use olr_confidence::{Confidence, ConfidenceError};
use std::alloc::Global;

/// What a file for a confidence says.
#[derive(Clone, Copy, Debug, PartialEq, Eq)]
pub enum ConfidenceFile {
    /// This confidence.
    Read(Confidence),
    /// None: it isn't such a file.
    Bad,
}

impl ConfidenceFile {
    /// How many bytes it has at most: 1 MiB.
    pub const MOST_BYTES: usize = 1 << 20;

    /// What a file of these bytes says. One of more than [`ConfidenceFile::MOST_BYTES`] is none,
    /// whatever stands in it.
    ///
    /// # Errors
    ///
    /// [`NoMemory`] where the allocator refused memory.
    pub fn read(alloc: Global, bytes: &[u8]) -> Result<ConfidenceFile, NoMemory>
        ensures { IfOk result (IsReadFrom bytes.now) }
    {
        if bytes.len() > ConfidenceFile::MOST_BYTES {
            return Ok(ConfidenceFile::Bad);
        }
        match Confidence::read(alloc, bytes) {
            Ok(confidence) => Ok(ConfidenceFile::Read(confidence)),
            Err(ConfidenceError::Bad) => Ok(ConfidenceFile::Bad),
            Err(ConfidenceError::NoMemory) => Err(NoMemory),
        }
    }
}
