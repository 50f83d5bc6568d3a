//! All the bytes of a source.

ghost use Rattle.std.specs.Prelude.{◌≡◌, ◌<◌, [], length, OnOk, IfErr};
ghost use Rattle.olr_records.specs.declared.reading.ReadFault.TheVariants as why;
ghost use Rattle.olr_records.specs.Reading.{IsWhole, IsReadFault};

use crate::source::Source;
use std::alloc::{AllocError, AllocFailed, Global};

/// Why a source isn't read to its end.
#[derive(Clone, Copy, Debug, PartialEq, Eq)]
pub enum ReadFault {
    /// A call of the source failed, and was counted.
    Failed,
    /// There is no memory for the bytes. No call of the source failed. No clause states why there
    /// is none.
    NoMemory,
}

impl From<AllocError> for ReadFault {
    ghost from_gives = { λ _ given. given ≡ why.NoMemory };

    fn from(_error: AllocError) -> ReadFault {
        ReadFault::NoMemory
    }
}

impl<T: Drop> From<AllocFailed<T>> for ReadFault {
    ghost from_gives = { λ _ given. given ≡ why.NoMemory };

    fn from(_error: AllocFailed<T>) -> ReadFault {
        ReadFault::NoMemory
    }
}

/// How many bytes are asked for at once.
const CHUNK: usize = 65_536;

/// [`CHUNK`], of which a proof only knows that it isn't 0.
fn chunk() -> usize
    ensures { 0 < result }
{
    CHUNK
}

/// Appends all the bytes that a source has left to an empty text, by way of a buffer.
fn drain<S: Source>(source: &mut S, buffer: &mut [u8], text: &mut Vec<u8>) -> Result<(), ReadFault>
    requires empty { text.old.items ≡ [] }
    requires not_empty { 0 < length buffer.old }
    ensures whole { OnOk result (IsWhole (S.left source.old) (S.left source.new) text.new.items) }
    ensures none_failed { OnOk result (S.failed source.new ≡ S.failed source.old) }
    ensures fault { IfErr result (IsReadFault (S.failed source.old) (S.failed source.new)) }
{
    loop {
        let Ok(count) = source.pull(buffer) else {
            return Err(ReadFault::Failed);
        };
        if count == 0 {
            return Ok(());
        }
        text.extend_from_slice(&buffer[..count])?;
    }
}

/// Reads all the bytes that a source has left into `text`, in place of those that it has. A text
/// that serves for one file after the other asks for memory once.
///
/// # Errors
///
/// [`ReadFault::Failed`] where a call of the source failed, which it counted;
/// [`ReadFault::NoMemory`] where there is no memory for the bytes, and no call of the source
/// failed.
pub fn read_whole<S: Source>(
    alloc: Global,
    source: &mut S,
    text: &mut Vec<u8>,
) -> Result<(), ReadFault>
    ensures whole { OnOk result (IsWhole (S.left source.old) (S.left source.new) text.new.items) }
    ensures none_failed { OnOk result (S.failed source.new ≡ S.failed source.old) }
    ensures fault { IfErr result (IsReadFault (S.failed source.old) (S.failed source.new)) }
{
    let mut buffer = vec![in alloc; 0u8; chunk()]?;
    text.clear();
    drain(source, &mut buffer, text)?;
    Ok(())
}
