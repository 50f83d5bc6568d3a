//! The file of a confidence, opened and read.

use crate::opening::{Disk, open};
use olr_app::{ConfidenceFile, Fault, Source};
use std::alloc::Global;

/// How many bytes are asked for at once.
const CHUNK: usize = 65_536;

/// The bytes of a source, in order. It reads no more of them where they are more than a confidence
/// has.
///
/// # Errors
///
/// [`Fault::ConfidenceNotRead`] where a call of the source failed; [`Fault::NoMemory`] where the
/// allocator refused memory.
fn bytes_of<S: Source>(alloc: Global, source: &mut S) -> Result<Vec<u8>, Fault> {
    let Ok(mut buffer) = vec![in alloc; 0u8; CHUNK] else {
        return Err(Fault::NoMemory);
    };
    let mut bytes = Vec::new(alloc);
    for _ in 0..=ConfidenceFile::MOST_BYTES {
        let Ok(count) = source.pull(&mut buffer) else {
            return Err(Fault::ConfidenceNotRead);
        };
        if count == 0 || bytes.len() > ConfidenceFile::MOST_BYTES {
            return Ok(bytes);
        }
        let Ok(()) = bytes.extend_from_slice(&buffer[..count]) else {
            return Err(Fault::NoMemory);
        };
    }
    Ok(bytes)
}

/// The file of a confidence, if its path is given: it is opened, and read at once.
///
/// # Errors
///
/// [`Fault::ConfidenceNotOpened`] where it can't be opened; else those of [`bytes_of`]. That it is no
/// confidence is no error here.
pub(crate) fn confidence_at<D: Disk>(
    alloc: Global,
    disk: &mut D,
    path: Option<&str>,
) -> Result<Option<ConfidenceFile>, Fault> {
    let Some(path) = path else {
        return Ok(None);
    };
    let mut source = open(disk, path, Fault::ConfidenceNotOpened)?;
    let bytes = bytes_of(alloc, &mut source)?;
    let file = ConfidenceFile::read(alloc, &bytes)?;
    Ok(Some(file))
}
