//! Many files as one string of bytes: of each file its path, a zero byte, its size in eight bytes,
//! of which the first is the lowest, and its bytes.

use olr_app::In;
use olr_command_line::{Disk, NotOpened};

/// Files in memory.
#[derive(Drop)]
pub struct PackedFiles<'a> {
    files: &'a [u8],
}

/// A file, and the packed files behind it.
#[derive(Drop)]
struct FirstFile<'a> {
    path: &'a [u8],
    bytes: &'a [u8],
    others: &'a [u8],
}

/// The first of packed files; none where there is none, or where it is cut off.
fn first_file(files: &[u8]) -> Option<FirstFile<'_>> {
    let end = files.iter().position(|byte| *byte == 0)?;
    let (path, rest) = files.split_at_checked(end)?;
    let (_, rest) = rest.split_first()?;
    let (size, rest) = rest.split_first_chunk::<8>()?;
    let (bytes, others) = rest.split_at_checked(usize::from_le_bytes(*size))?;
    Some(FirstFile {
        path,
        bytes,
        others,
    })
}

impl<'a> PackedFiles<'a> {
    /// Packed files.
    pub fn new(files: &'a [u8]) -> PackedFiles<'a> {
        PackedFiles { files }
    }

    /// The bytes of the first file that has a path.
    fn find(&self, path: &str) -> Option<&'a [u8]> {
        let mut rest = self.files;
        for _ in 0..self.files.len() {
            let file = first_file(rest)?;
            if file.path == path.as_bytes() {
                return Some(file.bytes);
            }
            rest = file.others;
        }
        None
    }
}

impl<'a> Disk for PackedFiles<'a> {
    type Opened = In<&'a [u8]>;

    type Standard = In<&'a [u8]>;

    fn open(&mut self, path: &str) -> Result<In<&'a [u8]>, NotOpened> {
        match self.find(path) {
            Some(bytes) => Ok(In::new(bytes)),
            None => Err(NotOpened::Failed),
        }
    }

    fn has(&mut self, path: &str) -> bool {
        self.find(path).is_some()
    }

    fn standard_input(&mut self) -> In<&'a [u8]> {
        In::new(&[] as &[u8])
    }
}
