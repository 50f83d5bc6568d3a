//! From files to a map that is kept, and from records to the lines that answer them on it.

ghost use Rattle.std.specs.Prelude.{◌≡◌, ◌≢◌, ◌≤◌, IsNone, IsSome, None, length};

use crate::kept::KeptMap;
use crate::packed::PackedFiles;
use olr_app::{ConfidenceFile, Fault, In, Out};
use olr_batch::answer_records;
use olr_command_line::{Files, Records, Rejected, read_map_of};
use olr_map::{MapFault, read_map};
use olr_road::Map;
use std::alloc::Global;
use std::io::{Cursor, Write};

/// A file of nodes that has none.
const NO_NODES: &[u8] = b"id,lon,lat\n";

/// A file of lines that has none.
const NO_LINES: &[u8] = b"id,from,to,class,form,length,shape\n";

/// The folder of the map, as words name it.
const FOLDER: &str = "map";

/// How a call ended.
#[repr(C)]
#[derive(Drop)]
pub struct Answer {
    /// The status that the program ends with in the same case.
    pub status: u8,
    /// How many bytes stand in the room for the output.
    pub output: u64,
    /// How many bytes stand in the room for errors.
    pub errors: u64,
}

/// Reads the map of packed files onto the heap.
fn map_of(alloc: Global, files: &[u8]) -> Result<Box<Map>, Fault> {
    let mut disk = PackedFiles::new(files);
    let map = read_map_of(alloc, &Files::Folder(FOLDER), &mut disk)?;
    let Ok(boxed) = Box::new(alloc, map) else {
        return Err(Fault::NoMemory);
    };
    Ok(boxed)
}

/// A map without nodes and lines.
///
/// # Errors
///
/// Where the allocator refused memory.
fn empty_map(alloc: Global) -> Result<Map, MapFault> {
    read_map(alloc, &mut In::new(NO_NODES), &mut In::new(NO_LINES))
}

/// The file of a confidence of these bytes, or none where there are no bytes.
///
/// # Errors
///
/// Where the allocator refused memory.
fn confidence_of(alloc: Global, bytes: &[u8]) -> Result<Option<ConfidenceFile>, Fault> {
    if bytes.is_empty() {
        return Ok(None);
    }
    let file = ConfidenceFile::read(alloc, bytes)?;
    Ok(Some(file))
}

/// Answers records on a map, or where there is none on an empty one, with the file of a confidence of
/// these bytes if there are some, and writes their lines into a room.
///
/// # Errors
///
/// That the allocator refused memory, and those of [`answer_records`].
fn answer_in(
    alloc: Global,
    map: Option<&Map>,
    records: &[u8],
    confidence: &[u8],
    out: &mut Out<Cursor<&mut [u8]>>,
) -> Result<(), Fault> {
    let file = confidence_of(alloc, confidence)?;
    let mut input = In::new(records);
    let Some(map) = map else {
        let map = empty_map(alloc)?;
        return answer_records(alloc, &map, &Records::Requests(file), &mut input, out);
    };
    answer_records(alloc, map, &Records::Requests(file), &mut input, out)
}

/// How many bytes stand in a room of which so many were written, in order.
fn bytes_in(room: &[u8], written: u64) -> u64
    ensures { result ≤ length room.now }
{
    written.min(room.len() as u64)
}

/// Writes the text of a rejection into the room of errors: how many bytes stand there.
fn write_errors(rejected: &Rejected, errors: &mut [u8]) -> u64
    ensures { result ≤ length errors.new }
{
    let mut room = Cursor::new(&mut *errors);
    let _ = write!(room, "{rejected}");
    let written = room.position();
    bytes_in(errors, written)
}

/// Reads the map of files, and keeps it in place of the one that is kept, if there is one. `files`
/// is packed as [`packed`](mod@crate::packed) says: `map/nodes.csv`, `map/lines.csv`, and
/// `map/bans.csv` if the map has bans. Where the map is refused none is kept, and the status and
/// the text of the rejection are those of a question on these files. A room that is full has not all
/// of the text.
#[unsafe(no_mangle)]
pub extern "C" fn olr_page_open(
    alloc: Global,
    files: &[u8],
    kept: &mut KeptMap,
    errors: &mut [u8],
    given: &mut Answer,
)
    ensures map { given.new.status ≡ 0 → IsSome kept.new.pointer.map }
    ensures no_map { given.new.status ≢ 0 → IsNone kept.new.pointer.map }
    ensures output { given.new.output ≡ 0 }
    ensures errors { given.new.errors ≤ length errors.new }
{
    let _ = kept.take(alloc);
    given.status = 0;
    given.output = 0;
    given.errors = 0;
    match map_of(alloc, files) {
        Ok(map) => kept.put(map),
        Err(fault) => {
            let rejected = Rejected::from(fault);
            given.status = rejected.status();
            given.errors = write_errors(&rejected, errors);
        }
    }
}

/// Answers records, as `olr answer` does on the map that is kept; where none is, on an empty one, which
/// is enough for what a reference says. `confidence` has the bytes of the file that `--confidence` would
/// name, or none. The room is full where their lines didn't fit: ask again with more room then. The map
/// stays the same.
#[unsafe(no_mangle)]
pub extern "C" fn olr_page_ask(
    alloc: Global,
    records: &[u8],
    confidence: &[u8],
    kept: &mut KeptMap,
    output: &mut [u8],
    given: &mut Answer,
)
    ensures map { kept.new.pointer.map ≡ kept.old.pointer.map }
    ensures output { given.new.output ≤ length output.new }
    ensures errors { given.new.errors ≡ 0 }
{
    let map = kept.take(alloc);
    let mut out = Out::new(Cursor::new(&mut *output));
    let ended = answer_in(alloc, map.as_deref(), records, confidence, &mut out);
    given.status = match ended {
        Ok(()) => 0,
        Err(fault) => Rejected::from(fault).status(),
    };
    given.errors = 0;
    let written = out.into_writer().position();
    given.output = bytes_in(output, written);
    if let Some(map) = map {
        kept.put(map);
    }
}

/// Gives the memory of the map that is kept back, if there is one.
#[unsafe(no_mangle)]
pub extern "C" fn olr_page_close(alloc: Global, kept: &mut KeptMap)
    ensures { kept.new.pointer.map ≡ None }
{
    let _ = kept.take(alloc);
}
