//! What is written for a record.

ghost use Rattle.std.specs.Prelude.{◌≡◌, None, IfErr, IfOk, OnOk, codes};
ghost use Rattle.olr_request.specs.Fault.{fault_text};
ghost use Rattle.olr_words.specs.Record.{record_fault_text};
ghost use Rattle.olr_messages.specs.Content.{message_of};
ghost use Rattle.olr_batch.specs.Answers.{IsFaultFor};
ghost use Rattle.olr_batch.specs.Line.{bytes_of, line_text};
ghost use Rattle.olr_batch.specs.Records.{IsLineOfText, IsWrittenFor, fault_line, without_line_feed};

use crate::line::{Line, write_line};
use crate::reply::RecordsOnMap;
use arrayvec::ArrayString;
use olr_app::Fault;
use olr_base::NoMemory;
use olr_messages::Content;
use olr_words::RecordFault;
use std::alloc::Global;
use std::fmt::Write;

/// What a record is known by.
#[derive(Clone, Copy)]
struct RecordName<'a> {
    /// Its number, from 1.
    number: u64,
    /// Its key.
    key: Option<&'a str>,
}

/// Makes the line of a record that has a fault of this name in place of an answer.
fn write_fault(
    alloc: Global,
    name: RecordName<'_>,
    fault: &str,
    line: &mut Vec<u8>,
) -> Result<(), NoMemory>
    ensures { OnOk result (line.new.items
        ≡ fault_line fault.now (bytes_of name.entry.key) name.entry.number) }
{
    let shown = Line {
        answer: b"null",
        fault: Some(fault),
        key: name.key,
        record: name.number,
    };
    write_line(alloc, line, &shown)?;
    Ok(())
}

/// An output without its last byte, which is its line feed.
fn without_line_feed(output: &[u8]) -> &[u8]
    ensures { result.now ≡ without_line_feed output.now }
{
    match output.split_last() {
        Some((_, text)) => text,
        None => output,
    }
}

/// Makes the line of a record that has this answer, with the line feed behind it.
fn write_found<'a>(
    alloc: Global,
    name: RecordName<'a>,
    answer: &'a str,
    line: &mut Vec<u8>,
) -> Result<(), NoMemory>
    ensures { OnOk result (line.new.items ≡ line_text (without_line_feed answer.now) None
        (bytes_of name.entry.key) name.entry.number) }
{
    let shown = Line {
        answer: without_line_feed(answer.as_bytes()),
        fault: None,
        key: name.key,
        record: name.number,
    };
    write_line(alloc, line, &shown)?;
    Ok(())
}

/// Makes the line of a record by the answer to its text.
///
/// # Errors
///
/// Those of [`RecordsOnMap::reply`], and [`Fault::NoMemory`] where the allocator refused memory for
/// the line.
fn write_answer(
    alloc: Global,
    on: &mut RecordsOnMap<'_>,
    name: RecordName<'_>,
    text: &str,
    line: &mut Vec<u8>,
) -> Result<(), RecordFault>
    ensures records { on.new.records ≡ on.old.records }
    ensures map { on.new.map.map ≡ on.old.map.map }
    ensures line { OnOk result (IsLineOfText on.old.records.now on.old.map.map.now name.entry.number
        (bytes_of name.entry.key) text.now line.new.items) }
    ensures fault { IfErr result (IsFaultFor on.old.records.now on.old.map.map.now text.now) }
{
    let answer = on.reply(alloc, text)?;
    write_found(alloc, name, &answer, line)?;
    Ok(())
}

/// The text of a fault of a record: it has less than 64 bytes, and takes no memory.
fn text_of(fault: &Fault) -> Result<ArrayString<64>, NoMemory>
    ensures { IfOk result (λ text. text.bytes ≡ fault_text fault.now) }
{
    let mut text = ArrayString::new();
    let Ok(()) = write!(text, "{fault}") else {
        return Err(NoMemory);
    };
    Ok(text)
}

/// Makes the line of a record that has this fault in place of an answer.
fn write_record_fault(
    alloc: Global,
    name: RecordName<'_>,
    fault: &RecordFault,
    line: &mut Vec<u8>,
) -> Result<(), NoMemory>
    ensures { OnOk result (line.new.items
        ≡ fault_line (record_fault_text fault.now) (bytes_of name.entry.key) name.entry.number) }
{
    match fault {
        RecordFault::Words(text) => write_fault(alloc, name, text, line),
        RecordFault::Fault(fault) => {
            let text = text_of(fault)?;
            write_fault(alloc, name, &text, line)
        }
    }
}

/// Makes the line of a record with a text, by the answer or the fault in place of it.
///
/// # Errors
///
/// [`NoMemory`] where the allocator refused memory for the line of a fault.
fn write_text(
    alloc: Global,
    on: &mut RecordsOnMap<'_>,
    name: RecordName<'_>,
    text: &str,
    line: &mut Vec<u8>,
) -> Result<(), NoMemory>
    ensures records { on.new.records ≡ on.old.records }
    ensures map { on.new.map.map ≡ on.old.map.map }
    ensures line { OnOk result (IsLineOfText on.old.records.now on.old.map.map.now name.entry.number
        (bytes_of name.entry.key) text.now line.new.items) }
{
    let Err(fault) = write_answer(alloc, on, name, text, line) else {
        return Ok(());
    };
    write_record_fault(alloc, name, &fault, line)?;
    Ok(())
}

/// Makes what is written for a record, of this number from 1: its line, or nothing where it is
/// empty.
///
/// # Errors
///
/// [`NoMemory`] where the allocator refused memory for the line of a fault, for which there is room
/// in a `line` of [`ROOM`](crate::answering) bytes.
pub(crate) fn write_record(
    alloc: Global,
    on: &mut RecordsOnMap<'_>,
    number: u64,
    content: Content<'_>,
    line: &mut Vec<u8>,
) -> Result<(), NoMemory>
    ensures records { on.new.records ≡ on.old.records }
    ensures map { on.new.map.map ≡ on.old.map.map }
    ensures written { OnOk result (IsWrittenFor on.old.records.now on.old.map.map.now number
        (message_of content.entry) line.new.items) }
{
    let unnamed = RecordName { number, key: None };
    match content {
        Content::Empty => line.clear(),
        Content::Long => write_fault(alloc, unnamed, "LongRecord", line)?,
        Content::NotText => write_fault(alloc, unnamed, "NotText", line)?,
        Content::Text { key, text } => {
            let name = RecordName { number, key };
            write_text(alloc, on, name, text, line)?;
        }
    }
    Ok(())
}
