//! The line of a record: one JSON object and a line feed.

ghost use Rattle.std.specs.Prelude.{◌≡◌, ◌++◌, ◌∷◌, [], OnOk};
ghost use Rattle.json.specs.Print.{print};
ghost use Rattle.olr_batch.specs.Line.{bytes_of, line_text, text_token, tokens_behind};

use json::Writer;
use olr_base::NoMemory;
use std::alloc::Global;
use std::mem;

/// What the line of a record shows.
#[derive(Clone, Copy, Debug)]
pub(crate) struct Line<'a> {
    /// The answer, as a JSON text.
    pub answer: &'a [u8],
    /// The fault that there is in place of an answer.
    pub fault: Option<&'a str>,
    /// The key.
    pub key: Option<&'a str>,
    /// The number, from 1.
    pub record: u64,
}

/// Writes a text, or null where there is none.
fn put_text(writer: &mut Writer, text: Option<&str>) -> Result<(), NoMemory>
    ensures before { writer.new.before ≡ writer.old.before }
    ensures tokens { OnOk result (writer.new.tokens
        ≡ writer.old.tokens ++ text_token (bytes_of text.entry) ∷ []) }
{
    match text {
        Some(text) => writer.string(text)?,
        None => writer.null()?,
    }
    Ok(())
}

/// Writes the members behind the answer, and the end of the object.
fn put_members(writer: &mut Writer, line: &Line<'_>) -> Result<(), NoMemory>
    ensures before { writer.new.before ≡ writer.old.before }
    ensures tokens { OnOk result (writer.new.tokens ≡ writer.old.tokens ++ tokens_behind
        (bytes_of line.now.fault) (bytes_of line.now.key)
        line.now.record) }
{
    writer.key("fault")?;
    put_text(writer, line.fault)?;
    writer.key("key")?;
    put_text(writer, line.key)?;
    writer.key("record")?;
    writer.u64(line.record)?;
    writer.end_object()?;
    Ok(())
}

/// Adds the members behind the answer, and the end of the object.
fn push_members(alloc: Global, text: &mut Vec<u8>, line: &Line<'_>) -> Result<(), NoMemory>
    ensures { OnOk result (text.new.items ≡ text.old.items ++ print (tokens_behind
        (bytes_of line.now.fault) (bytes_of line.now.key)
        line.now.record)) }
{
    let mut writer = Writer::new(mem::replace(text, Vec::new(alloc)));
    let done = put_members(&mut writer, line);
    *text = writer.into_inner();
    done
}

/// Makes the line of a record, in place of what the text holds. A text with room for the line asks
/// for no memory.
#[tactic(auto, using(crate::proofs::Tokens::line_is))]
pub(crate) fn write_line(alloc: Global, text: &mut Vec<u8>, line: &Line<'_>) -> Result<(), NoMemory>
    ensures { OnOk result (text.new.items ≡ line_text line.now.answer.now
        (bytes_of line.now.fault) (bytes_of line.now.key) line.now.record) }
{
    text.clear();
    text.extend_from_slice(b"{\"answer\":")?;
    text.extend_from_slice(line.answer)?;
    text.push(b',')?;
    push_members(alloc, text, line)?;
    text.push(b'\n')?;
    Ok(())
}
