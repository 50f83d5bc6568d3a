//! What the record of a line says.

ghost use Rattle.std.specs.Prelude.{◌≡◌, option_map};
ghost use Rattle.olr_messages.specs.Content.{IsMessage, IsMessageOfLine, IsSplitAtTab, message_of};
ghost use Rattle.olr_messages.specs.Lines.{record_of};

/// What a record says.
#[derive(Clone, Copy, Debug, PartialEq, Eq)]
pub enum Content<'a> {
    /// Nothing: it has no byte.
    Empty,
    /// It is longer than any record that is read.
    Long,
    /// It isn't UTF-8.
    NotText,
    /// A text, and a key where a TAB stands between them.
    Text {
        /// What stands before the first TAB, perhaps nothing.
        key: Option<&'a str>,
        /// What stands behind the first TAB, or the whole record where it has none.
        text: &'a str,
    },
}

/// The most bytes of a record that is read.
const LONGEST: usize = 65_536;

const CR: u8 = b'\r';

/// What the record of a line says.
pub fn content_of_line(line: &[u8]) -> Content<'_>
    ensures { IsMessageOfLine line.now (message_of result) }
{
    content_of(record_of(line))
}

/// The record of a line: the line without the one CR at its end, if it has one.
fn record_of(line: &[u8]) -> &[u8]
    ensures { result.now ≡ record_of line.now }
{
    let Some((last, front)) = line.split_last() else {
        return line;
    };
    if *last == CR { front } else { line }
}

/// What a record says.
fn content_of(bytes: &[u8]) -> Content<'_>
    ensures { IsMessage bytes.now (message_of result) }
{
    if bytes.is_empty() {
        return Content::Empty;
    }
    if bytes.len() > LONGEST {
        return Content::Long;
    }
    let Ok(text) = str::from_utf8(bytes) else {
        return Content::NotText;
    };
    let (key, text) = split_at_tab(text);
    Content::Text { key, text }
}

/// The key that stands before the first TAB, if there is a TAB, and the text behind it.
fn split_at_tab(whole: &str) -> (Option<&str>, &str)
    ensures { IsSplitAtTab whole.now (option_map (λ part. part.now) result.0) result.1.now }
{
    match whole.split_once('\t') {
        Some((key, text)) => (Some(key), text),
        None => (None, whole),
    }
}
