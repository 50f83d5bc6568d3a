//! Cursors: the text that names a matching, so that the next page can begin after it.

ghost use Rattle.std.specs.Prelude.{◌≡◌, ◌≢◌, ◌≤◌, ◌↔◌, length, option_map, MatchOption, IfSome};
ghost use Rattle.std.specs.Prelude.{IsOk, None};
ghost use Rattle.olr_keys.specs.Cursor.{IsCursorOf, IsReading, key_text};
ghost use Rattle.olr_keys.specs.Key.{KeyValue, IsInRange};

use crate::decimal::number_of;
use crate::key::Key;
use crate::limits::MAX_TOTAL;
use crate::mark::{Mark, mark_of, push_mark};
use crate::ranks::{push_ranks, ranks_of};
use arrayvec::ArrayString;
use itoa::Buffer;
use thiserror::Error;

/// What a cursor names: the key of a matching, and the mark of the inputs that the matching is of,
/// where the cursor has one.
#[derive(Clone, Debug, Drop, PartialEq, Eq)]
pub struct CursorRead {
    /// The key of the matching.
    pub key: Key,
    /// The mark of the inputs.
    pub mark: Option<Mark>,
}

/// A text isn't a cursor.
#[derive(Clone, Copy, Debug, PartialEq, Eq, Error)]
#[error("the text isn't a cursor")]
pub struct BadCursor;

/// A cursor is of other inputs: another map, another reference or other tolerances.
#[derive(Clone, Copy, Debug, PartialEq, Eq, Error)]
#[error("the cursor is of other inputs")]
pub struct CursorOfOther;

/// The text of a cursor: `TOTAL:RANK.RANK` and so on, and perhaps `@` and the 64 hexadecimal digits
/// of a mark.
pub struct Cursor;

impl Cursor {
    /// What a text names as a cursor.
    ///
    /// # Errors
    ///
    /// [`BadCursor`] where the text isn't a cursor: it isn't the text of a key in range and perhaps
    /// a mark.
    pub fn parse(text: &str) -> Result<CursorRead, BadCursor>
        ensures { IsReading text.now result }
    {
        let Some((key, digits)) = text.split_once('@') else {
            let Some(key) = key_of(text) else {
                return Err(BadCursor);
            };
            return Ok(CursorRead { key, mark: None });
        };
        let Some(key) = key_of(key) else {
            return Err(BadCursor);
        };
        let Some(mark) = mark_of(digits) else {
            return Err(BadCursor);
        };
        Ok(CursorRead {
            key,
            mark: Some(mark),
        })
    }

    /// The text of a cursor: 101 bytes at most without a mark, 166 with one.
    pub fn write(key: &Key, mark: Option<&Mark>) -> ArrayString<166>
        ensures cursor { IsCursorOf key.now
            (option_map (λ mark. mark.now) mark.entry) result.bytes }
        ensures at_most { mark.entry ≡ None → length result.bytes ≤ 101 }
    {
        let mut text = ArrayString::new();
        push_key(&mut text, key);
        if let Some(mark) = mark {
            text.push('@');
            push_mark(&mut text, mark);
        }
        text
    }
}

/// The key that a text names; `None` where it names none.
fn key_of(text: &str) -> Option<Key>
    ensures { MatchOption result
        ((key : KeyValue) → IsInRange key → text.now ≢ key_text key)
        (λ key. IsInRange key × (text.now ≡ key_text key)) }
{
    let (total, ranks) = text.split_once(':')?;
    let total = number_of(total, MAX_TOTAL)?;
    let ranks = ranks_of(ranks)?;
    if ranks.len() < 2 {
        return None;
    }
    Some(Key { total, ranks })
}

/// Adds a key to an empty text, in 101 bytes at most.
fn push_key(text: &mut ArrayString<166>, key: &Key)
    requires { length text.old.bytes ≡ 0 }
    ensures text { text.new.bytes ≡ key_text key.now }
    ensures at_most { length text.new.bytes ≤ 101 }
    ensures in_range { IsInRange key.now }
{
    let mut buffer = Buffer::new();
    text.push_str(buffer.format(key.total));
    text.push(':');
    push_ranks(text, &key.ranks);
}

/// Whether a cursor can be of the inputs that have this mark: a cursor without a mark may be of any
/// inputs.
///
/// # Errors
///
/// [`CursorOfOther`] where the cursor has another mark.
pub fn same_inputs(read: &CursorRead, mark: &Mark) -> Result<(), CursorOfOther>
    ensures { IsOk result ↔ IfSome read.now.mark (λ its. its ≡ mark.now) }
{
    let Some(its) = read.mark else {
        return Ok(());
    };
    if its != *mark {
        return Err(CursorOfOther);
    }
    Ok(())
}
