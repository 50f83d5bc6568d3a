//! What the texts of a request itself are, before any file is read.

ghost use Rattle.std.specs.Prelude.{◌≡◌, IfOk, Result};
ghost use Rattle.olr_binary.specs.Reference.{IsReference};
ghost use Rattle.olr_app.specs.Accepting.{Accepts, AcceptsTexts, IsStart};
ghost use Rattle.olr_request.specs.Request.{bytes_of};
ghost use Rattle.olr_request.specs.declared.fault.Fault.{Fault as AnyFault};

use olr_binary::{Reference, decode, one_outcome};
use olr_keys::one_cursor;
use olr_matching::{Cursor, CursorRead};
use olr_request::{Fault, Request};

/// What a request that is accepted speaks of.
#[derive(Drop)]
pub struct Accepted {
    /// The reference of its text.
    pub reference: Reference,
    /// What its cursor names, if it has one: its pages begin after this matching.
    pub start: Option<CursorRead>,
}

/// What the text of a cursor names, if there is one.
///
/// # Errors
///
/// [`Fault::BadCursor`] where the text isn't that of a cursor.
fn start_of(cursor: Option<&str>) -> Result<Option<CursorRead>, Fault>
    ensures { IsStart (bytes_of cursor.entry) result }
{
    let Some(text) = cursor else {
        return Ok(None);
    };
    let Ok(read) = Cursor::parse(text) else {
        return Err(Fault::BadCursor);
    };
    Ok(Some(read))
}

/// Accepts the text of a reference, and that of a cursor if there is one, or refuses one of them.
///
/// # Errors
///
/// The refusal of the reference, or else [`Fault::BadCursor`] where the text of the cursor isn't
/// that of one.
pub(crate) fn accept_texts(text: &str, cursor: Option<&str>) -> Result<Accepted, Fault>
    ensures accepted { AcceptsTexts text.now (bytes_of cursor.entry) result }
    ensures reference { IfOk result (λ accepted. IsReference accepted.reference) }
    // No other result is.
    ensures only { (other : Result Accepted AnyFault)
        → AcceptsTexts text.now (bytes_of cursor.entry) other → other ≡ result }
{
    one_outcome();
    one_cursor();
    let reference = decode(text)?;
    let start = start_of(cursor)?;
    Ok(Accepted { reference, start })
}

/// Accepts a request, or refuses it for its own texts.
///
/// # Errors
///
/// Those of [`accept_texts`].
pub(crate) fn accept(request: &Request<'_>) -> Result<Accepted, Fault>
    ensures accepted { Accepts request.now result }
    ensures reference { IfOk result (λ accepted. IsReference accepted.reference) }
    // No other result is.
    ensures only { (other : Result Accepted AnyFault) → Accepts request.now other → other ≡ result }
{
    accept_texts(request.text(), request.cursor())
}
