//! The bytes of a text.

ghost use Rattle.std.specs.Prelude.{◌≡◌, ◌≤◌, ℕ, List, length, IfSome, IfNone, take};
ghost use Rattle.olr_binary.specs.Text.{is_blank, trimmed, without_leading, without_trailing, AreBytes, IsBase64};

use base64::engine::general_purpose::STANDARD;

/// The most bytes of text that are decoded.
pub(crate) const MAX_TEXT: usize = 344;

/// The most bytes that so long a text encodes.
pub(crate) const MAX_BYTES: usize = 258;

/// Whether a character is a space, a tab, a carriage return or a line feed.
fn is_blank(character: u8) -> bool
    ensures { result ≡ is_blank character }
{
    matches!(character, b' ' | b'\t' | b'\r' | b'\n')
}

/// The text from its first character on that is not a blank.
fn without_leading(text: &[u8]) -> &[u8]
    ensures { result.now ≡ without_leading text.now }
{
    let mut rest = text;
    while let [first, others @ ..] = rest {
        if !is_blank(*first) {
            break;
        }
        rest = others;
    }
    rest
}

/// The text up to its last character that is not a blank.
fn without_trailing(text: &[u8]) -> &[u8]
    ensures { result.now ≡ without_trailing text.now }
{
    let mut rest = text;
    while let [others @ .., last] = rest {
        if !is_blank(*last) {
            break;
        }
        rest = others;
    }
    rest
}

/// The text without the spaces, tabs, carriage returns and line feeds at its two ends.
#[tactic(auto, unfolding(crate::specs::Text::trimmed))]
pub fn trim(text: &[u8]) -> &[u8]
    ensures { result.now ≡ trimmed text.now }
{
    without_trailing(without_leading(text))
}

/// The first `count` bytes.
fn prefix(bytes: &[u8], count: usize) -> &[u8]
    requires { count ≤ length bytes.now }
    ensures front { result.now ≡ take count bytes.now }
    ensures each_byte { AreBytes result.now }
{
    &bytes[..count]
}

/// The bytes that a text encodes, in the buffer. `None` where the text is not standard base64.
#[tactic(auto, using(crate::proofs::Base64::base64_from_decoded, crate::proofs::Base64::not_base64))]
pub(crate) fn bytes_of<'a>(text: &[u8], buffer: &'a mut [u8; MAX_BYTES]) -> Option<&'a [u8]>
    requires { length text.now ≤ MAX_TEXT }
    ensures found { IfSome result (λ bytes. IsBase64 text.now bytes.now) }
    ensures none { IfNone result ((bytes : List ℕ) → IsBase64 text.now bytes → ⊥) }
{
    match STANDARD.decode_slice_unchecked(text, buffer) {
        Ok(size) => Some(prefix(buffer, size)),
        Err(_) => None,
    }
}
