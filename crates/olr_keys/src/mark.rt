//! The mark of the inputs of a request, and its text: 64 hexadecimal digits.

ghost use Rattle.std.specs.Prelude.{◌≡◌, ◌≢◌, ◌+◌, ◌*◌, ◌<◌, ◌≤◌, ◌++◌, length, All, MatchOption};
ghost use Rattle.hex.specs.Hex.{encode_lower};
ghost use Rattle.olr_keys.specs.Cursor.{IsMark, hexadecimal};
ghost use Rattle.olr_keys.specs.declared.mark.Mark.{Mark};

use arrayvec::ArrayString;
use hex::FromHex;

/// The mark of the inputs of a request: the map, the reference and the tolerances. It is 32 bytes
/// long.
#[derive(Clone, Copy, Debug, PartialEq, Eq)]
pub struct Mark(pub [u8; 32]);

/// Writes the hexadecimal digits of bytes, two for each. Letters are in lower case.
fn write_digits(bytes: &[u8], digits: &mut [u8])
    requires { length digits.old ≡ 2 * length bytes.now }
    ensures digits { digits.new ≡ encode_lower bytes.now }
    ensures each { All (λ byte. byte < 256) bytes.now }
{
    hex::encode_to_slice(bytes, digits).unwrap();
}

/// The hexadecimal digits of a mark.
#[tactic(auto, using(crate::proofs::Hexadecimal::digits_are))]
fn digits_of(mark: &Mark) -> ArrayString<64>
    ensures digits { result.bytes ≡ hexadecimal mark.now.0 }
    ensures is_mark { IsMark mark.now }
{
    let mut digits = [0; 64];
    write_digits(&mark.0, &mut digits);
    ArrayString::from_byte_string(&digits).unwrap()
}

/// The mark that a text writes in 64 hexadecimal digits; `None` where it writes none.
#[tactic(auto, using(crate::proofs::Hexadecimal::mark_read, crate::proofs::Outcomes::differ, crate::proofs::Outcomes::same_ok))]
pub(crate) fn mark_of(text: &str) -> Option<Mark>
    ensures { MatchOption result
        ((mark : Mark) → IsMark mark → text.now ≢ hexadecimal mark.0)
        (λ mark. IsMark mark × (text.now ≡ hexadecimal mark.0)) }
{
    let Ok(bytes) = <[u8; 32] as FromHex>::from_hex(text) else {
        return None;
    };
    let mark = Mark(bytes);
    // A text with letters in upper case isn't that of a mark.
    if digits_of(&mark).as_str() != text {
        return None;
    }
    Some(mark)
}

/// Adds the 64 hexadecimal digits of a mark to a text.
pub(crate) fn push_mark(text: &mut ArrayString<166>, mark: &Mark)
    requires { length text.old.bytes + 64 ≤ 166 }
    ensures text { text.new.bytes ≡ text.old.bytes ++ hexadecimal mark.now.0 }
    ensures is_mark { IsMark mark.now }
{
    text.push_str(&digits_of(mark));
}
