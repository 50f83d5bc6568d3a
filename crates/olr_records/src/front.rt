//! The number that a text spells before a byte, or to its end where there is none.

ghost use Rattle.std.specs.Prelude.{◌≡◌, ◌≤◌, ◌<◌, ◌^◌, ℕ, ℤ, List, Option, length, take};
ghost use Rattle.std.specs.Prelude.{slice_index, option_map, IfSome, MatchOption};
ghost use Rattle.std.specs.Char.{IsNotAsciiDigit};
ghost use Rattle.std.specs.Str.Parse.{AllDigits, digits_value};
ghost use Rattle.olr_records.specs.inner.Amount.{IsAmount};
ghost use Rattle.olr_records.specs.Fields.{IsNumber, IsSignedNumber};
ghost use Rattle.olr_records.specs.Fields.{SpellsLongitude, SpellsLatitude};
ghost use Rattle.olr_records.specs.Front.{IsSeparator, behind, Begins};

/// The most digits of a number.
const DIGITS: usize = 16;

/// The digits with which a text begins, one more than a number has at most.
#[derive(Clone, Copy)]
struct Digits {
    count: usize,
    value: u64,
}

/// How many bytes are looked at first, by a loop without a test for the end of the text: mostly a
/// number ends among them.
const FIRST: usize = 10;

/// The digits with which a text begins, looked for before the place `end`. Some are known.
#[inline(always)]
fn more_digits(text: &[u8], known: Digits, end: usize) -> Digits
    requires end { end ≤ length text.now }
    requires at_most { end ≤ 17 }
    requires count { known.count ≤ end }
    requires digits { AllDigits 10 (take known.count text.now) }
    requires value { known.value ≡ digits_value 10 (take known.count text.now) }
    ensures within { result.count ≤ end }
    ensures digits { AllDigits 10 (take result.count text.now) }
    ensures value { result.value ≡ digits_value 10 (take result.count text.now) }
    ensures all { result.count < end → IsNotAsciiDigit (slice_index text.now result.count) }
{
    let mut value = known.value;
    for place in known.count..end {
        let byte = text[place];
        if !byte.is_ascii_digit() {
            return Digits {
                count: place,
                value,
            };
        }
        value = 10 * value + u64::from(byte - b'0');
    }
    Digits { count: end, value }
}

/// The digits with which a text begins.
fn digits_of(text: &[u8]) -> Digits
    ensures within { result.count ≤ length text.now }
    ensures at_most { result.count ≤ 17 }
    ensures digits { AllDigits 10 (take result.count text.now) }
    ensures value { result.value ≡ digits_value 10 (take result.count text.now) }
    ensures all { result.count < 17 → result.count < length text.now
        → IsNotAsciiDigit (slice_index text.now result.count) }
{
    let mut known = Digits { count: 0, value: 0 };
    if text.len() >= FIRST {
        known = more_digits(text, known, FIRST);
        if known.count < FIRST {
            return known;
        }
    }
    more_digits(text, known, text.len().min(DIGITS + 1))
}

/// What follows where a text begins with this byte or is empty: the text behind the byte, or `None`
/// where the text is empty.
fn past(text: &[u8], byte: u8) -> Option<Option<&[u8]>>
    ensures { MatchOption result
        ((rest : Option (List ℕ)) → ¬ (text.now ≡ behind byte rest))
        (λ rest. text.now ≡ behind byte (option_map (λ rest. rest.now) rest)) }
{
    let Some((first, rest)) = text.split_first() else {
        return Some(None);
    };
    if *first != byte {
        return None;
    }
    Some(Some(rest))
}

/// The number that a text spells before this byte, or to its end: 1 to 16 decimal digits, of which
/// the first may be zeros. With it the text behind the byte, if it is there.
#[inline(always)]
pub(crate) fn number_before(text: &[u8], byte: u8) -> Option<(u64, Option<&[u8]>)>
    requires { IsSeparator byte }
    ensures spelled { MatchOption result
        ((n : ℕ) (rest : Option (List ℕ))
        → ¬ (Begins (λ front. IsNumber front n) byte text.now rest))
        (λ found. Begins (λ front. IsNumber front found.0) byte text.now
        (option_map (λ rest. rest.now) found.1)) }
    ensures small { IfSome result (λ found. found.0 < 10 ^ 16) }
{
    let digits = digits_of(text);
    if digits.count == 0 {
        return None;
    }
    if digits.count > DIGITS {
        return None;
    }
    let Some(rest) = past(&text[digits.count..], byte) else {
        return None;
    };
    Some((digits.value, rest))
}

/// The signed number that a text spells before this byte, or to its end: a number, or `-` and a
/// number. With it the text behind the byte, if it is there.
#[inline(always)]
fn signed_before(text: &[u8], byte: u8) -> Option<(i64, Option<&[u8]>)>
    requires { IsSeparator byte }
    ensures { MatchOption result
        ((z : ℤ) (rest : Option (List ℕ))
        → ¬ (Begins (λ front. IsSignedNumber front z) byte text.now rest))
        (λ found. Begins (λ front. IsSignedNumber front found.0) byte text.now
        (option_map (λ rest. rest.now) found.1)) }
{
    let Some((first, digits)) = text.split_first() else {
        return None;
    };
    if *first != b'-' {
        let Some((size, rest)) = number_before(text, byte) else {
            return None;
        };
        return Some((size as i64, rest));
    }
    let Some((size, rest)) = number_before(digits, byte) else {
        return None;
    };
    Some((-(size as i64), rest))
}

/// A number in fewer bits, where it is from `-most` to `most`.
fn narrowed(value: i64, most: u32) -> Option<i32>
    requires { most < 2 ^ 31 }
    ensures { MatchOption result
        (IsAmount most value → ⊥)
        (λ narrow. (narrow ≡ value) × IsAmount most narrow) }
{
    let greatest = i64::from(most);
    if value < -greatest {
        return None;
    }
    if value > greatest {
        return None;
    }
    Some(value as i32)
}

/// The longitude in microdegrees, from -180,000,000 to 180,000,000, that a text spells before this
/// byte, or to its end. With it the text behind the byte, if it is there.
pub(crate) fn longitude_before(text: &[u8], byte: u8) -> Option<(i32, Option<&[u8]>)>
    requires { IsSeparator byte }
    ensures { MatchOption result
        ((lon : ℤ) (rest : Option (List ℕ))
        → ¬ (Begins (λ front. SpellsLongitude front lon) byte text.now rest))
        (λ found. Begins (λ front. SpellsLongitude front found.0) byte text.now
        (option_map (λ rest. rest.now) found.1)) }
{
    let Some((value, rest)) = signed_before(text, byte) else {
        return None;
    };
    let Some(lon) = narrowed(value, 180_000_000) else {
        return None;
    };
    Some((lon, rest))
}

/// The latitude in microdegrees, from -80,000,000 to 80,000,000, that a text spells before this
/// byte, or to its end. With it the text behind the byte, if it is there.
pub(crate) fn latitude_before(text: &[u8], byte: u8) -> Option<(i32, Option<&[u8]>)>
    requires { IsSeparator byte }
    ensures { MatchOption result
        ((lat : ℤ) (rest : Option (List ℕ))
        → ¬ (Begins (λ front. SpellsLatitude front lat) byte text.now rest))
        (λ found. Begins (λ front. SpellsLatitude front found.0) byte text.now
        (option_map (λ rest. rest.now) found.1)) }
{
    let Some((value, rest)) = signed_before(text, byte) else {
        return None;
    };
    let Some(lat) = narrowed(value, 80_000_000) else {
        return None;
    };
    Some((lat, rest))
}
