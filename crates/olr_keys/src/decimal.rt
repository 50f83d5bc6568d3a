//! Numbers in decimal, without leading zeros.

ghost use Rattle.std.specs.Prelude.{◌≡◌, ◌≢◌, ℕ, ◌≤◌, MatchOption, decimal};

use itoa::Buffer;

/// The number that a text writes in decimal without leading zeros, where it is at most `most`;
/// `None` where there is none.
pub(crate) fn number_of(text: &str, most: u16) -> Option<u16>
    ensures { MatchOption result
        ((n : ℕ) → n ≤ most → text.now ≢ decimal n)
        (λ n. (n ≤ most) × (text.now ≡ decimal n)) }
{
    let Ok(number) = text.parse::<u16>() else {
        return None;
    };
    if number > most {
        return None;
    }
    // Only the one text of the number is read: it has no plus sign and no leading zeros.
    let mut buffer = Buffer::new();
    if buffer.format(number) != text {
        return None;
    }
    Some(number)
}
