//! The numbers that whole fields spell.

ghost use Rattle.std.specs.Prelude.{ℕ, ℤ, MatchOption};
ghost use Rattle.olr_records.specs.Fields.{IsNumberWithin};
ghost use Rattle.olr_records.specs.Fields.{IsId, IsKind, IsLength};
ghost use Rattle.olr_records.specs.Fields.{SpellsLongitude, SpellsLatitude};

use crate::front::{latitude_before, longitude_before, number_before};

/// The number that a field spells, where it is from `least` to `greatest`.
fn number_within(text: &[u8], least: u64, greatest: u64) -> Option<u64>
    ensures { MatchOption result
        ((n : ℕ) → ¬ (IsNumberWithin least greatest text.now n))
        (IsNumberWithin least greatest text.now) }
{
    let Some((value, rest)) = number_before(text, b',') else {
        return None;
    };
    if let Some(_) = rest {
        return None;
    }
    if value < least {
        return None;
    }
    if value > greatest {
        return None;
    }
    Some(value)
}

/// The id of a node or of a line that a field spells, from 1 to 2^53; `None` where it spells none.
pub fn id_of(text: &[u8]) -> Option<u64>
    ensures { MatchOption result ((id : ℕ) → ¬ (IsId text.now id)) (IsId text.now) }
{
    number_within(text, 1, 9_007_199_254_740_992)
}

/// The class or form of way that a field spells, from 0 to 7; `None` where it spells none.
pub fn kind_of(text: &[u8]) -> Option<u8>
    ensures { MatchOption result ((kind : ℕ) → ¬ (IsKind text.now kind)) (IsKind text.now) }
{
    let value = number_within(text, 0, 7)?;
    Some(value as u8)
}

/// The length in decimetres that a field spells, from 0 to 10,000,000; `None` where it spells none.
pub fn length_of(text: &[u8]) -> Option<u32>
    ensures { MatchOption result
        ((size : ℕ) → ¬ (IsLength text.now size))
        (IsLength text.now) }
{
    let value = number_within(text, 0, 10_000_000)?;
    Some(value as u32)
}

/// The longitude in microdegrees that a field spells, from -180,000,000 to 180,000,000; `None`
/// where it spells none.
pub fn longitude_of(text: &[u8]) -> Option<i32>
    ensures { MatchOption result
        ((lon : ℤ) → ¬ (SpellsLongitude text.now lon))
        (SpellsLongitude text.now) }
{
    let Some((lon, rest)) = longitude_before(text, b',') else {
        return None;
    };
    if let Some(_) = rest {
        return None;
    }
    Some(lon)
}

/// The latitude in microdegrees that a field spells, from -80,000,000 to 80,000,000; `None`
/// where it spells none.
pub fn latitude_of(text: &[u8]) -> Option<i32>
    ensures { MatchOption result
        ((lat : ℤ) → ¬ (SpellsLatitude text.now lat))
        (SpellsLatitude text.now) }
{
    let Some((lat, rest)) = latitude_before(text, b',') else {
        return None;
    };
    if let Some(_) = rest {
        return None;
    }
    Some(lat)
}
