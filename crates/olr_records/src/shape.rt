//! The shape of a line: the places between its ends, as a field spells them.

ghost use Rattle.std.specs.Prelude.{◌≡◌, ℕ, List, [], Option, IfOk, MatchBool, MatchOption, map, option_map};
ghost use Rattle.olr_base.specs.Coordinates.{Coordinates, coordinates_of};
ghost use Rattle.olr_records.specs.Front.{Begins};
ghost use Rattle.olr_records.specs.Shape.{IsItem, AreFewItems, IsShape};

use crate::front::{latitude_before, longitude_before};
use olr_base::{Degrees, NoMemory};

/// The most items of a shape.
const ITEMS: u32 = 64;

/// The place that an item in front of a text spells, and the text behind the `;` that follows it,
/// if there is one.
fn item_before(text: &[u8]) -> Option<(Degrees, Option<&[u8]>)>
    ensures { MatchOption result
        ((place : Coordinates) (rest : Option (List ℕ))
        → ¬ (Begins (λ front. IsItem front place) 59 text.now rest))
        (λ found. Begins (λ front. IsItem front (coordinates_of found.0)) 59 text.now
        (option_map (λ rest. rest.now) found.1)) }
{
    let Some((lon, behind)) = longitude_before(text, b' ') else {
        return None;
    };
    let Some(behind) = behind else {
        return None;
    };
    let Some((lat, rest)) = latitude_before(behind, b';') else {
        return None;
    };
    Some((Degrees { lon, lat }, rest))
}

/// Appends the places that 1 to 64 items spell, and answers whether the text is 1 to 64 items.
fn read_items(text: &[u8], shape: &mut Vec<Degrees>) -> Result<bool, NoMemory>
    requires empty { shape.old.items ≡ [] }
    ensures { IfOk result (λ are_items. MatchBool are_items
        (AreFewItems text.now (map coordinates_of shape.new.items))
        ((places : List Coordinates) → ¬ (AreFewItems text.now places))) }
{
    let mut rest = text;
    for _ in 0..ITEMS {
        let Some((place, others)) = item_before(rest) else {
            return Ok(false);
        };
        shape.push(place)?;
        let Some(others) = others else {
            return Ok(true);
        };
        rest = others;
    }
    Ok(false)
}

/// Reads the places that a field spells into `shape`, in place of those that it has, and answers
/// whether the field is a shape: nothing at all, or 1 to 64 items with `;` between them, each a
/// longitude, one space and a latitude in microdegrees.
///
/// # Errors
///
/// [`NoMemory`] where there is no memory for the places. No clause states when this comes.
pub fn read_shape(text: &[u8], shape: &mut Vec<Degrees>) -> Result<bool, NoMemory>
    ensures { IfOk result (λ is_shape. MatchBool is_shape
        (IsShape text.now (map coordinates_of shape.new.items))
        ((places : List Coordinates) → ¬ (IsShape text.now places))) }
{
    shape.clear();
    if text.is_empty() {
        return Ok(true);
    }
    read_items(text, shape)
}
