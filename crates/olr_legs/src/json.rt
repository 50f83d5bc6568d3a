//! The JSON of the legs of a matching.

ghost use Rattle.std.specs.Prelude.{◌≡◌, IfOk, option_map, string_bytes};
ghost use Rattle.olr_keys.specs.Cursor.{key_text};
ghost use Rattle.olr_text.specs.JsonValues.{IsJsonLine};
ghost use Rattle.olr_legs.specs.Json.{is_cut, leg_object, legs_object, other_value, path_object};
ghost use Rattle.olr_legs.specs.Json.{shorter_object};

use crate::legs::LegAlternatives;
use crate::other::{Other, OtherPath};
use crate::shorter::Shorter;
use arrayvec::ArrayString;
use olr_base::NoMemory;
use olr_keys::{Cursor, Key};
use olr_report::ShownMap;
use olr_road::Map;
use olr_text::{ToJson, send_object, to_json_line};
use serde::Serializer;
use std::alloc::Global;

/// The object of a class under which a leg would be shorter.
impl<On> ToJson<On> for Shorter {
    ghost value = { λ _. shorter_object };

    fn send<S: Serializer>(&self, on: &On, out: &mut S) -> Result<(), S::Error> {
        send_object!(on, out, { "by": self.by, "class": self.class })
    }
}

/// The object of another path.
impl ToJson<ShownMap<'_>> for OtherPath {
    ghost value = { λ on. path_object on.map.now };

    fn send<S: Serializer>(&self, on: &ShownMap<'_>, out: &mut S) -> Result<(), S::Error> {
        send_object!(on, out, { "longer": self.longer, "pieces": self.pieces })
    }
}

/// The other path of a leg, null where there is none.
impl ToJson<ShownMap<'_>> for Other {
    ghost value = { λ on. other_value on.map.now };

    fn send<S: Serializer>(&self, on: &ShownMap<'_>, out: &mut S) -> Result<(), S::Error> {
        match self {
            Other::Path(path) => path.send(on, out),
            Other::Cut | Other::Nothing => out.unit(),
        }
    }
}

/// Whether the search for the other path of a leg was cut.
pub(crate) fn is_cut(other: &Other) -> bool
    ensures { result ≡ is_cut other.now }
{
    matches!(other, Other::Cut)
}

/// The object of a leg.
impl ToJson<ShownMap<'_>> for LegAlternatives {
    ghost value = { λ on. leg_object on.map.now };

    fn send<S: Serializer>(&self, on: &ShownMap<'_>, out: &mut S) -> Result<(), S::Error> {
        send_object!(on, out, {
            "cut": is_cut(&self.other),
            "greatest": self.greatest,
            "least": self.least,
            "length": self.length,
            "limit": self.limit,
            "other": self.other,
            "pieces": self.pieces,
            "shorter": self.shorter,
        })
    }
}

/// The legs of a matching as they are written. Where a reference has no matching there is no key,
/// and there are no legs.
#[derive(Clone, Copy)]
pub struct ShownLegs<'a> {
    /// The key of the matching.
    pub matching: Option<&'a Key>,
    /// Its legs, in order.
    pub legs: &'a [LegAlternatives],
}

/// The cursor of a matching.
pub(crate) fn cursor_of(matching: Option<&Key>) -> Option<ArrayString<166>>
    ensures { option_map (λ cursor. cursor.bytes) result
        ≡ option_map (λ key. key_text key.now) matching.entry }
{
    let Some(key) = matching else {
        return None;
    };
    Some(Cursor::write(key, None))
}

/// The object of the legs of a matching.
impl ToJson<ShownMap<'_>> for ShownLegs<'_> {
    ghost value = { λ on shown.
        legs_object on.map.now (option_map (λ key. key.now) shown.matching) shown.legs.now };

    fn send<S: Serializer>(&self, on: &ShownMap<'_>, out: &mut S) -> Result<(), S::Error> {
        send_object!(on, out, { "legs": self.legs, "matching": cursor_of(self.matching) })
    }
}

/// The JSON of the legs of a matching: one compact object and a line feed, with the members of each
/// object in the order of their names. It has the `legs` and the cursor of the `matching`, null
/// where there is none. A leg has its `pieces`, its `length`, the `least` and the `greatest` length
/// in the distance interval of its path and its class `limit`; `other`, another path with its
/// `pieces` and by how much it is `longer`, null where there is none; `cut`, whether the search for
/// it was cut; and `shorter`, the least `class` above the limit under which the leg would be
/// markedly shorter, and `by` how much, else null.
///
/// # Errors
///
/// [`NoMemory`] where the allocator refused memory.
#[tactic(auto, using(olr_text::proofs::Nesting::items_nest, olr_text::proofs::Nesting::option_nests))]
pub fn legs_json(alloc: Global, map: &Map, shown: &ShownLegs<'_>) -> Result<String, NoMemory>
    ensures { IfOk result (λ text. IsJsonLine
        (legs_object map.now (option_map (λ key. key.now) shown.now.matching) shown.now.legs.now)
        (string_bytes text)) }
{
    let on = ShownMap {
        alloc,
        map,
        shapes_of: None,
    };
    let text = to_json_line(alloc, &on, shown)?;
    Ok(text)
}
