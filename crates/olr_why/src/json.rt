//! The JSON of why a reference has no matching.

ghost use Rattle.std.specs.Prelude.{◌≡◌, ◌++◌, ◌+◌, ◌<◌, ◌≤◌, IfOk, OnOk, length, map, option_map, string_bytes};
ghost use Rattle.serde_json.specs.Data.{Data, string};
ghost use Rattle.olr_base.specs.Coordinates.{coordinates_of};
ghost use Rattle.olr_keys.specs.Cursor.{key_text};
ghost use Rattle.olr_text.specs.JsonValues.{IsJsonLine, array_of};
ghost use Rattle.olr_text.specs.Sent.{Sends};
ghost use Rattle.olr_why.specs.Reasons.{why_value};
ghost use Rattle.olr_why.specs.Json.{better_object, failed_conditions, leg_object, near_object, option_of, pair_object};
ghost use Rattle.olr_why.specs.Json.{point_object, remedy_object, spot_if, value_in, verdict_object, why_object, words_if};

use crate::leg::LegReason;
use crate::on_map::{OnMap, shown_line};
use crate::pair::{Better, PairLength};
use crate::point::PointReason;
use crate::remedy::{Change, Remedy};
use crate::verdict::Verdict;
use crate::why::Why;
use arrayvec::ArrayVec;
use olr_base::{Degrees, NoMemory};
use olr_candidates::{FailedConditions, NearLine};
use olr_keys::{Cursor, Key};
use olr_road::{Map, Place};
use olr_shape::spot_on;
use olr_text::{ToJson, send_object, to_json_line};
use serde::Serializer;
use std::alloc::Global;

/// Adds a word, where it applies.
fn push_word_if(words: &mut ArrayVec<&'static str, 4>, applies: bool, word: &'static str)
    requires { length words.old.items < 4 }
    ensures words { map (λ word. word.now) words.new.items
        ≡ map (λ word. word.now) words.old.items ++ words_if applies word.now }
    ensures at_most { length words.new.items ≤ length words.old.items + 1 }
{
    if applies {
        words.push(word);
    }
}

/// The words of the conditions that a line fails.
fn failed_words(failed: &FailedConditions) -> ArrayVec<&'static str, 4>
    ensures { map (λ word. word.now) result.items ≡ failed_conditions failed.now }
{
    let mut words = ArrayVec::new();
    push_word_if(&mut words, failed.radius, "radius");
    push_word_if(&mut words, failed.bearing, "bearing");
    push_word_if(&mut words, failed.class, "class");
    push_word_if(&mut words, failed.end, "end");
    words
}

/// The conditions that a line fails, by their words.
impl ToJson<OnMap<'_>> for FailedConditions {
    ghost value = { λ _ failed. array_of string (failed_conditions failed) };

    fn send<S: Serializer>(&self, on: &OnMap<'_>, out: &mut S) -> Result<(), S::Error> {
        failed_words(self).send(on, out)
    }
}

/// The spot of the place on a line that is nearest to a point, where spots are asked for.
fn spot_if(on: &OnMap<'_>, near: &NearLine) -> Option<Degrees>
    ensures { option_map coordinates_of result ≡ spot_if on.now.map.now on.now.spots near.now }
{
    if on.spots {
        spot_on(
            on.map,
            Place {
                line: near.line,
                at: near.at,
            },
        )
    } else {
        None
    }
}

/// The object of a line near a point.
impl ToJson<OnMap<'_>> for NearLine {
    ghost value = { λ on. near_object on.map.now on.spots };

    fn send<S: Serializer>(&self, on: &OnMap<'_>, out: &mut S) -> Result<(), S::Error> {
        let (class, form, line) = shown_line(on.map, self.line);
        let spot = spot_if(on, self);
        send_object!(on, out, {
            "at": self.at,
            "class": class,
            "distance": self.distance,
            "form": form,
            "line": line,
            "not": self.failed,
            "penalty": self.penalty,
            "sector": self.sector,
            "spot"?: spot,
        })
    }
}

/// The object of a point.
impl ToJson<OnMap<'_>> for PointReason {
    ghost value = { λ on. point_object on.map.now on.spots };

    fn send<S: Serializer>(&self, on: &OnMap<'_>, out: &mut S) -> Result<(), S::Error> {
        send_object!(on, out, { "candidates": self.candidates, "nearest": self.nearest })
    }
}

/// What another class limit gives for a pair.
impl<On> ToJson<On> for Better {
    ghost value = { λ _. better_object };

    fn send<S: Serializer>(&self, on: &On, out: &mut S) -> Result<(), S::Error> {
        send_object!(on, out, { "class": self.class, "length": self.length })
    }
}

/// The object of a pair of a leg.
impl ToJson<LegReason> for PairLength {
    ghost value = { λ leg. pair_object leg.from leg.to };

    fn send<S: Serializer>(&self, leg: &LegReason, out: &mut S) -> Result<(), S::Error> {
        send_object!(leg, out, {
            "better": self.better,
            "first": self.first,
            "length": self.length,
            "long": self.long(leg.to),
            "second": self.second,
            "short": self.short(leg.from),
        })
    }
}

/// The object of a leg.
impl ToJson<OnMap<'_>> for LegReason {
    ghost value = { λ _. leg_object };

    fn send<S: Serializer>(&self, _on: &OnMap<'_>, out: &mut S) -> Result<(), S::Error> {
        send_object!(self, out, {
            "admits": self.admits,
            "class": self.class,
            "from": self.from,
            "of": self.of,
            "pairs": self.pairs,
            "to": self.to,
        })
    }
}

/// The cursor of a matching.
impl ToJson<OnMap<'_>> for Key {
    ghost value = { λ _ key. string (key_text key) };

    fn send<S: Serializer>(&self, _on: &OnMap<'_>, out: &mut S) -> Result<(), S::Error> {
        out.str(Cursor::write(self, None).as_str())
    }
}

/// The name of what is changed.
fn option_of(change: Change) -> &'static str
    ensures { result.now ≡ option_of change }
{
    match change {
        Change::Set(name, _) => name.text(),
        Change::WithoutBans => "without-bans",
    }
}

/// The value that it is given.
fn value_in(change: Change) -> Option<u32>
    ensures { result ≡ value_in change }
{
    match change {
        Change::Set(_, value) => Some(value),
        Change::WithoutBans => None,
    }
}

/// The object of a change that would help.
impl ToJson<OnMap<'_>> for Remedy {
    ghost value = { λ _. remedy_object };

    fn send<S: Serializer>(&self, on: &OnMap<'_>, out: &mut S) -> Result<(), S::Error> {
        send_object!(on, out, {
            "matching": self.matching,
            "option": option_of(self.change),
            "value": value_in(self.change),
        })
    }
}

/// The object of a verdict.
impl ToJson<OnMap<'_>> for Verdict {
    ghost value = { λ _. verdict_object };

    fn send<S: Serializer>(&self, on: &OnMap<'_>, out: &mut S) -> Result<(), S::Error> {
        send_object!(on, out, { "at": self.number(), "word": self.word() })
    }
}

/// The object of why a reference has no matching.
impl ToJson<OnMap<'_>> for Why {
    ghost value = { λ on why. why_object on.map.now on.spots (why_value why) };

    fn send<S: Serializer>(&self, on: &OnMap<'_>, out: &mut S) -> Result<(), S::Error> {
        send_object!(on, out, {
            "legs": self.legs,
            "points": self.points,
            "remedies": self.remedies,
            "verdict": self.verdict,
        })
    }
}

/// The JSON of why a reference has no matching: one compact object and a line feed, with the
/// members of each object in the order of their names. It has the `legs`, each with the number of
/// pairs that it `admits`, its `class` limit, the lengths `from` and `to` that it admits, `of` how
/// many pairs, and its `pairs`; the `points`, each with the number of its `candidates`, null for
/// more than 64, and its `nearest` lines; the `remedies`, each with the `option`, its `value` and
/// the cursor of the `matching`; and the `verdict`, with the number `at` and its `word`. Where
/// `spots` are asked for, each of the nearest lines has the `spot` of its place, `[lon, lat]` in
/// microdegrees.
///
/// # Errors
///
/// [`NoMemory`] where the allocator refused memory.
#[tactic(auto, using(olr_text::proofs::Nesting::items_nest, olr_text::proofs::Nesting::option_nests))]
pub fn why_json(alloc: Global, map: &Map, why: &Why, spots: bool) -> Result<String, NoMemory>
    ensures { IfOk result (λ text.
        IsJsonLine (why_object map.now spots (why_value why.now)) (string_bytes text)) }
{
    let text = to_json_line(alloc, &OnMap { map, spots }, why)?;
    Ok(text)
}
