//! The JSON of a reference.

ghost use Rattle.std.specs.Prelude.{◌≡◌, option_map, string_bytes, IfOk, OnOk};
ghost use Rattle.serde_json.specs.Data.{Data};
ghost use Rattle.olr_binary.specs.Json.{point_object, reference_object, IsReferenceJson};
ghost use Rattle.olr_text.specs.Sent.{Sends};

use crate::point::{Next, Point};
use crate::reference::Reference;
use olr_base::{Degrees, NoMemory};
use olr_text::{ToJson, send_object, to_json_line};
use serde::Serializer;
use std::alloc::Global;

/// The interval of the path to the next point, where there is one.
fn interval_of(next: Option<Next>) -> Option<u8>
    ensures { result ≡ option_map (λ next. next.interval) next }
{
    match next {
        Some(next) => Some(next.interval),
        None => None,
    }
}

/// The lowest class of the path to the next point, where there is one.
fn lowest_of(next: Option<Next>) -> Option<u8>
    ensures { result ≡ option_map (λ next. next.lowest) next }
{
    match next {
        Some(next) => Some(next.lowest),
        None => None,
    }
}

/// The object of a point.
impl ToJson<()> for Point {
    ghost value = { λ _. point_object };

    fn send<S: Serializer>(&self, on: &(), out: &mut S) -> Result<(), S::Error> {
        let Point {
            at: Degrees { lon, lat },
            class,
            form,
            sector,
            next,
        } = *self;
        send_object!(on, out, {
            "class": class,
            "form": form,
            "interval": interval_of(next),
            "lat": lat,
            "lon": lon,
            "lowest": lowest_of(next),
            "sector": sector,
        })
    }
}

/// The object of a reference.
impl ToJson<()> for Reference {
    ghost value = { λ _. reference_object };

    fn send<S: Serializer>(&self, on: &(), out: &mut S) -> Result<(), S::Error> {
        match self {
            Reference::Line {
                points,
                positive,
                negative,
            } => send_object!(on, out, {
                "kind": "line",
                "negative": *negative,
                "points": *points,
                "positive": *positive,
            }),
            Reference::PointAlong {
                points,
                orientation,
                side,
                positive,
            } => send_object!(on, out, {
                "kind": "point-along-line",
                "orientation": *orientation,
                "points": *points,
                "positive": *positive,
                "side": *side,
            }),
        }
    }
}

/// Prints a reference as JSON: one compact object and a line feed, with the members of each object
/// in the order of their names. The reference has its `kind`, `line` or `point-along-line`, its
/// `points`, and its `positive` offset; a line has a `negative` one, a point along a line its
/// `orientation` and its `side`. A point has its `class`, `form`, `lat`, `lon` and `sector`, and
/// the `interval` and `lowest` class of the path to the next point. What isn't there is null.
/// Coordinates are in microdegrees, offsets in shares of 1/256.
///
/// # Errors
///
/// [`NoMemory`] where the allocator refused memory.
#[tactic(auto, using(crate::proofs::Nesting::reference_nests))]
pub fn show_json(alloc: Global, reference: &Reference) -> Result<String, NoMemory>
    ensures { IfOk result (λ text. IsReferenceJson reference.now (string_bytes text)) }
{
    let text = to_json_line(alloc, &(), reference)?;
    Ok(text)
}
