//! Places as they are shown, as features of GeoJSON.

ghost use Rattle.std.specs.Prelude.{◌≡◌, ◌++◌, IfOk, OnOk, codes, map, option_map, string_bytes};
ghost use Rattle.serde_json.specs.Data.{boolean, object};
ghost use Rattle.olr_geojson.specs.Feature.{feature_text};
ghost use Rattle.olr_geojson.specs.Joined.{behind_commas};
ghost use Rattle.olr_report.specs.ShownMap.{map_shown};
ghost use Rattle.olr_likely.specs.GeoJson.{before_places, maybe_before, place_feature, places_members, shown_collection};
ghost use Rattle.olr_likely.specs.Json.{differs_value};

use crate::json::{DrawnPlace, map_differs_of, none_of};
use crate::showing::{ShownPlace, ShownPlaces};
use olr_base::NoMemory;
use olr_detail::{Drawing, push_drawn};
use olr_geojson::collection;
use olr_report::{first_length, next_cursor};
use olr_text::{ToJson, send_object, to_json_text};
use serde::Serializer;
use std::alloc::Global;

/// Adds a comma and the feature of a place.
fn push_place(drawing: &Drawing<'_>, place: &ShownPlace, out: &mut String) -> Result<(), NoMemory>
    ensures { OnOk result (string_bytes out.new ≡ string_bytes out.old ++ codes ","
        ++ feature_text (place_feature (map_shown drawing.now.on) drawing.now.reference.now
        drawing.now.part place.now)) }
{
    let opener = &place.opener;
    let drawn = DrawnPlace {
        place,
        part: drawing.part_named(),
    };
    let length = first_length(&opener.matched.legs);
    let location = opener.covered.location();
    push_drawn(drawing, length, &opener.route, location, &drawn, out)?;
    Ok(())
}

/// Adds the features of places, each behind a comma.
fn push_places(
    drawing: &Drawing<'_>,
    places: &[ShownPlace],
    out: &mut String,
) -> Result<(), NoMemory>
    ensures { OnOk result (string_bytes out.new ≡ string_bytes out.old ++ behind_commas feature_text
        (map (place_feature (map_shown drawing.now.on) drawing.now.reference.now drawing.now.part)
        places.now)) }
{
    for place in places {
        push_place(drawing, place, out)?;
    }
    Ok(())
}

/// What a collection of places has behind its features.
#[derive(Clone, Copy)]
struct BehindPlaces<'a> {
    shown: &'a ShownPlaces,
}

/// The object of these members.
impl ToJson<()> for BehindPlaces<'_> {
    ghost value = { λ _ behind. object (places_members behind.shown.now) };

    fn send<S: Serializer>(&self, on: &(), out: &mut S) -> Result<(), S::Error> {
        let shown = self.shown;
        let map_differs = map_differs_of(shown);
        let next = next_cursor(shown.next.as_ref(), None);
        let none = none_of(shown);
        let verdict = shown.verdict.word();
        send_object!(on, out, {
            "looked": shown.looked,
            "map_differs"?: map_differs,
            "margin": shown.margin,
            "next": next,
            "none_of_these"?: none,
            "type": "FeatureCollection",
            "verdict": verdict,
        })
    }
}

/// Adds whether a place may be missing, and a comma, where that is said.
fn push_cut(cut: Option<bool>, out: &mut String) -> Result<(), NoMemory>
    ensures { OnOk result (string_bytes out.new
        ≡ string_bytes out.old ++ maybe_before (codes "cut") (option_map boolean cut)) }
{
    match cut {
        Some(true) => out.push_str("\"cut\":true,")?,
        Some(false) => out.push_str("\"cut\":false,")?,
        None => {}
    }
    Ok(())
}

/// Adds the names of the numbers that differ from those of a confidence, and a comma, where one is
/// given.
fn push_differs(alloc: Global, shown: &ShownPlaces, out: &mut String) -> Result<(), NoMemory>
    ensures { OnOk result (string_bytes out.new
        ≡ string_bytes out.old ++ maybe_before (codes "differs") (differs_value shown.now)) }
{
    let Some(names) = &shown.differs else {
        return Ok(());
    };
    let value = to_json_text(alloc, &(), names)?;
    out.push_str("\"differs\":")?;
    out.push_str(&value)?;
    out.push(',')?;
    Ok(())
}

/// What a collection of places has before its features, a comma behind each member.
fn before_places(alloc: Global, shown: &ShownPlaces) -> Result<String, NoMemory>
    ensures { IfOk result (λ text. string_bytes text ≡ before_places shown.now) }
{
    let mut text = String::new(alloc);
    push_cut(shown.cut, &mut text)?;
    push_differs(alloc, shown, &mut text)?;
    Ok(text)
}

/// The places as a collection of GeoJSON: one compact object and a line feed. A place is a feature:
/// its geometry is the part of the route of its opener that is drawn, or of a point along a line its
/// middle, or null, and its properties are the members that [`shown_json`](crate::shown_json) has of
/// it, and of a line the `part`. The collection has the other members of the places: `looked`,
/// `margin`, `next` and `verdict`, in the likely order `cut`, and where a confidence is given `differs`,
/// `map_differs` and `none_of_these`.
///
/// # Errors
///
/// [`NoMemory`] where the allocator refused memory.
pub fn shown_geojson(drawing: &Drawing<'_>, shown: &ShownPlaces) -> Result<String, NoMemory>
    ensures { IfOk result (λ text. string_bytes text ≡ shown_collection (map_shown drawing.now.on)
        drawing.now.reference.now drawing.now.part shown.now) }
{
    let alloc = drawing.on.alloc;
    let mut features = String::new(alloc);
    push_places(drawing, &shown.places, &mut features)?;
    let others = to_json_text(alloc, &(), &BehindPlaces { shown })?;
    let before = before_places(alloc, shown)?;
    let text = collection(alloc, &before, &features, &others)?;
    Ok(text)
}
