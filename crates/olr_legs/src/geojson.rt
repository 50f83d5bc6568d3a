//! The legs of a matching as features of GeoJSON.

ghost use Rattle.std.specs.Prelude.{◌≡◌, ◌++◌, IfOk, [], OnOk, codes, option_map, string_bytes};
ghost use Rattle.serde_json.specs.Data.{Data, object, string};
ghost use Rattle.serde_json.specs.Written.{compact_text};
ghost use Rattle.olr_geojson.specs.Collection.{collection_text};
ghost use Rattle.olr_geojson.specs.Feature.{feature_text};
ghost use Rattle.olr_geojson.specs.Geometry.{line_string};
ghost use Rattle.olr_geojson.specs.Joined.{behind_commas};
ghost use Rattle.olr_shape.specs.Shape.{shape_on};
ghost use Rattle.olr_legs.specs.GeoJson.{collection_members, features_of_leg, features_of_legs};
ghost use Rattle.olr_legs.specs.GeoJson.{leg_feature, leg_properties, other_features, path_feature};
ghost use Rattle.olr_legs.specs.GeoJson.{members_with, path_properties};
ghost use Rattle.olr_text.specs.JsonValues.{or_null};

use crate::json::{ShownLegs, cursor_of, is_cut};
use crate::legs::LegAlternatives;
use crate::other::{Other, OtherPath};
use arrayvec::ArrayString;
use olr_base::NoMemory;
use olr_geojson::{Geometry, collection, push_feature};
use olr_report::ShownMap;
use olr_road::Map;
use olr_route::Piece;
use olr_shape::shape_on;
use olr_text::{ToJson, ToText, push_texts, send_object, to_json_text};
use serde::Serializer;
use std::alloc::Global;

/// A leg, or the other path of one, with the number of the leg from 1.
#[derive(Clone, Copy)]
struct Numbered<'a, T> {
    leg: usize,
    shown: &'a T,
}

/// The properties of a leg.
impl ToJson<ShownMap<'_>> for Numbered<'_, LegAlternatives> {
    ghost value = { λ on numbered. leg_properties on.map.now numbered.leg numbered.shown.now };

    fn send<S: Serializer>(&self, on: &ShownMap<'_>, out: &mut S) -> Result<(), S::Error> {
        let leg = self.shown;
        send_object!(on, out, {
            "cut": is_cut(&leg.other),
            "greatest": leg.greatest,
            "least": leg.least,
            "leg": self.leg,
            "length": leg.length,
            "limit": leg.limit,
            "part": "leg",
            "pieces": leg.pieces,
            "shorter": leg.shorter,
        })
    }
}

/// The properties of another path.
impl ToJson<ShownMap<'_>> for Numbered<'_, OtherPath> {
    ghost value = { λ _ numbered. path_properties numbered.leg numbered.shown.now };

    fn send<S: Serializer>(&self, on: &ShownMap<'_>, out: &mut S) -> Result<(), S::Error> {
        let path = self.shown;
        send_object!(on, out, { "leg": self.leg, "longer": path.longer, "part": "other" })
    }
}

/// Adds, behind a comma, the feature that is drawn by pieces.
fn push_drawn(
    on: &ShownMap<'_>,
    pieces: &[Piece],
    properties: &str,
    out: &mut String,
) -> Result<(), NoMemory>
    ensures { OnOk result ((value : Data) → properties.now ≡ compact_text value
        → string_bytes out.new ≡ string_bytes out.old ++ codes ","
        ++ feature_text (record {
          geometry = line_string (shape_on on.now.map.now pieces.now);
          properties = value;
        })) }
{
    let shape = shape_on(on.alloc, on.map, pieces)?;
    push_feature(out, &Geometry::LineString(&shape), properties)?;
    Ok(())
}

/// Adds the feature of a leg.
#[tactic(auto, using(olr_text::proofs::Nesting::items_nest, olr_text::proofs::Nesting::option_nests))]
fn push_leg(
    on: &ShownMap<'_>,
    number: usize,
    leg: &LegAlternatives,
    out: &mut String,
) -> Result<(), NoMemory>
    ensures { OnOk result (string_bytes out.new ≡ string_bytes out.old ++ codes ","
        ++ feature_text (leg_feature on.now.map.now number leg.now)) }
{
    let numbered = Numbered {
        leg: number,
        shown: leg,
    };
    let text = to_json_text(on.alloc, on, &numbered)?;
    push_drawn(on, &leg.pieces, &text, out)?;
    Ok(())
}

/// Adds the feature of another path.
fn push_path(
    on: &ShownMap<'_>,
    number: usize,
    path: &OtherPath,
    out: &mut String,
) -> Result<(), NoMemory>
    ensures { OnOk result (string_bytes out.new ≡ string_bytes out.old ++ codes ","
        ++ feature_text (path_feature on.now.map.now number path.now)) }
{
    let numbered = Numbered {
        leg: number,
        shown: path,
    };
    let text = to_json_text(on.alloc, on, &numbered)?;
    push_drawn(on, &path.pieces, &text, out)?;
    Ok(())
}

/// Adds the feature of the other path of a leg, where there is one.
fn push_other(
    on: &ShownMap<'_>,
    number: usize,
    other: &Other,
    out: &mut String,
) -> Result<(), NoMemory>
    ensures { OnOk result (string_bytes out.new ≡ string_bytes out.old
        ++ behind_commas feature_text (other_features on.now.map.now number other.now)) }
{
    match other {
        Other::Path(path) => push_path(on, number, path, out)?,
        Other::Cut | Other::Nothing => {}
    }
    Ok(())
}

/// The features of a leg, each behind a comma.
impl ToText<ShownMap<'_>> for LegAlternatives {
    ghost text = { λ on number leg.
        behind_commas feature_text (features_of_leg on.map.now number leg) };

    fn push(&self, on: &ShownMap<'_>, number: usize, out: &mut String) -> Result<(), NoMemory> {
        push_leg(on, number, self, out)?;
        push_other(on, number, &self.other, out)?;
        Ok(())
    }
}

/// What a collection of legs says behind its features.
#[derive(Drop)]
struct LegsMembers {
    matching: Option<ArrayString<166>>,
}

/// The object of the members.
impl ToJson<()> for LegsMembers {
    ghost value = { λ _ members.
        object (members_with (or_null (λ text. string text.bytes) members.matching)) };

    fn send<S: Serializer>(&self, on: &(), out: &mut S) -> Result<(), S::Error> {
        send_object!(on, out, { "matching": self.matching, "type": "FeatureCollection" })
    }
}

/// The legs of a matching as one collection of features, a line of GeoJSON: each leg, drawn by its
/// pieces, and behind it its other path, if it has one. The properties of a leg are the members of
/// its object in [`legs_json`](crate::legs_json) but for `other`, its number `leg`, from 1, and the
/// `part` `leg`; those of another path are the number of the `leg`, by how much it is `longer`, and
/// the `part` `other`. The collection has the cursor of the `matching`, null where there is none.
///
/// # Errors
///
/// [`NoMemory`] where the allocator refused memory.
#[tactic(auto, using(olr_text::proofs::Nesting::items_nest, olr_text::proofs::Nesting::option_nests))]
pub fn legs_geojson(alloc: Global, map: &Map, shown: &ShownLegs<'_>) -> Result<String, NoMemory>
    ensures { IfOk result (λ text. string_bytes text ≡ collection_text []
        (features_of_legs map.now 1 shown.now.legs.now)
        (collection_members (option_map (λ key. key.now) shown.now.matching))) }
{
    let on = ShownMap {
        alloc,
        map,
        shapes_of: None,
    };
    let mut features = String::new(alloc);
    push_texts(shown.legs, &on, &mut features)?;
    let members = LegsMembers {
        matching: cursor_of(shown.matching),
    };
    let others = to_json_text(alloc, &(), &members)?;
    let text = collection(alloc, "", &features, &others)?;
    Ok(text)
}
