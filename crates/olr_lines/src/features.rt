//! Lines of a map as features of GeoJSON.

ghost use Rattle.std.specs.Prelude.{◌≡◌, ◌++◌, ◌∷◌, [], IfOk, OnOk, codes, map, slice_get, string_bytes};
ghost use Rattle.serde_json.specs.Data.{object};
ghost use Rattle.olr_geojson.specs.Feature.{feature_text};
ghost use Rattle.olr_geojson.specs.Geometry.{geometry_of};
ghost use Rattle.olr_geojson.specs.Joined.{behind_commas};
ghost use Rattle.olr_lines.specs.GeoJson.{line_drawn, line_feature, members_behind};
ghost use Rattle.olr_lines.specs.GeoJson as specified;

use crate::lines::LinesInBox;
use crate::lines_on::{LinesOn, RankedLine};
use olr_base::NoMemory;
use olr_geojson::{Geometry, collection, push_feature};
use olr_road::Map;
use olr_text::{ToJson, ToText, push_texts, send_object, to_json_text};
use serde::Serializer;
use std::alloc::Global;

/// The geometry of the line of a rank.
fn line_geometry(map: &Map, rank: u32) -> Geometry<'_>
    ensures { geometry_of result ≡ line_drawn (slice_get map.entry.now.lines rank) }
{
    if rank < map.count() {
        Geometry::LineString(map.points(rank))
    } else {
        Geometry::Missing
    }
}

/// The feature of the line of a rank, behind a comma.
impl ToText<LinesOn<'_>> for u32 {
    ghost text = { λ on number rank. codes "," ++ feature_text
        (line_feature on.map.now on.shapes rank) };

    fn push(&self, on: &LinesOn<'_>, _number: usize, out: &mut String) -> Result<(), NoMemory> {
        let text = to_json_text(on.alloc, on, &RankedLine { rank: *self })?;
        push_feature(out, &line_geometry(on.map, *self), &text)?;
        Ok(())
    }
}

/// What a collection of lines says behind its features.
#[derive(Clone, Copy)]
struct LinesMembers {
    more: bool,
}

/// The object of the members.
impl ToJson<()> for LinesMembers {
    ghost value = { λ _ members. object (members_behind members.more) };

    fn send<S: Serializer>(&self, on: &(), out: &mut S) -> Result<(), S::Error> {
        send_object!(on, out, { "more": self.more, "type": "FeatureCollection" })
    }
}

/// The features of lines, each behind a comma.
fn features_of(on: &LinesOn<'_>, ranks: &[u32]) -> Result<String, NoMemory>
    ensures { IfOk result (λ text. string_bytes text ≡ behind_commas feature_text
        (map (line_feature on.now.map.now on.now.shapes) ranks.now)) }
{
    let mut features = String::new(on.alloc);
    push_texts(ranks, on, &mut features)?;
    Ok(features)
}

/// The line of a collection of lines of a map, a feature for each, with their points in microdegrees
/// among its properties where `shapes` are asked for.
///
/// # Errors
///
/// [`NoMemory`] where the allocator refused memory.
pub fn lines_collection(
    alloc: Global,
    map: &Map,
    found: &LinesInBox,
    shapes: bool,
) -> Result<String, NoMemory>
    ensures { IfOk result (λ text.
        string_bytes text ≡ specified.lines_collection map.now shapes found.now) }
{
    let features = features_of(&LinesOn { alloc, map, shapes }, &found.ranks)?;
    let others = to_json_text(alloc, &(), &LinesMembers { more: found.more })?;
    let text = collection(alloc, "", &features, &others)?;
    Ok(text)
}
