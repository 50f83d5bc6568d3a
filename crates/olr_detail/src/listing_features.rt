//! The candidates of the points of a reference as features of GeoJSON.

ghost use Rattle.std.specs.Prelude.{◌≡◌, ◌++◌, IfOk, List, [], OnOk, codes, string_bytes};
ghost use Rattle.serde_json.specs.Data.{no_members, object};
ghost use Rattle.olr_candidates.specs.Points.{lists_of};
ghost use Rattle.olr_geojson.specs.Collection.{collection_text};
ghost use Rattle.olr_geojson.specs.Feature.{Feature, feature_text};
ghost use Rattle.olr_geojson.specs.Geometry.{geometry_of};
ghost use Rattle.olr_geojson.specs.Joined.{behind_commas};
ghost use Rattle.olr_report.specs.ShownMap.{map_shown};
ghost use Rattle.olr_text.specs.Texts.{texts_from};
ghost use Rattle.olr_detail.specs.Drawing.{spot_drawn};
ghost use Rattle.olr_detail.specs.GeoJson.{candidate_feature, candidate_in_detail, candidate_properties, detail_properties, listing_features, typed};
ghost use Rattle.olr_detail.specs.Listing.{details_of};
ghost use Rattle.olr_shape.specs.Position.{spot_on};

use crate::candidate_detail::CandidateDetail;
use crate::collecting::collected;
use crate::listing::PointDetails;
use arrayvec::ArrayVec;
use olr_base::NoMemory;
use olr_candidates::{Candidate, MAX_CANDIDATES};
use olr_geojson::{Geometry, push_feature};
use olr_report::{ShownMap, shown_id};
use olr_road::{Map, Place};
use olr_shape::spot_on;
use olr_text::{ToJson, ToText, push_texts, send_object, to_json_text};
use serde::Serializer;
use std::alloc::Global;

/// The candidates of a point are drawn on a map.
#[derive(Clone, Copy)]
struct PointOn<'a> {
    on: ShownMap<'a>,
    /// The number of the point, from 1.
    point: usize,
}

/// The candidates of points are drawn on a map.
#[derive(Clone, Copy)]
struct PointsOn<'a> {
    on: ShownMap<'a>,
}

/// A candidate with the numbers of its point and of its rank, both from 1.
#[derive(Clone, Copy)]
struct Ranked<'a, T> {
    candidate: &'a T,
    point: usize,
    rank: usize,
}

/// The properties of a candidate.
impl ToJson<ShownMap<'_>> for Ranked<'_, Candidate> {
    ghost value = { λ on ranked. candidate_properties (map_shown on) ranked.point ranked.rank
        ranked.candidate.now };

    fn send<S: Serializer>(&self, on: &ShownMap<'_>, out: &mut S) -> Result<(), S::Error> {
        let Place { line, at } = self.candidate.place;
        let spot = on.spot_of(self.candidate.place);
        send_object!(on, out, {
            "at": at,
            "line": shown_id(on.map, line),
            "penalty": self.candidate.penalty,
            "point": self.point,
            "rank": self.rank,
            "spot"?: spot,
        })
    }
}

/// The properties of a candidate with what speaks for it.
impl ToJson<ShownMap<'_>> for Ranked<'_, CandidateDetail> {
    ghost value = { λ on ranked. detail_properties (map_shown on) ranked.point ranked.rank
        ranked.candidate.now };

    fn send<S: Serializer>(&self, on: &ShownMap<'_>, out: &mut S) -> Result<(), S::Error> {
        let detail = self.candidate;
        let Place { line, at } = detail.candidate.place;
        let spot = on.spot_of(detail.candidate.place);
        send_object!(on, out, {
            "at": at,
            "classes": detail.classes,
            "distance": detail.distance,
            "end": detail.end,
            "form": detail.form,
            "line": shown_id(on.map, line),
            "parts": detail.parts,
            "penalty": detail.candidate.penalty,
            "point": self.point,
            "rank": self.rank,
            "sectors": detail.sectors,
            "spot"?: spot,
        })
    }
}

/// The geometry of a candidate at this place.
fn place_geometry(map: &Map, place: Place) -> Geometry<'static>
    ensures { geometry_of result ≡ spot_drawn (spot_on map.now place) }
{
    match spot_on(map, place) {
        Some(spot) => Geometry::Point(spot),
        None => Geometry::Missing,
    }
}

/// The feature of a candidate, behind a comma, by its rank from 1.
impl ToText<PointOn<'_>> for Candidate {
    ghost text = { λ on rank candidate. codes "," ++ feature_text
        (candidate_feature (map_shown on.on) on.point rank candidate) };

    fn push(&self, on: &PointOn<'_>, rank: usize, out: &mut String) -> Result<(), NoMemory> {
        let ranked = Ranked {
            candidate: self,
            point: on.point,
            rank,
        };
        let text = to_json_text(on.on.alloc, &on.on, &ranked)?;
        push_feature(out, &place_geometry(on.on.map, self.place), &text)?;
        Ok(())
    }
}

/// The same with what speaks for it.
impl ToText<PointOn<'_>> for CandidateDetail {
    ghost text = { λ on rank detail. codes "," ++ feature_text
        (candidate_in_detail (map_shown on.on) on.point rank detail) };

    fn push(&self, on: &PointOn<'_>, rank: usize, out: &mut String) -> Result<(), NoMemory> {
        let ranked = Ranked {
            candidate: self,
            point: on.point,
            rank,
        };
        let text = to_json_text(on.on.alloc, &on.on, &ranked)?;
        push_feature(out, &place_geometry(on.on.map, self.candidate.place), &text)?;
        Ok(())
    }
}

/// The features of the candidates of a point, each behind a comma, by the number of the point from 1.
impl ToText<PointsOn<'_>> for ArrayVec<Candidate, MAX_CANDIDATES> {
    ghost text = { λ on number list. texts_from (λ rank candidate. codes "," ++ feature_text
        (candidate_feature (map_shown on.on) number rank candidate)) 1 list.items };

    fn push(&self, on: &PointsOn<'_>, number: usize, out: &mut String) -> Result<(), NoMemory> {
        let point = PointOn {
            on: on.on,
            point: number,
        };
        push_texts(self, &point, out)
    }
}

/// The same with what speaks for each.
impl ToText<PointsOn<'_>> for PointDetails {
    ghost text = { λ on number point. texts_from (λ rank detail. codes "," ++ feature_text
        (candidate_in_detail (map_shown on.on) number rank detail)) 1 point.candidates.items };

    fn push(&self, on: &PointsOn<'_>, number: usize, out: &mut String) -> Result<(), NoMemory> {
        let point = PointOn {
            on: on.on,
            point: number,
        };
        push_texts(&self.candidates, &point, out)
    }
}

/// What a collection of candidates says behind its features.
struct ListingMembers;

/// The object of the members.
impl ToJson<()> for ListingMembers {
    ghost value = { λ _ _. object (typed no_members) };

    fn send<S: Serializer>(&self, on: &(), out: &mut S) -> Result<(), S::Error> {
        send_object!(on, out, { "type": "FeatureCollection" })
    }
}

/// The line of a collection of the candidates of each point: these lists have them, point by point
/// and by rank.
///
/// # Errors
///
/// [`NoMemory`] where the allocator refused memory.
pub fn listing_collection(
    on: &ShownMap<'_>,
    lists: &[ArrayVec<Candidate, MAX_CANDIDATES>],
) -> Result<String, NoMemory>
    ensures { IfOk result (λ text. string_bytes text ≡ collection_text []
        (listing_features (candidate_feature (map_shown on.now)) 1 (lists_of lists.now))
        (typed no_members)) }
{
    let mut features = String::new(on.alloc);
    push_texts(lists, &PointsOn { on: *on }, &mut features)?;
    let text = collected(on.alloc, &features, &ListingMembers)?;
    Ok(text)
}

/// The same with what speaks for each candidate.
///
/// # Errors
///
/// [`NoMemory`] where the allocator refused memory.
pub fn listing_collection_in_detail(
    on: &ShownMap<'_>,
    details: &[PointDetails],
) -> Result<String, NoMemory>
    ensures { IfOk result (λ text. string_bytes text ≡ collection_text []
        (listing_features (candidate_in_detail (map_shown on.now)) 1 (details_of details.now))
        (typed no_members)) }
{
    let mut features = String::new(on.alloc);
    push_texts(details, &PointsOn { on: *on }, &mut features)?;
    let text = collected(on.alloc, &features, &ListingMembers)?;
    Ok(text)
}
