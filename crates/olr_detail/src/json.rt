//! The JSON of a matching and of candidates with what speaks for them.

ghost use Rattle.olr_report.specs.Location.{located_value};
ghost use Rattle.olr_report.specs.ShownMap.{map_shown};
ghost use Rattle.olr_detail.specs.Json.{candidate_object, leg_object, matching_object, parts_object};

use crate::candidate_detail::{CandidateDetail, PenaltyParts};
use crate::leg_detail::LegDetail;
use crate::matching_detail::MatchingDetail;
use olr_keys::{Cursor, Key};
use olr_matching::Matched;
use olr_report::{Located, RoutePart, ShownMap, first_length, shown_id, word_drawn};
use olr_road::Place;
use olr_route::Piece;
use olr_text::{ToJson, send_object};
use serde::Serializer;

/// The object of the parts of a penalty.
impl ToJson<ShownMap<'_>> for PenaltyParts {
    ghost value = { λ _. parts_object };

    fn send<S: Serializer>(&self, on: &ShownMap<'_>, out: &mut S) -> Result<(), S::Error> {
        send_object!(on, out, {
            "bearing": self.bearing,
            "class": self.class,
            "distance": self.distance,
            "form": self.form,
        })
    }
}

/// The object of a candidate.
impl ToJson<ShownMap<'_>> for CandidateDetail {
    ghost value = { λ on. candidate_object (map_shown on) };

    fn send<S: Serializer>(&self, on: &ShownMap<'_>, out: &mut S) -> Result<(), S::Error> {
        let Place { line, at } = self.candidate.place;
        let spot = on.spot_of(self.candidate.place);
        send_object!(on, out, {
            "at": at,
            "classes": self.classes,
            "distance": self.distance,
            "end": self.end,
            "form": self.form,
            "line": shown_id(on.map, line),
            "parts": self.parts,
            "penalty": self.candidate.penalty,
            "sectors": self.sectors,
            "spot"?: spot,
        })
    }
}

/// The object of a leg.
impl ToJson<ShownMap<'_>> for LegDetail {
    ghost value = { λ _. leg_object };

    fn send<S: Serializer>(&self, on: &ShownMap<'_>, out: &mut S) -> Result<(), S::Error> {
        send_object!(on, out, {
            "greatest": self.greatest,
            "least": self.least,
            "length": self.length,
            "limit": self.limit,
            "penalty": self.penalty,
        })
    }
}

/// A matching as JSON shows it with what speaks for it.
#[derive(Clone, Copy)]
pub struct ShownInDetail<'a> {
    /// Its key.
    pub key: &'a Key,
    /// Its parts.
    pub matched: &'a Matched,
    /// The joined route of its legs.
    pub route: &'a [Piece],
    /// The location of the reference on this route.
    pub location: &'a Located,
    /// What speaks for it.
    pub detail: &'a MatchingDetail,
    /// The part of the route that is drawn, if one is.
    pub part: Option<RoutePart>,
}

/// The object of a matching: its likely cost, its cursor, its location, its legs, the part that is
/// drawn, its points, its joined route, where shapes are asked for its shape, and where it lies if it
/// is a point along a line, its total, and whether it turns back.
impl ToJson<ShownMap<'_>> for ShownInDetail<'_> {
    ghost value = { λ on shown. matching_object (map_shown on) shown.part shown.key.now
        shown.matched.now shown.route.now (located_value shown.location.now) shown.detail.now };

    fn send<S: Serializer>(&self, on: &ShownMap<'_>, out: &mut S) -> Result<(), S::Error> {
        let ShownInDetail {
            key,
            matched,
            route,
            location,
            detail,
            part,
        } = *self;
        let cursor = Cursor::write(key, None);
        let part = word_drawn(part);
        let length = first_length(&matched.legs);
        let spot = on.spots_if_asked(length, route, location);
        let Ok(shape) = on.shape_if_asked(route, location) else {
            return Err(out.custom("no memory"));
        };
        let likely = detail.likely;
        match location {
            Located::Line { outer, inner } => send_object!(on, out, {
                "cost": likely.cost,
                "cursor": cursor,
                "inner": *inner,
                "legs": detail.legs,
                "outer": *outer,
                "part"?: part,
                "points": detail.points,
                "route": route,
                "shape"?: shape,
                "spot"?: spot,
                "total": key.total,
                "turns_back": likely.turns_back,
            }),
            Located::Point { earliest, latest } => send_object!(on, out, {
                "cost": likely.cost,
                "cursor": cursor,
                "earliest": *earliest,
                "latest": *latest,
                "legs": detail.legs,
                "part"?: part,
                "points": detail.points,
                "route": route,
                "shape"?: shape,
                "spot"?: spot,
                "total": key.total,
                "turns_back": likely.turns_back,
            }),
        }
    }
}
