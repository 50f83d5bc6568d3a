//! The JSON of a matching: of its candidates, its legs, its route and its location.

ghost use Rattle.olr_report.specs.Entries.{entry_of, shown_entry};
ghost use Rattle.std.specs.Prelude.{◌≡◌};
ghost use Rattle.olr_report.specs.Location.{first_length};
ghost use Rattle.olr_report.specs.Json.{candidate_object, drawn_object, entry_object, leg_object, piece_array, place_array};
ghost use Rattle.olr_report.specs.ShownMap.{map_shown};

use crate::locating::Located;
use crate::page_entries::Entry;
use crate::route_part::{RoutePart, word_drawn};
use crate::shown_map::ShownMap;
use crate::text_rows::shown_id;
use olr_candidates::Candidate;
use olr_keys::{Cursor, Key};
use olr_matching::{Leg, Matched};
use olr_road::Place;
use olr_route::Piece;
use olr_text::{ToJson, send_object};
use serde::Serializer;

/// The object of a candidate: its `at`, the position on its line in decimetres, `line`, the id of
/// this line, and its `penalty`; and its `spot` where shapes are asked for.
impl ToJson<ShownMap<'_>> for Candidate {
    ghost value = { λ on. candidate_object (map_shown on) };

    fn send<S: Serializer>(&self, on: &ShownMap<'_>, out: &mut S) -> Result<(), S::Error> {
        let Candidate {
            place: Place { line, at },
            penalty,
        } = *self;
        let spot = on.spot_of(self.place);
        send_object!(on, out, {
            "at": at,
            "line": shown_id(on.map, line),
            "penalty": penalty,
            "spot"?: spot,
        })
    }
}

/// The object of a leg: its `length` in decimetres and its `penalty`.
impl ToJson<ShownMap<'_>> for Leg {
    ghost value = { λ _. leg_object };

    fn send<S: Serializer>(&self, on: &ShownMap<'_>, out: &mut S) -> Result<(), S::Error> {
        send_object!(on, out, { "length": self.length, "penalty": self.penalty })
    }
}

/// The array of a piece: the id of its line, and the positions where it begins and ends.
impl ToJson<ShownMap<'_>> for Piece {
    ghost value = { λ on. piece_array on.map.now };

    fn send<S: Serializer>(&self, on: &ShownMap<'_>, out: &mut S) -> Result<(), S::Error> {
        let Piece { line, from, to } = *self;
        out.begin_seq(Some(3))?;
        out.u64(shown_id(on.map, line))?;
        out.u64(u64::from(from))?;
        out.u64(u64::from(to))?;
        out.end_seq()
    }
}

/// The array of a place: the id of its line, and the position on it.
impl ToJson<ShownMap<'_>> for Place {
    ghost value = { λ on. place_array on.map.now };

    fn send<S: Serializer>(&self, on: &ShownMap<'_>, out: &mut S) -> Result<(), S::Error> {
        let Place { line, at } = *self;
        out.begin_seq(Some(2))?;
        out.u64(shown_id(on.map, line))?;
        out.u64(u64::from(at))?;
        out.end_seq()
    }
}

/// A matching as JSON shows it.
#[derive(Clone, Copy)]
pub struct ShownMatching<'a> {
    /// Its key.
    pub key: &'a Key,
    /// Its parts.
    pub matched: &'a Matched,
    /// The joined route of its legs.
    pub route: &'a [Piece],
    /// The location of the reference on this route.
    pub location: &'a Located,
    /// The part of the route that is drawn, if one is.
    pub part: Option<RoutePart>,
}

/// The length of the first leg, in decimetres; 0 where there is none.
pub fn first_length(legs: &[Leg]) -> u64
    ensures { result ≡ first_length legs.now }
{
    match legs.first() {
        Some(leg) => leg.length,
        None => 0,
    }
}

/// The object of a matching: its cursor, its location, its legs, the part that is drawn, its points,
/// its joined route, where shapes are asked for its shape, and where it lies if it is a point along a
/// line, and its total.
impl ToJson<ShownMap<'_>> for ShownMatching<'_> {
    ghost value = { λ on shown. drawn_object (map_shown on) shown.part (shown_entry shown) };

    fn send<S: Serializer>(&self, on: &ShownMap<'_>, out: &mut S) -> Result<(), S::Error> {
        let ShownMatching {
            key,
            matched,
            route,
            location,
            part,
        } = *self;
        let cursor = Cursor::write(key, None);
        let part = word_drawn(part);
        let length = first_length(&matched.legs);
        let spot = on.spots_if_asked(length, route, location);
        let Ok(shape) = on.shape_if_asked(route, location) else {
            return Err(out.custom("no memory"));
        };
        match location {
            Located::Line { outer, inner } => send_object!(on, out, {
                "cursor": cursor,
                "inner": *inner,
                "legs": matched.legs,
                "outer": *outer,
                "part"?: part,
                "points": matched.candidates,
                "route": route,
                "shape"?: shape,
                "spot"?: spot,
                "total": key.total,
            }),
            Located::Point { earliest, latest } => send_object!(on, out, {
                "cursor": cursor,
                "earliest": *earliest,
                "latest": *latest,
                "legs": matched.legs,
                "part"?: part,
                "points": matched.candidates,
                "route": route,
                "shape"?: shape,
                "spot"?: spot,
                "total": key.total,
            }),
        }
    }
}

/// The object of the matching.
impl ToJson<ShownMap<'_>> for Entry<'_> {
    ghost value = { λ on entry. entry_object (map_shown on) (entry_of entry) };

    fn send<S: Serializer>(&self, on: &ShownMap<'_>, out: &mut S) -> Result<(), S::Error> {
        let shown = ShownMatching {
            key: self.key,
            matched: self.matched,
            route: &self.route,
            location: &self.location,
            part: None,
        };
        shown.send(on, out)
    }
}
