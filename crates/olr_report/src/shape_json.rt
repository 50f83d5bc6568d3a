//! The shape of a matching, and its JSON.

ghost use Rattle.std.specs.Prelude.{◌≡◌, IfOk, option_map};
ghost use Rattle.olr_report.specs.Location.{located_value, pieces_if_any};
ghost use Rattle.olr_report.specs.Shapes.{part_shape, place_value, shape_array, shape_if_asked, shape_object, shape_value, spots_if_asked, spots_object, spots_value};
ghost use Rattle.olr_report.specs.Shapes.{points_value};
ghost use Rattle.olr_report.specs.ShownMap.{map_shown};

use crate::locating::Located;
use crate::middle::middle_of;
use crate::shown_map::ShownMap;
use olr_base::{Degrees, NoMemory};
use olr_road::{Map, Place};
use olr_route::Piece;
use olr_shape::{shape_on, spot_on};
use olr_text::{ToJson, send_object};
use serde::Serializer;
use std::alloc::Global;

/// Where a point along a line lies.
#[derive(Clone, Copy, Debug)]
pub struct PointSpots {
    /// The spot of its earliest place.
    pub earliest: Option<Degrees>,
    /// That of its latest place.
    pub latest: Option<Degrees>,
    /// That of the place half way between.
    pub middle: Option<Degrees>,
}

/// The shape of a matching: the spots that its route and its location go through, in microdegrees.
#[derive(Debug, Drop)]
pub enum MatchingShape {
    /// That of a line.
    Line {
        /// The shape of the inner part.
        inner: Option<Vec<Degrees>>,
        /// That of the outer part.
        outer: Option<Vec<Degrees>>,
        /// That of the whole route.
        route: Vec<Degrees>,
    },
    /// That of a point along a line.
    Point {
        /// The shape of the whole route.
        route: Vec<Degrees>,
    },
}

/// The object of the spots.
impl<On> ToJson<On> for PointSpots {
    ghost value = { λ _. spots_value };

    fn send<S: Serializer>(&self, on: &On, out: &mut S) -> Result<(), S::Error> {
        send_object!(on, out, {
            "earliest": self.earliest,
            "latest": self.latest,
            "middle": self.middle,
        })
    }
}

/// The object of the shape.
impl<On> ToJson<On> for MatchingShape {
    ghost value = { λ _. shape_value };

    fn send<S: Serializer>(&self, on: &On, out: &mut S) -> Result<(), S::Error> {
        match self {
            MatchingShape::Line {
                inner,
                outer,
                route,
            } => send_object!(on, out, { "inner": *inner, "outer": *outer, "route": *route }),
            MatchingShape::Point { route } => send_object!(on, out, { "route": *route }),
        }
    }
}

/// The spots of a point along a line at these places, in the middle of which this one is.
fn spots_of(map: &Map, earliest: Place, latest: Place, middle: Option<Place>) -> PointSpots
    ensures { spots_value result ≡ spots_object map.now earliest latest middle }
{
    PointSpots {
        earliest: spot_on(map, earliest),
        latest: spot_on(map, latest),
        middle: match middle {
            Some(middle) => spot_on(map, middle),
            None => None,
        },
    }
}

/// The shape of a part, if there is one.
fn shape_of_part(
    alloc: Global,
    map: &Map,
    part: &Option<Vec<Piece>>,
) -> Result<Option<Vec<Degrees>>, NoMemory>
    ensures { IfOk result (λ shape. points_value shape
        ≡ part_shape map.now (pieces_if_any part.now)) }
{
    let Some(pieces) = part else {
        return Ok(None);
    };
    let shape = shape_on(alloc, map, pieces)?;
    Ok(Some(shape))
}

/// The shape of a matching with this route and location.
fn shape_of(
    alloc: Global,
    map: &Map,
    route: &[Piece],
    location: &Located,
) -> Result<MatchingShape, NoMemory>
    ensures { IfOk result (λ shape. shape_value shape
        ≡ shape_object map.now route.now (located_value location.now)) }
{
    let drawn = shape_on(alloc, map, route)?;
    match location {
        Located::Line { outer, inner } => Ok(MatchingShape::Line {
            inner: shape_of_part(alloc, map, inner)?,
            outer: shape_of_part(alloc, map, outer)?,
            route: drawn,
        }),
        Located::Point { .. } => Ok(MatchingShape::Point { route: drawn }),
    }
}

impl ShownMap<'_> {
    /// The shape of a matching with this route and location, where shapes are asked for.
    ///
    /// # Errors
    ///
    /// [`NoMemory`] where the allocator refused memory.
    pub fn shape_if_asked(
        &self,
        route: &[Piece],
        location: &Located,
    ) -> Result<Option<MatchingShape>, NoMemory>
        ensures { IfOk result (λ shape. option_map shape_value shape
            ≡ shape_if_asked (map_shown self.now) route.now (located_value location.now)) }
    {
        let Some(_reference) = self.shapes_of else {
            return Ok(None);
        };
        let shape = shape_of(self.alloc, self.map, route, location)?;
        Ok(Some(shape))
    }

    /// Where a point along a line lies, where shapes are asked for. Its location is on this route,
    /// the one leg of which has this length in decimetres. None for a line.
    pub fn spots_if_asked(
        &self,
        length: u64,
        route: &[Piece],
        location: &Located,
    ) -> Option<PointSpots>
        ensures { option_map spots_value result
            ≡ spots_if_asked (map_shown self.now) length route.now (located_value location.now) }
    {
        let reference = self.shapes_of?;
        let Located::Point { earliest, latest } = location else {
            return None;
        };
        let middle = middle_of(reference, length, route);
        Some(spots_of(self.map, *earliest, *latest, middle))
    }
}
