//! How a matching is drawn on the map, as a feature of GeoJSON.

ghost use Rattle.std.specs.Prelude.{◌≡◌, ◌++◌, IfOk, OnOk, Some, codes, option_and_then, option_map, string_bytes};
ghost use Rattle.serde_json.specs.Read.{max_depth};
ghost use Rattle.olr_geojson.specs.Feature.{feature_text};
ghost use Rattle.olr_geojson.specs.Geometry.{geometry_of};
ghost use Rattle.olr_report.specs.Location.{located_value, pieces_if_any};
ghost use Rattle.olr_shape.specs.Position.{spot_on};
ghost use Rattle.olr_text.specs.JsonValues.{NestsWithin};
ghost use Rattle.olr_detail.specs.Drawing.{geometry_drawn, part_named, part_pieces, pieces_drawn, spot_drawn};
ghost use Rattle.olr_detail.specs.inner.Drawn.{drawn_geometry};

use olr_base::{Degrees, NoMemory};
use olr_binary::Reference;
use olr_geojson::{Geometry, push_feature};
use olr_report::{Located, RoutePart, ShownMap, middle_of};
use olr_road::{Map, Place};
use olr_route::Piece;
use olr_shape::{shape_on, spot_on};
use olr_text::{ToJson, to_json_text};
use std::alloc::Global;

/// How the matchings of a reference are drawn.
#[derive(Clone, Copy)]
pub struct Drawing<'a> {
    /// The map as JSON shows it.
    pub on: ShownMap<'a>,
    /// The reference.
    pub reference: &'a Reference,
    /// The part of the route of a line that is drawn.
    pub part: RoutePart,
}

impl Drawing<'_> {
    /// The part of the route that is drawn and named: none of a point along a line, which is a point.
    pub fn part_named(&self) -> Option<RoutePart>
        ensures { result ≡ part_named self.now.reference.now self.now.part }
    {
        match self.reference {
            Reference::Line { .. } => Some(self.part),
            Reference::PointAlong { .. } => None,
        }
    }
}

/// Where a matching is drawn.
#[derive(Drop)]
enum Drawn {
    /// Nowhere.
    Missing,
    /// At a position.
    Point(Degrees),
    /// Along these positions.
    Line(Vec<Degrees>),
}

impl Drawn {
    /// The geometry.
    fn geometry(&self) -> Geometry<'_>
        ensures { geometry_of result ≡ drawn_geometry self.now }
    {
        match self {
            Drawn::Missing => Geometry::Missing,
            Drawn::Point(spot) => Geometry::Point(*spot),
            Drawn::Line(spots) => Geometry::LineString(spots),
        }
    }
}

/// The pieces of a part of the route of a line.
fn part_pieces<'a>(
    part: RoutePart,
    route: &'a [Piece],
    outer: &'a Option<Vec<Piece>>,
    inner: &'a Option<Vec<Piece>>,
) -> Option<&'a [Piece]>
    ensures { option_map (λ pieces. pieces.now) result
        ≡ part_pieces part route.now (pieces_if_any outer.now) (pieces_if_any inner.now) }
{
    let whole = match part {
        RoutePart::Route => return Some(route),
        RoutePart::Outer => outer,
        RoutePart::Inner => inner,
    };
    let Some(pieces) = whole else {
        return None;
    };
    Some(pieces)
}

/// Draws pieces along their shape.
fn pieces_drawn(alloc: Global, map: &Map, pieces: Option<&[Piece]>) -> Result<Drawn, NoMemory>
    ensures { IfOk result (λ drawn. drawn_geometry drawn
        ≡ pieces_drawn map.now (option_map (λ pieces. pieces.now) pieces.entry)) }
{
    let Some(pieces) = pieces else {
        return Ok(Drawn::Missing);
    };
    let shape = shape_on(alloc, map, pieces)?;
    Ok(Drawn::Line(shape))
}

/// Draws a place at its spot.
fn place_drawn(map: &Map, place: Option<Place>) -> Drawn
    ensures { drawn_geometry result ≡ spot_drawn (option_and_then (spot_on map.now) place) }
{
    let Some(place) = place else {
        return Drawn::Missing;
    };
    match spot_on(map, place) {
        Some(spot) => Drawn::Point(spot),
        None => Drawn::Missing,
    }
}

/// Draws a matching with this route and location, the first leg of which has this length in
/// decimetres.
fn matching_drawn(
    drawing: &Drawing<'_>,
    length: u64,
    route: &[Piece],
    location: &Located,
) -> Result<Drawn, NoMemory>
    ensures { IfOk result (λ drawn. drawn_geometry drawn
        ≡ geometry_drawn drawing.now.on.map.now drawing.now.reference.now drawing.now.part length
        route.now (located_value location.now)) }
{
    let map = drawing.on.map;
    match location {
        Located::Line { outer, inner } => {
            let pieces = part_pieces(drawing.part, route, outer, inner);
            pieces_drawn(drawing.on.alloc, map, pieces)
        }
        Located::Point { .. } => Ok(place_drawn(map, middle_of(drawing.reference, length, route))),
    }
}

/// Adds a comma and the feature of a matching with this route and location, the first leg of which
/// has this length in decimetres, with these properties.
///
/// # Errors
///
/// [`NoMemory`] where the allocator refused memory.
pub fn push_drawn<'a, T: ToJson<ShownMap<'a>>>(
    drawing: &Drawing<'a>,
    length: u64,
    route: &[Piece],
    location: &Located,
    properties: &T,
    out: &mut String,
) -> Result<(), NoMemory>
    requires { NestsWithin max_depth (T.value drawing.now.on properties.now) }
    ensures { OnOk result (string_bytes out.new ≡ string_bytes out.old ++ codes ","
        ++ feature_text (record {
          geometry = geometry_drawn drawing.now.on.map.now drawing.now.reference.now
              drawing.now.part length route.now (located_value location.now);
          properties = T.value drawing.now.on properties.now;
        })) }
{
    let drawn = matching_drawn(drawing, length, route, location)?;
    let text = to_json_text(drawing.on.alloc, &drawing.on, properties)?;
    push_feature(out, &drawn.geometry(), &text)
}
