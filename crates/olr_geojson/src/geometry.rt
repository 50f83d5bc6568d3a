//! The text of a geometry.

ghost use Rattle.std.specs.Prelude.{◌≡◌, ◌++◌, OnOk, map, string_bytes};
ghost use Rattle.olr_base.specs.Coordinates.{coordinates_of};
ghost use Rattle.olr_geojson.specs.Coordinate.{position_text};
ghost use Rattle.olr_geojson.specs.Geometry.{geometry_of, geometry_text, line_string, point};
ghost use Rattle.olr_geojson.specs.Joined.{behind_commas, joined};

use crate::coordinate::push_position;
use olr_base::{Degrees, NoMemory};

/// Where a feature lies.
#[derive(Clone, Copy, Debug)]
pub enum Geometry<'a> {
    /// Nowhere: the feature has no geometry.
    Missing,
    /// At a position.
    Point(Degrees),
    /// Along a line through these positions, in order.
    LineString(&'a [Degrees]),
}

/// Adds positions, each behind a comma.
fn push_behind_commas(positions: &[Degrees], out: &mut String) -> Result<(), NoMemory>
    ensures { OnOk result (string_bytes out.new ≡ string_bytes out.old
        ++ behind_commas position_text (map coordinates_of positions.now)) }
{
    for position in positions {
        out.push(',')?;
        push_position(*position, out)?;
    }
    Ok(())
}

/// Adds positions, joined by commas.
fn push_joined(positions: &[Degrees], out: &mut String) -> Result<(), NoMemory>
    ensures { OnOk result (string_bytes out.new ≡ string_bytes out.old
        ++ joined position_text (map coordinates_of positions.now)) }
{
    if let Some((first, others)) = positions.split_first() {
        push_position(*first, out)?;
        push_behind_commas(others, out)?;
    }
    Ok(())
}

/// Adds a point.
fn push_point(position: Degrees, out: &mut String) -> Result<(), NoMemory>
    ensures { OnOk result (string_bytes out.new ≡ string_bytes out.old
        ++ geometry_text (point (coordinates_of position))) }
{
    out.push_str("{\"coordinates\":")?;
    push_position(position, out)?;
    out.push_str(",\"type\":\"Point\"}")?;
    Ok(())
}

/// Adds a line.
fn push_line_string(positions: &[Degrees], out: &mut String) -> Result<(), NoMemory>
    ensures { OnOk result (string_bytes out.new ≡ string_bytes out.old
        ++ geometry_text (line_string (map coordinates_of positions.now))) }
{
    out.push_str("{\"coordinates\":[")?;
    push_joined(positions, out)?;
    out.push_str("],\"type\":\"LineString\"}")?;
    Ok(())
}

/// Adds a geometry.
pub(crate) fn push_geometry(geometry: &Geometry<'_>, out: &mut String) -> Result<(), NoMemory>
    ensures { OnOk result
        (string_bytes out.new ≡ string_bytes out.old ++ geometry_text (geometry_of geometry.now)) }
{
    match geometry {
        Geometry::Missing => out.push_str("null")?,
        Geometry::Point(position) => push_point(*position, out)?,
        Geometry::LineString(positions) => push_line_string(positions, out)?,
    }
    Ok(())
}
