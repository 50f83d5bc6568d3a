//! Rows of the canonical text of a map, added to a growing text.

ghost use Rattle.std.specs.Prelude.{◌≡◌, ◌++◌, map, string_bytes, OnOk};
ghost use Rattle.olr_base.specs.Coordinates.{coordinates_of};
ghost use Rattle.olr_road.specs.RoadMap.{node_of};
ghost use Rattle.olr_road.specs.Canonical.{place_text, shape_text, row_text, heading, node_fields};

use crate::node::Node;
use olr_base::{Degrees, NoMemory};
use olr_text::Decimal;
use std::fmt::Write;

/// Adds the heading of a part: its name, and how many rows follow.
pub(crate) fn push_heading(text: &mut String, name: &str, count: u32) -> Result<(), NoMemory>
    ensures { OnOk result (string_bytes text.new
        ≡ string_bytes text.old ++ row_text (heading name.now count)) }
{
    write!(text, "{name} {}\n", Decimal(count))?;
    Ok(())
}

/// Adds the row of a node.
pub(crate) fn push_node(text: &mut String, node: Node) -> Result<(), NoMemory>
    ensures { OnOk result (string_bytes text.new
        ≡ string_bytes text.old ++ row_text (node_fields (node_of node))) }
{
    let Node {
        id,
        place: Degrees { lon, lat },
    } = node;
    let (id, lon, lat) = (Decimal(id), Decimal(lon), Decimal(lat));
    write!(text, "{id},{lon},{lat}\n")?;
    Ok(())
}

/// Adds a place: its longitude and its latitude in microdegrees.
fn push_place(text: &mut String, place: Degrees) -> Result<(), NoMemory>
    ensures { OnOk result (string_bytes text.new
        ≡ string_bytes text.old ++ place_text (coordinates_of place)) }
{
    let Degrees { lon, lat } = place;
    write!(text, "{} {}", Decimal(lon), Decimal(lat))?;
    Ok(())
}

/// Adds places, a semicolon between each two neighbours.
pub(crate) fn push_shape(text: &mut String, places: &[Degrees]) -> Result<(), NoMemory>
    ensures { OnOk result (string_bytes text.new
        ≡ string_bytes text.old ++ shape_text (map coordinates_of places.now)) }
{
    let Some((first, others)) = places.split_first() else {
        return Ok(());
    };
    push_place(text, *first)?;
    for &place in others {
        text.push_str(";")?;
        push_place(text, place)?;
    }
    Ok(())
}
