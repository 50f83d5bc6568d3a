//! The text of a feature.

ghost use Rattle.std.specs.Prelude.{◌≡◌, ◌++◌, OnOk, codes, string_bytes};
ghost use Rattle.serde_json.specs.Data.{Data};
ghost use Rattle.serde_json.specs.Written.{compact_text};
ghost use Rattle.olr_geojson.specs.Feature.{feature_text};
ghost use Rattle.olr_geojson.specs.Geometry.{geometry_of};

use crate::geometry::{Geometry, push_geometry};
use olr_base::NoMemory;

/// Adds a comma and a feature: its geometry, and its properties as their compact JSON text.
///
/// # Errors
///
/// [`NoMemory`] where the allocator refused memory.
pub fn push_feature(
    out: &mut String,
    geometry: &Geometry<'_>,
    properties: &str,
) -> Result<(), NoMemory>
    ensures { OnOk result ((value : Data) → properties.now ≡ compact_text value
        → string_bytes out.new ≡ string_bytes out.old ++ codes ","
        ++ feature_text (record { geometry = geometry_of geometry.now; properties = value })) }
{
    out.push(',')?;
    out.push_str("{\"geometry\":")?;
    push_geometry(geometry, out)?;
    out.push_str(",\"properties\":")?;
    out.push_str(properties)?;
    out.push_str(",\"type\":\"Feature\"}")?;
    Ok(())
}
