//! The text of a position: its longitude and its latitude in degrees.

ghost use Rattle.std.specs.Prelude.{◌≡◌, ◌++◌, ◌<◌, ◌≤◌, OnOk, string_bytes};
ghost use Rattle.olr_base.specs.Coordinates.{coordinates_of};
ghost use Rattle.olr_geojson.specs.Coordinate.{coordinate_text, decimal_text, decimals_text, degrees_text, position_text, rest_text};

use itoa::Buffer;
use olr_base::{Degrees, NoMemory};

/// Adds the decimal of a unit, where it is written. The rest of a degree and the unit are in
/// microdegrees.
fn push_decimal(rest: u32, unit: u32, out: &mut String) -> Result<(), NoMemory>
    requires positive { 0 < unit }
    requires at_most { unit ≤ 100000 }
    ensures { OnOk result (string_bytes out.new ≡ string_bytes out.old ++ decimal_text rest unit) }
{
    if rest % (10 * unit) > 0 {
        out.push(char::from(b'0' + (rest / unit % 10) as u8))?;
    }
    Ok(())
}

/// Adds the decimals of the rest of a degree, in microdegrees.
#[tactic(auto, using(crate::proofs::Decimals::decimals_are))]
fn push_decimals(rest: u32, out: &mut String) -> Result<(), NoMemory>
    ensures { OnOk result (string_bytes out.new ≡ string_bytes out.old ++ decimals_text rest) }
{
    push_decimal(rest, 100_000, out)?;
    push_decimal(rest, 10_000, out)?;
    push_decimal(rest, 1_000, out)?;
    push_decimal(rest, 100, out)?;
    push_decimal(rest, 10, out)?;
    push_decimal(rest, 1, out)?;
    Ok(())
}

/// Adds a point and the decimals of the rest of a degree, in microdegrees, where there is one.
fn push_rest(rest: u32, out: &mut String) -> Result<(), NoMemory>
    ensures { OnOk result (string_bytes out.new ≡ string_bytes out.old ++ rest_text rest) }
{
    if rest > 0 {
        out.push('.')?;
        push_decimals(rest, out)?;
    }
    Ok(())
}

/// Adds microdegrees that are at least 0, as degrees.
fn push_degrees(microdegrees: u32, out: &mut String) -> Result<(), NoMemory>
    ensures { OnOk result
        (string_bytes out.new ≡ string_bytes out.old ++ degrees_text microdegrees) }
{
    out.push_str(Buffer::new().format(microdegrees / 1_000_000))?;
    push_rest(microdegrees % 1_000_000, out)
}

/// Adds a coordinate in microdegrees, as degrees.
#[tactic(auto, unfolding(crate::specs::Coordinate::coordinate_text))]
fn push_coordinate(coordinate: i32, out: &mut String) -> Result<(), NoMemory>
    ensures { OnOk result
        (string_bytes out.new ≡ string_bytes out.old ++ coordinate_text coordinate) }
{
    if coordinate < 0 {
        out.push('-')?;
    }
    push_degrees(coordinate.unsigned_abs(), out)
}

/// Adds a position.
pub(crate) fn push_position(position: Degrees, out: &mut String) -> Result<(), NoMemory>
    ensures { OnOk result
        (string_bytes out.new ≡ string_bytes out.old ++ position_text (coordinates_of position)) }
{
    out.push('[')?;
    push_coordinate(position.lon, out)?;
    out.push(',')?;
    push_coordinate(position.lat, out)?;
    out.push(']')?;
    Ok(())
}

#[cfg(test)]
mod tests {
    use super::*;
    use std::test::Fail;

    /// Microdegrees, and the text of the degrees.
    const COORDINATES: [(i32, &str); 10] = [
        (7_416_942, "7.416942"),
        (49_871_280, "49.87128"),
        (10_000_000, "10"),
        (0, "0"),
        (100_000, "0.1"),
        (1, "0.000001"),
        (-13, "-0.000013"),
        (-1_500_000, "-1.5"),
        (-90_000_000, "-90"),
        (180_000_000, "180"),
    ];

    #[test]
    fn coordinates(rt: HostRuntime) -> Result<(), Fail> {
        for (coordinate, wanted) in COORDINATES {
            let mut text = String::new(rt.alloc());
            push_coordinate(coordinate, &mut text)?;
            assert_eq!(rt; text.as_str(), wanted);
        }
        Ok(())
    }
}
