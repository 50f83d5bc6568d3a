//! The location type, from the status byte.

ghost use Rattle.std.specs.Prelude.{MatchResult};
ghost use Rattle.olr_binary.specs.Layout.{status_of};
ghost use Rattle.olr_binary.specs.Refusal.{RefusesBytes};
ghost use Rattle.olr_binary.specs.Stages.{HasType, NoneBefore};

use crate::bits::bits;
use crate::refusal::{Kind, Refused};

/// The types of location that are read.
#[derive(Clone, Copy)]
pub(crate) enum LocationType {
    Line,
    PointAlong,
}

/// The version of the format that is read.
const VERSION: u8 = 3;

/// The location type of the bytes by the status byte, or their first refusal of numbers 3 to 6.
pub(crate) fn type_of(bytes: &[u8]) -> Result<LocationType, Refused>
    ensures { MatchResult result
        (λ location. HasType (status_of bytes.now) location × NoneBefore bytes.now 7)
        (RefusesBytes bytes.now) }
{
    let Some(&status) = bytes.first() else {
        return Err(Refused::Empty);
    };
    let version = bits(status, 0, 3);
    if version != VERSION {
        return Err(Refused::BadVersion(version));
    }
    let is_area = bits(status, 6, 1) + bits(status, 4, 1) > 0;
    let is_point = bits(status, 5, 1) == 1;
    let has_attributes = bits(status, 3, 1) == 1;
    if is_area || !is_point && !has_attributes {
        return Err(Refused::OtherKind(Kind::Area));
    }
    if !has_attributes {
        return Err(Refused::OtherKind(Kind::GeoCoordinate));
    }
    if !is_point {
        return Ok(LocationType::Line);
    }
    match bytes.len() {
        20 | 21 => Err(Refused::PoiWithAccess),
        _ => Ok(LocationType::PointAlong),
    }
}
