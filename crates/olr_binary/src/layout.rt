//! The numbers of points and of offset bytes.

ghost use Rattle.std.specs.Prelude.{◌≡◌, ◌+◌, ◌*◌, ◌<◌, MatchResult, IfSome, IfNone};
ghost use Rattle.std.specs.Bool.{OnTrue, OnFalse};
ghost use Rattle.olr_binary.specs.Layout.{IsLayout, status_of};
ghost use Rattle.olr_binary.specs.Refusal.{RefusesBytes};
ghost use Rattle.olr_binary.specs.Stages.{HasType, HasCount, HasTwoPoints, IsSizeOf, flags_of, NoneBefore};

use crate::bits::bits;
use crate::reference::MAX_POINTS;
use crate::refusal::Refused;
use crate::status::LocationType;

/// The numbers of points and of offset bytes.
#[derive(Clone, Copy)]
struct Layout {
    count: usize,
    offsets: usize,
}

/// Whether a location of this type can have this number of bytes.
#[tactic(auto, using(crate::proofs::Layouts::line_size_from, crate::proofs::Layouts::no_short_line, crate::proofs::Layouts::no_other_line))]
fn is_size(location: LocationType, size: usize) -> bool
    ensures yes { OnTrue result (IsSizeOf location size) }
    ensures no { OnFalse result (IsSizeOf location size → ⊥) }
{
    match location {
        LocationType::Line => size >= 16 && (size - 2) % 7 <= 2,
        LocationType::PointAlong => size == 16 || size == 17,
    }
}

/// The layout of a location of this type and size, or `None` where it cannot have this size.
#[tactic(auto, using(crate::proofs::Layouts::laid_out, crate::proofs::Layouts::long_enough))]
fn layout_of(location: LocationType, size: usize) -> Option<Layout>
    ensures found { IfSome result (λ layout. IsLayout size layout.count layout.offsets
        × HasTwoPoints location layout.count × IsSizeOf location size) }
    ensures none { IfNone result (IsSizeOf location size → ⊥) }
{
    if !is_size(location, size) {
        return None;
    }
    Some(Layout {
        count: (size - 2) / 7,
        offsets: (size - 2) % 7,
    })
}

/// The number of offset bytes by the flags of the last point.
fn flags_of(location: LocationType, attribute: u8) -> usize
    ensures { result ≡ flags_of location attribute }
{
    let positive = usize::from(bits(attribute, 6, 1));
    match location {
        LocationType::Line => positive + usize::from(bits(attribute, 5, 1)),
        LocationType::PointAlong => positive,
    }
}

/// The number of points of a location, or its first refusal of numbers 7 to 9.
pub(crate) fn count_of(bytes: &[u8], location: LocationType) -> Result<usize, Refused>
    requires location { HasType (status_of bytes.now) location }
    requires passes { NoneBefore bytes.now 7 }
    ensures { MatchResult result
        (λ count. HasCount bytes.now location count × NoneBefore bytes.now 10)
        (RefusesBytes bytes.now) }
{
    let Some(Layout { count, offsets }) = layout_of(location, bytes.len()) else {
        return Err(Refused::BadLength(bytes.len()));
    };
    if count > MAX_POINTS {
        return Err(Refused::TooManyPoints(count));
    }
    if offsets != flags_of(location, bytes[1 + 7 * count]) {
        return Err(Refused::OffsetFlags);
    }
    Ok(count)
}
