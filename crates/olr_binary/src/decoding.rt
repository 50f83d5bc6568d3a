//! From a text to a reference, or to its first refusal.

ghost use Rattle.std.specs.Prelude.{◌≡◌, ◌+◌, ◌<◌, length, slice_index, Result, IfOk};
ghost use Rattle.olr_binary.specs.declared.reference.Reference.{Reference};
ghost use Rattle.olr_binary.specs.declared.refusal.Refused.{Refused};
ghost use Rattle.olr_binary.specs.Outcome.{IsBytesOutcome, IsOutcome};
ghost use Rattle.olr_binary.specs.Reference.{IsReference, offset_of};

use crate::attributes::read_points;
use crate::bits::bits;
use crate::layout::count_of;
use crate::reference::Reference;
use crate::refusal::Refused;
use crate::status::{LocationType, type_of};
use crate::text::{MAX_BYTES, MAX_TEXT, bytes_of, trim};

/// The byte at an index, where its flag is set.
fn offset_at(bytes: &[u8], flag: u8, index: usize) -> Option<u8>
    requires { flag ≡ 1 → index < length bytes.now }
    ensures { result ≡ offset_of flag (slice_index bytes.now index) }
{
    if flag == 1 { Some(bytes[index]) } else { None }
}

/// The reference of the bytes, or their first refusal.
fn reference_of(bytes: &[u8]) -> Result<Reference, Refused>
    ensures { IsBytesOutcome bytes.now result }
{
    let location = type_of(bytes)?;
    let count = count_of(bytes, location)?;
    let points = read_points(bytes, count)?;
    let last = bytes[1 + 7 * count];
    let positive_flag = bits(last, 6, 1);
    let positive = offset_at(bytes, positive_flag, 2 + 7 * count);
    match location {
        LocationType::Line => {
            let negative_at = 2 + 7 * count + usize::from(positive_flag);
            Ok(Reference::Line {
                points,
                positive,
                negative: offset_at(bytes, bits(last, 5, 1), negative_at),
            })
        }
        LocationType::PointAlong => Ok(Reference::PointAlong {
            points,
            orientation: bits(bytes[7], 6, 2),
            side: bits(bytes[14], 6, 2),
            positive,
        }),
    }
}

/// The reference of a text, or its first refusal.
fn outcome_of(text: &str) -> Result<Reference, Refused>
    ensures { IsOutcome text.now result }
{
    let text = trim(text.as_bytes());
    if text.len() > MAX_TEXT {
        return Err(Refused::TooLong);
    }
    let mut buffer = [0; MAX_BYTES];
    let Some(bytes) = bytes_of(text, &mut buffer) else {
        return Err(Refused::NotBase64);
    };
    reference_of(bytes)
}

/// Reads a location reference from its text.
///
/// Spaces, tabs, carriage returns and line feeds at both ends of the text are ignored. The rest is
/// standard base64 with padding and zero trailing bits (RFC 4648, section 4). Its bytes are a line
/// or a point along a line in the binary format, version 3, of the OpenLR white paper 1.5. Reserved
/// bits are ignored, and so is the negative flag of a point along a line. The call allocates
/// nothing.
///
/// # Errors
///
/// The first variant of [`Refused`], in the order given there, whose condition holds.
#[tactic(auto, using(crate::proofs::Unique::outcome_is_one, crate::proofs::Unique::outcome_reference))]
pub fn decode(text: &str) -> Result<Reference, Refused>
    // The result is the reference of the text, or its first refusal.
    ensures outcome { IsOutcome text.now result }
    // No other result is.
    ensures only { (other : Result Reference Refused) → IsOutcome text.now other → other ≡ result }
    // A reference has its number of points and its ranges.
    ensures reference { IfOk result IsReference }
{
    outcome_of(text)
}
