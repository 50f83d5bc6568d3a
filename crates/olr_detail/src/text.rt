//! The rows of a matching and of candidates with what speaks for them.

ghost use Rattle.std.specs.Prelude.{◌≡◌, ◌++◌, OnOk, string_bytes};
ghost use Rattle.olr_detail.specs.Text.{candidate_text, detail_rows, leg_row, leg_text, likely_text, point_row};

use crate::candidate_detail::CandidateDetail;
use crate::cost::LikelyCost;
use crate::leg_detail::LegDetail;
use crate::matching_detail::MatchingDetail;
use olr_base::NoMemory;
use olr_report::{OnMap, shown_id};
use olr_road::Place;
use olr_text::{Decimal, ToText, push_texts, text_if};
use std::fmt::Write;

/// Adds what a row says of a candidate behind its number: its line and position, its penalty and
/// the parts of it.
pub(crate) fn push_candidate(
    text: &mut String,
    on: &OnMap<'_>,
    detail: &CandidateDetail,
) -> Result<(), NoMemory>
    ensures { OnOk result (string_bytes text.new
        ≡ string_bytes text.old ++ candidate_text on.now.map.now detail.now) }
{
    let Place { line, at } = detail.candidate.place;
    let (id, at) = (Decimal(shown_id(on.map, line)), Decimal(at));
    let penalty = Decimal(detail.candidate.penalty);
    write!(text, " line {id} at {at} penalty {penalty}")?;
    let parts = detail.parts;
    let (distance, bearing) = (Decimal(parts.distance), Decimal(parts.bearing));
    write!(text, " = distance {distance} bearing {bearing}")?;
    let (class, form) = (Decimal(parts.class), Decimal(parts.form));
    write!(text, " class {class} form {form}\n")?;
    Ok(())
}

/// The row of the candidate of a point.
impl ToText<OnMap<'_>> for CandidateDetail {
    ghost text = { λ on. point_row on.map.now };

    fn push(&self, on: &OnMap<'_>, number: usize, out: &mut String) -> Result<(), NoMemory> {
        write!(out, "point {}", Decimal(number))?;
        push_candidate(out, on, self)?;
        Ok(())
    }
}

/// Adds what a row says of a leg behind its number: its length, its penalty, the distance interval of
/// its path, and its class limit.
fn push_leg(text: &mut String, detail: &LegDetail) -> Result<(), NoMemory>
    ensures { OnOk result (string_bytes text.new ≡ string_bytes text.old ++ leg_text detail.now) }
{
    let (length, penalty) = (Decimal(detail.length), Decimal(detail.penalty));
    write!(text, " length {length} penalty {penalty}")?;
    let (least, greatest) = (Decimal(detail.least), Decimal(detail.greatest));
    let limit = Decimal(detail.limit);
    write!(text, " of {least} to {greatest} limit {limit}\n")?;
    Ok(())
}

/// The row of a leg.
impl ToText<OnMap<'_>> for LegDetail {
    ghost text = { λ _. leg_row };

    fn push(&self, _: &OnMap<'_>, number: usize, out: &mut String) -> Result<(), NoMemory> {
        write!(out, "leg {}", Decimal(number))?;
        push_leg(out, self)?;
        Ok(())
    }
}

/// Adds the likely cost of a matching to its row, and that it turns back where it does.
///
/// # Errors
///
/// [`NoMemory`] where the allocator refused memory.
pub fn push_likely(text: &mut String, likely: &LikelyCost) -> Result<(), NoMemory>
    ensures { OnOk result (string_bytes text.new
        ≡ string_bytes text.old ++ likely_text likely.now) }
{
    let cost = Decimal(likely.cost);
    let turns_back = text_if(likely.turns_back, " turns back");
    write!(text, " cost {cost}{turns_back}")?;
    Ok(())
}

/// Adds the rows of the points and of the legs of a matching.
///
/// # Errors
///
/// [`NoMemory`] where the allocator refused memory.
pub fn push_detail(
    text: &mut String,
    on: &OnMap<'_>,
    detail: &MatchingDetail,
) -> Result<(), NoMemory>
    ensures { OnOk result (string_bytes text.new
        ≡ string_bytes text.old ++ detail_rows on.now.map.now detail.now) }
{
    push_texts(&detail.points, on, text)?;
    push_texts(&detail.legs, on, text)?;
    Ok(())
}
