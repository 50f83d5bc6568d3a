//! The text of places as they are shown.

ghost use Rattle.std.specs.Prelude.{◌≡◌, ◌++◌, IfOk, OnOk, string_bytes};
ghost use Rattle.olr_likely.specs.Text.{cost_text, covered_rows, detail_text, head_text, place_rows, rank_text, shown_text, summary_rows};
ghost use Rattle.olr_report.specs.Location.{located_value};

use crate::showing::{RankAndCost, ShownPlace, ShownPlaces};
use olr_base::NoMemory;
use olr_detail::{MatchingDetail, push_detail, push_likely};
use olr_keys::Cursor;
use olr_places::Opener;
use olr_report::{Located, OnMap, push_end, push_part, push_place};
use olr_road::Map;
use olr_text::{Decimal, NumberOr, ToText, push_texts};
use std::alloc::Global;
use std::fmt::Write;

/// Adds what the first row of a place says of its opener.
fn push_head(text: &mut String, number: usize, opener: &Opener) -> Result<(), NoMemory>
    ensures { OnOk result (string_bytes text.new
        ≡ string_bytes text.old ++ head_text number opener.now) }
{
    let (number, cursor) = (Decimal(number), Cursor::write(&opener.key, None));
    let (gap, members) = (Decimal(opener.gap), Decimal(opener.members));
    write!(text, "place {number} matching {cursor}")?;
    write!(text, " gap {gap} members {members}")?;
    Ok(())
}

/// Adds the rank of a place, in the likely order.
fn push_rank(text: &mut String, likely: &Option<RankAndCost>) -> Result<(), NoMemory>
    ensures { OnOk result (string_bytes text.new
        ≡ string_bytes text.old ++ rank_text likely.now) }
{
    if let Some(likely) = likely {
        write!(text, " rank {}", Decimal(likely.rank))?;
    }
    Ok(())
}

/// Adds the cost of a place, in the likely order or in detail.
fn push_cost(
    text: &mut String,
    likely: &Option<RankAndCost>,
    detail: &Option<MatchingDetail>,
) -> Result<(), NoMemory>
    ensures { OnOk result (string_bytes text.new
        ≡ string_bytes text.old ++ cost_text likely.now detail.now) }
{
    if let Some(detail) = detail {
        push_likely(text, &detail.likely)?;
        return Ok(());
    }
    if let Some(likely) = likely {
        write!(text, " cost {}", Decimal(likely.cost))?;
    }
    Ok(())
}

/// Adds the rows of points and legs, in detail.
fn push_points_and_legs(
    text: &mut String,
    on: &OnMap<'_>,
    detail: &Option<MatchingDetail>,
) -> Result<(), NoMemory>
    ensures { OnOk result (string_bytes text.new
        ≡ string_bytes text.old ++ detail_text on.now.map.now detail.now) }
{
    if let Some(detail) = detail {
        push_detail(text, on, detail)?;
    }
    Ok(())
}

/// Adds the rows of the stretch of road that a matching covers.
fn push_covered(text: &mut String, on: &OnMap<'_>, location: &Located) -> Result<(), NoMemory>
    ensures { OnOk result (string_bytes text.new
        ≡ string_bytes text.old ++ covered_rows on.now.map.now (located_value location.now)) }
{
    match location {
        Located::Line { outer, .. } => {
            push_part(text, on, "outer", outer)?;
        }
        Located::Point { earliest, latest } => {
            push_place(text, on, "earliest", earliest)?;
            push_place(text, on, "latest", latest)?;
        }
    }
    Ok(())
}

/// The rows of a place: the first one, its points and legs in detail, and the stretch of road.
impl ToText<OnMap<'_>> for ShownPlace {
    ghost text = { λ on. place_rows on.map.now };

    fn push(&self, on: &OnMap<'_>, number: usize, out: &mut String) -> Result<(), NoMemory> {
        push_head(out, number, &self.opener)?;
        push_rank(out, &self.likely)?;
        push_cost(out, &self.likely, &self.detail)?;
        out.push_str("\n")?;
        push_points_and_legs(out, on, &self.detail)?;
        push_covered(out, on, self.opener.covered.location())?;
        Ok(())
    }
}

/// Adds how many matchings were looked at, the margin and the verdict, a row each.
fn push_summary(text: &mut String, shown: &ShownPlaces) -> Result<(), NoMemory>
    ensures { OnOk result (string_bytes text.new ≡ string_bytes text.old
        ++ summary_rows shown.now.looked shown.now.margin shown.now.verdict) }
{
    let (looked, margin) = (Decimal(shown.looked), NumberOr(shown.margin, "none"));
    let word = shown.verdict.word();
    write!(text, "looked {looked}\nmargin {margin}\nverdict {word}\n")?;
    Ok(())
}

/// The text of places: for each its number, the cursor of its opener, the gap, its members and the
/// stretch of road; then how many matchings were looked at, the margin, the verdict, and a last row,
/// `more` and the cursor after which looking would go on, or `end`. In the likely order a place has
/// its rank and its cost too; in detail its cost, whether its opener turns back, and rows of the
/// points and of the legs. Lines are shown by their ids, positions in decimetres.
///
/// # Errors
///
/// [`NoMemory`] where the allocator refused memory.
pub fn shown_text(alloc: Global, map: &Map, shown: &ShownPlaces) -> Result<String, NoMemory>
    ensures { IfOk result (λ text. string_bytes text ≡ shown_text map.now shown.now) }
{
    let mut text = String::new(alloc);
    push_texts(&shown.places, &OnMap { map }, &mut text)?;
    push_summary(&mut text, shown)?;
    push_end(&mut text, shown.next.as_ref(), None)?;
    Ok(text)
}
