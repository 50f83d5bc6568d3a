//! The text of the candidates of a reference's points, in a format, in detail or not.

ghost use Rattle.std.specs.Prelude.{◌≡◌, IfErr, IfOk, Ok, string_bytes};
ghost use Rattle.olr_candidates.specs.Points.{AreLists, lists_of};
ghost use Rattle.olr_text.specs.Texts.{texts_from};
ghost use Rattle.olr_detail.specs.Listing.{details_of};
ghost use Rattle.olr_report.specs.ShownMap.{map_shown};
ghost use Rattle.olr_app.specs.Listing.{IsListed, IsListingAsAsked, IsListingIn, IsListingTextWith};
ghost use Rattle.olr_app.specs.Listing.{candidate_row, point_listing};
ghost use Rattle.olr_app.specs.Page.{shown_for};
ghost use Rattle.olr_app.specs.Stages.{IsStageFault};

use crate::listing_json::json_of_lists;
use arrayvec::ArrayVec;
use olr_base::NoMemory;
use olr_candidates::{Candidate, MAX_CANDIDATES, ReferenceOnMap, candidates_of_points};
use olr_detail::{
    PointDetails, listing_collection, listing_collection_in_detail, listing_details, listing_json,
    listing_text,
};
use olr_report::{ShownMap, shown_id};
use olr_request::{Extras, Fault, Format};
use olr_road::{Map, Place};
use olr_text::{Decimal, ToText, push_texts};
use std::alloc::Global;
use std::fmt::Write;

/// The points that are listed have their candidates on a map.
#[derive(Clone, Copy)]
struct ListedOn<'a> {
    map: &'a Map,
}

/// The row of a candidate, by its rank from 1.
impl ToText<ListedOn<'_>> for Candidate {
    ghost text = { λ on. candidate_row on.map.now };

    fn push(&self, on: &ListedOn<'_>, rank: usize, out: &mut String) -> Result<(), NoMemory> {
        let Place { line, at } = self.place;
        let (rank, id) = (Decimal(rank), Decimal(shown_id(on.map, line)));
        let (at, penalty) = (Decimal(at), Decimal(self.penalty));
        write!(out, "{rank} line {id} at {at} penalty {penalty}\n")?;
        Ok(())
    }
}

/// The rows of a point: how many candidates it has, and each of them.
impl ToText<ListedOn<'_>> for ArrayVec<Candidate, MAX_CANDIDATES> {
    ghost text = { λ on number list. point_listing on.map.now number list.items };

    fn push(&self, on: &ListedOn<'_>, number: usize, out: &mut String) -> Result<(), NoMemory> {
        let (number, count) = (Decimal(number), Decimal(self.len()));
        write!(out, "point {number} candidates {count}\n")?;
        push_texts(self, on, out)?;
        Ok(())
    }
}

/// The text of the candidates of each point.
fn text_of_lists(
    alloc: Global,
    map: &Map,
    lists: &[ArrayVec<Candidate, MAX_CANDIDATES>],
) -> Result<String, NoMemory>
    ensures { IfOk result (λ text. string_bytes text
        ≡ texts_from (point_listing map.now) 1 (lists_of lists.now)) }
{
    let mut text = String::new(alloc);
    push_texts(lists, &ListedOn { map }, &mut text)?;
    Ok(text)
}

/// The candidates of each point, in a format.
fn printed_lists(
    on: &ShownMap<'_>,
    lists: &[ArrayVec<Candidate, MAX_CANDIDATES>],
    format: Format,
) -> Result<String, NoMemory>
    ensures { IfOk result (λ text.
        IsListingIn format (map_shown on.now) (lists_of lists.now) (string_bytes text)) }
{
    match format {
        Format::Text => text_of_lists(on.alloc, on.map, lists),
        Format::Json => json_of_lists(on, lists),
        Format::GeoJson => listing_collection(on, lists),
    }
}

/// The candidates of each point with what speaks for each of them, in a format.
fn printed_details(
    on: &ShownMap<'_>,
    details: &[PointDetails],
    format: Format,
) -> Result<String, NoMemory>
    ensures { IfOk result (λ text.
        IsListingTextWith format (map_shown on.now) (details_of details.now) (string_bytes text)) }
{
    match format {
        Format::Text => listing_text(on.alloc, on.map, details),
        Format::Json => listing_json(on, details),
        Format::GeoJson => listing_collection_in_detail(on, details),
    }
}

/// The candidates of each point as they are asked for, in a format.
fn lists_asked(
    alloc: Global,
    on: &ReferenceOnMap<'_>,
    lists: &[ArrayVec<Candidate, MAX_CANDIDATES>],
    extras: &Extras,
    format: Format,
) -> Result<String, NoMemory>
    requires { AreLists on.now.tolerances on.now.reference.now on.now.map.now.lines
        (lists_of lists.now) }
    ensures { IfOk result (λ text. IsListingAsAsked extras.now.detail format on.now.tolerances
        on.now.reference.now (shown_for extras.now on.now.map.now on.now.reference.now)
        (lists_of lists.now) (string_bytes text)) }
{
    let shown = ShownMap::new(alloc, on.map, on.reference, extras.shape);
    if extras.detail {
        let details = listing_details(alloc, on, lists)?;
        printed_details(&shown, &details, format)
    } else {
        printed_lists(&shown, lists, format)
    }
}

/// The text of the candidates of each point of a reference, in a format, in detail or not.
///
/// # Errors
///
/// [`Fault::TooManyCandidates`] with the first point that has more than 64; [`Fault::NoMemory`]
/// where the allocator refused memory.
pub(crate) fn listing_of(
    alloc: Global,
    on: &ReferenceOnMap<'_>,
    extras: &Extras,
    format: Format,
) -> Result<String, Fault>
    ensures text { IfOk result (λ text. IsListed extras.now format on.now.tolerances
        on.now.reference.now on.now.map.now (Ok (string_bytes text))) }
    ensures fault { IfErr result (IsStageFault
        (IsListed extras.now format on.now.tolerances on.now.reference.now on.now.map.now)) }
{
    let lists = candidates_of_points(alloc, on.map, on.reference, &on.tolerances)?;
    let text = lists_asked(alloc, on, &lists, extras, format)?;
    Ok(text)
}
