//! The candidates of the points of a reference, with what speaks for each of them.

ghost use Rattle.std.specs.Prelude.{◌≡◌, ◌++◌, ◌<◌, codes, length, string_bytes, IfOk, OnOk};
ghost use Rattle.serde_json.specs.Data.{member, no_members, object};
ghost use Rattle.olr_binary.specs.Reference.{points_of};
ghost use Rattle.olr_candidates.specs.Points.{AreLists, IsListOf, lists_of};
ghost use Rattle.olr_report.specs.ShownMap.{map_shown};
ghost use Rattle.olr_text.specs.JsonValues.{IsJsonLine, array_of};
ghost use Rattle.olr_detail.specs.Json.{candidate_object, listing_object};
ghost use Rattle.olr_detail.specs.Listing.{AreDetailsAt, AreListsInDetail, details_of};
ghost use Rattle.olr_detail.specs.Text.{candidate_row, count_row, listing_text, point_listing};

use crate::candidate_detail::{CandidateDetail, detail_of_candidate};
use crate::text::push_candidate;
use arrayvec::ArrayVec;
use olr_base::NoMemory;
use olr_candidates::{Candidate, MAX_CANDIDATES, ReferenceOnMap};
use olr_report::{OnMap, ShownMap};
use olr_road::Map;
use olr_text::{Decimal, ToJson, ToText, push_texts, send_object, to_json_line};
use serde::Serializer;
use std::alloc::Global;
use std::fmt::Write;

/// The candidates of a point, by rank, with what speaks for each of them.
#[derive(Debug, Drop)]
pub struct PointDetails {
    /// The candidates.
    pub candidates: Vec<CandidateDetail>,
}

/// The candidates are listed by rank, on a map.
#[derive(Clone, Copy)]
struct ListedOn<'a> {
    on: OnMap<'a>,
}

/// The row of a candidate, by its rank from 1.
impl ToText<ListedOn<'_>> for CandidateDetail {
    ghost text = { λ on. candidate_row on.on.map.now };

    fn push(&self, on: &ListedOn<'_>, rank: usize, out: &mut String) -> Result<(), NoMemory> {
        write!(out, "{}", Decimal(rank))?;
        push_candidate(out, &on.on, self)?;
        Ok(())
    }
}

/// Adds the row of a point: how many candidates it has.
fn push_count(text: &mut String, number: usize, count: usize) -> Result<(), NoMemory>
    ensures { OnOk result (string_bytes text.new
        ≡ string_bytes text.old ++ count_row number count) }
{
    let (number, count) = (Decimal(number), Decimal(count));
    write!(text, "point {number} candidates {count}\n")?;
    Ok(())
}

/// The rows of a point: how many candidates it has, and each of them.
impl ToText<ListedOn<'_>> for PointDetails {
    ghost text = { λ on number point. point_listing on.on.map.now number point.candidates.items };

    fn push(&self, on: &ListedOn<'_>, number: usize, out: &mut String) -> Result<(), NoMemory> {
        push_count(out, number, self.candidates.len())?;
        push_texts(&self.candidates, on, out)?;
        Ok(())
    }
}

/// The array of the candidates of a point.
impl ToJson<ShownMap<'_>> for PointDetails {
    ghost value = { λ on point. array_of (candidate_object (map_shown on)) point.candidates.items };

    fn send<S: Serializer>(&self, on: &ShownMap<'_>, out: &mut S) -> Result<(), S::Error> {
        self.candidates.send(on, out)
    }
}

/// The candidates of each point, by rank.
#[derive(Clone, Copy)]
struct DetailedListing<'a> {
    points: &'a [PointDetails],
}

/// The object of the candidates of each point.
impl ToJson<ShownMap<'_>> for DetailedListing<'_> {
    ghost value = { λ on listing. object (member (codes "points")
        (array_of (λ point. array_of (candidate_object (map_shown on)) point.candidates.items)
        listing.points.now)
        no_members) };

    fn send<S: Serializer>(&self, on: &ShownMap<'_>, out: &mut S) -> Result<(), S::Error> {
        send_object!(on, out, { "points": self.points })
    }
}

/// What speaks for each of the candidates of a point.
fn details_at(
    alloc: Global,
    on: &ReferenceOnMap<'_>,
    index: usize,
    candidates: &[Candidate],
) -> Result<Vec<CandidateDetail>, NoMemory>
    requires index { index < length (points_of on.now.reference.now) }
    requires list { IsListOf on.now.tolerances on.now.reference.now on.now.map.now.lines index
        candidates.now }
    ensures { IfOk result (λ details. AreDetailsAt on.now.tolerances on.now.reference.now
        on.now.map.now.lines index candidates.now details.items) }
{
    let mut details = Vec::with_capacity(alloc, candidates.len())?;
    for candidate in candidates {
        details.push(detail_of_candidate(on, index, candidate))?;
    }
    Ok(details)
}

/// What speaks for each of the candidates of each point: these lists have them, point by point.
///
/// # Errors
///
/// [`NoMemory`] where the allocator refused memory.
pub fn listing_details(
    alloc: Global,
    on: &ReferenceOnMap<'_>,
    lists: &[ArrayVec<Candidate, MAX_CANDIDATES>],
) -> Result<Vec<PointDetails>, NoMemory>
    requires { AreLists on.now.tolerances on.now.reference.now on.now.map.now.lines
        (lists_of lists.now) }
    ensures { IfOk result (λ details. AreListsInDetail on.now.tolerances on.now.reference.now
        on.now.map.now.lines (lists_of lists.now) (details_of details.items)) }
{
    let mut details = Vec::with_capacity(alloc, lists.len())?;
    for (index, list) in lists.iter().enumerate() {
        let candidates = details_at(alloc, on, index, list)?;
        details.push(PointDetails { candidates })?;
    }
    Ok(details)
}

/// The text of the candidates of each point, with what speaks for each: for each point a row with
/// their number, and a row for each of them.
///
/// # Errors
///
/// [`NoMemory`] where the allocator refused memory.
pub fn listing_text(alloc: Global, map: &Map, details: &[PointDetails]) -> Result<String, NoMemory>
    ensures { IfOk result (λ text.
        string_bytes text ≡ listing_text map.now (details_of details.now)) }
{
    let mut text = String::new(alloc);
    push_texts(details, &ListedOn { on: OnMap { map } }, &mut text)?;
    Ok(text)
}

/// The JSON of the candidates of each point, with what speaks for each: one compact object and a
/// line feed. It has `points`, an array with the candidates of each point, by rank. Where shapes are
/// asked for, each has its `spot`.
///
/// # Errors
///
/// [`NoMemory`] where the allocator refused memory.
pub fn listing_json(on: &ShownMap<'_>, details: &[PointDetails]) -> Result<String, NoMemory>
    ensures { IfOk result (λ text.
        IsJsonLine (listing_object (map_shown on.now) (details_of details.now))
        (string_bytes text)) }
{
    let text = to_json_line(on.alloc, on, &DetailedListing { points: details })?;
    Ok(text)
}
