//! The JSON of the candidates of a reference's points.

ghost use Rattle.std.specs.Prelude.{codes, IfOk, OnOk, string_bytes};
ghost use Rattle.serde_json.specs.Data.{Data, member, no_members, object};
ghost use Rattle.olr_text.specs.JsonValues.{IsJsonLine, array_of};
ghost use Rattle.olr_candidates.specs.Points.{lists_of};
ghost use Rattle.olr_text.specs.Sent.{Sends};
ghost use Rattle.olr_report.specs.ShownMap.{map_shown};
ghost use Rattle.olr_app.specs.Listing.{candidates_array, listing_object};

use arrayvec::ArrayVec;
use olr_base::NoMemory;
use olr_candidates::{Candidate, MAX_CANDIDATES};
use olr_report::ShownMap;
use olr_text::{ToJson, send_object, to_json_line};
use serde::Serializer;

/// The candidates of each point, by rank.
#[derive(Clone, Copy)]
struct Listing<'a> {
    points: &'a [ArrayVec<Candidate, MAX_CANDIDATES>],
}

/// The object of the candidates of each point.
impl ToJson<ShownMap<'_>> for Listing<'_> {
    ghost value = { λ on listing. object (member (codes "points")
        (array_of (λ list. candidates_array (map_shown on) list.items) listing.points.now)
        no_members) };

    fn send<S: Serializer>(&self, on: &ShownMap<'_>, out: &mut S) -> Result<(), S::Error> {
        send_object!(on, out, { "points": self.points })
    }
}

/// The JSON of the candidates of each point: one compact object and a line feed. It has `points`,
/// an array with the candidates of each point, by rank. Where shapes are asked for, each has its
/// `spot`.
pub(crate) fn json_of_lists(
    on: &ShownMap<'_>,
    lists: &[ArrayVec<Candidate, MAX_CANDIDATES>],
) -> Result<String, NoMemory>
    ensures { IfOk result (λ text.
        IsJsonLine (listing_object (map_shown on.now) (lists_of lists.now)) (string_bytes text)) }
{
    let text = to_json_line(on.alloc, on, &Listing { points: lists })?;
    Ok(text)
}
