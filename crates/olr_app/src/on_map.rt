//! The output of a request on a map, and a map on which many requests are answered.

ghost use Rattle.std.specs.Prelude.{◌≡◌, IfErr, IfOk, Ok, OnOk, string_bytes};
ghost use Rattle.olr_binary.specs.Reference.{IsReference};
ghost use Rattle.olr_app.specs.Accepting.{ReportsRefusal};
ghost use Rattle.olr_app.specs.Answer.{IsAnswerOfMany, IsAnswerOn, IsFaultOfMany, IsReferenceIn};
ghost use Rattle.olr_app.specs.Stages.{IsStageFault};
ghost use Rattle.olr_app.specs.Unbanned.{IsUnbannedFor, IsUnbannedIfMade, IsUnbannedIfMade-prop};

use crate::accepting::{Accepted, accept};
use crate::listing::listing_of;
use crate::matching::matchings_of;
use crate::places::places_listing;
use crate::why::reasons_of;
use olr_base::NoMemory;
use olr_binary::{Reference, show_json, show_text};
use olr_candidates::ReferenceOnMap;
use olr_request::{Fault, Format, Request};
use olr_road::Map;
use olr_why::unbanned_of;
use std::alloc::Global;

/// The text of a reference in a format.
pub(crate) fn printed_reference(
    alloc: Global,
    reference: &Reference,
    format: Format,
) -> Result<String, NoMemory>
    ensures { IfOk result (λ text. IsReferenceIn format reference.now (string_bytes text)) }
{
    match format {
        Format::Text => show_text(alloc, reference),
        Format::Json | Format::GeoJson => show_json(alloc, reference),
    }
}

/// The map without its bans, where a request needs it: where it asks for reasons and the map has
/// bans.
///
/// # Errors
///
/// [`NoMemory`] where the allocator refused memory.
fn unbanned_for(alloc: Global, request: &Request<'_>, map: &Map) -> Result<Option<Map>, NoMemory>
    ensures needed { IfOk result (IsUnbannedFor request.now map.now) }
    ensures only { IfOk result (IsUnbannedIfMade map.now) }
{
    match request {
        Request::Show { .. }
        | Request::Candidates { .. }
        | Request::Match(_)
        | Request::Places(_) => Ok(None),
        Request::Why(_) => unbanned_of(alloc, map),
    }
}

/// A map on which requests are answered. It makes the map without its bans once, when a request
/// first needs it.
#[derive(Drop)]
pub struct MapForRequests<'a> {
    /// The map.
    pub map: &'a Map,
    /// The map without its bans, once it was needed, where the map has bans.
    unbanned: Option<Map>,
    ghost fits: { IsUnbannedIfMade map.now unbanned } by { IsUnbannedIfMade-prop map.now unbanned },
}

impl<'a> MapForRequests<'a> {
    /// A map on which nothing was asked yet.
    pub fn new(map: &'a Map) -> MapForRequests<'a>
        ensures { result.map ≡ map.entry }
    {
        MapForRequests {
            map,
            unbanned: None,
        }
    }

    /// Makes the map without its bans, where a request needs it and it wasn't made yet.
    ///
    /// # Errors
    ///
    /// [`NoMemory`] where the allocator refused memory.
    pub(crate) fn prepare(&mut self, alloc: Global, request: &Request<'_>) -> Result<(), NoMemory>
        ensures map { self.new.map ≡ self.old.map }
        ensures unbanned { OnOk result
            (IsUnbannedFor request.now self.new.map.now self.new.unbanned) }
    {
        if self.unbanned.is_some() {
            return Ok(());
        }
        let unbanned = unbanned_for(alloc, request, self.map)?;
        *self = MapForRequests {
            map: self.map,
            unbanned,
        };
        Ok(())
    }

    /// The whole output of a request that is accepted and that the map was prepared for, with marks
    /// of the inputs in cursors or without. That of [`Request::Show`] is the same on each map.
    ///
    /// # Errors
    ///
    /// For a request that asks for matchings, [`Fault::CursorOfOther`] where the cursor has the mark
    /// of other inputs; for one that asks for places, [`Fault::BadConfidence`] where the file for a
    /// confidence is none; else, but for [`Request::Why`], [`Fault::TooManyCandidates`] with the
    /// first point that has more than 64; else [`Fault::CursorNotHere`] where the cursor isn't that
    /// of a matching; [`Fault::NoMemory`] where the allocator refused memory.
    pub(crate) fn output(
        &self,
        alloc: Global,
        request: &Request<'_>,
        accepted: &Accepted,
        marks: bool,
    ) -> Result<String, Fault>
        requires reference { IsReference accepted.now.reference }
        requires prepared { IsUnbannedFor request.now self.now.map.now self.now.unbanned }
        ensures output { IfOk result (λ output. IsAnswerOn marks request.now accepted.now
            self.now.map.now (Ok (string_bytes output))) }
        ensures fault { IfErr result
            (IsStageFault (IsAnswerOn marks request.now accepted.now self.now.map.now)) }
    {
        let map = self.map;
        let reference = &accepted.reference;
        match request {
            Request::Show { text: _, format } => {
                let output = printed_reference(alloc, reference, *format)?;
                Ok(output)
            }
            Request::Candidates {
                text: _,
                tolerances,
                extras,
                format,
            } => {
                let on = ReferenceOnMap {
                    map,
                    reference,
                    tolerances: *tolerances,
                };
                listing_of(alloc, &on, extras, *format)
            }
            Request::Match(asked) => matchings_of(alloc, map, marks, asked, accepted),
            Request::Places(asked) => places_listing(alloc, map, asked, reference),
            Request::Why(asked) => {
                reasons_of(alloc, map, self.unbanned.as_ref(), asked, reference)
            }
        }
    }

    /// The whole output that answers a request, as [`run`](crate::run) writes it where the files of
    /// the map are those of this one, but that cursors have no mark: a mark names the whole map, and
    /// so takes time in proportion to it.
    ///
    /// # Errors
    ///
    /// The refusal of the reference, or else [`Fault::BadCursor`] where the text of a cursor isn't
    /// that of one, whatever memory does; else, for a request that asks for matchings,
    /// [`Fault::CursorOfOther`] where the cursor has the mark of other inputs; for one that asks for
    /// places, [`Fault::BadConfidence`] where the file for a confidence is none; else, but for
    /// [`Request::Why`], [`Fault::TooManyCandidates`] with the first point that has more than 64;
    /// else [`Fault::CursorNotHere`] where the cursor isn't that of a matching;
    /// [`Fault::NoMemory`] where the allocator refused memory.
    pub fn answer(&mut self, alloc: Global, request: &Request<'_>) -> Result<String, Fault>
        ensures map { self.new.map ≡ self.old.map }
        ensures answer { IfOk result (λ output.
            IsAnswerOfMany self.old.map.now request.now (Ok (string_bytes output))) }
        ensures fault { IfErr result (IsFaultOfMany self.old.map.now request.now) }
        ensures refused { ReportsRefusal request.now result }
    {
        let accepted = accept(request)?;
        self.prepare(alloc, request)?;
        self.output(alloc, request, &accepted, false)
    }
}
