//! Why a reference has no matching on a map, or that it has one, in a format.

ghost use Rattle.std.specs.Prelude.{◌≡◌, [], IfErr, IfOk, MatchOption, Ok, string_bytes};
ghost use Rattle.olr_binary.specs.Reference.{IsReference};
ghost use Rattle.olr_why.specs.Reasons.{why_value};
ghost use Rattle.olr_why.specs.Remedies.{IsUnbanned};
ghost use Rattle.olr_app.specs.Why.{AreReasons, IsWhyIn};
ghost use Rattle.olr_app.specs.Stages.{IsStageFault};

use olr_base::NoMemory;
use olr_binary::Reference;
use olr_candidates::ReferenceOnMap;
use olr_request::{Fault, Format, WhyRequest};
use olr_road::Map;
use olr_why::{Why, why_json, why_of, why_text};
use std::alloc::Global;

/// Reasons in a format, with the spots of lines or without.
fn printed_why(
    alloc: Global,
    map: &Map,
    why: &Why,
    format: Format,
    spots: bool,
) -> Result<String, NoMemory>
    ensures { IfOk result (λ text.
        IsWhyIn format spots map.now (why_value why.now) (string_bytes text)) }
{
    match format {
        Format::Text => why_text(alloc, map, why),
        Format::Json | Format::GeoJson => why_json(alloc, map, why, spots),
    }
}

/// What a request for the reasons of a reference asks for, on a map. The cursors in it have no mark
/// of the inputs. `unbanned` is the map without its bans, where the map has bans: that of
/// [`unbanned_of`].
///
/// # Errors
///
/// [`Fault::NoMemory`] where the allocator refused memory, and no other.
pub(crate) fn reasons_of(
    alloc: Global,
    map: &Map,
    unbanned: Option<&Map>,
    asked: &WhyRequest<'_>,
    reference: &Reference,
) -> Result<String, Fault>
    requires reference { IsReference reference.now }
    requires unbanned { MatchOption unbanned (map.now.bans ≡ [])
        (λ other. IsUnbanned map.now other.now) }
    ensures reasons { IfOk result (λ output. AreReasons asked.now.format asked.now.shape
        asked.now.tolerances asked.now.nearest reference.now map.now (Ok (string_bytes output))) }
    ensures fault { IfErr result (IsStageFault (AreReasons asked.now.format asked.now.shape
        asked.now.tolerances asked.now.nearest reference.now map.now)) }
{
    let WhyRequest {
        tolerances,
        nearest,
        shape,
        format,
        ..
    } = asked;
    let on = ReferenceOnMap {
        map,
        reference,
        tolerances: *tolerances,
    };
    let why = why_of(alloc, &on, unbanned, *nearest)?;
    let output = printed_why(alloc, map, &why, *format, *shape)?;
    Ok(output)
}
