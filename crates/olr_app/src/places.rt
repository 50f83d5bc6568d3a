//! The places of a reference on a map, and whether its match is unique, in a format.

ghost use Rattle.std.specs.Prelude.{IfErr, IfOk, Ok, string_bytes};
ghost use Rattle.olr_binary.specs.Reference.{IsReference};
ghost use Rattle.olr_app.specs.Places.{ArePlaces, ArePlacesWith, IsConfidenceOf, IsPlacesIn};
ghost use Rattle.olr_app.specs.Stages.{IsStageFault};

use crate::drawing::drawing_for;
use crate::matching::layers_of;
use olr_base::NoMemory;
use olr_binary::Reference;
use olr_confidence::Confidence;
use olr_likely::{AskedPlaces, ShownPlaces, places_asked, shown_geojson, shown_json, shown_text};
use olr_request::{ConfidenceFile, Fault, Format, PlacesRequest};
use olr_road::Map;
use std::alloc::Global;

/// Places as they are asked for.
fn printed_places(
    alloc: Global,
    map: &Map,
    reference: &Reference,
    shown: &ShownPlaces,
    asked: &PlacesRequest<'_>,
) -> Result<String, NoMemory>
    ensures { IfOk result (λ text. IsPlacesIn asked.now.format asked.now.extras map.now
        reference.now shown.now (string_bytes text)) }
{
    let drawing = drawing_for(alloc, map, reference, &asked.extras);
    match asked.format {
        Format::Text => shown_text(alloc, map, shown),
        Format::Json => shown_json(&drawing.on, shown),
        Format::GeoJson => shown_geojson(&drawing, shown),
    }
}

/// The confidence of the file that is given for one, if a file is given.
///
/// # Errors
///
/// [`Fault::BadConfidence`] where the file is none.
fn confidence_of(file: &Option<ConfidenceFile>) -> Result<Option<Confidence>, Fault>
    ensures { IsConfidenceOf file.now result }
{
    match file {
        None => Ok(None),
        Some(ConfidenceFile::Read(confidence)) => Ok(Some(*confidence)),
        Some(ConfidenceFile::Bad) => Err(Fault::BadConfidence),
    }
}

/// What a request for the places of a reference asks for, on a map, with this confidence.
///
/// # Errors
///
/// [`Fault::TooManyCandidates`] with the first point that has more than 64; [`Fault::NoMemory`]
/// where the allocator refused memory.
fn places_with(
    alloc: Global,
    map: &Map,
    asked: &PlacesRequest<'_>,
    confidence: Option<Confidence>,
    reference: &Reference,
) -> Result<String, Fault>
    requires { IsReference reference.now }
    ensures places { IfOk result (λ output.
        ArePlacesWith asked.now reference.now map.now confidence (Ok (string_bytes output))) }
    ensures fault { IfErr result
        (IsStageFault (ArePlacesWith asked.now reference.now map.now confidence)) }
{
    let (layers, searches) = layers_of(alloc, map, reference, &asked.tolerances)?;
    let places = AskedPlaces {
        limits: asked.limits,
        order: asked.order,
        detailed: asked.extras.detail,
        confidence,
    };
    let shown = places_asked(alloc, map, &layers, searches, &places)?;
    let output = printed_places(alloc, map, reference, &shown, asked)?;
    Ok(output)
}

/// What a request for the places of a reference asks for, on a map. The cursors in it have no mark
/// of the inputs, so no fingerprint of the map is taken.
///
/// # Errors
///
/// [`Fault::BadConfidence`] where a file for a confidence is given that is none; else
/// [`Fault::TooManyCandidates`] with the first point that has more than 64; [`Fault::NoMemory`]
/// where the allocator refused memory.
pub(crate) fn places_listing(
    alloc: Global,
    map: &Map,
    asked: &PlacesRequest<'_>,
    reference: &Reference,
) -> Result<String, Fault>
    requires { IsReference reference.now }
    ensures places { IfOk result (λ output.
        ArePlaces asked.now reference.now map.now (Ok (string_bytes output))) }
    ensures fault { IfErr result (IsStageFault (ArePlaces asked.now reference.now map.now)) }
{
    let confidence = confidence_of(&asked.confidence)?;
    places_with(alloc, map, asked, confidence, reference)
}
