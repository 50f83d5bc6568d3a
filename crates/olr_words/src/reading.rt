//! What the words found for a subcommand give for its options: numbers, flags and names.

ghost use Rattle.std.specs.Prelude.{◌≡◌, codes};
ghost use Rattle.clap.specs.Words.{first_value, found_of};
ghost use Rattle.olr_words.specs.Given.{AreExtras, AreTolerancesOf, IsFlagOf, IsFormatNamed};
ghost use Rattle.olr_words.specs.Given.{AreEdgesOf, IsNumberOf, record_format};

use crate::box_text::{Edges, edges_in};
use crate::route_part::route_part_named;
use clap::ArgMatches;
use olr_candidates::Tolerance;
use olr_request::{Extras, Format};

/// The number that is found for an option; `None` where there is no text for it, or one that is no
/// number.
pub fn number_in(found: &ArgMatches<'_>, name: &str) -> Option<u32>
    ensures { IsNumberOf (first_value (found_of found.now) name.now) result }
{
    let text = found.get_str(name)?;
    text.parse().ok()
}

/// The edges of the box that is found; `None` where there is no text for it, or one that is no box.
pub(crate) fn box_in(found: &ArgMatches<'_>) -> Option<Edges>
    ensures { AreEdgesOf (first_value (found_of found.now) (codes "box")) result }
{
    let text = found.get_str("box")?;
    edges_in(text)
}

/// Whether a flag is there. The text that `clap` finds for it is `true` if it is, else `false`.
pub fn flag_in(found: &ArgMatches<'_>, name: &str) -> bool
    ensures { IsFlagOf (first_value (found_of found.now) name.now) result }
{
    matches!(found.get_str(name), Some("true"))
}

/// The numbers that are found for the tolerances, in the order of [`Tolerance::ALL`].
pub fn tolerances_in(found: &ArgMatches<'_>) -> [Option<u32>; Tolerance::COUNT]
    ensures { AreTolerancesOf (first_value (found_of found.now)) result }
{
    let mut tolerances = [None; Tolerance::COUNT];
    for name in Tolerance::ALL {
        tolerances[name.order()] = number_in(found, name.text());
    }
    tolerances
}

/// What is shown of each candidate, matching or place.
pub fn extras_in(found: &ArgMatches<'_>) -> Extras
    ensures { AreExtras (first_value (found_of found.now)) result }
{
    Extras {
        detail: flag_in(found, "detail"),
        shape: flag_in(found, "shape"),
        part: route_part_named(found.get_str("part")),
    }
}

/// The format of an output; text where none is named.
pub fn format_in(found: &ArgMatches<'_>) -> Format
    ensures { IsFormatNamed (first_value (found_of found.now) (codes "format")) result }
{
    match found.get_str("format") {
        Some("json") => Format::Json,
        Some("geojson") => Format::GeoJson,
        _ => Format::Text,
    }
}

/// The format of the answer to a record, where the same words ask for this one on a command line:
/// JSON in place of text.
pub fn format_of_record(format: Format) -> Format
    ensures { result ≡ record_format format }
{
    match format {
        Format::Text => Format::Json,
        Format::Json => Format::Json,
        Format::GeoJson => Format::GeoJson,
    }
}
