//! Laws on fingerprinted texts.

ghost use Rattle.olr_app_laws.specs.FingerprintLaws.{OneRequestByText, ReferenceIsOneLine};

use olr_map::one_map_by_canonical_text;

/// The text of a reference has no line feed but among the blanks at its ends.
pub fn reference_is_one_line()
    ensures { ReferenceIsOneLine }
{}

/// Two fingerprinted texts are equal only where the texts of the references are, the blanks at
/// their ends aside, and where the tolerances and the maps are. This holds of sound maps, as every
/// [`Map`](olr_road::Map) is, and of texts of one line, as by [`reference_is_one_line`] those of
/// references are.
pub fn one_request_by_text()
    ensures { OneRequestByText }
{
    one_map_by_canonical_text();
}
