//! The law that what is asked is one thing, with no code: it is the contract of an empty function.

ghost use Rattle.olr_likely.specs.OneAnswer.{LawsBelow, OneGeoJson, OneJson, OneText};

use olr_confidence::one_probability;
use olr_detail::one_detail;
use olr_keys::one_list;

/// The laws that it rests on.
fn laws_below()
    ensures { LawsBelow }
{
    one_list();
    one_detail();
    one_probability();
}

/// Places as they are asked for ([`crate::places_asked`]) have one text, one JSON and one GeoJSON:
/// those of a reference on a map, by its layers there and by what is asked. It is a premise that looking at the matchings gives one value, as `one_looking` of
/// `olr_places_laws` says.
pub fn one_shown()
    ensures text { OneText }
    ensures json { OneJson }
    ensures geojson { OneGeoJson }
{
    laws_below();
}
