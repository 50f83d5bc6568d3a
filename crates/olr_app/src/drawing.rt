//! How matchings are drawn as it is asked for.

ghost use Rattle.std.specs.Prelude.{◌≡◌};
ghost use Rattle.olr_app.specs.Page.{shown_for};
ghost use Rattle.olr_report.specs.ShownMap.{map_shown};

use olr_binary::Reference;
use olr_detail::Drawing;
use olr_report::ShownMap;
use olr_request::Extras;
use olr_road::Map;
use std::alloc::Global;

/// How the matchings of a reference on a map are drawn, and their JSON written.
pub(crate) fn drawing_for<'a>(
    alloc: Global,
    map: &'a Map,
    reference: &'a Reference,
    extras: &Extras,
) -> Drawing<'a>
    ensures shown { map_shown result.on ≡ shown_for extras.now map.now reference.now }
    ensures road { result.on.map.now ≡ map.now }
    ensures reference { result.reference.now ≡ reference.now }
    ensures part { result.part ≡ extras.now.part }
{
    Drawing {
        on: ShownMap::new(alloc, map, reference, extras.shape),
        reference,
        part: extras.part,
    }
}
