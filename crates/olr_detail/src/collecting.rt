//! Features and other members, as one collection.

ghost use Rattle.std.specs.Prelude.{◌≡◌, ◌≢◌, IfOk, List, [], string_bytes};
ghost use Rattle.serde_json.specs.Data.{Members, no_members, object};
ghost use Rattle.serde_json.specs.Read.{max_depth};
ghost use Rattle.olr_geojson.specs.Collection.{collection_text};
ghost use Rattle.olr_geojson.specs.Feature.{Feature, feature_text};
ghost use Rattle.olr_geojson.specs.Joined.{behind_commas};
ghost use Rattle.olr_text.specs.JsonValues.{NestsWithin};

use olr_base::NoMemory;
use olr_geojson::collection;
use olr_text::{ToJson, to_json_text};
use std::alloc::Global;

/// The line of a collection of features, each of which stands behind a comma, with the members of
/// the object of a value behind them.
///
/// # Errors
///
/// [`NoMemory`] where the allocator refused memory.
pub(crate) fn collected<T: ToJson<()>>(
    alloc: Global,
    features: &str,
    members: &T,
) -> Result<String, NoMemory>
    requires { NestsWithin max_depth (T.value tt members.now) }
    ensures { IfOk result (λ text. (all : List Feature) (others : Members) → others ≢ no_members
        → T.value tt members.now ≡ object others
        → features.now ≡ behind_commas feature_text all
        → string_bytes text ≡ collection_text [] all others) }
{
    let others = to_json_text(alloc, &(), members)?;
    collection(alloc, "", features, &others)
}
