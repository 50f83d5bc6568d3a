//! The text of a collection of features.

ghost use Rattle.std.specs.Prelude.{◌≡◌, ◌++◌, ◌≢◌, ◌<◌, ◌∷◌, [], ℕ, IfOk, List, OnOk, codes, string_bytes, true};
ghost use Rattle.serde_json.specs.Data.{Members, no_members, object};
ghost use Rattle.serde_json.specs.Written.{compact_text, members_text};
ghost use Rattle.olr_geojson.specs.Collection.{collection_text};
ghost use Rattle.olr_geojson.specs.Feature.{Feature, feature_text, features_text};
ghost use Rattle.olr_geojson.specs.Joined.{behind_commas};

use olr_base::NoMemory;
use std::alloc::Global;

/// A text without its first character, if this is that one, which is ASCII.
fn behind(text: &str, first: char) -> &str
    requires { first < 128 }
    ensures begins { (rest : List ℕ) → text.now ≡ first ∷ rest → result.now ≡ rest }
    ensures empty { text.now ≡ [] → result.now ≡ [] }
{
    text.strip_prefix(first).unwrap_or(text)
}

/// Adds features that stand each behind a comma, without the first comma.
fn push_features(features: &str, out: &mut String) -> Result<(), NoMemory>
    ensures { OnOk result ((all : List Feature) → features.now ≡ behind_commas feature_text all
        → string_bytes out.new ≡ string_bytes out.old ++ features_text all) }
{
    out.push_str(behind(features, ','))?;
    Ok(())
}

/// Adds the members of an object behind others, and the closing brace.
fn push_others(others: &str, out: &mut String) -> Result<(), NoMemory>
    ensures { OnOk result ((members : Members) → members ≢ no_members
        → others.now ≡ compact_text (object members)
        → string_bytes out.new ≡ string_bytes out.old ++ members_text true members) }
{
    out.push(',')?;
    out.push_str(behind(others, '{'))?;
    Ok(())
}

/// Adds all members.
fn push_members(
    before: &str,
    features: &str,
    others: &str,
    out: &mut String,
) -> Result<(), NoMemory>
    ensures { OnOk result ((all : List Feature) (members : Members) → members ≢ no_members
        → features.now ≡ behind_commas feature_text all
        → others.now ≡ compact_text (object members)
        → string_bytes out.new ≡ string_bytes out.old ++ before.now
        ++ codes "\"features\":[" ++ features_text all ++ codes "]" ++ members_text true members) }
{
    out.push_str(before)?;
    out.push_str("\"features\":[")?;
    push_features(features, out)?;
    out.push(']')?;
    push_others(others, out)
}

/// The line of a collection: the members before the features, the features, the other members, and a
/// line feed. The first ones are a text, in which a comma stands behind each. The features are the text that [`push_feature`](crate::push_feature) made of an
/// empty one. The others are the compact JSON text of an object with one member at least, as `type`,
/// and their names come after `features`.
///
/// # Errors
///
/// [`NoMemory`] where the allocator refused memory.
pub fn collection(
    alloc: Global,
    before: &str,
    features: &str,
    others: &str,
) -> Result<String, NoMemory>
    ensures { IfOk result (λ text. (all : List Feature) (members : Members) → members ≢ no_members
        → features.now ≡ behind_commas feature_text all
        → others.now ≡ compact_text (object members)
        → string_bytes text ≡ collection_text before.now all members) }
{
    let room = features
        .len()
        .saturating_add(before.len())
        .saturating_add(others.len())
        .saturating_add(64);
    let mut text = String::with_capacity(alloc, room)?;
    text.push('{')?;
    push_members(before, features, others, &mut text)?;
    text.push('\n')?;
    Ok(text)
}

#[cfg(test)]
mod tests {
    use super::*;
    use crate::feature::push_feature;
    use crate::geometry::Geometry;
    use olr_base::Degrees;
    use std::test::Fail;

    const FROM: Degrees = Degrees {
        lon: 7_416_942,
        lat: 49_871_280,
    };

    const TO: Degrees = Degrees {
        lon: 7_415_720,
        lat: -13,
    };

    /// A collection of nothing, and one of a line, a point and a feature that lies nowhere.
    #[test]
    fn collections(rt: HostRuntime) -> Result<(), Fail> {
        let alloc = rt.alloc();
        let none = collection(alloc, "", "", "{\"type\":\"FeatureCollection\"}")?;
        assert_eq!(rt;
            none.as_str(),
            "{\"features\":[],\"type\":\"FeatureCollection\"}\n"
        );

        let mut features = String::new(alloc);
        push_feature(
            &mut features,
            &Geometry::LineString(&[FROM, TO]),
            "{\"gap\":0}",
        )?;
        push_feature(&mut features, &Geometry::Point(TO), "{}")?;
        push_feature(&mut features, &Geometry::Missing, "{}")?;
        let some = collection(
            alloc,
            "\"cut\":false,",
            &features,
            "{\"looked\":1,\"next\":null}",
        )?;
        assert_eq!(rt;
            some.as_str(),
            "{\"cut\":false,\"features\":[\
            {\"geometry\":{\"coordinates\":[[7.416942,49.87128],[7.41572,-0.000013]],\
            \"type\":\"LineString\"},\"properties\":{\"gap\":0},\"type\":\"Feature\"},\
            {\"geometry\":{\"coordinates\":[7.41572,-0.000013],\"type\":\"Point\"},\
            \"properties\":{},\"type\":\"Feature\"},\
            {\"geometry\":null,\"properties\":{},\"type\":\"Feature\"}],\
            \"looked\":1,\"next\":null}\n"
        );
        Ok(())
    }
}
