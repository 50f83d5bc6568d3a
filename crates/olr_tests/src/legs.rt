//! The legs of a matching, as JSON and as GeoJSON. What is expected is what another program prints.

use crate::samples::{Files, NO_BANS, REFERENCE, map_of};
use olr_binary::decode;
use olr_candidates::Tolerances;
use olr_keys::{Rows, next_key};
use olr_legs::{ShownLegs, legs_geojson, legs_json, legs_of};
use olr_matching::Layers;
use olr_road::Map;
use std::alloc::Global;
use std::test::Fail;

/// The nodes of a street.
const NODES: &[u8] = b"id,lon,lat\n1,0,0\n2,200,0\n3,800,0\n4,1000,0\n";

/// A street with two ways between nodes 2 and 3, which are as long.
const TWO_WAYS: Files<'static> = [
    NODES,
    b"id,from,to,class,form,length,shape\n\
    21,1,2,3,3,223,\n25,2,3,3,3,668,\n22,2,3,3,3,668,500 20\n24,3,4,3,3,223,\n",
    NO_BANS,
];

/// The same where one of them is longer, and the other one of class 7.
const SHORT_CUT: Files<'static> = [
    NODES,
    b"id,from,to,class,form,length,shape\n\
    21,1,2,3,3,223,\n22,2,3,3,3,868,500 20\n23,2,3,7,3,668,\n24,3,4,3,3,223,\n",
    NO_BANS,
];

/// The JSON and the GeoJSON of the legs of the first matching.
fn shown(alloc: Global, map: &Map) -> Result<(String, String), Fail> {
    let reference = decode(REFERENCE)?;
    let tolerances = Tolerances::new(100, 4, 7, 0, 30, 300)?;
    let layers = Layers::build(alloc, map, &reference, &tolerances)?;
    let mut rows = Rows::build(alloc, layers.table())?;
    let Some(key) = next_key(&mut rows, None) else {
        return Err(Fail::new("no matching"));
    };
    let matched = layers.resolve(alloc, map, &key)?;
    let legs = legs_of(alloc, map, &layers, &matched, 1)?;
    let shown = ShownLegs {
        matching: Some(&key),
        legs: &legs,
    };
    Ok((
        legs_json(alloc, map, &shown)?,
        legs_geojson(alloc, map, &shown)?,
    ))
}

/// Two ways that are as long: the other one is another path of the leg.
const TWO_WAYS_JSON: &str = "{\"legs\":[{\"cut\":false,\"greatest\":1171,\"least\":586,\
    \"length\":1114,\"limit\":3,\"other\":{\"longer\":0,\
    \"pieces\":[[21,0,223],[25,0,668],[24,0,223]]},\
    \"pieces\":[[21,0,223],[22,0,668],[24,0,223]],\"shorter\":null}],\"matching\":\"0:1.1\"}\n";

/// The same as features.
const TWO_WAYS_GEOJSON: &str = "{\"features\":[{\"geometry\":{\"coordinates\":\
    [[0,0],[0.0002,0],[0.0005,0.00002],[0.0008,0],[0.001,0]],\"type\":\"LineString\"},\
    \"properties\":{\"cut\":false,\"greatest\":1171,\"least\":586,\"leg\":1,\"length\":1114,\
    \"limit\":3,\"part\":\"leg\",\"pieces\":[[21,0,223],[22,0,668],[24,0,223]],\
    \"shorter\":null},\"type\":\"Feature\"},{\"geometry\":{\"coordinates\":\
    [[0,0],[0.0002,0],[0.0008,0],[0.001,0]],\"type\":\"LineString\"},\
    \"properties\":{\"leg\":1,\"longer\":0,\"part\":\"other\"},\"type\":\"Feature\"}],\
    \"matching\":\"0:1.1\",\"type\":\"FeatureCollection\"}\n";

/// A way that would be 20 m shorter under class 7.
const SHORT_CUT_JSON: &str = "{\"legs\":[{\"cut\":false,\"greatest\":1171,\"least\":586,\
    \"length\":1314,\"limit\":3,\"other\":null,\
    \"pieces\":[[21,0,223],[22,0,868],[24,0,223]],\"shorter\":{\"by\":200,\"class\":7}}],\
    \"matching\":\"14:1.1\"}\n";

#[test]
fn tells_another_path_and_a_class_that_is_shorter(rt: HostRuntime) -> Result<(), Fail> {
    let alloc = rt.alloc();
    let map = map_of(alloc, TWO_WAYS)?;
    let (json, geojson) = shown(alloc, &map)?;
    assert_eq!(rt; json.as_str(), TWO_WAYS_JSON);
    assert_eq!(rt; geojson.as_str(), TWO_WAYS_GEOJSON);
    let map = map_of(alloc, SHORT_CUT)?;
    let (json, _geojson) = shown(alloc, &map)?;
    assert_eq!(rt; json.as_str(), SHORT_CUT_JSON);
    Ok(())
}
