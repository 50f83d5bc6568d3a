//! Calls of the libraries, each made once more where the allocator refused it memory.
//!
//! They give the matchings of a reference: their keys, page by page and one by one, and the lengths
//! of their legs, one by one and together. A call that is made once more is named on the standard
//! error. `attacks/again.py` refuses each allocation in turn, and compares what is printed.

ghost use Rattle.std.specs.Prelude.{All, IsTrue};
ghost use Rattle.olr_keys.specs.Matching.{IsKey};
ghost use Rattle.olr_matching.specs.Layers.{AreLayersOn};

use crate::{NO_MATCHING, NO_MEMORY};
use anyhow::{Context, Result, bail, ensure};
use olr_binary::decode;
use olr_candidates::Tolerances;
use olr_keys::{
    BoundFinder, Cursor, Finder, Key, Page, PageSize, ProductFinder, TotalsFinder, page,
};
use olr_matching::{Layers, Matched, Routes};
use olr_road::Map;

/// The most calls of one kind.
const MOST: u32 = 100;

/// What a call gives, made once more where it gives an error.
macro_rules! once_more {
    ($rt:ident, $name:literal, $call:expr) => {
        if let Ok(given) = $call {
            given
        } else {
            eprintln!($rt; $name)?;
            $call.ok().context(NO_MEMORY)?
        }
    };
}

/// Prints all pages of two keys, and gives the keys.
fn print_pages(rt: &HostRuntime, layers: &Layers) -> Result<Vec<Key>> {
    let finder = TotalsFinder::build(rt.alloc(), layers.table()).ok();
    let mut finder = finder.context(NO_MEMORY)?;
    let size = PageSize::new(2)?;
    let mut all = Vec::new(rt.alloc());
    for _page in 0..MOST {
        let found = once_more!(rt, "page", page(rt.alloc(), &mut finder, all.last(), size));
        let Page { keys, more } = found;
        for key in keys {
            println!(rt; "page {}", Cursor::write(&key, None))?;
            all.push(key)?;
        }
        if !more {
            return Ok(all);
        }
    }
    bail!("too many matchings");
}

/// The key after another one, or the first one.
fn next(rt: &HostRuntime, finder: &mut BoundFinder, after: Option<&Key>) -> Result<Option<Key>> {
    if let Some(key) = after {
        ensure!(finder.check(key), "{NO_MATCHING}");
    }
    Ok(once_more!(rt, "next", finder.next(rt.alloc(), after)))
}

/// Prints all keys, one after the other.
fn print_next(rt: &HostRuntime, layers: &Layers) -> Result<()> {
    let finder = BoundFinder::build(rt.alloc(), layers.table()).ok();
    let mut finder = finder.context(NO_MEMORY)?;
    let mut last: Option<Key> = None;
    for _key in 0..MOST {
        let Some(key) = next(rt, &mut finder, last.as_ref())? else {
            return Ok(());
        };
        println!(rt; "next {}", Cursor::write(&key, None))?;
        last = Some(key);
    }
    bail!("too many matchings");
}

/// Whether a key is that of a matching.
#[tactic(auto, using(crate::proofs::ListedKeys::key_of_answers))]
fn is_key(layers: &Layers, key: &Key) -> bool
    ensures { IsTrue result → IsKey layers.now.penalties key.now }
{
    ProductFinder::new(layers.table()).check(key)
}

/// Whether keys are those of matchings.
fn are_keys(layers: &Layers, keys: &[Key]) -> bool
    ensures { IsTrue result → All (IsKey layers.now.penalties) keys.now }
{
    keys.iter().all(|key| is_key(layers, key))
}

/// Prints the legs of a matching: the length and the number of pieces of each.
fn print_legs(rt: &HostRuntime, name: &str, key: &Key, parts: &Matched) -> Result<()> {
    println!(rt; "{name} {}", Cursor::write(key, None))?;
    for leg in &parts.legs {
        println!(rt; "length {} pieces {}", leg.length, leg.route.len())?;
    }
    Ok(())
}

/// Prints the parts of the matchings that have these keys, one by one and then together.
fn print_parts(rt: &HostRuntime, map: &Map, layers: &Layers, keys: &[Key]) -> Result<()>
    requires { AreLayersOn map.now layers.now }
{
    ensure!(are_keys(layers, keys), "{NO_MATCHING}");
    for key in keys {
        let parts = once_more!(rt, "resolve", layers.resolve(rt.alloc(), map, key));
        print_legs(rt, "resolve", key, &parts)?;
    }
    let mut routes = Routes::new(rt.alloc(), map, layers);
    let all = once_more!(rt, "routes", routes.matched(rt.alloc(), keys));
    for (key, parts) in keys.iter().zip(&all) {
        print_legs(rt, "routes", key, parts)?;
    }
    Ok(())
}

/// Prints the matchings of a reference on a map.
pub(crate) fn print(rt: &HostRuntime, map: &Map, reference: &str) -> Result<()> {
    let reference = decode(reference).ok().context("REFERENCE")?;
    let layers = Layers::build(rt.alloc(), map, &reference, &Tolerances::default())?;
    let keys = print_pages(rt, &layers)?;
    print_next(rt, &layers)?;
    print_parts(rt, map, &layers, &keys)
}
