//! What the legs of a reference admit, and why they admit nothing.

ghost use Rattle.std.specs.Prelude.{◌≡◌, ◌+◌, ◌*◌, ◌<◌, ◌≤◌, [], IfOk, count_by, is_some, length, take};
ghost use Rattle.olr_matching.specs.Layers.{AreLayersOn};
ghost use Rattle.olr_why.specs.Legs.{AreLegReasons, ArePairs, IsLegReason};
ghost use Rattle.olr_why.specs.inner.Pairs.{EndsAreOnMap};

use crate::leg::LegReason;
use crate::pair::PairLength;
use crate::pairs::LegOnMap;
use olr_base::NoMemory;
use olr_candidates::{Candidate, places};
use olr_matching::{Layers, class_limit, greatest_admitted, least_admitted, next_of};
use olr_road::Map;
use std::alloc::Global;

/// The first three of these candidates, or all where they are fewer.
fn early(candidates: &[Candidate]) -> &[Candidate]
    ensures list { result.now ≡ take 3 candidates.now }
    ensures at_most { length result.now ≤ 3 }
{
    &candidates[..candidates.len().min(3)]
}

/// The pairs, of ranks up to 3, that tell why a leg admits none; there are none where it admits
/// some.
fn pairs_where_none(
    alloc: Global,
    leg: &LegOnMap<'_>,
    admits: u32,
) -> Result<Vec<PairLength>, NoMemory>
    requires { EndsAreOnMap leg.now }
    ensures admitting { IfOk result (λ pairs. 0 < admits → pairs.items ≡ []) }
    ensures none { IfOk result (λ pairs. admits ≡ 0
        → ArePairs leg.now.map.now leg.now.tolerances leg.now.next leg.now.firsts.now
        leg.now.seconds.now pairs.items) }
{
    if admits > 0 {
        return Ok(Vec::new(alloc));
    }
    let pairs = leg.pairs(alloc)?;
    Ok(pairs)
}

/// How many pairs of candidates a leg admits, by their lengths.
fn admitted(lengths: &[Option<u32>]) -> usize
    ensures { result ≡ count_by is_some lengths.now }
{
    lengths.iter().filter(|length| length.is_some()).count()
}

/// How many pairs of these candidates there are.
fn pair_count(firsts: &[Candidate], seconds: &[Candidate]) -> u32
    requires firsts { length firsts.now ≤ 64 }
    requires seconds { length seconds.now ≤ 64 }
    ensures { result ≡ length firsts.now * length seconds.now }
{
    (firsts.len() * seconds.len()) as u32
}

/// The leg from a layer, counted from 0 and not the last one.
fn leg_of(alloc: Global, map: &Map, layers: &Layers, layer: usize) -> Result<LegReason, NoMemory>
    requires layers { AreLayersOn map.now layers.now }
    requires within { layer + 1 < length layers.now.candidates }

    ensures { IfOk result (IsLegReason map.now layers.now layer) }
{
    places();
    let next = next_of(layers.reference(), layer);
    let tolerances = layers.tolerances();
    let firsts = layers.layer(layer);
    let seconds = layers.layer(layer + 1);
    let early_firsts = early(firsts);
    let early_seconds = early(seconds);
    let leg = LegOnMap {
        map,
        tolerances: *tolerances,
        next,
        firsts: early_firsts,
        seconds: early_seconds,
    };
    let admits = admitted(layers.lengths(layer)) as u32;
    let pairs = pairs_where_none(alloc, &leg, admits)?;
    Ok(LegReason {
        class: class_limit(tolerances, &next),
        from: least_admitted(tolerances, &next),
        to: greatest_admitted(tolerances, &next),
        admits,
        of: pair_count(firsts, seconds),
        pairs,
    })
}

/// What each leg of a reference admits, in order: its class limit, the least and the greatest
/// length that it admits, and how many of the pairs of candidates of its points it admits.
///
/// A leg that admits none has the pairs of the candidates of ranks up to 3, which tell why: for
/// each the least length under the leg's class limit, where that is at most 1172 (n + 1) + 10,000
/// decimetres for the leg's interval n, the greatest length that any percent and slack admit. Where
/// there is none, or it is greater than the greatest length that the leg admits, the pair has the
/// least class limit above the leg's that gives a lesser length.
///
/// # Errors
///
/// [`NoMemory`] where the allocator refused memory.
pub fn legs_of(alloc: Global, map: &Map, layers: &Layers) -> Result<Vec<LegReason>, NoMemory>
    requires { AreLayersOn map.now layers.now }
    ensures { IfOk result (λ legs. AreLegReasons map.now layers.now legs.items) }
{
    let mut legs = Vec::new(alloc);
    for layer in 0..layers.reference().points().len() - 1 {
        legs.push(leg_of(alloc, map, layers, layer)?)?;
    }
    Ok(legs)
}
