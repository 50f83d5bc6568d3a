//! The legs of a matching: their routes, and what else could be driven. Lengths are in decimetres.

ghost use Rattle.std.specs.Prelude.{◌<◌, ◌≤◌, IfOk, length};
ghost use Rattle.olr_matching.specs.Layers.{AreLayersOn, LeadsOn};
ghost use Rattle.olr_legs.specs.LegOnMap.{IsLegAtLayer, IsLegOnMap};
ghost use Rattle.olr_legs.specs.Legs.{AreAlternatives, AreAlternativesAt, AreAlternativesOf, HasKey};

use crate::leg_on_map::LegOnMap;
use crate::other::{Other, other_of};
use crate::shorter::{Shorter, first_shorter};
use olr_base::NoMemory;
use olr_binary::Next;
use olr_candidates::places;
use olr_matching::{Layers, Matched, class_limit, next_of};
use olr_road::Map;
use olr_route::Piece;
use std::alloc::Global;

/// A leg of a matching, and what else could be driven for it.
#[derive(Debug, Drop)]
pub struct LegAlternatives {
    /// The route of the leg, piece by piece.
    pub pieces: Vec<Piece>,
    /// Its length, in decimetres.
    pub length: u64,
    /// The least length in the distance interval of its path, in decimetres.
    pub least: u32,
    /// The greatest length in that interval.
    pub greatest: u32,
    /// The greatest class of the lines that its route may drive, 0 to 7.
    pub limit: u8,
    /// Another path that is hardly longer.
    pub other: Other,
    /// The least class above the limit under which it would be markedly shorter.
    pub shorter: Option<Shorter>,
}

/// What else could be driven for a leg with these attributes of its path.
fn alternatives_of(
    alloc: Global,
    leg: LegOnMap,
    next: &Next,
    near: u32,
) -> Result<LegAlternatives, NoMemory>
    requires leg { IsLegOnMap leg }
    requires limit { leg.limit ≤ 7 }

    ensures { IfOk result (AreAlternatives leg.entry.map.now leg.entry.limit leg.entry.from
        leg.entry.to next.now leg.entry.length leg.entry.route.now near) }
{
    let shorter = first_shorter(alloc, leg.map, leg.limit, leg.from, leg.to, leg.length)?;
    let pieces = Vec::from_slice(alloc, leg.route)?;
    let mut turns = 0;
    let other = other_of(alloc, leg, near, &mut turns)?;
    let interval = u32::from(next.interval);
    Ok(LegAlternatives {
        pieces,
        length: leg.length,
        least: 586 * interval,
        greatest: 586 * (interval + 1) - 1,
        limit: leg.limit,
        other,
        shorter,
    })
}

/// The leg from a layer, counted from 0, on the map.
fn leg_at<'a>(
    map: &'a Map,
    layers: &Layers,
    matched: &'a Matched,
    layer: usize,
    next: &Next,
) -> LegOnMap<'a>
    requires layers { AreLayersOn map.now layers.now }
    requires key { HasKey map.now layers.now matched.now }
    requires within { layer < length matched.now.legs }
    requires next { LeadsOn layers.now.reference layer next.now }

    ensures on_map { IsLegOnMap result }
    ensures layer { IsLegAtLayer map.now layers.now matched.now layer next.now result }
{
    places();
    let candidates = matched.candidates.as_slice();
    let leg = &matched.legs[layer];
    LegOnMap {
        map,
        limit: class_limit(layers.tolerances(), next),
        from: candidates[layer].place,
        to: candidates[layer + 1].place,
        route: &leg.route,
        length: leg.length,
    }
}

/// What else could be driven for the leg from a layer, counted from 0.
fn leg_of(
    alloc: Global,
    map: &Map,
    layers: &Layers,
    matched: &Matched,
    layer: usize,
    near: u32,
) -> Result<LegAlternatives, NoMemory>
    requires layers { AreLayersOn map.now layers.now }
    requires key { HasKey map.now layers.now matched.now }
    requires within { layer < length matched.now.legs }

    ensures { IfOk result (AreAlternativesAt map.now layers.now matched.now near layer) }
{
    let next = next_of(layers.reference(), layer);
    let leg = leg_at(map, layers, matched, layer, &next);
    let alternatives = alternatives_of(alloc, leg, &next, near)?;
    Ok(alternatives)
}

/// The legs of a matching, in order: for each its route, its class limit and the lengths of its
/// interval; another path that is longer by at most `near` thousandths or 10 decimetres; and the
/// least class under which it would be markedly shorter.
///
/// # Errors
///
/// [`NoMemory`] where the allocator refused memory.
pub fn legs_of(
    alloc: Global,
    map: &Map,
    layers: &Layers,
    matched: &Matched,
    near: u32,
) -> Result<Vec<LegAlternatives>, NoMemory>
    requires layers { AreLayersOn map.now layers.now }
    requires key { HasKey map.now layers.now matched.now }

    ensures { IfOk result (λ legs.
        AreAlternativesOf map.now layers.now matched.now near legs.items) }
{
    let mut legs = Vec::new(alloc);
    for layer in 0..matched.legs.len() {
        legs.push(leg_of(alloc, map, layers, matched, layer, near)?)?;
    }
    Ok(legs)
}
