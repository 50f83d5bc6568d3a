//! Why a reference has no matching on a map: all of it, from the map.

ghost use Rattle.std.specs.Prelude.{◌≡◌, ◌<◌, All, IfOk, IfSome, MatchOption, [], length};
ghost use Rattle.olr_binary.specs.Reference.{points_of};
ghost use Rattle.olr_candidates.specs.Near.{AreNearestOf};
ghost use Rattle.olr_matching.specs.Layers.{AreLayersOn};
ghost use Rattle.olr_why.specs.Reasons.{AreLayersOf, AreLegsFor, AreOnMap, ArePointReasons, IsCountOf, IsWhy};
ghost use Rattle.olr_why.specs.Reasons.{why_value};
ghost use Rattle.olr_why.specs.Remedies.{IsUnbanned};
ghost use Rattle.olr_why.specs.Verdict.{IsVerdict};

use crate::leg::LegReason;
use crate::legs::legs_of;
use crate::nearest_count::NearestCount;
use crate::point::PointReason;
use crate::remedies::remedies_of;
use crate::verdict::Verdict;
use crate::verdicts::verdict_of;
use crate::why::Why;
use olr_base::NoMemory;
use olr_candidates::{
    LayersFault, NearLine, ReferenceOnMap, candidates, nearest_are_near, nearest_lines,
    no_list_of_point_and_too_many, no_lists_and_too_many,
};
use olr_matching::Layers;
use olr_road::Map;
use std::alloc::Global;

/// How many candidates a point has, counted from 0; none where they are more than 64. Where there
/// are layers of the reference, they are counted there.
fn count_of(on: &ReferenceOnMap<'_>, layers: Option<&Layers>, index: usize) -> Option<u8>
    requires inside { index < length (points_of on.now.reference.now) }
    requires layers { IfSome layers (λ layers.
        AreLayersOf on.now.map.now on.now.tolerances on.now.reference.now layers.now) }
    ensures { IsCountOf on.now.map.now on.now.tolerances on.now.reference.now index result }
{
    if let Some(layers) = layers {
        return Some(layers.layer(index).len() as u8);
    }
    let Ok(list) = candidates(on.map, on.reference, &on.tolerances, index) else {
        return None;
    };
    Some(list.len() as u8)
}

/// So many of the lines nearest to a point, counted from 0.
fn nearest_to(
    alloc: Global,
    on: &ReferenceOnMap<'_>,
    nearest: usize,
    index: usize,
) -> Result<Vec<NearLine>, NoMemory>
    requires { index < length (points_of on.now.reference.now) }
    ensures near { IfOk result (λ lines. AreNearestOf on.now.tolerances on.now.reference.now
        on.now.map.now.lines index nearest lines.items) }
    ensures on_map { IfOk result (λ lines.
        All (λ near. near.line < length on.now.map.now.lines) lines.items) }
{
    nearest_are_near();
    let lines = nearest_lines(alloc, on, index, nearest)?;
    Ok(lines)
}

/// The reasons of all points, with so many of the lines nearest to each, by the layers of the
/// reference, where there are such.
fn reasons_of_points(
    alloc: Global,
    on: &ReferenceOnMap<'_>,
    nearest: usize,
    layers: Option<&Layers>,
) -> Result<Vec<PointReason>, NoMemory>
    requires { IfSome layers (λ layers.
        AreLayersOf on.now.map.now on.now.tolerances on.now.reference.now layers.now) }
    ensures reasons { IfOk result (λ points.
        ArePointReasons on.now.map.now on.now.tolerances on.now.reference.now nearest points.items) }
    ensures on_map { IfOk result (λ points. AreOnMap on.now.map.now points.items) }
{
    let mut points = Vec::new(alloc);
    for index in 0..on.reference.points().len() {
        let candidates = count_of(on, layers, index);
        let nearest = nearest_to(alloc, on, nearest, index)?;
        points.push(PointReason {
            candidates,
            nearest,
        })?;
    }
    Ok(points)
}

/// The verdict and the legs of a reference, by its layers.
fn with_layers(
    alloc: Global,
    map: &Map,
    layers: &Layers,
) -> Result<(Verdict, Vec<LegReason>), NoMemory>
    requires { AreLayersOn map.now layers.now }
    ensures verdict { IfOk result (λ found.
        IsVerdict map.now layers.now.tolerances layers.now.reference found.0) }
    ensures legs { IfOk result (λ found.
        AreLegsFor map.now layers.now.tolerances layers.now.reference found.0 found.1.items) }
{
    no_lists_and_too_many();
    let legs = legs_of(alloc, map, layers)?;
    let verdict = verdict_of(layers);
    Ok((verdict, legs))
}

/// The layers of a reference, none where a point has too many candidates, its verdict and its legs.
fn layers_and_legs(
    alloc: Global,
    on: &ReferenceOnMap<'_>,
) -> Result<(Option<Layers>, Verdict, Vec<LegReason>), NoMemory>
    ensures layers { IfOk result (λ found.
        IfSome found.0 (AreLayersOf on.now.map.now on.now.tolerances on.now.reference.now)) }
    ensures verdict { IfOk result (λ found.
        IsVerdict on.now.map.now on.now.tolerances on.now.reference.now found.1) }
    ensures legs { IfOk result (λ found.
        AreLegsFor on.now.map.now on.now.tolerances on.now.reference.now found.1 found.2.items) }
{
    no_list_of_point_and_too_many();
    match Layers::build(alloc, on.map, on.reference, &on.tolerances) {
        Ok(layers) => {
            let (verdict, legs) = with_layers(alloc, on.map, &layers)?;
            Ok((Some(layers), verdict, legs))
        }
        Err(LayersFault::TooManyCandidates(number)) => {
            Ok((None, Verdict::Crowded(number), Vec::new(alloc)))
        }
        Err(LayersFault::NoMemory) => Err(NoMemory),
    }
}

/// Why a reference has no matching on a map, or that it has one: for each point how many candidates
/// it has and `nearest` of the lines nearest to it, for each leg what it admits, the first thing
/// that stands in the way, and what would help.
///
/// `unbanned` is the map without its bans, where the map has bans: that of
/// [`unbanned_of`](crate::unbanned_of).
///
/// # Errors
///
/// [`NoMemory`] where the allocator refused memory.
pub fn why_of(
    alloc: Global,
    on: &ReferenceOnMap<'_>,
    unbanned: Option<&Map>,
    nearest: NearestCount,
) -> Result<Why, NoMemory>
    requires unbanned { MatchOption unbanned (on.now.map.now.bans ≡ [])
        (λ other. IsUnbanned on.now.map.now other.now) }
    ensures why { IfOk result (λ why.
        IsWhy on.now.map.now on.now.tolerances on.now.reference.now nearest (why_value why)) }
    ensures on_map { IfOk result (λ why. AreOnMap on.now.map.now why.points.items) }
{
    let (layers, verdict, legs) = layers_and_legs(alloc, on)?;
    let (layers, count) = (layers.as_ref(), nearest.lines() as usize);
    let points = reasons_of_points(alloc, on, count, layers)?;
    let remedies = remedies_of(alloc, on, unbanned, verdict)?;
    Ok(Why {
        points,
        legs,
        verdict,
        remedies,
    })
}
