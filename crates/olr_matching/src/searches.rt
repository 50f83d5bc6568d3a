//! Searches for the lengths of a leg, and those of a reference on a map that are kept.

ghost use Rattle.std.specs.Prelude.{◌≡◌, ◌<◌, [], All, HoldsAt, IfOk, IfSome, IsTrue, length};
ghost use Rattle.olr_road.specs.Place.{IsDeparture, IsPlace};
ghost use Rattle.olr_road.specs.RoadMap.{RoadMap};
ghost use Rattle.olr_road.specs.declared.place.Place.{Place};
ghost use Rattle.olr_matching.specs.LegOnMap.{EndsAreOnMap};
ghost use Rattle.olr_matching.specs.Searches.{AreSearchesOn, IsFound, IsSearchFor, places_of};
ghost use Rattle.olr_matching.specs.declared.leg_on_map.LegOnMap.{LegOnMap};
ghost use Rattle.olr_route.specs.Reach.{AreLengthsOn, Covers};

use crate::leg::likely_greatest;
use crate::leg_on_map::LegOnMap;
use olr_base::NoMemory;
use olr_candidates::{Candidate, MAX_CANDIDATES};
use olr_road::{Map, Place};
use olr_route::{Limits, Reach, lengths_to, shares_search};
use std::alloc::Global;
use std::marker::Model;

/// How many searches of a reference are kept at most: a leg has no more first candidates.
const MAX_KEPT: usize = MAX_CANDIDATES;

/// How many numbers of 8 bytes the searches of a reference may keep in memory: 32 MB.
const ROOM: usize = 4_000_000;

/// Searches that [`Layers`](crate::Layers) of a reference on a map were built with. Lengths and
/// routes come from them without another search.
///
/// At most 64 are kept, and they take 32 MB at most, unless a single one takes more: where one more
/// would be too many, or too large, the others are dropped.
#[derive(Drop)]
pub struct Searches {
    kept: Vec<Reach>,
    /// How many numbers the searches to come may keep.
    room: usize,
}

impl Model for Searches {
    ghost use Rattle.std.specs.Prelude.{List};
    ghost use Rattle.olr_route.specs.Reach.{Lengths};

    ghost Value = { List Lengths };

    ghost view = { λ s. s.kept.items };
}

/// The places of candidates, in their order.
fn places_of(alloc: Global, candidates: &[Candidate]) -> Result<Vec<Place>, NoMemory>
    ensures { IfOk result (λ places. places.items ≡ places_of candidates.now) }
{
    let mut places = Vec::new(alloc);
    for candidate in candidates {
        places.push(candidate.place)?;
    }
    Ok(places)
}

/// The least lengths in decimetres, within limits, from a place to candidates, as [`lengths_to`]
/// finds them: the search goes towards them, first up to `limits.near`. The place has to be before
/// the end of its line ([`is_before_end`](olr_route::is_before_end)), the candidates on the map
/// ([`is_on_map`](olr_route::is_on_map)).
///
/// # Errors
///
/// [`NoMemory`] where the allocator refused memory.
pub fn lengths_to_candidates(
    alloc: Global,
    map: &Map,
    from: Place,
    limits: Limits,
    candidates: &[Candidate],
) -> Result<Reach, NoMemory>
    requires from { IsDeparture map.now from }
    requires places { All (λ candidate. IsPlace map.now candidate.place) candidates.now }

    ensures asked { IfOk result (λ reach. (reach.class ≡ limits.class)
        × (reach.from ≡ from) × (reach.limit ≡ limits.length)) }
    ensures held { IfOk result (λ reach. AreLengthsOn map.now reach) }
    ensures covers { IfOk result (λ reach.
        All (λ candidate. Covers reach candidate.place.line) candidates.now) }
{
    let targets = places_of(alloc, candidates)?;
    let reach = lengths_to(alloc, map, from, limits, &targets)?;
    Ok(reach)
}

/// Whether a search covers each of these candidates.
fn covers_all(reach: &Reach, candidates: &[Candidate]) -> bool
    ensures { IsTrue result
        → All (λ candidate. Covers reach.now candidate.place.line) candidates.now }
{
    candidates
        .iter()
        .all(|candidate| reach.covers(candidate.place))
}

/// Whether a search has the lengths of a leg from a place.
fn is_for(reach: &Reach, leg: &LegOnMap<'_>, from: Place) -> bool
    requires held { AreLengthsOn leg.now.map.now reach.now }
    requires ends { EndsAreOnMap leg.now }
    requires from { IsDeparture leg.now.map.now from }

    ensures { IsTrue result → IsSearchFor leg.now from reach.now }
{
    let (class, start, limit) = reach.asked();
    if class != leg.class_limit() || limit != leg.greatest_admitted() {
        return false;
    }
    shares_search(leg.map, class, start, from) && covers_all(reach, leg.seconds)
}

impl Searches {
    /// No searches yet.
    pub(crate) fn new(alloc: Global) -> Searches
        ensures { result ≡ [] }
    {
        Searches {
            kept: Vec::new(alloc),
            room: ROOM,
        }
    }

    /// The search at an index.
    pub(crate) fn at(&self, index: usize) -> &Reach
        requires { index < length self.now }
        ensures { (leg : LegOnMap) (from : Place) → IsFound leg from self.now index
            → IsSearchFor leg from result.now }
    {
        &self.kept[index]
    }

    /// The index of a search that has the lengths of a leg from a place, if one is kept.
    fn find(&self, leg: &LegOnMap<'_>, from: Place) -> Option<usize>
        requires searches { AreSearchesOn leg.now.map.now self.now }
        requires ends { EndsAreOnMap leg.now }
        requires from { IsDeparture leg.now.map.now from }

        ensures { IfSome result (IsFound leg.now from self.now) }
    {
        for (index, reach) in self.kept.iter().enumerate() {
            if is_for(reach, leg, from) {
                return Some(index);
            }
        }
        None
    }

    /// Drops all searches where one more of this size would be too large, or too many.
    fn make_room(&mut self, size: usize)
        ensures { (road : RoadMap) → AreSearchesOn road self.old → AreSearchesOn road self.new }
    {
        if size > self.room || self.kept.len() >= MAX_KEPT {
            self.kept.clear();
            self.room = ROOM;
        }
    }

    /// Keeps a search, and answers its index.
    fn keep(&mut self, reach: Reach) -> Result<usize, NoMemory>
        ensures kept { IfOk result (λ index. (index < length self.new)
            × HoldsAt (λ other. other ≡ reach) self.new index) }
        ensures searches { (road : RoadMap) → AreSearchesOn road self.old
            → AreLengthsOn road reach → AreSearchesOn road self.new }
    {
        let size = reach.size();
        self.make_room(size);
        let index = self.kept.len();
        self.kept.push(reach)?;
        self.room = self.room.saturating_sub(size);
        Ok(index)
    }

    /// The index of a search that has the lengths of a leg from a place. Where none is kept, it
    /// makes one from there, which ends once it has reached all second candidates, and keeps it.
    pub(crate) fn find_or_search(
        &mut self,
        alloc: Global,
        leg: &LegOnMap<'_>,
        from: Place,
    ) -> Result<usize, NoMemory>
        requires searches { AreSearchesOn leg.now.map.now self.old }
        requires ends { EndsAreOnMap leg.now }
        requires from { IsDeparture leg.now.map.now from }

        ensures found { IfOk result (IsFound leg.now from self.new) }
        ensures searches { AreSearchesOn leg.now.map.now self.new }
    {
        if let Some(index) = self.find(leg, from) {
            return Ok(index);
        }
        let limits = Limits {
            class: leg.class_limit(),
            near: likely_greatest(&leg.next),
            length: leg.greatest_admitted(),
        };
        let reach = lengths_to_candidates(alloc, leg.map, from, limits, leg.seconds)?;
        self.keep(reach)
    }
}
