//! The pairs of candidates of a leg, with their lengths under one class limit after another.

ghost use Rattle.std.specs.Prelude.{◌≡◌, ◌+◌, ◌<◌, ◌↔◌, ℕ, All, Decides, IfOk, IsTrue, length};
ghost use Rattle.olr_road.specs.Place.{IsDeparture, IsPlace};
ghost use Rattle.olr_matching.specs.Leg.{class_limit, greatest_admitted};
ghost use Rattle.olr_route.specs.Reach.{AreLengthsOn, Covers};
ghost use Rattle.olr_why.specs.Legs.{ArePairs, IsLess, far};
ghost use Rattle.olr_why.specs.inner.Pairs.{ArePairsFrom, EndsAreOnMap, IsAnswered, IsPair};

use crate::pair::{Better, PairLength};
use olr_base::NoMemory;
use olr_binary::Next;
use olr_candidates::{Candidate, Tolerances};
use olr_matching::{class_limit, greatest_admitted, lengths_to_candidates, likely_greatest};
use olr_road::{Map, Place};
use olr_route::{Limits, Reach, one_least_length};
use std::alloc::Global;

/// A leg of a reference on a map, between at most three candidates of each of its two points.
#[derive(Clone, Copy)]
pub(crate) struct LegOnMap<'a> {
    pub map: &'a Map,
    pub tolerances: Tolerances,
    /// The attributes of the path from the first point to the second one.
    pub next: Next,
    pub firsts: &'a [Candidate],
    pub seconds: &'a [Candidate],
}

/// The greatest length in decimetres that a leg admits with any percent and slack, 11,172 to
/// 310,032.
fn far(next: &Next) -> u64
    ensures { result ≡ far next.now }
{
    1172 * (u64::from(next.interval) + 1) + 10_000
}

/// Whether no other class limit is looked at for a pair: its length is at most the greatest one
/// that the leg admits, or another class limit gave a lesser one.
fn is_answered(pair: &PairLength, greatest: u64) -> bool
    ensures { Decides result (IsAnswered greatest pair.now) }
{
    if pair.better.is_some() {
        return true;
    }
    match pair.length {
        Some(length) => length <= greatest,
        None => false,
    }
}

/// Whether no other class limit is looked at for any of these pairs.
fn are_answered(pairs: &[PairLength], greatest: u64) -> bool
    ensures { IsTrue result ↔ All (IsAnswered greatest) pairs.now }
{
    pairs.iter().all(|pair| is_answered(pair, greatest))
}

/// Whether a length is less than another one; any length is less than none.
fn is_less(length: u64, other: Option<u64>) -> bool
    ensures { Decides result (IsLess length other) }
{
    match other {
        Some(known) => length < known,
        None => true,
    }
}

impl LegOnMap<'_> {
    /// The greatest class of the lines that a route may drive on, 0 to 7.
    fn class_limit(&self) -> u8
        ensures { result ≡ class_limit self.now.tolerances self.now.next }
    {
        class_limit(&self.tolerances, &self.next)
    }

    /// The greatest length in decimetres that the leg admits.
    fn greatest_admitted(&self) -> u64
        ensures { result ≡ greatest_admitted self.now.tolerances self.now.next }
    {
        greatest_admitted(&self.tolerances, &self.next)
    }

    /// The pair of these ranks, with the least length from the first candidate to the second one
    /// under the leg's class limit, by a search from the first one.
    fn pair_of(&self, reach: &Reach, first: u8, second: u8, to: Place) -> PairLength
        requires held { AreLengthsOn self.now.map.now reach.now }
        requires class { reach.now.class ≡ class_limit self.now.tolerances self.now.next }
        requires limit { reach.now.limit ≡ far self.now.next }
        requires on_map { IsPlace self.now.map.now to }
        requires covers { Covers reach.now to.line }

        ensures { IsPair self.now (class_limit self.now.tolerances self.now.next + 1) first second
            reach.now.from to result }
    {
        PairLength {
            first,
            second,
            length: reach.length_to(self.map, to),
            better: None,
        }
    }

    /// The pairs of a first candidate, of this rank, and each second one, with their lengths under
    /// the leg's class limit.
    fn pairs_under_limit(
        &self,
        alloc: Global,
        first: u8,
        from: Place,
    ) -> Result<Vec<PairLength>, NoMemory>
        requires ends { EndsAreOnMap self.now }
        requires departure { IsDeparture self.now.map.now from }

        ensures { IfOk result (λ pairs. ArePairsFrom self.now
            (class_limit self.now.tolerances self.now.next + 1) first from pairs.items) }
    {
        // The leg admits none of these lengths, so hardly one is near.
        let length = far(&self.next);
        let limits = Limits {
            class: self.class_limit(),
            near: length,
            length,
        };
        let reach = lengths_to_candidates(alloc, self.map, from, limits, self.seconds)?;
        let mut pairs = Vec::new(alloc);
        for (index, second) in self.seconds.iter().enumerate() {
            pairs.push(self.pair_of(&reach, first, index as u8 + 1, second.place))?;
        }
        Ok(pairs)
    }

    /// A pair, with what another class limit gives, by a search from its first candidate.
    fn pair_under(&self, reach: &Reach, class: u8, to: Place, pair: PairLength) -> PairLength
        requires held { AreLengthsOn self.now.map.now reach.now }
        requires class { reach.now.class ≡ class }
        requires above { class_limit self.now.tolerances self.now.next < class }
        requires limit { reach.now.limit ≡ far self.now.next }
        requires on_map { IsPlace self.now.map.now to }
        requires covers { Covers reach.now to.line }

        ensures { (first second : ℕ) → IsPair self.now class first second reach.now.from to pair
            → IsPair self.now (class + 1) first second reach.now.from to result }
    {
        one_least_length();
        if is_answered(&pair, self.greatest_admitted()) {
            return pair;
        }
        let Some(length) = reach.length_to(self.map, to) else {
            return pair;
        };
        if !is_less(length, pair.length) {
            return pair;
        }
        PairLength {
            better: Some(Better { class, length }),
            ..pair
        }
    }

    /// The pairs of a first candidate, with what another class limit gives, by a search from it.
    fn pairs_by(
        &self,
        alloc: Global,
        reach: &Reach,
        class: u8,
        first: u8,
        pairs: &[PairLength],
    ) -> Result<Vec<PairLength>, NoMemory>
        requires ends { EndsAreOnMap self.now }
        requires held { AreLengthsOn self.now.map.now reach.now }
        requires class { reach.now.class ≡ class }
        requires above { class_limit self.now.tolerances self.now.next < class }
        requires limit { reach.now.limit ≡ far self.now.next }
        requires covers { All (λ second. Covers reach.now second.place.line) self.now.seconds.now }
        requires pairs { ArePairsFrom self.now class first reach.now.from pairs.now }

        ensures { IfOk result (λ looked.
            ArePairsFrom self.now (class + 1) first reach.now.from looked.items) }
    {
        let mut looked = Vec::new(alloc);
        for (index, second) in self.seconds.iter().enumerate() {
            looked.push(self.pair_under(reach, class, second.place, pairs[index]))?;
        }
        Ok(looked)
    }

    /// The pairs of a first candidate, with what another class limit gives. There is a search of
    /// the map where some pair is still without an answer.
    fn pairs_under(
        &self,
        alloc: Global,
        class: u8,
        first: u8,
        from: Place,
        pairs: Vec<PairLength>,
    ) -> Result<Vec<PairLength>, NoMemory>
        requires ends { EndsAreOnMap self.now }
        requires departure { IsDeparture self.now.map.now from }
        requires above { class_limit self.now.tolerances self.now.next < class }
        requires pairs { ArePairsFrom self.now class first from pairs.items }

        ensures { IfOk result (λ looked.
            ArePairsFrom self.now (class + 1) first from looked.items) }
    {
        if are_answered(&pairs, self.greatest_admitted()) {
            return Ok(pairs);
        }
        let limits = Limits {
            class,
            near: likely_greatest(&self.next),
            length: far(&self.next),
        };
        let reach = lengths_to_candidates(alloc, self.map, from, limits, self.seconds)?;
        let looked = self.pairs_by(alloc, &reach, class, first, &pairs)?;
        Ok(looked)
    }

    /// The pairs of a first candidate, of this rank, and each of the second ones.
    fn pairs_from(&self, alloc: Global, first: u8, from: Place) -> Result<Vec<PairLength>, NoMemory>
        requires ends { EndsAreOnMap self.now }
        requires departure { IsDeparture self.now.map.now from }

        ensures { IfOk result (λ pairs. ArePairsFrom self.now 8 first from pairs.items) }
    {
        let mut pairs = self.pairs_under_limit(alloc, first, from)?;
        for class in self.class_limit() + 1..8 {
            pairs = self.pairs_under(alloc, class, first, from, pairs)?;
        }
        Ok(pairs)
    }

    /// The pairs of the first and second candidates, at most three of each, by ranks.
    ///
    /// There is one search of the map for each first candidate and each class limit that is looked
    /// at; there is none where there are no second candidates.
    pub(crate) fn pairs(&self, alloc: Global) -> Result<Vec<PairLength>, NoMemory>
        requires { EndsAreOnMap self.now }
        ensures { IfOk result (λ pairs. ArePairs self.now.map.now self.now.tolerances self.now.next
            self.now.firsts.now self.now.seconds.now pairs.items) }
    {
        let mut pairs = Vec::new(alloc);
        if self.seconds.is_empty() {
            return Ok(pairs);
        }
        for (index, first) in self.firsts.iter().enumerate() {
            let mut more = self.pairs_from(alloc, index as u8 + 1, first.place)?;
            pairs.append(&mut more)?;
        }
        Ok(pairs)
    }
}
