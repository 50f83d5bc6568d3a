//! The parts of one matching, by its key.

ghost use Rattle.std.specs.Prelude.{◌+◌, ◌<◌, ◌≤◌, IfOk, length};
ghost use Rattle.olr_candidates.specs.declared.candidate.Candidate.{Candidate};
ghost use Rattle.olr_keys.specs.Matching.{IsKey};
ghost use Rattle.olr_matching.specs.Layers.{AreLayersOn};
ghost use Rattle.olr_matching.specs.LegOnMap.{IsLegFrom};
ghost use Rattle.olr_matching.specs.Matched.{AreCandidatesAt, AreRanks, IsMatchedBy, IsOfRank, IsPair};
ghost use Rattle.olr_matching.specs.Routes.{IsAdmittedPair};

use crate::layers::Layers;
use crate::leg_on_map::{LegOnMap, leg_at};
use crate::matched::Matched;
use crate::pair::Pair;
use crate::routes::Routes;
use arrayvec::ArrayVec;
use olr_base::NoMemory;
use olr_binary::MAX_POINTS;
use olr_candidates::Candidate;
use olr_keys::Key;
use olr_road::Map;
use std::alloc::Global;

impl Layers {
    /// The candidate of a rank, from 1, in a layer, counted from 0.
    pub(crate) fn candidate(&self, layer: usize, rank: u8) -> Candidate
        requires { (candidate : Candidate) × IsOfRank self.now.candidates layer rank candidate }
        ensures { IsOfRank self.now.candidates layer rank result }
    {
        self.layer(layer)[usize::from(rank) - 1]
    }

    /// The length in decimetres with which the leg admits the candidates of a pair.
    pub(crate) fn length(&self, pair: Pair) -> u32
        requires { IsAdmittedPair self.now pair }
        ensures { IsPair self.now pair.layer pair.first pair.second result }
    {
        let seconds = self.layer(pair.layer + 1).len();
        let place = usize::from(pair.first - 1) * seconds + usize::from(pair.second - 1);
        let Some(length) = self.lengths(pair.layer)[place] else {
            unreachable!()
        };
        length
    }

    /// The candidates of these ranks, one of each layer.
    pub(crate) fn candidates_of(&self, ranks: &[u8]) -> ArrayVec<Candidate, MAX_POINTS>
        requires ranks { AreRanks self.now ranks.now }
        requires at_most { length ranks.now ≤ 32 }
        ensures { AreCandidatesAt self.now.candidates ranks.now result.items }
    {
        let mut chosen = ArrayVec::new();
        for (layer, rank) in ranks.iter().enumerate() {
            chosen.push(self.candidate(layer, *rank));
        }
        chosen
    }

    /// The leg from a layer, counted from 0 and not the last one, on the map.
    pub(crate) fn leg_on_map<'a>(&'a self, map: &'a Map, layer: usize) -> LegOnMap<'a>
        requires layers { AreLayersOn map.now self.now }
        requires within { layer + 1 < length self.now.candidates }
        ensures { IsLegFrom map.now self.now.tolerances self.now.reference self.now.candidates layer
            result }
    {
        leg_at(
            map,
            &self.reference,
            &self.tolerances,
            &self.candidates,
            layer,
        )
    }

    /// The parts of the matching that has a key: the candidate of each point, and the length, the
    /// penalty and the route of each leg. The layers have to be those of the map, and the key one
    /// of the answers of their table. It makes at most one search a leg; [`Routes`](crate::Routes)
    /// makes fewer for many keys.
    ///
    /// # Errors
    ///
    /// [`NoMemory`] where the allocator refused memory.
    pub fn resolve(&self, alloc: Global, map: &Map, key: &Key) -> Result<Matched, NoMemory>
        requires layers { AreLayersOn map.now self.now }
        requires key { IsKey self.now.penalties key.now }
        ensures { IfOk result (IsMatchedBy map.now self.now key.now) }
    {
        Routes::new(alloc, map, self).parts(alloc, key)
    }
}
