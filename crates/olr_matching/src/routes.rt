//! The parts of many matchings.

ghost use Rattle.std.specs.List.{AllZip};
ghost use Rattle.std.specs.Prelude.{◌≡◌, ◌<◌, ◌≤◌, All, IfOk, IfSome, length};
ghost use Rattle.olr_keys.specs.Matching.{IsKey};
ghost use Rattle.olr_matching.specs.Layers.{AreLayersOn};
ghost use Rattle.olr_matching.specs.Matched.{AreRanks, IsLegOfPair, IsMatchedBy, IsRouteOfPair};
ghost use Rattle.olr_matching.specs.Routes.{IsAdmittedPair};
ghost use Rattle.olr_matching.specs.Searches.{AreSearchesOn};

use crate::layers::Layers;
use crate::leg::{leg_penalty, next_of};
use crate::matched::{Leg, Matched};
use crate::pair::{Pair, pair_at, slot};
use crate::searches::Searches;
use olr_base::NoMemory;
use olr_binary::MAX_POINTS;
use olr_keys::Key;
use olr_road::Map;
use olr_route::Piece;
use std::alloc::Global;
use std::collections::HashMap;
use std::marker::Model;

/// How many pieces may be kept from one page to the next.
const MAX_PIECES: usize = 2_000_000;

/// The routes of a reference on a map, for the parts of many matchings. It takes them from the
/// searches that the layers were built with, where it has them, and makes the others again, and
/// keeps them. It keeps each route that it has found, and drops all before a page where they have
/// more than 2,000,000 pieces.
#[derive(Drop)]
pub struct Routes<'a> {
    map: &'a Map,
    layers: &'a Layers,
    searches: Searches,
    /// By the number of the pair of candidates that they join.
    routes: HashMap<u32, Vec<Piece>>,
    /// How many pieces the routes have.
    pieces: usize,
}

impl<'a> Model for Routes<'a> {
    ghost use Rattle.std.specs.HashMap.{get};
    ghost use Rattle.std.specs.Prelude.{nat_eq};
    ghost use Rattle.olr_matching.specs.Routes.{AreRoutesOn, RoutesValue};

    ghost Value = { RoutesValue };

    ghost view = { λ r. record { road = r.map.now; layers = r.layers.now } };

    ghost invariant = { λ r. AreRoutesOn r.map.now r.layers.now r.searches
        (get nat_eq r.routes) };
}

impl<'a> Routes<'a> {
    /// No routes yet, of the reference of these layers on this map. The layers have to be those of
    /// the map.
    pub fn new(alloc: Global, map: &'a Map, layers: &'a Layers) -> Routes<'a>
        requires layers { AreLayersOn map.now layers.now }
        ensures { result ≡ record { road = map.now; layers = layers.now } }
    {
        Routes::with_searches(alloc, map, layers, Searches::new(alloc))
    }

    /// The same with the searches that these layers were built with
    /// ([`Layers::build_with_searches`]), so that most routes come without another search.
    pub fn with_searches(
        alloc: Global,
        map: &'a Map,
        layers: &'a Layers,
        searches: Searches,
    ) -> Routes<'a>
        requires layers { AreLayersOn map.now layers.now }
        requires searches { AreSearchesOn map.now searches }
        ensures { result ≡ record { road = map.now; layers = layers.now } }
    {
        Routes {
            map,
            layers,
            searches,
            routes: HashMap::new(alloc),
            pieces: 0,
        }
    }

    /// The map on which the routes lie.
    pub fn map(&self) -> &'a Map
        ensures { result.now ≡ self.now.road }
    {
        self.map
    }

    /// The layers whose candidates the routes join, which are those of the map.
    pub fn layers(&self) -> &'a Layers
        ensures layers { result.now ≡ self.now.layers }
        ensures on_map { AreLayersOn self.now.road self.now.layers }
    {
        self.layers
    }

    /// The parts of the matchings that have these keys, in order: what [`Layers::resolve`] answers
    /// for each. The keys have to be answers of the layers' table.
    ///
    /// It makes at most one search for each leg and first candidate, and none where it has one that
    /// serves the candidate.
    ///
    /// # Errors
    ///
    /// [`NoMemory`] where the allocator refused memory.
    #[tactic(auto, using(crate::proofs::Lists::zip_more))]
    pub fn matched(&mut self, alloc: Global, keys: &[Key]) -> Result<Vec<Matched>, NoMemory>
        requires { All (IsKey self.old.layers.penalties) keys.now }
        ensures matched { IfOk result (λ all.
            AllZip (IsMatchedBy self.old.road self.old.layers) keys.now all.items) }
        ensures same { self.new ≡ self.old }
    {
        self.make_room(alloc);
        self.find_routes(alloc, keys)?;
        let mut all = Vec::with_capacity(alloc, keys.len())?;
        for key in keys {
            all.push(self.parts(alloc, key)?)?;
        }
        Ok(all)
    }

    /// Drops all routes, where they have too many pieces to be kept for another page.
    fn make_room(&mut self, alloc: Global)
        ensures { self.new ≡ self.old }
    {
        if self.pieces > MAX_PIECES {
            self.routes = HashMap::new(alloc);
            self.pieces = 0;
        }
    }

    /// Finds the routes between the candidates of keys, where they aren't kept, and keeps them. It
    /// goes leg by leg, and from a first candidate it finds all routes at once. So its search is
    /// made once, also where there is no room for those of all first candidates.
    fn find_routes(&mut self, alloc: Global, keys: &[Key]) -> Result<(), NoMemory>
        requires { All (IsKey self.old.layers.penalties) keys.now }
        ensures { self.new ≡ self.old }
    {
        for leg in 1..MAX_POINTS {
            for key in keys {
                let ranks = self.ranks(key);
                if leg >= ranks.len() || self.kept(pair_at(ranks, leg - 1)).is_some() {
                    continue;
                }
                self.find_routes_from(alloc, leg, ranks[leg - 1], keys)?;
            }
        }
        Ok(())
    }

    /// Finds the routes of the leg of this number, from 1, whose first candidate has the rank
    /// `first`: to each second candidate that keys have with it, where the route isn't kept. Keeps
    /// them.
    fn find_routes_from(
        &mut self,
        alloc: Global,
        leg: usize,
        first: u8,
        keys: &[Key],
    ) -> Result<(), NoMemory>
        requires leg { 1 ≤ leg }
        requires keys { All (IsKey self.old.layers.penalties) keys.now }
        ensures { self.new ≡ self.old }
    {
        for key in keys {
            let ranks = self.ranks(key);
            if leg >= ranks.len() || ranks[leg - 1] != first {
                continue;
            }
            self.find_route(alloc, pair_at(ranks, leg - 1))?;
        }
        Ok(())
    }

    /// Finds the route of a pair, where it isn't kept, and keeps it.
    fn find_route(&mut self, alloc: Global, pair: Pair) -> Result<(), NoMemory>
        requires { IsAdmittedPair self.old.layers pair }
        ensures { self.new ≡ self.old }
    {
        if self.kept(pair).is_some() {
            return Ok(());
        }
        let route = self.search(alloc, pair)?;
        self.keep(pair, route)
    }

    /// The route of a pair, from a search that is kept, or else from a new one, which is then kept.
    fn search(&mut self, alloc: Global, pair: Pair) -> Result<Vec<Piece>, NoMemory>
        requires { IsAdmittedPair self.old.layers pair }
        ensures route { IfOk result (λ pieces. IsRouteOfPair self.old.road self.old.layers
            pair.layer pair.first pair.second pieces.items) }
        ensures same { self.new ≡ self.old }
    {
        let leg = self.layers.leg_on_map(self.map, pair.layer);
        let from = self.layers.candidate(pair.layer, pair.first).place;
        let to = self.layers.candidate(pair.layer + 1, pair.second).place;
        let index = self.searches.find_or_search(alloc, &leg, from)?;
        let Some(pieces) = self
            .searches
            .at(index)
            .route_from(alloc, leg.map, from, to)?
        else {
            unreachable!()
        };
        Ok(pieces)
    }

    /// Keeps the route of a pair.
    fn keep(&mut self, pair: Pair, route: Vec<Piece>) -> Result<(), NoMemory>
        requires layer { pair.layer < 31 }
        requires route { IsRouteOfPair self.old.road self.old.layers
            pair.layer pair.first pair.second route.items }
        ensures { self.new ≡ self.old }
    {
        let pieces = self.pieces.saturating_add(route.len());
        self.routes.insert(slot(pair), route)?;
        self.pieces = pieces;
        Ok(())
    }

    /// The route of a pair, if it is kept.
    fn kept(&self, pair: Pair) -> Option<&[Piece]>
        requires { pair.layer < 31 }
        ensures { IfSome result (λ pieces. IsRouteOfPair self.now.road self.now.layers
            pair.layer pair.first pair.second pieces.now) }
    {
        let Some(route) = self.routes.get(&slot(pair)) else {
            return None;
        };
        Some(route.as_slice())
    }

    /// The ranks of a key's candidates.
    fn ranks<'k>(&self, key: &'k Key) -> &'k [u8]
        requires { IsKey self.now.layers.penalties key.now }
        ensures is { result.now ≡ key.now.ranks }
        ensures are { AreRanks self.now.layers result.now }
        ensures at_least { 1 ≤ length result.now }
        ensures at_most { length result.now ≤ 32 }
    {
        let _ = &self.layers;
        key.ranks.as_slice()
    }

    /// The leg with this route between the candidates of a pair.
    fn leg_with(&self, pair: Pair, route: Vec<Piece>) -> Leg
        requires pair { IsAdmittedPair self.now.layers pair }
        requires route { IsRouteOfPair self.now.road self.now.layers
            pair.layer pair.first pair.second route.items }
        ensures { IsLegOfPair self.now.road self.now.layers
            pair.layer pair.first pair.second result }
    {
        let layers = self.layers;
        let length = layers.length(pair);
        Leg {
            length: u64::from(length),
            penalty: leg_penalty(&next_of(&layers.reference, pair.layer), length),
            route,
        }
    }

    /// The leg between the candidates of a pair, with a copy of the route that is kept, or else
    /// with one that is looked for.
    fn leg(&mut self, alloc: Global, pair: Pair) -> Result<Leg, NoMemory>
        requires { IsAdmittedPair self.old.layers pair }
        ensures leg { IfOk result
            (IsLegOfPair self.old.road self.old.layers pair.layer pair.first pair.second) }
        ensures same { self.new ≡ self.old }
    {
        let Some(route) = self.kept(pair) else {
            let route = self.search(alloc, pair)?;
            return Ok(self.leg_with(pair, route));
        };
        let route = Vec::from_slice(alloc, route)?;
        Ok(self.leg_with(pair, route))
    }

    /// The parts of the matching that has a key.
    pub(crate) fn parts(&mut self, alloc: Global, key: &Key) -> Result<Matched, NoMemory>
        requires { IsKey self.old.layers.penalties key.now }
        ensures matched { IfOk result (IsMatchedBy self.old.road self.old.layers key.now) }
        ensures same { self.new ≡ self.old }
    {
        let ranks = self.ranks(key);
        let mut legs = Vec::with_capacity(alloc, ranks.len())?;
        for layer in 0..ranks.len() - 1 {
            legs.push(self.leg(alloc, pair_at(ranks, layer))?)?;
        }
        Ok(Matched {
            candidates: self.layers.candidates_of(ranks),
            legs,
        })
    }
}
