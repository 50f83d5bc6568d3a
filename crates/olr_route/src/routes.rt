//! The route from one place to another. Lengths and limits are in decimetres.

ghost use Rattle.std.specs.Prelude.{◌≡◌, IfOk, MatchOption};
ghost use Rattle.olr_road.specs.Place.{IsDeparture, IsPlace};
ghost use Rattle.olr_route.specs.Shortest.{AreGroups, FollowsFirstTight};
ghost use Rattle.olr_route.specs.Least.{HasNoWalkWithin};
ghost use Rattle.olr_route.specs.Reach.{AreLengthsOn, Covers};
ghost use Rattle.olr_route.specs.Route.{IsRouteWithin};
ghost use Rattle.olr_route.specs.Sharing.{Serves};
ghost use Rattle.olr_route.specs.Walk.{length_at};

use crate::dijkstra::lengths_from;
use crate::endpoints::is_ahead;
use crate::groups::Groups;
use crate::piece::Piece;
use crate::reach::Reach;
use crate::search::Search;
use crate::sharing::rest_of_line;
use crate::shortest::lines_on_shortest_paths;
use crate::tight_turns::first_tight_turn;
use olr_base::NoMemory;
use olr_road::{Map, Place, sound};
use std::alloc::Global;

/// The piece from a place to the end of its line.
#[tactic(auto, using(crate::proofs::Lines::head_length))]
fn piece_to_end(map: &Map, place: Place) -> Piece
    requires { IsDeparture map.now place }
    ensures { result ≡ record {
      line = place.line;
      from = place.at;
      to = length_at map.now place.line;
    } }
{
    Piece {
        line: place.line,
        from: place.at,
        to: map.line(place.line).length,
    }
}

/// The pieces of a walk from one place to another that takes, at the end of each line, the first
/// line on a shortest path. `groups` has the lines on a shortest path from where the search
/// started. The walk is that from there, but for its first piece, which begins at `from`. The
/// lengths to the ends rise from line to line, so that each group is looked at once.
fn follow(
    alloc: Global,
    search: &Search,
    groups: &Groups,
    from: Place,
    to: Place,
) -> Result<Vec<Piece>, NoMemory>
    requires start { IsDeparture search.now.map.now search.now.from }
    requires from { IsDeparture search.now.map.now from }
    requires groups { AreGroups search.now groups.now }

    ensures { IfOk result (λ pieces. FollowsFirstTight search.now groups.now from to pieces.items) }
{
    let map = search.map;
    sound(map);
    let mut pieces = Vec::new(alloc);
    let mut begin = from;
    let mut place = search.from;
    let mut so_far = 0;
    while let Some(next) = first_tight_turn(search, place, so_far, groups) {
        pieces.push(piece_to_end(map, begin))?;
        so_far += u64::from(rest_of_line(map, place));
        place = Place { line: next, at: 0 };
        begin = place;
    }
    pieces.push(Piece {
        line: begin.line,
        from: begin.at,
        to: to.at,
    })?;
    Ok(pieces)
}

impl Reach {
    /// The route from a place that the search serves ([`shares_search`](crate::shares_search)):
    /// what [`Reach::route_to`] of a search from there answers, up to the same limit.
    ///
    /// Its time and memory are those of [`Reach::route_to`].
    ///
    /// # Errors
    ///
    /// [`NoMemory`] where the allocator refused memory.
    #[tactic(auto, using(crate::proofs::SharedRoutes::last_drivable, crate::proofs::SharedRoutes::route_ahead))]
    pub fn route_from(
        &self,
        alloc: Global,
        map: &Map,
        from: Place,
        to: Place,
    ) -> Result<Option<Vec<Piece>>, NoMemory>
        requires held { AreLengthsOn map.now self.now }
        requires from { IsDeparture map.now from }
        requires serves { Serves map.now self.now.class self.now.from from }
        requires on_map { IsPlace map.now to }
        requires covers { Covers self.now to.line }

        ensures { IfOk result (λ route. MatchOption route
            (HasNoWalkWithin map.now self.now.class from to self.now.limit)
            (λ pieces. IsRouteWithin map.now self.now.class from to self.now.limit pieces.items)) }
    {
        sound(map);
        let Some(_length) = self.length_from(map, from, to) else {
            return Ok(None);
        };
        if is_ahead(from, to) {
            let piece = Piece {
                line: from.line,
                from: from.at,
                to: to.at,
            };
            return Ok(Some(vec![in alloc; piece]?));
        }
        let search = self.search(map);
        let groups = lines_on_shortest_paths(alloc, &search, self.starts(), to.line)?;
        let pieces = follow(alloc, &search, &groups, from, to)?;
        Ok(Some(pieces))
    }

    /// The route to a place, from the lengths that are at hand: what [`route`] answers for their
    /// class limit, their place and their limit. The place has to be on the map
    /// ([`is_on_map`](crate::is_on_map)) and one of those that the search covers
    /// ([`Reach::covers`]), and the map the one that the lengths were made from.
    ///
    /// Its time is in proportion to the lines that end where a line on a shortest path to the place
    /// starts, and the bans on turns from them, times a logarithm, however many lines the search
    /// reached and whatever the junctions of the map are; its memory to the lines on a shortest
    /// path. Where lines on a shortest path start at one node after several least lengths, the
    /// lines that end there count once for each of these lengths.
    ///
    /// # Errors
    ///
    /// [`NoMemory`] where the allocator refused memory.
    pub fn route_to(
        &self,
        alloc: Global,
        map: &Map,
        to: Place,
    ) -> Result<Option<Vec<Piece>>, NoMemory>
        requires held { AreLengthsOn map.now self.now }
        requires on_map { IsPlace map.now to }
        requires covers { Covers self.now to.line }

        ensures { IfOk result (λ route. MatchOption route
            (HasNoWalkWithin map.now self.now.class self.now.from to self.now.limit)
            (λ pieces. IsRouteWithin map.now self.now.class self.now.from to self.now.limit
            pieces.items)) }
    {
        let (_, from, _) = self.asked();
        self.route_from(alloc, map, from, to)
    }
}

/// The route from one place to another under a class limit: the walk of least length, and of such
/// walks the first by the order of the lists of their lines' ids. None where no walk is within
/// `limit`, in decimetres. `from` has to be before its line's end
/// ([`is_before_end`](crate::is_before_end)), `to` on the map ([`is_on_map`](crate::is_on_map)).
///
/// The route keeps a last piece that is empty; the class of that piece's line doesn't matter.
///
/// # Errors
///
/// [`NoMemory`] where the allocator refused memory.
pub fn route(
    alloc: Global,
    map: &Map,
    class: u8,
    from: Place,
    to: Place,
    limit: u64,
) -> Result<Option<Vec<Piece>>, NoMemory>
    requires start { IsDeparture map.now from }
    requires on_map { IsPlace map.now to }

    ensures { IfOk result (λ route. MatchOption route
        (HasNoWalkWithin map.now class from to limit)
        (λ pieces. IsRouteWithin map.now class from to limit pieces.items)) }
{
    let reach = lengths_from(alloc, map, class, from, limit)?;
    reach.route_to(alloc, map, to)
}
