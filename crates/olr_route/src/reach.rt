//! The lengths from a place. Lengths and limits are in decimetres.

ghost use Rattle.std.specs.Prelude.{◌≡◌, Decides, None, option_map};
ghost use Rattle.olr_road.specs.Place.{IsPlace};
ghost use Rattle.olr_road.specs.RoadMap.{RoadMap};
ghost use Rattle.olr_route.specs.Least.{IsLengthWithin};
ghost use Rattle.olr_route.specs.Reach.{AreLengthsOn, Covers, length_to_start};
ghost use Rattle.olr_route.specs.Starts.{table_in};

use crate::search::Search;
use crate::starts::Starts;
use olr_road::{Map, Place};
use std::marker::Model;

/// The least lengths in decimetres from a place of a map to the starts of its lines, or of those
/// that a search was asked for, under a class limit and up to a length limit.
///
/// It holds for the map that it was made from: [`Reach::length_to`] takes that map again.
#[derive(Drop)]
pub struct Reach {
    class: u8,
    from: Place,
    limit: u64,
    /// The lines to whose starts it was asked for lengths, if not to all.
    asked: Option<Vec<u32>>,
    /// The lengths to the starts of the lines that are reached.
    starts: Starts,
}

impl Model for Reach {
    ghost use Rattle.std.specs.Prelude.{option_map};
    ghost use Rattle.olr_route.specs.Reach.{Lengths};

    ghost Value = { Lengths };

    ghost view = { λ r. record {
      class = r.class;
      from = r.from;
      limit = r.limit;
      asked = option_map (λ lines. lines.items) r.asked;
      nodes = r.starts.nodes;
      own = r.starts.own.entries;
    } };
}

impl Reach {
    /// The lengths that a search found: to the starts of the lines that it was asked for, or of all
    /// lines where `asked` is None.
    pub(crate) fn new(
        class: u8,
        from: Place,
        limit: u64,
        asked: Option<Vec<u32>>,
        mut starts: Starts,
    ) -> Reach
        ensures { result ≡ record {
          class = class;
          from = from;
          limit = limit;
          asked = option_map (λ lines. lines.items) asked;
          nodes = starts.nodes;
          own = starts.own.entries;
        } }
    {
        starts.nodes.shrink();
        Reach {
            class,
            from,
            limit,
            asked,
            starts,
        }
    }

    /// The class limit, the place and the limit that the search was asked for.
    pub fn asked(&self) -> (u8, Place, u64)
        ensures { result ≡ (self.now.class, self.now.from, self.now.limit) }
    {
        (self.class, self.from, self.limit)
    }

    /// Whether it has the length to a place: the search ran for all lines, or this line was a
    /// target.
    pub fn covers(&self, to: Place) -> bool
        ensures { Decides result (Covers self.now to.line) }
    {
        match &self.asked {
            None => true,
            Some(lines) => lines.contains(&to.line),
        }
    }

    /// A measure of its memory: about how many numbers of 8 bytes it takes.
    pub fn size(&self) -> usize {
        // A line takes some 35 bytes: 4 for its key, 16 for its value, and 15 to be found.
        let own = self.starts.own.capacity().saturating_mul(5);
        let asked = self.asked.as_ref().map_or(0, |lines| lines.len() / 2);
        let lengths = self.starts.nodes.size().saturating_add(own);
        lengths.saturating_add(asked)
    }

    /// Its class limit, place and limit on this map, as a search for all lines.
    pub(crate) fn search<'a>(&self, map: &'a Map) -> Search<'a>
        ensures { result ≡ record {
          map = map.entry;
          class = self.now.class;
          from = self.now.from;
          limit = self.now.limit;
          goals = None;
        } }
    {
        Search {
            map,
            class: self.class,
            from: self.from,
            limit: self.limit,
            goals: None,
        }
    }

    /// The lines whose start is reached, each with a length to it: the least one where the search
    /// covers it.
    pub(crate) fn starts(&self) -> &Starts
        ensures { (road : RoadMap) → table_in road result.now ≡ length_to_start road self.now }
    {
        &self.starts
    }

    /// The least length to a place, in decimetres, where it is at most the limit; else none. The
    /// place has to be on the map ([`is_on_map`](crate::is_on_map)) and one of those that the
    /// search covers ([`Reach::covers`]), and the map the one that the lengths were made from. At
    /// the start of a line the class of that line doesn't matter. From a place to itself, or to one
    /// behind it on the same line, only walks that leave the line and come back count.
    pub fn length_to(&self, map: &Map, to: Place) -> Option<u64>
        requires held { AreLengthsOn map.now self.now }
        requires on_map { IsPlace map.now to }
        requires covers { Covers self.now to.line }

        ensures { IsLengthWithin map.now self.now.class self.now.from to self.now.limit result }
    {
        self.length_from(map, self.from, to)
    }
}
