//! Departures that share a search, and so their lengths. Lengths and limits are in decimetres.

ghost use Rattle.std.specs.Prelude.{◌≡◌, ◌<◌, length, Decides};
ghost use Rattle.olr_road.specs.Place.{IsDeparture, IsPlace};
ghost use Rattle.olr_route.specs.Least.{IsLengthWithin};
ghost use Rattle.olr_route.specs.Reach.{AreLengthsOn, Covers};
ghost use Rattle.olr_route.specs.Sharing.{LeadOnAlike, Serves};
ghost use Rattle.olr_route.specs.Steps.{rest_of_line};

use crate::endpoints::{is_ahead, is_open_up_to};
use crate::line_end::sum_within;
use crate::reach::Reach;
use olr_road::{Map, Place, sound};

/// A sufficient test for two lines that the same lines may follow under a class limit: both are let
/// through, they end at one node, and no turn from the end of either is banned.
fn lead_on_alike(map: &Map, class: u8, line: u32, other: u32) -> bool
    requires line { line < length map.now.lines }
    requires other { other < length map.now.lines }
    ensures { Decides result (LeadOnAlike map.now class line other) }
{
    let one = map.line(line);
    let another = map.line(other);
    if one.to != another.to || one.class > class || another.class > class {
        return false;
    }
    map.bans_from(line).is_empty() && map.bans_from(other).is_empty()
}

/// The length in decimetres from a place to the end of its line.
pub(crate) fn rest_of_line(map: &Map, place: Place) -> u32
    requires { IsDeparture map.now place }
    ensures { result ≡ rest_of_line map.now place }
{
    map.line(place.line).length - place.at
}

/// Whether a search from `start` under a class limit serves `from` too, so that
/// [`Reach::length_from`] and [`Reach::route_from`] answer for it: they are one place, or their
/// lines end at one node, both let through, no turn from the end of either is banned, and it isn't
/// farther from `start` to that end. Both have to be before their line's end
/// ([`is_before_end`](crate::is_before_end)).
pub fn shares_search(map: &Map, class: u8, start: Place, from: Place) -> bool
    requires start { IsDeparture map.now start }
    requires from { IsDeparture map.now from }
    ensures { Decides result (Serves map.now class start from) }
{
    sound(map);
    if start == from {
        return true;
    }
    if rest_of_line(map, start) > rest_of_line(map, from) {
        return false;
    }
    lead_on_alike(map, class, start.line, from.line)
}

impl Reach {
    /// The least length from a place that the search serves ([`shares_search`]), in decimetres,
    /// where it is at most the limit; else none: what [`Reach::length_to`] of a search from there
    /// answers. `to` has to be on the map ([`is_on_map`](crate::is_on_map)) and one of the places
    /// that the search covers ([`Reach::covers`]), and the map the one that the lengths were made
    /// from.
    pub fn length_from(&self, map: &Map, from: Place, to: Place) -> Option<u64>
        requires held { AreLengthsOn map.now self.now }
        requires from { IsDeparture map.now from }
        requires serves { Serves map.now self.now.class self.now.from from }
        requires on_map { IsPlace map.now to }
        requires covers { Covers self.now to.line }

        ensures { IsLengthWithin map.now self.now.class from to self.now.limit result }
    {
        sound(map);
        let search = self.search(map);
        if !is_open_up_to(map, search.class, to) {
            return None;
        }
        if is_ahead(from, to) {
            return sum_within(0, u64::from(to.at - from.at), search.limit);
        }
        let Some(to_start) = self.starts().length_to(map, to.line) else {
            return None;
        };
        let more = rest_of_line(map, from) - rest_of_line(map, search.from);
        sum_within(to_start, u64::from(more) + u64::from(to.at), search.limit)
    }
}
