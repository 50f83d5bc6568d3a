//! The lines on a shortest path to a line. Lengths and limits are in decimetres.

ghost use Rattle.std.specs.Prelude.{◌<◌, ℕ, length, IfOk, MatchOption};
ghost use Rattle.olr_route.specs.Shortest.{AreGroups, AreOnShortestPaths, LeadsOn};
ghost use Rattle.olr_route.specs.Steps.{AreWithin};
ghost use Rattle.olr_route.specs.Starts.{table_in};

use crate::groups::Groups;
use crate::search::Search;
use crate::starts::Starts;
use crate::tight_turns::has_tight_turn;
use olr_base::NoMemory;
use olr_road::{Place, sound};
use std::alloc::Global;

/// The least length to the start of a line, if that and the line's own length are the length
/// `at_end`, and from its end a turn to a line of `groups` is tight.
fn start_on_path(
    search: &Search,
    starts: &Starts,
    groups: &Groups,
    at_end: u64,
    line: u32,
) -> Option<u64>
    requires line { line < length search.now.map.now.lines }
    requires groups { AreGroups search.now groups.now }

    ensures { MatchOption result
        ((at_start : ℕ) → LeadsOn search.now (table_in search.now.map.now starts.now) groups.now
        at_end line at_start → ⊥)
        (LeadsOn search.now (table_in search.now.map.now starts.now) groups.now at_end line) }
{
    let at_start = at_end.checked_sub(u64::from(search.map.line(line).length))?;
    if starts.length_to(search.map, line) != Some(at_start) {
        return None;
    }
    if !has_tight_turn(search, Place { line, at: 0 }, at_start, groups) {
        return None;
    }
    Some(at_start)
}

/// The lines on a shortest path to the start of the target line. The limit of the search is no less
/// than the lengths to the starts of lines.
///
/// From the target it goes backwards, group by group and by falling length: of the lines that end
/// where a group starts, after the group's length, those are on a shortest path from which a turn
/// to the group isn't banned. So the time is in proportion to the lines into the node of each
/// group, and the bans on turns from them, times a logarithm.
#[tactic(auto, using(crate::proofs::Spreading::line_inside, crate::proofs::Spreading::spread_to, crate::proofs::Spreading::unreached))]
pub(crate) fn lines_on_shortest_paths(
    alloc: Global,
    search: &Search,
    starts: &Starts,
    target: u32,
) -> Result<Groups, NoMemory>
    requires target { target < length search.now.map.now.lines }
    requires within { AreWithin (table_in search.now.map.now starts.now) search.now.limit }

    ensures { IfOk result (AreOnShortestPaths search.now.map.now search.now.class
        (table_in search.now.map.now starts.now) target) }
{
    let map = search.map;
    sound(map);
    let mut groups = Groups::new(alloc);
    let Some(length) = starts.length_to(map, target) else {
        return Ok(groups);
    };
    let mut group = (length, map.line(target).from);
    groups.add(alloc, group, target)?;
    'groups: loop {
        for &line in map.lines_into(group.1) {
            let Some(at_start) = start_on_path(search, starts, &groups, group.0, line) else {
                continue;
            };
            groups.add(alloc, (at_start, map.line(line).from), line)?;
        }
        let Some(before) = groups.last_before(group) else {
            return Ok(groups);
        };
        group = before;
    }
}
