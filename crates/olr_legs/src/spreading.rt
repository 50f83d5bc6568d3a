//! How a search goes back from a line.

ghost use Rattle.std.specs.Prelude.{◌≡◌, ◌+◌, ◌≤◌, ◌<◌, ◌∷◌, ℕ, List, IfOk, MatchBool, OnOk};
ghost use Rattle.std.specs.BinaryHeap.{heap_len};
ghost use Rattle.olr_legs.specs.Avoiding.{most_turns};
ghost use Rattle.olr_legs.specs.Labels.{AreKept, AreSettled, AreSettledBut, AreSound, IsAt, IsOver};
ghost use Rattle.olr_legs.specs.Search.{IsReady, LeadsOn};
ghost use Rattle.olr_route.specs.Walk.{start_of};

use crate::labels::Labels;
use crate::search::Search;
use olr_base::NoMemory;
use std::alloc::Global;

/// The most turns that the searches of one leg may look at.
const MOST_TURNS: u32 = 300_000;

impl Labels {
    /// Goes back from a line that has a walk of this length; `behind` has the lines of that walk,
    /// its own first. Offers the walks over the lines before it. False where the turns that may be
    /// looked at ran out.
    fn go_back(
        &mut self,
        alloc: Global,
        search: &Search,
        line: u32,
        length: u64,
        behind: &[u32],
        turns: &mut u32,
    ) -> Result<bool, NoMemory>
        requires ready { IsReady search.now }
        requires way { (rest : List ℕ) × (behind.now ≡ line ∷ rest)
            × LeadsOn search.now (start_of line) length rest }
        requires sound { AreSound search.now self.old }
        requires settled { AreSettledBut search.now self.old (IsOver line length behind.now) }
        requires turns { turns.old ≤ most_turns }

        ensures sound { OnOk result (AreSound search.now self.new) }
        ensures kept { OnOk result (AreKept self.old self.new) }
        ensures settled { IfOk result (λ whole. MatchBool whole
            ((turns.new ≤ most_turns) × AreSettled search.now self.new) (most_turns < turns.new)) }
        ensures turns { OnOk result (turns.old ≤ turns.new) }
        ensures waiting { OnOk result (heap_len self.new.waiting + turns.old
            ≤ heap_len self.old.waiting + turns.new) }
    {
        let left = search.bound - length;
        let lines = search.map.lines_into(search.map.line(line).from);
        for &before in lines {
            if search.map.banned(before, line) {
                continue;
            }
            *turns += 1;
            if *turns > MOST_TURNS {
                return Ok(false);
            }
            if search.may_precede(before, left) {
                let long = u64::from(search.map.line(before).length);
                self.offer(alloc, before, long + length, behind)?;
            }
        }
        Ok(true)
    }

    /// Goes back from a line that waited with a walk of this length, if it still has it. False
    /// where the turns that may be looked at ran out.
    pub(crate) fn spread(
        &mut self,
        alloc: Global,
        search: &Search,
        line: u32,
        length: u64,
        turns: &mut u32,
    ) -> Result<bool, NoMemory>
        requires ready { IsReady search.now }
        requires sound { AreSound search.now self.old }
        requires settled { AreSettledBut search.now self.old (IsAt line length) }
        requires turns { turns.old ≤ most_turns }

        ensures sound { OnOk result (AreSound search.now self.new) }
        ensures kept { OnOk result (AreKept self.old self.new) }
        ensures settled { IfOk result (λ whole. MatchBool whole
            ((turns.new ≤ most_turns) × AreSettled search.now self.new) (most_turns < turns.new)) }
        ensures turns { OnOk result (turns.old ≤ turns.new) }
        ensures waiting { OnOk result (heap_len self.new.waiting + turns.old
            ≤ heap_len self.old.waiting + turns.new) }
    {
        let Some(way) = self.ways.get(&line) else {
            return Ok(true);
        };
        if way.length != length {
            return Ok(true);
        }
        let behind = way.with_line(alloc, line)?;
        self.go_back(alloc, search, line, length, &behind, turns)
    }
}
