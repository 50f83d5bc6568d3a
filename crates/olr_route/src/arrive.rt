//! Arrivals at the ends of lines, by rising length in decimetres.
//!
//! So the first arrival at a node is the nearest one of those that the search doesn't leave out,
//! and its length is the least one of these to each line that starts there and to which the turn
//! isn't banned. To another line it is the length of the first arrival from which the turn isn't
//! banned. What is reached stays as it is.

ghost use Rattle.std.specs.Prelude.{◌≡◌, ◌≢◌, ◌<◌, [], ℕ, All, Contains, IfOk, IsTrue, None, Some};
ghost use Rattle.std.specs.Prelude.{false, nat_eq};
ghost use Rattle.std.specs.HashMap.{get};
ghost use Rattle.olr_road.specs.Steps.{IsStepOf, line_ranks};
ghost use Rattle.olr_route.specs.Dijkstra.{AreNodes, AreVisited, HasArrived, HasGoalsOnMap};
ghost use Rattle.olr_route.specs.Dijkstra.{IsDone, steps_at};
ghost use Rattle.olr_route.specs.Nodes.{EndsAt};

use crate::arrival::Arrival;
use crate::search::Search;
use crate::state::State;
use crate::turn::is_allowed_by;
use olr_base::NoMemory;
use olr_road::{Step, sound};
use std::alloc::Global;
use std::mem;

impl State {
    /// Tries the turns to lines from the node at an arrival; `steps` has the steps of these lines.
    /// Those to which the turn isn't banned are reached, and the arrivals at their ends are put
    /// into the queue, where the search may go on from there; the others aren't reached, and their
    /// steps are returned. The length to a line that is reached is kept for the line itself, unless
    /// the arrival is the first one at the node.
    fn try_turns(
        &mut self,
        alloc: Global,
        search: &Search,
        arrival: Arrival,
        is_first: bool,
        steps: &[Step],
    ) -> Result<Vec<Step>, NoMemory>
        requires goals { HasGoalsOnMap search.now }
        requires steps { All (IsStepOf search.now.map.now.lines) steps.now }
        requires own { IsTrue is_first → (next : ℕ) → Contains (line_ranks steps.now) next
            → get nat_eq self.old.starts.own next ≡ None }
        requires later { is_first ≡ false → (next : ℕ) → Contains (line_ranks steps.now) next
            → get nat_eq self.old.starts.own next ≡ Some None }

        ensures steps { IfOk result (λ banned.
            All (IsStepOf search.now.map.now.lines) banned.items) }
        ensures visited { IfOk result (λ banned.
            AreVisited search.now (IsDone search.now.map.now self.old) arrival is_first
            (line_ranks steps.now) (line_ranks banned.items)
            (get nat_eq self.old.starts.own) (get nat_eq self.new.starts.own)
            self.old.queue self.new.queue) }
        ensures same { IfOk result (λ _. (self.new.starts.nodes ≡ self.old.starts.nodes)
            × (self.new.banned ≡ self.old.banned)) }
    {
        let bans = search.map.bans_from(arrival.line);
        let mut banned = Vec::new(alloc);
        for &step in steps {
            let next = step.line;
            if !is_allowed_by(bans, next) {
                banned.push(step)?;
                // At a later arrival that is kept of the line already.
                if !is_first {
                    continue;
                }
                self.starts.own.insert(next, None)?;
                continue;
            }
            self.push(search, step, arrival.at_end)?;
            if is_first {
                continue;
            }
            self.starts.own.insert(next, Some(arrival.at_end))?;
        }
        Ok(banned)
    }

    /// Keeps the steps of the lines from a node to which every turn was banned so far, and no list
    /// where there are none. Where the arrival at the node `is_first`, there is no list to remove.
    fn keep_banned(&mut self, node: u32, banned: Vec<Step>, is_first: bool) -> Result<(), NoMemory>
        requires { IsTrue is_first → get nat_eq self.old.banned node ≡ None }

        ensures here { IfOk result (λ _. steps_at self.new node ≡ banned.items) }
        ensures none { IfOk result (λ _. banned.items ≡ []
            → get nat_eq self.new.banned node ≡ None) }
        ensures elsewhere { IfOk result (λ _. (other : ℕ) → other ≢ node
            → get nat_eq self.new.banned other ≡ get nat_eq self.old.banned other) }
        ensures same { self.new ≡ record self.old { banned = self.new.banned } }
    {
        if !banned.is_empty() {
            self.banned.insert(node, banned)?;
        } else if !is_first {
            self.banned.remove(&node);
        }
        Ok(())
    }

    /// Arrives at the end of a line: each line that may follow is reached now, after the length to
    /// that end, unless it was reached before.
    pub(crate) fn arrive(
        &mut self,
        alloc: Global,
        search: &Search,
        arrival: Arrival,
    ) -> Result<(), NoMemory>
        requires goals { HasGoalsOnMap search.now }
        requires ends { EndsAt search.now.map.now arrival.node arrival.line }
        requires positive { 0 < arrival.at_end }
        requires nodes { AreNodes search.now.map.now self.old }

        ensures { IfOk result (λ _. HasArrived search.now arrival
            self.old self.new) }
    {
        sound(search.map);
        let node = arrival.node;
        if self.starts.nodes.get(node).is_none() {
            let steps = search.map.steps_from(node);
            let banned = self.try_turns(alloc, search, arrival, true, steps)?;
            self.starts.nodes.insert(node, arrival.at_end)?;
            self.keep_banned(node, banned, true)?;
            return Ok(());
        }
        let Some(banned) = self.banned.get_mut(&node) else {
            return Ok(());
        };
        // An empty list stays meanwhile, so that the node isn't taken for done.
        let steps = mem::replace(banned, Vec::new(alloc));
        let banned = self.try_turns(alloc, search, arrival, false, &steps)?;
        self.keep_banned(node, banned, false)?;
        Ok(())
    }
}
