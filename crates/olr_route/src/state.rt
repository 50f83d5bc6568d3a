//! How far a search has come.

ghost use Rattle.std.specs.Prelude.{◌≡◌, ◌+◌, [], ℕ, IfOk, MatchBool, None, ⊤};
ghost use Rattle.olr_road.specs.RoadMap.{RoadMap};
ghost use Rattle.olr_road.specs.Steps.{IsStepOf};
ghost use Rattle.olr_route.specs.Dijkstra.{AreNodes, HasGoalsOnMap, IsDone, IsDoneAt, IsPushed};
ghost use Rattle.olr_route.specs.Starts.{table_in};
ghost use Rattle.olr_route.specs.Walk.{length_at};

use crate::queue::Queue;
use crate::search::Search;
use crate::starts::Starts;
use olr_base::NoMemory;
use olr_road::{Map, Step};
use std::alloc::Global;
use std::collections::HashMap;

/// How far a search has come.
#[derive(Drop)]
pub(crate) struct State {
    /// The lengths to the starts of the lines that are reached.
    pub(crate) starts: Starts,
    /// By the rank of a node, the steps of the lines from there to which every turn was banned so
    /// far, if there are any.
    pub(crate) banned: HashMap<u32, Vec<Step>>,
    /// The arrivals to come.
    pub(crate) queue: Queue,
}

impl State {
    /// Nothing is reached.
    pub(crate) fn new(alloc: Global, map: &Map) -> Result<State, NoMemory>
        ensures none_reached { IfOk result (λ state. (road : RoadMap) (line : ℕ)
            → table_in road state.starts line ≡ None) }
        ensures nodes { IfOk result (λ state. (road : RoadMap) → AreNodes road state) }
        ensures queue { IfOk result (λ state. state.queue ≡ []) }
    {
        let starts = Starts::new(alloc, map)?;
        let banned = HashMap::new(alloc);
        let queue = Queue::new(alloc)?;
        Ok(State {
            starts,
            banned,
            queue,
        })
    }

    /// A sufficient test for a node from which all lines are reached: the search arrived there, and
    /// no steps are kept of lines to which every turn was banned.
    fn is_done(&self, node: u32) -> bool
        ensures { MatchBool result (IsDoneAt self.now node) ⊤ }
    {
        self.starts.nodes.get(node).is_some() && !self.banned.contains_key(&node)
    }

    /// Puts an arrival at the end of the line of a step into the queue, if the limits let the line
    /// through, the search may go on from there, and the node there isn't done. `at_start` is the
    /// length to the start of the line, in decimetres.
    #[tactic(auto, using(crate::proofs::Visiting::step_length))]
    pub(crate) fn push(
        &mut self,
        search: &Search,
        step: Step,
        at_start: u64,
    ) -> Result<(), NoMemory>
        requires goals { HasGoalsOnMap search.now }
        requires step { IsStepOf search.now.map.now.lines step }

        ensures pushed { IfOk result (λ _. IsPushed search.now
            (IsDone search.now.map.now self.old) step.line
            (at_start + length_at search.now.map.now step.line) self.old.queue self.new.queue) }
        ensures starts { self.new.starts ≡ self.old.starts }
        ensures banned { self.new.banned ≡ self.old.banned }
    {
        if self.is_done(step.to) {
            return Ok(());
        }
        self.queue.push_over(search, step, at_start)?;
        Ok(())
    }
}
