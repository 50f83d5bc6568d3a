//! The arrivals that a search has still to make.

ghost use Rattle.std.specs.Prelude.{◌≡◌, ◌+◌, ◌≤◌, [], ◌∷◌, All, IfNone, IfOk, IfSome};
ghost use Rattle.std.specs.Prelude.{IsPermutation};
ghost use Rattle.olr_route.specs.Dijkstra.{HasGoalsOnMap, IsPushed, IsStepOver};

use crate::arrival::Arrival;
use crate::line_end::arrival_over;
use crate::search::Search;
use olr_base::NoMemory;
use olr_road::Step;
use std::alloc::Global;
use std::collections::BinaryHeap;
use std::marker::Model;

/// For how many arrivals there is room from the beginning.
const ROOM: usize = 64;

/// The arrivals that a search has still to make, the nearest one first.
#[derive(Drop)]
pub(crate) struct Queue {
    arrivals: BinaryHeap<Arrival>,
}

impl Model for Queue {
    ghost use Rattle.std.specs.BinaryHeap.{IsHeap, heap_items};
    ghost use Rattle.std.specs.Ordering.{flip_args, nat_cmp, on};
    ghost use Rattle.std.specs.Prelude.{List};
    ghost use Rattle.olr_route.specs.declared.arrival.Arrival.{Arrival};

    ghost Value = { List Arrival };

    ghost view = { λ queue. heap_items queue.arrivals };

    ghost invariant = { λ queue.
        IsHeap (flip_args (on (λ arrival. arrival.at_end) nat_cmp)) (heap_items queue.arrivals) };
}

impl Queue {
    /// No arrivals.
    pub(crate) fn new(alloc: Global) -> Result<Queue, NoMemory>
        ensures { IfOk result (λ queue. queue ≡ []) }
    {
        let mut arrivals = BinaryHeap::new(alloc);
        arrivals.reserve(ROOM)?;
        Ok(Queue { arrivals })
    }

    /// Puts the arrival at the end of the line of a step in, where the length to the step is
    /// `so_far`, if the limits let the line through and the search may go on from there.
    pub(crate) fn push_over(
        &mut self,
        search: &Search,
        step: Step,
        so_far: u64,
    ) -> Result<(), NoMemory>
        requires goals { HasGoalsOnMap search.now }
        requires step { IsStepOver search.now.map.now step }

        ensures { IfOk result (λ _. IsPushed search.now (λ _. ⊥) step.line
            (so_far + step.length) self.old self.new) }
    {
        let Some(arrival) = arrival_over(search, step, so_far) else {
            return Ok(());
        };
        self.arrivals.push(arrival)?;
        Ok(())
    }

    /// Takes the nearest arrival out, if there is one.
    pub(crate) fn pop(&mut self) -> Option<Arrival>
        ensures taken { IfSome result (λ arrival. IsPermutation self.old (arrival ∷ self.new)) }
        ensures nearest { IfSome result (λ arrival.
            All (λ other. arrival.at_end ≤ other.at_end) self.new) }
        ensures none { IfNone result ((self.old ≡ []) × (self.new ≡ [])) }
    {
        self.arrivals.pop()
    }
}
