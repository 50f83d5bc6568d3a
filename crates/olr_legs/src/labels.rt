//! The walks that a search going backwards has found.

ghost use Rattle.std.specs.Prelude.{◌+◌, ◌≤◌, IfOk, OnOk};
ghost use Rattle.std.specs.BinaryHeap.{heap_len};
ghost use Rattle.olr_legs.specs.Labels.{AreSettled, AreSound, HasEnd, IsOffered};
ghost use Rattle.olr_legs.specs.Search.{IsReady};

use crate::search::Search;
use crate::way::Way;
use olr_base::NoMemory;
use std::alloc::Global;
use std::cmp::Reverse;
use std::collections::{BinaryHeap, HashMap};

/// The first walk that a search has found so far from the start of each line to the place where the
/// walks end.
#[derive(Drop)]
pub(crate) struct Labels {
    /// The walks, by the ranks of the lines.
    pub(crate) ways: HashMap<u32, Way>,
    /// The lines that wait to be gone back from, each with the length of its walk; the one with the
    /// shortest walk comes first. A line may wait with a walk that it no longer has.
    pub(crate) waiting: BinaryHeap<Reverse<(u64, u32)>>,
}

impl Labels {
    /// Offers a walk to a line: it is kept where the line has none or a later one, and then the
    /// line waits.
    pub(crate) fn offer(
        &mut self,
        alloc: Global,
        line: u32,
        length: u64,
        behind: &[u32],
    ) -> Result<(), NoMemory>
        ensures offered { OnOk result (IsOffered line length behind.now self.old self.new) }
        ensures waiting { OnOk result
            (heap_len self.new.waiting ≤ heap_len self.old.waiting + 1) }
    {
        if let Some(way) = self.ways.get(&line) {
            if !way.is_behind(length, behind) {
                return Ok(());
            }
        }
        let behind = Vec::from_slice(alloc, behind)?;
        self.ways.insert(line, Way { length, behind })?;
        self.waiting.push(Reverse((length, line)))?;
        Ok(())
    }

    /// The walk from the start of the last line alone, if the search may go there.
    pub(crate) fn new(alloc: Global, search: &Search) -> Result<Labels, NoMemory>
        requires { IsReady search.now }
        ensures sound { IfOk result (AreSound search.now) }
        ensures settled { IfOk result (AreSettled search.now) }
        ensures end { IfOk result (HasEnd search.now) }
    {
        let mut labels = Labels {
            ways: HashMap::new(alloc),
            waiting: BinaryHeap::new(alloc),
        };
        if !search.may_end() {
            return Ok(labels);
        }
        let to = search.to;
        labels.offer(alloc, to.line, u64::from(to.at), &[])?;
        Ok(labels)
    }
}
