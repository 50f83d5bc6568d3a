//! Lines with their points, while a map is made of them.

ghost use Rattle.std.specs.Prelude.{◌≡◌, ◌<◌, ◌≤◌, ◌++◌, [], ◌∷◌, length, map, option_map, slice_get};
ghost use Rattle.std.specs.Prelude.{All, Contains, IfOk, MatchOption, OnErr, OnOk, Some, IsPermutation};
ghost use Rattle.std.specs.List.Sorted.{IsStrictlyIncreasing};
ghost use Rattle.olr_base.specs.Coordinates.{coordinates_of};
ghost use Rattle.olr_index.specs.Repeats.{IsFirstRepeat, Sorts};
ghost use Rattle.olr_road.specs.Entries.{IsWithin, entry_id, line_id, lines_in};
ghost use Rattle.olr_road.specs.RoadMap.{head_of, line_ids, line_of};

use crate::line::Line;
use olr_base::{Degrees, NoMemory};
use olr_index::{Keyed, keys_of, rank_of_key, sort_or_repeat};
use std::alloc::Global;
use std::marker::Model;

/// A line, and where its points begin and end among those of all lines.
#[derive(Clone, Copy, Drop)]
pub(crate) struct Entry {
    pub(crate) line: Line,
    pub(crate) start: u32,
    pub(crate) end: u32,
}

impl Keyed for Entry {
    ghost key_of = { entry_id };

    fn key(&self) -> u64 {
        self.line.id
    }
}

/// Lines of which a map is made, each with its points: at most 200,000.
///
/// Contracts see them as a list, in the order in which they were added or sorted.
#[derive(Drop)]
pub struct LineSet {
    entries: Vec<Entry>,
    /// The points of all lines.
    points: Vec<Degrees>,
}

impl Model for LineSet {
    ghost use Rattle.std.specs.Prelude.{List};
    ghost use Rattle.olr_road.specs.Entries.{AreGathered, lines_in};
    ghost use Rattle.olr_road.specs.RoadMap.{RoadLine};

    ghost Value = { List RoadLine };

    ghost view = { λ lines. lines_in lines.points.items lines.entries.items };

    ghost invariant = { λ lines. AreGathered lines.points.items lines.entries.items };
}

impl LineSet {
    /// No lines.
    pub fn new(alloc: Global) -> Self
        ensures { result ≡ [] }
    {
        LineSet {
            entries: Vec::new(alloc),
            points: Vec::new(alloc),
        }
    }

    /// How many lines there are.
    pub fn count(&self) -> u32
        ensures count { result ≡ length self.now }
        ensures at_most { result ≤ 200000 }
    {
        self.entries.len() as u32
    }

    /// The line of a place in the list, but for its points.
    pub fn line(&self, place: u32) -> Line
        requires { place < length self.now }
        ensures { option_map head_of (slice_get self.now place) ≡ Some result }
    {
        self.entries[place as usize].line
    }

    /// Adds a line with these points, of which there are 1 to 66, behind fewer than 200,000 others.
    ///
    /// # Errors
    ///
    /// [`NoMemory`] where the allocator refused memory. The lines are as before then.
    #[tactic(auto, using(crate::proofs::Gathered::pushed))]
    pub fn push(&mut self, line: Line, points: &[Degrees]) -> Result<(), NoMemory>
        requires room { length self.old < 200000 }
        requires at_least { 1 ≤ length points.now }
        requires at_most { length points.now ≤ 66 }
        ensures ok { OnOk result
            (self.new ≡ self.old ++ line_of line (map coordinates_of points.now) ∷ []) }
        ensures err { OnErr result (self.new ≡ self.old) }
    {
        let start = self.points.len();
        self.points.extend_from_slice(points)?;
        let entry = Entry {
            line,
            start: start as u32,
            end: self.points.len() as u32,
        };
        if self.entries.push(entry).is_err() {
            self.points.truncate(start);
            return Err(NoMemory);
        }
        Ok(())
    }

    /// The ids of the lines, in their order.
    ///
    /// # Errors
    ///
    /// [`NoMemory`] where the allocator refused memory.
    #[tactic(auto, using(crate::proofs::Sets::ids_of_entries))]
    pub fn ids(&self, alloc: Global) -> Result<Vec<u64>, NoMemory>
        ensures { IfOk result (λ ids. ids.items ≡ line_ids self.now) }
    {
        let ids = keys_of(alloc, &self.entries)?;
        Ok(ids)
    }

    /// Sorts the lines by rising id. Where an id occurs twice they can't rise; the answer is then
    /// the place, in the order in which they came, of the first line whose id an earlier one has.
    ///
    /// # Errors
    ///
    /// [`NoMemory`] where the allocator refused memory. The lines may be in another order then.
    pub fn sort_or_repeat(&mut self, alloc: Global) -> Result<Option<usize>, NoMemory>
        ensures same { IsPermutation self.old self.new }
        ensures sorted { IfOk result (λ repeat. MatchOption repeat
            (Sorts line_id self.old self.new)
            (IsFirstRepeat (line_ids self.old))) }
    {
        let repeat = sort_or_repeat(alloc, &mut self.entries)?;
        Ok(repeat)
    }

    /// The place of the line of an id among lines by rising id; none where no line has this id.
    pub fn find(&self, id: u64) -> Option<u32>
        requires { IsStrictlyIncreasing (line_ids self.now) }
        ensures { MatchOption result
            (Contains (line_ids self.now) id → ⊥)
            (λ place. slice_get (line_ids self.now) place ≡ Some id) }
    {
        rank_of_key(&self.entries, id)
    }

    /// The lines, and the points of all of them.
    pub(crate) fn into_parts(self) -> (Vec<Entry>, Vec<Degrees>)
        ensures lines { lines_in result.1.items result.0.items ≡ self }
        ensures within { All (IsWithin result.1.items) result.0.items }
    {
        let LineSet { entries, points } = self;
        (entries, points)
    }
}
