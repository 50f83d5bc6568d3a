//! Lines in groups, by the node at which they start and the least length to their start.

ghost use Rattle.std.specs.Prelude.{◌≡◌, ℕ, [], IfOk};
ghost use Rattle.olr_route.specs.Groups.{group_of, HasGroup, IsAdded, IsLastBefore};

use olr_base::NoMemory;
use std::alloc::Global;
use std::collections::BTreeMap;

/// Lines in groups: those that start at the same node, with the same least length to their start in
/// decimetres.
///
/// It is a tree, not a hash map, for a map's file chooses the lengths of its lines: it could choose
/// them so that many keys have the same hash.
#[derive(Drop)]
pub(crate) struct Groups {
    table: BTreeMap<(u64, u32), Vec<u32>>,
}

impl Groups {
    /// No lines.
    pub(crate) fn new(alloc: Global) -> Groups
        ensures lines { (node length : ℕ) → group_of result node length ≡ [] }
        ensures none { (key : ℕ × ℕ) → HasGroup result key → ⊥ }
    {
        Groups {
            table: BTreeMap::new(alloc),
        }
    }

    /// The lines of the group of a node and a length.
    pub(crate) fn lines(&self, node: u32, length: u64) -> &[u32]
        ensures { result.now ≡ group_of self.now node length }
    {
        let Some(lines) = self.table.get(&(length, node)) else {
            return &[];
        };
        lines
    }

    /// Puts a line into the group of a length and a node, behind the lines that it has.
    pub(crate) fn add(&mut self, alloc: Global, key: (u64, u32), line: u32) -> Result<(), NoMemory>
        ensures { IfOk result (λ _. IsAdded key.1 key.0 line self.old self.new) }
    {
        if let Some(lines) = self.table.get_mut(&key) {
            lines.push(line)?;
            return Ok(());
        }
        let lines = vec![in alloc; line]?;
        self.table.insert(key, lines)?;
        Ok(())
    }

    /// The last group before one, by length and at one length by node: its length, and its node.
    pub(crate) fn last_before(&self, key: (u64, u32)) -> Option<(u64, u32)>
        ensures { IsLastBefore self.now key result }
    {
        let Some((before, _)) = self.table.range(..key).next_back() else {
            return None;
        };
        Some(*before)
    }
}
