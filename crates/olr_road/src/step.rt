//! What a search needs of a line.

ghost use Rattle.std.specs.Prelude.{◌≡◌, ◌<◌, All, IfOk, List, length};
ghost use Rattle.olr_base.specs.declared.degrees.Degrees.{Degrees};
ghost use Rattle.olr_road.specs.Entries.{lines_in};
ghost use Rattle.olr_road.specs.Steps.{IsStepOf, line_ranks};

use crate::line_set::Entry;
use olr_base::NoMemory;
use std::alloc::Global;

/// What a search needs of a line: 16 bytes, which lie beside those of the other lines from its
/// node.
#[derive(Clone, Copy, Debug, PartialEq, Eq)]
pub struct Step {
    /// The rank of the line.
    pub line: u32,
    /// The rank of the node at which it ends.
    pub to: u32,
    /// Its length in decimetres, from 1 to 10,000,000.
    pub length: u32,
    /// Its class, from 0, the most important, to 7.
    pub class: u8,
}

/// The steps of the lines of these ranks, in their order.
pub(crate) fn steps_of(
    alloc: Global,
    entries: &[Entry],
    lines: &[u32],
) -> Result<Vec<Step>, NoMemory>
    requires { All (λ rank. rank < length entries.now) lines.now }
    ensures lines { IfOk result (λ steps. line_ranks steps.items ≡ lines.now) }
    ensures steps { IfOk result (λ steps. (points : List Degrees)
        → All (IsStepOf (lines_in points entries.now)) steps.items) }
{
    let mut steps = Vec::with_capacity(alloc, lines.len())?;
    for &rank in lines {
        let line = entries[rank as usize].line;
        steps.push(Step {
            line: rank,
            to: line.to,
            length: line.length,
            class: line.class,
        })?;
    }
    Ok(steps)
}
