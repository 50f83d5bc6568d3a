//! The lengths to the starts of lines.

ghost use Rattle.std.specs.Prelude.{◌≡◌, ◌<◌, ℕ, length, nat_eq, IfOk, None};
ghost use Rattle.std.specs.HashMap.{get};
ghost use Rattle.olr_road.specs.RoadMap.{RoadMap};
ghost use Rattle.olr_route.specs.NodeLengths.{length_of};
ghost use Rattle.olr_route.specs.Starts.{table_in};

use crate::node_lengths::NodeLengths;
use olr_base::NoMemory;
use olr_road::Map;
use std::alloc::Global;
use std::collections::HashMap;

/// The starts of lines that are reached, each with the length to it in decimetres.
///
/// All lines that start at a node have the length that is kept for the node, but for the lines of
/// `own`. So a junction takes the same room however many lines start there.
#[derive(Drop)]
pub(crate) struct Starts {
    /// The length to the start of each line from a node.
    pub(crate) nodes: NodeLengths,
    /// The lines for which a length is kept by itself, by the line's rank, with None where the
    /// start isn't reached.
    pub(crate) own: HashMap<u32, Option<u64>>,
}

impl Starts {
    /// Those of a search that has reached nothing.
    pub(crate) fn new(alloc: Global, map: &Map) -> Result<Starts, NoMemory>
        ensures empty { IfOk result (λ starts. (road : RoadMap) (line : ℕ)
            → table_in road starts line ≡ None) }
        ensures nodes { IfOk result (λ starts. (node : ℕ) → length_of starts.nodes node ≡ None) }
        ensures own { IfOk result (λ starts. (line : ℕ) → get nat_eq starts.own line ≡ None) }
    {
        let nodes = NodeLengths::new(alloc, map.nodes())?;
        let own = HashMap::new(alloc);
        Ok(Starts { nodes, own })
    }

    /// The length to the start of a line, if it is reached.
    pub(crate) fn length_to(&self, map: &Map, line: u32) -> Option<u64>
        requires { line < length map.now.lines }
        ensures { result ≡ table_in map.now self.now line }
    {
        if let Some(own) = self.own.get(&line) {
            return *own;
        }
        self.nodes.get(map.line(line).from)
    }
}
