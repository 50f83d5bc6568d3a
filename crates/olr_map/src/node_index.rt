//! The nodes of a map by rising id, and the rank of each.

ghost use Rattle.std.specs.Prelude.{◌≡◌, ◌≤◌, length, IfOk, MatchOption, Contains};
ghost use Rattle.std.specs.List.Sorted.{IsStrictlyIncreasing};
ghost use Rattle.olr_base.specs.Coordinates.{coordinates_of};
ghost use Rattle.olr_map.specs.Rows.{IsNodeAt};
ghost use Rattle.olr_road.specs.RoadMap.{node_ids};
ghost use Rattle.olr_road.specs.Entries.{nodes_of};

use olr_base::{Degrees, NoMemory};
use olr_index::KeyIndex;
use olr_road::Node;
use std::alloc::Global;

/// Nodes by rising id, found by id.
pub(crate) type NodeIndex = KeyIndex<Node>;

/// The index of nodes whose ids rise.
#[tactic(auto, using(olr_road::proofs::Sets::ids_of_rows))]
pub(crate) fn index_nodes(alloc: Global, rows: Vec<Node>) -> Result<NodeIndex, NoMemory>
    requires rise { IsStrictlyIncreasing (node_ids (nodes_of rows.items)) }
    requires at_most { length rows.items ≤ 100000 }
    ensures { IfOk result (λ index. index ≡ rows.items) }
{
    let index = KeyIndex::new(alloc, rows)?;
    Ok(index)
}

/// The rank and the place of the node of an id.
#[tactic(auto, using(olr_road::proofs::Sets::ids_of_rows))]
pub(crate) fn find_node(nodes: &NodeIndex, id: u64) -> Option<(u32, Degrees)>
    ensures { MatchOption result
        (Contains (node_ids (nodes_of nodes.now)) id → ⊥)
        (λ found. IsNodeAt (nodes_of nodes.now) id found.0 (coordinates_of found.1)) }
{
    let Some(rank) = nodes.find(id) else {
        return None;
    };
    Some((rank, nodes.items()[rank as usize].place))
}
