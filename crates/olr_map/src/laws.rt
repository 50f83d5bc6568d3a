//! Laws on the map or the fault of three texts, and on a map's canonical text, with no code: each
//! is the contract of an empty function.

ghost use Rattle.std.specs.Prelude.{◌≡◌, ℕ, List, Some, filter, length, nat_lt, slice_get};
ghost use Rattle.olr_map.specs.declared.fault.MapFault.{MapFault};
ghost use Rattle.olr_map.specs.Tables.{IsBanSet, IsLineSet, IsNodeSet};
ghost use Rattle.olr_road.specs.RoadMap.{IsSoundMap, RoadMap};
ghost use Rattle.olr_map.specs.Files.{HasOutcome, IsFaultOf, IsMapOf};
ghost use Rattle.olr_road.specs.RoadMap.{line_ids, node_ids};
ghost use Rattle.olr_road.specs.Canonical.{canonical_text};

/// Three texts have one map at most.
pub fn one_map()
    ensures { (nodes_text lines_text bans_text : List ℕ) (a b : RoadMap)
        → IsMapOf nodes_text lines_text bans_text a
        → IsMapOf nodes_text lines_text bans_text b → a ≡ b }
{}

/// Three texts that have a map have no fault.
#[tactic(auto, using(crate::proofs::OneMap::map_without_fault))]
pub fn no_map_and_fault()
    ensures { (nodes_text lines_text bans_text : List ℕ) (road : RoadMap) (fault : MapFault)
        → IsMapOf nodes_text lines_text bans_text road
        → IsFaultOf nodes_text lines_text bans_text fault → ⊥ }
{}

/// Three texts have one fault at most.
#[tactic(auto, using(crate::proofs::OneMap::fault_once))]
pub fn one_fault()
    ensures { (nodes_text lines_text bans_text : List ℕ) (a b : MapFault)
        → IsFaultOf nodes_text lines_text bans_text a
        → IsFaultOf nodes_text lines_text bans_text b → a ≡ b }
{}

/// Three texts have a map or a fault. With the laws before this one: just one of the two, and only
/// one.
#[tactic(auto, using(crate::proofs::Outcome::outcome))]
pub fn map_or_fault()
    ensures { (nodes_text lines_text bans_text : List ℕ)
        → HasOutcome nodes_text lines_text bans_text }
{}

/// The nodes, the lines and the bans of three texts make a sound map.
pub fn sound_map()
    ensures { (nodes_text lines_text bans_text : List ℕ) (road : RoadMap)
        → IsNodeSet nodes_text road.nodes → IsLineSet road.nodes lines_text road.lines
        → IsBanSet road.lines bans_text road.bans → IsSoundMap road }
{}

/// The rank of a node, its place in the list of a map, is the number of nodes with a lesser id. The
/// same goes for lines.
#[tactic(auto, using(crate::proofs::Rising::rank_counts_lesser))]
pub fn rank_counts()
    ensures nodes { (road : RoadMap) (rank id : ℕ) → IsSoundMap road
        → slice_get (node_ids road.nodes) rank ≡ Some id
        → length (filter (λ other. nat_lt other id) (node_ids road.nodes)) ≡ rank }
    ensures lines { (road : RoadMap) (rank id : ℕ) → IsSoundMap road
        → slice_get (line_ids road.lines) rank ≡ Some id
        → length (filter (λ other. nat_lt other id) (line_ids road.lines)) ≡ rank }
{}

/// A canonical text is that of one sound map at most: it decides the nodes, the lines with their
/// points, and the bans.
#[tactic(auto, using(crate::proofs::CanonicalOnce::map_by_text))]
pub fn one_map_by_canonical_text()
    ensures { (a b : RoadMap) → IsSoundMap a → IsSoundMap b
        → canonical_text a ≡ canonical_text b → a ≡ b }
{}
