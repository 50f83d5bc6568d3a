//! The road map.

ghost use Rattle.std.specs.Prelude.{◌≡◌, [], Contains, MatchBool, ◌<◌, ◌≤◌, Some, IfOk, EachIndex, length, map, option_map, slice_get, slice_index, All};
ghost use Rattle.olr_base.specs.Coordinates.{coordinates_of};
ghost use Rattle.olr_index.specs.ByNode.{IsGrouping, IsLinesOf};
ghost use Rattle.olr_road.specs.BansFrom.{AreBansFrom};
ghost use Rattle.olr_road.specs.Goals.{AreGoalsOn};
ghost use Rattle.olr_road.specs.RoadMap.{RoadMap, IsSoundMap, origins_of, destinations_of, node_of, head_of, ban_of};
ghost use Rattle.olr_road.specs.Windows.{IsBandOf, IsWindowOf};
ghost use Rattle.olr_road.specs.Entries.{IsWithin, nodes_of};
ghost use Rattle.olr_road.specs.RoadMap.{line_ids};
ghost use Rattle.olr_road.specs.Steps.{IsStepOf, line_ranks};
ghost use Rattle.olr_road.specs.inner.Whole.{road_of, starts_of, ends_of};

use crate::axes::{Axes, axes_of};
use crate::ban::Ban;
use crate::goals::Goals;
use crate::line::Line;
use crate::line_set::{Entry, LineSet};
use crate::node::Node;
use crate::placed::placed_lines;
use crate::step::{Step, steps_of};
use olr_base::{Degrees, NoMemory};
use olr_index::{BoundingBox, ByBoundingBox, ByNode, Keyed, PairIndex, Window};
use std::alloc::Global;
use std::marker::Model;

/// The least and the greatest longitude of any point, in microdegrees.
const WESTERNMOST: i32 = -180_000_000;

const EASTERNMOST: i32 = 180_000_000;

/// A road map: nodes and lines, each named by its rank, which is the number of those with a lesser
/// id; and bans on turns from one line to another.
///
/// Contracts see its nodes and its lines, each by rising id, and its bans by the rising ranks of
/// their lines.
#[derive(Drop)]
pub struct Map {
    nodes: Vec<Node>,
    entries: Vec<Entry>,
    /// The points of all lines.
    points: Vec<Degrees>,
    bans: PairIndex<Ban>,
    /// The lines by the node at which they start.
    by_start: ByNode,
    /// The steps of the lines, in the order of `by_start`.
    steps: Vec<Step>,
    /// The lines by the node at which they end.
    by_end: ByNode,
    by_bounding_box: ByBoundingBox,
    axes: Axes,
}

impl Model for Map {
    ghost use Rattle.olr_road.specs.RoadMap.{RoadMap};

    ghost Value = { RoadMap };

    ghost use Rattle.olr_road.specs.inner.Whole.{road_of, IsWhole};

    ghost view = { λ m. road_of m.nodes.items m.entries.items m.points.items m.bans };

    ghost invariant = { λ m. IsWhole m.nodes.items m.entries.items m.points.items m.bans
        m.by_start m.steps.items m.by_end m.by_bounding_box m.axes };
}

/// Each map is sound: its nodes, lines and bans are in their ranges and in order.
pub fn sound(map: &Map)
    ensures { IsSoundMap map.now }
{
    let _count = map.count();
}

impl Map {
    /// The map of nodes by rising id, of lines by rising id, and of bans by the rising ranks of
    /// their lines, which together are a sound map: each in its ranges, each line between two of
    /// the nodes.
    ///
    /// # Errors
    ///
    /// [`NoMemory`] where the allocator refused memory.
    pub fn new(
        alloc: Global,
        nodes: Vec<Node>,
        lines: LineSet,
        bans: Vec<Ban>,
    ) -> Result<Map, NoMemory>
        requires { IsSoundMap (record { nodes = nodes_of nodes.items; lines = lines; bans = bans.items }) }
        ensures { IfOk result
            (λ map. map ≡ record { nodes = nodes_of nodes.items; lines = lines; bans = bans.items }) }
    {
        let (entries, points) = lines.into_parts();
        map_of(alloc, nodes, entries, points, bans)
    }

    /// How many lines it has, at most 200,000.
    pub fn count(&self) -> u32
        ensures count { result ≡ length self.now.lines }
        ensures sound { IsSoundMap self.now }
    {
        self.entries.len() as u32
    }

    /// How many nodes it has, at most 100,000.
    pub fn nodes(&self) -> u32
        ensures { result ≡ length self.now.nodes }
    {
        self.nodes.len() as u32
    }

    /// The node of a rank.
    pub fn node(&self, rank: u32) -> Node
        requires { rank < length self.now.nodes }
        ensures node { slice_get self.now.nodes rank ≡ Some (node_of result) }
        ensures sound { IsSoundMap self.now }
    {
        self.nodes[rank as usize]
    }

    /// The line of a rank, but for its points.
    pub fn line(&self, rank: u32) -> Line
        requires { rank < length self.now.lines }
        ensures line { option_map head_of (slice_get self.now.lines rank) ≡ Some result }
        ensures sound { IsSoundMap self.now }
    {
        self.entries[rank as usize].line
    }

    /// The id of the line of a rank, from 1 to 2^53.
    pub fn line_id(&self, rank: u32) -> u64
        requires { rank < length self.now.lines }
        ensures { result ≡ slice_index (line_ids self.now.lines) rank }
    {
        let line = self.line(rank);
        line.id
    }

    /// The points of the line of a rank, from its start to its end: 2 to 66, no two neighbours of
    /// which are equal.
    pub fn points(&self, rank: u32) -> &[Degrees]
        requires { rank < length self.now.lines }
        ensures points { option_map (λ line. line.points) (slice_get self.now.lines rank)
            ≡ Some (map coordinates_of result.now) }
        ensures sound { IsSoundMap self.now }
    {
        let entry = self.entries[rank as usize];
        &self.points[entry.start as usize..entry.end as usize]
    }

    /// The ranks of the lines that start at a node, in rising order.
    #[tactic(auto, using(crate::proofs::Sets::starts_of_entries))]
    pub fn lines_from(&self, node: u32) -> &[u32]
        requires { node < length self.now.nodes }
        ensures lines { IsLinesOf (origins_of self.now.lines) node result.now }
        ensures sound { IsSoundMap self.now }
    {
        self.by_start.lines_of(node)
    }

    /// The ranks of the lines that end at a node, in rising order.
    #[tactic(auto, using(crate::proofs::Sets::ends_of_entries))]
    pub fn lines_into(&self, node: u32) -> &[u32]
        requires { node < length self.now.nodes }
        ensures lines { IsLinesOf (destinations_of self.now.lines) node result.now }
        ensures sound { IsSoundMap self.now }
    {
        self.by_end.lines_of(node)
    }

    /// The steps of the lines that start at a node, by the rising ranks of the lines.
    pub fn steps_from(&self, node: u32) -> &[Step]
        requires { node < length self.now.nodes }
        ensures lines { IsLinesOf (origins_of self.now.lines) node (line_ranks result.now) }
        ensures steps { All (IsStepOf self.now.lines) result.now }
        ensures sound { IsSoundMap self.now }
    {
        let (begin, end) = self.by_start.bounds(node);
        &self.steps[begin..end]
    }

    /// The ranks of the lines whose latitudes meet the band from `low` to `high`, both included, in
    /// microdegrees; each once, in an order of its own. No line meets a band whose `low` is above
    /// its `high`.
    pub fn band(&self, low: i32, high: i32) -> Window<'_>
        ensures { IsBandOf self.now.lines low high result }
    {
        self.window(&BoundingBox {
            south: low,
            north: high,
            west: WESTERNMOST,
            east: EASTERNMOST,
        })
    }

    /// The ranks of the lines whose latitudes meet those of a window, and whose longitudes meet
    /// those of it, its edges included; each once, in an order of its own. No line meets a window
    /// whose south is above its north, or whose west is above its east.
    pub fn window(&self, window: &BoundingBox) -> Window<'_>
        ensures window { IsWindowOf self.now.lines window.now result }
        ensures sound { IsSoundMap self.now }
    {
        if window.south > window.north {
            return self.by_bounding_box.nothing();
        }
        if window.west > window.east {
            return self.by_bounding_box.nothing();
        }
        self.by_bounding_box.window(window)
    }

    /// Whether a vehicle that reaches the end of the line `from` may not go on to the line `to`, by
    /// their ranks. Numbers that are no rank of a line have no ban.
    pub fn banned(&self, from: u32, to: u32) -> bool
        ensures { MatchBool result
            (Contains self.now.bans (ban_of from to))
            (Contains self.now.bans (ban_of from to) → ⊥) }
    {
        if self.bans.items().is_empty() {
            return false;
        }
        self.bans.find(Ban { from, to }.key()).is_some()
    }

    /// The banned turns, by the rising ranks of their lines: at most 200,000.
    pub fn bans(&self) -> &[Ban]
        ensures bans { result.now ≡ self.now.bans }
        ensures sound { IsSoundMap self.now }
    {
        self.bans.items()
    }

    /// The bans on turns from the end of a line, by the rising ranks of the lines that may not
    /// follow. Empty unless `line` is a rank. It takes constant time.
    pub fn bans_from(&self, line: u32) -> &[Ban]
        ensures { AreBansFrom self.now.bans line result.now }
    {
        self.bans.of_first(line)
    }

    /// Lines, by their ranks, as goals of a search.
    pub fn goals<'a>(&'a self, lines: &'a [u32]) -> Goals<'a>
        requires { All (λ rank. rank < length self.now.lines) lines.now }
        ensures lines { result.lines ≡ lines.now }
        ensures goals { AreGoalsOn self.now result }
    {
        Goals::new(&self.axes, &self.entries, lines)
    }

    /// The same map with no turn banned. It copies the map and builds its indices again.
    ///
    /// # Errors
    ///
    /// [`NoMemory`] where the allocator refused memory.
    pub fn without_bans(&self, alloc: Global) -> Result<Map, NoMemory>
        ensures { IfOk result (λ unbanned. unbanned ≡ record self.now { bans = [] }) }
    {
        let nodes = Vec::from_slice(alloc, &self.nodes)?;
        let entries = Vec::from_slice(alloc, &self.entries)?;
        let points = Vec::from_slice(alloc, &self.points)?;
        map_of(alloc, nodes, entries, points, Vec::new(alloc))
    }
}

/// The node at which each line starts.
fn starts_of(alloc: Global, entries: &[Entry]) -> Result<Vec<u32>, NoMemory>
    ensures { IfOk result (λ starts. starts.items ≡ starts_of entries.now) }
{
    let mut starts = Vec::with_capacity(alloc, entries.len())?;
    for entry in entries {
        starts.push(entry.line.from)?;
    }
    Ok(starts)
}

/// The node at which each line ends.
fn ends_of(alloc: Global, entries: &[Entry]) -> Result<Vec<u32>, NoMemory>
    ensures { IfOk result (λ ends. ends.items ≡ ends_of entries.now) }
{
    let mut ends = Vec::with_capacity(alloc, entries.len())?;
    for entry in entries {
        ends.push(entry.line.to)?;
    }
    Ok(ends)
}

/// The lines by the node at which they start; there are `nodes` nodes.
fn by_start_of(alloc: Global, entries: &[Entry], nodes: u32) -> Result<ByNode, NoMemory>
    requires known { EachIndex (starts_of entries.now)
        (λ line. slice_index (starts_of entries.now) line < nodes) }
    requires at_most { length entries.now ≤ 200000 }
    ensures { IfOk result (λ by_start. IsGrouping (starts_of entries.now) nodes by_start) }
{
    let starts = starts_of(alloc, entries)?;
    let by_start = ByNode::new(alloc, &starts, nodes)?;
    Ok(by_start)
}

/// The lines by the node at which they end; there are `nodes` nodes.
fn by_end_of(alloc: Global, entries: &[Entry], nodes: u32) -> Result<ByNode, NoMemory>
    requires known { EachIndex (ends_of entries.now)
        (λ line. slice_index (ends_of entries.now) line < nodes) }
    requires at_most { length entries.now ≤ 200000 }
    ensures { IfOk result (λ by_end. IsGrouping (ends_of entries.now) nodes by_end) }
{
    let ends = ends_of(alloc, entries)?;
    let by_end = ByNode::new(alloc, &ends, nodes)?;
    Ok(by_end)
}

/// The map of these nodes and lines, each by rising id, and of these bans, by the rising ranks of
/// their lines.
fn map_of(
    alloc: Global,
    nodes: Vec<Node>,
    entries: Vec<Entry>,
    points: Vec<Degrees>,
    bans: Vec<Ban>,
) -> Result<Map, NoMemory>
    requires map { IsSoundMap (road_of nodes.items entries.items points.items bans.items) }
    requires nodes_at_most { length nodes.items ≤ 100000 }
    requires lines_at_most { length entries.items ≤ 200000 }
    requires within { All (IsWithin points.items) entries.items }
    ensures { IfOk result (λ map. map ≡ road_of nodes.items entries.items points.items bans.items) }
{
    let node_count = nodes.len() as u32;
    let by_start = by_start_of(alloc, &entries, node_count)?;
    let by_bounding_box = ByBoundingBox::new(alloc, placed_lines(alloc, &entries, &points)?)?;
    let bans = PairIndex::new(alloc, bans)?;
    let steps = steps_of(alloc, &entries, by_start.lines())?;
    let by_end = by_end_of(alloc, &entries, node_count)?;
    let axes = axes_of(alloc, &nodes, &entries)?;
    Ok(Map {
        nodes,
        entries,
        points,
        bans,
        by_start,
        steps,
        by_end,
        by_bounding_box,
        axes,
    })
}
