//! The map of two files, or of three.

ghost use Rattle.std.specs.Prelude.{◌≡◌, List, ℕ, Option, Some, None, [], IfOk, IfErr};
ghost use Rattle.olr_records.specs.declared.file.File.TheVariants.{Bans};
ghost use Rattle.olr_road.specs.Entries.{nodes_of};
ghost use Rattle.olr_map.specs.Files.{texts_of, file_of, AreLinesAccepted, IsMapLeft, IsFaultLeft, LeavesSource, IsReadInOrder};

use crate::bans::read_bans;
use crate::fault::MapFault;
use crate::lines::read_lines;
use crate::node_index::index_nodes;
use crate::nodes::read_nodes;
use olr_records::{File, Source};
use olr_road::{LineSet, Map, Node};
use std::alloc::Global;

/// The nodes and the lines of a map, each by rising id.
#[derive(Drop)]
struct Network {
    nodes: Vec<Node>,
    lines: LineSet,
}

/// Reads all of the nodes, and then all of the lines.
fn read_network<S1: Source, S2: Source>(
    alloc: Global,
    nodes: &mut S1,
    lines: &mut S2,
) -> Result<Network, MapFault>
    ensures accepted { IfOk result (λ network. AreLinesAccepted (S1.left nodes.old) (S2.left lines.old)
        (nodes_of network.nodes.items) network.lines) }
    ensures fault { IfErr result (λ why. (bans_left : Option (List ℕ))
        → IsFaultLeft (texts_of (S1.left nodes.old) (S2.left lines.old) bans_left) why) }
    ensures of_two { IfErr result (λ why. file_of why ≡ Some Bans → ⊥) }

    ensures nodes_source { LeavesSource S1.left S1.failed nodes.old nodes.new File.Nodes result }
    ensures lines_source { LeavesSource S2.left S2.failed lines.old lines.new File.Lines result }
    ensures in_order { IsReadInOrder S1.left S1.failed nodes.old nodes.new lines.old lines.new }
{
    let mut text = Vec::new(alloc);
    let rows = read_nodes(alloc, nodes, &mut text)?;
    let index = index_nodes(alloc, rows)?;
    let lines = read_lines(alloc, lines, &mut text, &index)?;
    Ok(Network {
        nodes: index.into_items(),
        lines,
    })
}

/// Reads a map without bans, for callers that have no file of them: all of the nodes, and then all
/// of the lines.
///
/// Both files are CSV: fields between commas, in double quotes or not; records ended by CR, LF or
/// both; empty lines passed over; nothing trimmed. `nodes` has the header `id,lon,lat`, `lines` the
/// header `id,from,to,class,form,length,shape`. The order of the records doesn't matter to the map.
///
/// # Errors
///
/// The fault of the first header or record that is faulty, all of `nodes` before `lines`; of one
/// record the first of [`MapFault::TooMany`], [`MapFault::Shape`], [`MapFault::Field`],
/// [`MapFault::Duplicate`], [`MapFault::UnknownNode`], [`MapFault::ZeroLength`] and
/// [`MapFault::Degenerate`]. In place of it or of the map there may be [`MapFault::ReadFailed`],
/// where a call of that source failed, and [`MapFault::NoMemory`], where the allocator refused
/// memory.
pub fn read_map<S1: Source, S2: Source>(
    alloc: Global,
    nodes: &mut S1,
    lines: &mut S2,
) -> Result<Map, MapFault>
    // The map of the whole bytes of both sources, without bans; or their fault.
    ensures map { IfOk result (IsMapLeft (texts_of (S1.left nodes.old) (S2.left lines.old) None)) }
    ensures no_bans { IfOk result (λ map. map.bans ≡ []) }
    ensures fault { IfErr result (IsFaultLeft (texts_of (S1.left nodes.old) (S2.left lines.old) None)) }
    ensures of_two { IfErr result (λ why. file_of why ≡ Some Bans → ⊥) }

    // What became of each source.
    ensures nodes_source { LeavesSource S1.left S1.failed nodes.old nodes.new File.Nodes result }
    ensures lines_source { LeavesSource S2.left S2.failed lines.old lines.new File.Lines result }

    // Whatever the result: the lines are untouched, or the nodes were read to their end.
    ensures in_order { IsReadInOrder S1.left S1.failed nodes.old nodes.new lines.old lines.new }
{
    let network = read_network(alloc, nodes, lines)?;
    let map = Map::new(alloc, network.nodes, network.lines, Vec::new(alloc))?;
    Ok(map)
}

/// Reads a map: all of the nodes, then all of the lines, and then all of the bans.
///
/// The nodes and the lines are those of [`read_map`]. `bans` is a file of the same format, with the
/// header `from,to`: each record has the ids of two lines, and a vehicle that reaches the end of
/// the first may not go on to the second. A file with its header alone makes a map without bans.
///
/// # Errors
///
/// The faults of [`read_map`], and after all of these the fault of the first header or record of
/// `bans` that is faulty: of one record the first of [`MapFault::TooMany`], [`MapFault::Shape`],
/// [`MapFault::Field`], [`MapFault::Duplicate`], [`MapFault::UnknownLine`] and
/// [`MapFault::NotAdjacent`].
#[tactic(auto, using(std::proofs::lemmas::Result::err_from_is_err_and, crate::proofs::Reported::bans_fault))]
pub fn read_map_with_bans<S1: Source, S2: Source, S3: Source>(
    alloc: Global,
    nodes: &mut S1,
    lines: &mut S2,
    bans: &mut S3,
) -> Result<Map, MapFault>
    // The map of the whole bytes of the three sources, or their fault.
    ensures map { IfOk result (IsMapLeft (texts_of (S1.left nodes.old) (S2.left lines.old) (S3.left bans.old))) }
    ensures fault { IfErr result (IsFaultLeft (texts_of (S1.left nodes.old) (S2.left lines.old) (S3.left bans.old))) }

    // What became of each source.
    ensures nodes_source { LeavesSource S1.left S1.failed nodes.old nodes.new File.Nodes result }
    ensures lines_source { LeavesSource S2.left S2.failed lines.old lines.new File.Lines result }
    ensures bans_source { LeavesSource S3.left S3.failed bans.old bans.new File.Bans result }

    // Whatever the result: a source is untouched, or the one before it was read to its end.
    ensures lines_in_order { IsReadInOrder S1.left S1.failed nodes.old nodes.new lines.old lines.new }
    ensures bans_in_order { IsReadInOrder S2.left S2.failed lines.old lines.new bans.old bans.new }
{
    let network = read_network(alloc, nodes, lines)?;
    let bans = read_bans(alloc, bans, &network.lines)?;
    let map = Map::new(alloc, network.nodes, network.lines, bans)?;
    Ok(map)
}
