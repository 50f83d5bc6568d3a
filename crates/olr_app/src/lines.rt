//! The lines of a map that meet a box: their output, and a run that writes it.

ghost use Rattle.std.specs.Prelude.{◌≡◌, ◌⊎◌, IfErr, IfOk, OnOk, string_bytes};
ghost use Rattle.olr_map.specs.Files.{IsMapLeft, IsReadInOrder, texts_of};
ghost use Rattle.olr_road.specs.RoadMap.{RoadMap};
ghost use Rattle.olr_app.specs.Lines.{AreLinesIn, AreLinesPrinted, AreLinesStopped, AreLinesWritten, IsMapFault};
ghost use Rattle.olr_app.specs.Sources.{LeavesFile};

use crate::sink::Sink;
use crate::writing::write_whole;
use olr_base::NoMemory;
use olr_lines::{LinesInBox, lines_collection, lines_in, lines_json};
use olr_map::{File, Source, read_map_with_bans};
use olr_request::{Fault, Format, LinesRequest};
use olr_road::Map;
use std::alloc::Global;

/// Lines in a format, with their points where `shapes` are asked for.
fn printed_lines(
    alloc: Global,
    map: &Map,
    found: &LinesInBox,
    format: Format,
    shapes: bool,
) -> Result<String, NoMemory>
    ensures { IfOk result (λ text.
        AreLinesIn format shapes map.now found.now (string_bytes text)) }
{
    match format {
        Format::Text | Format::Json => lines_json(alloc, map, found, shapes),
        Format::GeoJson => lines_collection(alloc, map, found, shapes),
    }
}

/// The lines of a map that are asked for, in the format that is.
///
/// # Errors
///
/// [`NoMemory`] where the allocator refused memory.
pub fn lines_of(alloc: Global, map: &Map, asked: &LinesRequest) -> Result<String, NoMemory>
    ensures { IfOk result (λ text. AreLinesPrinted asked.now map.now (string_bytes text)) }
{
    let found = lines_in(alloc, map, &asked.within, asked.most)?;
    let text = printed_lines(alloc, map, &found, asked.format, asked.shape)?;
    Ok(text)
}

/// Writes the lines of a map that are asked for, and has them passed on.
fn write_lines<O: Sink>(
    alloc: Global,
    map: &Map,
    asked: &LinesRequest,
    out: &mut O,
) -> Result<(), Fault>
    ensures answered { OnOk result (AreLinesWritten O.taken O.failed O.put_gives O.flush_gives
        asked.now map.now out.old out.new) }
    ensures fault { IfErr result (AreLinesStopped O.taken O.failed O.put_gives O.flush_gives
        asked.now map.now out.old out.new) }
{
    let output = lines_of(alloc, map, asked)?;
    let Ok(()) = write_whole(out, output.as_bytes()) else {
        return Err(Fault::WriteFailed);
    };
    Ok(())
}

/// Answers a request for the lines of a map: reads its files, makes the whole output, and only then
/// writes it and has it passed on.
///
/// A map without bans has the source of a file of bans that is its header alone.
///
/// # Errors
///
/// The fault of the map, as [`read_map_with_bans`] answers it, or [`Fault::ReadFailed`] where the
/// source of that file failed in a call; else [`Fault::WriteFailed`] where the sink failed in a call
/// or took no byte of a rest. [`Fault::NoMemory`] where the allocator refused memory. After
/// `WriteFailed` a beginning of the output was written, after any other fault nothing.
pub fn run_lines<S1: Source, S2: Source, S3: Source, O: Sink>(
    alloc: Global,
    asked: &LinesRequest,
    nodes: &mut S1,
    lines: &mut S2,
    bans: &mut S3,
    out: &mut O,
) -> Result<(), Fault>
    // The sink took the whole output, and was flushed once.
    ensures answered { OnOk result ((road : RoadMap)
        × IsMapLeft (texts_of (S1.left nodes.old) (S2.left lines.old) (S3.left bans.old)) road
        × AreLinesWritten O.taken O.failed O.put_gives O.flush_gives asked.now road
        out.old out.new) }
    ensures fault { IfErr result (λ fault.
        IsMapFault (texts_of (S1.left nodes.old) (S2.left lines.old) (S3.left bans.old))
        out.old out.new fault
        ⊎ ((road : RoadMap)
        × IsMapLeft (texts_of (S1.left nodes.old) (S2.left lines.old) (S3.left bans.old)) road
        × AreLinesStopped O.taken O.failed O.put_gives O.flush_gives asked.now road
        out.old out.new fault)) }

    // Each source of a file: read to its end, or up to a fault.
    ensures nodes_source { LeavesFile S1.left S1.failed nodes.old nodes.new File.Nodes result }
    ensures lines_source { LeavesFile S2.left S2.failed lines.old lines.new File.Lines result }
    ensures bans_source { LeavesFile S3.left S3.failed bans.old bans.new File.Bans result }

    // Whatever the result: a source is untouched, or the one before it was read to its end.
    ensures lines_in_order { IsReadInOrder S1.left S1.failed nodes.old nodes.new
        lines.old lines.new }
    ensures bans_in_order { IsReadInOrder S2.left S2.failed lines.old lines.new bans.old bans.new }
{
    let map = read_map_with_bans(alloc, nodes, lines, bans)?;
    write_lines(alloc, &map, asked, out)
}
