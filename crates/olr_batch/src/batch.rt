//! From a map's files and an input of records to their lines.

ghost use Rattle.std.specs.Prelude.{◌≡◌, ◌⊎◌, IfErr, OnOk};
ghost use Rattle.std.specs.Io.KnownBytes.{IsAtEnd};
ghost use Rattle.olr_map.specs.Files.{IsMapLeft, IsReadInOrder, texts_of};
ghost use Rattle.olr_road.specs.RoadMap.{RoadMap};
ghost use Rattle.olr_app.specs.Sources.{LeavesFile};
ghost use Rattle.olr_batch.specs.Run.{AreAnswered, IsMapFault, IsStopped};

use crate::answering::answer_records;
use olr_app::{Fault, File, Sink, Source};
use olr_map::read_map_with_bans;
use olr_words::Records;
use std::alloc::Global;

/// Answers each record of an input by one line of JSON: reads the map, and then takes a record
/// after the other. Before more input is asked for, the lines of all whole records at hand were
/// written and passed on.
///
/// A map without bans has the source of a file of bans that is its header alone.
///
/// # Errors
///
/// The fault of the map, as [`read_map_with_bans`] answers it, and the input isn't touched then;
/// else [`Fault::InputNotRead`] where the input failed in a call, after the lines of all records
/// that ended before; [`Fault::WriteFailed`] where the sink failed in a call or took no byte of a
/// rest. What was written is a beginning of the output, and but for `WriteFailed` it ends behind a
/// whole line. A record that has no answer is no error: its line has the fault. [`Fault::NoMemory`]
/// where the allocator refused memory for the map or before the first record.
pub fn run_batch<S1: Source, S2: Source, S3: Source, S4: Source, O: Sink>(
    alloc: Global,
    records: &Records,
    nodes: &mut S1,
    lines: &mut S2,
    bans: &mut S3,
    input: &mut S4,
    out: &mut O,
) -> Result<(), Fault>
    ensures answered { OnOk result ((road : RoadMap)
        × IsMapLeft (texts_of (S1.left nodes.old) (S2.left lines.old) (S3.left bans.old)) road
        × AreAnswered O.taken O.failed O.flush_gives records.now road (S4.left input.old)
        out.old out.new) }
    ensures fault { IfErr result (λ fault.
        IsMapFault (texts_of (S1.left nodes.old) (S2.left lines.old) (S3.left bans.old))
        input.old input.new out.old out.new fault
        ⊎ ((road : RoadMap)
        × IsMapLeft (texts_of (S1.left nodes.old) (S2.left lines.old) (S3.left bans.old)) road
        × IsStopped S4.left S4.failed O.taken O.failed O.put_gives O.flush_gives records.now road
        input.old input.new out.old out.new fault)) }

    // Each source of a file: read to its end, or up to a fault.
    ensures nodes_source { LeavesFile S1.left S1.failed nodes.old nodes.new File.Nodes result }
    ensures lines_source { LeavesFile S2.left S2.failed lines.old lines.new File.Lines result }
    ensures bans_source { LeavesFile S3.left S3.failed bans.old bans.new File.Bans result }

    // Whatever the result: a source is untouched, or the one before it was read to its end.
    ensures lines_in_order { IsReadInOrder S1.left S1.failed nodes.old nodes.new
        lines.old lines.new }
    ensures bans_in_order { IsReadInOrder S2.left S2.failed lines.old lines.new bans.old bans.new }
    ensures input_source { OnOk result
        (IsAtEnd (S4.left input.new) × (S4.failed input.new ≡ S4.failed input.old)) }
{
    let map = read_map_with_bans(alloc, nodes, lines, bans)?;
    answer_records(alloc, &map, records, input, out)
}
