//! A run for the legs of a matching: from a request and the files of a map to the output.

ghost use Rattle.std.specs.Prelude.{Ok, IfErr, OnOk};
ghost use Rattle.olr_binary.specs.Reference.{IsReference};
ghost use Rattle.olr_map.specs.Files.{IsReadInOrder, texts_of};
ghost use Rattle.olr_app.specs.Accepting.{Accepts, ReportsRefusal};
ghost use Rattle.olr_app.specs.Legs.{as_match};
ghost use Rattle.olr_app.specs.LegsRun.{AreLegsAnswered, AreLegsStopped, AreLegsStoppedOn, AreLegsWritten};
ghost use Rattle.olr_app.specs.LegsRun.{IsLegsRunFault};
ghost use Rattle.olr_app.specs.Sources.{LeavesFile};

use crate::accepting::{Accepted, accept_texts};
use crate::legs::legs_output;
use crate::sink::Sink;
use crate::writing::write_whole;
use olr_map::{File, Source, read_map_with_bans};
use olr_request::{Fault, LegsRequest};
use olr_road::Map;
use std::alloc::Global;

/// Writes the legs that are asked for, and has them passed on.
fn write_legs<O: Sink>(
    alloc: Global,
    map: &Map,
    asked: &LegsRequest<'_>,
    accepted: &Accepted,
    out: &mut O,
) -> Result<(), Fault>
    requires { IsReference accepted.now.reference }
    ensures answered { OnOk result (AreLegsWritten O.taken O.failed O.put_gives O.flush_gives
        asked.now accepted.now map.now out.old out.new) }
    ensures fault { IfErr result (AreLegsStopped O.taken O.failed O.put_gives O.flush_gives
        asked.now accepted.now map.now out.old out.new) }
{
    let output = legs_output(alloc, map, asked, accepted)?;
    let Ok(()) = write_whole(out, output.as_bytes()) else {
        return Err(Fault::WriteFailed);
    };
    Ok(())
}

/// Answers a request for the legs of a matching: reads the reference and the cursor, then the files of
/// the map, makes the whole output, and only then writes it and has it passed on.
///
/// A map without bans has the source of a file of bans that is its header alone.
///
/// # Errors
///
/// The refusal of the reference, or else [`Fault::BadCursor`] where the text of the cursor isn't that
/// of one, whatever memory and devices do, and no source is read then; else the fault of the map, as
/// [`read_map_with_bans`] answers it, or [`Fault::ReadFailed`] where the source of that file failed in
/// a call; else [`Fault::CursorOfOther`] where the cursor has the mark of other inputs; else
/// [`Fault::TooManyCandidates`] with the first point that has more than 64; else
/// [`Fault::CursorNotHere`] where the cursor isn't that of a matching; else [`Fault::WriteFailed`]
/// where the sink failed in a call or took no byte of a rest. [`Fault::NoMemory`] where the allocator
/// refused memory. After `WriteFailed` a beginning of the output was written, after any other fault
/// nothing.
pub fn run_legs<S1: Source, S2: Source, S3: Source, O: Sink>(
    alloc: Global,
    asked: &LegsRequest<'_>,
    nodes: &mut S1,
    lines: &mut S2,
    bans: &mut S3,
    out: &mut O,
) -> Result<(), Fault>
    // The sink took the whole output, and was flushed once.
    ensures answered { OnOk result (AreLegsAnswered O.taken O.failed O.put_gives O.flush_gives
        asked.now (texts_of (S1.left nodes.old) (S2.left lines.old) (S3.left bans.old))
        out.old out.new) }
    ensures refused { ReportsRefusal (as_match asked.now) result }
    ensures fault { IfErr result (IsLegsRunFault O.taken O.failed O.put_gives O.flush_gives
        asked.now (texts_of (S1.left nodes.old) (S2.left lines.old) (S3.left bans.old))
        out.old out.new) }

    // Each source of a file: untouched by a refusal, else read to its end or up to a fault.
    ensures nodes_source { LeavesFile S1.left S1.failed nodes.old nodes.new File.Nodes result }
    ensures lines_source { LeavesFile S2.left S2.failed lines.old lines.new File.Lines result }
    ensures bans_source { LeavesFile S3.left S3.failed bans.old bans.new File.Bans result }

    // Whatever the result: a source is untouched, or the one before it was read to its end.
    ensures lines_in_order { IsReadInOrder S1.left S1.failed nodes.old nodes.new
        lines.old lines.new }
    ensures bans_in_order { IsReadInOrder S2.left S2.failed lines.old lines.new bans.old bans.new }
{
    let accepted = accept_texts(asked.text, asked.at)?;
    let map = read_map_with_bans(alloc, nodes, lines, bans)?;
    write_legs(alloc, &map, asked, &accepted, out)
}
