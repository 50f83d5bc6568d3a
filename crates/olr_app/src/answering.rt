//! From a request to the bytes of its output.

ghost use Rattle.std.specs.Prelude.{IfErr, IfOk, Ok, OnOk, string_bytes, true};
ghost use Rattle.olr_binary.specs.Reference.{IsReference};
ghost use Rattle.olr_map.specs.Files.{IsReadInOrder, texts_of};
ghost use Rattle.olr_app.specs.Accepting.{Accepts, ReportsRefusal};
ghost use Rattle.olr_app.specs.Answer.{IsAnswerOn, IsAnswered, IsFault, IsOutput, IsReason};
ghost use Rattle.olr_app.specs.Sources.{AnswerLeaves};
ghost use Rattle.olr_app.specs.Stages.{IsStageFault};

use crate::accepting::{Accepted, accept};
use crate::on_map::{MapForRequests, printed_reference};
use crate::sink::Sink;
use crate::writing::write_whole;
use olr_map::{File, Source, read_map_with_bans};
use olr_request::{Fault, Request};
use olr_road::Map;
use std::alloc::Global;

/// The whole output of a request that is accepted, on a map, with marks in cursors.
///
/// # Errors
///
/// Those of [`MapForRequests::output`].
fn output_on_map(
    alloc: Global,
    request: &Request<'_>,
    accepted: &Accepted,
    map: &Map,
) -> Result<String, Fault>
    requires { IsReference accepted.now.reference }
    ensures output { IfOk result (λ output.
        IsAnswerOn true request.now accepted.now map.now (Ok (string_bytes output))) }
    ensures fault { IfErr result (IsStageFault (IsAnswerOn true request.now accepted.now map.now)) }
{
    let mut on = MapForRequests::new(map);
    on.prepare(alloc, request)?;
    on.output(alloc, request, accepted, true)
}

/// The whole output of a request that is accepted. It reads the files of the map, if the request
/// asks for one.
fn output_of<S1: Source, S2: Source, S3: Source>(
    alloc: Global,
    request: &Request<'_>,
    accepted: &Accepted,
    nodes: &mut S1,
    lines: &mut S2,
    bans: &mut S3,
) -> Result<String, Fault>
    requires accepted { Accepts request.now (Ok accepted.now) }
    requires reference { IsReference accepted.now.reference }
    ensures output { IfOk result (λ output.
        IsOutput (texts_of (S1.left nodes.old) (S2.left lines.old) (S3.left bans.old))
        request.now (string_bytes output)) }
    ensures reason { IfErr result (IsReason
        (texts_of (S1.left nodes.old) (S2.left lines.old) (S3.left bans.old)) request.now) }
    ensures nodes_source { AnswerLeaves S1.left S1.failed nodes.old nodes.new File.Nodes
        request.now result }
    ensures lines_source { AnswerLeaves S2.left S2.failed lines.old lines.new File.Lines
        request.now result }
    ensures bans_source { AnswerLeaves S3.left S3.failed bans.old bans.new File.Bans
        request.now result }
    ensures lines_in_order { IsReadInOrder S1.left S1.failed nodes.old nodes.new
        lines.old lines.new }
    ensures bans_in_order { IsReadInOrder S2.left S2.failed lines.old lines.new bans.old bans.new }
{
    if let Request::Show { text: _, format } = request {
        let output = printed_reference(alloc, &accepted.reference, *format)?;
        return Ok(output);
    }
    let map = read_map_with_bans(alloc, nodes, lines, bans)?;
    output_on_map(alloc, request, accepted, &map)
}

/// Answers a request: reads the reference, then the files that the request speaks of, makes the
/// whole output, and only then writes it and has it passed on.
///
/// [`Request::Show`] reads no map, so any sources will do. A map without bans has the source of a
/// file of bans that is its header alone.
///
/// # Errors
///
/// The refusal of the reference, or else [`Fault::BadCursor`] where the text of a cursor isn't that
/// of one, whatever memory and devices do, and no source is read then; else the fault of the map,
/// as [`read_map_with_bans`] answers it, or [`Fault::ReadFailed`] where the source of that file
/// failed in a call; else, for a request that asks for matchings, [`Fault::CursorOfOther`] where
/// the cursor has the mark of other inputs, and for one that asks for places,
/// [`Fault::BadConfidence`] where the file for a confidence is none; else, but for
/// [`Request::Why`], [`Fault::TooManyCandidates`] with the first point that has more than 64; else
/// [`Fault::CursorNotHere`] where the cursor isn't that of a matching; else [`Fault::WriteFailed`]
/// where the sink failed in a call or took no byte of a rest. [`Fault::NoMemory`] may come in place
/// of a fault of the map, of what follows it, or of the output, where the allocator refused memory.
/// After `WriteFailed` a beginning of the output was written, after any other fault nothing.
pub fn run<S1: Source, S2: Source, S3: Source, O: Sink>(
    alloc: Global,
    request: &Request<'_>,
    nodes: &mut S1,
    lines: &mut S2,
    bans: &mut S3,
    out: &mut O,
) -> Result<(), Fault>
    // The sink took the whole output, and was flushed once.
    ensures answered { OnOk result (IsAnswered O.taken O.failed O.put_gives O.flush_gives
        (texts_of (S1.left nodes.old) (S2.left lines.old) (S3.left bans.old))
        request.now out.old out.new) }
    ensures refused { ReportsRefusal request.now result }
    ensures fault { IfErr result (IsFault O.taken O.failed O.put_gives O.flush_gives
        (texts_of (S1.left nodes.old) (S2.left lines.old) (S3.left bans.old))
        request.now out.old out.new) }

    // Each source: untouched by `Show` and by a refusal, else read to its end or up to a fault.
    ensures nodes_source { AnswerLeaves S1.left S1.failed nodes.old nodes.new File.Nodes
        request.now result }
    ensures lines_source { AnswerLeaves S2.left S2.failed lines.old lines.new File.Lines
        request.now result }
    ensures bans_source { AnswerLeaves S3.left S3.failed bans.old bans.new File.Bans
        request.now result }

    // Whatever the result: a source is untouched, or the one before it was read to its end.
    ensures lines_in_order { IsReadInOrder S1.left S1.failed nodes.old nodes.new
        lines.old lines.new }
    ensures bans_in_order { IsReadInOrder S2.left S2.failed lines.old lines.new bans.old bans.new }
{
    let accepted = accept(request)?;
    let output = output_of(alloc, request, &accepted, nodes, lines, bans)?;
    let Ok(()) = write_whole(out, output.as_bytes()) else {
        return Err(Fault::WriteFailed);
    };
    Ok(())
}
