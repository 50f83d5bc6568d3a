//! From words to the bytes of the output.

ghost use Rattle.std.specs.Prelude.{◌≡◌, OnOk};
ghost use Rattle.std.specs.Io.KnownBytes.{Appends};
ghost use Rattle.olr_explain.specs.Explaining.{explained_text};

use crate::confidence::confidence_at;
use crate::opening::{Disk, MapFiles, open, open_files};
use olr_app::{Fault, In, Sink, Source, put_whole, run, run_legs, run_lines};
use olr_batch::run_batch;
use olr_explain::{Section, Topic, explained, faults};
use olr_words::{
    Asked, AskedLegs, AskedLines, AskedRecords, AskedRequest, Input, Records, Rejected, asked_of,
};
use std::alloc::Global;

/// Answers a request, on its map if it reads one, whose files are opened before that of its confidence.
fn answer_one<D: Disk, O: Sink>(
    alloc: Global,
    asked: &mut AskedRequest<'_>,
    disk: &mut D,
    out: &mut O,
) -> Result<(), Fault> {
    let Some(files) = &asked.files else {
        let mut nodes = In::new(&[] as &[u8]);
        let mut lines = In::new(&[] as &[u8]);
        let mut bans = In::new(&[] as &[u8]);
        return run(
            alloc,
            &asked.request,
            &mut nodes,
            &mut lines,
            &mut bans,
            out,
        );
    };
    let MapFiles {
        mut nodes,
        mut lines,
        mut bans,
    } = open_files(alloc, disk, files)?;
    let confidence = confidence_at(alloc, disk, asked.confidence)?;
    asked.request.set_confidence(confidence);
    run(
        alloc,
        &asked.request,
        &mut nodes,
        &mut lines,
        &mut bans,
        out,
    )
}

/// Answers a request for the legs of a matching.
fn answer_legs<D: Disk, O: Sink>(
    alloc: Global,
    asked: &AskedLegs<'_>,
    disk: &mut D,
    out: &mut O,
) -> Result<(), Fault> {
    let MapFiles {
        mut nodes,
        mut lines,
        mut bans,
    } = open_files(alloc, disk, &asked.files)?;
    run_legs(
        alloc,
        &asked.request,
        &mut nodes,
        &mut lines,
        &mut bans,
        out,
    )
}

/// Answers a request for the lines of a map.
fn answer_lines<D: Disk, O: Sink>(
    alloc: Global,
    asked: &AskedLines<'_>,
    disk: &mut D,
    out: &mut O,
) -> Result<(), Fault> {
    let MapFiles {
        mut nodes,
        mut lines,
        mut bans,
    } = open_files(alloc, disk, &asked.files)?;
    run_lines(
        alloc,
        &asked.request,
        &mut nodes,
        &mut lines,
        &mut bans,
        out,
    )
}

/// Answers the records of an input on the map of these files.
fn answer_input<F: Source + Drop, I: Source, O: Sink>(
    alloc: Global,
    records: &Records,
    files: MapFiles<F>,
    input: &mut I,
    out: &mut O,
) -> Result<(), Fault> {
    let MapFiles {
        mut nodes,
        mut lines,
        mut bans,
    } = files;
    run_batch(
        alloc, records, &mut nodes, &mut lines, &mut bans, input, out,
    )
}

/// Answers many records. The files of their map are opened before that of their confidence, and this
/// one before that of the records.
fn answer_many<D: Disk, O: Sink>(
    alloc: Global,
    asked: &mut AskedRecords<'_>,
    disk: &mut D,
    out: &mut O,
) -> Result<(), Fault> {
    let files = open_files(alloc, disk, &asked.files)?;
    let confidence = confidence_at(alloc, disk, asked.confidence)?;
    asked.records.set_confidence(confidence);
    match asked.input {
        Input::File(path) => {
            let mut input = open(disk, path, Fault::InputNotOpened)?;
            answer_input(alloc, &asked.records, files, &mut input, out)
        }
        Input::Standard => {
            let mut input = disk.standard_input();
            answer_input(alloc, &asked.records, files, &mut input, out)
        }
    }
}

/// Writes what is known of faults of a table, and has it passed on.
pub(crate) fn write_explained<O: Sink>(
    alloc: Global,
    table: &[Section],
    topic: &Topic<'_>,
    out: &mut O,
) -> Result<(), Fault>
    ensures whole { OnOk result
        (Appends (O.taken out.old) (O.taken out.new) (explained_text table.now topic.now)) }
    ensures none_failed { OnOk result (O.failed out.new ≡ O.failed out.old) }
{
    let text = explained(alloc, table, topic)?;
    let Ok(()) = put_whole(out, text.as_bytes()) else {
        return Err(Fault::WriteFailed);
    };
    let Ok(()) = out.flush_out() else {
        return Err(Fault::WriteFailed);
    };
    Ok(())
}

/// Opens the files that are asked for and answers what is asked.
fn answer<D: Disk, O: Sink>(
    alloc: Global,
    asked: &mut Asked<'_>,
    disk: &mut D,
    out: &mut O,
) -> Result<(), Fault> {
    match asked {
        Asked::One(asked) => answer_one(alloc, asked, disk, out),
        Asked::Legs(asked) => answer_legs(alloc, asked, disk, out),
        Asked::Lines(asked) => answer_lines(alloc, asked, disk, out),
        Asked::Many(asked) => answer_many(alloc, asked, disk, out),
        Asked::Explain(topic) => write_explained(alloc, &faults(), topic, out),
    }
}

/// Does what the words of a command line ask for, of which the first is the program's name: opens
/// the files that they name, answers the request or the records, and writes the output; or writes
/// what is known of faults.
///
/// # Errors
///
/// What [`asked_of`] rejects, and no file is opened then; else [`Fault::OpenFailed`] with the first
/// file that can't be opened, the nodes before the lines and these before the bans, or
/// [`Fault::ConfidenceNotOpened`]; else [`Fault::ConfidenceNotRead`], since the file of a confidence is
/// read at once; or [`Fault::InputNotOpened`], which comes last; else the fault that [`run`], [`run_legs`], [`run_lines`] or
/// [`run_batch`] answers. The caller prints the error where [`Rejected::is_help`] says, and ends with
/// [`Rejected::status`].
pub fn perform<D: Disk, O: Sink>(
    alloc: Global,
    words: &[String],
    disk: &mut D,
    out: &mut O,
) -> Result<(), Rejected> {
    let mut asked = asked_of(alloc, words)?;
    answer(alloc, &mut asked, disk, out)?;
    Ok(())
}
