//! Runs over sources that fail in one of their calls, or that give few bytes a call.

use crate::devices::{Dripping, Given, NEVER, Taken};
use crate::runs::{ANSWERED, Case, REFUSED, answer, is_beginning};
use crate::samples::{NO_LINES, TWO_NODES};
use olr_app::{Fault, File, Sink, Source};
use olr_keys::BadPage;
use olr_map::{In, MapFault, read_map};
use std::alloc::Global;
use std::io::ErrorKind;
use std::process::Abort;
use std::test::Fail;

/// What comes of a run: the answer, how many bytes a sink that never fails has then, and the calls
/// and the failures of the sources of nodes, of lines and of bans.
#[derive(Clone, Copy, Debug, PartialEq, Eq)]
struct Trace {
    answer: Result<(), Fault>,
    written: usize,
    calls: [u32; 3],
    failures: [u64; 3],
}

/// Runs a case over sources of a width that fail in a call each; `None` for another output.
fn traced(
    alloc: Global,
    case: Case<'_>,
    width: usize,
    failing: [u32; 3],
) -> Result<Option<Trace>, BadPage> {
    let (asked, files, _) = case;
    let mut nodes = Given::new(files[0], width, failing[0]);
    let mut lines = Given::new(files[1], width, failing[1]);
    let mut bans = Given::new(files[2], width, failing[2]);
    let mut out = Taken::new(alloc, 1000);
    let answer = answer(alloc, asked, &mut nodes, &mut lines, &mut bans, &mut out)?;
    if !is_beginning(&out.bytes, case) || out.failures() > 0 {
        return Ok(None);
    }
    Ok(Some(Trace {
        answer,
        written: out.bytes.len(),
        calls: [nodes.calls, lines.calls, bans.calls],
        failures: [nodes.failures(), lines.failures(), bans.failures()],
    }))
}

/// How often each source is called where none fails, if the run is answered as the case says.
fn calls_of(alloc: Global, case: Case<'_>, width: usize) -> Result<Option<[u32; 3]>, BadPage> {
    let Some(trace) = traced(alloc, case, width, [NEVER; 3])? else {
        return Ok(None);
    };
    let (answer, written) = match case.2 {
        Ok(output) => (Ok(()), output.len()),
        Err(fault) => (Err(fault), 0),
    };
    let is_wanted = (trace.answer, trace.written, trace.failures) == (answer, written, [0; 3]);
    Ok(if is_wanted { Some(trace.calls) } else { None })
}

/// The source of each file, and the failures where it fails once.
const FILES: &[(usize, File, [u64; 3])] = &[
    (0, File::Nodes, [1, 0, 0]),
    (1, File::Lines, [0, 1, 0]),
    (2, File::Bans, [0, 0, 1]),
];

/// Whether a failure of a source in a call is the answer, and nothing is written.
fn reports(
    alloc: Global,
    case: Case<'_>,
    width: usize,
    (index, file, failures): (usize, File, [u64; 3]),
    call: u32,
) -> Result<bool, BadPage> {
    let mut failing = [NEVER; 3];
    if let Some(place) = failing.get_mut(index) {
        *place = call;
    }
    let Some(trace) = traced(alloc, case, width, failing)? else {
        return Ok(false);
    };
    let last = trace.calls.get(index).copied();
    Ok(
        trace.answer == Err(Fault::ReadFailed(file))
            && (trace.written, trace.failures) == (0, failures)
            && last == Some(call.saturating_add(1)),
    )
}

/// Tries a case without a failure, and with one of each call of each source.
fn try_case(rt: &impl Abort, alloc: Global, case: Case<'_>, width: usize) -> Result<(), BadPage> {
    let Some(calls) = calls_of(alloc, case, width)? else {
        panic!(rt; "{case:?}");
    };
    for &source in FILES {
        for call in 0..calls.get(source.0).copied().unwrap_or(0) {
            assert!(rt;
                reports(alloc, case, width, source, call)?,
                "{case:?} {call}"
            );
        }
    }
    Ok(())
}

/// Where the source of a file fails in any of its calls, also after a fault of the file, its
/// failure is the answer.
#[test]
fn reports_each_failure_of_a_source(rt: HostRuntime) -> Result<(), Fail> {
    for &cases in &[ANSWERED, REFUSED] {
        for &case in cases {
            for &width in &[1, 7, 1000] {
                try_case(&rt, rt.alloc(), case, width)?;
            }
        }
    }
    Ok(())
}

/// How many nodes are read by a reader that fails in a call, and the failures.
fn nodes_read(alloc: Global, failing: u32, kind: ErrorKind) -> (Result<u32, MapFault>, u64) {
    let mut nodes = In::new(Dripping {
        rest: TWO_NODES,
        failing,
        kind,
        calls: 0,
    });
    let count = match read_map(alloc, &mut nodes, &mut In::new(NO_LINES)) {
        Ok(map) => Ok(map.nodes()),
        Err(fault) => Err(fault),
    };
    (count, nodes.failures())
}

/// No contract says that [`In`] gives what its reader gave, and that an interruption is no failure.
#[test]
fn reports_each_failure_of_a_reader(rt: HostRuntime) {
    let read = (Ok(2), 0);
    let failed = (Err(MapFault::ReadFailed(File::Nodes)), 1);
    assert!(rt; nodes_read(rt.alloc(), NEVER, ErrorKind::Other) == read);
    for call in 0..=TWO_NODES.len() as u32 {
        assert!(rt;
            nodes_read(rt.alloc(), call, ErrorKind::Other) == failed,
            "{call}"
        );
        assert!(rt;
            nodes_read(rt.alloc(), call, ErrorKind::Interrupted) == read,
            "{call}"
        );
    }
}
