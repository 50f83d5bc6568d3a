//! The records of a batch: over sources that give few bytes a call, and over sources and sinks that
//! fail in one of their calls.

use crate::devices::{Given, NEVER, Taken};
use crate::runs::NO_EXTRAS;
use crate::samples::STREET;
use olr_app::{Fault, In, PageSize, Question, QuestionKind, Sink, Tolerances};
use olr_batch::run_batch;
use olr_keys::BadPage;
use olr_words::Records;
use std::alloc::Global;

/// Five records: with a key, empty, with no reference, with no text, and without a last line feed.
const INPUT: &[u8] = b"k\tCwAAAAAAABtoAQBkAAAbGA==\n\n*\r\n\xff\nCwAAAAAAABtoAQBkAAAbGA==";

/// Their lines, and after how many bytes each of these records has ended.
const LINES: &[(usize, &str)] = &[
    (
        27,
        "{\"answer\":{\"matchings\":[{\"cursor\":\"0:1.1\",\"inner\":[[7,0,1113]],\
        \"legs\":[{\"length\":1113,\"penalty\":0}],\"outer\":[[7,0,1113]],\
        \"points\":[{\"at\":0,\"line\":7,\"penalty\":0},{\"at\":1113,\"line\":7,\"penalty\":0}],\
        \"route\":[[7,0,1113]],\"total\":0}],\"next\":null},\
        \"fault\":null,\"key\":\"k\",\"record\":1}\n",
    ),
    (
        31,
        "{\"answer\":null,\"fault\":\"NotBase64\",\"key\":null,\"record\":3}\n",
    ),
    (
        33,
        "{\"answer\":null,\"fault\":\"NotText\",\"key\":null,\"record\":4}\n",
    ),
    (
        usize::MAX,
        "{\"answer\":{\"matchings\":[{\"cursor\":\"0:1.1\",\"inner\":[[7,0,1113]],\
        \"legs\":[{\"length\":1113,\"penalty\":0}],\"outer\":[[7,0,1113]],\
        \"points\":[{\"at\":0,\"line\":7,\"penalty\":0},{\"at\":1113,\"line\":7,\"penalty\":0}],\
        \"route\":[[7,0,1113]],\"total\":0}],\"next\":null},\
        \"fault\":null,\"key\":null,\"record\":5}\n",
    ),
];

/// Whether bytes are the lines of the records that ended within so many bytes of the input.
fn are_lines_until(mut bytes: &[u8], read: usize) -> bool {
    for &(ended, line) in LINES {
        if ended <= read {
            let Some(rest) = bytes.strip_prefix(line.as_bytes()) else {
                return false;
            };
            bytes = rest;
        }
    }
    bytes.is_empty()
}

/// Whether bytes are a beginning of all lines.
fn are_begun(mut bytes: &[u8]) -> bool {
    for &(_, line) in LINES {
        let Some(rest) = bytes.strip_prefix(line.as_bytes()) else {
            return line.as_bytes().starts_with(bytes);
        };
        bytes = rest;
    }
    bytes.is_empty()
}

/// What comes of the records, of each of which the first ten matchings are asked for.
fn answer(
    alloc: Global,
    input: &mut Given<'_>,
    out: &mut Taken,
) -> Result<Result<(), Fault>, BadPage> {
    let [nodes, lines, bans] = STREET;
    let (mut nodes, mut lines, mut bans) = (In::new(nodes), In::new(lines), In::new(bans));
    let asked = Question {
        what: QuestionKind::Match {
            size: PageSize::new(10)?,
            extras: NO_EXTRAS,
        },
        tolerances: Tolerances::default(),
    };
    Ok(run_batch(
        alloc,
        &Records::References(asked),
        &mut nodes,
        &mut lines,
        &mut bans,
        input,
        out,
    ))
}

/// Before more input is asked for, the sink is flushed, unless a whole record is at hand: so once
/// for each record of a source that gives a byte a call, and for the end.
#[test]
fn flushes_before_it_asks(rt: HostRuntime) -> Result<(), BadPage> {
    for &(width, flushes) in &[(1, 6), (1000, 3)] {
        let (mut input, mut out) = (
            Given::new(INPUT, width, NEVER),
            Taken::new(rt.alloc(), 1000),
        );
        let found = answer(rt.alloc(), &mut input, &mut out)?;
        assert!(rt;
            found == Ok(()) && are_lines_until(&out.bytes, usize::MAX),
            "{width}"
        );
        assert!(rt; out.flushes == flushes, "{width} {}", out.flushes);
    }
    Ok(())
}

/// Where the input fails in a call, the lines of all records that ended before are there.
#[test]
fn keeps_what_ended_before(rt: HostRuntime) -> Result<(), BadPage> {
    for read in 0..INPUT.len() + 1 {
        let call = u32::try_from(read).unwrap_or(NEVER);
        let (mut input, mut out) = (Given::new(INPUT, 1, call), Taken::new(rt.alloc(), 1000));
        let found = answer(rt.alloc(), &mut input, &mut out)?;
        assert!(rt; found == Err(Fault::InputNotRead), "{read}");
        assert!(rt; are_lines_until(&out.bytes, read), "{read}");
        assert!(rt; input.calls == call.saturating_add(1), "{read}");
    }
    Ok(())
}

/// Where the sink fails in a call, or takes no byte in one, no call follows, and it has a beginning
/// of the lines.
#[test]
fn stops_where_the_sink_does(rt: HostRuntime) -> Result<(), BadPage> {
    let (mut input, mut out) = (Given::new(INPUT, 5, NEVER), Taken::new(rt.alloc(), 40));
    let found = answer(rt.alloc(), &mut input, &mut out)?;
    assert!(rt; found == Ok(()) && are_begun(&out.bytes));
    let calls = out.calls;
    for call in 0..calls {
        let (mut input, mut out) = (Given::new(INPUT, 5, NEVER), Taken::new(rt.alloc(), 40));
        out.failing = call;
        let found = answer(rt.alloc(), &mut input, &mut out)?;
        assert!(rt;
            found == Err(Fault::WriteFailed) && are_begun(&out.bytes),
            "{call}"
        );
        assert!(rt;
            out.calls == call.saturating_add(1) && out.failures() == 1,
            "{call}"
        );
        let (mut input, mut out) = (Given::new(INPUT, 5, NEVER), Taken::new(rt.alloc(), 40));
        out.empty = call;
        let found = answer(rt.alloc(), &mut input, &mut out)?;
        assert!(rt; are_begun(&out.bytes) && out.failures() == 0, "{call}");
        let stopped = found == Err(Fault::WriteFailed) && out.calls == call.saturating_add(1);
        assert!(rt;
            stopped || (found == Ok(()) && out.calls == calls),
            "{call}"
        );
    }
    Ok(())
}
