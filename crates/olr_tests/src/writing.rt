//! What reaches a sink that fails in one of its calls, or that takes few bytes a call; and the
//! lines of faults that no case of files and words brings about.

use crate::devices::{Dropping, NEVER, Taken};
use crate::runs::{ANSWERED, Asked, Case, answer, is_beginning};
use crate::samples::{Files, LINE, LINE_SHOWN, STREET};
use olr_app::{Fault, File, In, Out, Sink};
use olr_keys::BadPage;
use std::alloc::{AllocError, Global};
use std::io::{BufWriter, ErrorKind};
use std::process::Abort;
use std::test::Fail;

/// What a sink answers that fails.
const FAILED: Result<(), Fault> = Err(Fault::WriteFailed);

/// The answer to what is asked of files.
fn answer_into<O: Sink>(
    alloc: Global,
    asked: Asked,
    [nodes, lines, bans]: Files<'_>,
    out: &mut O,
) -> Result<Result<(), Fault>, BadPage> {
    let (mut nodes, mut lines, mut bans) = (In::new(nodes), In::new(lines), In::new(bans));
    answer(alloc, asked, &mut nodes, &mut lines, &mut bans, out)
}

/// The answer, and how many bytes, calls, flushes and failures the sink has then.
type Trace = (Result<(), Fault>, usize, u32, u32, u64);

/// What comes of a case into a sink of a width that fails in a call or takes none in a call; `None`
/// where the sink has anything but a beginning of the output.
fn traced(
    alloc: Global,
    case: Case<'_>,
    width: usize,
    failing: u32,
    empty: u32,
) -> Result<Option<Trace>, BadPage> {
    let (asked, files, _) = case;
    let mut out = Taken::new(alloc, width);
    out.failing = failing;
    out.empty = empty;
    let answer = answer_into(alloc, asked, files, &mut out)?;
    if !is_beginning(&out.bytes, case) {
        return Ok(None);
    }
    let failures = out.failures();
    Ok(Some((answer, out.bytes.len(), out.calls, out.flushes, failures)))
}

/// Tries a case without a failure, with one of each call, and with each `put` taking no byte. After
/// the whole output there is one flush, and after a failure no call.
fn try_case(rt: &impl Abort, alloc: Global, case: Case<'_>, width: u32) -> Result<(), BadPage> {
    let size = case.2.unwrap_or("").len();
    let puts = u32::try_from(size).unwrap_or(NEVER).div_ceil(width.max(1));
    let most = width as usize;
    let wanted = Some((Ok(()), size, puts.saturating_add(1), 1, 0));
    assert!(rt;
        traced(alloc, case, most, NEVER, NEVER)? == wanted,
        "{case:?}"
    );
    for call in 0..puts {
        let (taken, calls) = (call.saturating_mul(width) as usize, call.saturating_add(1));
        let found = traced(alloc, case, most, call, NEVER)?;
        assert!(rt;
            found == Some((FAILED, taken, calls, 0, 1)),
            "{case:?} {found:?}"
        );
        let found = traced(alloc, case, most, NEVER, call)?;
        assert!(rt;
            found == Some((FAILED, taken, calls, 0, 0)),
            "{case:?} {found:?}"
        );
    }
    let wanted = Some((FAILED, size, puts.saturating_add(1), 1, 1));
    assert!(rt;
        traced(alloc, case, most, puts, NEVER)? == wanted,
        "{case:?}"
    );
    Ok(())
}

#[test]
fn reports_each_failure_of_a_sink(rt: HostRuntime) -> Result<(), Fail> {
    for &case in ANSWERED {
        for &width in &[7, 1000] {
            try_case(&rt, rt.alloc(), case, width)?;
        }
    }
    let shown = (Asked::Show(LINE), STREET, Ok(LINE_SHOWN));
    try_case(&rt, rt.alloc(), shown, 1)?;
    Ok(())
}

/// Whether a writer is given the whole output.
fn writes_all(alloc: Global) -> Result<bool, Fail> {
    let mut out = Out::new(BufWriter::new(alloc, Vec::new(alloc))?);
    let answer = answer_into(alloc, Asked::Show(LINE), STREET, &mut out);
    let failures = out.failures();
    let writer = out.into_writer();
    Ok(
        answer == Ok(Ok(()))
            && failures == 0
            && writer.get_ref().as_slice() == LINE_SHOWN.as_bytes(),
    )
}

/// The answer to a request over a writer that fails in a call, the calls of the writer, and the
/// failures.
fn ended(
    alloc: Global,
    failing: u32,
    kind: ErrorKind,
) -> Result<(Result<(), Fault>, u32, u64), BadPage> {
    let mut out = Out::new(Dropping {
        failing,
        kind,
        calls: 0,
    });
    let answer = answer_into(alloc, Asked::Show(LINE), STREET, &mut out)?;
    let failures = out.failures();
    Ok((answer, out.into_writer().calls, failures))
}

/// No contract says that [`Out`] answers what its writer answered. The first failure ends a
/// request, and no call follows it, though it might pass; an interrupted call is made again.
#[test]
fn answers_as_a_writer(rt: HostRuntime) -> Result<(), Fail> {
    assert!(rt; writes_all(rt.alloc())?);
    assert!(rt;
        ended(rt.alloc(), 0, ErrorKind::Other)? == (FAILED, 1, 1),
        "a write"
    );
    assert!(rt;
        ended(rt.alloc(), 1, ErrorKind::Other)? == (FAILED, 2, 1),
        "a flush"
    );
    for call in 0..2 {
        let found = ended(rt.alloc(), call, ErrorKind::Interrupted)?;
        assert!(rt; found == (Ok(()), 3, 0), "{call}");
    }
    Ok(())
}

/// Whether this is the line of a fault.
fn is_line_of(alloc: Global, fault: Fault, wanted: &str) -> Result<bool, AllocError> {
    Ok(fault.to_string(alloc)?.as_str() == wanted)
}

/// Faults, and their lines.
const LINES: &[(Fault, &str)] = &[
    (Fault::NoMemory, "NoMemory"),
    (Fault::WriteFailed, "WriteFailed"),
    (Fault::TooMany(File::Nodes), "TooMany nodes"),
    (Fault::TooMany(File::Lines), "TooMany lines"),
    (Fault::TooMany(File::Bans), "TooMany bans"),
    (Fault::ReadFailed(File::Nodes), "ReadFailed nodes"),
    (Fault::ReadFailed(File::Lines), "ReadFailed lines"),
    (Fault::ReadFailed(File::Bans), "ReadFailed bans"),
];

#[test]
fn prints_faults_of_devices_and_limits(rt: HostRuntime) -> Result<(), AllocError> {
    for &(fault, wanted) in LINES {
        assert!(rt; is_line_of(rt.alloc(), fault, wanted)?, "{wanted}");
    }
    Ok(())
}
