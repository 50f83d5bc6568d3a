//! Requests, the files that they read, and what comes of them, for tests with devices that fail.

use crate::samples::{
    Files, LINE, LINE_SHOWN, NO_BANS, NO_LINES, ONE_LINE, REFERENCE, STREET, TWO_NODES,
};
use olr_app::{
    Extras, Fault, File, Format, MatchRequest, Pages, Request, RoutePart, Sink, Source, Tolerances,
    run,
};
use olr_keys::{BadPage, PageSize};
use std::alloc::Global;

/// What is asked for: the reference of a text, or the candidates or the matchings of [`REFERENCE`].
#[derive(Clone, Copy, Debug)]
pub enum Asked {
    Show(&'static str),
    Candidates,
    Match,
}

/// Nothing is shown beside what always is.
pub const NO_EXTRAS: Extras = Extras {
    detail: false,
    shape: false,
    part: RoutePart::Outer,
};

/// That request, with the default tolerances and pages of a size.
fn request_of(asked: Asked, size: PageSize) -> Request<'static> {
    let (text, tolerances) = (REFERENCE, Tolerances::default());
    match asked {
        Asked::Show(text) => Request::Show {
            text,
            format: Format::Text,
        },
        Asked::Candidates => Request::Candidates {
            text,
            tolerances,
            extras: NO_EXTRAS,
            format: Format::Text,
        },
        Asked::Match => Request::Match(MatchRequest {
            text,
            tolerances,
            size,
            pages: Pages::One(None),
            extras: NO_EXTRAS,
            format: Format::Text,
        }),
    }
}

/// The answer to such a request, with pages of ten, over sources and a sink.
pub fn answer<S: Source, O: Sink>(
    alloc: Global,
    asked: Asked,
    nodes: &mut S,
    lines: &mut S,
    bans: &mut S,
    out: &mut O,
) -> Result<Result<(), Fault>, BadPage> {
    let request = request_of(asked, PageSize::new(10)?);
    Ok(run(alloc, &request, nodes, lines, bans, out))
}

/// The matchings of [`REFERENCE`] on [`STREET`].
const MATCHINGS: &str = "\
matching 0:1.1
point 1 line 7 at 0 penalty 0
point 2 line 7 at 1113 penalty 0
leg 1 length 1113 penalty 0
route 7@0-1113
outer 7@0-1113
inner 7@0-1113
end
";

/// What is asked for, the files, and the output or the fault.
pub type Case<'a> = (Asked, Files<'a>, Result<&'a str, Fault>);

/// Whether bytes are a beginning of the output of a case.
pub fn is_beginning(bytes: &[u8], (_, _, wanted): Case<'_>) -> bool {
    wanted.unwrap_or("").as_bytes().starts_with(bytes)
}

/// Requests that are answered.
pub const ANSWERED: &[Case<'static>] = &[
    (Asked::Show(LINE), STREET, Ok(LINE_SHOWN)),
    (Asked::Match, STREET, Ok(MATCHINGS)),
];

/// A text that is refused before a file is read, and files with a fault before further bytes.
pub const REFUSED: &[Case<'static>] = &[
    (Asked::Show("*"), STREET, Err(Fault::NotBase64)),
    (
        Asked::Candidates,
        [b"id,lon;lat\n1,0,0\n", NO_LINES, NO_BANS],
        Err(Fault::Header(File::Nodes)),
    ),
    (
        Asked::Match,
        [b"id,lon,lat\n1,0,0\n1,0,0\n2,0,0\n", NO_LINES, NO_BANS],
        Err(Fault::Duplicate(File::Nodes, 2)),
    ),
    (
        Asked::Candidates,
        [
            TWO_NODES,
            b"id,from,to,class,form,length,shape\n7,1,9,3,3,1113,\n8,1,2,3,3,1113,\n",
            NO_BANS,
        ],
        Err(Fault::UnknownNode(1)),
    ),
    (
        Asked::Match,
        [TWO_NODES, ONE_LINE, b"from,to\n7,9\n9,7\n"],
        Err(Fault::UnknownLine(1)),
    ),
];
