//! The faults, as data.

use crate::map::MAP;
use crate::references::{RECORDS, REFERENCE, XML};

/// What follows the name of a fault.
#[derive(Clone, Copy, Debug, PartialEq, Eq)]
pub enum Detail {
    /// Nothing.
    Nothing,
    /// This word, which tells the fault from others of its name.
    Word(&'static str),
    /// Values, for which these words in capital letters stand.
    Values(&'static str),
}

/// What is known of a fault. Words in capital letters stand for the values that follow its name.
#[derive(Clone, Copy, Debug, PartialEq, Eq)]
pub struct Explanation {
    /// The name of the fault.
    pub name: &'static str,
    /// What follows the name.
    pub detail: Detail,
    /// Which values these are, where the meaning doesn't say it; else empty.
    pub values: &'static str,
    /// What the fault means.
    pub meaning: &'static str,
    /// What usually causes it.
    pub cause: &'static str,
    /// What to do about it.
    pub remedy: &'static str,
}

/// The faults that are about one thing, in the order in which they are listed.
#[derive(Clone, Copy, Debug, PartialEq, Eq)]
pub struct Section {
    /// What is known of each.
    pub faults: &'static [Explanation],
}

/// All that is known of faults, in the order in which they are listed.
pub fn faults() -> [Section; 7] {
    [
        Section {
            faults: &COMMAND_LINE,
        },
        Section { faults: &REFERENCE },
        Section { faults: &MAP },
        Section { faults: &MATCHINGS },
        Section { faults: &RECORDS },
        Section { faults: &XML },
        Section { faults: &MACHINE },
    ]
}

/// A tolerance.
const TOLERANCE: &str = "\
    NAME is `radius`, `bearing`, `class`, `lowest`, `percent` or `slack`";

/// A number that isn't a tolerance.
const NUMBER: &str = "NAME is `apart`, `within`, `look`, `most`, `nearest`, `near` or `box`";

/// The words of the command line.
static COMMAND_LINE: [Explanation; 5] = [
    Explanation {
        name: "AfterWithAll",
        detail: Detail::Nothing,
        values: "",
        meaning: "`--after` and `--all` were given together",
        cause: "`--all` always begins at the first matching",
        remedy: "\
            leave one out; for all that is left after a cursor, use `--after` with `--page 1000`",
    },
    Explanation {
        name: "BadTolerance",
        detail: Detail::Values("NAME"),
        values: TOLERANCE,
        meaning: "the tolerance NAME is out of its range",
        cause: "metres where decimetres are meant, degrees where sectors are meant",
        remedy: "`olr match --help` lists their ranges and units",
    },
    Explanation {
        name: "BadPage",
        detail: Detail::Values("N"),
        values: "",
        meaning: "the page size N is out of its range",
        cause: "`--page 0` for \"all\"",
        remedy: "use 1 to 1000, or `--all`",
    },
    Explanation {
        name: "BadNumber",
        detail: Detail::Values("NAME"),
        values: NUMBER,
        meaning: "\
            the number NAME of `places`, `why`, `legs` or `lines` is out of its range, or the box of \
            `lines` ends before it begins; of several this is the first in the order given here",
        cause: "\
            `--look 0` or `--most 0` for \"all\"; `--nearest 100` for \"many\"; centimetres \
            where decimetres are meant; a latitude before its longitude",
        remedy: "\
            the ranges are `--apart` 0 to 1000000 dm, `--within` 0 to 14620 penalty points, \
            `--look` 1 to 1000000 matchings, `--most` 1 to 100 places; of `why`, `--nearest` 0 \
            to 64 lines; of `legs`, `--near` 0 to 100 thousandths; of `lines`, `--most` 1 to 200000 \
            lines, and `--box W,S,E,N` has the west before the east and the south before the north",
    },
    Explanation {
        name: "OpenFailed",
        detail: Detail::Values("FILE"),
        values: "",
        meaning: "\
            the file of nodes, lines or bans can't be opened, or that of a confidence, which is \
            `confidence`, or that of the records of a batch, which is `input`",
        cause: "\
            a wrong path, often relative to another folder; no right to read; a store behind \
            `--map`, which the program doesn't read: `OpenFailed nodes`",
        remedy: "\
            `ls -l` the path; a store is asked by `olr-tools match MESSAGES --map STORE --out \
            FILE`, and about any number of references by `olr-tools run MESSAGES --store STORE \
            --out DIR`",
    },
];

/// Matchings and cursors.
static MATCHINGS: [Explanation; 5] = [
    Explanation {
        name: "BadCursor",
        detail: Detail::Nothing,
        values: "",
        meaning: "the text behind `--after` or `--at` isn't a cursor",
        cause: "\
            the word `more` copied with it; a cursor cut short or broken over two lines; letters \
            changed to upper case",
        remedy: "copy what follows `more ` up to the line's end",
    },
    Explanation {
        name: "CursorOfOther",
        detail: Detail::Nothing,
        values: "",
        meaning: "the cursor is of another reference, map, or set of tolerances",
        cause: "a stale cursor: the map was updated, or an option changed",
        remedy: "\
            begin again without `--after`, or go back to the old map and options. The page size \
            and the order of records don't matter",
    },
    Explanation {
        name: "CursorNotHere",
        detail: Detail::Nothing,
        values: "",
        meaning: "no matching has this cursor",
        cause: "\
            a cursor without `@` and digits, from another map, reference or set of tolerances; a \
            cursor typed by hand",
        remedy: "begin again without `--after`",
    },
    Explanation {
        name: "BadConfidence",
        detail: Detail::Nothing,
        values: "",
        meaning: "the file behind `--confidence` isn't that of a confidence",
        cause: "\
            another file; one of an older version, whose weights have fractions; one that was \
            changed by hand or cut short; one of more than 1 MiB",
        remedy: "write it anew: `olr-tools calibrate`",
    },
    Explanation {
        name: "TooManyCandidates",
        detail: Detail::Values("I"),
        values: "",
        meaning: "more than 64 lines may carry point I",
        cause: "a wide radius in a dense map; a map in which roads are cut into very short lines",
        remedy: "\
            `olr why` has the greatest `--radius`, `--bearing` and `--class` with which no point \
            has too many; lower one of them",
    },
];

/// The machine.
static MACHINE: [Explanation; 2] = [
    Explanation {
        name: "NoMemory",
        detail: Detail::Nothing,
        values: "",
        meaning: "the allocator refused memory",
        cause: "a limit on the process (`ulimit -v`, a container)",
        remedy: "raise the limit, or cut the map",
    },
    Explanation {
        name: "WriteFailed",
        detail: Detail::Nothing,
        values: "",
        meaning: "the output couldn't be written completely",
        cause: "a full disk; a pipe whose reader has ended, as `head` ends once it has its lines",
        remedy: "\
            what was written is a beginning of the output: don't use it, unless its reader \
            wanted no more of it, as `head`: `2>/dev/null` hides the line then",
    },
];
