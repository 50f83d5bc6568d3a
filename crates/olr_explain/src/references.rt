//! The faults of references, of records that hold them, and of references in XML.

use crate::table::{Detail, Explanation};

/// The text of a reference.
pub(crate) static REFERENCE: [Explanation; 11] = [
    Explanation {
        name: "TooLong",
        detail: Detail::Nothing,
        values: "",
        meaning: "more than 344 bytes of text",
        cause: "several references, or a whole message",
        remedy: "pass one reference",
    },
    Explanation {
        name: "NotBase64",
        detail: Detail::Nothing,
        values: "",
        meaning: "the text isn't standard base64",
        cause: "\
            the alphabet for URLs (`-` and `_`); the padding `=` was dropped; quotes, commas or \
            line ends inside; a text cut short",
        remedy: "\
            replace `-` by `+` and `_` by `/`, and add `=` until the number of letters is a \
            multiple of 4",
    },
    Explanation {
        name: "Empty",
        detail: Detail::Nothing,
        values: "",
        meaning: "there is no text but blanks",
        cause: "an empty cell, an unset variable of the shell",
        remedy: "look where the text comes from",
    },
    Explanation {
        name: "BadVersion",
        detail: Detail::Values("V"),
        values: "",
        meaning: "the version in the first byte is V, and not 3",
        cause: "\
            an old encoder (version 2); bytes as hexadecimal digits, which often give version 0; \
            a text that isn't OpenLR at all",
        remedy: "ask the sender for version 3 of the binary format",
    },
    Explanation {
        name: "OtherKind",
        detail: Detail::Word("Area"),
        values: "",
        meaning: "a circle, rectangle, grid, polygon or closed line",
        cause: "the message is about an area",
        remedy: "`olr` only finds lines, and points along a line",
    },
    Explanation {
        name: "OtherKind",
        detail: Detail::Word("GeoCoordinate"),
        values: "",
        meaning: "a position without a road",
        cause: "the message names only coordinates",
        remedy: "take the coordinates: there is nothing to match",
    },
    Explanation {
        name: "PoiWithAccess",
        detail: Detail::Nothing,
        values: "",
        meaning: "a point of interest with an access point",
        cause: "as the line says",
        remedy: "`olr` doesn't read this kind",
    },
    Explanation {
        name: "BadLength",
        detail: Detail::Values("N"),
        values: "",
        meaning: "N bytes are no size of a reference",
        cause: "\
            a text cut at a multiple of 4 letters; bytes of a carrier before or behind the \
            reference; two references pasted together",
        remedy: "compare with the message",
    },
    Explanation {
        name: "TooManyPoints",
        detail: Detail::Values("C"),
        values: "",
        meaning: "C points, more than 32",
        cause: "a very long route",
        remedy: "ask the sender to split it",
    },
    Explanation {
        name: "OffsetFlags",
        detail: Detail::Nothing,
        values: "",
        meaning: "the flags of the offsets and the number of offset bytes differ",
        cause: "\
            three references pasted together; one byte lost or added; an encoder that sets a \
            flag for an offset of 0 and leaves out its byte",
        remedy: "pass one reference; compare with the message, or report it to the sender",
    },
    Explanation {
        name: "OutOfRange",
        detail: Detail::Values("P"),
        values: "",
        meaning: "point P is beyond 80 degrees of latitude or 180 degrees of longitude",
        cause: "\
            damaged bytes; an encoder that exchanged longitude and latitude; a point close to a \
            pole",
        remedy: "report it to the sender",
    },
];

/// The records of a batch.
pub(crate) static RECORDS: [Explanation; 8] = [
    Explanation {
        name: "LongRecord",
        detail: Detail::Nothing,
        values: "",
        meaning: "the record has more than 65,536 bytes",
        cause: "another file as input, or one whose lines end by CR alone",
        remedy: "give one record a line",
    },
    Explanation {
        name: "NotText",
        detail: Detail::Nothing,
        values: "",
        meaning: "the record isn't UTF-8",
        cause: "a file in another encoding, as Latin-1",
        remedy: "convert it: `iconv -f LATIN1 -t UTF-8`",
    },
    Explanation {
        name: "Words",
        detail: Detail::Values("TEXT"),
        values: "",
        meaning: "of `answer`: the words of the record aren't those of a request, as TEXT says",
        cause: "\
            an option that the command doesn't have, or that names a file; a number that isn't a whole \
            one; a reference without ` -- ` before it that has a blank or begins with a hyphen",
        remedy: "write the words as behind `olr`, without files, and ` -- ` before the reference",
    },
    Explanation {
        name: "BadCell",
        detail: Detail::Values("TYPE"),
        values: "",
        meaning: "of `olr.locate`: the cell has no text, but a TYPE",
        cause: "\
            a column of numbers or dates; another column than that of the references; bytes in \
            place of their text in base64",
        remedy: "look which column has the references, which are texts in base64",
    },
    Explanation {
        name: "RegionTooLarge",
        detail: Detail::Nothing,
        values: "",
        meaning: "\
            on a store: the part of the map that the reference needs has more than 100,000 \
            nodes, 200,000 lines or 200,000 bans",
        cause: "\
            points that are 15 km apart in a city; `--why`, which looks farther than `match`; a \
            wrong length of a line on the map, which `olr-tools check` finds",
        remedy: "lower `--radius`, `--percent` and `--slack`; ask `--places` in place of `--why`",
    },
    Explanation {
        name: "NotOnPage",
        detail: Detail::Nothing,
        values: "",
        meaning: "\
            of a page of `--live`: it has only the part of the map that other references need",
        cause: "\
            a reference, or a list, that was typed, pasted or dropped into a page that was made for \
            others",
        remedy: "ask on the whole map; `olr-tools page` writes a page that has all of it",
    },
    Explanation {
        name: "ProgramFailed",
        detail: Detail::Nothing,
        values: "",
        meaning: "\
            of `olr-tools run`: the program ended at the record, or wrote something else than \
            its line, when it was asked about this record alone",
        cause: "\
            no memory for it; the system or somebody killed the program; a fault of the program",
        remedy: "\
            delete the part with the record, and go on by `--resume`; if it fails again, report \
            the record and the map",
    },
    Explanation {
        name: "TimedOut",
        detail: Detail::Nothing,
        values: "",
        meaning: "\
            of `olr-tools run`: the program wrote nothing for `--patience` seconds when it was \
            asked about this record alone",
        cause: "\
            a reference with many points and wide tolerances; a machine that does other things; \
            a fault of the program",
        remedy: "\
            delete the part with the record, and go on by `--resume` with a greater \
            `--patience`; or ask it in another run, with lower tolerances",
    },
];

/// References in XML.
pub(crate) static XML: [Explanation; 4] = [
    Explanation {
        name: "BadElement",
        detail: Detail::Values("NAME"),
        values: "",
        meaning: "\
            of a reference in XML: its element NAME is missing, is there twice, or has no value \
            of its kind",
        cause: "\
            a feed that leaves out what OpenLR needs; words of another list; a bearing above 360 \
            degrees; a unit behind a number; more than two points of a point along a line",
        remedy: "compare with the message, or report it to the sender",
    },
    Explanation {
        name: "LegTooLong",
        detail: Detail::Values("P"),
        values: "",
        meaning: "of a reference in XML: the path from point P to the next one has 15 km or more",
        cause: "a sender that sets too few points; decimetres or centimetres in place of metres",
        remedy: "ask the sender for points that are less than 15 km apart",
    },
    Explanation {
        name: "TooFar",
        detail: Detail::Values("P"),
        values: "",
        meaning: "\
            of a reference in XML: point P is more than 0.3276 degrees of longitude or latitude \
            from the one before it",
        cause: "\
            a sender that sets too few points; longitude and latitude exchanged at one point; a \
            road across longitude 180",
        remedy: "ask the sender for points that are nearer to each other",
    },
    Explanation {
        name: "OffsetTooLong",
        detail: Detail::Values("NAME"),
        values: "",
        meaning: "\
            of a reference in XML: the offset NAME isn't shorter than the first leg, or the last \
            one",
        cause: "an offset of the whole path; decimetres or centimetres in place of metres",
        remedy: "ask the sender to leave out points that the location doesn't reach",
    },
];
