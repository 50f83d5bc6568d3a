//! The faults of the files of a map.

use crate::table::{Detail, Explanation};

/// A file of a map.
const FILE: &str = "FILE is `nodes`, `lines` or `bans`";

/// A file of a map, that of a confidence, or the records of a batch.
const ANY_FILE: &str = "FILE is `nodes`, `lines`, `bans`, `confidence` or `input`";

/// A record of the file of lines or of bans.
const RECORD: &str = "N is the number of the record, counted from 1 behind the header";

/// A record of a file of a map.
const FILE_AND_RECORD: &str = "\
    FILE is `nodes`, `lines` or `bans`; N is the number of the record, counted from 1 behind the \
    header";

/// A field of a file of a map.
const FILE_RECORD_AND_COLUMN: &str = "\
    FILE is `nodes`, `lines` or `bans`; N is the number of the record, counted from 1 behind the \
    header; C is the number of the column, from 1";

/// The files of a map.
pub(crate) static MAP: [Explanation; 11] = [
    Explanation {
        name: "Header",
        detail: Detail::Values("FILE"),
        values: FILE,
        meaning: "the first record isn't the header",
        cause: "\
            semicolons for commas; no header; columns in another order, missing or added; two \
            files exchanged; an empty file; a file in UTF-16, as some spreadsheets save it",
        remedy: "\
            the headers are `id,lon,lat`, `id,from,to,class,form,length,shape` and `from,to`, in \
            this spelling; save as CSV with commas, in UTF-8",
    },
    Explanation {
        name: "TooMany",
        detail: Detail::Values("FILE"),
        values: FILE,
        meaning: "more than 100,000 nodes, 200,000 lines or 200,000 bans",
        cause: "the map of a whole country",
        remedy: "\
            make a store of the map, `olr-tools regions DIR --out STORE`, and ask it by \
            `olr-tools match` or `run`; or cut out the surroundings of the reference: its points \
            (`olr show`), the radius, and room for detours",
    },
    Explanation {
        name: "Shape",
        detail: Detail::Values("FILE N"),
        values: FILE_AND_RECORD,
        meaning: "the record has another number of fields than the header",
        cause: "\
            semicolons or decimal commas in a file with commas; a shape with commas; the comma \
            before an empty shape is missing",
        remedy: "\
            a line without a shape ends with a comma; a shape has blanks and semicolons only, as \
            in `7418773 49871296;7418800 49871310`",
    },
    Explanation {
        name: "Field",
        detail: Detail::Values("FILE N C"),
        values: FILE_RECORD_AND_COLUMN,
        meaning: "column C has no value of its kind",
        cause: "\
            degrees for microdegrees (`7.415720`); a fraction or a unit in a length; a plus \
            sign, or a blank at an end; an id that is 0, negative, a text, or above 2^53; a \
            latitude beyond 80 degrees, often since longitude and latitude are exchanged",
        remedy: "\
            coordinates are whole microdegrees, lengths whole decimetres, classes and forms 0 to \
            7; a shape has 64 points at most",
    },
    Explanation {
        name: "Duplicate",
        detail: Detail::Values("FILE N"),
        values: FILE_AND_RECORD,
        meaning: "an earlier record has the same id, or bans the same turn",
        cause: "\
            both directions of a road under one id; extracts of two regions joined; `1` and \
            `01`, which are one id",
        remedy: "each direction of a road needs its own id; drop repeated records",
    },
    Explanation {
        name: "UnknownNode",
        detail: Detail::Values("N"),
        values: RECORD,
        meaning: "the line's `from` or `to` isn't in the file of nodes",
        cause: "the nodes were cut at a border, and the lines weren't",
        remedy: "drop such lines, or add the nodes",
    },
    Explanation {
        name: "ZeroLength",
        detail: Detail::Values("N"),
        values: RECORD,
        meaning: "the line has length 0",
        cause: "a length in metres or kilometres that was rounded",
        remedy: "the unit is the decimetre; a very short line has length 1",
    },
    Explanation {
        name: "Degenerate",
        detail: Detail::Values("N"),
        values: RECORD,
        meaning: "two neighbouring points of the line are equal",
        cause: "\
            two nodes in one microdegree (0.1 m); a shape that repeats the coordinates of the \
            line's own nodes, as many exports do; a point twice in a shape; a line from a node \
            to itself without a shape",
        remedy: "\
            leave the ends and repeated points out of the shape; join nodes in one microdegree \
            to one",
    },
    Explanation {
        name: "UnknownLine",
        detail: Detail::Values("N"),
        values: RECORD,
        meaning: "the ban names a line that isn't in the file of lines",
        cause: "ids of nodes or of roads in place of lines",
        remedy: "name the two lines, one direction each",
    },
    Explanation {
        name: "NotAdjacent",
        detail: Detail::Values("N"),
        values: RECORD,
        meaning: "the ban's second line doesn't start where its first line ends",
        cause: "\
            the two lines exchanged; the line of the opposite direction; a ban over a line \
            between",
        remedy: "a ban is about one node: the end of `from`, which is the start of `to`",
    },
    Explanation {
        name: "ReadFailed",
        detail: Detail::Values("FILE"),
        values: ANY_FILE,
        meaning: "\
            reading broke off; of `input` the lines of all records that ended before are written",
        cause: "a folder in place of a file; a disk or network that failed",
        remedy: "try `cat` on the file",
    },
];
