//! The options of subcommands, as tables: what each takes, and the texts of help.

ghost use Rattle.std.specs.Prelude.{◌≡◌, Decides, IfSome, is_some};
ghost use Rattle.std.specs.List.{Any};
ghost use Rattle.olr_words.specs.Options.{IsValue};
ghost use Rattle.olr_words.specs.RecordCommand.{is_box, is_flag, record_value};

use crate::box_text::edges_in;
use crate::place_order::PLACE_ORDERS;
use crate::profile::Profile;
use crate::route_part::ROUTE_PARTS;

/// What an option takes.
#[derive(Clone, Copy)]
pub(crate) enum Takes {
    /// The text of a reference, which has no name before it.
    Reference,
    /// The path of a file of the map, in place of a folder. It goes with the one of this name.
    MapFile(&'static str),
    /// The path of a file.
    File,
    /// The path of a folder of the map, in place of its files.
    MapFolder,
    /// A number. It has no default here: that of [`Profile`] or of
    /// [`PlaceLimits`](olr_places::PlaceLimits) is used where it is left out.
    Number,
    /// One of these words, which stand for this name.
    OneOf(&'static str, &'static [&'static str]),
    /// The format of an output: one of the first words, or of the second ones in a record.
    Format(&'static [&'static str], &'static [&'static str]),
    /// The text of a cursor.
    Cursor,
    /// The text of a box of coordinates. It has to be there.
    GeoBox,
    /// Nothing more: it is there, or it isn't.
    Flag,
    /// Nothing more. It asks for all pages, which a record can't have.
    AllPages,
    /// Any number of words, which have no name before them.
    Words,
}

/// Whether a text is one of these words.
fn is_one_of(text: &str, words: &[&str]) -> bool
    ensures { Decides result (Any (λ word. word.now ≡ text.now) words.now) }
{
    words.iter().any(|word| *word == text)
}

/// An option of a subcommand.
#[derive(Clone, Copy)]
pub struct CommandOption {
    /// Its name, without dashes.
    pub name: &'static str,
    pub(crate) takes: Takes,
    /// The text of its help.
    pub help: &'static str,
}

impl CommandOption {
    /// Whether it takes a number.
    pub fn takes_number(&self) -> bool {
        matches!(self.takes, Takes::Number)
    }

    /// Whether it takes a box of coordinates, which has to be there.
    pub fn takes_box(&self) -> bool
        ensures { result ≡ is_box (record_value self.now.takes) }
    {
        matches!(self.takes, Takes::GeoBox)
    }

    /// Whether it is an option that a record may have: it names no file, and doesn't ask for several
    /// pages.
    pub fn is_of_record(&self) -> bool
        ensures { result ≡ is_some (record_value self.now.takes) }
    {
        matches!(
            self.takes,
            Takes::Number
                | Takes::OneOf(_, _)
                | Takes::Format(_, _)
                | Takes::Cursor
                | Takes::GeoBox
                | Takes::Flag
        )
    }

    /// Whether it is a flag: a record may have it, and no word stands behind it.
    pub fn is_flag(&self) -> bool
        ensures { result ≡ is_flag (record_value self.now.takes) }
    {
        matches!(self.takes, Takes::Flag)
    }

    /// Whether it takes a text in a record. The format of a record's answer isn't text. A flag has no
    /// text of its own: it takes any that `clap` finds for it.
    pub fn takes_in_record(&self, text: &str) -> bool
        ensures { Decides result
            (IfSome (record_value self.now.takes) (λ value. IsValue value text.now)) }
    {
        match self.takes {
            Takes::Number => text.parse::<u32>().is_ok(),
            Takes::OneOf(_, words) => is_one_of(text, words),
            Takes::Format(_, words) => is_one_of(text, words),
            Takes::GeoBox => edges_in(text).is_some(),
            _ => true,
        }
    }
}

/// The text of a reference.
pub(crate) const REFERENCE: &[CommandOption] = &[CommandOption {
    name: "REF",
    takes: Takes::Reference,
    help: "The reference, as base64 text",
}];

/// The files of a map.
pub(crate) const FILES: &[CommandOption] = &[
    CommandOption {
        name: "map",
        takes: Takes::MapFolder,
        help: "The folder of the map: nodes.csv, lines.csv and, where it is there, bans.csv",
    },
    CommandOption {
        name: "nodes",
        takes: Takes::MapFile("lines"),
        help: "The nodes of the map, as CSV: id,lon,lat",
    },
    CommandOption {
        name: "lines",
        takes: Takes::MapFile("nodes"),
        help: "The lines of the map, as CSV: id,from,to,class,form,length,shape",
    },
    CommandOption {
        name: "bans",
        takes: Takes::File,
        help: "The bans on turns from line to line, as CSV: from,to [default: no bans]",
    },
];

/// How far the map may differ from that of the reference.
pub(crate) const TOLERANCES: &[CommandOption] = &[
    CommandOption {
        name: "profile",
        takes: Takes::OneOf("PROFILE", Profile::NAMES),
        help: "What stands for tolerances that aren't given: 'feed' is for messages made on another map [default: program]",
    },
    CommandOption {
        name: "radius",
        takes: Takes::Number,
        help: "How far a line may lie from its point, in metres: 1 to 1000 [default: 100]",
    },
    CommandOption {
        name: "bearing",
        takes: Takes::Number,
        help: "How far bearings may differ, in sectors of 11.25 degrees: 0 to 16 [default: 4]",
    },
    CommandOption {
        name: "class",
        takes: Takes::Number,
        help: "How far classes of roads may differ: 0 to 7 [default: 7]",
    },
    CommandOption {
        name: "lowest",
        takes: Takes::Number,
        help: "What is added to the lowest class of a leg to give its class limit: 0 to 7 [default: 0]",
    },
    CommandOption {
        name: "percent",
        takes: Takes::Number,
        help: "How far the interval of a leg is widened, in percent of each end: 0 to 100 [default: 30]",
    },
    CommandOption {
        name: "slack",
        takes: Takes::Number,
        help: "How far it is then widened at both ends, in decimetres: 0 to 10000 [default: 300]",
    },
];

/// How places are told apart, and how far matchings are looked at.
pub(crate) const LIMITS: &[CommandOption] = &[
    CommandOption {
        name: "apart",
        takes: Takes::Number,
        help: "By how many neighbouring decimetres matchings of one place may differ: 0 to 1000000 [default: 750]",
    },
    CommandOption {
        name: "within",
        takes: Takes::Number,
        help: "How far a place may be behind the best one, in penalty points: 0 to 14620 [default: 30]",
    },
    CommandOption {
        name: "look",
        takes: Takes::Number,
        help: "How many matchings are looked at, at most: 1 to 1000000 [default: 1000]",
    },
    CommandOption {
        name: "most",
        takes: Takes::Number,
        help: "How many places are printed, at most: 1 to 100 [default: 10]",
    },
];

/// By which file it is told how probable places are. Text has no probabilities.
const CONFIDENCE: CommandOption = CommandOption {
    name: "confidence",
    takes: Takes::File,
    help: "With '--order likely', print how probable places are, by this file of 'olr-tools calibrate': not as text",
};

/// In which order places are printed, and how probable they are.
pub(crate) const ORDER: &[CommandOption] = &[
    CommandOption {
        name: "order",
        takes: Takes::OneOf("ORDER", PLACE_ORDERS),
        help: "In which order places are printed: by total, or by likely cost, which says which one is probably right [default: total]",
    },
    CONFIDENCE,
];

/// Whether each candidate, matching or place is printed in detail.
pub(crate) const DETAIL: &[CommandOption] = &[CommandOption {
    name: "detail",
    takes: Takes::Flag,
    help: "Print the parts of each penalty, and what they come from",
}];

/// Whether the coordinates of each candidate, matching or place are printed. Text has none.
pub(crate) const SHAPE: &[CommandOption] = &[CommandOption {
    name: "shape",
    takes: Takes::Flag,
    help: "Print where each candidate and each matching lies, in microdegrees: not as text",
}];

/// Which part of a route is drawn.
pub(crate) const PART: &[CommandOption] = &[CommandOption {
    name: "part",
    takes: Takes::OneOf("PART", ROUTE_PARTS),
    help: "Which part of each route GeoJSON draws: the whole route, or the outer or inner part between its offsets [default: outer]",
}];

/// Text or JSON.
const TEXT_OR_JSON: Takes = Takes::Format(&["text", "json"], &["json"]);

/// One of these, or GeoJSON, for what can be drawn on a map.
const ANY_FORMAT: Takes = Takes::Format(&["text", "json", "geojson"], &["json", "geojson"]);

/// JSON or GeoJSON, for what has no text.
const JSON_OR_GEOJSON: Takes = Takes::Format(&["json", "geojson"], &["json", "geojson"]);

/// The format of an output that is one object.
pub(crate) const FORMAT: &[CommandOption] = &[CommandOption {
    name: "format",
    takes: TEXT_OR_JSON,
    help: "Print text, or JSON: one object on a line [default: text]",
}];

/// The format of an output that is one object, and can be drawn on a map.
pub(crate) const GEO_FORMAT: &[CommandOption] = &[CommandOption {
    name: "format",
    takes: ANY_FORMAT,
    help: "Print text, JSON or GeoJSON: one object on a line [default: text]",
}];

/// The size of a page.
pub(crate) const PAGE: &[CommandOption] = &[CommandOption {
    name: "page",
    takes: Takes::Number,
    help: "How many matchings a page has: 1 to 1000 [default: 10]",
}];

/// Which pages are asked for.
pub(crate) const PAGES: &[CommandOption] = &[
    CommandOption {
        name: "after",
        takes: Takes::Cursor,
        help: "Go on after the matching that this cursor names [default: begin with the best]",
    },
    CommandOption {
        name: "all",
        takes: Takes::AllPages,
        help: "Print all pages, one after the other",
    },
];

/// The format of pages.
pub(crate) const PAGE_FORMAT: &[CommandOption] = &[CommandOption {
    name: "format",
    takes: ANY_FORMAT,
    help: "Print each page as text, JSON or GeoJSON: one object on a line [default: text]",
}];

/// How many lines near each point are printed.
pub(crate) const NEAREST: &[CommandOption] = &[CommandOption {
    name: "nearest",
    takes: Takes::Number,
    help: "How many of the lines nearest to each point are printed: 0 to 64 [default: 8]",
}];

/// Whether the coordinates of these lines are printed. Text has none.
pub(crate) const NEAREST_SHAPE: &[CommandOption] = &[CommandOption {
    name: "shape",
    takes: Takes::Flag,
    help: "Print where each of these lines is nearest to its point, in microdegrees: not as text",
}];

/// Which matching has its legs printed, how near another path of a leg is, and the format.
pub(crate) const LEGS: &[CommandOption] = &[
    CommandOption {
        name: "at",
        takes: Takes::Cursor,
        help: "Print the legs of the matching that this cursor names [default: the best one]",
    },
    CommandOption {
        name: "near",
        takes: Takes::Number,
        help: "By how much another path of a leg may be longer, in thousandths: 0 to 100 [default: 1]",
    },
    CommandOption {
        name: "format",
        takes: JSON_OR_GEOJSON,
        help: "Print JSON or GeoJSON: one object on a line [default: json]",
    },
];

/// The box whose lines are printed.
pub(crate) const BOX: &[CommandOption] = &[CommandOption {
    name: "box",
    takes: Takes::GeoBox,
    help: "The box, in microdegrees: its west, south, east and north, as 7416000,49871000,7418000,49873000",
}];

/// How many lines are printed, and whether their points are.
pub(crate) const LINES: &[CommandOption] = &[
    CommandOption {
        name: "most",
        takes: Takes::Number,
        help: "How many lines are printed, at most: 1 to 200000 [default: 20000]",
    },
    CommandOption {
        name: "shape",
        takes: Takes::Flag,
        help: "Print the points of each line, in microdegrees",
    },
    CommandOption {
        name: "format",
        takes: JSON_OR_GEOJSON,
        help: "Print JSON or GeoJSON: one object on a line [default: json]",
    },
];

/// The records of a batch.
pub(crate) const RECORDS: &[CommandOption] = &[CommandOption {
    name: "input",
    takes: Takes::File,
    help: "The records, one a line: the text of a reference, or a key, a tab and the text [default: standard input]",
}];

/// The records that have words of their own, and how probable places are that they ask for.
pub(crate) const REQUESTS: &[CommandOption] = &[
    CommandOption {
        name: "input",
        takes: Takes::File,
        help: "The records, one a line: the words of a command, as 'places --within 100 -- REF', or a key, a tab and the words [default: standard input]",
    },
    CONFIDENCE,
];

/// The fault that is explained.
pub(crate) const FAULT: &[CommandOption] = &[CommandOption {
    name: "NAME",
    takes: Takes::Words,
    help: "The name of a fault, or the line that names it [default: list all faults]",
}];
