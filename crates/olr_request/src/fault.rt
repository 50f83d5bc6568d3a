//! Why a request wasn't answered.

ghost use Rattle.std.specs.Prelude.{◌≡◌, Some};
ghost use Rattle.olr_request.specs.declared.fault.Fault.TheVariants.{BadNear as FaultOfNear};
ghost use Rattle.olr_request.specs.declared.fault.Fault.TheVariants.{BadNearest as FaultOfNearest};
ghost use Rattle.olr_request.specs.declared.fault.Fault.TheVariants.{BadNumber as FaultOfNumber};
ghost use Rattle.olr_request.specs.declared.fault.Fault.TheVariants.{BadPage as FaultOfPageSize};
ghost use Rattle.olr_request.specs.declared.fault.Fault.TheVariants.{BadTolerance as FaultOfTolerance};
ghost use Rattle.olr_request.specs.declared.fault.Fault.TheVariants.{NoMemory as OutOfMemory};
ghost use Rattle.olr_places.specs.declared.limits.PlaceLimit.TheVariants.{Most};
ghost use Rattle.olr_request.specs.Fault.{fault_of, fault_of_layers, fault_of_map, fault_of_page};
ghost use Rattle.olr_request.specs.Fault.{fault_text, file_name, number_name};

use crate::near_share::BadNearShare;
use olr_base::NoMemory;
use olr_binary::{Kind, Refused};
use olr_candidates::{BadTolerance, LayersFault, Tolerance};
use olr_keys::{BadPage, PageFault};
use olr_lines::BadLineCount;
use olr_map::{File, MapFault};
use olr_places::{BadNumber, PlaceLimit};
use olr_why::BadNearest;
use std::error::Error;
use std::fmt;

/// Why a request wasn't answered. Displayed, each is the line that the program writes, without the
/// program's name.
///
/// In a file of a map, records are counted from 1 behind the header, and columns from 1.
#[derive(Clone, Copy, Debug, PartialEq, Eq)]
pub enum Fault {
    /// The reference has more than 344 bytes of text.
    TooLong,
    /// The reference isn't standard base64 with padding.
    NotBase64,
    /// The reference has no bytes.
    Empty,
    /// The reference is of this version of the format, which isn't read.
    BadVersion(u8),
    /// The reference is of a kind of location that isn't read.
    OtherKind(Kind),
    /// The reference is a point of interest with an access point, which isn't read.
    PoiWithAccess,
    /// The reference has this number of bytes, which is no size of its kind.
    BadLength(usize),
    /// The reference is a line of this number of points, which are too many.
    TooManyPoints(usize),
    /// The reference hasn't the offset bytes that its flags ask for.
    OffsetFlags,
    /// The point of this number, from 1, is the first beyond the ranges of coordinates.
    OutOfRange(usize),
    /// The first record of a file is missing or isn't the header.
    Header(File),
    /// The record of this number has another number of fields than the header.
    Shape(File, u32),
    /// The record of the first number has no value in the column of the second one, the first such.
    Field(File, u32, u32),
    /// The record of this number has the id of an earlier one, or names the lines of an earlier
    /// ban.
    Duplicate(File, u32),
    /// The line of the record of this number starts or ends at a node that there isn't.
    UnknownNode(u32),
    /// The line of the record of this number has the length 0.
    ZeroLength(u32),
    /// Two neighbouring points of the line of the record of this number are equal.
    Degenerate(u32),
    /// The ban of the record of this number names a line that there isn't.
    UnknownLine(u32),
    /// The second line of the ban of the record of this number doesn't start where the first one
    /// ends.
    NotAdjacent(u32),
    /// A file has more records than a map may have: 100,000 nodes, 200,000 lines, 200,000 bans.
    TooMany(File),
    /// The file that is given for a confidence is none.
    BadConfidence,
    /// The point of this number, from 1, is the first that has more than 64 candidates.
    TooManyCandidates(usize),
    /// The tolerance of this name is the first out of its range. `run` of `olr_app` never answers
    /// this, since its request can't hold such a number.
    BadTolerance(Tolerance),
    /// The number of this name is the first out of its range: one of those for places, or how many
    /// lines are printed. `run` of `olr_app` never answers this, nor the next four.
    BadNumber(PlaceLimit),
    /// The share by which another path of a leg may be longer isn't from 0 to 100 thousandths.
    BadNear,
    /// The box ends farther west or south than it begins.
    BadBox,
    /// The number of lines nearest to a point isn't from 0 to 64.
    BadNearest,
    /// This number isn't a page size, which is 1 to 1000.
    BadPage(u32),
    /// A cursor and all pages are asked for. `run` of `olr_app` isn't asked for both.
    AfterWithAll,
    /// The text of the cursor isn't that of one.
    BadCursor,
    /// The cursor is of another map, another reference or other tolerances.
    CursorOfOther,
    /// The cursor isn't that of a matching.
    CursorNotHere,
    /// A file couldn't be opened. `run` of `olr_app` opens none.
    OpenFailed(File),
    /// A file couldn't be read to its end.
    ReadFailed(File),
    /// The file of a confidence couldn't be opened. `run` of `olr_app` opens none.
    ConfidenceNotOpened,
    /// The file of a confidence couldn't be read to its end. `run` of `olr_app` reads none.
    ConfidenceNotRead,
    /// The file of records couldn't be opened. `run` of `olr_app` opens none.
    InputNotOpened,
    /// The records couldn't be read to their end. `run` of `olr_app` reads none.
    InputNotRead,
    /// The allocator refused the memory that was asked for.
    NoMemory,
    /// The output couldn't be written, or not the whole of it.
    WriteFailed,
}

impl From<Refused> for Fault {
    ghost from_gives = { λ refused fault. fault ≡ fault_of refused };

    fn from(refused: Refused) -> Fault {
        match refused {
            Refused::TooLong => Fault::TooLong,
            Refused::NotBase64 => Fault::NotBase64,
            Refused::Empty => Fault::Empty,
            Refused::BadVersion(version) => Fault::BadVersion(version),
            Refused::OtherKind(kind) => Fault::OtherKind(kind),
            Refused::PoiWithAccess => Fault::PoiWithAccess,
            Refused::BadLength(size) => Fault::BadLength(size),
            Refused::TooManyPoints(count) => Fault::TooManyPoints(count),
            Refused::OffsetFlags => Fault::OffsetFlags,
            Refused::OutOfRange(point) => Fault::OutOfRange(point),
        }
    }
}

impl From<MapFault> for Fault {
    ghost from_gives = { λ why fault. fault ≡ fault_of_map why };

    fn from(why: MapFault) -> Fault {
        match why {
            MapFault::Header(file) => Fault::Header(file),
            MapFault::Shape(file, record) => Fault::Shape(file, record),
            MapFault::Field(file, record, column) => Fault::Field(file, record, column),
            MapFault::Duplicate(file, record) => Fault::Duplicate(file, record),
            MapFault::UnknownNode(record) => Fault::UnknownNode(record),
            MapFault::ZeroLength(record) => Fault::ZeroLength(record),
            MapFault::Degenerate(record) => Fault::Degenerate(record),
            MapFault::UnknownLine(record) => Fault::UnknownLine(record),
            MapFault::NotAdjacent(record) => Fault::NotAdjacent(record),
            MapFault::TooMany(file) => Fault::TooMany(file),
            MapFault::ReadFailed(file) => Fault::ReadFailed(file),
            MapFault::NoMemory => Fault::NoMemory,
        }
    }
}

impl From<LayersFault> for Fault {
    ghost from_gives = { λ why fault. fault ≡ fault_of_layers why };

    fn from(why: LayersFault) -> Fault {
        match why {
            LayersFault::TooManyCandidates(point) => Fault::TooManyCandidates(point),
            LayersFault::NoMemory => Fault::NoMemory,
        }
    }
}

impl From<BadTolerance> for Fault {
    ghost from_gives = { λ refused fault. fault ≡ FaultOfTolerance refused.0 };

    fn from(refused: BadTolerance) -> Fault {
        Fault::BadTolerance(refused.0)
    }
}

impl From<BadNumber> for Fault {
    ghost from_gives = { λ refused fault. fault ≡ FaultOfNumber refused.0 };

    fn from(refused: BadNumber) -> Fault {
        Fault::BadNumber(refused.0)
    }
}

impl From<BadNearShare> for Fault {
    ghost from_gives = { λ _ fault. fault ≡ FaultOfNear };

    fn from(_refused: BadNearShare) -> Fault {
        Fault::BadNear
    }
}

impl From<BadLineCount> for Fault {
    ghost from_gives = { λ _ fault. fault ≡ FaultOfNumber Most };

    fn from(_refused: BadLineCount) -> Fault {
        Fault::BadNumber(PlaceLimit::Most)
    }
}

impl From<BadNearest> for Fault {
    ghost from_gives = { λ _ fault. fault ≡ FaultOfNearest };

    fn from(_refused: BadNearest) -> Fault {
        Fault::BadNearest
    }
}

impl From<BadPage> for Fault {
    ghost from_gives = { λ refused fault. fault ≡ FaultOfPageSize refused.0 };

    fn from(refused: BadPage) -> Fault {
        Fault::BadPage(refused.0)
    }
}

impl From<PageFault> for Fault {
    ghost from_gives = { λ why fault. fault ≡ fault_of_page why };

    fn from(why: PageFault) -> Fault {
        match why {
            PageFault::CursorNotHere => Fault::CursorNotHere,
            PageFault::NoMemory => Fault::NoMemory,
        }
    }
}

impl From<NoMemory> for Fault {
    ghost from_gives = { λ _ fault. fault ≡ OutOfMemory };

    fn from(_failure: NoMemory) -> Fault {
        Fault::NoMemory
    }
}

/// The name of a file.
fn name_of(file: File) -> &'static str
    ensures { result.now ≡ file_name file }
{
    match file {
        File::Nodes => "nodes",
        File::Lines => "lines",
        File::Bans => "bans",
    }
}

/// The name of a number for places.
fn name_of_number(number: PlaceLimit) -> &'static str
    ensures { result.now ≡ number_name number }
{
    match number {
        PlaceLimit::Apart => "apart",
        PlaceLimit::Within => "within",
        PlaceLimit::Look => "look",
        PlaceLimit::Most => "most",
    }
}

impl fmt::Display for Fault {
    ghost output = { λ fault. Some (fault_text fault) };

    fn fmt<W: fmt::Write>(&self, f: &mut fmt::Formatter<W>) -> fmt::Result {
        match self {
            Fault::TooLong => write!(f, "TooLong"),
            Fault::NotBase64 => write!(f, "NotBase64"),
            Fault::Empty => write!(f, "Empty"),
            Fault::BadVersion(version) => write!(f, "BadVersion {version}"),
            Fault::OtherKind(Kind::Area) => write!(f, "OtherKind Area"),
            Fault::OtherKind(Kind::GeoCoordinate) => write!(f, "OtherKind GeoCoordinate"),
            Fault::PoiWithAccess => write!(f, "PoiWithAccess"),
            Fault::BadLength(size) => write!(f, "BadLength {size}"),
            Fault::TooManyPoints(count) => write!(f, "TooManyPoints {count}"),
            Fault::OffsetFlags => write!(f, "OffsetFlags"),
            Fault::OutOfRange(point) => write!(f, "OutOfRange {point}"),
            Fault::Header(file) => write!(f, "Header {}", name_of(*file)),
            Fault::Shape(file, record) => write!(f, "Shape {} {record}", name_of(*file)),
            Fault::Field(file, record, column) => {
                write!(f, "Field {} {record} {column}", name_of(*file))
            }
            Fault::Duplicate(file, record) => write!(f, "Duplicate {} {record}", name_of(*file)),
            Fault::UnknownNode(record) => write!(f, "UnknownNode {record}"),
            Fault::ZeroLength(record) => write!(f, "ZeroLength {record}"),
            Fault::Degenerate(record) => write!(f, "Degenerate {record}"),
            Fault::UnknownLine(record) => write!(f, "UnknownLine {record}"),
            Fault::NotAdjacent(record) => write!(f, "NotAdjacent {record}"),
            Fault::TooMany(file) => write!(f, "TooMany {}", name_of(*file)),
            Fault::BadConfidence => write!(f, "BadConfidence"),
            Fault::TooManyCandidates(point) => write!(f, "TooManyCandidates {point}"),
            Fault::BadTolerance(name) => write!(f, "BadTolerance {}", name.text()),
            Fault::BadNumber(number) => write!(f, "BadNumber {}", name_of_number(*number)),
            Fault::BadNear => write!(f, "BadNumber near"),
            Fault::BadBox => write!(f, "BadNumber box"),
            Fault::BadNearest => write!(f, "BadNumber nearest"),
            Fault::BadPage(size) => write!(f, "BadPage {size}"),
            Fault::AfterWithAll => write!(f, "AfterWithAll"),
            Fault::BadCursor => write!(f, "BadCursor"),
            Fault::CursorOfOther => write!(f, "CursorOfOther"),
            Fault::CursorNotHere => write!(f, "CursorNotHere"),
            Fault::OpenFailed(file) => write!(f, "OpenFailed {}", name_of(*file)),
            Fault::ReadFailed(file) => write!(f, "ReadFailed {}", name_of(*file)),
            Fault::ConfidenceNotOpened => write!(f, "OpenFailed confidence"),
            Fault::ConfidenceNotRead => write!(f, "ReadFailed confidence"),
            Fault::InputNotOpened => write!(f, "OpenFailed input"),
            Fault::InputNotRead => write!(f, "ReadFailed input"),
            Fault::NoMemory => write!(f, "NoMemory"),
            Fault::WriteFailed => write!(f, "WriteFailed"),
        }
    }
}

impl Error for Fault {}
