//! Why the files of a map can't be read.

ghost use Rattle.std.specs.Prelude.{◌≡◌};
ghost use Rattle.olr_map.specs.declared.fault.MapFault.TheVariants as fault;

use olr_base::NoMemory;
use olr_records::File;
use std::alloc::AllocError;
use thiserror::Error;

/// Why there is no map. Records are counted from 1 after the header, columns from 1.
#[derive(Clone, Copy, Debug, PartialEq, Eq, Error)]
pub enum MapFault {
    /// The first record is missing or isn't the header.
    #[error("the header is missing or another one")]
    Header(File),
    /// A record has another number of fields than the header.
    #[error("record {1} has another number of fields than the header")]
    Shape(File, u32),
    /// The first column of a record, from 1, whose text is no value of that column.
    #[error("record {1} has no value in column {2}")]
    Field(File, u32, u32),
    /// A record has the id of an earlier one, or names the two lines of an earlier ban.
    #[error("record {1} repeats an earlier one")]
    Duplicate(File, u32),
    /// A line starts or ends at a node that there isn't.
    #[error("the line of record {0} starts or ends at no node")]
    UnknownNode(u32),
    /// A line has the length 0.
    #[error("the line of record {0} has the length 0")]
    ZeroLength(u32),
    /// Two neighbouring points of a line, its ends among them, are equal.
    #[error("the line of record {0} has two neighbouring points that are equal")]
    Degenerate(u32),
    /// A ban names a line that there isn't.
    #[error("the ban of record {0} names no line")]
    UnknownLine(u32),
    /// The second line of a ban doesn't start at the node at which the first one ends.
    #[error("the lines of the ban of record {0} don't meet")]
    NotAdjacent(u32),
    /// There are more than 100,000 nodes, more than 200,000 lines or more than 200,000 bans.
    #[error("there are more records than the limit")]
    TooMany(File),
    /// The source of a file failed.
    #[error("the source of the file failed")]
    ReadFailed(File),
    /// The allocator refused memory.
    #[error("no memory is left")]
    NoMemory,
}

impl From<NoMemory> for MapFault {
    ghost from_gives = { λ _ given. given ≡ fault.NoMemory };

    fn from(_error: NoMemory) -> MapFault {
        MapFault::NoMemory
    }
}

impl From<AllocError> for MapFault {
    ghost from_gives = { λ _ given. given ≡ fault.NoMemory };

    fn from(_error: AllocError) -> MapFault {
        MapFault::NoMemory
    }
}
