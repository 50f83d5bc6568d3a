//! The records of a CSV text, one after the other. No other module knows of `csv`.
//!
//! Fields are between commas, in double quotes or not; records end by CR, LF or both; empty lines
//! are passed over; nothing is trimmed.

ghost use Rattle.std.specs.Prelude.{◌≡◌, [], ◌∷◌, Some, length, option_map};
ghost use Rattle.std.specs.Prelude.{IfOk, OnErr, MatchBool};
ghost use Rattle.olr_records.specs.Records.{field_at, records_of};

use csv::{ByteRecord, Reader, ReaderBuilder};
use olr_base::NoMemory;
use std::alloc::Global;
use std::marker::Model;

/// A record. Contracts see the list of its fields, each a list of bytes.
#[derive(Drop)]
pub struct Record {
    fields: ByteRecord,
}

impl Model for Record {
    ghost use Rattle.std.specs.Prelude.{List, ℕ};
    ghost use Rattle.csv.specs.Records.{fields_of};

    ghost Value = { List (List ℕ) };

    ghost view = { λ r. fields_of r.fields };
}

/// The records that are left of a text. Contracts see the list of them.
#[derive(Drop)]
pub struct Records<'a> {
    reader: Reader<&'a [u8]>,
    /// Whether a call found no further record, or failed.
    is_over: bool,
}

impl<'a> Model for Records<'a> {
    ghost use Rattle.std.specs.Prelude.{◌≡◌, false, List, ℕ};
    ghost use Rattle.olr_records.specs.Records.{records_until, IsPlain};

    ghost Value = { List (List (List ℕ)) };

    ghost view = { λ r. records_until r.is_over r.reader };

    ghost invariant = { λ r. r.is_over ≡ false → IsPlain r.reader };
}

impl Record {
    /// A record without fields.
    pub fn new(alloc: Global) -> Record
        ensures { result ≡ [] }
    {
        Record {
            fields: ByteRecord::new(alloc),
        }
    }

    /// How many fields it has.
    pub fn count(&self) -> usize
        ensures { result ≡ length self.now }
    {
        self.fields.len()
    }

    /// The bytes of the field at this place; the first has place 0.
    pub fn field(&self, place: usize) -> Option<&[u8]>
        ensures { option_map (λ field. field.now) result ≡ field_at self.now place }
    {
        self.fields.get(place)
    }

    /// Whether the field at this place is there and has these bytes.
    pub fn has(&self, place: usize, bytes: &[u8]) -> bool
        ensures { MatchBool result
            (field_at self.now place ≡ Some bytes.now)
            (field_at self.now place ≡ Some bytes.now → ⊥) }
    {
        let Some(field) = self.field(place) else {
            return false;
        };
        field == bytes
    }
}

impl<'a> Records<'a> {
    /// All the records of a text. A byte order mark at its start is passed over.
    pub fn new(alloc: Global, text: &'a [u8]) -> Records<'a>
        ensures { result ≡ records_of text.now }
    {
        let reader = ReaderBuilder::new()
            .has_headers(false)
            .flexible(true)
            .from_reader(alloc, text);
        Records {
            reader,
            is_over: false,
        }
    }

    /// Moves the next record into the record `row`, and answers whether there was one.
    ///
    /// # Errors
    ///
    /// [`NoMemory`] where there is no memory for the record. No record is left then.
    pub fn next(&mut self, row: &mut Record) -> Result<bool, NoMemory>
        ensures found { IfOk result (λ found. MatchBool found
            (self.old ≡ row.new ∷ self.new)
            ((self.old ≡ []) × (self.new ≡ []))) }
        ensures none_left { OnErr result (self.new ≡ []) }
    {
        if self.is_over {
            return Ok(false);
        }
        let Ok(found) = self.reader.read_byte_record(&mut row.fields) else {
            self.is_over = true;
            return Err(NoMemory);
        };
        self.is_over = !found;
        Ok(found)
    }
}
