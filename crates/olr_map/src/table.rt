//! What is done with each file of a map, whatever its rows are: it is read whole, its header is
//! looked at, its records are read up to the first faulty one, and its rows are sorted.

ghost use Rattle.std.specs.Prelude.{◌≡◌, ◌≤◌, ◌<◌, List, [], ◌∷◌, Some, None, length, map};
ghost use Rattle.std.specs.Prelude.{IfOk, IfErr, OnOk, MatchBool, MatchOption};
ghost use Rattle.olr_index.specs.Repeats.{Sorts, IsFirstRepeat};
ghost use Rattle.olr_map.specs.inner.Ending.{FaultOfFile};
ghost use Rattle.olr_map.specs.Files.{IsReadWhole};
ghost use Rattle.olr_map.specs.inner.Reading.{Reports, HasText};
ghost use Rattle.olr_map.specs.inner.Settling.{AddsRow, StopsAt, SpellRows, StopsIn, Settles};
ghost use Rattle.olr_map.specs.inner.Settling.{IsSettled, with_last};
ghost use Rattle.olr_map.specs.Table.{Table, keys_of, LacksHeader, IsTableOf, IsFaultOfTable};

use crate::fault::MapFault;
use crate::reading::read_fault;
use olr_base::NoMemory;
use olr_index::first_repeat;
use olr_records::{File, Record, Records, Source, read_whole};
use std::alloc::Global;

/// A record at which the reading of a file's rows stopped.
#[derive(Clone, Copy)]
pub(crate) struct Stop {
    /// Its fault, where no key occurs twice.
    pub(crate) fault: MapFault,
    /// Its key, if its row was read.
    pub(crate) key: Option<u64>,
}

/// A file of a map that is being read: what differs from one file to another.
pub(crate) trait TableFile {
    // What a record spells.
    ghost Row: { Type 0 };

    // What the meaning of its records rests on: the rows of the file before it.
    ghost Earlier: { Type 0 };

    // The table that the file is.
    ghost table_of: { Earlier → Table Row };

    // The rows of the file before it.
    ghost before: { Self → Earlier };

    // The rows that were read so far.
    ghost rows: { Self → List Row };

    // What holds between two records.
    ghost IsSound: { Self → Type 0 };

    /// Which file it is.
    fn file(&self) -> File
        ensures { result ≡ (table_of (before self.now)).file };

    /// How many rows it may have.
    fn limit(&self) -> u32
        ensures most { result ≡ (table_of (before self.now)).most }
        ensures at_most { result ≤ 200000 };

    /// Whether a record is its header.
    fn is_header(&self, row: &Record) -> bool
        ensures { MatchBool result
            (row.now ≡ (table_of (before self.now)).header)
            (row.now ≡ (table_of (before self.now)).header → ⊥) };

    /// Appends the row of a record, or answers why the record has none.
    fn add(&mut self, row: &Record) -> Result<Option<Stop>, NoMemory>
        requires room { length (rows self.old) < (table_of (before self.old)).most }
        requires sound { IsSound self.old }
        ensures added { IfOk result (λ stop. MatchOption stop
            (AddsRow (table_of (before self.old)) row.now (rows self.old) (rows self.new)
            × IsSound self.new)
            (StopsAt (table_of (before self.old)) row.now (rows self.old) (rows self.new))) }
        ensures same { OnOk result (before self.new ≡ before self.old) };

    /// The keys of the rows.
    fn keys(&self, alloc: Global) -> Result<Vec<u64>, NoMemory>
        ensures { IfOk result (λ keys. keys.items
            ≡ keys_of (table_of (before self.now)) (rows self.now)) };

    /// Sorts the rows by rising key. Where a key occurs twice the answer is the place of the first
    /// row whose key an earlier one has.
    fn sort(&mut self, alloc: Global) -> Result<Option<usize>, NoMemory>
        requires sound { IsSound self.old }
        ensures { IfOk result (λ repeat. MatchOption repeat
            (Sorts (table_of (before self.old)).key (rows self.old) (rows self.new)
            × IsSound self.new)
            (IsFirstRepeat (keys_of (table_of (before self.old)) (rows self.old)))) };
}

/// Whether a record has just these names, one a field.
#[tactic(auto, using(crate::proofs::Headers::other_field, crate::proofs::Headers::one_more_field, crate::proofs::Headers::name_at))]
pub(crate) fn has_names(row: &Record, names: &[&str]) -> bool
    ensures { MatchBool result
        (row.now ≡ map (λ name. name.now) names.now)
        (row.now ≡ map (λ name. name.now) names.now → ⊥) }
{
    if row.count() != names.len() {
        return false;
    }
    for place in 0..names.len() {
        if !row.has(place, names[place].as_bytes()) {
            return false;
        }
    }
    true
}

/// Moves past the header, and answers whether the records begin with it.
fn pass_header<T: TableFile>(
    records: &mut Records<'_>,
    row: &mut Record,
    table: &T,
) -> Result<bool, NoMemory>
    ensures { IfOk result (λ found. MatchBool found
        (records.old ≡ (T.table_of (T.before table.now)).header ∷ records.new)
        (LacksHeader (T.table_of (T.before table.now)).header records.old)) }
{
    if !records.next(row)? {
        return Ok(false);
    }
    if !table.is_header(row) {
        return Ok(false);
    }
    Ok(true)
}

/// Reads the rows of the records that are left, up to the first record that is past the limit or
/// spells no row, and answers why it spells none.
fn read_rows<T: TableFile>(
    records: &mut Records<'_>,
    row: &mut Record,
    table: &mut T,
) -> Result<Option<Stop>, NoMemory>
    requires settled { IsSettled (T.table_of (T.before table.old)) }
    requires empty { T.rows table.old ≡ [] }
    requires sound { T.IsSound table.old }
    ensures rows { IfOk result (λ stop. MatchOption stop
        (SpellRows (T.table_of (T.before table.old)) records.old (T.rows table.new))
        (StopsIn (T.table_of (T.before table.old)) records.old (T.rows table.new))) }
    ensures sound { IfOk result (λ stop. stop ≡ None → T.IsSound table.new) }
    ensures at_most { OnOk result (length (T.rows table.new) ≤ 200000) }
    ensures same { OnOk result (T.before table.new ≡ T.before table.old) }
{
    let limit = table.limit();
    let mut count = 0;
    while records.next(row)? {
        if count == limit {
            let fault = MapFault::TooMany(table.file());
            return Ok(Some(Stop { fault, key: None }));
        }
        if let Some(stop) = table.add(row)? {
            return Ok(Some(stop));
        }
        count += 1;
    }
    Ok(None)
}

/// The keys of the rows, followed by that of the record at which the reading stopped, if it was
/// read.
fn keys_read<T: TableFile>(
    alloc: Global,
    table: &T,
    last: Option<u64>,
) -> Result<Vec<u64>, NoMemory>
    ensures { IfOk result (λ keys. keys.items
        ≡ with_last (keys_of (T.table_of (T.before table.now)) (T.rows table.now)) last) }
{
    let mut keys = table.keys(alloc)?;
    if let Some(key) = last {
        keys.push(key)?;
    }
    Ok(keys)
}

/// Which fault decides where the reading of rows stopped: that of the first key that occurs twice,
/// or else that of the record at which it stopped.
fn first_fault<T: TableFile>(alloc: Global, table: &T, stop: Stop) -> Result<MapFault, NoMemory>
    requires { length (T.rows table.now) ≤ 200000 }
    ensures { IfOk result (Settles (keys_of (T.table_of (T.before table.now)) (T.rows table.now))
        (Some stop) (T.table_of (T.before table.now)).file) }
{
    let keys = keys_read(alloc, table, stop.key)?;
    let Some(place) = first_repeat(alloc, &keys)? else {
        return Ok(stop.fault);
    };
    Ok(MapFault::Duplicate(table.file(), place as u32 + 1))
}

/// Sorts the rows of all records of a file by rising key. Where the reading stopped at a record, or
/// a key occurs twice, the answer is the fault that decides; the rows may be in another order then.
fn settle<T: TableFile>(alloc: Global, table: &mut T, stop: Option<Stop>) -> Result<(), MapFault>
    requires at_most { length (T.rows table.old) ≤ 200000 }
    requires sound { stop ≡ None → T.IsSound table.old }
    ensures sorted { OnOk result ((stop ≡ None)
        × Sorts (T.table_of (T.before table.old)).key (T.rows table.old) (T.rows table.new)
        × T.IsSound table.new) }
    ensures fault { IfErr result
        (Settles (keys_of (T.table_of (T.before table.old)) (T.rows table.old))
        stop (T.table_of (T.before table.old)).file) }
{
    if let Some(stop) = stop {
        return Err(first_fault(alloc, table, stop)?);
    }
    let file = table.file();
    if let Some(place) = table.sort(alloc)? {
        return Err(MapFault::Duplicate(file, place as u32 + 1));
    }
    Ok(())
}

/// Reads the rows of a text into a file that has none, and sorts them by their keys.
///
/// # Errors
///
/// The fault of the text, or [`MapFault::NoMemory`].
fn read_text<T: TableFile>(alloc: Global, text: &[u8], table: &mut T) -> Result<(), MapFault>
    requires settled { IsSettled (T.table_of (T.before table.old)) }
    requires empty { T.rows table.old ≡ [] }
    requires sound { T.IsSound table.old }
    ensures rows { OnOk result
        (IsTableOf (T.table_of (T.before table.old)) text.now (T.rows table.new)) }
    ensures sound { OnOk result (T.IsSound table.new) }
    ensures fault { IfErr result
        (Reports (IsFaultOfTable (T.table_of (T.before table.old)) text.now)) }
{
    let mut records = Records::new(alloc, text);
    let mut row = Record::new(alloc);
    if !pass_header(&mut records, &mut row, table)? {
        return Err(MapFault::Header(table.file()));
    }
    let stop = read_rows(&mut records, &mut row, table)?;
    settle(alloc, table, stop)?;
    Ok(())
}

/// Reads the rows of a source into a file that has none, and sorts them by their keys. The bytes of
/// the source go into `text`.
///
/// # Errors
///
/// The fault of the text, [`MapFault::ReadFailed`] or [`MapFault::NoMemory`].
pub(crate) fn read_table<S: Source, T: TableFile>(
    alloc: Global,
    source: &mut S,
    text: &mut Vec<u8>,
    table: &mut T,
) -> Result<(), MapFault>
    requires settled { IsSettled (T.table_of (T.before table.old)) }
    requires empty { T.rows table.old ≡ [] }
    requires sound { T.IsSound table.old }
    ensures rows { OnOk result (HasText (S.left source.old)
        (λ text. IsTableOf (T.table_of (T.before table.old)) text (T.rows table.new))) }
    ensures sound { OnOk result (T.IsSound table.new) }
    ensures whole { OnOk result (IsReadWhole S.left S.failed source.old source.new) }
    ensures fault { IfErr result (FaultOfFile S.left S.failed source.old source.new
        (T.table_of (T.before table.old)).file (IsFaultOfTable (T.table_of (T.before table.old)))) }
{
    if let Err(why) = read_whole(alloc, source, text) {
        return Err(read_fault(why, table.file()));
    }
    read_text(alloc, text, table)?;
    Ok(())
}
