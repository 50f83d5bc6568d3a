//! What each record of the three files means by itself.

ghost use Rattle.std.specs.Prelude.{◌≡◌, map, IfOk, IfErr, MatchBool, MatchOption};
ghost use Rattle.olr_base.specs.Coordinates.{coordinates_of};
ghost use Rattle.olr_records.specs.Fields.{IsId, IsKind, IsLength, SpellsLongitude, SpellsLatitude};
ghost use Rattle.olr_records.specs.Shape.{IsShape};
ghost use Rattle.olr_map.specs.Rows.{SpellsAt, HasValue, IsNode};
ghost use Rattle.olr_road.specs.RoadMap.{node_of};
ghost use Rattle.olr_map.specs.inner.Reading.{IsNodeError, IsLineError, IsBanError, fault_of};
ghost use Rattle.olr_map.specs.inner.Reading.{SpellsNumbers, SpellsIds};

use crate::fault::MapFault;
use olr_base::{Degrees, NoMemory};
use olr_records::{File, Record, id_of, kind_of, latitude_of, length_of, longitude_of, read_shape};
use olr_road::Node;

/// The numbers of a line, as its record spells them.
#[derive(Clone, Copy, Drop)]
pub(crate) struct LineRow {
    pub(crate) id: u64,
    /// The ids of the nodes at which it starts and ends.
    pub(crate) from: u64,
    pub(crate) to: u64,
    pub(crate) class: u8,
    pub(crate) form: u8,
    /// In decimetres.
    pub(crate) length: u32,
}

/// Why a record is no row.
#[derive(Clone, Copy)]
pub(crate) enum RowError {
    /// It has another number of fields than the header.
    Shape,
    /// Its first column, from 1, that has no value.
    Column(u32),
}

impl RowError {
    /// The fault of a record with this error; `number` is that of the record, from 1.
    pub(crate) fn in_record(self, file: File, number: u32) -> MapFault
        ensures { result ≡ fault_of self file number }
    {
        match self {
            RowError::Shape => MapFault::Shape(file, number),
            RowError::Column(column) => MapFault::Field(file, number, column),
        }
    }
}

/// The id that the field at a place spells.
fn id_at(row: &Record, place: usize) -> Option<u64>
    ensures { MatchOption result
        (HasValue IsId row.now place → ⊥) (SpellsAt IsId row.now place) }
{
    id_of(row.field(place)?)
}

/// The class or form of way that the field at a place spells.
fn kind_at(row: &Record, place: usize) -> Option<u8>
    ensures { MatchOption result
        (HasValue IsKind row.now place → ⊥) (SpellsAt IsKind row.now place) }
{
    kind_of(row.field(place)?)
}

/// The length in decimetres that the field at a place spells.
fn length_at(row: &Record, place: usize) -> Option<u32>
    ensures { MatchOption result
        (HasValue IsLength row.now place → ⊥) (SpellsAt IsLength row.now place) }
{
    length_of(row.field(place)?)
}

/// The longitude in microdegrees that the field at a place spells.
fn longitude_at(row: &Record, place: usize) -> Option<i32>
    ensures { MatchOption result
        (HasValue SpellsLongitude row.now place → ⊥) (SpellsAt SpellsLongitude row.now place) }
{
    longitude_of(row.field(place)?)
}

/// The latitude in microdegrees that the field at a place spells.
fn latitude_at(row: &Record, place: usize) -> Option<i32>
    ensures { MatchOption result
        (HasValue SpellsLatitude row.now place → ⊥) (SpellsAt SpellsLatitude row.now place) }
{
    latitude_of(row.field(place)?)
}

/// The node of a record.
pub(crate) fn read_node(row: &Record) -> Result<Node, RowError>
    ensures node { IfOk result (λ node. IsNode row.now (node_of node)) }
    ensures error { IfErr result (IsNodeError row.now) }
{
    if row.count() != 3 {
        return Err(RowError::Shape);
    }
    let Some(id) = id_at(row, 0) else {
        return Err(RowError::Column(1));
    };
    let Some(lon) = longitude_at(row, 1) else {
        return Err(RowError::Column(2));
    };
    let Some(lat) = latitude_at(row, 2) else {
        return Err(RowError::Column(3));
    };
    Ok(Node {
        id,
        place: Degrees { lon, lat },
    })
}

/// The numbers of a line's record.
pub(crate) fn numbers_of(row: &Record) -> Result<LineRow, RowError>
    ensures numbers { IfOk result (SpellsNumbers row.now) }
    ensures error { IfErr result (IsLineError row.now) }
{
    if row.count() != 7 {
        return Err(RowError::Shape);
    }
    let Some(id) = id_at(row, 0) else {
        return Err(RowError::Column(1));
    };
    let Some(from) = id_at(row, 1) else {
        return Err(RowError::Column(2));
    };
    let Some(to) = id_at(row, 2) else {
        return Err(RowError::Column(3));
    };
    let Some(class) = kind_at(row, 3) else {
        return Err(RowError::Column(4));
    };
    let Some(form) = kind_at(row, 4) else {
        return Err(RowError::Column(5));
    };
    let Some(length) = length_at(row, 5) else {
        return Err(RowError::Column(6));
    };
    Ok(LineRow {
        id,
        from,
        to,
        class,
        form,
        length,
    })
}

/// Reads the places of the shape that the field at a place spells, and answers whether it is one.
pub(crate) fn shape_at(
    row: &Record,
    place: usize,
    shape: &mut Vec<Degrees>,
) -> Result<bool, NoMemory>
    ensures { IfOk result (λ is_shape. MatchBool is_shape
        (SpellsAt IsShape row.now place (map coordinates_of shape.new.items))
        (HasValue IsShape row.now place → ⊥)) }
{
    let Some(text) = row.field(place) else {
        return Ok(false);
    };
    if read_shape(text, shape)? {
        Ok(true)
    } else {
        Ok(false)
    }
}

/// The ids of the two lines that a ban's record names.
pub(crate) fn named_lines(row: &Record) -> Result<(u64, u64), RowError>
    ensures ids { IfOk result (λ ids. SpellsIds row.now ids.0 ids.1) }
    ensures error { IfErr result (IsBanError row.now) }
{
    if row.count() != 2 {
        return Err(RowError::Shape);
    }
    let Some(from) = id_at(row, 0) else {
        return Err(RowError::Column(1));
    };
    let Some(to) = id_at(row, 1) else {
        return Err(RowError::Column(2));
    };
    Ok((from, to))
}
