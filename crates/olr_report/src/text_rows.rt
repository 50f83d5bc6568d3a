//! The rows of a matching in the text of a page.

ghost use Rattle.std.specs.Prelude.{◌≡◌, ◌++◌, string_bytes, option_map, OnOk};
ghost use Rattle.olr_route.specs.Route.{id_at};
ghost use Rattle.olr_text.specs.Texts.{unnumbered};
ghost use Rattle.olr_report.specs.Entries.{entry_of};
ghost use Rattle.olr_report.specs.Location.{located_value, pieces_if_any};
ghost use Rattle.olr_report.specs.TextRows.{point_row, leg_row, piece_text, pieces_row, part_row};
ghost use Rattle.olr_report.specs.TextRows.{place_row, location_rows, entry_rows, end_row};

use crate::locating::Located;
use crate::on_map::OnMap;
use crate::page_entries::Entry;
use olr_base::NoMemory;
use olr_candidates::Candidate;
use olr_keys::{Cursor, Key, Mark};
use olr_matching::Leg;
use olr_road::{Map, Place};
use olr_route::Piece;
use olr_text::{Decimal, ToText, push_texts, text_if};
use std::fmt::Write;

/// The id of the line of a rank; 0 where the map has no such line.
pub fn shown_id(map: &Map, line: u32) -> u64
    ensures { result ≡ id_at map.now line }
{
    if line < map.count() {
        let road_line = map.line(line);
        road_line.id
    } else {
        0
    }
}

/// The row of the candidate of a point.
impl ToText<OnMap<'_>> for Candidate {
    ghost text = { λ on. point_row on.map.now };

    fn push(&self, on: &OnMap<'_>, number: usize, out: &mut String) -> Result<(), NoMemory> {
        let Place { line, at } = self.place;
        let (number, id) = (Decimal(number), Decimal(shown_id(on.map, line)));
        let (at, penalty) = (Decimal(at), Decimal(self.penalty));
        write!(out, "point {number} line {id} at {at} penalty {penalty}\n")?;
        Ok(())
    }
}

/// The row of a leg.
impl ToText<OnMap<'_>> for Leg {
    ghost text = { λ _. leg_row };

    fn push(&self, _: &OnMap<'_>, number: usize, out: &mut String) -> Result<(), NoMemory> {
        let number = Decimal(number);
        let (length, penalty) = (Decimal(self.length), Decimal(self.penalty));
        write!(out, "leg {number} length {length} penalty {penalty}\n")?;
        Ok(())
    }
}

/// A piece, with a space before it where it isn't the first.
impl ToText<OnMap<'_>> for Piece {
    ghost text = { λ on. piece_text on.map.now };

    fn push(&self, on: &OnMap<'_>, number: usize, out: &mut String) -> Result<(), NoMemory> {
        let space = text_if(1 < number, " ");
        let id = Decimal(shown_id(on.map, self.line));
        let (from, to) = (Decimal(self.from), Decimal(self.to));
        write!(out, "{space}{id}@{from}-{to}")?;
        Ok(())
    }
}

/// Adds the row of pieces under a name.
///
/// # Errors
///
/// [`NoMemory`] where the allocator refused memory.
pub fn push_pieces(
    text: &mut String,
    on: &OnMap<'_>,
    name: &str,
    pieces: &[Piece],
) -> Result<(), NoMemory>
    ensures { OnOk result (string_bytes text.new
        ≡ string_bytes text.old ++ pieces_row on.now.map.now name.now pieces.now) }
{
    write!(text, "{name} ")?;
    push_texts(pieces, on, text)?;
    text.push('\n')?;
    Ok(())
}

/// Adds the row of a part of the route under a name. The part may be none.
///
/// # Errors
///
/// [`NoMemory`] where the allocator refused memory.
pub fn push_part(
    text: &mut String,
    on: &OnMap<'_>,
    name: &str,
    part: &Option<Vec<Piece>>,
) -> Result<(), NoMemory>
    ensures { OnOk result (string_bytes text.new
        ≡ string_bytes text.old ++ part_row on.now.map.now name.now (pieces_if_any part.now)) }
{
    match part {
        Some(pieces) => push_pieces(text, on, name, pieces)?,
        None => write!(text, "{name} none\n")?,
    }
    Ok(())
}

/// Adds the row of a place under a name.
///
/// # Errors
///
/// [`NoMemory`] where the allocator refused memory.
pub fn push_place(
    text: &mut String,
    on: &OnMap<'_>,
    name: &str,
    place: &Place,
) -> Result<(), NoMemory>
    ensures { OnOk result (string_bytes text.new
        ≡ string_bytes text.old ++ place_row on.now.map.now name.now place.now) }
{
    let (id, at) = (Decimal(shown_id(on.map, place.line)), Decimal(place.at));
    write!(text, "{name} {id}@{at}\n")?;
    Ok(())
}

/// Adds the two rows of a location.
///
/// # Errors
///
/// [`NoMemory`] where the allocator refused memory.
pub fn push_location(text: &mut String, on: &OnMap<'_>, location: &Located) -> Result<(), NoMemory>
    ensures { OnOk result (string_bytes text.new
        ≡ string_bytes text.old ++ location_rows on.now.map.now (located_value location.now)) }
{
    match location {
        Located::Line { outer, inner } => {
            push_part(text, on, "outer", outer)?;
            push_part(text, on, "inner", inner)?;
        }
        Located::Point { earliest, latest } => {
            push_place(text, on, "earliest", earliest)?;
            push_place(text, on, "latest", latest)?;
        }
    }
    Ok(())
}

/// The rows of a matching: its key, its points and legs, its joined route and its location.
impl ToText<OnMap<'_>> for Entry<'_> {
    ghost text = { λ on. unnumbered (λ entry. entry_rows on.map.now (entry_of entry)) };

    fn push(&self, on: &OnMap<'_>, _: usize, out: &mut String) -> Result<(), NoMemory> {
        write!(out, "matching {}\n", Cursor::write(self.key, None))?;
        let matched = self.matched;
        push_texts(&matched.candidates, on, out)?;
        push_texts(&matched.legs, on, out)?;
        push_pieces(out, on, "route", &self.route)?;
        push_location(out, on, &self.location)?;
        Ok(())
    }
}

/// Adds the last row of a page: the cursor after which further matchings follow, with this mark or
/// without one; or that there are no more.
///
/// # Errors
///
/// [`NoMemory`] where the allocator refused memory.
pub fn push_end(text: &mut String, last: Option<&Key>, mark: Option<&Mark>) -> Result<(), NoMemory>
    ensures { OnOk result (string_bytes text.new ≡ string_bytes text.old
        ++ end_row (option_map (λ key. key.now) last.entry)
        (option_map (λ mark. mark.now) mark.entry)) }
{
    let Some(last) = last else {
        text.push_str("end\n")?;
        return Ok(());
    };
    let cursor = Cursor::write(last, mark);
    write!(text, "more {cursor}\n")?;
    Ok(())
}
