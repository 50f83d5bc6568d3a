//! The shapes of pieces of routes.

ghost use Rattle.std.specs.Prelude.{◌≡◌, ◌++◌, ◌&&◌, IfOk, OnOk, flat_map, nat_lt, option_map, option_to_list};
ghost use Rattle.std.specs.List.{dedup};
ghost use Rattle.olr_base.specs.Coordinates.{coordinates_of};
ghost use Rattle.olr_shape.specs.Shape.{coordinates_of_all, is_same, points_between, shape_on, spots_between, spots_of_piece, with_two_spots};

use crate::laws::laws_of_the_plane;
use crate::measured_line::{MeasuredLine, measured};
use crate::position::spot_at;
use olr_base::{Degrees, NoMemory};
use olr_road::Map;
use olr_route::Piece;
use std::alloc::Global;

/// Whether a number lies strictly between two others.
fn lies_between(low: u128, number: u128, high: u128) -> bool
    ensures { result ≡ (nat_lt low number && nat_lt number high) }
{
    low < number && number < high
}

/// Appends the points of a line that lie strictly between two positions, in decimetres.
fn push_between(
    shape: &mut Vec<Degrees>,
    line: &MeasuredLine<'_>,
    from: u32,
    to: u32,
) -> Result<(), NoMemory>
    ensures { OnOk result (coordinates_of_all shape.new.items
        ≡ coordinates_of_all shape.old.items ++ points_between from to line.now) }
{
    let after = line.arc_of_position(from);
    let before = line.arc_of_position(to);
    let points = line.points();
    for (number, point) in points.iter().enumerate() {
        if lies_between(after, line.arc_of_point(number), before) {
            shape.push(*point)?;
        }
    }
    Ok(())
}

/// Appends a spot, where there is one.
fn push_spot(shape: &mut Vec<Degrees>, spot: Option<Degrees>) -> Result<(), NoMemory>
    ensures { OnOk result (coordinates_of_all shape.new.items
        ≡ coordinates_of_all shape.old.items ++ option_to_list (option_map coordinates_of spot)) }
{
    if let Some(spot) = spot {
        shape.push(spot)?;
    }
    Ok(())
}

/// Appends the spots from one position of a line to another, in decimetres.
fn push_spots(
    shape: &mut Vec<Degrees>,
    line: &MeasuredLine<'_>,
    from: u32,
    to: u32,
) -> Result<(), NoMemory>
    ensures { OnOk result (coordinates_of_all shape.new.items
        ≡ coordinates_of_all shape.old.items ++ spots_between from to line.now) }
{
    push_spot(shape, spot_at(line, from))?;
    push_between(shape, line, from, to)?;
    push_spot(shape, spot_at(line, to))
}

/// Appends the spots of a piece. Those of a whole line are its points, so that none is computed.
fn push_piece(shape: &mut Vec<Degrees>, map: &Map, piece: Piece) -> Result<(), NoMemory>
    ensures { OnOk result (coordinates_of_all shape.new.items
        ≡ coordinates_of_all shape.old.items ++ spots_of_piece map.now piece) }
{
    if piece.line >= map.count() {
        return Ok(());
    }
    let line = map.line(piece.line);
    if piece.from == 0 && piece.to == line.length {
        laws_of_the_plane();
        shape.extend_from_slice(map.points(piece.line))?;
        return Ok(());
    }
    push_spots(shape, &measured(map, piece.line), piece.from, piece.to)
}

/// The spots of pieces, one after the other.
fn spots_of(alloc: Global, map: &Map, pieces: &[Piece]) -> Result<Vec<Degrees>, NoMemory>
    ensures { IfOk result (λ spots.
        coordinates_of_all spots.items ≡ flat_map (spots_of_piece map.now) pieces.now) }
{
    let mut spots = Vec::new(alloc);
    for &piece in pieces {
        push_piece(&mut spots, map, piece)?;
    }
    Ok(spots)
}

/// Leaves each of equal neighbours once.
fn leave_once(spots: &mut Vec<Degrees>)
    ensures { coordinates_of_all spots.new.items
        ≡ dedup is_same (coordinates_of_all spots.old.items) }
{
    spots.dedup();
}

/// Repeats a single spot.
fn repeat_single(spots: &mut Vec<Degrees>) -> Result<(), NoMemory>
    ensures { OnOk result (coordinates_of_all spots.new.items
        ≡ with_two_spots (coordinates_of_all spots.old.items)) }
{
    if spots.len() == 1 {
        let spot = spots[0];
        spots.push(spot)?;
    }
    Ok(())
}

/// The shape of pieces of lines: for each piece the spot where it begins, the points of the line
/// between, and the spot where it ends; equal neighbours once, and a single spot twice. A piece on
/// no line of the map adds nothing, and so does an end of a piece that is beyond its line's end.
///
/// # Errors
///
/// [`NoMemory`] where the allocator refused memory.
pub fn shape_on(alloc: Global, map: &Map, pieces: &[Piece]) -> Result<Vec<Degrees>, NoMemory>
    ensures { IfOk result
        (λ shape. coordinates_of_all shape.items ≡ shape_on map.now pieces.now) }
{
    let mut shape = spots_of(alloc, map, pieces)?;
    leave_once(&mut shape);
    repeat_single(&mut shape)?;
    Ok(shape)
}
