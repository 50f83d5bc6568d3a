//! The place at a distance along a route.

ghost use Rattle.std.specs.Prelude.{◌≡◌, ◌+◌, ◌<◌, ◌≤◌, All, Some};
ghost use Rattle.std.specs.List.{sum_by};
ghost use Rattle.olr_report.specs.Joined.{IsNotEmpty};
ghost use Rattle.olr_report.specs.Steps.{place_at, steps_of};
ghost use Rattle.olr_route.specs.Walk.{piece_length};

use olr_road::Place;
use olr_route::Piece;

/// The length of a piece, in decimetres; 0 where it goes backwards.
fn length_of(piece: Piece) -> u64
    ensures { result ≡ piece_length piece }
{
    u64::from(piece.to.saturating_sub(piece.from))
}

/// The place at a distance from the start of a piece, in decimetres.
fn place_in(piece: Piece, distance: u64) -> Place
    requires { distance ≤ piece_length piece }
    ensures { result ≡ record { line = piece.line; at = piece.from + distance } }
{
    Place {
        line: piece.line,
        at: piece.from + distance as u32,
    }
}

/// The place at a distance along pieces, in decimetres: on the first piece that isn't empty and
/// ends at that distance or further on. None past their end.
pub(crate) fn place_along(pieces: &[Piece], distance: u64) -> Option<Place>
    ensures { result ≡ place_at (steps_of pieces.now) distance }
{
    let mut left = distance;
    for piece in pieces {
        let length = length_of(*piece);
        if 0 < length && left <= length {
            return Some(place_in(*piece, left));
        }
        left -= length;
    }
    None
}

/// The place at a distance along pieces, in decimetres. No piece may be empty, there has to be one,
/// and the distance has to be at most the sum of their lengths.
pub(crate) fn place_on(pieces: &[Piece], distance: u64) -> Place
    requires not_empty { All IsNotEmpty pieces.now }
    requires positive { 0 < sum_by piece_length pieces.now }
    requires within { distance ≤ sum_by piece_length pieces.now }

    ensures { place_at (steps_of pieces.now) distance ≡ Some result }
{
    let Some(place) = place_along(pieces, distance) else {
        unreachable!()
    };
    place
}
