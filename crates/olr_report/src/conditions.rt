//! Tests for what the other calls require.

ghost use Rattle.std.specs.Prelude.{◌≡◌, ◌↔◌, All, IsTrue};
ghost use Rattle.std.specs.List.{sum_by};
ghost use Rattle.olr_report.specs.Joined.{AreForwards, IsForwards};
ghost use Rattle.olr_report.specs.Location.{AreLegsOf, IsMeasured};
ghost use Rattle.olr_route.specs.Walk.{piece_length};

use crate::pieces::length_of;
use olr_binary::Reference;
use olr_matching::Leg;
use olr_route::Piece;

/// Whether no piece goes backwards, as [`trim`](crate::trim) requires: the `from` of each is at
/// most its `to`.
pub fn is_forwards(pieces: &[Piece]) -> bool
    ensures { IsTrue result ↔ All IsForwards pieces.now }
{
    pieces.iter().all(|piece| piece.from <= piece.to)
}

/// Whether no piece of these legs goes backwards, as [`join`](crate::join) requires.
pub fn are_forwards(legs: &[Leg]) -> bool
    ensures { IsTrue result ↔ AreForwards legs.now }
{
    legs.iter().all(|leg| is_forwards(&leg.route))
}

/// Whether the lengths of pieces sum to this one, in decimetres.
fn have_length(pieces: &[Piece], length: u64) -> bool
    requires { All IsForwards pieces.now }
    ensures { IsTrue result ↔ (length ≡ sum_by piece_length pieces.now) }
{
    let mut left = length;
    for piece in pieces {
        let Some(rest) = left.checked_sub(length_of(*piece)) else {
            return false;
        };
        left = rest;
    }
    left == 0
}

/// Whether the length of a leg is that of its route, at least 1 and below 2^20 decimetres.
fn is_measured(leg: &Leg) -> bool
    requires { All IsForwards leg.now.route }
    ensures { IsTrue result ↔ IsMeasured leg.now }
{
    1 <= leg.length && leg.length < 1 << 20 && have_length(&leg.route, leg.length)
}

/// Whether these are legs between the points of a reference, as [`location`](crate::location)
/// requires: one fewer than points, each with the length of its route, at least 1 and below 2^20
/// decimetres; and no piece goes backwards.
pub fn are_legs_of(reference: &Reference, legs: &[Leg]) -> bool
    ensures { IsTrue result ↔ AreLegsOf reference.now legs.now }
{
    if legs.len() + 1 != reference.points().len() || !are_forwards(legs) {
        return false;
    }
    for leg in legs {
        if !is_measured(leg) {
            return false;
        }
    }
    true
}
