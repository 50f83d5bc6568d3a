//! Joined routes, their parts, and locations of references on worked legs.

use olr_binary::decode;
use olr_matching::Leg;
use olr_report::{Located, are_forwards, are_legs_of, is_forwards, join, location, trim};
use olr_road::Place;
use olr_route::Piece;
use std::alloc::{AllocError, Global};
use std::test::Fail;

/// The pieces of a route: the rank of a line, and from where to where along it.
type Rows<'a> = &'a [(u32, u32, u32)];

/// Those pieces.
fn pieces_of(alloc: Global, rows: Rows<'_>) -> Result<Vec<Piece>, AllocError> {
    let mut pieces = Vec::new(alloc);
    for &(line, from, to) in rows {
        pieces.push(Piece { line, from, to })?;
    }
    Ok(pieces)
}

/// Whether pieces are these.
fn are(pieces: &[Piece], wanted: Rows<'_>) -> bool {
    for (piece, row) in pieces.iter().zip(wanted) {
        if (piece.line, piece.from, piece.to) != *row {
            return false;
        }
    }
    pieces.len() == wanted.len()
}

/// Legs, each with the length of its pieces.
fn legs_of(alloc: Global, lists: &[Rows<'_>]) -> Result<Vec<Leg>, AllocError> {
    let mut legs = Vec::new(alloc);
    for &rows in lists {
        let mut length: u64 = 0;
        for &(_line, from, to) in rows {
            length = length.saturating_add(u64::from(to.saturating_sub(from)));
        }
        legs.push(Leg {
            length,
            penalty: 0,
            route: pieces_of(alloc, rows)?,
        })?;
    }
    Ok(legs)
}

/// Whether a part of a location has these pieces, or is none where there are none.
fn is_part(found: &Option<Vec<Piece>>, wanted: Rows<'_>) -> bool {
    match found {
        Some(pieces) => !wanted.is_empty() && are(pieces, wanted),
        None => wanted.is_empty(),
    }
}

/// Whether a place is this one, written as a piece of no length.
fn is_place(Place { line, at }: Place, wanted: Rows<'_>) -> bool {
    let piece = Piece {
        line,
        from: at,
        to: at,
    };
    are(&[piece], wanted)
}

/// Whether a location has these parts, the outer and the inner one; or these places, the earliest
/// and the latest one, each as a piece of no length.
fn is_at(found: &Located, wanted: [Rows<'_>; 2]) -> bool {
    match found {
        Located::Line { outer, inner } => is_part(outer, wanted[0]) && is_part(inner, wanted[1]),
        Located::Point { earliest, latest } => {
            is_place(*earliest, wanted[0]) && is_place(*latest, wanted[1])
        }
    }
}

/// The text of a reference, legs, and what is located there.
type Case<'a> = (&'a str, &'a [Rows<'a>], [Rows<'a>; 2]);

/// Whether a reference is located there on legs.
fn locates(alloc: Global, (text, lists, wanted): Case<'_>) -> Result<bool, Fail> {
    let reference = decode(text)?;
    let legs = legs_of(alloc, lists)?;
    if !are_legs_of(&reference, &legs) {
        return Err(Fail::new("not the legs of the reference"));
    }
    Ok(is_at(&location(alloc, &legs, &reference)?, wanted))
}

/// One leg over a street.
const STREET: &[Rows<'static>] = &[&[(7, 0, 1113)]];

/// A line with offsets that leave none of it, a line, and a point along a line whose earliest
/// distance is the end of a line. Other references are cases of `olr_conformance`.
const LOCATED: &[Case<'static>] = &[
    ("CwAAAAAAABtoAQBkAAAbeMhk", STREET, [&[], &[]]),
    (
        "CwAAAAAAABtoAQBkAAAbeEBA",
        STREET,
        [&[(7, 278, 835)], &[(7, 283, 830)]],
    ),
    (
        "KwAAAAAAAFtoAQBkAABbWIA=",
        &[&[(11, 0, 557), (13, 0, 557)]],
        [&[(11, 557, 557)], &[(13, 5, 5)]],
    ),
    (
        "KwAAAAAAAFtoAQBkAABbWAA=",
        &[&[(11, 0, 557), (13, 0, 557)]],
        [&[(11, 0, 0)], &[(11, 5, 5)]],
    ),
];

#[test]
fn locates_references(rt: HostRuntime) -> Result<(), Fail> {
    for &case in LOCATED {
        assert!(rt; locates(rt.alloc(), case)?, "{}", case.0);
    }
    Ok(())
}

/// Legs, and the pieces of their joined route.
const JOINED: &[(&[Rows<'static>], Rows<'static>)] = &[
    (
        &[&[(11, 0, 557), (13, 0, 0)], &[(13, 0, 557)]],
        &[(11, 0, 557), (13, 0, 557)],
    ),
    (
        &[&[(7, 50, 109), (8, 0, 500), (7, 0, 20)]],
        &[(7, 50, 109), (8, 0, 500), (7, 0, 20)],
    ),
];

/// From where to where a route over two lines is cut, and the pieces of that part.
const TRIMMED: &[(u64, u64, Rows<'static>)] = &[
    (278, 835, &[(11, 278, 557), (13, 0, 278)]),
    (557, 1114, &[(13, 0, 557)]),
    (0, 557, &[(11, 0, 557)]),
];

/// Whether the joined route of legs has these pieces.
fn joins(alloc: Global, lists: &[Rows<'_>], wanted: Rows<'_>) -> Result<bool, Fail> {
    let legs = legs_of(alloc, lists)?;
    if !are_forwards(&legs) {
        return Err(Fail::new("not forwards"));
    }
    Ok(are(&join(alloc, &legs)?, wanted))
}

/// Whether the part of that route has these pieces.
fn trims(alloc: Global, start: u64, end: u64, wanted: Rows<'_>) -> Result<bool, Fail> {
    let route = pieces_of(alloc, &[(11, 0, 557), (13, 0, 557)])?;
    if !is_forwards(&route) || start >= end {
        return Err(Fail::new("not a part of a route"));
    }
    Ok(are(&trim(alloc, &route, start, end)?, wanted))
}

#[test]
fn joins_and_trims_routes(rt: HostRuntime) -> Result<(), Fail> {
    for &(lists, wanted) in JOINED {
        assert!(rt; joins(rt.alloc(), lists, wanted)?, "{wanted:?}");
    }
    for &(start, end, wanted) in TRIMMED {
        assert!(rt; trims(rt.alloc(), start, end, wanted)?, "{start} to {end}");
    }
    Ok(())
}
