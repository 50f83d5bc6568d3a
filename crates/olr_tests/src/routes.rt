//! Least lengths by both searches, and routes, on small maps.

use crate::samples::{NO_BANS, TWO_NODES, map_of};
use olr_road::{Map, Place};
use olr_route::{
    Limits, Piece, is_before_end, is_on_map, lengths_by_rounds, lengths_from, lengths_to, route,
};
use std::alloc::{AllocError, Global};
use std::test::Fail;

/// The nodes of a street.
const STREET_NODES: &[u8] = b"id,lon,lat\n1,0,0\n2,200,0\n3,800,0\n4,1000,0\n";

/// Its lines, with two ways between nodes 2 and 3.
const TWO_WAYS_LINES: &[u8] = b"id,from,to,class,form,length,shape\n\
    21,1,2,3,3,223,\n25,2,3,3,3,668,\n22,2,3,3,3,668,500 20\n24,3,4,3,3,223,\n";

/// The street: lines 22 and 25, of ranks 1 and 3, join the same two nodes and are as long.
const TWO_WAYS: [&[u8]; 2] = [STREET_NODES, TWO_WAYS_LINES];

/// The same with line 23, of rank 2, which goes round from node 2 to node 2.
const ROUND: [&[u8]; 2] = [
    STREET_NODES,
    b"id,from,to,class,form,length,shape\n21,1,2,3,3,223,\n25,2,3,3,3,668,\n\
    22,2,3,3,3,668,500 20\n24,3,4,3,3,223,\n23,2,2,3,3,100,200 20\n",
];

/// A line there and a longer one back.
const LOOP: [&[u8]; 2] = [
    TWO_NODES,
    b"id,from,to,class,form,length,shape\n7,1,2,3,3,109,\n8,2,1,3,3,500,\n",
];

/// The same with a way back of class 7.
const POOR: [&[u8]; 2] = [
    TWO_NODES,
    b"id,from,to,class,form,length,shape\n7,1,2,3,3,109,\n8,2,1,7,3,500,\n",
];

/// Bans on both ways of the street.
const BOTH: &[u8] = b"from,to\n21,22\n21,25\n";

/// A ban on turning back at the end of a loop.
const TURN: &[u8] = b"from,to\n7,8\n";

/// The class limit of all searches.
const CLASS: u8 = 3;

/// The limit of a search, in decimetres, and its two places.
type Search = (u64, Place, Place);

/// The least length by [`lengths_from`]. It is a function of its own, as the two that follow, so
/// that contracts aren't seen by its callers.
fn by_queue(alloc: Global, map: &Map, (limit, from, to): Search) -> Result<Option<u64>, Fail> {
    if !is_before_end(map, from) || !is_on_map(map, to) {
        return Err(Fail::new("not on the map"));
    }
    Ok(lengths_from(alloc, map, CLASS, from, limit)?.length_to(map, to))
}

/// The same by [`lengths_by_rounds`].
fn by_rounds(alloc: Global, map: &Map, (limit, from, to): Search) -> Result<Option<u64>, Fail> {
    if !is_before_end(map, from) || !is_on_map(map, to) {
        return Err(Fail::new("not on the map"));
    }
    Ok(lengths_by_rounds(alloc, map, CLASS, from, limit)?.length_to(map, to))
}

/// The pieces of the route.
fn pieces(alloc: Global, map: &Map, search: Search) -> Result<Option<Vec<Piece>>, Fail> {
    let (limit, from, to) = search;
    if !is_before_end(map, from) || !is_on_map(map, to) {
        return Err(Fail::new("not on the map"));
    }
    Ok(route(alloc, map, CLASS, from, to, limit)?)
}

/// Pieces, each as `rank@from-to`.
fn shown(alloc: Global, pieces: &[Piece]) -> Result<String, AllocError> {
    let mut text = String::new(alloc);
    for &Piece { line, from, to } in pieces {
        text.push_str(&format!(in alloc; "{line}@{from}-{to} ")?)?;
    }
    Ok(text)
}

/// The least length, which both searches have to find, and the pieces of the route; an empty text
/// where there is none.
fn found(alloc: Global, map: &Map, search: Search) -> Result<String, Fail> {
    let least = by_queue(alloc, map, search)?;
    if by_rounds(alloc, map, search)? != least {
        return Err(Fail::new("the searches differ"));
    }
    match (least, pieces(alloc, map, search)?) {
        (Some(length), Some(pieces)) => {
            Ok(format!(in alloc; "{length}: {}", shown(alloc, &pieces)?)?)
        }
        (None, None) => Ok(String::new(alloc)),
        _ => Err(Fail::new("a length without a route, or a route without a length")),
    }
}

/// The place of a line and a position.
fn place(line: u32, at: u32) -> Place {
    Place { line, at }
}

/// A map, its bans, the limit, two places by rank of line and position, and what is found.
type Case<'a> = ([&'a [u8]; 2], &'a [u8], u64, [u32; 4], &'a str);

/// What is found in a case.
fn found_in(alloc: Global, case: Case<'_>) -> Result<String, Fail> {
    let ([nodes, lines], bans, limit, [line, at, last, end], _) = case;
    let map = map_of(alloc, [nodes, lines, bans])?;
    found(alloc, &map, (limit, place(line, at), place(last, end)))
}

/// The way that passes node 2 twice: the second time the turn is allowed.
const TWICE: &str = "1214: 0@0-223 2@0-100 1@0-668 3@0-223 ";

/// Routes with and without bans.
const CASES: &[Case<'static>] = &[
    (
        TWO_WAYS,
        NO_BANS,
        1114,
        [0, 0, 2, 223],
        "1114: 0@0-223 1@0-668 2@0-223 ",
    ),
    (TWO_WAYS, NO_BANS, 1113, [0, 0, 2, 223], ""),
    (TWO_WAYS, NO_BANS, 1823, [0, 100, 0, 100], ""),
    (TWO_WAYS, BOTH, 1823, [0, 0, 2, 223], ""),
    (ROUND, BOTH, 1823, [0, 0, 3, 223], TWICE),
    // Places that are behind on the line, or the same, are reached by the way back.
    (
        LOOP,
        NO_BANS,
        1823,
        [0, 50, 0, 50],
        "609: 0@50-109 1@0-500 0@0-50 ",
    ),
    (
        LOOP,
        NO_BANS,
        1823,
        [0, 50, 0, 20],
        "579: 0@50-109 1@0-500 0@0-20 ",
    ),
    (LOOP, TURN, 1823, [0, 50, 0, 20], ""),
    (LOOP, TURN, 1823, [0, 20, 0, 50], "30: 0@20-50 "),
    // The last piece may be empty on a line beyond the class limit, but not after a banned turn.
    (POOR, NO_BANS, 1823, [0, 50, 1, 0], "59: 0@50-109 1@0-0 "),
    (POOR, NO_BANS, 1823, [0, 50, 1, 1], ""),
    (POOR, TURN, 1823, [0, 50, 1, 0], ""),
];

#[test]
fn finds_least_lengths_and_routes(rt: HostRuntime) -> Result<(), Fail> {
    for &case in CASES {
        let text = found_in(rt.alloc(), case)?;
        assert!(rt; text.as_str() == case.4, "{text} in place of {}", case.4);
    }
    Ok(())
}

/// What a search tells that goes from the beginning of a map towards two targets, first up to a
/// length and then up to another one: the length to a place, if it tells that.
fn told(
    alloc: Global,
    map: &Map,
    [near, limit]: [u64; 2],
    targets: [Place; 2],
    to: Place,
) -> Result<Option<Option<u64>>, Fail> {
    let from = place(0, 0);
    let [one, other] = targets;
    if !is_before_end(map, from) || !is_on_map(map, one) || !is_on_map(map, other) {
        return Err(Fail::new("not on the map"));
    }
    let limits = Limits {
        class: CLASS,
        near,
        length: limit,
    };
    let reach = lengths_to(alloc, map, from, limits, &[one, other])?;
    if !reach.covers(to) || !is_on_map(map, to) {
        return Ok(None);
    }
    Ok(Some(reach.length_to(map, to)))
}

/// Lines, bans, the lengths up to which a search goes, the lines of its targets, another place, and
/// what is told of that.
type Told<'a> = (
    [&'a [u8]; 2],
    &'a [u8],
    [u64; 2],
    [u32; 2],
    [u32; 2],
    Option<Option<u64>>,
);

/// What a case tells.
fn told_in(alloc: Global, case: Told<'_>) -> Result<Option<Option<u64>>, Fail> {
    let ([nodes, lines], bans, limits, [one, other], [line, at], _) = case;
    let map = map_of(alloc, [nodes, lines, bans])?;
    let targets = [place(one, 0), place(other, 0)];
    told(alloc, &map, limits, targets, place(line, at))
}

/// Four nodes, three to six kilometres apart.
const FAR_NODES: &[u8] = b"id,lon,lat\n1,0,0\n2,30000,0\n3,-30000,0\n4,0,30000\n";

/// Lines between them, none shorter than its ends are apart.
const FAR: [&[u8]; 2] = [
    FAR_NODES,
    b"id,from,to,class,form,length,shape\n31,1,2,3,3,33400,\n32,2,3,3,3,66800,\n\
    33,3,4,3,3,47300,\n34,2,4,3,3,47300,\n35,3,1,3,3,33400,\n36,4,1,3,3,33400,\n",
];

/// The same with a line of one decimetre across the map.
const ONE_SHORT: [&[u8]; 2] = [
    FAR_NODES,
    b"id,from,to,class,form,length,shape\n31,1,2,3,3,33400,\n32,2,3,3,3,1,\n\
    33,3,4,3,3,47300,\n34,2,4,3,3,47300,\n35,3,1,3,3,33400,\n36,4,1,3,3,33400,\n",
];

/// The same where all lines are a hundredth of that.
const ALL_SHORT: [&[u8]; 2] = [
    FAR_NODES,
    b"id,from,to,class,form,length,shape\n31,1,2,3,3,334,\n32,2,3,3,3,668,\n\
    33,3,4,3,3,473,\n34,2,4,3,3,473,\n35,3,1,3,3,334,\n36,4,1,3,3,334,\n",
];

/// The lines across longitude 180 and near the northernmost latitude.
const ACROSS: [&[u8]; 2] = [
    b"id,lon,lat\n1,179990000,79990000\n2,-179990000,79990000\n3,179990000,80000000\n4,0,-80000000\n",
    b"id,from,to,class,form,length,shape\n31,1,2,3,3,400,\n32,2,3,3,3,1200,\n\
    33,3,4,3,3,47300,\n34,2,4,3,3,47300,\n35,3,1,3,3,1200,\n36,4,1,3,3,33400,\n",
];

/// A ban on the way from node 2 to node 4.
const LONG_WAY: &[u8] = b"from,to\n31,34\n";

/// What is told: lengths to the lines that a search is asked for, and to no others. Its targets are
/// on opposite sides, one as far as the limit or a decimetre farther.
const TOLD: &[Told<'static>] = &[
    (
        TWO_WAYS,
        NO_BANS,
        [1823, 1823],
        [1, 1],
        [1, 100],
        Some(Some(323)),
    ),
    (TWO_WAYS, NO_BANS, [1823, 1823], [1, 1], [3, 5], None),
    (
        TWO_WAYS,
        NO_BANS,
        [1823, 1823],
        [2, 2],
        [2, 50],
        Some(Some(941)),
    ),
    (TWO_WAYS, NO_BANS, [1823, 1823], [0, 0], [0, 0], Some(None)),
    (
        FAR,
        NO_BANS,
        [0, 100200],
        [4, 5],
        [4, 0],
        Some(Some(100200)),
    ),
    (FAR, NO_BANS, [0, 100199], [4, 5], [4, 0], Some(None)),
    (
        FAR,
        NO_BANS,
        [80700, 100200],
        [4, 5],
        [5, 0],
        Some(Some(80700)),
    ),
    (
        FAR,
        NO_BANS,
        [80700, 100200],
        [4, 5],
        [4, 0],
        Some(Some(100200)),
    ),
    (
        FAR,
        NO_BANS,
        [80700, 100200],
        [5, 5],
        [5, 0],
        Some(Some(80700)),
    ),
    (
        FAR,
        NO_BANS,
        [100200, 100201],
        [4, 5],
        [4, 1],
        Some(Some(100201)),
    ),
    (FAR, NO_BANS, [100200, 200000], [4, 5], [3, 0], None),
    (
        FAR,
        LONG_WAY,
        [100200, 147500],
        [4, 5],
        [5, 0],
        Some(Some(147500)),
    ),
    (FAR, LONG_WAY, [100200, 147499], [4, 5], [5, 0], Some(None)),
    (
        ONE_SHORT,
        NO_BANS,
        [33401, 80700],
        [4, 5],
        [4, 0],
        Some(Some(33401)),
    ),
    (
        ONE_SHORT,
        NO_BANS,
        [33401, 80700],
        [4, 5],
        [5, 0],
        Some(Some(80700)),
    ),
    (
        ONE_SHORT,
        LONG_WAY,
        [33401, 80701],
        [4, 5],
        [5, 0],
        Some(Some(80701)),
    ),
    (
        ONE_SHORT,
        NO_BANS,
        [0, 33401],
        [4, 5],
        [4, 0],
        Some(Some(33401)),
    ),
    (ONE_SHORT, NO_BANS, [0, 33400], [4, 5], [4, 0], Some(None)),
    (
        ALL_SHORT,
        NO_BANS,
        [0, 1002],
        [4, 5],
        [4, 0],
        Some(Some(1002)),
    ),
    (
        ALL_SHORT,
        NO_BANS,
        [900, 30000],
        [4, 5],
        [5, 0],
        Some(Some(807)),
    ),
    (
        ACROSS,
        NO_BANS,
        [400, 1600],
        [4, 1],
        [4, 0],
        Some(Some(1600)),
    ),
    (
        ACROSS,
        NO_BANS,
        [400, 40000],
        [5, 1],
        [1, 0],
        Some(Some(400)),
    ),
    (
        ACROSS,
        NO_BANS,
        [400, 47700],
        [4, 5],
        [5, 0],
        Some(Some(47700)),
    ),
    (ACROSS, NO_BANS, [400, 47699], [4, 5], [5, 0], Some(None)),
];

#[test]
fn tells_lengths_to_targets(rt: HostRuntime) -> Result<(), Fail> {
    for &case in TOLD {
        assert_eq!(rt; told_in(rt.alloc(), case)?, case.5);
    }
    Ok(())
}

/// A street of 60 nodes, which are a kilometre apart, with lines both ways: the line of rank k goes
/// from the node of rank k to the next one.
fn long_street(alloc: Global) -> Result<Map, Fail> {
    let mut nodes = format!(in alloc; "id,lon,lat\n")?;
    let mut lines = format!(in alloc; "id,from,to,class,form,length,shape\n")?;
    for node in 1..61u32 {
        nodes.push_str(&format!(in alloc; "{node},{node}0000,0\n")?)?;
    }
    for node in 1..60u32 {
        let next = node + 1;
        lines.push_str(&format!(in alloc; "{node},{node},{next},3,3,11140,\n")?)?;
        lines.push_str(&format!(in alloc; "1{node}0,{next},{node},3,3,11140,\n")?)?;
    }
    Ok(map_of(alloc, [nodes.as_bytes(), lines.as_bytes(), NO_BANS])?)
}

/// How much a search keeps that goes from the line of rank 29 towards another one, and how much one
/// for all lines.
fn sizes(alloc: Global, map: &Map, [near, limit]: [u64; 2]) -> Result<[usize; 2], Fail> {
    let (from, to) = (place(29, 0), place(46, 0));
    if !is_before_end(map, from) || !is_on_map(map, to) {
        return Err(Fail::new("not on the map"));
    }
    let limits = Limits {
        class: CLASS,
        near,
        length: limit,
    };
    let towards = lengths_to(alloc, map, from, limits, &[to])?;
    let all = lengths_from(alloc, map, CLASS, from, limit)?;
    Ok([towards.size(), all.size()])
}

/// A search towards a line, which is 17 lines away, goes over few lines on the other side, and ends
/// there.
#[test]
fn goes_towards_targets(rt: HostRuntime) -> Result<(), Fail> {
    let map = long_street(rt.alloc())?;
    for limits in [[0, 190_000], [190_000, 190_000], [1_000_000, 1_000_000]] {
        let [towards, all] = sizes(rt.alloc(), &map, limits)?;
        assert!(rt; towards < all, "{towards} numbers beside {all}");
    }
    Ok(())
}
