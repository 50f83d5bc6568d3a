//! The lines of a map by bands of latitude.

use crate::samples::{NO_BANS, map_of};
use olr_road::Map;
use std::alloc::{AllocError, Global};
use std::test::Fail;

/// The ends of 199 lines that lie far north, and those of one more.
fn nodes_of(alloc: Global) -> Result<String, AllocError> {
    let mut nodes = String::from_str(alloc, "id,lon,lat\n1001,0,0\n1002,100,0\n")?;
    for step in 0u32..199 {
        let (west, east, lat) = (2 * step + 1, 2 * step + 2, 2000 + 10 * step);
        nodes.push_str(&format!(in alloc; "{west},0,{lat}\n{east},100,{lat}\n")?)?;
    }
    Ok(nodes)
}

/// Those lines, and between them the one more, which has the rank 100 and winds from latitude -500
/// to latitude 500.
fn lines_of(alloc: Global) -> Result<String, AllocError> {
    let header = "id,from,to,class,form,length,shape\n";
    let mut lines = String::from_str(alloc, header)?;
    for step in 0u32..199 {
        let (west, east) = (2 * step + 1, 2 * step + 2);
        let id = if step < 100 { step + 1 } else { step + 2 };
        lines.push_str(&format!(in alloc; "{id},{west},{east},3,3,111,\n")?)?;
    }
    lines.push_str("101,1001,1002,3,3,9999,50 -500;60 500\n")?;
    Ok(lines)
}

/// The map of these 200 lines.
fn winding(alloc: Global) -> Result<Map, Fail> {
    let (nodes, lines) = (nodes_of(alloc)?, lines_of(alloc)?);
    Ok(map_of(alloc, [nodes.as_bytes(), lines.as_bytes(), NO_BANS])?)
}

/// Bands by their least and greatest latitude, and the ranks of their lines.
const BANDS: &[(i32, i32, &[u32])] = &[
    (-10, 10, &[100]),
    (500, 600, &[100]),
    (501, 600, &[]),
    (-600, -500, &[100]),
    (10, -10, &[]),
    (2990, 3010, &[99, 101, 102]),
];

/// The first of those bands that has other lines.
fn other_band(alloc: Global) -> Result<Option<(i32, i32)>, Fail> {
    let map = winding(alloc)?;
    for &(low, high, wanted) in BANDS {
        let mut found: Vec<u32> = map.band(low, high).collect(alloc)?;
        found.sort_unstable();
        if found.as_slice() != wanted {
            return Ok(Some((low, high)));
        }
    }
    Ok(None)
}

#[test]
fn gives_the_lines_of_bands(rt: HostRuntime) -> Result<(), Fail> {
    assert_eq!(rt; other_band(rt.alloc())?, None);
    Ok(())
}
