//! References, files and outputs that several tests use, and the map of files.

use olr_map::{In, MapFault, read_map_with_bans};
use olr_road::Map;
use std::alloc::Global;

/// The white paper's example of a line.
pub const LINE: &str = "CwRbWyNG9RpsCQCb/jsbtAT/6/+jK1lE";

/// What is printed for [`LINE`].
pub const LINE_SHOWN: &str = "\
line 3 points
1 6126820 49608518 class 3 form 2 sector 12 lowest 3 interval 9
2 6128370 49603988 class 3 form 3 sector 20 lowest 5 interval 4
3 6128160 49603058 class 5 form 3 sector 25
positive 68
negative none
";

/// A line of two points, from longitude 0 to longitude 0.001 along the equator: class 3, form 3,
/// sectors 8 and 24.
pub const REFERENCE: &str = "CwAAAAAAABtoAQBkAAAbGA==";

/// The files of a map: nodes, lines and bans.
pub type Files<'a> = [&'a [u8]; 3];

/// Two nodes, at the points of [`REFERENCE`].
pub const TWO_NODES: &[u8] = b"id,lon,lat\n1,0,0\n2,1000,0\n";

/// The header of a file of lines, and no line.
pub const NO_LINES: &[u8] = b"id,from,to,class,form,length,shape\n";

/// The header of a file of bans, and no ban.
pub const NO_BANS: &[u8] = b"from,to\n";

/// A line from the one of two nodes to the other.
pub const ONE_LINE: &[u8] = b"id,from,to,class,form,length,shape\n7,1,2,3,3,1113,\n";

/// The map of that line.
pub const STREET: Files<'static> = [TWO_NODES, ONE_LINE, NO_BANS];

/// The map of three texts.
pub fn map_of(alloc: Global, [nodes, lines, bans]: Files<'_>) -> Result<Map, MapFault> {
    let (mut nodes, mut lines, mut bans) = (In::new(nodes), In::new(lines), In::new(bans));
    read_map_with_bans(alloc, &mut nodes, &mut lines, &mut bans)
}
