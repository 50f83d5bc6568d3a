//! The map of files.

use crate::opening::{Disk, MapFiles, open_files};
use olr_app::Fault;
use olr_map::read_map_with_bans;
use olr_road::Map;
use olr_words::Files;
use std::alloc::Global;

/// Reads the map of these files, which are opened first, the nodes before the lines and these
/// before the bans.
///
/// # Errors
///
/// [`Fault::OpenFailed`] with the first file that can't be opened; else the fault of the map, as
/// [`read_map_with_bans`] answers it.
pub fn read_map_of<D: Disk>(alloc: Global, files: &Files<'_>, disk: &mut D) -> Result<Map, Fault> {
    let MapFiles {
        mut nodes,
        mut lines,
        mut bans,
    } = open_files(alloc, disk, files)?;
    let map = read_map_with_bans(alloc, &mut nodes, &mut lines, &mut bans)?;
    Ok(map)
}
