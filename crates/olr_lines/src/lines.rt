//! The lines of a map that meet a box, by id.

ghost use Rattle.std.specs.Prelude.{◌≡◌, ◌<◌, All, IfOk, length};
ghost use Rattle.olr_road.specs.Windows.{IsWindowOf};
ghost use Rattle.olr_lines.specs.LinesInBox.{AreFirst, lines_meeting};

use crate::geo_box::GeoBox;
use crate::line_count::LineCount;
use olr_base::NoMemory;
use olr_road::{BoundingBox, Map};
use std::alloc::Global;

/// Lines of a map that meet a box.
#[derive(Debug, Drop)]
pub struct LinesInBox {
    /// The first of them by id, by their rising ranks.
    pub ranks: Vec<u32>,
    /// Whether there are others.
    pub more: bool,
}

/// The lines that meet a window, in no order.
fn gathered(alloc: Global, map: &Map, window: &BoundingBox) -> Result<Vec<u32>, NoMemory>
    ensures { IfOk result (λ ranks. IsWindowOf map.now.lines window.now ranks.items) }
{
    let mut ranks = Vec::new(alloc);
    for rank in map.window(window) {
        ranks.push(rank)?;
    }
    Ok(ranks)
}

/// All lines that meet a box, by rising rank.
fn all_in(alloc: Global, map: &Map, wanted: &GeoBox) -> Result<Vec<u32>, NoMemory>
    ensures { IfOk result (λ ranks. ranks.items ≡ lines_meeting map.now.lines wanted.now) }
{
    let mut ranks = gathered(alloc, map, &wanted.window())?;
    ranks.sort_unstable();
    Ok(ranks)
}

/// The lines whose bounding box meets a box: the first `most` of them by id, and whether there are
/// others. A line that only touches the box meets it, and so does one that passes beside it while
/// its bounding box doesn't. It takes as long as it takes to find and to sort all that meet it.
///
/// # Errors
///
/// [`NoMemory`] where the allocator refused memory.
pub fn lines_in(
    alloc: Global,
    map: &Map,
    wanted: &GeoBox,
    most: LineCount,
) -> Result<LinesInBox, NoMemory>
    ensures lines { IfOk result (AreFirst most (lines_meeting map.now.lines wanted.now)) }
    ensures ranks { IfOk result (λ found.
        All (λ rank. rank < length map.now.lines) found.ranks.items) }
{
    let most = most.lines() as usize;
    let mut ranks = all_in(alloc, map, wanted)?;
    let more = ranks.len() > most;
    ranks.truncate(most);
    Ok(LinesInBox { ranks, more })
}
