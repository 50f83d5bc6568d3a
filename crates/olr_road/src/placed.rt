//! The lines of a map with their bounding boxes, for the index that finds those near a place.

ghost use Rattle.std.specs.Prelude.{◌≤◌, All, IfOk, length};
ghost use Rattle.std.specs.List.{AllZip};
ghost use Rattle.olr_index.specs.ByBoundingBox.{bounding_boxes_of, AreInOrder};
ghost use Rattle.olr_road.specs.Entries.{HasBoundingBox, IsWithin};

use crate::line_set::Entry;
use olr_base::{Degrees, NoMemory};
use olr_index::{PlacedLine, bounding_box_of};
use std::alloc::Global;

/// The lines of these entries, with their bounding boxes, by rank.
pub(crate) fn placed_lines(
    alloc: Global,
    entries: &[Entry],
    points: &[Degrees],
) -> Result<Vec<PlacedLine>, NoMemory>
    requires at_most { length entries.now ≤ 200000 }
    requires within { All (IsWithin points.now) entries.now }
    ensures in_order { IfOk result (λ lines. AreInOrder lines.items) }
    ensures bounding_boxes { IfOk result
        (λ lines. AllZip (HasBoundingBox points.now) entries.now (bounding_boxes_of lines.items)) }
{
    let mut lines = Vec::with_capacity(alloc, entries.len())?;
    let mut rank = 0;
    for entry in entries {
        let bounding_box = bounding_box_of(&points[entry.start as usize..entry.end as usize]);
        lines.push(PlacedLine { rank, bounding_box })?;
        rank += 1;
    }
    Ok(lines)
}
