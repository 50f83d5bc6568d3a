//! The map on which it is tried whether its bans stand in the way.

ghost use Rattle.std.specs.Prelude.{IfOk};
ghost use Rattle.olr_why.specs.Remedies.{AreUnbanned};

use olr_base::NoMemory;
use olr_road::Map;
use std::alloc::Global;

/// The map with no turn banned, where it has bans; none where it has none. It takes time and memory
/// in proportion to the map.
///
/// # Errors
///
/// [`NoMemory`] where the allocator refused memory.
pub fn unbanned_of(alloc: Global, map: &Map) -> Result<Option<Map>, NoMemory>
    ensures { IfOk result (AreUnbanned map.now) }
{
    if map.bans().is_empty() {
        return Ok(None);
    }
    let unbanned = map.without_bans(alloc)?;
    Ok(Some(unbanned))
}
