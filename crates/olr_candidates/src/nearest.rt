//! The list of the lines nearest to a point: by distance and then by rank.

ghost use Rattle.std.specs.Prelude.{◌<◌, ◌≤◌, ◌*◌, ◌-◌, ℕ, length, slice_index_or, All, Decides, OnOk};
ghost use Rattle.olr_candidates.specs.declared.near.NearLine.{NearLine};
ghost use Rattle.olr_candidates.specs.Near.{IsNearer};
ghost use Rattle.olr_candidates.specs.Nearest.{Keeps};

use crate::near::NearLine;
use olr_base::NoMemory;

/// Whether a line is nearer than another: by distance and then by rank.
fn is_nearer(near: &NearLine, other: &NearLine) -> bool
    ensures { Decides result (IsNearer near.now other.now) }
{
    if near.distance != other.distance {
        return near.distance < other.distance;
    }
    near.line < other.line
}

/// The index at which a line goes into a list: before those at its end that it is nearer than.
fn index_for(list: &[NearLine], near: &NearLine) -> usize
    ensures within { result ≤ length list.now }
    ensures before { (d : NearLine) → 0 < result
        → IsNearer near.now (slice_index_or list.now (result - 1) d) → ⊥ }
    ensures behind { (k : ℕ) (d : NearLine) → result ≤ k → k < length list.now
        → IsNearer near.now (slice_index_or list.now k d) }
{
    let mut index = list.len();
    while 0 < index {
        if !is_nearer(near, &list[index - 1]) {
            return index;
        }
        index -= 1;
    }
    0
}

/// Adds a line to a list of the nearest, and keeps the first `count`.
pub(crate) fn keep(list: &mut Vec<NearLine>, near: NearLine, count: usize) -> Result<(), NoMemory>
    ensures { OnOk result (Keeps list.old.items near count list.new.items) }
{
    let index = index_for(list, &near);
    list.insert(index, near)?;
    list.truncate(count);
    Ok(())
}

/// Whether all of the lines lie at most so many metres away.
pub(crate) fn lie_within(list: &[NearLine], radius: u32) -> bool
    ensures { Decides result (All (λ near. near.distance ≤ 100 * radius) list.now) }
{
    list.iter()
        .all(|near| near.distance <= 100 * u64::from(radius))
}
