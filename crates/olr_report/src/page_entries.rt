//! The entries of a page: its matchings as they are shown, whatever the format.

ghost use Rattle.std.specs.Prelude.{◌≡◌, length, map, All, IfOk};
ghost use Rattle.olr_binary.specs.Reference.{IsReference};
ghost use Rattle.olr_road.specs.RoadMap.{RoadMap};
ghost use Rattle.olr_report.specs.Entries.{entry_of, HasMatched, IsEntryOf, IsOnMap, AreEntriesOf};
ghost use Rattle.olr_report.specs.Location.{AreLegsOf};

use crate::joining::join;
use crate::locating::{Located, location_on};
use olr_base::NoMemory;
use olr_binary::Reference;
use olr_keys::{Key, Page};
use olr_matching::Matched;
use olr_route::Piece;
use std::alloc::Global;

/// A matching as a page shows it.
#[derive(Debug, Drop)]
pub struct Entry<'a> {
    /// Its key.
    pub key: &'a Key,
    /// Its parts.
    pub matched: &'a Matched,
    /// The joined route of its legs.
    pub route: Vec<Piece>,
    /// The location of the reference on this route.
    pub location: Located,
}

/// The entry of the matching that has this key and these parts, whose legs lie between the points
/// of the reference, as [`location`](crate::location) needs them.
///
/// # Errors
///
/// [`NoMemory`] where the allocator refused memory.
pub fn entry_of<'a>(
    alloc: Global,
    reference: &Reference,
    key: &'a Key,
    matched: &'a Matched,
) -> Result<Entry<'a>, NoMemory>
    requires reference { IsReference reference.now }
    requires legs { AreLegsOf reference.now matched.now.legs }
    ensures key { IfOk result (λ entry. entry.key.now ≡ key.now) }
    ensures matched { IfOk result (λ entry. entry.matched.now ≡ matched.now) }
    ensures entry { IfOk result (λ entry. IsEntryOf reference.now (entry_of entry)) }
    ensures on_map { IfOk result (λ entry. (road : RoadMap) → HasMatched road matched.now
        → IsOnMap road (entry_of entry)) }
{
    let route = join(alloc, &matched.legs)?;
    let location = location_on(alloc, &route, &matched.legs, reference)?;
    Ok(Entry {
        key,
        matched,
        route,
        location,
    })
}

/// The entries of a page: for each of its matchings the key, the parts, the joined route of its
/// legs and the location of the reference on this route.
///
/// There has to be one [`Matched`] for each key of the page, in order, whose legs lie between the
/// points of the reference, as [`location`](crate::location) needs them.
///
/// # Errors
///
/// [`NoMemory`] where the allocator refused memory.
pub fn entries<'a>(
    alloc: Global,
    reference: &Reference,
    page: &'a Page,
    matched: &'a [Matched],
) -> Result<Vec<Entry<'a>>, NoMemory>
    requires reference { IsReference reference.now }
    requires one_each { length matched.now ≡ length page.now.keys.items }
    requires legs { All (λ matched. AreLegsOf reference.now matched.legs) matched.now }
    ensures { IfOk result (λ entries. AreEntriesOf reference.now page.now.keys.items matched.now
        (map entry_of entries.items)) }
{
    let mut entries = Vec::with_capacity(alloc, page.keys.len())?;
    for (key, matched) in page.keys.iter().zip(matched) {
        let entry = entry_of(alloc, reference, key, matched)?;
        entries.push(entry)?;
    }
    Ok(entries)
}
