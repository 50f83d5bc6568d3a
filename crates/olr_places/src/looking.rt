//! Looking at matchings, one after the other: which of them open a place, and where this ends.

ghost use Rattle.std.specs.Prelude.{◌≡◌, ◌+◌, ◌-◌, ◌^◌, ◌<◌, All, IfNone, IfOk, OnOk, Some, [], length};
ghost use Rattle.olr_road.specs.RoadMap.{RoadMap};
ghost use Rattle.olr_matching.specs.Layers.{LayersValue};
ghost use Rattle.olr_places.specs.Places.{IsOpenerAt};
ghost use Rattle.olr_places.specs.Steps.{LooksAt, Stands, gap_behind, margin_in, one_more_at, places_in, with_gap};
ghost use Rattle.olr_places.specs.declared.limits.PlaceLimits.{PlaceLimits as Limits};

use crate::ending::Ending;
use crate::limits::PlaceLimits;
use crate::opener::{Opener, copy_of, place_of};
use crate::places::Places;
use olr_base::NoMemory;
use olr_keys::Key;
use std::alloc::Global;

/// What is kept of the matchings that were looked at so far.
#[derive(Debug, Drop)]
pub(crate) struct Looking {
    /// Those that opened a place, in order.
    pub openers: Vec<Opener>,
    /// How many were looked at.
    pub looked: u32,
    /// The last one that was looked at.
    pub last: Option<Key>,
}

/// Counts a matching as one more member of a place.
fn add_member(openers: &mut Vec<Opener>, index: usize)
    requires { index < length openers.old.items }
    ensures { openers.new.items ≡ one_more_at index openers.old.items }
{
    openers[index].members = openers[index].members.saturating_add(1);
}

/// The gap of the next matching: its total less that of the first one, which opened the first
/// place.
fn gap_behind(openers: &[Opener], key: &Key) -> u32
    ensures { result ≡ gap_behind openers.now key.now }
{
    match openers.first() {
        Some(first) => u32::from(key.total.saturating_sub(first.key.total)),
        None => 0,
    }
}

/// The same opener with this gap.
fn with_gap(mut opener: Opener, gap: u32) -> Opener
    ensures { result ≡ with_gap opener gap }
{
    opener.gap = gap;
    opener
}

/// The gap of the second opener, else that of the matching behind which looking ended.
fn margin_in(openers: &[Opener], ending: Ending) -> Option<u32>
    ensures { result ≡ margin_in openers.now ending }
{
    if let Some(second) = openers.get(1) {
        return Some(second.gap);
    }
    match ending {
        Ending::Beyond(gap) => Some(gap),
        Ending::NoMore | Ending::Cut => None,
    }
}

impl Looking {
    /// No matching was looked at yet.
    pub(crate) fn new(alloc: Global) -> Looking
        ensures { (limits : Limits) → Stands limits [] result }
    {
        Looking {
            openers: Vec::new(alloc),
            looked: 0,
            last: None,
        }
    }

    /// Counts the matching of a key as looked at.
    fn count(&mut self, key: Key)
        requires { self.old.looked < 2 ^ 32 - 1 }
        ensures openers { self.new.openers ≡ self.old.openers }
        ensures count { self.new.looked ≡ self.old.looked + 1 }
        ensures last { self.new.last ≡ Some key }
    {
        self.looked += 1;
        self.last = Some(key);
    }

    /// Looks at the next matching. Why looking ended, if it did.
    pub(crate) fn look_at(
        &mut self,
        limits: &PlaceLimits,
        opener: Opener,
    ) -> Result<Option<Ending>, NoMemory>
        requires count { self.old.looked < limits.now.look }
        requires itself { opener.members ≡ 1 }
        ensures looks { IfOk result (LooksAt limits.now self.old self.new opener) }
        ensures counts { IfOk result (λ ending.
            IfNone ending (self.new.looked ≡ self.old.looked + 1)) }
        ensures openers { (road : RoadMap) (layers : LayersValue)
            → All (IsOpenerAt road layers) self.old.openers.items → IsOpenerAt road layers opener
            → OnOk result (All (IsOpenerAt road layers) self.new.openers.items) }
    {
        if let Some(index) = place_of(&self.openers, &opener, limits) {
            add_member(&mut self.openers, index);
            self.count(opener.key);
            return Ok(None);
        }
        let gap = gap_behind(&self.openers, &opener.key);
        if gap > limits.within {
            self.count(opener.key);
            return Ok(Some(Ending::Beyond(gap)));
        }
        if self.openers.len() == limits.most as usize {
            return Ok(Some(Ending::Cut));
        }
        self.count(copy_of(&opener.key)?);
        self.openers.push(with_gap(opener, gap))?;
        Ok(None)
    }

    /// The places of the matchings that were looked at, where this is why looking ended.
    pub(crate) fn places(self, ending: Ending) -> Places
        ensures { result ≡ places_in self ending }
    {
        let margin = margin_in(&self.openers, ending);
        Places {
            openers: self.openers,
            looked: self.looked,
            last: self.last,
            margin,
            ending,
        }
    }
}
