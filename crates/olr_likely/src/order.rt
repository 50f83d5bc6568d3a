//! The likely order of places, and which of them are shown.

ghost use Rattle.std.specs.Prelude.{◌≡◌, IfOk, OnOk, filter};
ghost use Rattle.olr_likely.specs.Order.{AreInLikelyOrder, AreShown, is_shown, least_cost};
ghost use Rattle.olr_likely.specs.Ranked.{AreNumbered};

use crate::ranked::RankedPlace;
use olr_base::NoMemory;
use olr_places::PlaceLimits;

/// Puts places, which are given by rank, in the likely order: by cost, and those of one cost by
/// rank.
fn sort(places: &mut Vec<RankedPlace>) -> Result<(), NoMemory>
    requires { AreNumbered places.old.items }
    ensures { OnOk result (AreInLikelyOrder places.old.items places.new.items) }
{
    places.sort_by_key(|place| place.likely.cost)?;
    Ok(())
}

/// The least cost of these places; 0 where there is none.
pub(crate) fn least_cost(places: &[RankedPlace]) -> u32
    ensures { result ≡ least_cost places.now }
{
    let Some((first, others)) = places.split_first() else {
        return 0;
    };
    if others.is_empty() {
        return first.likely.cost;
    }
    first.likely.cost.min(least_cost(others))
}

/// Whether a place is shown, where this is the least cost of all places that were looked at.
fn is_shown(place: &RankedPlace, least: u32, within: u32) -> bool
    ensures { result ≡ is_shown within least place.now }
{
    place.opener.gap <= within
        || u64::from(place.likely.cost) <= u64::from(least) + 30 * u64::from(within)
}

/// Leaves out the places that aren't shown.
fn keep_shown(places: &mut Vec<RankedPlace>, least: u32, within: u32)
    ensures { places.new.items ≡ filter (is_shown within least) places.old.items }
{
    places.retain(|place| is_shown(place, least, within));
}

/// The places that are shown, of all that were looked at, which are given by rank: in the likely
/// order, and at most so many as `limits` lists.
pub(crate) fn shown(
    mut places: Vec<RankedPlace>,
    limits: &PlaceLimits,
) -> Result<Vec<RankedPlace>, NoMemory>
    requires { AreNumbered places.items }
    ensures { IfOk result (λ shown. AreShown limits.now places.items shown.items) }
{
    let least = least_cost(&places);
    sort(&mut places)?;
    keep_shown(&mut places, least, limits.within);
    places.truncate(limits.most as usize);
    Ok(places)
}
