//! A matching that opened a place, and the place that a matching belongs to.

ghost use Rattle.std.specs.Prelude.{◌≡◌, ◌<◌, IfOk, IfSome, MatchOption, false, length, map, true};
ghost use Rattle.olr_places.specs.Looking.{belongs, place_of};
ghost use Rattle.olr_places.specs.Places.{entry_of};

use crate::covered_road::CoveredRoad;
use crate::limits::PlaceLimits;
use olr_base::NoMemory;
use olr_keys::Key;
use olr_matching::Matched;
use olr_route::Piece;

/// A matching that opened a place.
#[derive(Debug, Drop)]
pub struct Opener {
    /// Its key.
    pub key: Key,
    /// Its parts.
    pub matched: Matched,
    /// The joined route of its legs.
    pub route: Vec<Piece>,
    /// Its location, with the stretch of road that it covers.
    pub covered: CoveredRoad,
    /// Its total less that of the first matching, in penalty points.
    pub gap: u32,
    /// How many of the matchings that were looked at belong to its place, itself too.
    pub members: u32,
}

/// A copy of a key.
pub(crate) fn copy_of(key: &Key) -> Result<Key, NoMemory>
    ensures { IfOk result (λ copy. copy ≡ key.now) }
{
    let copy = key.clone()?;
    Ok(copy)
}

/// The index of the place that a matching belongs to, the first one whose opener it is close to.
pub(crate) fn place_of(openers: &[Opener], opener: &Opener, limits: &PlaceLimits) -> Option<usize>
    ensures inside { IfSome result (λ index. index < length openers.now) }
    ensures place { MatchOption result
        (belongs limits.now (map entry_of openers.now) (entry_of opener.now) ≡ false)
        (λ index. (belongs limits.now (map entry_of openers.now) (entry_of opener.now) ≡ true)
        × (place_of limits.now (map entry_of openers.now) (entry_of opener.now) ≡ index)) }
{
    for (index, one) in openers.iter().enumerate() {
        if opener.covered.is_close(&one.covered, limits.apart) {
            return Some(index);
        }
    }
    None
}
