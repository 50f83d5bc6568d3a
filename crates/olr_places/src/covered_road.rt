//! The stretch of road that a matching covers, and whether two are close.

ghost use Rattle.std.specs.Prelude.{◌≡◌, Decides, IfOk};
ghost use Rattle.olr_places.specs.Closeness.{IsClose, are_alike, ground_of, is_close, is_near, pieces_of};
ghost use Rattle.olr_places.specs.CoveredRoads.{IsCoverOf, outer_of};
ghost use Rattle.olr_report.specs.Location.{located_value, pieces_if_any};

use crate::cover::Cover;
use crate::laws::closeness_is_tested;
use crate::missing::misses_at_most;
use olr_base::NoMemory;
use olr_report::Located;
use olr_road::Place;
use olr_route::Piece;
use std::alloc::Global;

/// The location of a matching, with the pieces of its outer part sorted for look-ups.
#[derive(Debug, Drop)]
pub struct CoveredRoad {
    pub(crate) located: Located,
    pub(crate) cover: Cover,
    pub(crate) ghost is_cover: { IsCoverOf (outer_of (ground_of (located_value located))) cover },
}

/// The pieces of a part; no pieces for `None`.
fn pieces_of(part: &Option<Vec<Piece>>) -> &[Piece]
    ensures { result.now ≡ pieces_of (pieces_if_any part.now) }
{
    match part {
        Some(pieces) => pieces,
        None => &[],
    }
}

/// The cover of the outer part of a location.
fn cover_of(alloc: Global, located: &Located) -> Result<Cover, NoMemory>
    ensures { IfOk result (IsCoverOf (outer_of (ground_of (located_value located.now)))) }
{
    match located {
        Located::Line { outer, .. } => Cover::new(alloc, pieces_of(outer)),
        Located::Point { .. } => Cover::new(alloc, &[]),
    }
}

/// Whether neither of two parts misses more than so many neighbouring steps of the other one. Each
/// has a cover before it.
fn are_alike(one: &Cover, first: &[Piece], other: &Cover, second: &[Piece], apart: u32) -> bool
    requires one { IsCoverOf first.now one.now }
    requires other { IsCoverOf second.now other.now }
    ensures { result ≡ are_alike apart first.now second.now }
{
    let is_missing_little = misses_at_most(one, first, second, apart);
    is_missing_little && misses_at_most(other, second, first, apart)
}

/// Whether two places lie on one line, at most so many decimetres apart.
fn is_near(one: Place, other: Place, apart: u32) -> bool
    ensures { result ≡ is_near apart one other }
{
    let (first, second) = (u64::from(one.at), u64::from(other.at));
    one.line == other.line
        && first <= second + u64::from(apart)
        && second <= first + u64::from(apart)
}

/// Whether two matchings are close.
fn are_close(one: &CoveredRoad, other: &CoveredRoad, apart: u32) -> bool
    ensures { result ≡ is_close apart (ground_of (located_value one.now.located))
        (ground_of (located_value other.now.located)) }
{
    match (&one.located, &other.located) {
        (Located::Line { outer: first, .. }, Located::Line { outer: second, .. }) => {
            let (first, second) = (pieces_of(first), pieces_of(second));
            are_alike(&one.cover, first, &other.cover, second, apart)
        }
        (
            Located::Point { earliest, latest },
            Located::Point {
                earliest: other_earliest,
                latest: other_latest,
            },
        ) => {
            is_near(*earliest, *other_earliest, apart) && is_near(*latest, *other_latest, apart)
        }
        _ => false,
    }
}

impl CoveredRoad {
    /// The covered road of a matching with this location.
    ///
    /// # Errors
    ///
    /// [`NoMemory`] where the allocator refused memory.
    pub fn new(alloc: Global, located: Located) -> Result<CoveredRoad, NoMemory>
        ensures { IfOk result (λ covered. covered.located ≡ located) }
    {
        let cover = cover_of(alloc, &located)?;
        Ok(CoveredRoad { located, cover })
    }

    /// Whether two matchings are close: for lines, whether neither outer part misses more than
    /// `apart` neighbouring decimetres of the other one; for points along a line, whether their
    /// earliest places lie on one line and at most `apart` decimetres from each other, and their
    /// latest places, too.
    pub fn is_close(&self, other: &CoveredRoad, apart: u32) -> bool
        ensures value { result ≡ is_close apart (ground_of (located_value self.now.located))
            (ground_of (located_value other.now.located)) }
        ensures close { Decides result (IsClose apart (ground_of (located_value self.now.located))
            (ground_of (located_value other.now.located))) }
    {
        closeness_is_tested();
        are_close(self, other, apart)
    }

    /// The location.
    pub fn location(&self) -> &Located
        ensures { result.now ≡ self.now.located }
    {
        &self.located
    }
}
