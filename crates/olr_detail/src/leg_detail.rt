//! What speaks for a leg: its length, beside the distance interval of the path.

ghost use Rattle.std.specs.Prelude.{◌≡◌};
ghost use Rattle.olr_detail.specs.LegDetail.{leg_detail_of};

use olr_binary::Next;
use olr_candidates::Tolerances;
use olr_matching::{Leg, class_limit};

/// What speaks for a leg. Lengths are in decimetres.
#[derive(Clone, Copy, Debug, PartialEq, Eq)]
pub struct LegDetail {
    /// Its length, 1 to 310,032.
    pub length: u64,
    /// Its penalty, 0 to 100.
    pub penalty: u8,
    /// The least length in the distance interval of the path, before it is widened: 0 to 149,430.
    pub least: u32,
    /// The greatest length in it, 585 to 150,015.
    pub greatest: u32,
    /// The greatest class of the lines that the route may drive on, 0 to 7.
    pub limit: u8,
}

/// What speaks for a leg, by the attributes of the path that its first point has.
pub fn detail_of_leg(tolerances: &Tolerances, next: &Next, leg: &Leg) -> LegDetail
    ensures { result ≡ leg_detail_of tolerances.now next.now leg.now }
{
    let interval = u32::from(next.interval);
    LegDetail {
        length: leg.length,
        penalty: leg.penalty,
        least: 586 * interval,
        greatest: 586 * (interval + 1) - 1,
        limit: class_limit(tolerances, next),
    }
}
