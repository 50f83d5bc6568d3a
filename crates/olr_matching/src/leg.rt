//! Which lengths the leg from a point of a reference to the next one admits, and with which
//! penalty.

ghost use Rattle.std.specs.Prelude.{◌≡◌, ◌≤◌};
ghost use Rattle.olr_binary.specs.declared.point.Next.{Next};
ghost use Rattle.olr_matching.specs.Layers.{LeadsOn};
ghost use Rattle.olr_matching.specs.Leg.{class_limit, greatest_admitted, interval_end, interval_start, least_admitted, leg_penalty};

use olr_binary::{Next, Reference};
use olr_candidates::Tolerances;

/// The attributes of the path from a point of a reference, counted from 0 and not the last one, to
/// the next one.
pub fn next_of(reference: &Reference, layer: usize) -> Next
    requires { (next : Next) × LeadsOn reference.now layer next }
    ensures { LeadsOn reference.now layer result }
{
    let Some(next) = reference.points()[layer].next else {
        unreachable!()
    };
    next
}

/// The greatest class of the lines that a route may drive on, 0 to 7: the lowest class of the path
/// and the tolerance.
pub fn class_limit(tolerances: &Tolerances, next: &Next) -> u8
    ensures { result ≡ class_limit tolerances.now next.now }
{
    let class = u32::from(next.lowest) + tolerances.lowest;
    class.min(7) as u8
}

/// The least length in decimetres in the distance interval of the path, 0 to 149,430.
fn interval_start(next: &Next) -> u32
    ensures { result ≡ interval_start next.now }
{
    586 * u32::from(next.interval)
}

/// The greatest length in decimetres in the distance interval of the path, 585 to 150,015.
fn interval_end(next: &Next) -> u32
    ensures { result ≡ interval_end next.now }
{
    586 * (u32::from(next.interval) + 1) - 1
}

/// The least length in decimetres that the leg admits, 0 to 149,430.
pub fn least_admitted(tolerances: &Tolerances, next: &Next) -> u64
    ensures { result ≡ least_admitted tolerances.now next.now }
{
    let start = 586 * u64::from(next.interval);
    let widened = start * u64::from(100 - tolerances.percent) / 100;
    widened.saturating_sub(u64::from(tolerances.slack))
}

/// The greatest length in decimetres that the leg admits, 586 to 310,032.
pub fn greatest_admitted(tolerances: &Tolerances, next: &Next) -> u64
    ensures is { result ≡ greatest_admitted tolerances.now next.now }
    ensures at_most { result ≤ 310032 }
{
    let end = 586 * (u64::from(next.interval) + 1);
    let widened = end * u64::from(100 + tolerances.percent) / 100;
    widened + u64::from(tolerances.slack)
}

/// A length in decimetres that a leg seldom exceeds: a twentieth and 30 m beyond its distance
/// interval. The search for its paths goes up to there first, and no answer depends on it.
pub fn likely_greatest(next: &Next) -> u64 {
    586 * (u64::from(next.interval) + 1) * 21 / 20 + 300
}

/// The penalty of a leg of this length in decimetres, 0 to 100.
pub(crate) fn leg_penalty(next: &Next, length: u32) -> u8
    ensures is { result ≡ leg_penalty next.now length }
    ensures at_most { result ≤ 100 }
{
    let below = interval_start(next).saturating_sub(length);
    let above = length.saturating_sub(interval_end(next));
    ((below + above) / 10).min(100) as u8
}
