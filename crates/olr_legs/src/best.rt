//! The first of the walks that several searches found.

ghost use Rattle.std.specs.Prelude.{◌≡◌};
ghost use Rattle.olr_legs.specs.Seeking.{IsBoth, next_bound};

use crate::avoiding::Sought;
use crate::way::first_of;

/// What two searches came to together.
pub(crate) fn both(first: Sought, second: Sought) -> Sought
    ensures { IsBoth first second result }
{
    match second {
        Sought::Cut => Sought::Cut,
        Sought::Nothing => first,
        Sought::Found(other) => match first {
            Sought::Cut => Sought::Cut,
            Sought::Nothing => Sought::Found(other),
            Sought::Found(one) => Sought::Found(first_of(Some(one), other)),
        },
    }
}

/// The bound of the next search, where the ones so far came to this.
pub(crate) fn next_bound(sought: &Sought, bound: u64) -> u64
    ensures { result ≡ next_bound bound sought.now }
{
    match sought {
        Sought::Cut | Sought::Nothing => bound,
        Sought::Found(way) => way.length,
    }
}
