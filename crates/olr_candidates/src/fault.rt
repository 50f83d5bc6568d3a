//! Why a reference has no candidates, and so no layers, on a map.

ghost use Rattle.std.specs.Prelude.{◌≡◌};
ghost use Rattle.olr_candidates.specs.declared.fault.LayersFault.TheVariants as fault;

use olr_base::NoMemory;
use std::alloc::AllocError;
use thiserror::Error;

/// Why a reference has no lists of candidates, and so no layers, on a map.
#[derive(Clone, Copy, Debug, PartialEq, Eq, Error)]
pub enum LayersFault {
    /// The point of this number, from 1, is the first that has more than 64 candidates.
    #[error("point {0} has more than 64 candidates")]
    TooManyCandidates(usize),
    /// The allocator refused memory. No clause states when this comes.
    #[error("no memory is left")]
    NoMemory,
}

impl From<NoMemory> for LayersFault {
    ghost from_gives = { λ _ given. given ≡ fault.NoMemory };

    fn from(_error: NoMemory) -> LayersFault {
        LayersFault::NoMemory
    }
}

impl From<AllocError> for LayersFault {
    ghost from_gives = { λ _ given. given ≡ fault.NoMemory };

    fn from(_error: AllocError) -> LayersFault {
        LayersFault::NoMemory
    }
}
