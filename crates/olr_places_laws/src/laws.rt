//! Laws on closeness, with no code: they are the contract of an empty function.

ghost use Rattle.olr_places_laws.specs.Laws.{CloseAtZero, CloseStaysClose, IsReflexive, IsSymmetric};

/// Each matching is close to itself, and of two matchings each is close to the other or none is.
/// Close matchings are also close where they may be further apart. Matchings of a line that may be
/// 0 apart are close exactly where their outer parts cover the same steps.
pub fn close_matchings()
    ensures symmetric { IsSymmetric }
    ensures reflexive { IsReflexive }
    ensures further { CloseStaysClose }
    ensures at_zero { CloseAtZero }
{}
