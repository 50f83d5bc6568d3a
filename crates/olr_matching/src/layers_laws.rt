//! Laws on the layers of a reference. Each law is the contract of a function that does nothing at
//! run time; its body only names the laws on which it rests.

ghost use Rattle.olr_matching.specs.Admissible.{KeysAreOfMatchings, TotalsAreOfParts};
ghost use Rattle.olr_matching.specs.LayersLaws.{LegsAreAdmitted, OneLayers, PenaltiesAreOfCandidates};

use olr_candidates::{one_list_of_point, one_lists};

/// A reference and tolerances have one value of layers on a map at most.
pub fn one_layers()
    ensures { OneLayers }
{
    one_lists();
}

/// The table of the layers has the penalty of each candidate at its rank, and a penalty for a leg
/// between two candidates exactly where the leg admits them: that of their least length.
pub fn table_of_layers()
    ensures candidates { PenaltiesAreOfCandidates }
    ensures legs { LegsAreAdmitted }
{}

/// The keys of the table of the layers are exactly those of the matchings of their reference: one
/// candidate of each point, each two neighbours admitted by their leg. The total of a key is the
/// sum of the penalties of its candidates and legs.
pub fn keys_of_matchings()
    ensures keys { KeysAreOfMatchings }
    ensures totals { TotalsAreOfParts }
{
    one_list_of_point();
}
