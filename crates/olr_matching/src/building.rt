//! The layers of a reference, built on a map.

ghost use Rattle.std.specs.Prelude.{◌≡◌, IfErr, IfOk, MatchOption};
ghost use Rattle.olr_binary.specs.Reference.{IsReference};
ghost use Rattle.olr_candidates.specs.Points.{AreLists, IsLayersFault, lists_of};
ghost use Rattle.olr_matching.specs.Layers.{AreLayersOn, lengths_of};
ghost use Rattle.olr_matching.specs.Lengths.{AreLengthsOfLegs, AdmitPairs, HasLegWithoutPair};
ghost use Rattle.olr_matching.specs.Searches.{AreSearchesOn};

use crate::layers::Layers;
use crate::lengths::lengths_of_legs;
use crate::penalties::{penalties_of_legs, penalties_of_points};
use crate::searches::Searches;
use arrayvec::ArrayVec;
use olr_base::NoMemory;
use olr_binary::Reference;
use olr_candidates::{
    Candidate, LayersFault, MAX_CANDIDATES, ReferenceOnMap, Tolerances, bounds,
    candidates_of_points,
};
use olr_keys::Table;
use olr_road::{Map, sound};
use std::alloc::{AllocError, Global};

/// The same reference again.
fn copy_of(reference: &Reference) -> Result<Reference, AllocError>
    ensures { IfOk result (λ copy. copy ≡ reference.now) }
{
    reference.clone()
}

/// The layers of a reference on a map with these candidates of its points and these lengths of its
/// legs.
fn with_lengths(
    alloc: Global,
    on: &ReferenceOnMap<'_>,
    candidates: Vec<ArrayVec<Candidate, MAX_CANDIDATES>>,
    lengths: Vec<Vec<Option<u32>>>,
) -> Result<Layers, NoMemory>
    requires lists { AreLists on.now.tolerances on.now.reference.now on.now.map.now.lines
        (lists_of candidates.items) }
    requires lengths { AreLengthsOfLegs on.now.map.now on.now.tolerances on.now.reference.now
        (lists_of candidates.items) (lengths_of lengths.items) }

    ensures layers { IfOk result (λ layers. AreLayersOn on.now.map.now layers) }
    ensures reference { IfOk result (λ layers. layers.reference ≡ on.now.reference.now) }
    ensures tolerances { IfOk result (λ layers. layers.tolerances ≡ on.now.tolerances) }
    ensures lengths { IfOk result (λ layers. layers.lengths ≡ lengths_of lengths.items) }
{
    sound(on.map);
    bounds();
    let penalties = penalties_of_points(alloc, &candidates)?;
    let legs = penalties_of_legs(alloc, on.reference, &lengths)?;
    let table = Table::new(alloc, &penalties, &legs)?;
    Ok(Layers {
        reference: copy_of(on.reference)?,
        tolerances: on.tolerances,
        candidates,
        lengths,
        table,
    })
}

impl Layers {
    /// The layers of a reference on a map: the candidates of each point, and for each leg the pairs
    /// of candidates that it admits, each with its length and its penalty.
    ///
    /// The reference has 2 to 32 points, and each but the last has the attributes of the path to
    /// the next one, as every reference that [`decode`](olr_binary::decode) gives.
    ///
    /// # Errors
    ///
    /// [`LayersFault::TooManyCandidates`] with the first point that has more than 64;
    /// [`LayersFault::NoMemory`] where the allocator refused memory.
    pub fn build(
        alloc: Global,
        map: &Map,
        reference: &Reference,
        tolerances: &Tolerances,
    ) -> Result<Layers, LayersFault>
        requires { IsReference reference.now }

        ensures layers { IfOk result (λ layers. AreLayersOn map.now layers) }
        ensures reference { IfOk result (λ layers. layers.reference ≡ reference.now) }
        ensures tolerances { IfOk result (λ layers. layers.tolerances ≡ tolerances.now) }
        ensures fault { IfErr result (IsLayersFault tolerances.now reference.now map.now.lines) }
    {
        let on = ReferenceOnMap {
            map,
            reference,
            tolerances: *tolerances,
        };
        let (layers, _searches) = Layers::build_with_searches(alloc, &on)?;
        Ok(layers)
    }

    /// What [`Layers::build`] answers, and the searches that it made, as far as they are kept: for
    /// [`Routes::with_searches`](crate::Routes::with_searches).
    ///
    /// # Errors
    ///
    /// Those of [`Layers::build`].
    pub fn build_with_searches(
        alloc: Global,
        on: &ReferenceOnMap<'_>,
    ) -> Result<(Layers, Searches), LayersFault>
        ensures layers { IfOk result (λ built. AreLayersOn on.now.map.now built.0) }
        ensures reference { IfOk result (λ built. built.0.reference ≡ on.now.reference.now) }
        ensures tolerances { IfOk result (λ built. built.0.tolerances ≡ on.now.tolerances) }
        ensures searches { IfOk result (λ built. AreSearchesOn on.now.map.now built.1) }
        ensures fault { IfErr result
            (IsLayersFault on.now.tolerances on.now.reference.now on.now.map.now.lines) }
    {
        let candidates = candidates_of_points(alloc, on.map, on.reference, &on.tolerances)?;
        let mut searches = Searches::new(alloc);
        let lengths = lengths_of_legs(alloc, on, &candidates, false, &mut searches)?;
        let Some(lengths) = lengths else {
            unreachable!()
        };
        let layers = with_lengths(alloc, on, candidates, lengths)?;
        Ok((layers, searches))
    }

    /// The layers that [`Layers::build`] answers, where the candidates of each point are at hand
    /// ([`candidates_of_points`]) and each leg admits a pair of them; none where a leg admits none,
    /// so that there is no matching. The legs behind that one aren't looked at.
    ///
    /// # Errors
    ///
    /// [`NoMemory`] where the allocator refused memory.
    pub fn with_admitting_legs(
        alloc: Global,
        on: &ReferenceOnMap<'_>,
        candidates: Vec<ArrayVec<Candidate, MAX_CANDIDATES>>,
    ) -> Result<Option<Layers>, NoMemory>
        requires { AreLists on.now.tolerances on.now.reference.now on.now.map.now.lines
            (lists_of candidates.items) }

        ensures { IfOk result (λ layers. MatchOption layers
            (HasLegWithoutPair on.now.map.now on.now.tolerances on.now.reference.now
            (lists_of candidates.items))
            (λ layers. AreLayersOn on.now.map.now layers × (layers.reference ≡ on.now.reference.now)
            × (layers.tolerances ≡ on.now.tolerances) × AdmitPairs layers.lengths)) }
    {
        let mut searches = Searches::new(alloc);
        let lengths = lengths_of_legs(alloc, on, &candidates, true, &mut searches)?;
        let Some(lengths) = lengths else {
            return Ok(None);
        };
        let layers = with_lengths(alloc, on, candidates, lengths)?;
        Ok(Some(layers))
    }
}
