//! Whether lists of penalties keep the limits of a table.

ghost use Rattle.std.specs.Prelude.{◌≡◌, ℕ, ◌+◌, ◌<◌, ◌≤◌, All, Decides, IfSome, length};
ghost use Rattle.std.specs.List.Sorted.{IsNonDecreasing};
ghost use Rattle.olr_keys.specs.Table.{AreLegs, AreLegsFrom, IsLayer, IsTable, penalties_of};
ghost use Rattle.olr_keys.specs.Table.{max_leg, max_penalty};

use crate::table::list_at;

/// The greatest penalty of a candidate.
pub(crate) const MAX_PENALTY: u16 = 360;

/// The greatest penalty of a leg.
pub(crate) const MAX_LEG: u8 = 100;

/// The greatest total of a matching: 32 candidates and the 31 legs between them.
pub(crate) const MAX_TOTAL: u16 = 32 * MAX_PENALTY + 31 * MAX_LEG as u16;

/// Whether no number of a list is less than the one before it.
fn never_falls(layer: &[u16]) -> bool
    ensures { Decides result (IsNonDecreasing layer.now) }
{
    layer.is_sorted()
}

/// Whether all numbers of a list are penalties of candidates.
fn are_penalties(layer: &[u16]) -> bool
    ensures { Decides result (All (λ penalty. penalty ≤ max_penalty) layer.now) }
{
    layer.iter().all(|&penalty| penalty <= MAX_PENALTY)
}

/// Whether a list has the penalties of the candidates of a layer: at most 64, which don't fall.
fn is_layer(layer: &[u16]) -> bool
    ensures { Decides result (IsLayer layer.now) }
{
    layer.len() <= 64 && never_falls(layer) && are_penalties(layer)
}

/// Whether all lists are layers.
fn are_layers(layers: &[Vec<u16>]) -> bool
    ensures { Decides result (All (λ layer. IsLayer layer.items) layers.now) }
{
    layers.iter().all(|layer| is_layer(layer))
}

/// Whether a leg that joins two candidates has the penalty of a leg.
fn is_leg(leg: Option<u8>) -> bool
    ensures { Decides result (IfSome leg (λ penalty. penalty ≤ max_leg)) }
{
    let Some(penalty) = leg else {
        return true;
    };
    penalty <= MAX_LEG
}

/// Whether all legs of a list that join two candidates have the penalty of a leg.
fn have_penalties(legs: &[Option<u8>]) -> bool
    ensures { Decides result (All (λ leg. IfSome leg (λ penalty. penalty ≤ max_leg)) legs.now) }
{
    legs.iter().all(|&leg| is_leg(leg))
}

/// Whether a list has the legs between layers of so many candidates: one entry for each pair, with
/// a penalty where a leg joins the two.
fn are_legs(first: usize, second: usize, legs: &[Option<u8>]) -> bool
    ensures { Decides result (AreLegs first second legs.now) }
{
    first.checked_mul(second) == Some(legs.len()) && have_penalties(legs)
}

/// Whether a list has the legs from a layer to the next one.
fn are_legs_from(layer: usize, penalties: &[Vec<u16>], legs: &[Vec<Option<u8>>]) -> bool
    requires { layer < length legs.now }
    ensures { Decides result (AreLegsFrom (penalties_of penalties.now legs.now) layer) }
{
    let first = list_at(penalties, layer).len();
    let second = list_at(penalties, layer + 1).len();
    are_legs(first, second, list_at(legs, layer))
}

/// Whether each list has the legs from its layer to the next one.
fn are_all_legs(penalties: &[Vec<u16>], legs: &[Vec<Option<u8>>]) -> bool
    ensures { Decides result ((layer : ℕ) → layer < length legs.now
        → AreLegsFrom (penalties_of penalties.now legs.now) layer) }
{
    for layer in 0..legs.len() {
        if !are_legs_from(layer, penalties, legs) {
            return false;
        }
    }
    true
}

/// Whether there are as many layers as a table can have, and a list of legs between each two
/// neighbours.
fn have_lengths(penalties: &[Vec<u16>], legs: &[Vec<Option<u8>>]) -> bool
    ensures { Decides result ((2 ≤ length penalties.now) × (length penalties.now ≤ 32)
        × (length legs.now + 1 ≡ length penalties.now)) }
{
    2 <= penalties.len() && penalties.len() <= 32 && legs.len() == penalties.len() - 1
}

/// Whether lists are the penalties of a table, as [`Table::new`](crate::Table::new) takes them: 2
/// to 32 layers of 0 to 64 penalties that don't fall, and for each two neighbouring layers one leg
/// for each pair of candidates, or none. No penalty is greater than that of a candidate or a leg
/// can be. It takes no memory.
pub fn is_table(penalties: &[Vec<u16>], legs: &[Vec<Option<u8>>]) -> bool
    ensures { Decides result (IsTable (penalties_of penalties.now legs.now)) }
{
    have_lengths(penalties, legs) && are_layers(penalties) && are_all_legs(penalties, legs)
}
