//! The search for the next key by rows of remaining totals, which never meets a dead end.

ghost use Rattle.std.specs.Prelude.{◌≡◌, ◌+◌, ◌-◌, ◌*◌, ◌<◌, ◌≤◌, ℕ, length, option_map, IfSome};
ghost use Rattle.std.specs.Prelude.{IsTrue, None, MatchBool, MatchOption};
ghost use Rattle.olr_keys.specs.Matching.{IsKey, IsCompletion};
ghost use Rattle.olr_keys.specs.Finder.{IsLeastOf, IsNextKey};
ghost use Rattle.olr_keys.specs.Rows.{IsTotal, IsPredecessor, most_of, width_of};
ghost use Rattle.olr_keys.specs.Search.{Appends, HasNoNextCompletion, HasNoStep, HasCompletion};
ghost use Rattle.olr_keys.specs.Search.{IsFirstStep, IsFirstTotal, IsFirstAbove, IsFirstCompletion};
ghost use Rattle.olr_keys.specs.Search.{IsNextCompletion};
ghost use Rattle.olr_keys.specs.Table.{IsTable, count_of};

use crate::key::Key;
use crate::rows::Rows;
use arrayvec::ArrayVec;

/// The least key of a matching that comes after `after`, or the least of all where that is `None`;
/// `None` where no key comes after it. `after` has to be the key of a matching. With P layers of at
/// most C candidates and rows of W bytes it makes at most 2 P C + W probes, wherever `after` is. It
/// takes no memory.
pub fn next_key(rows: &mut Rows, after: Option<&Key>) -> Option<Key>
    requires { IfSome (option_map (λ key. key.now) after) (IsKey rows.old.penalties) }
    ensures next { IsNextKey rows.old.penalties (option_map (λ key. key.now) after.entry) result }
    ensures probes { rows.new.probes ≤ rows.old.probes
        + (2 * (length rows.old.penalties.candidates * most_of rows.old.penalties)
        + width_of rows.old.penalties) }
    ensures rises { rows.old.probes ≤ rows.new.probes }
    ensures same { rows.new.penalties ≡ rows.old.penalties }
{
    let Some(after) = after else {
        return first_from(rows, 0);
    };
    if let Some(key) = next_of_total(rows, after) {
        return Some(key);
    }
    first_from(rows, usize::from(after.total) + 1)
}

/// The least key that comes after `after` and has the same total, if there is one.
#[tactic(auto, using(crate::proofs::NextKeys::found_in_range, crate::proofs::NextKeys::found_alone, crate::proofs::NextKeys::layers_at_most))]
fn next_of_total(rows: &mut Rows, after: &Key) -> Option<Key>
    requires { IsKey rows.old.penalties after.now }
    ensures key { MatchOption result
        (HasNoNextCompletion rows.old.penalties 0 None after.now.total after.now.ranks)
        (λ key. (key.total ≡ after.now.total)
        × IsNextCompletion rows.old.penalties 0 None after.now.total after.now.ranks key.ranks) }
    ensures probes { MatchOption result
        (rows.new.probes ≤ rows.old.probes
        + length rows.old.penalties.candidates * most_of rows.old.penalties)
        (λ key. rows.new.probes ≤ rows.old.probes
        + 2 * (length rows.old.penalties.candidates * most_of rows.old.penalties)) }
    ensures rises { rows.old.probes ≤ rows.new.probes }
    ensures same { rows.new.penalties ≡ rows.old.penalties }
{
    let mut ranks = ArrayVec::new();
    if !next_completion(rows, Rest::of(after.total), &after.ranks, &mut ranks) {
        return None;
    }
    Some(Key {
        total: after.total,
        ranks,
    })
}

/// The least key with a total of at least `from`, if there is one.
#[tactic(auto, using(crate::proofs::NextKeys::found_in_range, crate::proofs::NextKeys::found_alone))]
fn first_from(rows: &mut Rows, from: usize) -> Option<Key>
    requires { from ≤ width_of rows.old.penalties }
    ensures key { IsLeastOf (λ key. IsKey rows.old.penalties key × (from ≤ key.total)) result }
    ensures probes { rows.new.probes ≤ rows.old.probes + width_of rows.old.penalties
        + length rows.old.penalties.candidates * most_of rows.old.penalties }
    ensures rises { rows.old.probes ≤ rows.new.probes }
    ensures same { rows.new.penalties ≡ rows.old.penalties }
{
    let total = next_total(rows, from)?;
    let mut ranks = ArrayVec::new();
    descend(rows, Rest::of(total), &mut ranks);
    Some(Key { total, ranks })
}

/// The least total of a matching from `from` on, if there is one. It makes at most one probe for
/// each number below the width.
fn next_total(rows: &mut Rows, from: usize) -> Option<u16>
    requires { from ≤ width_of rows.old.penalties }
    ensures total { MatchOption result
        ((total : ℕ) → from ≤ total → IsTotal rows.old.penalties total → ⊥)
        (IsFirstTotal rows.old.penalties from) }
    ensures probes { rows.new.probes ≤ rows.old.probes + width_of rows.old.penalties }
    ensures rises { rows.old.probes ≤ rows.new.probes }
    ensures same { rows.new.penalties ≡ rows.old.penalties }
{
    for number in from..rows.width() {
        let total = number as u16;
        if rows.total(total) {
            return Some(total);
        }
    }
    None
}

/// What is left of a matching that is searched for: a completion from a layer on.
#[derive(Clone, Copy)]
struct Rest {
    layer: usize,
    /// The rank of the candidate in the layer before, `None` in layer 0.
    before: Option<u8>,
    /// The total of the completion.
    total: u16,
}

impl Rest {
    /// A whole matching with this total.
    fn of(total: u16) -> Rest
        ensures { result ≡ record { layer = 0; before = None; total = total } }
    {
        Rest {
            layer: 0,
            before: None,
            total,
        }
    }

    /// What is left after a step to the candidate of this rank, which leaves this total.
    fn after(self, rank: u8, left: u16) -> Rest
        requires { self.layer < 32 }
        ensures { result ≡ record { layer = self.layer + 1; before = Some rank; total = left } }
    {
        Rest {
            layer: self.layer + 1,
            before: Some(rank),
            total: left,
        }
    }
}

/// A step to a candidate: its rank, and what is left of the total.
#[derive(Clone, Copy)]
struct Step {
    rank: u8,
    left: u16,
}

/// The step to the first candidate with a rank greater than `above` that has one. It makes at most
/// one probe for each of these candidates.
fn next_step(rows: &mut Rows, rest: Rest, above: u8) -> Option<Step>
    requires layer { rest.layer < length rows.old.penalties.candidates }
    requires before { IsPredecessor rows.old.penalties rest.layer rest.before }
    requires above { above ≤ count_of rows.old.penalties rest.layer }
    ensures step { MatchOption result
        (HasNoStep rows.old.penalties rest.layer rest.before above rest.total)
        (λ step. IsFirstStep rows.old.penalties rest.layer rest.before above rest.total
        step.rank step.left) }
    ensures probes { rows.new.probes
        ≤ rows.old.probes + (count_of rows.old.penalties rest.layer - above) }
    ensures rises { rows.old.probes ≤ rows.new.probes }
    ensures same { rows.new.penalties ≡ rows.old.penalties }
{
    for index in usize::from(above)..rows.count(rest.layer) {
        let rank = index as u8 + 1;
        if let Some(left) = rows.test(rest.layer, rest.before, rank, rest.total) {
            return Some(Step { rank, left });
        }
    }
    None
}

/// Appends the first completion, one rank for each layer that is left. It makes at most one probe
/// for each candidate of these layers: after each step there is a completion, so it never backs
/// up.
#[tactic(auto, using(crate::proofs::Searching::layer_budget, crate::proofs::Searching::some_step, crate::proofs::Sizes::count_most))]
fn descend(rows: &mut Rows, rest: Rest, ranks: &mut ArrayVec<u8, 32>)
    requires layer { rest.layer ≤ length rows.old.penalties.candidates }
    requires before { IsPredecessor rows.old.penalties rest.layer rest.before }
    requires completion { HasCompletion rows.old.penalties rest.layer rest.before rest.total }
    requires ranks { length ranks.old.items ≡ rest.layer }
    ensures found { Appends ranks.old.items ranks.new.items
        (IsFirstCompletion rows.old.penalties rest.layer rest.before rest.total) }
    ensures probes { rows.new.probes
        ≤ rows.old.probes
        + (length rows.old.penalties.candidates - rest.layer) * most_of rows.old.penalties }
    ensures sound { IsTable rows.old.penalties }
    ensures rises { rows.old.probes ≤ rows.new.probes }
    ensures same { rows.new.penalties ≡ rows.old.penalties }
{
    if rest.layer == rows.layers() {
        return;
    }
    if let Some(step) = next_step(rows, rest, 0) {
        ranks.push(step.rank);
        descend(rows, rest.after(step.rank, step.left), ranks);
    }
}

/// Appends the first completion whose first rank is greater than `above`, and answers whether there
/// is one.
fn first_above(rows: &mut Rows, rest: Rest, above: u8, ranks: &mut ArrayVec<u8, 32>) -> bool
    requires layer { rest.layer < length rows.old.penalties.candidates }
    requires layers { length rows.old.penalties.candidates ≤ 32 }
    requires before { IsPredecessor rows.old.penalties rest.layer rest.before }
    requires above { above ≤ count_of rows.old.penalties rest.layer }
    requires ranks { length ranks.old.items ≡ rest.layer }
    ensures found { MatchBool result
        (Appends ranks.old.items ranks.new.items
        (IsFirstAbove rows.old.penalties rest.layer rest.before above rest.total))
        (HasNoStep rows.old.penalties rest.layer rest.before above rest.total
        × (ranks.new.items ≡ ranks.old.items)) }
    ensures probes { MatchBool result
        (rows.new.probes ≤ rows.old.probes + (count_of rows.old.penalties rest.layer - above)
        + (length rows.old.penalties.candidates - (rest.layer + 1)) * most_of rows.old.penalties)
        (rows.new.probes ≤ rows.old.probes + (count_of rows.old.penalties rest.layer - above)) }
    ensures sound { IsTrue result → IsTable rows.old.penalties }
    ensures rises { rows.old.probes ≤ rows.new.probes }
    ensures same { rows.new.penalties ≡ rows.old.penalties }
{
    let Some(step) = next_step(rows, rest, above) else {
        return false;
    };
    ranks.push(step.rank);
    descend(rows, rest.after(step.rank, step.left), ranks);
    true
}

/// Appends the first completion that comes after the one with the ranks `cursor`, and answers
/// whether there is one. It tests the cursor's own ranks one after the other, then greater ones
/// from the last layer back. From the first of these that has a step it only descends.
#[tactic(auto, using(crate::proofs::Following::none_at_end, crate::proofs::Following::own_inside, crate::proofs::Following::own_layer, crate::proofs::Following::own_step, crate::proofs::Following::others_completion, crate::proofs::Following::above_probes, crate::proofs::Searching::is_predecessor))]
fn next_completion(rows: &mut Rows, rest: Rest, cursor: &[u8], ranks: &mut ArrayVec<u8, 32>) -> bool
    requires layers { length rows.old.penalties.candidates ≤ 32 }
    requires before { IsPredecessor rows.old.penalties rest.layer rest.before }
    requires completion { IsCompletion rows.old.penalties rest.layer rest.before cursor.now
        rest.total }
    requires ranks { length ranks.old.items ≡ rest.layer }
    ensures found { MatchBool result
        (Appends ranks.old.items ranks.new.items
        (IsNextCompletion rows.old.penalties rest.layer rest.before rest.total cursor.now))
        (HasNoNextCompletion rows.old.penalties rest.layer rest.before rest.total cursor.now
        × (ranks.new.items ≡ ranks.old.items)) }
    ensures probes { MatchBool result
        (rows.new.probes ≤ rows.old.probes
        + 2 * ((length rows.old.penalties.candidates - rest.layer) * most_of rows.old.penalties))
        (rows.new.probes ≤ rows.old.probes
        + (length rows.old.penalties.candidates - rest.layer) * most_of rows.old.penalties) }
    ensures sound { IsTrue result → IsTable rows.old.penalties }
    ensures rises { rows.old.probes ≤ rows.new.probes }
    ensures same { rows.new.penalties ≡ rows.old.penalties }
{
    let Some((own, others)) = cursor.split_first() else {
        return false;
    };
    let Some(left) = rows.test(rest.layer, rest.before, *own, rest.total) else {
        return false;
    };
    ranks.push(*own);
    if next_completion(rows, rest.after(*own, left), others, ranks) {
        return true;
    }
    ranks.pop();
    first_above(rows, rest, *own, ranks)
}
