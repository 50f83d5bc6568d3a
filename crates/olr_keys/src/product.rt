//! The plain finder, which goes through all combinations of candidates.

ghost use Rattle.std.specs.Prelude.{◌≡◌, ◌≤◌, ◌*◌, ◌⊎◌, length};
ghost use Rattle.std.specs.Prelude.{IfOk, IfSome, IsOk, option_map};
ghost use Rattle.olr_keys.specs.Answers.{AreAnswers};
ghost use Rattle.olr_keys.specs.AnswersOf.{answers_of};
ghost use Rattle.olr_keys.specs.Finder.{IsAfter, IsNext, IsPosition, IsLeastOf};
ghost use Rattle.olr_keys.specs.Table.{max_step};
ghost use Rattle.olr_keys.specs.Product.{IsBeginning, Completes, IsHeld};

use crate::before::is_before;
use crate::beginning::Beginning;
use crate::finder::Finder;
use crate::key::Key;
use crate::matching::is_key;
use crate::table::Table;
use olr_base::NoMemory;
use std::alloc::Global;

/// The plain finder: it goes through all combinations of candidates and keeps the least key that
/// comes after the given one.
///
/// It is what other finders are compared with.
#[derive(Drop)]
pub struct ProductFinder<'a> {
    table: &'a Table,
}

impl<'a> ProductFinder<'a> {
    /// The finder of the keys of a table. It takes no memory.
    pub fn new(table: &'a Table) -> ProductFinder<'a>
        ensures { AreAnswers table.now (⟦<ProductFinder<'a> as Finder>⟧.answers result) }
    {
        ProductFinder { table }
    }
}

impl<'a> Finder for ProductFinder<'a> {
    ghost use Rattle.olr_keys.specs.AnswersOf.{answers_of};
    ghost use Rattle.olr_keys.specs.Rise.{answers_rise};

    ghost answers = { λ finder. answers_of finder.table.now };

    ghost rise = { λ finder. answers_rise finder.table.now };

    fn check(&self, key: &Key) -> bool {
        is_key(self.table, key)
    }

    #[tactic(auto, using(crate::proofs::FromStart::next_of))]
    fn next(&mut self, _alloc: Global, after: Option<&Key>) -> Result<Option<Key>, NoMemory>
        requires { IsPosition (answers_of self.old.table.now) (option_map (λ key. key.now) after) }
        ensures next { IfOk result
            (IsNext (answers_of self.old.table.now) (option_map (λ key. key.now) after.entry)) }
        ensures same { answers_of self.new.table.now ≡ answers_of self.old.table.now }
        ensures never_fails { IsOk result }
    {
        Ok(least_from(self.table, Beginning::new(), after, None))
    }
}

/// The lesser one of a key, if it comes after `after`, and the key held so far.
pub(crate) fn lesser(key: Key, after: Option<&Key>, held: Option<Key>) -> Option<Key>
    ensures { IsLeastOf (λ other. IsHeld held other
        ⊎ ((other ≡ key) × IsAfter (option_map (λ at. at.now) after.entry) other)) result }
{
    if let Some(after) = after {
        if !is_before(after, &key) {
            return held;
        }
    }
    let Some(held) = held else {
        return Some(key);
    };
    if is_before(&key, &held) {
        Some(key)
    } else {
        Some(held)
    }
}

/// The least key that comes after `after` and completes a beginning of a matching, or the key held
/// so far, if it is less.
#[tactic(auto, using(crate::proofs::Beginnings::least_at_end, crate::proofs::Beginnings::least_of_all, crate::proofs::Beginnings::step_at_most))]
fn least_from(
    table: &Table,
    beginning: Beginning,
    after: Option<&Key>,
    held: Option<Key>,
) -> Option<Key>
    requires layers { length beginning.ranks.items ≤ length table.now.candidates }
    requires before { IfSome beginning.before
        (λ first. (1 ≤ length beginning.ranks.items) × (1 ≤ first)) }
    requires total { beginning.total ≤ max_step * length beginning.ranks.items }
    requires keys { IsBeginning table.now beginning.before beginning.total beginning.ranks.items }
    ensures { IsLeastOf (λ key. IsHeld held key
        ⊎ (Completes table.now beginning.before beginning.total beginning.ranks.items key
        × IsAfter (option_map (λ at. at.now) after.entry) key)) result }
{
    let layer = beginning.ranks.len();
    if layer == table.layers() {
        let key = Key {
            total: beginning.total,
            ranks: beginning.ranks,
        };
        return lesser(key, after, held);
    }
    let mut least = held;
    for index in 0..table.count(layer) {
        let rank = index as u8 + 1;
        if let Some(joined) = table.joined(layer, beginning.before, rank) {
            let longer = beginning.longer(rank, joined.leg + joined.penalty);
            least = least_from(table, longer, after, least);
        }
    }
    least
}
