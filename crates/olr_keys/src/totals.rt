//! The finder that goes by rows of remaining totals.

ghost use Rattle.std.specs.Prelude.{◌≡◌, ◌+◌, ◌*◌, ◌≤◌, IfOk, IsOk, length, option_map};
ghost use Rattle.olr_keys.specs.Answers.{AreAnswers};
ghost use Rattle.olr_keys.specs.AnswersOf.{answers_of};
ghost use Rattle.olr_keys.specs.Finder.{IsNext, IsPosition};
ghost use Rattle.olr_keys.specs.Rows.{bytes_of, most_of, width_of};

use crate::finder::Finder;
use crate::key::Key;
use crate::matching::is_key;
use crate::rows::Rows;
use crate::search::next_key;
use crate::table::Table;
use olr_base::NoMemory;
use std::alloc::Global;
use std::marker::Model;

/// The finder that keeps rows of remaining totals beside its table.
///
/// However many matchings come before a key, it finds the next one in a bounded number of probes of
/// its rows: with P layers of at most C candidates and rows of W bytes, at most 2 P C + W.
#[derive(Drop)]
pub struct TotalsFinder<'a> {
    table: &'a Table,
    rows: Rows<'a>,
}

impl<'a> Model for TotalsFinder<'a> {
    ghost use Rattle.std.specs.Prelude.{◌≡◌};
    ghost use Rattle.olr_keys.specs.Rows.{RowsValue};

    ghost Value = { RowsValue };

    ghost view = { λ f. f.rows };

    ghost invariant = { λ f. f.rows.penalties ≡ f.table.now };
}

impl<'a> TotalsFinder<'a> {
    /// The finder of the keys of a table, which fills its rows.
    ///
    /// # Errors
    ///
    /// [`NoMemory`] where the allocator refused memory.
    pub fn build(alloc: Global, table: &'a Table) -> Result<TotalsFinder<'a>, NoMemory>
        ensures answers { IfOk result
            (λ finder. AreAnswers table.now (⟦<TotalsFinder<'a> as Finder>⟧.answers finder)) }
        ensures rows { IfOk result
            (λ finder. (finder.penalties ≡ table.now) × (finder.probes ≡ 0)) }
    {
        let rows = Rows::build(alloc, table)?;
        Ok(TotalsFinder { table, rows })
    }

    /// How many probes of its rows the finder has made. The count stays at its greatest value.
    pub fn probes(&self) -> u64
        ensures { result ≡ self.now.probes }
    {
        self.rows.probes()
    }

    /// How many bytes the rows have that are held: a row for each candidate, and one for the totals
    /// of all matchings. It is the sum of the lengths of all rows.
    pub fn row_bytes(&self) -> usize
        ensures value { result ≡ bytes_of self.now.penalties }
        ensures at_most { result
            ≤ (length self.now.penalties.candidates * most_of self.now.penalties + 1)
            * width_of self.now.penalties }
    {
        self.rows.bytes()
    }
}

impl<'a> Finder for TotalsFinder<'a> {
    ghost use Rattle.olr_keys.specs.AnswersOf.{answers_of};
    ghost use Rattle.olr_keys.specs.Rise.{answers_rise};

    ghost answers = { λ finder. answers_of finder.penalties };

    ghost rise = { λ finder. answers_rise finder.penalties };

    fn check(&self, key: &Key) -> bool {
        is_key(self.table, key)
    }

    #[tactic(auto, using(crate::proofs::NextKeys::next_listed, crate::proofs::NextKeys::position_is_key))]
    fn next(&mut self, _alloc: Global, after: Option<&Key>) -> Result<Option<Key>, NoMemory>
        requires { IsPosition (answers_of self.old.penalties) (option_map (λ key. key.now) after) }
        ensures next { IfOk result
            (IsNext (answers_of self.old.penalties) (option_map (λ key. key.now) after.entry)) }
        ensures same { answers_of self.new.penalties ≡ answers_of self.old.penalties }
        ensures never_fails { IsOk result }
        ensures probes { self.new.probes ≤ self.old.probes
            + (2 * (length self.old.penalties.candidates * most_of self.old.penalties)
            + width_of self.old.penalties) }
        ensures rises { self.old.probes ≤ self.new.probes }
        ensures rows { self.new.penalties ≡ self.old.penalties }
    {
        Ok(next_key(&mut self.rows, after))
    }
}
