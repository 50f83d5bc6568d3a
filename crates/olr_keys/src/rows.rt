//! Rows of remaining totals: which totals the completions from each candidate on have.
//!
//! A completion takes one candidate of each further layer, each joined to the one before. Each
//! candidate has a row of bytes, and a byte of it isn't 0 exactly where its index is a remaining
//! total of the candidate: the total of a completion that begins with it. So one look at a byte
//! decides whether the rest of a total can still be reached, and a search that takes only such
//! steps never has to back up. [`Rows`] counts these looks: they are its probes.

mod fill;

ghost use Rattle.std.specs.Prelude.{◌≡◌, ◌+◌, ◌*◌, ◌<◌, ◌≤◌, Decides, IfOk, MatchOption, length};
ghost use Rattle.std.specs.Prelude.{slice_index, ℕ, ◌-◌};
ghost use Rattle.olr_base.specs.Counting.{one_more};
ghost use Rattle.olr_keys.specs.Rows.{AreRowsOf, IsStep, IsTotal, IsPredecessor, bytes_of, most_of};
ghost use Rattle.olr_keys.specs.Rows.{rows_of, width_of};
ghost use Rattle.olr_keys.specs.Search.{IsLeft};
ghost use Rattle.olr_keys.specs.Table.{IsTable, count_of, max_total};

use crate::table::{Table, list_at};
use crate::width::width;
use olr_base::NoMemory;
use std::alloc::Global;
use std::marker::Model;

/// The rows of the remaining totals of a table, and how many probes of them were made.
#[derive(Drop)]
pub struct Rows<'a> {
    table: &'a Table,
    width: usize,
    bytes: usize,
    // The rows of each layer, by how many layers follow it.
    marks: Vec<Vec<Vec<u8>>>,
    totals: Vec<u8>,
    probes: u64,
}

impl<'a> Model for Rows<'a> {
    ghost use Rattle.olr_keys.specs.Rows.{AreRows, RowsValue, layers_of};

    ghost Value = { RowsValue };

    ghost view = { λ r. record { penalties = r.table.now; probes = r.probes } };

    ghost invariant = { λ r. AreRows r.table.now (layers_of r.marks.items) r.totals.items
        r.width r.bytes };
}

impl<'a> Rows<'a> {
    /// The rows of a table, before any probe. It fills them from the last layer backwards, one
    /// shifted row for each two candidates that a leg joins, and reserves [`Rows::bytes`] bytes of
    /// rows.
    ///
    /// # Errors
    ///
    /// [`NoMemory`] where the allocator refused memory.
    #[tactic(auto, using(crate::proofs::Held::held_is))]
    pub fn build(alloc: Global, table: &'a Table) -> Result<Rows<'a>, NoMemory>
        ensures { IfOk result (λ rows. (rows.penalties ≡ table.now) × (rows.probes ≡ 0)) }
    {
        let width = width(table);
        let marks = fill::marks(alloc, table, width)?;
        let totals = fill::totals(alloc, table, width, fill::last(&marks))?;
        Ok(Rows {
            table,
            width,
            bytes: fill::bytes(table, width),
            marks,
            totals,
            probes: 0,
        })
    }

    /// How many layers the table has, 2 to 32.
    pub fn layers(&self) -> usize
        ensures count { result ≡ length self.now.penalties.candidates }
        ensures sound { IsTable self.now.penalties }
    {
        self.table.layers()
    }

    /// How many candidates a layer has, 0 to 64. Layers are counted from 0.
    pub fn count(&self, layer: usize) -> usize
        requires { layer < length self.now.penalties.candidates }
        ensures count { result ≡ count_of self.now.penalties layer }
        ensures at_most { result ≤ 64 }
    {
        self.table.count(layer)
    }

    /// One more than the sum of the greatest penalty of each layer and of the legs between each two
    /// neighbours: how many bytes a row has.
    #[tactic(auto, using(crate::proofs::Sizes::width_at_most))]
    pub fn width(&self) -> usize
        ensures value { result ≡ width_of self.now.penalties }
        ensures at_most { result ≤ max_total + 1 }
    {
        self.width
    }

    /// How many bytes the rows have that are held: a row for each candidate, and one for the totals
    /// of all matchings. It is the sum of the lengths of all rows.
    #[tactic(auto, using(crate::proofs::Held::held_is, crate::proofs::Sizes::bytes_at_most))]
    pub fn bytes(&self) -> usize
        ensures value { result ≡ bytes_of self.now.penalties }
        ensures at_most { result
            ≤ (length self.now.penalties.candidates * most_of self.now.penalties + 1)
            * width_of self.now.penalties }
    {
        self.bytes
    }

    /// How often [`Rows::test`] and [`Rows::total`] were called since the rows were built. The
    /// count stays at its greatest value.
    pub fn probes(&self) -> u64
        ensures { result ≡ self.now.probes }
    {
        self.probes
    }

    /// `rest` less the penalties of the leg and of the candidate, where the leg is admitted and
    /// some completion from the candidate on has exactly what then remains; else `None`.
    ///
    /// The candidate is that of this rank in a layer, and the leg is that from the candidate
    /// `before` it, which is `None` exactly in layer 0; there is no leg then, and nothing is taken
    /// off for it. Layers are counted from 0, ranks from 1.
    pub fn test(&mut self, layer: usize, before: Option<u8>, rank: u8, rest: u16) -> Option<u16>
        requires layer { layer < length self.old.penalties.candidates }
        requires before { IsPredecessor self.old.penalties layer before }
        requires rank { (1 ≤ rank) × (rank ≤ count_of self.old.penalties layer) }
        ensures step { MatchOption result
            ((left : ℕ) → IsStep self.old.penalties layer before rank rest left → ⊥)
            (IsStep self.old.penalties layer before rank rest) }
        ensures counted { self.new.probes ≡ one_more self.old.probes }
        ensures rises { self.old.probes ≤ self.new.probes }
        ensures same { self.new.penalties ≡ self.old.penalties }
    {
        self.raise();
        self.left(layer, before, rank, rest)
    }

    /// Whether some matching has this total.
    pub fn total(&mut self, m: u16) -> bool
        ensures total { Decides result (IsTotal self.old.penalties m) }
        ensures counted { self.new.probes ≡ one_more self.old.probes }
        ensures rises { self.old.probes ≤ self.new.probes }
        ensures same { self.new.penalties ≡ self.old.penalties }
    {
        self.raise();
        self.is_total(m)
    }

    /// Counts one more probe.
    fn raise(&mut self)
        ensures counted { self.new.probes ≡ one_more self.old.probes }
        ensures rises { self.old.probes ≤ self.new.probes }
        ensures same { self.new.penalties ≡ self.old.penalties }
    {
        self.probes = self.probes.saturating_add(1);
    }

    /// What [`Rows::test`] answers.
    #[tactic(auto, using(crate::proofs::Stepping::look))]
    fn left(&self, layer: usize, before: Option<u8>, rank: u8, rest: u16) -> Option<u16>
        requires layer { layer < length self.now.penalties.candidates }
        requires before { IsPredecessor self.now.penalties layer before }
        requires rank { (1 ≤ rank) × (rank ≤ count_of self.now.penalties layer) }
        ensures { MatchOption result
            ((left : ℕ) → IsStep self.now.penalties layer before rank rest left → ⊥)
            (IsStep self.now.penalties layer before rank rest) }
    {
        let joined = self.table.joined(layer, before, rank)?;
        let index = usize::from(rank) - 1;
        left_by(
            joined.leg,
            joined.penalty,
            &self.layer_rows(layer)[index],
            rest,
        )
    }

    /// The rows of the candidates of a layer, by rank.
    fn layer_rows(&self, layer: usize) -> &[Vec<u8>]
        requires { layer < length self.now.penalties.candidates }
        ensures { AreRowsOf self.now.penalties layer (rows_of result.now) }
    {
        list_at(&self.marks, self.marks.len() - 1 - layer)
    }

    /// What [`Rows::total`] answers.
    fn is_total(&self, m: u16) -> bool
        ensures { Decides result (IsTotal self.now.penalties m) }
    {
        is_marked(&self.totals, m)
    }
}

/// What is left of a total after a candidate of this penalty, where `rest` of it is to go before
/// the leg to it, which has the penalty `leg`; `None` where the candidate's row doesn't mark what
/// remains after the leg.
fn left_by(leg: u16, penalty: u16, row: &[u8], rest: u16) -> Option<u16>
    ensures { MatchOption result ((left : ℕ) → IsLeft leg penalty row.now rest left → ⊥)
        (IsLeft leg penalty row.now rest) }
{
    let remaining = rest.checked_sub(leg)?;
    let left = remaining.checked_sub(penalty)?;
    if is_marked(row, remaining) {
        Some(left)
    } else {
        None
    }
}

/// Whether a row has a byte at this index that isn't 0.
fn is_marked(row: &[u8], number: u16) -> bool
    ensures { Decides result (0 < slice_index row.now number) }
{
    let Some(byte) = row.get(usize::from(number)) else {
        return false;
    };
    *byte > 0
}
