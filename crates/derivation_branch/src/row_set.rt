//! Numbers by which large terms are told apart.

ghost use Rattle.std.specs.Prelude.{◌≡◌, ◌<◌, ◌≤◌, [], length, IfOk};
ghost use Rattle.calculus.specs.Equality.{term_eq};
ghost use Rattle.calculus.specs.Syntax as tree;
ghost use Rattle.label_table.specs.Longer.{IsLonger};
ghost use Rattle.formula_text.specs.Rows.{row_of};
ghost use Rattle.derivation_branch.specs.RowNumbers.{IsNumberOf};

use cop_base::NoMemory;
use formula_text::{RowItem, TermRow};
use indexmap::IndexSet;
use label_table::place_of;
use std::alloc::Global;
use std::marker::Model;

/// Rows of large terms in the order in which they were first added. No row has two places.
#[derive(Drop)]
pub struct RowSet<'a> {
    rows: IndexSet<&'a [RowItem]>,
}

impl<'a> Model for RowSet<'a> {
    ghost use Rattle.std.specs.Prelude.{List, map};
    ghost use Rattle.derivation_branch.specs.RowNumbers.{AreRowsApart};
    ghost use Rattle.formula_text.specs.declared.term_row.RowItem.{RowItem as Item};

    ghost Value = { List (List Item) };

    ghost view = { λ s. map (λ k. k.now) s.rows.keys };

    ghost invariant = { λ s. AreRowsApart (map (λ k. k.now) s.rows.keys) };
}

impl<'a> RowSet<'a> {
    /// Rows with fewer items have no number: to compare them takes no longer than to look one up.
    pub const LARGE: usize = 16;

    /// The empty set.
    pub fn new(alloc: Global) -> RowSet<'a>
        ensures { result ≡ [] }
    {
        RowSet {
            rows: IndexSet::new(alloc),
        }
    }

    // The number of a row, which is added where it is new.
    fn number(&mut self, row: &'a TermRow) -> Result<u32, NoMemory>
        ensures told { IfOk result (λ n. IsNumberOf self.new n row.entry.now) }
        ensures some { IfOk result (λ n. 0 < n) }
        ensures grown { IsLonger self.old self.new }
    {
        let _last = place_of(self.rows.len() + 1)?;
        let (index, _) = self.rows.insert_full(row.items())?;
        Ok(index as u32 + 1)
    }

    /// The number of a term, from 1. A small term has none, and the answer is 0.
    pub fn add(&mut self, row: &'a TermRow) -> Result<u32, NoMemory>
        ensures told { IfOk result (λ n. 0 < n → IsNumberOf self.new n row.entry.now) }
        ensures large { IfOk result (λ n. Self.LARGE ≤ length (row_of row.entry.now) → 0 < n) }
        ensures grown { IsLonger self.old self.new }
    {
        if row.items().len() < Self::LARGE {
            return Ok(0);
        }
        let number = self.number(row)?;
        Ok(number)
    }

    /// Whether the terms of two numbers are equal.
    pub fn are_equal(&self, first: u32, second: u32) -> bool
        ensures { (t u : tree.Term) → IsNumberOf self.now first t → IsNumberOf self.now second u
            → result ≡ term_eq t u }
    {
        let _read_for_its_invariant = &self.rows;
        first == second
    }
}
