//! The table.

ghost use Rattle.std.specs.Prelude.{◌≡◌, ◌++◌, ◌∷◌, [], ◌<◌, length, get_or, map, OnErr, OnOk};
ghost use Rattle.std.specs.List.{AllByRecursion};
ghost use Rattle.term_table.specs.Table.{IsBelow, the_table_term};

use cop_base::{NoMemory, SymbolId};
use std::alloc::Global;
use std::marker::Model;

/// A term over a table: a constant, a function symbol with the number of the list of its arguments, or a leaf.
#[derive(Clone, Copy)]
pub enum TableTerm {
    Constant(SymbolId),
    Fun(SymbolId, u32),
    Eigen(u32),
    Spare(u32),
}

/// Lists of terms by their numbers, from 0. The terms of a list name lists before it.
#[derive(Drop)]
pub struct TermTable {
    lists: Vec<Vec<TableTerm>>,
}

impl Model for TermTable {
    ghost use Rattle.std.specs.Prelude.{List, [], map};
    ghost use Rattle.calculus.specs.Codes.{term_code};
    ghost use Rattle.calculus.specs.Syntax as tree;
    ghost use Rattle.std.specs.Coded.{codes};
    ghost use Rattle.term_table.specs.Table.{AreBelow, lists_from};

    ghost Value = { List (List tree.Term) };

    ghost coded = { Prim.hlevel (codes, term_code) };

    ghost view = { λ t. lists_from [] (map (λ v. v.items) t.lists.items) };

    ghost invariant = { λ t. AreBelow 0 (map (λ v. v.items) t.lists.items) };
}

impl TermTable {
    /// The table without lists.
    pub fn new(alloc: Global) -> TermTable
        ensures { result ≡ [] }
    {
        TermTable {
            lists: Vec::new(alloc),
        }
    }

    /// How many lists there are.
    pub fn len(&self) -> usize
        ensures { result ≡ length self.now }
    {
        self.lists.len()
    }

    /// Adds a list under the next number. Want of memory leaves the table as it was.
    pub fn push(&mut self, terms: Vec<TableTerm>) -> Result<(), NoMemory>
        requires { AllByRecursion (IsBelow (length self.old)) terms.items }
        ensures ok { OnOk result (self.new ≡ self.old ++ map (the_table_term self.old) terms.items ∷ []) }
        ensures err { OnErr result (self.new ≡ self.old) }
    {
        self.lists.push(terms)?;
        Ok(())
    }

    /// The terms of a list.
    pub fn terms(&self, list: u32) -> &[TableTerm]
        ensures { map (the_table_term self.now) result.now ≡ get_or self.now list [] }
    {
        let list = list as usize;
        if list < self.lists.len() {
            self.lists[list].as_slice()
        } else {
            &[]
        }
    }
}
