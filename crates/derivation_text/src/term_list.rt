//! The terms of a derivation by their numbers.

ghost use Rattle.std.specs.Prelude.{◌≡◌, ◌++◌, ◌∷◌, [], length, IsTrue, IfOk, OnErr, OnOk};
ghost use Rattle.calculus.specs.Equality.{term_eq};
ghost use Rattle.calculus.specs.Syntax.{spare};
ghost use Rattle.calculus.specs.Versions.{is_among, number_in, numbered};
ghost use Rattle.derivation_text.specs.Entering.{entered};
ghost use Rattle.derivation_text.specs.Listing.{AreApart};

use crate::place_list::PlaceList;
use cop_base::NoMemory;
use formula_text::TermRow;
use indexmap::IndexSet;
use label_table::place_of;
use std::alloc::Global;
use std::marker::Model;

/// Terms in the order of their numbers, from 1. Each term is kept once, however often it is listed.
#[derive(Drop)]
pub struct TermList {
    rows: IndexSet<TermRow>,
    places: PlaceList,
}

impl Model for TermList {
    ghost use Rattle.std.specs.Prelude.{List};
    ghost use Rattle.calculus.specs.Syntax as tree;
    ghost use Rattle.calculus.specs.Syntax.{spare};
    ghost use Rattle.calculus.specs.Codes.{term_code};
    ghost use Rattle.std.specs.Coded.{codes};
    ghost use Rattle.derivation_text.specs.Listing.{AreApart, AreWithin, terms_at};

    ghost Value = { List tree.Term };

    ghost coded = { Prim.hlevel (codes, term_code) };

    ghost view = { λ s. terms_at s.rows.keys s.places };

    ghost invariant = { λ s. AreWithin s.rows.keys s.places × AreApart s.rows.keys (spare 0) };
}

impl TermList {
    /// No terms.
    pub(crate) fn new(alloc: Global) -> TermList
        ensures { result ≡ [] }
    {
        TermList {
            rows: IndexSet::new(alloc),
            places: PlaceList::new(alloc),
        }
    }

    /// How many terms are listed.
    pub fn count(&self) -> u32
        ensures { result ≡ length self.now }
    {
        self.places.count()
    }

    /// Lists a term under the next number, also one that is listed.
    pub(crate) fn push(&mut self, row: TermRow) -> Result<(), NoMemory>
        ensures ok { OnOk result (self.new ≡ self.old ++ row ∷ []) }
        ensures err { OnErr result (self.new ≡ self.old) }
    {
        let _last = place_of(self.rows.len() + 1)?;
        let (place, _) = self.rows.insert_full(row)?;
        self.places.list(place as u32)?;
        Ok(())
    }

    /// The number of a term, which is listed under the next one where it is new.
    pub(crate) fn enter(&mut self, row: TermRow) -> Result<u32, NoMemory>
        ensures listed { OnOk result (self.new ≡ entered term_eq self.old row) }
        ensures number { IfOk result (λ k. k ≡ number_in term_eq self.new row) }
        ensures err { OnErr result (self.new ≡ self.old) }
    {
        let _last = place_of(self.rows.len() + 1)?;
        let (place, _) = self.rows.insert_full(row)?;
        let known = self.places.number(place as u32);
        if known > 0 {
            return Ok(known);
        }
        let number = self.places.list(place as u32)?;
        Ok(number)
    }

    /// Whether no term is listed twice.
    pub(crate) fn are_apart(&self) -> bool
        ensures { IsTrue result → AreApart self.now (spare 0) }
    {
        self.places.are_apart()
    }

    /// The row of the term of a number.
    pub fn row(&self, number: u32) -> &TermRow
        requires { IsTrue (is_among (length self.now) number) }
        ensures { result.now ≡ numbered self.now number (spare 0) }
    {
        &self.rows[self.places.place(number) as usize]
    }
}
