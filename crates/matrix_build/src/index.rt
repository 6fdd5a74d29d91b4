//! The places of the literals by symbol and sign.

ghost use Rattle.std.specs.Prelude.{◌≡◌, ◌<◌, ◌≤◌, ◌+◌, ◌++◌, ℕ, IfOk, length, map};
ghost use Rattle.std.specs.List.{AllByRecursion};
ghost use Rattle.calculus.specs.declared.sign.Sign as declared;
ghost use Rattle.search_theory.specs.Matrix.{places_among};
ghost use Rattle.matrix_build.specs.MatrixView.{HasFewLiterals, IsIndex, if_equal, places_at, row_of};
ghost use Rattle.matrix_build.specs.MatrixView.{the_clause, the_place};

use crate::clause::Clause;
use cop_base::{ClauseId, NoMemory, SymbolId};
use formula_core::Sign;
use std::alloc::Global;
use term_store::PatternAtomList;

/// A literal's clause and its place in it, both from 0.
#[derive(Clone, Copy, Debug, PartialEq, Eq)]
pub struct Place {
    pub clause: ClauseId,
    pub literal: u32,
}

#[derive(Drop)]
pub(crate) struct Places {
    items: Vec<Place>,
}

/// A row of places for each symbol under each sign.
#[derive(Drop)]
pub(crate) struct Index {
    rows: Vec<Places>,
}

// Twice the symbol, and one more for sign T.
fn row_of(symbol: SymbolId, sign: Sign) -> usize
    ensures { result ≡ row_of symbol.0 sign }
{
    let twice = 2 * symbol.0 as usize;
    match sign {
        Sign::F => twice,
        Sign::T => twice + 1,
    }
}

impl Index {
    pub fn new(alloc: Global, clauses: &[Clause]) -> Result<Index, NoMemory>
        requires clauses { length clauses.now ≤ 4294967295 }
        requires literals { AllByRecursion HasFewLiterals (map the_clause clauses.now) }
        ensures { IfOk result (λ index. IsIndex index.rows.items (map the_clause clauses.now)) }
    {
        let mut rows = Vec::new(alloc);
        for (number, clause) in clauses.iter().enumerate() {
            let clause_id = ClauseId(number as u32);
            add_clause(alloc, &mut rows, clause_id, &clause.template.literals)?;
        }
        Ok(Index { rows })
    }

    pub fn places(&self, symbol: SymbolId, sign: Sign) -> &[Place]
        ensures { map the_place result.now ≡ places_at (row_of symbol.0 sign) self.now.rows.items }
    {
        match self.rows.get(row_of(symbol, sign)) {
            Some(row) => &row.items,
            None => &[],
        }
    }
}

fn add_clause(
    alloc: Global,
    rows: &mut Vec<Places>,
    clause: ClauseId,
    literals: &PatternAtomList,
) -> Result<(), NoMemory>
    requires { length literals.now ≤ 4294967295 }
    ensures { IfOk result (λ _. (symbol : ℕ) (sign : declared.Sign)
        → places_at (row_of symbol sign) rows.new.items
        ≡ places_at (row_of symbol sign) rows.old.items
        ++ places_among symbol sign clause.0 0 literals.now) }
{
    let items = literals.items();
    for (place, literal) in items.iter().enumerate() {
        let found = Place {
            clause,
            literal: place as u32,
        };
        add(alloc, rows, row_of(literal.symbol, literal.sign), found)?;
    }
    Ok(())
}

fn add(alloc: Global, rows: &mut Vec<Places>, number: usize, place: Place) -> Result<(), NoMemory>
    ensures { IfOk result (λ _. (n : ℕ) → places_at n rows.new.items
        ≡ places_at n rows.old.items ++ if_equal number n (the_place place)) }
{
    reach(alloc, rows, number)?;
    let row = &mut rows[number];
    row.items.push(place)?;
    Ok(())
}

// Adds empty rows until the one of this number is there.
fn reach(alloc: Global, rows: &mut Vec<Places>, number: usize) -> Result<(), NoMemory>
    ensures same { IfOk result (λ _. (n : ℕ) → places_at n rows.new.items
        ≡ places_at n rows.old.items) }
    ensures enough { IfOk result (λ _. number < length rows.new.items) }
{
    'growing: while rows.len() <= number {
        rows.push(Places {
            items: Vec::new(alloc),
        })?;
    }
    Ok(())
}
