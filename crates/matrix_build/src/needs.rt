//! What the literals of a clause need above them, where no extension closes them: their symbols under the
//! other signs. They are marked by bits, so that one look at a clause tells whether a path has them.

ghost use Rattle.std.specs.Prelude.{◌≡◌, ◌⊎◌, ◌<◌, ℕ, IfOk, Some, length, map, slice_get};
ghost use Rattle.std.specs.Int.{bit_at};
ghost use Rattle.search_theory.specs.Ahead as marking;
ghost use Rattle.search_theory.specs.Matrix.{MatrixClause};
ghost use Rattle.matrix_build.specs.MatrixView.{the_clause};
ghost use Rattle.matrix_build.specs.Needs.{AreAllNeeds, AreNeeds};
ghost use Rattle.term_store.specs.ClauseView.{the_pattern_atom};
ghost use Rattle.term_store.specs.TemplateView.{the_template};

use crate::clause::Clause;
use cop_base::{NoMemory, SymbolId};
use formula_core::Sign;
use std::alloc::Global;
use term_store::{PatternAtom, Template};

// The bit of a symbol under a sign. Where there are more of them than bits, some share one.
fn bit_of(symbol: SymbolId, sign: Sign) -> u32
    ensures is_bit { result ≡ marking.bit_of symbol.0 sign }
    ensures small { result < 64 }
{
    let twice = 2 * symbol.0 as u64;
    match sign {
        Sign::F => (twice % 64) as u32,
        Sign::T => ((twice + 1) % 64) as u32,
    }
}

/// The marks, and that of the symbol under the sign.
pub fn with_mark(marks: u64, symbol: SymbolId, sign: Sign) -> u64
    ensures own { bit_at result (marking.bit_of symbol.0 sign) ≡ 1 }
    ensures others { (bit : ℕ) → bit_at marks bit ≡ 1 → bit_at result bit ≡ 1 }
    ensures only { (bit : ℕ) → bit_at result bit ≡ 1
        → (bit_at marks bit ≡ 1) ⊎ (bit ≡ marking.bit_of symbol.0 sign) }
{
    let bit = bit_of(symbol, sign);
    marks | (1 << bit)
}

/// The literal of this number.
pub fn literal_at(literals: &[PatternAtom], i: usize) -> &PatternAtom
    requires { i < length literals.now }
    ensures { slice_get (map the_pattern_atom literals.now) i ≡ Some (the_pattern_atom result.now) }
{
    &literals[i]
}

// The marks of what the clause's literals need.
fn needs_of(template: &Template) -> u64
    ensures { AreNeeds (the_template template.now).literals result }
{
    let literals = template.literals.items();
    let mut needs = 0;
    for i in 0..literals.len() {
        let literal = literal_at(literals, i);
        let sign = literal.sign.other();
        let more = with_mark(needs, literal.symbol, sign);
        needs = more;
    }
    needs
}

// Those of the clause of this number.
fn needs_at(clauses: &[Clause], i: usize) -> u64
    requires { i < length clauses.now }
    ensures { (c : MatrixClause) × (slice_get (map the_clause clauses.now) i ≡ Some c)
        × AreNeeds c.template.literals result }
{
    needs_of(&clauses[i].template)
}

/// Those of each clause.
pub(crate) fn needs_of_all(alloc: Global, clauses: &[Clause]) -> Result<Vec<u64>, NoMemory>
    ensures { IfOk result (λ needs. AreAllNeeds needs.items (map the_clause clauses.now)) }
{
    let mut needs = Vec::with_capacity(alloc, clauses.len())?;
    for i in 0..clauses.len() {
        let own = needs_at(clauses, i);
        needs.push(own)?;
    }
    Ok(needs)
}
