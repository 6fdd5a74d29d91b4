//! Tableaux of `![X]:p(f(X)) => ?[Y]:p(Y)` whose terms nest deep.

use cop_base::{NoMemory, SymbolId};
use formula_core::{GroundTable, GroundTerm, Sign, Value};
use std::alloc::Global;
use tableau_core::{
    ClauseInstance, Closing, ClosingList, GroundLiteral, LiteralList, Selection, Side, Tableau,
};

const P: SymbolId = SymbolId(0);

const F: SymbolId = SymbolId(1);

// A spare constant inside of so many symbols.
fn nested(table: &mut GroundTable, symbols: u32) -> Result<GroundTerm, NoMemory> {
    let mut term = GroundTerm::Common(0);
    for _ in 0..symbols {
        let arguments = table.add_terms(&[term])?;
        term = GroundTerm::Fun(F, arguments);
    }
    Ok(term)
}

// The instance of a side by a value, with the literal of a term.
fn instance(
    alloc: Global,
    table: &mut GroundTable,
    side: Side,
    value: GroundTerm,
    sign: Sign,
    argument: GroundTerm,
) -> Result<ClauseInstance, NoMemory> {
    let mut selection = Selection::new(alloc);
    selection.push(side)?;
    let values = table.add_values(&[Value::Term(value)])?;
    let args = table.add_terms(&[argument])?;
    let label = table.add_marks(&[])?;
    let mut literals = LiteralList::new(alloc);
    literals.push(GroundLiteral {
        sign,
        symbol: P,
        args,
        label,
    })?;
    Ok(ClauseInstance {
        selection,
        values,
        literals,
    })
}

/// Y gets a term of so many levels, X the one inside it.
pub(crate) fn deep_tableau(alloc: Global, levels: u32) -> Result<Tableau, NoMemory> {
    let mut table = GroundTable::new(alloc);
    let inner = nested(&mut table, levels.saturating_sub(2))?;
    let outer = GroundTerm::Fun(F, table.add_terms(&[inner])?);
    let start = instance(alloc, &mut table, Side::Right, outer, Sign::F, outer)?;
    let given = instance(alloc, &mut table, Side::Left, inner, Sign::T, outer)?;
    let mut goals = ClosingList::new(alloc);
    goals.push(Closing::Extend {
        instance: given,
        literal: 0,
        goals: ClosingList::new(alloc),
    })?;
    Ok(Tableau {
        table,
        start,
        goals,
    })
}
