//! Worked problems through the public calls.

use cop_base::{ClauseId, SymbolId};
use formula_core::Sign;
use logic_rules::{Domains, Logic};
use matrix_build::{Matrix, Place, build_matrix};
use std::test::Fail;
use term_store::{Pattern, PatternAtom};
use test_problems::proving;

fn has_one(places: &[Place], clause: u32) -> bool {
    places.len() == 1 && places[0].clause.0 == clause && places[0].literal == 0
}

// The eigenvariable of position 1 by one value.
fn is_inner(literal: &PatternAtom) -> bool {
    match literal.args.items() {
        [Pattern::Eigen(at, parts)] => at.0 == 1 && parts.items().len() == 1,
        _ => false,
    }
}

// The clause of sign T cannot start, that of sign F can.
fn is_drinker(matrix: &Matrix, marks: usize) -> bool {
    if matrix.len() != 2 {
        return false;
    }
    let literals = matrix.template(ClauseId(1)).literals.items();
    if literals.len() != 1 || literals[0].label.items().len() != marks {
        return false;
    }
    let starts = !matrix.is_start(ClauseId(0)) && matrix.is_start(ClauseId(1));
    starts && is_inner(&literals[0]) && matrix.selection(ClauseId(1)).items().len() == 1
}

fn has_places(matrix: &Matrix) -> bool {
    let p = SymbolId(0);
    let known = has_one(matrix.places(p, Sign::T), 0) && has_one(matrix.places(p, Sign::F), 1);
    known && matrix.places(SymbolId(7), Sign::T).len() == 0
}

// The label of the literal with sign F has so many marks.
#[test]
fn builds_the_drinkers_clauses(rt: HostRuntime) -> Result<(), Fail> {
    let alloc = rt.alloc();
    for (logic, marks) in [(Logic::Classical, 0), (Logic::Intuitionistic, 3)] {
        let problem = proving(alloc, logic, Domains::Constant, b"?[X]:![Y]:(p(X) => p(Y))")?;
        let matrix = build_matrix(alloc, &problem)?;
        assert!(rt; is_drinker(&matrix, marks));
        assert!(rt; has_places(&matrix));
    }
    Ok(())
}
