//! The canonical lines of worked problems.

use formula_text::write_formula;
use logic_rules::{Domains, Logic, Problem};
use std::alloc::Global;
use std::test::Fail;
use test_problems::problem_of;

fn writes_formula(alloc: Global, problem: &Problem, line: &[u8]) -> bool {
    let mut out = Vec::new(alloc);
    let written = write_formula(&mut out, problem.symbols(), problem.formula());
    written.is_ok() && out.as_slice() == line
}

const ROWS: &[(Logic, &[u8], &[u8])] = &[
    (
        Logic::Classical,
        b"fof(c,conjecture,?[X]:![Y]:(d(X) => d(Y))).",
        b"?[X1]:![X2]:(d(X1) => d(X2))",
    ),
    (
        Logic::T,
        b"qmf(c,conjecture,#box:p => #dia:p).",
        b"(#box:p => #dia:p)",
    ),
    (
        Logic::T,
        b"qmf(c,conjecture,q(a) => (![X]:#box:p(X) => #box:?[X]:p(X))).",
        b"(q(a) => (![X1]:#box:p(X1) => #box:?[X1]:p(X1)))",
    ),
    (
        Logic::Classical,
        b"fof(c,conjecture,~~(p | ~p)).",
        b"~~(p | ~p)",
    ),
    (
        Logic::T,
        b"qmf(c,conjecture,![X]:#box:p(X) => #box:![X]:p(X)).",
        b"(![X1]:#box:p(X1) => #box:![X1]:p(X1))",
    ),
    (
        Logic::Classical,
        b"fof(e,axiom,a = b). fof(f,axiom,p(a)). fof(c,conjecture,p(b)).",
        b"((((![X1]:(X1 = X1) & ![X1]:![X2]:((X1 = X2) => (X2 = X1))) & ![X1]:![X2]:![X3]:(((X1 = X2) & (X2 = X3)) => (X1 = X3))) & ((![X1]:![X2]:(((X1 = X2) & p(X1)) => p(X2)) & (a = b)) & p(a))) => p(b))",
    ),
];

#[test]
fn writes_formulas(rt: HostRuntime) -> Result<(), Fail> {
    let alloc = rt.alloc();
    for (logic, text, line) in ROWS {
        let problem = problem_of(alloc, *logic, Domains::Constant, text)?;
        assert!(rt; writes_formula(alloc, &problem, line));
    }
    Ok(())
}
