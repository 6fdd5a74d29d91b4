//! Worked problems, with the steps that their searches take.

use crate::ends::{End, deepened, is_proved};
use connection_search::{Outcome, search_in};
use cop_base::{Ledger, NoMemory, PathLimit};
use logic_rules::{Domains, Logic, Problem};
use matrix_build::{MatrixFault, build_matrix};
use std::alloc::Global;
use std::test::Fail;
use term_store::Store;
use test_problems::proving;

const DRINKER: &[u8] = b"?[X]:![Y]:(p(X) => p(Y))";

// The start and one extension close the drinker. Nothing extends the start of its converse, so no
// limit helps.
const ROWS: &[(Logic, &[u8], u64, End, u64)] = &[
    (Logic::Classical, DRINKER, 1000, End::Closed(1), 2),
    (Logic::Classical, DRINKER, 1, End::Steps(0), 1),
    (
        Logic::Classical,
        b"?[X]:p(X) => ![X]:p(X)",
        1000,
        End::NoTableau(1),
        1,
    ),
];

#[test]
fn answers_worked_problems(rt: HostRuntime) -> Result<(), Fail> {
    let alloc = rt.alloc();
    for (logic, formula, budget, end, used) in ROWS {
        let problem = proving(alloc, *logic, Domains::Constant, formula)?;
        let found = deepened(alloc, &problem, *budget)?;
        assert!(rt; found == (*end, *used), "{found:?}");
    }
    Ok(())
}

// Which formulas are proved in classical and in intuitionistic logic.
const THEOREMS: &[(&[u8], bool, bool)] = &[
    (DRINKER, true, false),
    (b"p(a) => ?[X]:p(X)", true, true),
    (b"(?[X]:~p(X)) => ~(![X]:p(X))", true, true),
    (b"(~(![X]:p(X))) => ?[X]:~p(X)", true, false),
    (b"p => ~(~p)", true, true),
    (b"(~(~p)) => p", true, false),
];

#[test]
fn answers_closed_tableaux(rt: HostRuntime) -> Result<(), Fail> {
    let alloc = rt.alloc();
    for (row, (formula, classical, intuitionistic)) in THEOREMS.iter().enumerate() {
        for (logic, proved) in [
            (Logic::Classical, *classical),
            (Logic::Intuitionistic, *intuitionistic),
        ] {
            let problem = proving(alloc, logic, Domains::Constant, formula)?;
            assert!(rt; is_proved(alloc, &problem, 1000)? == proved, "row {row}");
        }
    }
    Ok(())
}

// p of a inside so many applications of f, where each application keeps p.
fn chain(alloc: Global, count: usize) -> Result<Vec<u8>, NoMemory> {
    let mut text = Vec::new(alloc);
    text.extend_from_slice(b"(p(a) & ![X]:(p(X) => p(f(X)))) => p(")?;
    for _ in 0..count {
        text.extend_from_slice(b"f(")?;
    }
    text.extend_from_slice(b"a")?;
    for _ in 0..count {
        text.push(b')')?;
    }
    text.push(b')')?;
    Ok(text)
}

// The size of a new store after a search that closes a tableau within limit 41, or 0.
fn size_after(alloc: Global, problem: &Problem) -> Result<usize, MatrixFault> {
    let matrix = build_matrix(alloc, problem)?;
    let mut ledger = Ledger::new(10_000_000);
    let mut store = Store::new(alloc)?;
    let limit = PathLimit { number: 41 };
    match search_in(alloc, problem, &matrix, limit, &mut ledger, &mut store)? {
        Outcome::Closed(_) => Ok(store.size()),
        _ => Ok(0),
    }
}

#[test]
fn gives_cells_back_to_the_store(rt: HostRuntime) -> Result<(), Fail> {
    let alloc = rt.alloc();
    let formula = chain(alloc, 40)?;
    let problem = proving(
        alloc,
        Logic::Classical,
        Domains::Constant,
        formula.as_slice(),
    )?;
    let size = size_after(alloc, &problem)?;
    assert!(rt; size >= 40 && size <= 100000);
    Ok(())
}
