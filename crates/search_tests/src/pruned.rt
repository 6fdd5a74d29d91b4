//! Searches of random clause sets by all that drops lists early and by none of it: they answer the
//! same, with no more steps.

ghost use Rattle.search_theory.specs.Matrix.{IsTemplateMatrix};

use connection_search::{Outcome, Pruning, search_with};
use cop_base::{Ledger, NoMemory, PathLimit};
use logic_rules::{Domains, Logic, Problem};
use matrix_build::{Matrix, MatrixFault, build_matrix};
use std::alloc::Global;
use std::test::Fail;
use term_store::Store;
use test_problems::proving;

// How a search at one limit ends.
#[derive(Clone, Copy, PartialEq, Eq)]
enum End {
    Closed,
    Left,
    Whole,
    Stopped,
}

fn end_of(outcome: Outcome) -> End {
    match outcome {
        Outcome::Closed(_) => End::Closed,
        Outcome::Empty { left: true } => End::Left,
        Outcome::Empty { left: false } => End::Whole,
        Outcome::Steps => End::Stopped,
    }
}

const STEPS: u64 = 3000;

fn searched(
    alloc: Global,
    problem: &Problem,
    matrix: &Matrix,
    limit: PathLimit,
    pruning: Pruning,
) -> Result<(End, u64), MatrixFault>
    requires { IsTemplateMatrix problem.now matrix.now }
{
    let mut store = Store::new(alloc)?;
    let mut ledger = Ledger::new(STEPS);
    let outcome = search_with(
        alloc,
        problem,
        matrix,
        limit,
        &mut ledger,
        &mut store,
        pruning,
    )?;
    Ok((end_of(outcome), ledger.used))
}

const NONE: Pruning = Pruning {
    ahead: false,
    labels: false,
    jumps: false,
};

const AHEAD: Pruning = Pruning {
    ahead: true,
    labels: false,
    jumps: false,
};

const JUMPS: Pruning = Pruning {
    ahead: false,
    labels: false,
    jumps: true,
};

// What was seen: searches that ended both ways, those of them that took fewer steps, and those that
// do not agree.
#[derive(Drop)]
struct Seen {
    ended: u64,
    shorter: u64,
    wrong: u64,
}

impl Seen {
    fn add(&mut self, without: (End, u64), with: (End, u64)) {
        if without.0 == End::Stopped {
            return;
        }
        self.ended = self.ended.wrapping_add(1);
        if with.1 < without.1 {
            self.shorter = self.shorter.wrapping_add(1);
        }
        if with.0 != without.0 || with.1 > without.1 {
            self.wrong = self.wrong.wrapping_add(1);
        }
    }
}

fn compare(alloc: Global, problem: &Problem, seen: &mut Seen) -> Result<(), MatrixFault> {
    let matrix = build_matrix(alloc, problem)?;
    for passed in 0..4 {
        let limit = PathLimit { number: passed + 1 };
        let none = searched(alloc, problem, &matrix, limit, NONE)?;
        let ahead = searched(alloc, problem, &matrix, limit, AHEAD)?;
        let jumps = searched(alloc, problem, &matrix, limit, JUMPS)?;
        let all = searched(alloc, problem, &matrix, limit, Pruning::all())?;
        seen.add(none, ahead);
        seen.add(none, jumps);
        seen.add(ahead, all);
    }
    Ok(())
}

// ---- random clauses

// Numbers in no order that can be seen (Knuth's linear congruential generator).
fn next(seed: &mut u64) -> u64 {
    *seed = seed
        .wrapping_mul(6364136223846793005)
        .wrapping_add(1442695040888963407);
    *seed >> 33
}

fn term(number: u64) -> &'static [u8] {
    match number % 6 {
        0 => b"X",
        1 => b"Y",
        2 => b"a",
        3 => b"b",
        4 => b"f(X)",
        _ => b"f(a)",
    }
}

fn head(number: u64) -> &'static [u8] {
    match number % 6 {
        0 => b"p(",
        1 => b"~p(",
        2 => b"q(",
        3 => b"~q(",
        4 => b"r(",
        _ => b"~r(",
    }
}

fn operator(number: u64) -> &'static [u8] {
    match number % 4 {
        0 => b"#box:",
        1 => b"#dia:",
        _ => b"",
    }
}

fn add_literal(text: &mut Vec<u8>, modal: bool, seed: &mut u64) -> Result<(), NoMemory> {
    if modal {
        text.extend_from_slice(operator(next(seed)))?;
    }
    text.extend_from_slice(head(next(seed)))?;
    text.extend_from_slice(term(next(seed)))?;
    text.push(b')')?;
    Ok(())
}

fn add_clause(text: &mut Vec<u8>, modal: bool, seed: &mut u64) -> Result<(), NoMemory> {
    if modal {
        text.extend_from_slice(operator(next(seed)))?;
    }
    text.extend_from_slice(b"(![X,Y]:(")?;
    add_literal(text, modal, seed)?;
    for _ in 0..next(seed) % 3 {
        text.extend_from_slice(b"|")?;
        add_literal(text, modal, seed)?;
    }
    text.extend_from_slice(b"))")?;
    Ok(())
}

// That some clauses cannot hold together.
fn clauses(alloc: Global, modal: bool, seed: &mut u64) -> Result<Vec<u8>, NoMemory> {
    let mut text = Vec::new(alloc);
    text.extend_from_slice(b"~(")?;
    add_clause(&mut text, modal, seed)?;
    for _ in 0..3 + next(seed) % 5 {
        text.extend_from_slice(b"&")?;
        add_clause(&mut text, modal, seed)?;
    }
    text.push(b')')?;
    Ok(text)
}

fn compare_random(
    alloc: Global,
    logic: Logic,
    domains: Domains,
    seed: &mut u64,
    seen: &mut Seen,
) -> Result<(), Fail> {
    let text = clauses(alloc, logic.is_modal(), seed)?;
    let problem = proving(alloc, logic, domains, text.as_slice())?;
    compare(alloc, &problem, seen)?;
    Ok(())
}

const LOGICS: &[(Logic, Domains)] = &[
    (Logic::Classical, Domains::Constant),
    (Logic::Intuitionistic, Domains::Constant),
    (Logic::D, Domains::Varying),
    (Logic::T, Domains::Cumulative),
    (Logic::S4, Domains::Constant),
    (Logic::S5, Domains::Varying),
];

#[test]
fn answers_do_not_change(rt: HostRuntime) -> Result<(), Fail> {
    let alloc = rt.alloc();
    let mut seed = 1;
    let mut seen = Seen {
        ended: 0,
        shorter: 0,
        wrong: 0,
    };
    for (logic, domains) in LOGICS {
        for _ in 0..12 {
            compare_random(alloc, *logic, *domains, &mut seed, &mut seen)?;
        }
    }
    assert!(rt; seen.wrong == 0);
    assert!(rt; seen.ended > 300 && seen.shorter > 30);
    Ok(())
}

// The goal w(X) fails below s.
const CLAUSES: &[&[u8]] = &[
    b"(![X]:(n(f(X))=>s))",
    b"(![X]:(n(f(X))=>n(X)))",
    b"(![X]:(w(X)=>s))",
    b"(![X,Y]:((u(X,Y)&v(Y))=>w(X)))",
    b"u(a,b)",
    b"u(a,c)",
    b"u(b,c)",
    b"v(d)",
];

// So it does here.
const AGAIN: &[u8] = b"(![X]:((w(X)&u(a,b))=>s))";

fn implied(alloc: Global, more: &[u8]) -> Result<Vec<u8>, NoMemory> {
    let mut text = Vec::new(alloc);
    text.push(b'(')?;
    for clause in CLAUSES {
        text.extend_from_slice(*clause)?;
        text.push(b'&')?;
    }
    text.extend_from_slice(more)?;
    text.extend_from_slice(b")=>s")?;
    Ok(text)
}

// The search at limit 4.
fn searched_with(alloc: Global, more: &[u8], pruning: Pruning) -> Result<(End, u64), Fail> {
    let text = implied(alloc, more)?;
    let problem = proving(alloc, Logic::Classical, Domains::Constant, text.as_slice())?;
    let matrix = build_matrix(alloc, &problem)?;
    let limit = PathLimit { number: 4 };
    let found = searched(alloc, &problem, &matrix, limit, pruning)?;
    Ok(found)
}

#[test]
fn goals_that_failed_are_not_tried_again(rt: HostRuntime) -> Result<(), Fail> {
    let alloc = rt.alloc();
    let once = searched_with(alloc, b"v(d)", Pruning::all())?;
    let twice = searched_with(alloc, AGAIN, Pruning::all())?;
    assert!(rt; once.0 == End::Left && twice.0 == End::Left);
    assert!(rt; twice.1 <= once.1);
    Ok(())
}
