//! What a search of a problem comes to.

use connection_search::{Answer, CutAnswer, deepen, deepen_cut};
use cop_base::{Ledger, NoMemory, PathLimit};
use logic_rules::Problem;
use matrix_build::{MatrixFault, build_matrix};
use std::alloc::Global;
use tableau_core::is_closed;

/// How a search ends, with the limit that it tells.
#[derive(Clone, Copy, Debug, PartialEq, Eq)]
pub enum End {
    Closed(u8),
    Exhausted(u8),
    NoTableau(u8),
    Steps(u8),
    // without returning to solved goals
    Open,
    Stopped,
}

fn end_of(answer: Answer) -> End {
    match answer {
        Answer::Closed { limit, tableau: _ } => End::Closed(limit),
        Answer::Exhausted { limit } => End::Exhausted(limit),
        Answer::NoTableau { limit } => End::NoTableau(limit),
        Answer::Steps { limit } => End::Steps(limit),
    }
}

fn cut_end_of(answer: CutAnswer) -> End {
    match answer {
        CutAnswer::Closed { limit, tableau: _ } => End::Closed(limit),
        CutAnswer::Open => End::Open,
        CutAnswer::Steps => End::Stopped,
    }
}

/// What deepening up to limit 10 comes to, and with how many steps.
pub fn deepened(alloc: Global, problem: &Problem, budget: u64) -> Result<(End, u64), MatrixFault> {
    let matrix = build_matrix(alloc, problem)?;
    let mut ledger = Ledger::new(budget);
    let limit = PathLimit { number: 10 };
    let answer = deepen(alloc, problem, &matrix, limit, &mut ledger)?;
    Ok((end_of(answer), ledger.used))
}

// Whether a tableau is answered that is closed within the limit told.
fn is_closed_by(alloc: Global, problem: &Problem, answer: Answer) -> Result<bool, NoMemory> {
    match answer {
        Answer::Closed { limit, tableau } => is_closed(alloc, problem, &tableau, limit),
        _ => Ok(false),
    }
}

/// Whether deepening up to limit 10 answers a tableau that is closed within the limit told.
pub fn is_proved(alloc: Global, problem: &Problem, budget: u64) -> Result<bool, MatrixFault> {
    let matrix = build_matrix(alloc, problem)?;
    let mut ledger = Ledger::new(budget);
    let limit = PathLimit { number: 10 };
    let answer = deepen(alloc, problem, &matrix, limit, &mut ledger)?;
    let closed = is_closed_by(alloc, problem, answer)?;
    Ok(closed)
}

/// As `deepened`, without returning to solved goals, up to this limit.
pub fn cut(
    alloc: Global,
    problem: &Problem,
    limit: PathLimit,
    budget: u64,
) -> Result<(End, u64), MatrixFault> {
    let matrix = build_matrix(alloc, problem)?;
    let mut ledger = Ledger::new(budget);
    let answer = deepen_cut(alloc, problem, &matrix, limit, &mut ledger)?;
    Ok((cut_end_of(answer), ledger.used))
}
