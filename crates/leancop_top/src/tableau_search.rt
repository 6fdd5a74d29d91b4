//! The search for a closed tableau of a problem.

ghost use Rattle.std.specs.Prelude.{◌≡◌, ◌-◌, IfOk, IfSome, IsTrue, None};
ghost use Rattle.calculus.specs.Tableaux.{is_closed};
ghost use Rattle.command_line.specs.CommandView.{the_bounds};
ghost use Rattle.leancop_top.specs.SearchView.{searched_as};
ghost use Rattle.leancop_top.specs.TableauSearch.{IsCutMissed, IsLeastCut, IsSearched};
ghost use Rattle.search_theory.specs.Matrix.{IsTemplateMatrix};
ghost use Rattle.tableau_core.specs.Numbered.TableauView.{the_tableau};

use crate::status::Status;
use command_line::Bounds;
use connection_search::{Answer, CutAnswer, deepen, deepen_cut};
use cop_base::{Ledger, NoMemory, PathLimit};
use logic_rules::Problem;
use matrix_build::{Matrix, MatrixFault, build_matrix};
use std::alloc::Global;
use tableau_core::Tableau;

/// A tableau and the path limit within which it is closed, or the status that tells why there is
/// none.
#[derive(Drop)]
pub enum Searched {
    Found { limit: u8, tableau: Tableau },
    Fruitless(Status),
}

// The limit and the tableau that a search finds which does not return to solved goals, where such a
// search is asked for.
fn search_cut(
    alloc: Global,
    problem: &Problem,
    matrix: &Matrix,
    bounds: Bounds,
    ledger: &mut Ledger,
) -> Result<Option<(u8, Tableau)>, NoMemory>
    requires matrix { IsTemplateMatrix problem.now matrix.now }
    requires budget { ledger.old.budget - ledger.old.used ≡ bounds.steps }
    ensures least { IfOk result
        (λ o. IfSome o (λ f. IsLeastCut problem.now (the_bounds bounds) f.0)) }
    ensures closed { IfOk result
        (λ o. IfSome o (λ f. IsTrue (is_closed problem.now f.0 (the_tableau f.1)))) }
    ensures missed { IfOk result (λ o. o ≡ None → IsCutMissed problem.now (the_bounds bounds)) }
{
    let Some(cut) = bounds.cut else {
        return Ok(None);
    };
    let number = cut.number.min(bounds.limit.number);
    let greatest = PathLimit { number };
    match deepen_cut(alloc, problem, matrix, greatest, ledger)? {
        CutAnswer::Closed { limit, tableau } => Ok(Some((limit, tableau))),
        CutAnswer::Open => Ok(None),
        CutAnswer::Steps => Ok(None),
    }
}

// The budget is told where it ended.
fn searched_as(answer: Answer, steps: u64) -> Searched
    ensures { result ≡ searched_as answer steps }
{
    match answer {
        Answer::Closed { limit, tableau } => Searched::Found { limit, tableau },
        Answer::Exhausted { limit } => Searched::Fruitless(Status::Exhausted { limit }),
        Answer::NoTableau { limit } => Searched::Fruitless(Status::NoTableau { limit }),
        Answer::Steps { limit } => Searched::Fruitless(Status::StepsEnded { limit, steps }),
    }
}

/// Builds the matrix and searches the path limits from 1 on; first without returning to solved goals,
/// where that is asked for, with a budget of its own. The matrix is given back here.
pub fn search(alloc: Global, problem: &Problem, bounds: Bounds) -> Result<Searched, NoMemory>
    ensures { IfOk result (λ s. IsSearched problem.now (the_bounds bounds) s) }
{
    let _symbols = problem.symbols(); // tells that it is a problem
    let matrix = match build_matrix(alloc, problem) {
        Ok(matrix) => matrix,
        Err(MatrixFault::TooLarge) => return Ok(Searched::Fruitless(Status::MatrixTooLarge)),
        Err(MatrixFault::NoMemory) => return Err(NoMemory),
    };
    let steps = bounds.steps;
    let mut cut_ledger = Ledger::new(steps);
    if let Some((limit, tableau)) = search_cut(alloc, problem, &matrix, bounds, &mut cut_ledger)? {
        return Ok(Searched::Found { limit, tableau });
    }
    let mut ledger = Ledger::new(steps);
    let answer = deepen(alloc, problem, &matrix, bounds.limit, &mut ledger)?;
    Ok(searched_as(answer, steps))
}
