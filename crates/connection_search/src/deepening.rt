//! Deepening on the path limit.

ghost use Rattle.std.specs.Prelude.{◌≡◌, ◌≤◌, ◌-◌, IfOk, true};
ghost use Rattle.search_theory.specs.Matrix.{IsTemplateMatrix};
ghost use Rattle.connection_search.specs.Outcomes.{IfEnded, IsDeepAnswer};

use crate::pruning::Pruning;
use crate::searching::{Outcome, search_sized};
use cop_base::{Ledger, NoMemory, PathLimit};
use logic_rules::Problem;
use matrix_build::Matrix;
use std::alloc::Global;
use tableau_core::{SizedProblem, Tableau};
use term_store::Store;

/// What deepening answers.
#[derive(Drop)]
pub enum Answer {
    /// The least limit within which a tableau is closed, and such a tableau.
    Closed { limit: u8, tableau: Tableau },
    /// No tableau is closed within the greatest limit, and each limit up to it is left.
    Exhausted { limit: u8 },
    /// No tableau is closed within any limit, and this is the first one that is not left.
    NoTableau { limit: u8 },
    /// The budget is used up; this is the last limit that was searched whole, or 0.
    Steps { limit: u8 },
}

// As `deepen`, where the sizes of the problem's parts are known, over one store for all limits.
fn deepen_sized<'a>(
    alloc: Global,
    problem: &'a SizedProblem<'a>,
    matrix: &'a Matrix,
    max_limit: PathLimit,
    ledger: &mut Ledger,
    store: &mut Store,
) -> Result<Answer, NoMemory>
    requires { IsTemplateMatrix problem.now matrix.now }
    ensures answer { IfOk result
        (IsDeepAnswer problem.now max_limit.number (ledger.old.budget - ledger.old.used)) }
    ensures ended { IfOk result (λ a. IfEnded a (ledger.new.used ≡ ledger.new.budget)) }
    ensures rises { ledger.old.used ≤ ledger.new.used }
    ensures budget { ledger.new.budget ≡ ledger.old.budget }
{
    for passed in 0..max_limit.number {
        let number = passed + 1;
        let limit = PathLimit { number };
        match search_sized(alloc, problem, matrix, limit, ledger, store, Pruning::all())? {
            Outcome::Closed(tableau) => {
                return Ok(Answer::Closed {
                    limit: number,
                    tableau,
                });
            }
            Outcome::Steps => return Ok(Answer::Steps { limit: passed }),
            Outcome::Empty { left } => {
                if !left {
                    return Ok(Answer::NoTableau { limit: number });
                }
            }
        }
    }
    Ok(Answer::Exhausted {
        limit: max_limit.number,
    })
}

/// Searches the limits from 1 to `max_limit` (leanCoP's iterative deepening), over the problem's
/// own matrix, with steps as `search_in` uses them. A limit that is not left ends the matter.
pub fn deepen(
    alloc: Global,
    problem: &Problem,
    matrix: &Matrix,
    max_limit: PathLimit,
    ledger: &mut Ledger,
) -> Result<Answer, NoMemory>
    requires { IsTemplateMatrix problem.now matrix.now }
    ensures answer { IfOk result
        (IsDeepAnswer problem.now max_limit.number (ledger.old.budget - ledger.old.used)) }
    ensures ended { IfOk result (λ a. IfEnded a (ledger.new.used ≡ ledger.new.budget)) }
    ensures rises { ledger.old.used ≤ ledger.new.used }
    ensures budget { ledger.new.budget ≡ ledger.old.budget }
{
    let sized = SizedProblem::new(alloc, problem)?;
    let mut store = Store::new(alloc)?;
    deepen_sized(alloc, &sized, matrix, max_limit, ledger, &mut store)
}
