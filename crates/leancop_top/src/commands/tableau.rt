//! `tableau FILE`: the tableau of a problem.

ghost use Rattle.std.specs.Prelude.{◌≡◌, IfOk, IsTrue, List, ℕ};
ghost use Rattle.calculus.specs.DerivationText.{is_limit};
ghost use Rattle.calculus.specs.Tableaux.{is_closed};
ghost use Rattle.cop_base.specs.Reads.{Read};
ghost use Rattle.command_line.specs.CommandView.{the_bounds};
ghost use Rattle.leancop_top.specs.Commands.Tableau.{TableauEnds};
ghost use Rattle.leancop_top.specs.Statuses.{IsCounted};
ghost use Rattle.leancop_top.specs.TableauTexts.{IsTableau};
ghost use Rattle.tableau_core.specs.Numbered.TableauView.{the_tableau};

use crate::reply::{Reply, line_reply};
use crate::status::Status;
use crate::tableau_search::{Searched, search};
use command_line::Bounds;
use cop_base::NoMemory;
use logic_rules::Problem;
use std::alloc::Global;
use tableau_cert::print_tableau;
use tableau_core::Tableau;

// The text of the tableau, which may be large and is given back here.
fn tableau_text(
    alloc: Global,
    problem: &Problem,
    found: Tableau,
    limit: u8,
) -> Result<Vec<u8>, NoMemory>
    requires closed { IsTrue (is_closed problem.now limit (the_tableau found)) }
    requires limit { IsTrue (is_limit limit) }
    ensures { IfOk result (λ text. IsTableau problem.now (the_tableau found) limit text.items) }
{
    let text = print_tableau(alloc, problem, &found, limit)?;
    let _symbols = problem.symbols(); // tells that it is a problem
    Ok(text)
}

/// The search is that of `prove`.
pub fn tableau(alloc: Global, problem: &Problem, bounds: Bounds) -> Result<Reply, NoMemory>
    ensures ends { IfOk result
        (λ r. TableauEnds problem.now (the_bounds bounds) r.status r.output.items) }
    ensures counted { (m n f g : ℕ) (after : List Read) → IfOk result (λ r. IsCounted m n f g after r.status) }
{
    match search(alloc, problem, bounds)? {
        Searched::Found { limit, tableau } => {
            let output = tableau_text(alloc, problem, tableau, limit)?;
            Ok(Reply {
                status: Status::TableauFound { limit },
                output,
            })
        }
        Searched::Fruitless(status) => line_reply(alloc, status),
    }
}
