//! `prove FILE`: the derivation of a problem.

ghost use Rattle.std.specs.Prelude.{◌≡◌, IfOk, IsTrue, List, ℕ};
ghost use Rattle.calculus.specs.DerivationText.{is_limit};
ghost use Rattle.calculus.specs.Tableaux.{is_closed};
ghost use Rattle.cop_base.specs.Reads.{Read};
ghost use Rattle.command_line.specs.CommandView.{the_bounds};
ghost use Rattle.leancop_top.specs.Commands.Prove.{ProveEnds};
ghost use Rattle.leancop_top.specs.Derived.{IsTrimmed, IsTrimmedDerivation};
ghost use Rattle.leancop_top.specs.Statuses.{IsCounted};
ghost use Rattle.sequent_convert.specs.Conversion.{IsConverted};
ghost use Rattle.sequent_calc.specs.DerivationView.{the_derivation};
ghost use Rattle.tableau_core.specs.Numbered.TableauView.{the_tableau};

use crate::reply::{Reply, line_reply};
use crate::status::Status;
use crate::tableau_search::{Searched, search};
use command_line::Bounds;
use cop_base::NoMemory;
use derivation_text::{Version, print};
use derivation_trim::trim;
use logic_rules::Problem;
use sequent_calc::Derivation;
use sequent_convert::convert;
use std::alloc::Global;
use tableau_core::Tableau;

// Gives the tableau back, which may be large, before the derivation is printed.
fn derive(
    alloc: Global,
    problem: &Problem,
    tableau: Tableau,
    limit: u8,
) -> Result<Derivation, NoMemory>
    requires closed { IsTrue (is_closed problem.now limit (the_tableau tableau)) }
    requires limit { IsTrue (is_limit limit) }
    ensures { IfOk result (λ d. IsConverted problem.now limit (the_derivation d)) }
{
    convert(alloc, problem, &tableau, limit)
}

// Lets the derivation go, which may be large, before the one without idle steps is printed.
fn derive_trimmed(
    alloc: Global,
    problem: &Problem,
    tableau: Tableau,
    limit: u8,
) -> Result<Derivation, NoMemory>
    requires closed { IsTrue (is_closed problem.now limit (the_tableau tableau)) }
    requires limit { IsTrue (is_limit limit) }
    ensures { IfOk result (λ d. IsTrimmed problem.now limit (the_derivation d)) }
{
    let derivation = derive(alloc, problem, tableau, limit)?;
    let trimmed = trim(alloc, problem, &derivation)?;
    Ok(trimmed)
}

/// The text of this version of the derivation to which the tableau leads, without its idle steps.
pub fn derivation_text(
    alloc: Global,
    problem: &Problem,
    tableau: Tableau,
    limit: u8,
    version: Version,
) -> Result<Vec<u8>, NoMemory>
    requires closed { IsTrue (is_closed problem.now limit (the_tableau tableau)) }
    requires limit { IsTrue (is_limit limit) }
    ensures { IfOk result (λ text. IsTrimmedDerivation version problem.now limit text.items) }
{
    let derivation = derive_trimmed(alloc, problem, tableau, limit)?;
    let text = print(alloc, problem, &derivation, version)?;
    let _symbols = problem.symbols(); // tells that it is a problem
    Ok(text)
}

// What is told of a derivation that is printed.
fn derived(limit: u8, output: Vec<u8>) -> Reply
    ensures status { result.status ≡ Status.Derived limit }
    ensures output { result.output.items ≡ output.items }
{
    Reply {
        status: Status::Derived { limit },
        output,
    }
}

/// The derivation, or how the search ends.
pub fn prove(
    alloc: Global,
    problem: &Problem,
    bounds: Bounds,
    version: Version,
) -> Result<Reply, NoMemory>
    ensures ends { IfOk result
        (λ r. ProveEnds problem.now (the_bounds bounds) version r.status r.output.items) }
    ensures counted { (m n f g : ℕ) (after : List Read) → IfOk result (λ r. IsCounted m n f g after r.status) }
{
    match search(alloc, problem, bounds)? {
        Searched::Found { limit, tableau } => {
            let output = derivation_text(alloc, problem, tableau, limit, version)?;
            Ok(derived(limit, output))
        }
        Searched::Fruitless(status) => line_reply(alloc, status),
    }
}
