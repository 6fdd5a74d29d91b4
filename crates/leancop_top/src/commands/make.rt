//! `make FAMILY N`: a problem that is generated, proved and checked in memory.

ghost use Rattle.std.specs.Prelude.{◌≡◌, ℕ, IfOk, IsTrue, List};
ghost use Rattle.calculus.specs.DerivationText.{is_limit};
ghost use Rattle.calculus.specs.declared.version.Version.TheVariants.{One};
ghost use Rattle.calculus.specs.Tableaux.{is_closed};
ghost use Rattle.command_line.specs.CommandLine as words;
ghost use Rattle.command_line.specs.CommandView.{the_bounds, the_generated_problem};
ghost use Rattle.leancop_top.specs.Commands.Make.{IsMade, MakeEnds, made_text, output_of};
ghost use Rattle.cop_base.specs.Reads.{Read};
ghost use Rattle.leancop_top.specs.Derived.{IsTrimmedDerivation};
ghost use Rattle.leancop_top.specs.Statuses.{IsCounted};
ghost use Rattle.tableau_core.specs.Numbered.TableauView.{the_tableau};

use crate::commands::prove::derivation_text;
use crate::made_lines::made_output;
use crate::problem::{Reading, read_problem};
use crate::reply::Reply;
use crate::status::Status;
use crate::tableau_search::{Searched, search};
use crate::text_library::TextLibrary;
use command_line::{Bounds, GeneratedProblem, ProblemFile};
use cop_base::{NoMemory, ReadRecord, Text};
use derivation_check::Verdict;
use derivation_text::Version;
use logic_rules::Problem;
use std::alloc::Global;
use tableau_core::Tableau;

// The name by which the text is read.
const MAIN: &str = "m.p";

// Prints a derivation to memory, which the checker accepts.
fn accept(alloc: Global, problem: &Problem, tableau: Tableau, limit: u8) -> Result<(), NoMemory>
    requires closed { IsTrue (is_closed problem.now limit (the_tableau tableau)) }
    requires limit { IsTrue (is_limit limit) }
    ensures { IfOk result (λ _. (text : List ℕ) × IsTrimmedDerivation One problem.now limit text) }
{
    let text = derivation_text(alloc, problem, tableau, limit, Version::One)?;
    match derivation_check::check(alloc, problem, text.as_slice())? {
        Verdict::Accepted => Ok(()),
        Verdict::Rejected { .. } => unreachable!(),
    }
}

fn prove_made(alloc: Global, problem: &Problem, bounds: Bounds) -> Result<Status, NoMemory>
    ensures { (g : words.GeneratedProblem) → IsMade g problem.now
        → IfOk result (λ s. MakeEnds g (the_bounds bounds) s (output_of g s)) }
{
    match search(alloc, problem, bounds)? {
        Searched::Found { limit, tableau } => {
            accept(alloc, problem, tableau, limit)?;
            Ok(Status::Derived { limit })
        }
        Searched::Fruitless(status) => Ok(status),
    }
}

fn status_of_text(
    alloc: Global,
    generated: GeneratedProblem,
    text: Vec<u8>,
    bounds: Bounds,
) -> Result<Status, NoMemory>
    requires { text.items ≡ made_text (the_generated_problem generated) }
    ensures { IfOk result (λ s. MakeEnds (the_generated_problem generated) (the_bounds bounds) s
        (output_of (the_generated_problem generated) s)) }
{
    let name = Text::new(alloc, MAIN.as_bytes())?;
    let mut library = TextLibrary {
        alloc,
        name,
        text,
        misses: 0,
        history: ReadRecord::new(),
    };
    let file = ProblemFile {
        name: MAIN,
        root: "",
        setting: generated.setting,
    };
    match read_problem(alloc, &mut library, file)? {
        Reading::Read(problem) => prove_made(alloc, &problem, bounds),
        Reading::Refused(status) => Ok(status),
    }
}

/// Makes the text, reads it from memory, searches, and has a derivation that is printed to memory
/// accepted. No file is read.
pub fn make(alloc: Global, generated: GeneratedProblem, bounds: Bounds) -> Result<Reply, NoMemory>
    ensures ends { IfOk result (λ r. MakeEnds (the_generated_problem generated) (the_bounds bounds)
        r.status r.output.items) }
    ensures counted { (m n f g : ℕ) (after : List Read) → IfOk result (λ r. IsCounted m n f g after r.status) }
{
    let text = problem_gen::make(
        alloc,
        generated.family,
        generated.size,
        generated.setting.logic(),
    )?;
    let length = text.len() as u64;
    let status = status_of_text(alloc, generated, text, bounds)?;
    let output = made_output(alloc, generated.family, generated.size, length, &status)?;
    Ok(Reply { status, output })
}
