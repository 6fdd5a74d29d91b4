//! What a run answers.

ghost use Rattle.std.specs.Prelude.{◌≡◌, ◌≤◌, IfOk};
ghost use Rattle.cop_base.specs.Outside.{Files};
ghost use Rattle.cop_base.specs.Reads.{AgreesSince};
ghost use Rattle.command_line.specs.CommandLine as given;
ghost use Rattle.command_line.specs.CommandView.{the_problem_file};
ghost use Rattle.leancop_find.specs.Finding.{IsFoundFor};
ghost use Rattle.tableau_finder.specs.Found.{IsFoundText};

use crate::words::Words;
use command_line::{Command, ProblemFile, command_of};
use cop_base::{Library, NoMemory, Text};
use logic_rules::Problem;
use problem_build::{BuildFault, build};
use std::alloc::Global;
use tableau_finder::{Bounds, FindFault, find};

const USAGE: &[u8] =
    b"usage: leancop_find FILE [--logic=L] [--domains=D] [--root=DIR] [--limit=N] [--steps=N] [--strategy=1..9]";

/// What is written, and the exit status: 0 for a tableau, 3 where nothing is found, 4 for a problem that is bad or
/// too large, 5 for a bad word, 6 where reading or writing fails, 7 at the end of memory.
#[derive(Drop)]
pub struct FindAnswer {
    pub output: Vec<u8>,
    pub code: u8,
}

fn line(alloc: Global, text: &[u8], name: &[u8], code: u8) -> Result<FindAnswer, NoMemory>
    ensures { IfOk result (λ a. a.code ≡ code) }
{
    let mut output = Vec::new(alloc);
    output.extend_from_slice(text)?;
    output.extend_from_slice(name)?;
    output.push(b'\n')?;
    Ok(FindAnswer { output, code })
}

fn usage(alloc: Global) -> Result<FindAnswer, NoMemory>
    ensures { IfOk result (λ a. a.code ≡ 5) }
{
    line(alloc, USAGE, b"", 5)
}

// Why there is no problem.
fn refusal(alloc: Global, fault: BuildFault) -> Result<FindAnswer, NoMemory>
    ensures { IfOk result (λ a. 4 ≤ a.code) }
{
    match fault {
        BuildFault::Missing { name } => line(alloc, b"missing: ", name.bytes(), 6),
        BuildFault::Failed { name } => line(alloc, b"read fault: ", name.bytes(), 6),
        BuildFault::Bad { file, .. } => line(alloc, b"bad problem: ", file.bytes(), 4),
        BuildFault::InputTooLarge
        | BuildFault::NestingTooDeep
        | BuildFault::FormulaTooLarge
        | BuildFault::TooManySymbols => line(alloc, b"too large", b"", 4),
        BuildFault::NoMemory => Err(NoMemory),
    }
}

// What is found for a problem.
fn found(alloc: Global, problem: &Problem, bounds: Bounds) -> Result<FindAnswer, NoMemory>
    ensures { IfOk result (λ a. a.code ≡ 0 → IsFoundText problem.now a.output.items) }
{
    match find(alloc, problem, bounds) {
        Ok(Some(output)) => Ok(FindAnswer { output, code: 0 }),
        Ok(None) => line(alloc, b"nothing found", b"", 3),
        Err(FindFault::TooLarge) => line(alloc, b"matrix too large", b"", 4),
        Err(FindFault::NoMemory) => Err(NoMemory),
    }
}

fn read_and_find<L: Library>(
    alloc: Global,
    lib: &mut L,
    file: ProblemFile<'_>,
    bounds: Bounds,
) -> Result<FindAnswer, NoMemory>
    ensures { IfOk result (λ a. a.code ≡ 0 → (files : Files)
        → AgreesSince files (L.reads lib.old) (L.reads lib.new)
        → IsFoundFor files (the_problem_file file.entry) a.output.items) }
{
    let name = Text::new(alloc, file.name.as_bytes())?;
    let root = Text::new(alloc, file.root.as_bytes())?;
    match build(alloc, lib, &name, &root, file.setting) {
        Ok(problem) => found(alloc, &problem, bounds),
        Err(fault) => refusal(alloc, fault),
    }
}

/// The answer of a run. Where its exit status is 0 it is the text of a closed tableau of the problem that the files hold,
/// whatever files agree with what was read.
pub fn answer_words<L: Library>(
    alloc: Global,
    words: &Words,
    lib: &mut L,
) -> Result<FindAnswer, NoMemory>
    ensures found { IfOk result (λ a. a.code ≡ 0 → (files : Files)
        → AgreesSince files (L.reads lib.old) (L.reads lib.new)
        → (p : given.ProblemFile) × (b : given.Bounds)
        × (given.asked words.now.words.items ≡ given.tableau p b)
        × IsFoundFor files p a.output.items) }
{
    match command_of(words.words.as_slice()) {
        Command::Tableau { problem, bounds } => {
            let bounds = Bounds {
                limit: bounds.limit,
                steps: bounds.steps,
                strategy: words.strategy,
            };
            read_and_find(alloc, lib, problem, bounds)
        }
        Command::Prove {
            problem: _problem,
            bounds: _bounds,
            version: _version,
        } => usage(alloc),
        Command::Check {
            problem: _problem,
            derivation: _derivation,
        } => usage(alloc),
        Command::CheckTranslated {
            problem: _problem,
            derivation: _derivation,
        } => usage(alloc),
        Command::Transfer {
            problem: _problem,
            derivation: _derivation,
        } => usage(alloc),
        Command::Migrate {
            problem: _problem,
            derivation: _derivation,
        } => usage(alloc),
        Command::Make {
            problem: _problem,
            bounds: _bounds,
        } => usage(alloc),
        Command::Model {
            problem: _problem,
            structure: _structure,
            steps: _steps,
        } => usage(alloc),
        Command::Tcheck {
            problem: _problem,
            tableau: _tableau,
        } => usage(alloc),
        Command::Convert {
            problem: _problem,
            tableau: _tableau,
        } => usage(alloc),
        Command::Bad { place: _place } => usage(alloc),
    }
}
