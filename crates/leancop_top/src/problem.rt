//! Reading a problem.

ghost use Rattle.std.specs.Prelude.{◌≡◌, ◌≤◌, IfOk, Option};
ghost use Rattle.calculus.specs.Syntax.{setting_of};
ghost use Rattle.calculus.specs.declared.setting.Domains.TheVariants.{Cumulative};
ghost use Rattle.calculus.specs.declared.setting.Logic.TheVariants.{Intuitionistic};
ghost use Rattle.cop_base.specs.Outside.{Files};
ghost use Rattle.cop_base.specs.Reads.{AgreesSince, ReadsOn};
ghost use Rattle.command_line.specs.CommandLine.{in_intuitionistic};
ghost use Rattle.command_line.specs.CommandView.{the_intuitionistic_file, the_problem_file};
ghost use Rattle.logic_rules.specs.SettingView.{the_setting};
ghost use Rattle.leancop_top.specs.FaultView.{status_of};
ghost use Rattle.leancop_top.specs.Reading.{IsReadIn, IsReading, IsReadingCounted};
ghost use Rattle.problem_build.specs.Fetching.{ReadsOnly};
ghost use Rattle.leancop_top.specs.Opening.{IsOfProblem};

use crate::status::Status;
use command_line::{IntuitionisticFile, ProblemFile};
use cop_base::{Library, NoMemory, Text};
use logic_rules::Problem;
use problem_build::{BuildFault, build};
use std::alloc::Global;

/// A problem, or the status that tells why there is none.
#[derive(Drop)]
pub enum Reading {
    Read(Problem),
    Refused(Status),
}

// Nothing where memory ended.
fn status_of(fault: BuildFault) -> Option<Status>
    ensures { result ≡ status_of fault }
{
    match fault {
        BuildFault::Missing { name } => Some(Status::Missing { name }),
        BuildFault::Failed { name } => Some(Status::ReadFault { name }),
        BuildFault::InputTooLarge => Some(Status::InputTooLarge),
        BuildFault::NestingTooDeep => Some(Status::NestingTooDeep),
        BuildFault::FormulaTooLarge => Some(Status::FormulaTooLarge),
        BuildFault::TooManySymbols => Some(Status::TooManySymbols),
        BuildFault::Bad {
            file,
            offset,
            cause,
        } => Some(Status::BadProblem {
            file,
            offset,
            cause,
        }),
        BuildFault::NoMemory => None,
    }
}

/// The problem that the files hold, or why there is none.
pub fn read_problem<L: Library>(
    alloc: Global,
    lib: &mut L,
    file: ProblemFile<'_>,
) -> Result<Reading, NoMemory>
    ensures same_files { L.holds lib.new ≡ L.holds lib.old }
    ensures more_faults { L.faults lib.old ≤ L.faults lib.new }
    ensures more_misses { L.misses lib.old ≤ L.misses lib.new }
    ensures reads_on { ReadsOn (L.holds lib.old) (L.reads lib.old) (L.reads lib.new) }
    ensures reads_only { (files : Files) → AgreesSince files (L.reads lib.old) (L.reads lib.new)
        → ReadsOnly (IsOfProblem files (the_problem_file file.entry))
        (L.reads lib.old) (L.reads lib.new) }
    ensures reading { (told : Option Files) → ReadsOn told (L.reads lib.old) (L.reads lib.new)
        → IfOk result (λ r. IsReading told (the_problem_file file.entry) r) }
    ensures setting { IfOk result (λ r. IsReadIn (the_setting file.entry.setting) r) }
    ensures counted { IfOk result (λ r. IsReadingCounted
        (L.misses lib.old) (L.misses lib.new) (L.faults lib.old) (L.faults lib.new)
        (L.reads lib.new) r) }
{
    let name = Text::new(alloc, file.name.as_bytes())?;
    let root = Text::new(alloc, file.root.as_bytes())?;
    match build(alloc, lib, &name, &root, file.setting) {
        Ok(problem) => Ok(Reading::Read(problem)),
        Err(fault) => match status_of(fault) {
            Some(status) => Ok(Reading::Refused(status)),
            None => Err(NoMemory),
        },
    }
}

/// The same of a problem of intuitionistic logic.
pub fn read_intuitionistic<L: Library>(
    alloc: Global,
    lib: &mut L,
    file: IntuitionisticFile<'_>,
) -> Result<Reading, NoMemory>
    ensures same_files { L.holds lib.new ≡ L.holds lib.old }
    ensures more_faults { L.faults lib.old ≤ L.faults lib.new }
    ensures more_misses { L.misses lib.old ≤ L.misses lib.new }
    ensures reads_on { ReadsOn (L.holds lib.old) (L.reads lib.old) (L.reads lib.new) }
    ensures reads_only { (files : Files) → AgreesSince files (L.reads lib.old) (L.reads lib.new)
        → ReadsOnly (IsOfProblem files (in_intuitionistic (the_intuitionistic_file file.entry)))
        (L.reads lib.old) (L.reads lib.new) }
    ensures reading { (told : Option Files) → ReadsOn told (L.reads lib.old) (L.reads lib.new)
        → IfOk result (λ r. IsReading told (in_intuitionistic (the_intuitionistic_file file.entry)) r) }
    ensures setting { IfOk result (λ r. IsReadIn (setting_of Intuitionistic Cumulative) r) }
    ensures counted { IfOk result (λ r. IsReadingCounted
        (L.misses lib.old) (L.misses lib.new) (L.faults lib.old) (L.faults lib.new)
        (L.reads lib.new) r) }
{
    read_problem(alloc, lib, file.problem_file())
}
