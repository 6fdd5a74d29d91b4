//! Reading what a command works on: its problem, and then what is read beside it.

ghost use Rattle.std.specs.Prelude.{◌≡◌, ◌≤◌, IfOk, Option};
ghost use Rattle.calculus.specs.declared.setting.Logic.TheVariants.{Intuitionistic};
ghost use Rattle.cop_base.specs.Outside.{Files};
ghost use Rattle.cop_base.specs.Reads.{AgreesSince, ReadsOn};
ghost use Rattle.command_line.specs.CommandLine.{asked, in_intuitionistic};
ghost use Rattle.command_line.specs.CommandView.{the_intuitionistic_file, the_problem_file};
ghost use Rattle.logic_rules.specs.SettingView.{the_setting};
ghost use Rattle.leancop_top.specs.Commands.Check.{TranslatedCheckEnds};
ghost use Rattle.leancop_top.specs.Opening.{IsOfBoth, IsOfProblem, MayRead};
ghost use Rattle.leancop_top.specs.Reading.{EndsOn};
ghost use Rattle.leancop_top.specs.Run.{Ends};
ghost use Rattle.leancop_top.specs.Tasks.{
  FileTaskEnds,
  IsFitting,
  IsReady,
  IsTaskCounted,
  LeadsTo,
  ProblemTaskEnds,
};
ghost use Rattle.problem_build.specs.Fetching.{ReadsOnly};

use crate::problem::{Reading, read_intuitionistic, read_problem};
use crate::second_file::{SecondFile, fetch_second};
use crate::status::Status;
use crate::task::{FileTask, ProblemTask, Task};
use crate::translation::{Translation, translate_problem};
use command_line::{Command, IntuitionisticFile, ProblemFile, command_of};
use cop_base::{Library, NoMemory};
use logic_rules::Problem;
use std::alloc::Global;

// What is done with a problem alone.
fn read_alone<L: Library>(
    alloc: Global,
    lib: &mut L,
    file: ProblemFile<'_>,
    task: ProblemTask,
) -> Result<Task, NoMemory>
    ensures same_files { L.holds lib.new ≡ L.holds lib.old }
    ensures more_faults { L.faults lib.old ≤ L.faults lib.new }
    ensures more_misses { L.misses lib.old ≤ L.misses lib.new }
    ensures reads_on { ReadsOn (L.holds lib.old) (L.reads lib.old) (L.reads lib.new) }
    ensures reads_only { (files : Files) → AgreesSince files (L.reads lib.old) (L.reads lib.new)
        → ReadsOnly (IsOfProblem files (the_problem_file file.entry))
        (L.reads lib.old) (L.reads lib.new) }
    ensures ready { IfOk result (λ t. IsReady t) }
    ensures leads { (told : Option Files) → ReadsOn told (L.reads lib.old) (L.reads lib.new)
        → IfOk result (λ t. LeadsTo
        (EndsOn told (the_problem_file file.entry) (λ P. ProblemTaskEnds task P)) t) }
    ensures counted { IfOk result (λ t. IsTaskCounted
        (L.misses lib.old) (L.misses lib.new) (L.faults lib.old) (L.faults lib.new)
        (L.reads lib.new) t) }
{
    match read_problem(alloc, lib, file)? {
        Reading::Read(problem) => Ok(Task::OnProblem { task, problem }),
        Reading::Refused(status) => Ok(Task::Tell(status)),
    }
}

// What is done with a problem and the file of this name.
fn read_second<L: Library>(
    alloc: Global,
    lib: &mut L,
    problem: Problem,
    name: &str,
    task: FileTask,
) -> Result<Task, NoMemory>
    requires { IsFitting task problem.setting }
    ensures same_files { L.holds lib.new ≡ L.holds lib.old }
    ensures more_faults { L.faults lib.old ≤ L.faults lib.new }
    ensures more_misses { L.misses lib.old ≤ L.misses lib.new }
    ensures reads_on { ReadsOn (L.holds lib.old) (L.reads lib.old) (L.reads lib.new) }
    ensures reads_only { ReadsOnly (λ n. n ≡ name.now) (L.reads lib.old) (L.reads lib.new) }
    ensures ready { IfOk result (λ t. IsReady t) }
    ensures leads { (told : Option Files) → ReadsOn told (L.reads lib.old) (L.reads lib.new)
        → IfOk result (λ t. LeadsTo (FileTaskEnds task told problem name.now) t) }
    ensures counted { IfOk result (λ t. IsTaskCounted
        (L.misses lib.old) (L.misses lib.new) (L.faults lib.old) (L.faults lib.new)
        (L.reads lib.new) t) }
{
    match fetch_second(alloc, lib, name)? {
        SecondFile::Fetched(bytes) => Ok(Task::OnFile {
            task,
            problem,
            bytes,
        }),
        SecondFile::NotFetched(status) => Ok(Task::Tell(status)),
    }
}

fn read_both<L: Library>(
    alloc: Global,
    lib: &mut L,
    file: ProblemFile<'_>,
    name: &str,
    task: FileTask,
) -> Result<Task, NoMemory>
    requires { IsFitting task (the_setting file.setting) }
    ensures same_files { L.holds lib.new ≡ L.holds lib.old }
    ensures more_faults { L.faults lib.old ≤ L.faults lib.new }
    ensures more_misses { L.misses lib.old ≤ L.misses lib.new }
    ensures reads_on { ReadsOn (L.holds lib.old) (L.reads lib.old) (L.reads lib.new) }
    ensures reads_only { (files : Files) → AgreesSince files (L.reads lib.old) (L.reads lib.new)
        → ReadsOnly (IsOfBoth files (the_problem_file file.entry) name.now)
        (L.reads lib.old) (L.reads lib.new) }
    ensures ready { IfOk result (λ t. IsReady t) }
    ensures leads { (told : Option Files) → ReadsOn told (L.reads lib.old) (L.reads lib.new)
        → IfOk result (λ t. LeadsTo
        (EndsOn told (the_problem_file file.entry) (λ P. FileTaskEnds task told P name.now)) t) }
    ensures counted { IfOk result (λ t. IsTaskCounted
        (L.misses lib.old) (L.misses lib.new) (L.faults lib.old) (L.faults lib.new)
        (L.reads lib.new) t) }
{
    match read_problem(alloc, lib, file)? {
        Reading::Read(problem) => read_second(alloc, lib, problem, name, task),
        Reading::Refused(status) => Ok(Task::Tell(status)),
    }
}

// The translation is refused before the derivation is fetched.
fn translate_first<L: Library>(
    alloc: Global,
    lib: &mut L,
    problem: Problem,
    name: &str,
) -> Result<Task, NoMemory>
    requires { problem.setting.logic ≡ Intuitionistic }
    ensures same_files { L.holds lib.new ≡ L.holds lib.old }
    ensures more_faults { L.faults lib.old ≤ L.faults lib.new }
    ensures more_misses { L.misses lib.old ≤ L.misses lib.new }
    ensures reads_on { ReadsOn (L.holds lib.old) (L.reads lib.old) (L.reads lib.new) }
    ensures reads_only { ReadsOnly (λ n. n ≡ name.now) (L.reads lib.old) (L.reads lib.new) }
    ensures ready { IfOk result (λ t. IsReady t) }
    ensures leads { (told : Option Files) → ReadsOn told (L.reads lib.old) (L.reads lib.new)
        → IfOk result (λ t. LeadsTo (TranslatedCheckEnds told problem name.now) t) }
    ensures counted { IfOk result (λ t. IsTaskCounted
        (L.misses lib.old) (L.misses lib.new) (L.faults lib.old) (L.faults lib.new)
        (L.reads lib.new) t) }
{
    match translate_problem(alloc, &problem)? {
        Translation::Translated(translated) => {
            read_second(alloc, lib, translated, name, FileTask::Check)
        }
        Translation::Refused(status) => Ok(Task::Tell(status)),
    }
}

fn read_translated<L: Library>(
    alloc: Global,
    lib: &mut L,
    file: IntuitionisticFile<'_>,
    name: &str,
) -> Result<Task, NoMemory>
    ensures same_files { L.holds lib.new ≡ L.holds lib.old }
    ensures more_faults { L.faults lib.old ≤ L.faults lib.new }
    ensures more_misses { L.misses lib.old ≤ L.misses lib.new }
    ensures reads_on { ReadsOn (L.holds lib.old) (L.reads lib.old) (L.reads lib.new) }
    ensures reads_only { (files : Files) → AgreesSince files (L.reads lib.old) (L.reads lib.new)
        → ReadsOnly
        (IsOfBoth files (in_intuitionistic (the_intuitionistic_file file.entry)) name.now)
        (L.reads lib.old) (L.reads lib.new) }
    ensures ready { IfOk result (λ t. IsReady t) }
    ensures leads { (told : Option Files) → ReadsOn told (L.reads lib.old) (L.reads lib.new)
        → IfOk result (λ t. LeadsTo
        (EndsOn told (in_intuitionistic (the_intuitionistic_file file.entry))
        (λ P. TranslatedCheckEnds told P name.now)) t) }
    ensures counted { IfOk result (λ t. IsTaskCounted
        (L.misses lib.old) (L.misses lib.new) (L.faults lib.old) (L.faults lib.new)
        (L.reads lib.new) t) }
{
    match read_intuitionistic(alloc, lib, file)? {
        Reading::Read(problem) => translate_first(alloc, lib, problem, name),
        Reading::Refused(status) => Ok(Task::Tell(status)),
    }
}

/// What the words ask for, with all files read that it asks for. No other function of this crate hands
/// the library to a command.
#[tactic(auto, using(problem_build::proofs::FetchingLaws::only_same))]
pub fn read_task<L: Library>(alloc: Global, words: &[String], lib: &mut L) -> Result<Task, NoMemory>
    ensures same_files { L.holds lib.new ≡ L.holds lib.old }
    ensures more_faults { L.faults lib.old ≤ L.faults lib.new }
    ensures more_misses { L.misses lib.old ≤ L.misses lib.new }
    ensures reads_on { ReadsOn (L.holds lib.old) (L.reads lib.old) (L.reads lib.new) }
    ensures reads_only { (files : Files) → AgreesSince files (L.reads lib.old) (L.reads lib.new)
        → ReadsOnly (MayRead files (asked words.now)) (L.reads lib.old) (L.reads lib.new) }
    ensures ready { IfOk result (λ t. IsReady t) }
    ensures leads { (told : Option Files) → ReadsOn told (L.reads lib.old) (L.reads lib.new)
        → IfOk result (λ t. LeadsTo (Ends told (asked words.now)) t) }
    ensures counted { IfOk result (λ t. IsTaskCounted
        (L.misses lib.old) (L.misses lib.new) (L.faults lib.old) (L.faults lib.new)
        (L.reads lib.new) t) }
{
    match command_of(words) {
        Command::Prove {
            problem,
            bounds,
            version,
        } => read_alone(alloc, lib, problem, ProblemTask::Prove { bounds, version }),
        Command::Check {
            problem,
            derivation,
        } => read_both(alloc, lib, problem, derivation, FileTask::Check),
        Command::CheckTranslated {
            problem,
            derivation,
        } => read_translated(alloc, lib, problem, derivation),
        Command::Transfer {
            problem,
            derivation,
        } => {
            let file = problem.problem_file();
            read_both(alloc, lib, file, derivation, FileTask::Transfer)
        }
        Command::Migrate {
            problem,
            derivation,
        } => read_both(alloc, lib, problem, derivation, FileTask::Migrate),
        Command::Make { problem, bounds } => Ok(Task::Make { problem, bounds }),
        Command::Model {
            problem,
            structure,
            steps,
        } => read_both(alloc, lib, problem, structure, FileTask::Model { steps }),
        Command::Tableau { problem, bounds } => {
            read_alone(alloc, lib, problem, ProblemTask::Tableau { bounds })
        }
        Command::Tcheck { problem, tableau } => {
            read_both(alloc, lib, problem, tableau, FileTask::Tcheck)
        }
        Command::Convert { problem, tableau } => {
            read_both(alloc, lib, problem, tableau, FileTask::Convert)
        }
        Command::Bad { place } => Ok(Task::Tell(Status::BadWords { place })),
    }
}
