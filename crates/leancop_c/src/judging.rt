//! A text as a problem, and the judgement of another as a derivation of it.

ghost use Rattle.std.specs.Prelude.{◌≡◌, ◌≢◌, ◌∷◌, [], Err, IfSome, List, Some, ℕ};
ghost use Rattle.std.specs.Option.{option_map};
ghost use Rattle.leancop_c.specs.GivenFiles.{files_of};
ghost use Rattle.leancop_c.specs.Judging.{IsJudged};
ghost use Rattle.leancop_c.specs.Numbers.{setting_numbered};
ghost use Rattle.leancop_c.specs.Told.{Holds, IsTold, alone, status_alone, unread_told, zeros};
ghost use Rattle.logic_rules.specs.SettingView.{the_setting};
ghost use Rattle.problem_build.specs.Answers.{the_answer, the_refusal};

use crate::faults::{cause_number, fault_number};
use crate::files::GivenFiles;
use crate::settings::setting_of;
use crate::{LeancopBytes, LeancopFile, LeancopJudgement};
use cop_base::{NoMemory, ReadRecord, Text};
use derivation_check::{Verdict, check};
use logic_rules::{Problem, Setting};
use problem_build::{BuildFault, build};
use std::alloc::Global;
use std::slice;

// Where no place is told.
const NO_PLACE: u64 = u64::MAX;

// The text as the only file, with the empty name.
fn file_of<'a>(text: &'a [u8]) -> LeancopFile<'a>
    ensures { files_of (result ∷ []) ≡ alone text.now }
{
    LeancopFile {
        name: LeancopBytes { bytes: &text[..0] },
        bytes: LeancopBytes { bytes: text },
    }
}

// The problem of the file with the empty name. No file fails to be read.
fn problem_among(
    alloc: Global,
    files: &[LeancopFile<'_>],
    setting: Setting,
) -> Result<Problem, BuildFault>
    ensures held { IfSome (the_answer result) (λ r. (text : List ℕ) → files_of files.now ≡ alone text
        → Holds (Some (the_setting setting)) text r) }
    ensures is_read { (name : List ℕ) → result ≢ Err (BuildFault.Failed name) }
{
    let name = Text::new(alloc, b"")?;
    let root = Text::new(alloc, b"")?;
    let mut library = GivenFiles {
        alloc,
        files,
        misses: 0,
        history: ReadRecord::new(),
    };
    build(alloc, &mut library, &name, &root, setting)
}

/// The problem that a text holds.
pub fn problem_in(alloc: Global, setting: Setting, text: &[u8]) -> Result<Problem, BuildFault>
    ensures held { IfSome (the_answer result) (λ r. Holds (Some (the_setting setting)) text.now r) }
    ensures is_read { (name : List ℕ) → result ≢ Err (BuildFault.Failed name) }
{
    let file = file_of(text);
    problem_among(alloc, slice::from_ref(&file), setting)
}

// A status without a fault and without a place.
fn status_alone(status: u32) -> LeancopJudgement
    ensures { result ≡ status_alone status }
{
    LeancopJudgement {
        status,
        fault: 0,
        line: 0,
        offset: NO_PLACE,
        reserved: [0; 4],
    }
}

// A refusal of the problem.
fn refused(fault: u32, offset: u64) -> LeancopJudgement
    ensures { result ≡ record {
      status = 4;
      fault = fault;
      line = 0;
      offset = offset;
      reserved = zeros;
    } }
{
    LeancopJudgement {
        status: 4,
        fault,
        line: 0,
        offset,
        reserved: [0; 4],
    }
}

// Why there is no problem.
fn unread_told(fault: BuildFault) -> LeancopJudgement
    requires { (name : List ℕ) → fault ≢ BuildFault.Failed name }
    ensures { result ≡ unread_told (the_refusal fault) }
{
    match fault {
        BuildFault::Missing { .. } => status_alone(6),
        BuildFault::InputTooLarge => refused(10, NO_PLACE),
        BuildFault::NestingTooDeep => refused(11, NO_PLACE),
        BuildFault::FormulaTooLarge => refused(12, NO_PLACE),
        BuildFault::TooManySymbols => refused(13, NO_PLACE),
        BuildFault::Bad { offset, cause, .. } => refused(cause_number(cause), offset),
        BuildFault::NoMemory => status_alone(7),
        BuildFault::Failed { .. } => unreachable!(),
    }
}

// The judgement of a derivation of the problem.
fn judge(alloc: Global, problem: &Problem, derivation: &[u8]) -> LeancopJudgement
    ensures { IsJudged problem.now derivation.now result }
{
    let _symbols = problem.symbols(); // tells that it is a problem
    match check(alloc, problem, derivation) {
        Ok(Verdict::Accepted) => status_alone(0),
        Ok(Verdict::Rejected { line, fault }) => LeancopJudgement {
            status: 8,
            fault: fault_number(fault),
            line,
            offset: NO_PLACE,
            reserved: [0; 4],
        },
        Err(NoMemory) => status_alone(7),
    }
}

fn judge_in(alloc: Global, setting: Setting, problem: &[u8], derivation: &[u8]) -> LeancopJudgement
    ensures { IsTold (Some (the_setting setting)) problem.now derivation.now result }
{
    match problem_in(alloc, setting, problem) {
        Ok(read) => judge(alloc, &read, derivation),
        Err(fault) => unread_told(fault),
    }
}

fn judge_where(
    alloc: Global,
    setting: Option<Setting>,
    problem: &[u8],
    derivation: &[u8],
) -> LeancopJudgement
    ensures { IsTold (option_map the_setting setting) problem.now derivation.now result }
{
    match setting {
        Some(setting) => judge_in(alloc, setting, problem, derivation),
        None => status_alone(5),
    }
}

/// The judgement of a derivation of the problem that a text holds.
pub fn judge_texts(
    alloc: Global,
    logic: u32,
    domains: u32,
    problem: &[u8],
    derivation: &[u8],
) -> LeancopJudgement
    ensures { IsTold (setting_numbered logic domains) problem.now derivation.now result }
{
    judge_where(alloc, setting_of(logic, domains), problem, derivation)
}
