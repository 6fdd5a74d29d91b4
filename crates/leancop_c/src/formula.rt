//! The canonical formula of a text's problem.

ghost use Rattle.std.specs.Prelude.{◌≡◌, ◌≢◌, Err, IfErr, IfOk, IfSome, List, Some, ℕ};
ghost use Rattle.std.specs.Option.{option_map};
ghost use Rattle.calculus.specs.Text.{formula_text};
ghost use Rattle.leancop_c.specs.Numbers.{setting_numbered};
ghost use Rattle.leancop_c.specs.Told.{Holds, IsCanonical, IsWritten, unread_status};
ghost use Rattle.logic_rules.specs.SettingView.{the_setting};
ghost use Rattle.problem_build.specs.Answers.{the_refusal};

use crate::judging::problem_in;
use crate::room::place;
use crate::settings::setting_of;
use cop_base::NoMemory;
use formula_text::write_formula;
use logic_rules::{Problem, Setting};
use problem_build::BuildFault;
use std::alloc::Global;

fn formula_of(alloc: Global, problem: &Problem) -> Result<Vec<u8>, NoMemory>
    ensures { IfOk result (λ v. v.items ≡ formula_text problem.now.symbols 0 problem.now.formula) }
{
    let mut out = Vec::new(alloc);
    write_formula(&mut out, problem.symbols(), problem.formula())?;
    Ok(out)
}

fn formula_in(alloc: Global, setting: Setting, text: &[u8]) -> Result<Vec<u8>, BuildFault>
    ensures canonical { IfOk result
        (λ v. IsCanonical (Some (the_setting setting)) text.now v.items) }
    ensures refused { IfErr result (λ f. IfSome (the_refusal f)
        (λ r. Holds (Some (the_setting setting)) text.now (Err r))) }
    ensures is_read { (name : List ℕ) → result ≢ Err (BuildFault.Failed name) }
{
    let problem = match problem_in(alloc, setting, text) {
        Ok(problem) => problem,
        Err(fault) => return Err(fault),
    };
    let bytes = formula_of(alloc, &problem)?;
    Ok(bytes)
}

// The status of what is not read.
fn unread_status(fault: BuildFault) -> u32
    requires { (name : List ℕ) → fault ≢ BuildFault.Failed name }
    ensures { result ≡ unread_status (the_refusal fault) }
{
    match fault {
        BuildFault::Missing { .. } => 6,
        BuildFault::InputTooLarge => 4,
        BuildFault::NestingTooDeep => 4,
        BuildFault::FormulaTooLarge => 4,
        BuildFault::TooManySymbols => 4,
        BuildFault::Bad { .. } => 4,
        BuildFault::NoMemory => 7,
        BuildFault::Failed { .. } => unreachable!(),
    }
}

fn place_formula(
    alloc: Global,
    setting: Setting,
    problem: &[u8],
    room: &mut [u8],
    length: &mut u64,
) -> u32
    requires { length.old ≡ 0 }
    ensures { IsWritten (Some (the_setting setting))
        problem.now room.old result room.new length.new }
{
    match formula_in(alloc, setting, problem) {
        Ok(bytes) => {
            place(room, bytes.as_slice());
            *length = bytes.len() as u64;
            0
        }
        Err(fault) => unread_status(fault),
    }
}

fn write_where(
    alloc: Global,
    setting: Option<Setting>,
    problem: &[u8],
    room: &mut [u8],
    length: &mut u64,
) -> u32
    ensures { IsWritten (option_map the_setting setting)
        problem.now room.old result room.new length.new }
{
    *length = 0;
    match setting {
        Some(setting) => place_formula(alloc, setting, problem, room, length),
        None => 5,
    }
}

/// Places the canonical formula of the problem that a text holds. The result is the status.
pub fn write_canonical(
    alloc: Global,
    logic: u32,
    domains: u32,
    problem: &[u8],
    room: &mut [u8],
    length: &mut u64,
) -> u32
    ensures { IsWritten (setting_numbered logic domains)
        problem.now room.old result room.new length.new }
{
    write_where(alloc, setting_of(logic, domains), problem, room, length)
}
