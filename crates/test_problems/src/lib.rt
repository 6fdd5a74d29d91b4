//! Problems of texts in TPTP and QMLTP, which the tests above the readers take. No program uses this
//! crate.
#![tactic(auto)]

ghost use Rattle.std.specs.Prelude.{◌≡◌, IfOk};
ghost use Rattle.calculus.specs.Syntax.{setting_of};
ghost use Rattle.logic_rules.specs.SettingView.{the_setting};

use cop_base::{MemLibrary, NoMemory, Text};
use logic_rules::{Domains, Logic, Problem, Setting};
use problem_build::{BuildFault, build};
use std::alloc::Global;

/// The text is not that of a problem, or memory ended.
#[derive(Clone, Copy, Debug)]
pub struct NoProblem;

impl From<NoMemory> for NoProblem {
    fn from(_error: NoMemory) -> NoProblem {
        NoProblem
    }
}

const NAME: &[u8] = b"m.p";

fn library(alloc: Global, text: &[u8]) -> Result<MemLibrary, NoMemory> {
    let mut files = Vec::new(alloc);
    let text = Vec::from_slice(alloc, text)?;
    files.push((Text::new(alloc, NAME)?, text))?;
    MemLibrary::new(alloc, files, Vec::new(alloc))
}

fn built(alloc: Global, setting: Setting, text: &[u8]) -> Result<Problem, BuildFault>
    ensures { IfOk result (λ p. p.setting ≡ the_setting setting) }
{
    let mut library = library(alloc, text)?;
    let name = Text::new(alloc, NAME)?;
    let root = Text::new(alloc, b"")?;
    build(alloc, &mut library, &name, &root, setting)
}

fn boxed(alloc: Global, problem: Problem) -> Result<Box<Problem>, NoMemory>
    ensures { IfOk result (λ p. p.value.setting ≡ problem.setting) }
{
    Ok(Box::new(alloc, problem)?)
}

/// The problem of a file with this text, with the domains that the logic keeps of these. It is boxed
/// because a test that owns a box is cheaper to prove: its drop is one call at each exit.
pub fn problem_of(
    alloc: Global,
    logic: Logic,
    domains: Domains,
    text: &[u8],
) -> Result<Box<Problem>, NoProblem>
    ensures { IfOk result (λ p. p.value.setting ≡ setting_of logic domains) }
{
    match built(alloc, Setting::new(logic, domains), text) {
        Ok(problem) => Ok(boxed(alloc, problem)?),
        Err(_) => Err(NoProblem),
    }
}

// The item that has the formula as its conjecture: in QMLTP for a modal logic, else in TPTP.
fn conjecture(alloc: Global, logic: Logic, formula: &[u8]) -> Result<Vec<u8>, NoMemory> {
    let mut text = Vec::new(alloc);
    if logic.is_modal() {
        text.extend_from_slice(b"qmf(c,conjecture,")?;
    } else {
        text.extend_from_slice(b"fof(c,conjecture,")?;
    }
    text.extend_from_slice(formula)?;
    text.extend_from_slice(b").")?;
    Ok(text)
}

/// The problem of a file that has this formula as its conjecture.
pub fn proving(
    alloc: Global,
    logic: Logic,
    domains: Domains,
    formula: &[u8],
) -> Result<Box<Problem>, NoProblem>
    ensures { IfOk result (λ p. p.value.setting ≡ setting_of logic domains) }
{
    let text = conjecture(alloc, logic, formula)?;
    problem_of(alloc, logic, domains, text.as_slice())
}
