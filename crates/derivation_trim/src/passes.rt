//! How each step of a derivation goes on, found by the signs and the formulas of the branch alone.

ghost use Rattle.std.specs.Option.{option_map};
ghost use Rattle.std.specs.Prelude.{◌≡◌, ◌++◌, ◌∷◌, [], Bool, Some, false, length, map, option_copied, reverse};
ghost use Rattle.std.specs.Prelude.{IfOk};
ghost use Rattle.calculus.specs.Kinds as kinds;
ghost use Rattle.derivation_trim.specs.BranchView.{the_bare, the_branch, the_waiting};
ghost use Rattle.sequent_calc.specs.StepView.{the_step};
ghost use Rattle.trim_theory.specs.Found.{passes_in};
ghost use Rattle.trim_theory.specs.Marking as marking;
ghost use Rattle.trim_theory.specs.Reading.{Later, bare_entry, by_next, by_step, next_of, passes_of, resumed};

use cop_base::NoMemory;
use formula_core::{Components, Sign, Signed};
use label_table::place_of;
use logic_rules::Problem;
use sequent_calc::Step;
use std::alloc::Global;
use trim_theory::pass::{Pass, Way};

// The branch has the formulas as they stand in the problem, with variables in place of the terms
// that were put for them. For each right side that is still to come `forks` has the length of the
// branch before it and its first formula.

/// The formula of the entry of this number, from 1.
#[tactic(auto, using(crate::proofs::PassLaws::entries))]
pub fn formula_at<'a>(branch: &[Signed<'a>], number: u32) -> Option<Signed<'a>>
    ensures { option_map the_bare result ≡ bare_entry (map the_bare branch.now) number }
{
    if number == 0 {
        return None;
    }
    let place = number as usize - 1;
    if place >= branch.len() {
        return None;
    }
    Some(branch[place])
}

// What stands on the branch after a step on a formula, and how the step goes on.
fn grow<'a>(
    branch: &mut Vec<Signed<'a>>,
    forks: &mut Vec<(usize, Signed<'a>)>,
    number: u32,
    used: Signed<'a>,
) -> Result<Way, NoMemory>
    ensures { (b : Bool) (go : Later) → IfOk result (λ way. by_next b
        (the_branch branch.old.items) (the_waiting forks.old.items) number
        (next_of (Some (the_bare used.entry))) go
        ≡ marking.pass (length branch.old.items) way b
        ∷ go false (the_branch branch.new.items) (the_waiting forks.new.items)) }
{
    match used.formula.components(used.sign) {
        Components::Literal(_, _) => {
            branch.push(used)?;
            Ok(Way::Adds(number, 1))
        }
        Components::One(a) | Components::Gamma(a) | Components::Delta(a) => {
            branch.push(a)?;
            Ok(Way::Adds(number, 1))
        }
        Components::Alpha(a, b) => {
            branch.push(a)?;
            branch.push(b)?;
            Ok(Way::Adds(number, 2))
        }
        Components::Beta(a, b) => {
            forks.push((branch.len(), b))?;
            branch.push(a)?;
            Ok(Way::Forks(number))
        }
    }
}

// Goes to the next right side, if there is one.
fn resume<'a>(
    branch: &mut Vec<Signed<'a>>,
    forks: &mut Vec<(usize, Signed<'a>)>,
) -> Result<bool, NoMemory>
    ensures { (go : Later) → IfOk result (λ starts.
        resumed (the_branch branch.old.items) (the_waiting forks.old.items) go
        ≡ go starts (the_branch branch.new.items) (the_waiting forks.new.items)) }
{
    match forks.pop() {
        Some((length, first)) => {
            branch.truncate(length);
            branch.push(first)?;
            Ok(true)
        }
        None => Ok(false),
    }
}

// How a step goes on, and whether the next one is the first one of a right side.
fn read<'a>(
    branch: &mut Vec<Signed<'a>>,
    forks: &mut Vec<(usize, Signed<'a>)>,
    step: &Step,
) -> Result<(Way, bool), NoMemory>
    ensures { (b : Bool) (go : Later) → IfOk result (λ r. by_step b
        (the_branch branch.old.items) (the_waiting forks.old.items) (the_step step.now) go
        ≡ marking.pass (length branch.old.items) r.0 b
        ∷ go r.1 (the_branch branch.new.items) (the_waiting forks.new.items)) }
{
    match step {
        Step::Use { entry, .. } => match formula_at(branch, *entry) {
            Some(used) => {
                let way = grow(branch, forks, *entry, used)?;
                Ok((way, false))
            }
            None => Ok((Way::Adds(*entry, 0), false)),
        },
        Step::Axiom { given, shown } => {
            let starts_right = resume(branch, forks)?;
            Ok((Way::Ends(*given, *shown), starts_right))
        }
    }
}

/// The passes of the steps of a derivation of the problem.
pub fn passes(alloc: Global, problem: &Problem, steps: &[Step]) -> Result<Vec<Pass>, NoMemory>
    ensures { IfOk result (λ ps. ps.items ≡ passes_in problem.now (map the_step steps.now)) }
{
    let mut branch = Vec::new(alloc);
    let mut forks = Vec::new(alloc);
    let mut passes = Vec::new(alloc);
    let mut starts_right = false;
    branch.push(Signed {
        sign: Sign::F,
        formula: problem.formula(),
    })?;
    for step in steps {
        let before = place_of(branch.len())?;
        let next = read(&mut branch, &mut forks, step)?;
        passes.push(Pass {
            before,
            way: next.0,
            starts_right,
        })?;
        starts_right = next.1;
    }
    Ok(passes)
}
