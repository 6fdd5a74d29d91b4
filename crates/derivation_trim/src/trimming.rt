ghost use Rattle.std.specs.Prelude.{◌≡◌, IfOk, map};
ghost use Rattle.calculus.specs.Calculus.{Derives};
ghost use Rattle.sequent_calc.specs.DerivationView.{the_derivation};
ghost use Rattle.sequent_calc.specs.StepView.{the_step};
ghost use Rattle.trim_theory.specs.Found.{MayReplace, steps_left};
ghost use Rattle.trim_theory.specs.Trims.{IsTrimOf};

use crate::mentioned::names_in;
use crate::passes::passes;
use crate::sharing::shared;
use crate::writing::write;
use cop_base::NoMemory;
use logic_rules::Problem;
use sequent_calc::{Derivation, Step, StepList};
use std::alloc::Global;
use trim_marks::marks;

fn trim_steps(alloc: Global, problem: &Problem, steps: &[Step]) -> Result<StepList, NoMemory>
    ensures { IfOk result (λ left. left ≡ steps_left problem.now (map the_step steps.now)) }
{
    let passes = passes(alloc, problem, steps)?;
    let marks = marks(alloc, passes)?;
    let left = write(alloc, steps, marks)?;
    Ok(left)
}

// The steps with those made once that several branches make, where that leaves fewer.
fn share_steps(alloc: Global, problem: &Problem, steps: StepList) -> Result<StepList, NoMemory>
    ensures { IfOk result (λ fewer. MayReplace problem.now steps fewer) }
{
    let Some(edited) = shared(alloc, problem, steps.items())? else {
        return Ok(steps);
    };
    let left = trim_steps(alloc, problem, edited.items())?;
    if left.items().len() < steps.items().len() {
        Ok(left)
    } else {
        Ok(steps)
    }
}

/// The derivation without idle steps, with steps made once that several branches make on one entry,
/// and without names that its steps do not mention. It derives the problem too.
pub fn trim(
    alloc: Global,
    problem: &Problem,
    derivation: &Derivation,
) -> Result<Derivation, NoMemory>
    requires { Derives problem.now (the_derivation derivation.now) }
    ensures { IfOk result
        (λ d. IsTrimOf problem.now (the_derivation derivation.now) (the_derivation d)) }
{
    let _setting = problem.setting(); // tells that it is a problem
    let left = trim_steps(alloc, problem, derivation.steps.items())?;
    let steps = share_steps(alloc, problem, left)?;
    let names = names_in(alloc, steps.items(), &derivation.names)?;
    Ok(Derivation {
        limit: derivation.limit,
        names,
        steps,
    })
}
