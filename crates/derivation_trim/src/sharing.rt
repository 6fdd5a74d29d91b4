//! Steps that several branches make on one entry are made once, above the forks where these
//! branches part.

ghost use Rattle.std.specs.Prelude.{◌≡◌, List, IfOk, IfSome, Some, map};
ghost use Rattle.sequent_calc.specs.StepView.{the_step};
ghost use Rattle.trim_theory.specs.Editing.{edited_in};
ghost use Rattle.trim_theory.specs.declared.edit.Edit as edit;

use crate::editing::edited;
use crate::passes::passes;
use crate::planning::edits_for;
use cop_base::NoMemory;
use logic_rules::Problem;
use sequent_calc::{Step, StepList};
use std::alloc::Global;

/// The steps with those made once, if there are any.
pub fn shared(
    alloc: Global,
    problem: &Problem,
    steps: &[Step],
) -> Result<Option<StepList>, NoMemory>
    ensures { IfOk result (λ found. IfSome found (λ out. (es : List edit.Edit)
        × (edited_in problem.now es (map the_step steps.now) ≡ Some out))) }
{
    let passes = passes(alloc, problem, steps)?;
    let Some(edits) = edits_for(alloc, steps, passes.as_slice())? else {
        return Ok(None);
    };
    let out = edited(alloc, problem, steps, edits.as_slice())?;
    Ok(out)
}
