//! Chains, joined in halves so that the nesting grows by the logarithm.

ghost use Rattle.std.specs.Prelude.{◌≡◌, ◌+◌, ◌≤◌, ◌++◌, List, IfOk, map, length};
ghost use Rattle.formula_core.specs.FormulaView.{the_formula};
ghost use Rattle.problem_build.specs.Balance.{IsBalanced};
ghost use Rattle.problem_build.specs.Expansion.{chain_formula};

use cop_base::NoMemory;
use formula_core::Formula;
use std::alloc::Global;
use tptp_reader::ChainKind;

fn join(alloc: Global, kind: ChainKind, left: Formula, right: Formula) -> Result<Formula, NoMemory>
    ensures { IfOk result (λ f. the_formula f ≡ chain_formula kind (the_formula left) (the_formula right)) }
{
    match kind {
        ChainKind::And => Formula::and(alloc, left, right),
        ChainKind::Or => Formula::or(alloc, left, right),
    }
}

/// The last `count` of the formulas, taken off and joined.
pub fn balanced(
    alloc: Global,
    kind: ChainKind,
    formulas: &mut Vec<Formula>,
    count: usize,
) -> Result<Formula, NoMemory>
    requires some { 1 ≤ count }
    requires enough { count ≤ length formulas.old.items }
    ensures left { IfOk result (λ _. length formulas.new.items + count ≡ length formulas.old.items) }
    ensures balanced { IfOk result (λ f. (front back : List Formula) → formulas.old.items ≡ front ++ back
        → length back ≡ count → IsBalanced (chain_formula kind) (map the_formula back) (the_formula f)
        × (formulas.new.items ≡ front)) }
{
    if count == 1 {
        let Some(formula) = formulas.pop() else {
            unreachable!()
        };
        return Ok(formula);
    }
    let right_count = count / 2;
    let right = balanced(alloc, kind, formulas, right_count)?;
    let left = balanced(alloc, kind, formulas, count - right_count)?;
    let joined = join(alloc, kind, left, right)?;
    Ok(joined)
}
