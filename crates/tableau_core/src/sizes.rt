//! How many positions each part of a formula has.

ghost use Rattle.std.specs.Prelude.{◌≡◌, ◌<◌, ◌^◌, ◌++◌, IfOk};
ghost use Rattle.calculus.specs.Positions.{size};
ghost use Rattle.formula_core.specs.FormulaView.{the_formula};
ghost use Rattle.tableau_core.specs.Sizes.{sizes_below, sizes_of};

use cop_base::NoMemory;
use formula_core::Formula;
use std::alloc::Global;

// Appends the sizes of the parts of the formula in preorder.
#[cycle(sizes)]
#[tactic(auto, using(crate::proofs::SizeLaws::appended))]
fn add_sizes(sizes: &mut Vec<u32>, f: &Formula) -> Result<(), NoMemory>
    requires { size (the_formula f.now) < 2 ^ 32 }
    ensures { IfOk result (λ _. sizes.new.items ≡ sizes.old.items ++ sizes_of (the_formula f.now)) }
{
    let start = sizes.len();
    sizes.push(1)?;
    add_sizes_below(sizes, f)?;
    sizes[start] = (sizes.len() - start) as u32;
    Ok(())
}

// Appends those of its proper parts.
#[cycle(sizes)]
fn add_sizes_below(sizes: &mut Vec<u32>, f: &Formula) -> Result<(), NoMemory>
    requires { size (the_formula f.now) < 2 ^ 32 }
    ensures { IfOk result (λ _. sizes.new.items
        ≡ sizes.old.items ++ sizes_below (the_formula f.now)) }
{
    match f {
        Formula::Atom(_, _) => Ok(()),
        Formula::And(a, b) | Formula::Or(a, b) | Formula::Imp(a, b) => {
            add_sizes(sizes, a)?;
            add_sizes(sizes, b)
        }
        Formula::Not(a) | Formula::All(a) | Formula::Ex(a) | Formula::Nec(a) | Formula::Poss(a) =>
            add_sizes(sizes, a),
    }
}

/// The sizes of the parts of the formula in preorder.
pub fn sizes_of(alloc: Global, f: &Formula) -> Result<Vec<u32>, NoMemory>
    requires { size (the_formula f.now) < 2 ^ 32 }
    ensures { IfOk result (λ v. v.items ≡ sizes_of (the_formula f.now)) }
{
    let mut sizes = Vec::new(alloc);
    add_sizes(&mut sizes, f)?;
    Ok(sizes)
}
