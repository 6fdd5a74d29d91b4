//! How many instances stand below each instance of a tableau.

ghost use Rattle.std.specs.Prelude.{◌≡◌, ◌++◌, ◌∷◌, IfOk, OnOk};
ghost use Rattle.sequent_convert.specs.AheadView.{sizes_of_all};
ghost use Rattle.sequent_convert.specs.ByNumber.AheadView.{closing_sizes, sizes_in_all};
ghost use Rattle.tableau_core.specs.Numbered.ClosingView.{the_closing};
ghost use Rattle.tableau_core.specs.Numbered.TableauView.{the_tableau};

use cop_base::NoMemory;
use std::alloc::Global;
use tableau_core::{Closing, ClosingList, Tableau};

// The recursion goes as deep as extensions are nested.
#[cycle(sizes)]
fn put_closing(closing: &Closing, sizes: &mut Vec<usize>) -> Result<(), NoMemory>
    ensures { OnOk result (sizes.new.items ≡ sizes.old.items ++ closing_sizes (the_closing closing.now)) }
{
    match closing {
        Closing::Reduce { up: _ } => Ok(()),
        Closing::Extend {
            instance: _,
            literal: _,
            goals,
        } => {
            let at = sizes.len();
            sizes.push(0)?;
            put_all(goals, sizes)?;
            sizes[at] = sizes.len() - at;
            Ok(())
        }
    }
}

#[cycle(sizes)]
#[tactic(auto, using(crate::proofs::ByNumber::SizeLaws::sizes))]
fn put_all(closings: &ClosingList, sizes: &mut Vec<usize>) -> Result<(), NoMemory>
    ensures { OnOk result (sizes.new.items ≡ sizes.old.items ++ sizes_in_all closings.now) }
{
    for closing in closings.items() {
        put_closing(closing, sizes)?;
    }
    Ok(())
}

/// For each instance of the tableau, in preorder, the number of instances that its closing has; the start has none, so a 0 stands
/// for it.
pub fn sizes_of(alloc: Global, t: &Tableau) -> Result<Vec<usize>, NoMemory>
    ensures { IfOk result (λ v. v.items ≡ 0 ∷ sizes_of_all (the_tableau t.now).goals) }
{
    let mut sizes = Vec::new(alloc);
    sizes.push(0)?;
    put_all(&t.goals, &mut sizes)?;
    Ok(sizes)
}
