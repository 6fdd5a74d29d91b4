//! How the branches of a derivation that is edited grow: the given one and the new one.

ghost use Rattle.std.specs.Prelude.{◌≡◌, List, OnOk, Some};
ghost use Rattle.derivation_trim.specs.BranchView.{the_bare, the_branch};
ghost use Rattle.derivation_trim.specs.PlaceView.{the_place, the_splits};
ghost use Rattle.sequent_calc.specs.StepView.{the_step};
ghost use Rattle.trim_theory.specs.Editing.{Fork, added, after_kept, after_use, place, resumed_at};
ghost use Rattle.trim_theory.specs.Reading.{next_of};

use crate::passes::formula_at;
use crate::writing::number_at;
use cop_base::NoMemory;
use formula_core::{Components, Signed};
use label_table::place_of;
use sequent_calc::Step;

// `branch` has the formulas of the new branch as they stand in the problem, with variables in place
// of the terms that were put for them; `parents` for each of its entries the one on which a step
// came in, where it is the first one that this step added, and else 0; `table` the new numbers of 0
// and of the entries of the given branch. For each right side that is still to come `forks` has the
// lengths of the new branch and of the table before it, and its first formula.

// An entry that both branches get.
fn add<'a>(
    branch: &mut Vec<Signed<'a>>,
    parents: &mut Vec<u32>,
    table: &mut Vec<u32>,
    first: Signed<'a>,
) -> Result<(), NoMemory>
    ensures { (fs : List Fork) → OnOk result
        (place (the_branch branch.new.items) parents.new.items table.new.items fs
        ≡ added (the_bare first.entry)
        (place (the_branch branch.old.items) parents.old.items table.old.items fs)) }
{
    branch.push(first)?;
    parents.push(0)?;
    let number = place_of(branch.len())?;
    table.push(number)?;
    Ok(())
}

// What both branches get by a step on a formula.
fn grow<'a>(
    branch: &mut Vec<Signed<'a>>,
    parents: &mut Vec<u32>,
    table: &mut Vec<u32>,
    forks: &mut Vec<(usize, usize, Signed<'a>)>,
    used: Signed<'a>,
) -> Result<(), NoMemory>
    ensures { OnOk result
        (the_place branch.new.items parents.new.items table.new.items forks.new.items
        ≡ after_use (next_of (Some (the_bare used.entry)))
        (the_place branch.old.items parents.old.items table.old.items forks.old.items)) }
{
    match used.formula.components(used.sign) {
        Components::Literal(_, _) => {
            add(branch, parents, table, used)?;
            Ok(())
        }
        Components::One(a) => {
            add(branch, parents, table, a)?;
            Ok(())
        }
        Components::Gamma(a) => {
            add(branch, parents, table, a)?;
            Ok(())
        }
        Components::Delta(a) => {
            add(branch, parents, table, a)?;
            Ok(())
        }
        Components::Alpha(a, b) => {
            add(branch, parents, table, a)?;
            add(branch, parents, table, b)?;
            Ok(())
        }
        Components::Beta(a, b) => {
            forks.push((branch.len(), table.len(), b))?;
            add(branch, parents, table, a)?;
            Ok(())
        }
    }
}

// Goes to the next right side, if there is one.
fn resume<'a>(
    branch: &mut Vec<Signed<'a>>,
    parents: &mut Vec<u32>,
    table: &mut Vec<u32>,
    forks: &mut Vec<(usize, usize, Signed<'a>)>,
) -> Result<(), NoMemory>
    ensures { OnOk result
        (the_place branch.new.items parents.new.items table.new.items forks.new.items
        ≡ resumed_at (the_splits forks.old.items)
        (the_place branch.old.items parents.old.items table.old.items forks.old.items)) }
{
    match forks.pop() {
        Some((entries, numbers, first)) => {
            branch.truncate(entries);
            parents.truncate(entries);
            table.truncate(numbers);
            add(branch, parents, table, first)?;
            Ok(())
        }
        None => Ok(()),
    }
}

/// The branches after a step that is kept.
pub fn go_on<'a>(
    branch: &mut Vec<Signed<'a>>,
    parents: &mut Vec<u32>,
    table: &mut Vec<u32>,
    forks: &mut Vec<(usize, usize, Signed<'a>)>,
    step: &Step,
) -> Result<(), NoMemory>
    ensures { OnOk result
        (the_place branch.new.items parents.new.items table.new.items forks.new.items
        ≡ after_kept (the_step step.now)
        (the_place branch.old.items parents.old.items table.old.items forks.old.items)) }
{
    match step {
        Step::Use { entry, .. } => {
            let number = number_at(table, *entry);
            match formula_at(branch, number) {
                Some(used) => {
                    grow(branch, parents, table, forks, used)?;
                    Ok(())
                }
                None => Ok(()),
            }
        }
        Step::Axiom { .. } => {
            resume(branch, parents, table, forks)?;
            Ok(())
        }
    }
}
