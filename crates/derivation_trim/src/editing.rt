//! A derivation's steps by edits: steps come in early, each on an entry that adds its components as
//! they are, and steps go whose entries stand on the branch already. Each edit is tested, so that
//! any edits will do.

ghost use Rattle.std.specs.Prelude.{◌≡◌, ◌++◌, ◌∷◌, List, ℕ, IfOk, IfSome, OnOk, Some, drop, map, true};
ghost use Rattle.calculus.specs.Derivations as derivation;
ghost use Rattle.calculus.specs.declared.setting.Logic as setting;
ghost use Rattle.derivation_trim.specs.BranchView.{the_bare, the_branch};
ghost use Rattle.derivation_trim.specs.PlaceView.{the_place};
ghost use Rattle.sequent_calc.specs.StepView.{the_step};
ghost use Rattle.trim_theory.specs.Editing.{Fork, Rest, after_skipped, before_all, by_edit, can_insert, can_skip};
ghost use Rattle.trim_theory.specs.Editing.{components_in, edited_in, inserted, is_added, is_plain_alpha, place};
ghost use Rattle.trim_theory.specs.Editing.{referred, taken_by};
ghost use Rattle.trim_theory.specs.Reading.{bare_entry};
ghost use Rattle.trim_theory.specs.declared.edit.Edit.TheVariants as edits;

use crate::growing::go_on;
use crate::parts::{Parts, parts_of};
use crate::passes::formula_at;
use crate::writing::{number_at, renumbered};
use cop_base::NoMemory;
use formula_core::{Sign, Signed};
use logic_rules::{Logic, ModalPart, Problem, Shape, kind_of};
use sequent_calc::{ModalArg, Step, StepList, TermArg};
use std::alloc::Global;
use trim_theory::edit::Edit;

fn keep<'a>(
    alloc: Global,
    branch: &mut Vec<Signed<'a>>,
    parents: &mut Vec<u32>,
    table: &mut Vec<u32>,
    forks: &mut Vec<(usize, usize, Signed<'a>)>,
    out: &mut StepList,
    step: &Step,
) -> Result<(), NoMemory>
    ensures { (l : setting.Logic) (xs : List derivation.Step) (go : Rest) → OnOk result
        (before_all out.old (by_edit l edits.Keep (the_step step.now) xs
        (the_place branch.old.items parents.old.items table.old.items forks.old.items) go)
        ≡ before_all out.new (go xs
        (the_place branch.new.items parents.new.items table.new.items forks.new.items))) }
{
    let made = renumbered(alloc, table.as_slice(), step)?;
    out.push(made)?;
    go_on(branch, parents, table, forks, step)?;
    Ok(())
}

// Whether a step on the formula adds its components as they are.
fn is_plain(logic: Logic, used: Signed<'_>) -> bool
    ensures { result ≡ can_insert logic (Some (the_bare used.entry)) }
{
    let kind = kind_of(logic, used.sign, used.formula);
    match (kind.modal, kind.shape) {
        (ModalPart::Plain, Shape::Alpha) => true,
        (ModalPart::Plain, _) | (ModalPart::Nu | ModalPart::Pi, _) => false,
    }
}

// The components of an entry, which the new branch alone gets.
fn put_parts<'a>(
    branch: &mut Vec<Signed<'a>>,
    parents: &mut Vec<u32>,
    number: u32,
    used: Signed<'a>,
) -> Result<(), NoMemory>
    ensures { (tb : List ℕ) (fs : List Fork) → OnOk result
        (place (the_branch branch.new.items) parents.new.items tb fs
        ≡ inserted number (components_in (Some (the_bare used.entry)))
        (place (the_branch branch.old.items) parents.old.items tb fs)) }
{
    match parts_of(used) {
        Parts::One(a) => {
            branch.push(a)?;
            parents.push(number)?;
            Ok(())
        }
        Parts::Two(a, b) => {
            branch.push(a)?;
            branch.push(b)?;
            parents.push(number)?;
            parents.push(0)?;
            Ok(())
        }
    }
}

// A step on the entry of this number comes in, if it fits.
fn insert<'a>(
    logic: Logic,
    branch: &mut Vec<Signed<'a>>,
    parents: &mut Vec<u32>,
    out: &mut StepList,
    number: u32,
) -> Result<bool, NoMemory>
    ensures { (x : derivation.Step) (xs : List derivation.Step) (tb : List ℕ) (fs : List Fork) (go : Rest) → IfOk result (λ fits. fits ≡ true →
        before_all out.old (by_edit logic (edits.Insert number) x xs
        (place (the_branch branch.old.items) parents.old.items tb fs) go)
        ≡ before_all out.new (go (x ∷ xs)
        (place (the_branch branch.new.items) parents.new.items tb fs))) }
{
    let Some(used) = formula_at(branch, number) else {
        return Ok(false);
    };
    if !is_plain(logic, used) {
        return Ok(false);
    }
    out.push(Step::Use {
        entry: number,
        modal: ModalArg::None,
        term: TermArg::None,
    })?;
    put_parts(branch, parents, number, used)?;
    Ok(true)
}

// Whether the first entry is the first one that a step on the second added which came in.
fn is_added(parents: &[u32], first: u32, number: u32) -> bool
    ensures { result ≡ is_added parents.now first number }
{
    if number == 0 || first == 0 {
        return false;
    }
    let place = first as usize - 1;
    place < parents.len() && parents[place] == number
}

// What a step on the entry adds has these new numbers, if they fit.
fn refer(
    branch: &[Signed<'_>],
    table: &mut Vec<u32>,
    number: u32,
    first: u32,
) -> Result<bool, NoMemory>
    ensures { (ps : List ℕ) (fs : List Fork) → IfOk result (λ fits. fits ≡ true →
        place (the_branch branch.now) ps table.new.items fs
        ≡ referred first (components_in (bare_entry (the_branch branch.now) number))
        (place (the_branch branch.now) ps table.old.items fs)) }
{
    let Some(used) = formula_at(branch, number) else {
        return Ok(false);
    };
    match parts_of(used) {
        Parts::One(_) => {
            table.push(first)?;
            Ok(true)
        }
        Parts::Two(_, _) => {
            if first == u32::MAX {
                return Ok(false);
            }
            table.push(first)?;
            table.push(first + 1)?;
            Ok(true)
        }
    }
}

// The step goes, if what it adds stands on the new branch from this entry on.
fn skip(
    branch: &[Signed<'_>],
    parents: &[u32],
    table: &mut Vec<u32>,
    step: &Step,
    first: u32,
) -> Result<bool, NoMemory>
    ensures { (l : setting.Logic) (xs : List derivation.Step) (fs : List Fork) (go : Rest) → IfOk result (λ fits. fits ≡ true →
        by_edit l (edits.Skip first) (the_step step.now) xs
        (place (the_branch branch.now) parents.now table.old.items fs) go
        ≡ go xs (place (the_branch branch.now) parents.now table.new.items fs)) }
{
    match step {
        Step::Use { entry, .. } => {
            let number = number_at(table, *entry);
            if !is_added(parents, first, number) {
                return Ok(false);
            }
            let fits = refer(branch, table, number, first)?;
            Ok(fits)
        }
        Step::Axiom { .. } => Ok(false),
    }
}

// One edit, if it fits.
fn turn<'a>(
    alloc: Global,
    logic: Logic,
    branch: &mut Vec<Signed<'a>>,
    parents: &mut Vec<u32>,
    table: &mut Vec<u32>,
    forks: &mut Vec<(usize, usize, Signed<'a>)>,
    out: &mut StepList,
    step: &Step,
    edit: Edit,
) -> Result<bool, NoMemory>
    ensures { (xs : List derivation.Step) (go : Rest) → IfOk result (λ fits. fits ≡ true →
        before_all out.old (by_edit logic edit (the_step step.now) xs
        (the_place branch.old.items parents.old.items table.old.items forks.old.items) go)
        ≡ before_all out.new (go (drop (taken_by edit) (the_step step.now ∷ xs))
        (the_place branch.new.items parents.new.items table.new.items forks.new.items))) }
{
    match edit {
        Edit::Keep => {
            keep(alloc, branch, parents, table, forks, out, step)?;
            Ok(true)
        }
        Edit::Skip(first) => {
            let fits = skip(branch.as_slice(), parents.as_slice(), table, step, first)?;
            Ok(fits)
        }
        Edit::Insert(number) => {
            let fits = insert(logic, branch, parents, out, number)?;
            Ok(fits)
        }
    }
}

// How many of the given steps an edit takes.
fn taken_by(edit: Edit) -> usize
    ensures { result ≡ taken_by edit }
{
    match edit {
        Edit::Keep | Edit::Skip(_) => 1,
        Edit::Insert(_) => 0,
    }
}

/// The steps to which the edits lead, if each of them fits and they take all steps.
pub fn edited(
    alloc: Global,
    problem: &Problem,
    steps: &[Step],
    edits: &[Edit],
) -> Result<Option<StepList>, NoMemory>
    ensures { IfOk result (λ found. IfSome found
        (λ out. edited_in problem.now edits.now (map the_step steps.now) ≡ Some out)) }
{
    let logic = problem.setting().logic();
    let mut branch = Vec::new(alloc);
    let mut parents = Vec::new(alloc);
    let mut table = Vec::new(alloc);
    let mut forks = Vec::new(alloc);
    let mut out = StepList::new(alloc);
    branch.push(Signed {
        sign: Sign::F,
        formula: problem.formula(),
    })?;
    parents.push(0)?;
    table.push(0)?;
    table.push(1)?;
    let mut at = 0;
    for edit in edits {
        if at >= steps.len() {
            return Ok(None);
        }
        let step = &steps[at];
        let fits = turn(
            alloc,
            logic,
            &mut branch,
            &mut parents,
            &mut table,
            &mut forks,
            &mut out,
            step,
            *edit,
        )?;
        if !fits {
            return Ok(None);
        }
        at += taken_by(*edit);
    }
    if at < steps.len() {
        return Ok(None);
    }
    Ok(Some(out))
}
