//! The names that steps mention.

ghost use Rattle.std.specs.List.{filter, list_any};
ghost use Rattle.std.specs.Prelude.{◌≡◌, ◌||◌, ◌++◌, ◌∷◌, List, ℕ, IfOk, OnOk, map};
ghost use Rattle.calculus.specs.Calculus.{is_eigen};
ghost use Rattle.calculus.specs.Derivations.{EigenName, SpareName};
ghost use Rattle.calculus.specs.Substitution.{any_leaf};
ghost use Rattle.derivation_branch.specs.Occurring.{holds};
ghost use Rattle.sequent_calc.specs.DerivationView.{the_names};
ghost use Rattle.sequent_calc.specs.NamesView.{the_eigen, the_home, the_spare};
ghost use Rattle.sequent_calc.specs.StepView.{the_step, the_term_arg};
ghost use Rattle.trim_theory.specs.UsedNames.{arg_has, is_spare, mentioned, step_has};

use cop_base::NoMemory;
use derivation_branch::{NumberSet, add_eigens};
use formula_text::{RowItem, TermRow};
use logic_rules::Label;
use sequent_calc::{EigenList, Home, Names, SpareList, Step, TermArg};
use std::alloc::Global;

// Adds the spare constants of a term to a set.
fn add_spares(set: &mut NumberSet, t: &TermRow) -> Result<(), NoMemory>
    ensures { OnOk result ((n : ℕ) → holds set.new n
        ≡ (holds set.old n || any_leaf (is_spare n) t.now)) }
{
    for item in t.items() {
        match item {
            RowItem::Spare(number) => set.add(*number)?,
            RowItem::Fun(_, _) | RowItem::Var(_) | RowItem::Eigen(_) => {}
        }
    }
    Ok(())
}

// Adds the eigenvariables and the spare constants of an argument.
#[tactic(auto, using(plain_laws::proofs::Booleans::or_false))]
fn note_argument(
    alloc: Global,
    eigens: &mut NumberSet,
    spares: &mut NumberSet,
    term: &TermArg,
) -> Result<(), NoMemory>
    ensures eigens { OnOk result ((n : ℕ) → holds eigens.new n
        ≡ (holds eigens.old n || arg_has (is_eigen n) (the_term_arg term.now))) }
    ensures spares { OnOk result ((n : ℕ) → holds spares.new n
        ≡ (holds spares.old n || arg_has (is_spare n) (the_term_arg term.now))) }
{
    match term {
        TermArg::None => Ok(()),
        TermArg::Term(term) => {
            let row = term.row(alloc)?;
            add_eigens(eigens, &row)?;
            add_spares(spares, &row)?;
            Ok(())
        }
        TermArg::Name(number) => {
            eigens.add(*number)?;
            Ok(())
        }
    }
}

#[tactic(auto, using(plain_laws::proofs::Booleans::or_false))]
fn note_step(
    alloc: Global,
    eigens: &mut NumberSet,
    spares: &mut NumberSet,
    step: &Step,
) -> Result<(), NoMemory>
    ensures eigens { OnOk result ((n : ℕ) → holds eigens.new n
        ≡ (holds eigens.old n || step_has (is_eigen n) (the_step step.now))) }
    ensures spares { OnOk result ((n : ℕ) → holds spares.new n
        ≡ (holds spares.old n || step_has (is_spare n) (the_step step.now))) }
{
    match step {
        Step::Use { term, .. } => {
            note_argument(alloc, eigens, spares, term)?;
            Ok(())
        }
        Step::Axiom { .. } => Ok(()),
    }
}

fn note_steps(
    alloc: Global,
    eigens: &mut NumberSet,
    spares: &mut NumberSet,
    steps: &[Step],
) -> Result<(), NoMemory>
    ensures eigens { OnOk result ((n : ℕ) → holds eigens.new n
        ≡ (holds eigens.old n || list_any (step_has (is_eigen n)) (map the_step steps.now))) }
    ensures spares { OnOk result ((n : ℕ) → holds spares.new n
        ≡ (holds spares.old n || list_any (step_has (is_spare n)) (map the_step steps.now))) }
{
    for step in steps {
        note_step(alloc, eigens, spares, step)?;
    }
    Ok(())
}

fn keep_eigen(
    alloc: Global,
    numbers: &NumberSet,
    kept: &mut EigenList,
    name: &(u32, Label),
) -> Result<(), NoMemory>
    ensures { (rest : List EigenName) → OnOk result
        (kept.new ++ filter (λ x. holds numbers.now x.number) rest
        ≡ kept.old ++ filter (λ x. holds numbers.now x.number) (the_eigen name.now ∷ rest)) }
{
    if !numbers.holds(name.0) {
        return Ok(());
    }
    let home = name.1.copy(alloc)?;
    kept.push((name.0, home))?;
    Ok(())
}

fn eigens_among(
    alloc: Global,
    numbers: &NumberSet,
    names: &[(u32, Label)],
) -> Result<EigenList, NoMemory>
    ensures { IfOk result (λ kept. kept
        ≡ filter (λ x. holds numbers.now x.number) (map the_eigen names.now)) }
{
    let mut kept = EigenList::new(alloc);
    for name in names {
        keep_eigen(alloc, numbers, &mut kept, name)?;
    }
    Ok(kept)
}

fn copy_home(alloc: Global, home: &Home) -> Result<Home, NoMemory>
    ensures { IfOk result (λ copy. the_home copy ≡ the_home home.now) }
{
    match home {
        Home::Anywhere => Ok(Home::Anywhere),
        Home::At(label) => {
            let label = label.copy(alloc)?;
            Ok(Home::At(label))
        }
    }
}

fn keep_spare(
    alloc: Global,
    numbers: &NumberSet,
    kept: &mut SpareList,
    name: &(u32, Home),
) -> Result<(), NoMemory>
    ensures { (rest : List SpareName) → OnOk result
        (kept.new ++ filter (λ x. holds numbers.now x.number) rest
        ≡ kept.old ++ filter (λ x. holds numbers.now x.number) (the_spare name.now ∷ rest)) }
{
    if !numbers.holds(name.0) {
        return Ok(());
    }
    let home = copy_home(alloc, &name.1)?;
    kept.push((name.0, home))?;
    Ok(())
}

fn spares_among(
    alloc: Global,
    numbers: &NumberSet,
    names: &[(u32, Home)],
) -> Result<SpareList, NoMemory>
    ensures { IfOk result (λ kept. kept
        ≡ filter (λ x. holds numbers.now x.number) (map the_spare names.now)) }
{
    let mut kept = SpareList::new(alloc);
    for name in names {
        keep_spare(alloc, numbers, &mut kept, name)?;
    }
    Ok(kept)
}

/// Of these names those that the steps mention.
pub fn names_in(alloc: Global, steps: &[Step], names: &Names) -> Result<Names, NoMemory>
    ensures { IfOk result
        (λ kept. the_names kept ≡ mentioned (map the_step steps.now) (the_names names.now)) }
{
    let mut eigens = NumberSet::new(alloc);
    let mut spares = NumberSet::new(alloc);
    note_steps(alloc, &mut eigens, &mut spares, steps)?;
    let eigens = eigens_among(alloc, &eigens, names.eigens.items())?;
    let spares = spares_among(alloc, &spares, names.spares.items())?;
    Ok(Names { eigens, spares })
}
