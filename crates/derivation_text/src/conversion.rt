//! Derivations as texts have them as those of the calculus.

ghost use Rattle.std.specs.Prelude.{◌≡◌, ◌++◌, length, map, IfOk, IsTrue, OnOk};
ghost use Rattle.std.specs.List.{list_all};
ghost use Rattle.calculus.specs.Versions.{numbered_home_is_written, stated, stated_eigen, stated_home, stated_modal, stated_spare, stated_step, stated_term};
ghost use Rattle.derivation_text.specs.Listed.{are_listed, has_home_among, is_arg_listed, is_modal_listed, may_have_home_among};
ghost use Rattle.derivation_text.specs.NumbersView.{the_numbered_arg, the_numbered_eigen, the_numbered_modal, the_numbered_spare, the_numbered_step};
ghost use Rattle.sequent_calc.specs.DerivationView.{the_derivation, the_names};
ghost use Rattle.sequent_calc.specs.NamesView.{the_home};
ghost use Rattle.sequent_calc.specs.StepView.{the_modal, the_step, the_term_arg};

use crate::numbers::{NumberedModal, NumberedStep, NumberedTerm};
use crate::text_derivation::TextDerivation;
use cop_base::NoMemory;
use sequent_calc::{
    Derivation, EigenList, Home, ModalArg, Names, SpareList, Step, StepList, TermArg,
};
use std::alloc::Global;
use term_table::SharedTerm;

/// The home of a number, or every domain.
pub fn home_of(alloc: Global, d: &TextDerivation, home: Option<u32>) -> Result<Home, NoMemory>
    requires { IsTrue (numbered_home_is_written (length d.now.labels) home) }
    ensures { IfOk result (λ h. the_home h ≡ stated_home d.now.labels home) }
{
    match home {
        None => Ok(Home::Anywhere),
        Some(number) => {
            let label = d.labels().label(alloc, number)?;
            Ok(Home::At(label))
        }
    }
}

/// The argument of a step with a modal part.
pub fn modal_of(
    alloc: Global,
    d: &TextDerivation,
    modal: NumberedModal,
) -> Result<ModalArg, NoMemory>
    requires { IsTrue (is_modal_listed (length d.now.labels) (the_numbered_modal modal)) }
    ensures { IfOk result (λ m. the_modal m ≡ stated_modal d.now.labels (the_numbered_modal modal)) }
{
    match modal {
        NumberedModal::None => Ok(ModalArg::None),
        NumberedModal::To(number) => {
            let label = d.labels().label(alloc, number)?;
            ModalArg::to(alloc, label)
        }
        NumberedModal::New(number) => Ok(ModalArg::New(number)),
    }
}

fn arg_of(alloc: Global, d: &TextDerivation, term: NumberedTerm) -> Result<TermArg, NoMemory>
    requires { IsTrue (is_arg_listed (length d.now.terms) (the_numbered_arg term)) }
    ensures { IfOk result (λ t. the_term_arg t ≡ stated_term d.now.terms (the_numbered_arg term)) }
{
    match term {
        NumberedTerm::None => Ok(TermArg::None),
        NumberedTerm::Term(number) => {
            let row = d.terms().row(number).copy(alloc)?;
            Ok(TermArg::Term(SharedTerm::Row(row)))
        }
        NumberedTerm::Name(number) => Ok(TermArg::Name(number)),
    }
}

/// A step of a derivation, as the calculus has it.
pub fn step_of(alloc: Global, d: &TextDerivation, step: NumberedStep) -> Result<Step, NoMemory>
    requires { IsTrue (are_listed (length d.now.labels) (length d.now.terms) (the_numbered_step step)) }
    ensures { IfOk result (λ s. the_step s ≡ stated_step d.now.labels d.now.terms (the_numbered_step step)) }
{
    match step {
        NumberedStep::Use { entry, modal, term } => {
            let modal = modal_of(alloc, d, modal)?;
            let term = arg_of(alloc, d, term)?;
            Ok(Step::Use { entry, modal, term })
        }
        NumberedStep::Axiom { given, shown } => Ok(Step::Axiom { given, shown }),
    }
}

fn add_eigens(
    alloc: Global,
    d: &TextDerivation,
    to: &mut EigenList,
    names: &[(u32, u32)],
) -> Result<(), NoMemory>
    requires among { IsTrue (list_all (has_home_among (length d.now.labels)) (map the_numbered_eigen names.now)) }
    ensures { OnOk result (to.new ≡ to.old ++ map (stated_eigen d.now.labels) (map the_numbered_eigen names.now)) }
{
    for name in names {
        let home = d.labels().label(alloc, name.1)?;
        to.push((name.0, home))?;
    }
    Ok(())
}

fn add_spares(
    alloc: Global,
    d: &TextDerivation,
    to: &mut SpareList,
    names: &[(u32, Option<u32>)],
) -> Result<(), NoMemory>
    requires among { IsTrue (list_all (may_have_home_among (length d.now.labels)) (map the_numbered_spare names.now)) }
    ensures { OnOk result (to.new ≡ to.old ++ map (stated_spare d.now.labels) (map the_numbered_spare names.now)) }
{
    for name in names {
        let home = home_of(alloc, d, name.1)?;
        to.push((name.0, home))?;
    }
    Ok(())
}

fn add_steps(
    alloc: Global,
    d: &TextDerivation,
    to: &mut StepList,
    steps: &[NumberedStep],
) -> Result<(), NoMemory>
    requires listed { IsTrue (list_all (are_listed (length d.now.labels) (length d.now.terms)) (map the_numbered_step steps.now)) }
    ensures { OnOk result (to.new ≡ to.old ++ map (stated_step d.now.labels d.now.terms) (map the_numbered_step steps.now)) }
{
    for step in steps {
        let step = step_of(alloc, d, *step)?;
        to.push(step)?;
    }
    Ok(())
}

/// The names of a derivation and their homes, as the calculus has them.
pub fn names_of(alloc: Global, d: &TextDerivation) -> Result<Names, NoMemory>
    ensures { IfOk result (λ n. the_names n ≡ (stated d.now).names) }
{
    let mut eigens = EigenList::new(alloc);
    add_eigens(alloc, d, &mut eigens, d.eigens())?;
    let mut spares = SpareList::new(alloc);
    add_spares(alloc, d, &mut spares, d.spares())?;
    Ok(Names { eigens, spares })
}

fn steps_of(alloc: Global, d: &TextDerivation) -> Result<StepList, NoMemory>
    ensures { IfOk result (λ list. list ≡ (stated d.now).steps) }
{
    let mut list = StepList::new(alloc);
    add_steps(alloc, d, &mut list, d.steps())?;
    Ok(list)
}

/// The derivation that the numbers state, as the calculus has it.
pub fn derivation_of(alloc: Global, d: &TextDerivation) -> Result<Derivation, NoMemory>
    ensures { IfOk result (λ e. the_derivation e ≡ stated d.now) }
{
    let names = names_of(alloc, d)?;
    let steps = steps_of(alloc, d)?;
    Ok(Derivation {
        limit: d.limit(),
        names,
        steps,
    })
}
