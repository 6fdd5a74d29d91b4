//! The numbers of labels and terms, in the order of their first occurrence.

ghost use Rattle.std.specs.Prelude.{◌≡◌, ℕ, List, [], map, IfOk, OnOk};
ghost use Rattle.calculus.specs.Derivations as derivation;
ghost use Rattle.calculus.specs.Versions.{numbering};
ghost use Rattle.derivation_text.specs.Entering.{derivation_with, empty_of, put_step};
ghost use Rattle.sequent_calc.specs.DerivationView.{the_derivation};
ghost use Rattle.sequent_calc.specs.NamesView.{the_eigen, the_spare};
ghost use Rattle.sequent_calc.specs.StepView.{the_step};

use crate::text_derivation::TextDerivation;
use cop_base::NoMemory;
use logic_rules::Label;
use sequent_calc::{Derivation, Home, Step};
use std::alloc::Global;

fn enter_step(alloc: Global, d: &mut TextDerivation, step: &Step) -> Result<(), NoMemory>
    ensures { OnOk result (d.new ≡ put_step d.old (the_step step.now)) }
{
    match step {
        Step::Use { entry, modal, term } => {
            let term = term.row(alloc)?;
            d.enter_use(*entry, modal, term)?;
            Ok(())
        }
        Step::Axiom { given, shown } => {
            d.enter_axiom(*given, *shown)?;
            Ok(())
        }
    }
}

fn enter_eigens(d: &mut TextDerivation, names: &[(u32, Label)]) -> Result<(), NoMemory>
    ensures { (limit : ℕ) → d.old ≡ numbering (derivation_with limit [] [] [])
        → OnOk result (d.new ≡ numbering (derivation_with limit (map the_eigen names.now) [] [])) }
{
    for name in names {
        d.enter_eigen(name.0, &name.1)?;
    }
    Ok(())
}

fn enter_spares(d: &mut TextDerivation, names: &[(u32, Home)]) -> Result<(), NoMemory>
    ensures { (limit : ℕ) (es : List derivation.EigenName) → d.old ≡ numbering (derivation_with limit es [] [])
        → OnOk result (d.new ≡ numbering (derivation_with limit es (map the_spare names.now) [])) }
{
    for name in names {
        d.enter_spare(name.0, &name.1)?;
    }
    Ok(())
}

fn enter_steps(alloc: Global, d: &mut TextDerivation, steps: &[Step]) -> Result<(), NoMemory>
    ensures { (limit : ℕ) (es : List derivation.EigenName) (ss : List derivation.SpareName) → d.old ≡ numbering (derivation_with limit es ss [])
        → OnOk result (d.new ≡ numbering (derivation_with limit es ss (map the_step steps.now))) }
{
    for step in steps {
        enter_step(alloc, d, step)?;
    }
    Ok(())
}

fn enter_all(alloc: Global, d: &Derivation, to: &mut TextDerivation) -> Result<(), NoMemory>
    requires { to.old ≡ empty_of d.now.limit }
    ensures { OnOk result (to.new ≡ numbering (the_derivation d.now)) }
{
    let eigens = d.names.eigens.items();
    let spares = d.names.spares.items();
    let steps = d.steps.items();
    enter_eigens(to, eigens)?;
    enter_spares(to, spares)?;
    enter_steps(alloc, to, steps)?;
    Ok(())
}

/// A derivation with numbers in place of its labels and terms.
pub fn number(alloc: Global, d: &Derivation) -> Result<TextDerivation, NoMemory>
    ensures { IfOk result (λ x. x ≡ numbering (the_derivation d.now)) }
{
    let mut numbered = TextDerivation::new(alloc, d.limit);
    enter_all(alloc, d, &mut numbered)?;
    Ok(numbered)
}
