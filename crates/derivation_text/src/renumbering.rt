//! The numbers of labels and terms that a text gives, in the order of their first occurrence.

ghost use Rattle.std.specs.Prelude.{◌≡◌, ℕ, List, [], length, map, IfOk, IsTrue, OnOk};
ghost use Rattle.std.specs.List.{list_all};
ghost use Rattle.calculus.specs.Derivations as derivation;
ghost use Rattle.calculus.specs.Equality.{term_eq};
ghost use Rattle.calculus.specs.Syntax.{spare};
ghost use Rattle.calculus.specs.Versions.{home_number, is_among, numbered, numbered_arg, numbered_home_is_written, numbered_modal, numbering, same_label};
ghost use Rattle.calculus.specs.Versions.{stated, stated_eigen, stated_home, stated_modal, stated_spare, stated_step, stated_term};
ghost use Rattle.derivation_text.specs.Entering.{derivation_with, empty_of, entered, put_step, with_arg, with_home, with_label, with_modal};
ghost use Rattle.derivation_text.specs.Listed.{are_listed, has_home_among, is_arg_listed, is_modal_listed, may_have_home_among};
ghost use Rattle.derivation_text.specs.NumbersView.{the_numbered_arg, the_numbered_eigen, the_numbered_modal, the_numbered_spare, the_numbered_step};
ghost use Rattle.derivation_text.specs.Renumbering.{AreNew, IsNew, with_labels, with_terms};

use crate::numbers::{NumberedModal, NumberedStep, NumberedTerm};
use crate::text_derivation::TextDerivation;
use cop_base::NoMemory;
use std::alloc::Global;

// The new number of a label by its old one, from 1. The label is entered where it comes first.
fn new_label(
    alloc: Global,
    d: &TextDerivation,
    to: &mut TextDerivation,
    numbers: &mut [u32],
    old: u32,
) -> Result<u32, NoMemory>
    requires among { IsTrue (is_among (length d.now.labels) old) }
    requires known { AreNew same_label [] d.now.labels to.old.labels numbers.old }
    ensures entered { OnOk result (to.new ≡ with_labels to.old (with_label to.old.labels (numbered d.now.labels old []))) }
    ensures number { IfOk result (λ k. IsNew same_label to.new.labels (numbered d.now.labels old []) k) }
    ensures known { OnOk result (AreNew same_label [] d.now.labels to.new.labels numbers.new) }
{
    let place = old as usize - 1;
    let known = numbers[place];
    if known > 0 {
        return Ok(known);
    }
    let label = d.labels().label(alloc, old)?;
    let number = to.enter_label(&label)?;
    numbers[place] = number;
    Ok(number)
}

// The same of a term.
fn new_term(
    alloc: Global,
    d: &TextDerivation,
    to: &mut TextDerivation,
    numbers: &mut [u32],
    old: u32,
) -> Result<u32, NoMemory>
    requires among { IsTrue (is_among (length d.now.terms) old) }
    requires known { AreNew term_eq (spare 0) d.now.terms to.old.terms numbers.old }
    ensures entered { OnOk result (to.new ≡ with_terms to.old (entered term_eq to.old.terms (numbered d.now.terms old (spare 0)))) }
    ensures number { IfOk result (λ k. IsNew term_eq to.new.terms (numbered d.now.terms old (spare 0)) k) }
    ensures known { OnOk result (AreNew term_eq (spare 0) d.now.terms to.new.terms numbers.new) }
{
    let place = old as usize - 1;
    let known = numbers[place];
    if known > 0 {
        return Ok(known);
    }
    let row = d.terms().row(old).copy(alloc)?;
    let number = to.enter_term(row)?;
    numbers[place] = number;
    Ok(number)
}

fn new_home(
    alloc: Global,
    d: &TextDerivation,
    to: &mut TextDerivation,
    numbers: &mut [u32],
    home: Option<u32>,
) -> Result<Option<u32>, NoMemory>
    requires among { IsTrue (numbered_home_is_written (length d.now.labels) home) }
    requires known { AreNew same_label [] d.now.labels to.old.labels numbers.old }
    ensures entered { OnOk result (to.new ≡ with_labels to.old (with_home to.old.labels (stated_home d.now.labels home))) }
    ensures number { IfOk result (λ k. k ≡ home_number to.new.labels (stated_home d.now.labels home)) }
    ensures among { IfOk result (λ k. IsTrue (numbered_home_is_written (length to.new.labels) k)) }
    ensures known { OnOk result (AreNew same_label [] d.now.labels to.new.labels numbers.new) }
{
    match home {
        None => Ok(None),
        Some(old) => {
            let number = new_label(alloc, d, to, numbers, old)?;
            Ok(Some(number))
        }
    }
}

fn new_modal(
    alloc: Global,
    d: &TextDerivation,
    to: &mut TextDerivation,
    numbers: &mut [u32],
    modal: NumberedModal,
) -> Result<NumberedModal, NoMemory>
    requires among { IsTrue (is_modal_listed (length d.now.labels) (the_numbered_modal modal)) }
    requires known { AreNew same_label [] d.now.labels to.old.labels numbers.old }
    ensures entered { OnOk result (to.new ≡ with_labels to.old (with_modal to.old.labels (stated_modal d.now.labels (the_numbered_modal modal)))) }
    ensures number { IfOk result (λ m. the_numbered_modal m ≡ numbered_modal to.new.labels (stated_modal d.now.labels (the_numbered_modal modal))) }
    ensures among { IfOk result (λ m. IsTrue (is_modal_listed (length to.new.labels) (the_numbered_modal m))) }
    ensures known { OnOk result (AreNew same_label [] d.now.labels to.new.labels numbers.new) }
{
    match modal {
        NumberedModal::None => Ok(NumberedModal::None),
        NumberedModal::To(old) => {
            let number = new_label(alloc, d, to, numbers, old)?;
            Ok(NumberedModal::To(number))
        }
        NumberedModal::New(number) => Ok(NumberedModal::New(number)),
    }
}

fn new_arg(
    alloc: Global,
    d: &TextDerivation,
    to: &mut TextDerivation,
    numbers: &mut [u32],
    term: NumberedTerm,
) -> Result<NumberedTerm, NoMemory>
    requires among { IsTrue (is_arg_listed (length d.now.terms) (the_numbered_arg term)) }
    requires known { AreNew term_eq (spare 0) d.now.terms to.old.terms numbers.old }
    ensures entered { OnOk result (to.new ≡ with_terms to.old (with_arg to.old.terms (stated_term d.now.terms (the_numbered_arg term)))) }
    ensures number { IfOk result (λ t. the_numbered_arg t ≡ numbered_arg to.new.terms (stated_term d.now.terms (the_numbered_arg term))) }
    ensures among { IfOk result (λ t. IsTrue (is_arg_listed (length to.new.terms) (the_numbered_arg t))) }
    ensures known { OnOk result (AreNew term_eq (spare 0) d.now.terms to.new.terms numbers.new) }
{
    match term {
        NumberedTerm::None => Ok(NumberedTerm::None),
        NumberedTerm::Term(old) => {
            let number = new_term(alloc, d, to, numbers, old)?;
            Ok(NumberedTerm::Term(number))
        }
        NumberedTerm::Name(number) => Ok(NumberedTerm::Name(number)),
    }
}

fn renumber_step(
    alloc: Global,
    d: &TextDerivation,
    to: &mut TextDerivation,
    labels: &mut [u32],
    terms: &mut [u32],
    step: NumberedStep,
) -> Result<(), NoMemory>
    requires listed { IsTrue (are_listed (length d.now.labels) (length d.now.terms) (the_numbered_step step)) }
    requires labels { AreNew same_label [] d.now.labels to.old.labels labels.old }
    requires terms { AreNew term_eq (spare 0) d.now.terms to.old.terms terms.old }
    ensures put { OnOk result (to.new ≡ put_step to.old (stated_step d.now.labels d.now.terms (the_numbered_step step))) }
    ensures labels { OnOk result (AreNew same_label [] d.now.labels to.new.labels labels.new) }
    ensures terms { OnOk result (AreNew term_eq (spare 0) d.now.terms to.new.terms terms.new) }
{
    match step {
        NumberedStep::Use { entry, modal, term } => {
            let modal = new_modal(alloc, d, to, labels, modal)?;
            let term = new_arg(alloc, d, to, terms, term)?;
            to.put_step(NumberedStep::Use { entry, modal, term })?;
            Ok(())
        }
        NumberedStep::Axiom { given, shown } => {
            to.put_step(NumberedStep::Axiom { given, shown })?;
            Ok(())
        }
    }
}

fn renumber_eigens(
    alloc: Global,
    d: &TextDerivation,
    to: &mut TextDerivation,
    labels: &mut [u32],
    names: &[(u32, u32)],
) -> Result<(), NoMemory>
    requires among { IsTrue (list_all (has_home_among (length d.now.labels)) (map the_numbered_eigen names.now)) }
    requires labels { AreNew same_label [] d.now.labels to.old.labels labels.old }
    ensures put { (limit : ℕ) → to.old ≡ numbering (derivation_with limit [] [] [])
        → OnOk result (to.new ≡ numbering (derivation_with limit (map (stated_eigen d.now.labels) (map the_numbered_eigen names.now)) [] [])) }
    ensures labels { OnOk result (AreNew same_label [] d.now.labels to.new.labels labels.new) }
    ensures terms { OnOk result (to.new.terms ≡ to.old.terms) }
{
    for name in names {
        let home = new_label(alloc, d, to, labels, name.1)?;
        to.put_eigen(name.0, home)?;
    }
    Ok(())
}

fn renumber_spares(
    alloc: Global,
    d: &TextDerivation,
    to: &mut TextDerivation,
    labels: &mut [u32],
    names: &[(u32, Option<u32>)],
) -> Result<(), NoMemory>
    requires among { IsTrue (list_all (may_have_home_among (length d.now.labels)) (map the_numbered_spare names.now)) }
    requires labels { AreNew same_label [] d.now.labels to.old.labels labels.old }
    ensures put { (limit : ℕ) (es : List derivation.EigenName) → to.old ≡ numbering (derivation_with limit es [] [])
        → OnOk result (to.new ≡ numbering (derivation_with limit es (map (stated_spare d.now.labels) (map the_numbered_spare names.now)) [])) }
    ensures labels { OnOk result (AreNew same_label [] d.now.labels to.new.labels labels.new) }
    ensures terms { OnOk result (to.new.terms ≡ to.old.terms) }
{
    for name in names {
        let home = new_home(alloc, d, to, labels, name.1)?;
        to.put_spare(name.0, home)?;
    }
    Ok(())
}

fn renumber_steps(
    alloc: Global,
    d: &TextDerivation,
    to: &mut TextDerivation,
    labels: &mut [u32],
    terms: &mut [u32],
    steps: &[NumberedStep],
) -> Result<(), NoMemory>
    requires listed { IsTrue (list_all (are_listed (length d.now.labels) (length d.now.terms)) (map the_numbered_step steps.now)) }
    requires labels { AreNew same_label [] d.now.labels to.old.labels labels.old }
    requires terms { AreNew term_eq (spare 0) d.now.terms to.old.terms terms.old }
    ensures { (limit : ℕ) (es : List derivation.EigenName) (ss : List derivation.SpareName) → to.old ≡ numbering (derivation_with limit es ss [])
        → OnOk result (to.new ≡ numbering (derivation_with limit es ss (map (stated_step d.now.labels d.now.terms) (map the_numbered_step steps.now)))) }
{
    for step in steps {
        renumber_step(alloc, d, to, labels, terms, *step)?;
    }
    Ok(())
}

fn renumber_all(
    alloc: Global,
    d: &TextDerivation,
    to: &mut TextDerivation,
    labels: &mut [u32],
    terms: &mut [u32],
) -> Result<(), NoMemory>
    requires empty { to.old ≡ empty_of d.now.limit }
    requires labels { AreNew same_label [] d.now.labels [] labels.old }
    requires terms { AreNew term_eq (spare 0) d.now.terms [] terms.old }
    ensures { OnOk result (to.new ≡ numbering (stated d.now)) }
{
    let eigens = d.eigens();
    let spares = d.spares();
    let steps = d.steps();
    renumber_eigens(alloc, d, to, labels, eigens)?;
    renumber_spares(alloc, d, to, labels, spares)?;
    renumber_steps(alloc, d, to, labels, terms, steps)?;
    Ok(())
}

/// The derivation that numbers state, numbered anew. Each label and each term is gone through once,
/// however often it is used.
pub fn renumber(alloc: Global, d: &TextDerivation) -> Result<TextDerivation, NoMemory>
    ensures { IfOk result (λ x. x ≡ numbering (stated d.now)) }
{
    let mut labels = vec![in alloc; 0; d.labels().count() as usize]?;
    let mut terms = vec![in alloc; 0; d.terms().count() as usize]?;
    let mut numbered = TextDerivation::new(alloc, d.limit());
    renumber_all(alloc, d, &mut numbered, &mut labels, &mut terms)?;
    Ok(numbered)
}
