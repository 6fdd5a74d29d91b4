//! A derivation as its texts have it.

ghost use Rattle.std.specs.Prelude.{◌≡◌, length, map, suc, IfOk, IsTrue, OnOk};
ghost use Rattle.calculus.specs.Derivations as derivation;
ghost use Rattle.calculus.specs.Equality.{term_eq};
ghost use Rattle.calculus.specs.Versions.{is_among, number_in, numbered_home_is_written, same_label};
ghost use Rattle.derivation_text.specs.Entering.{empty_of, entered, put_eigen, put_spare, put_step, with_label};
ghost use Rattle.derivation_text.specs.Renumbering.{with_labels, with_terms};
ghost use Rattle.derivation_text.specs.Listed.{are_listed, has_home_among, may_have_home_among};
ghost use Rattle.derivation_text.specs.NumberedBody.{eigen_of, label_of, spare_of, step_of, term_of, with_numbered_line};
ghost use Rattle.std.specs.List.{list_all};
ghost use Rattle.derivation_text.specs.NumbersView.{AreAmong, the_numbered_eigen, the_numbered_spare, the_numbered_step};
ghost use Rattle.sequent_calc.specs.NamesView.{the_eigen, the_spare};
ghost use Rattle.sequent_calc.specs.StepView.{the_modal, the_row_arg};

use crate::entering::{enter_arg, enter_home, enter_modal};
use crate::label_list::LabelList;
use crate::numbers::NumberedStep;
use crate::term_list::TermList;
use cop_base::NoMemory;
use formula_text::TermRow;
use logic_rules::Label;
use sequent_calc::{Home, ModalArg, RowArg};
use std::alloc::Global;
use std::marker::Model;

/// A derivation whose labels and terms have numbers, from 1: names and steps are small, and refer to these. Read from a text of either
/// version, or made of a `sequent_calc::Derivation`, its numbers are in the order of first occurrence, labels of homes before those of steps.
#[derive(Drop)]
pub struct TextDerivation {
    limit: u8,
    labels: LabelList,
    eigens: Vec<(u32, u32)>,
    spares: Vec<(u32, Option<u32>)>,
    terms: TermList,
    steps: Vec<NumberedStep>,
}

impl Model for TextDerivation {
    ghost use Rattle.calculus.specs.Versions.{NumberedDerivation};
    ghost use Rattle.derivation_text.specs.NumbersView.{AreAmong, the_numbered_derivation};
    ghost use Rattle.calculus.specs.Codes.{term_code};
    ghost use Rattle.std.specs.Coded.{codes};

    ghost Value = { NumberedDerivation };

    ghost coded = { Prim.hlevel (codes, term_code) };

    ghost view = { λ d. the_numbered_derivation d.limit d.labels d.eigens.items d.spares.items d.terms d.steps.items };

    ghost invariant = { λ d. AreAmong (the_numbered_derivation d.limit d.labels d.eigens.items d.spares.items d.terms d.steps.items) };
}

impl TextDerivation {
    /// A derivation without names and steps, to which they are added.
    pub(crate) fn new(alloc: Global, limit: u8) -> TextDerivation
        ensures { result ≡ empty_of limit }
    {
        TextDerivation {
            limit,
            labels: LabelList::new(alloc),
            eigens: Vec::new(alloc),
            spares: Vec::new(alloc),
            terms: TermList::new(alloc),
            steps: Vec::new(alloc),
        }
    }

    /// The path limit that the text notes.
    pub fn limit(&self) -> u8
        ensures { result ≡ self.now.limit }
    {
        self.limit
    }

    /// The labels of homes and steps.
    pub fn labels(&self) -> &LabelList
        ensures list { result.now ≡ self.now.labels }
        ensures among { AreAmong self.now }
    {
        &self.labels
    }

    /// The eigenvariables, each with the number of its home.
    pub fn eigens(&self) -> &[(u32, u32)]
        ensures view { map the_numbered_eigen result.now ≡ self.now.eigens }
        ensures among { IsTrue (list_all (has_home_among (length self.now.labels)) self.now.eigens) }
    {
        self.eigens.as_slice()
    }

    /// The spare constants, each with the number of its home, if it has one.
    pub fn spares(&self) -> &[(u32, Option<u32>)]
        ensures view { map the_numbered_spare result.now ≡ self.now.spares }
        ensures among { IsTrue (list_all (may_have_home_among (length self.now.labels)) self.now.spares) }
    {
        self.spares.as_slice()
    }

    /// The terms of gamma steps.
    pub fn terms(&self) -> &TermList
        ensures { result.now ≡ self.now.terms }
    {
        &self.terms
    }

    /// The steps in preorder.
    pub fn steps(&self) -> &[NumberedStep]
        ensures view { map the_numbered_step result.now ≡ self.now.steps }
        ensures listed { IsTrue (list_all (are_listed (length self.now.labels) (length self.now.terms)) self.now.steps) }
    {
        self.steps.as_slice()
    }

    /// Lists a label under the next number.
    pub(crate) fn put_label(&mut self, label: &Label) -> Result<(), NoMemory>
        ensures { OnOk result (self.new ≡ with_numbered_line self.old (label_of (suc (length self.old.labels)) label.now)) }
    {
        self.labels.push(label)?;
        Ok(())
    }

    /// Lists a term under the next number.
    pub(crate) fn put_term(&mut self, row: TermRow) -> Result<(), NoMemory>
        ensures { OnOk result (self.new ≡ with_numbered_line self.old (term_of (suc (length self.old.terms)) row)) }
    {
        self.terms.push(row)?;
        Ok(())
    }

    /// Adds an eigenvariable whose home has a number.
    pub(crate) fn put_eigen(&mut self, number: u32, home: u32) -> Result<(), NoMemory>
        requires { IsTrue (is_among (length self.old.labels) home) }
        ensures { OnOk result (self.new ≡ with_numbered_line self.old (eigen_of (the_numbered_eigen (number, home)))) }
    {
        self.eigens.push((number, home))?;
        Ok(())
    }

    /// Adds a spare constant whose home has a number, if it has one.
    pub(crate) fn put_spare(&mut self, number: u32, home: Option<u32>) -> Result<(), NoMemory>
        requires { IsTrue (numbered_home_is_written (length self.old.labels) home) }
        ensures { OnOk result (self.new ≡ with_numbered_line self.old (spare_of (the_numbered_spare (number, home)))) }
    {
        self.spares.push((number, home))?;
        Ok(())
    }

    /// Adds a step whose numbers are those of labels and terms that are listed.
    pub(crate) fn put_step(&mut self, step: NumberedStep) -> Result<(), NoMemory>
        requires { IsTrue (are_listed (length self.old.labels) (length self.old.terms) (the_numbered_step step)) }
        ensures { OnOk result (self.new ≡ with_numbered_line self.old (step_of (the_numbered_step step))) }
    {
        self.steps.push(step)?;
        Ok(())
    }

    /// The number of a label, which is listed under the next one where it is new.
    pub(crate) fn enter_label(&mut self, label: &Label) -> Result<u32, NoMemory>
        ensures entered { OnOk result (self.new ≡ with_labels self.old (with_label self.old.labels label.now)) }
        ensures number { IfOk result (λ k. k ≡ number_in same_label self.new.labels label.now) }
    {
        let number = self.labels.enter(label)?;
        Ok(number)
    }

    /// The same of a term.
    pub(crate) fn enter_term(&mut self, row: TermRow) -> Result<u32, NoMemory>
        ensures entered { OnOk result (self.new ≡ with_terms self.old (entered term_eq self.old.terms row)) }
        ensures number { IfOk result (λ k. k ≡ number_in term_eq self.new.terms row) }
    {
        let number = self.terms.enter(row)?;
        Ok(number)
    }

    /// Adds an eigenvariable and enters its home.
    pub(crate) fn enter_eigen(&mut self, number: u32, home: &Label) -> Result<(), NoMemory>
        ensures { OnOk result (self.new ≡ put_eigen self.old (the_eigen (number, home.now))) }
    {
        let home = self.labels.enter(home)?;
        self.eigens.push((number, home))?;
        Ok(())
    }

    /// Adds a spare constant and enters its home.
    pub(crate) fn enter_spare(&mut self, number: u32, home: &Home) -> Result<(), NoMemory>
        ensures { OnOk result (self.new ≡ put_spare self.old (the_spare (number, home.now))) }
    {
        let home = enter_home(&mut self.labels, home)?;
        self.spares.push((number, home))?;
        Ok(())
    }

    /// Adds a use step and enters its label and its term.
    pub(crate) fn enter_use(
        &mut self,
        entry: u32,
        modal: &ModalArg,
        term: RowArg,
    ) -> Result<(), NoMemory>
        ensures { OnOk result (self.new ≡ put_step self.old (derivation.apply_to entry (the_modal modal.now) (the_row_arg term))) }
    {
        let modal = enter_modal(&mut self.labels, modal)?;
        let term = enter_arg(&mut self.terms, term)?;
        self.steps.push(NumberedStep::Use { entry, modal, term })?;
        Ok(())
    }

    /// Adds an axiom step.
    pub(crate) fn enter_axiom(&mut self, given: u32, shown: u32) -> Result<(), NoMemory>
        ensures { OnOk result (self.new ≡ put_step self.old (derivation.close given shown)) }
    {
        self.steps.push(NumberedStep::Axiom { given, shown })?;
        Ok(())
    }
}
