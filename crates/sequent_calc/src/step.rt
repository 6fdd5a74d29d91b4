ghost use Rattle.std.specs.Prelude.{◌≡◌, ◌++◌, ◌∷◌, [], map, IfOk, OnOk, OnErr};
ghost use Rattle.calculus.specs.Derivations as derivation;
ghost use Rattle.sequent_calc.specs.FormView.{modal_form, term_form};
ghost use Rattle.sequent_calc.specs.StepView.{the_modal, the_row_arg, the_step, the_term_arg};

use crate::form::{ModalForm, TermForm};
use cop_base::NoMemory;
use formula_text::TermRow;
use logic_rules::Label;
use std::alloc::Global;
use std::marker::Model;
use term_table::SharedTerm;

/// What a step with a modal part is given: the label of a nu step, or the number of a pi step's new
/// mark. The label lies apart, since most steps have none and a derivation has many.
#[derive(Drop)]
pub enum ModalArg {
    None,
    To(Box<Label>),
    New(u32),
}

/// What a step on a quantifier is given: the term of a gamma step, or the number of a delta step's
/// eigenvariable.
#[derive(Drop)]
pub enum TermArg {
    None,
    Term(SharedTerm),
    Name(u32),
}

/// The same with the term in a row.
#[derive(Drop)]
pub enum RowArg {
    None,
    Term(TermRow),
    Name(u32),
}

impl ModalArg {
    /// The label of a nu step.
    pub fn to(alloc: Global, label: Label) -> Result<ModalArg, NoMemory>
        ensures { IfOk result (λ arg. the_modal arg ≡ derivation.to label) }
    {
        Ok(ModalArg::To(Box::new(alloc, label)?))
    }

    /// What is given.
    pub fn form(&self) -> ModalForm
        ensures { result ≡ modal_form (the_modal self.now) }
    {
        match self {
            ModalArg::None => ModalForm::None,
            ModalArg::To(_) => ModalForm::To,
            ModalArg::New(_) => ModalForm::New,
        }
    }
}

impl TermArg {
    /// What is given, with the term in a row.
    pub fn row(&self, alloc: Global) -> Result<RowArg, NoMemory>
        ensures { IfOk result (λ arg. the_row_arg arg ≡ the_term_arg self.now) }
    {
        match self {
            TermArg::None => Ok(RowArg::None),
            TermArg::Term(term) => {
                let row = term.row(alloc)?;
                Ok(RowArg::Term(row))
            }
            TermArg::Name(number) => Ok(RowArg::Name(*number)),
        }
    }
}

impl RowArg {
    /// What is given.
    pub fn form(&self) -> TermForm
        ensures { result ≡ term_form (the_row_arg self.now) }
    {
        match self {
            RowArg::None => TermForm::None,
            RowArg::Term(_) => TermForm::Term,
            RowArg::Name(_) => TermForm::Name,
        }
    }
}

/// A step on the open sequent. Entries have numbers from 1.
#[derive(Drop)]
pub enum Step {
    /// Adds the components of an entry.
    Use {
        entry: u32,
        modal: ModalArg,
        term: TermArg,
    },
    /// Closes the branch by the T entry of an atom and the F entry of the same atom at the same
    /// label.
    Axiom {
        given: u32,
        shown: u32,
    },
}

/// The steps of a derivation in preorder, the first child before the second.
#[derive(Drop)]
pub struct StepList {
    items: Vec<Step>,
}

impl Model for StepList {
    ghost use Rattle.std.specs.Prelude.{List, map};
    ghost use Rattle.calculus.specs.Derivations as derivation;
    ghost use Rattle.calculus.specs.Codes.{term_code};
    ghost use Rattle.std.specs.Coded.{codes};
    ghost use Rattle.sequent_calc.specs.StepView.{the_step};

    ghost Value = { List derivation.Step };

    ghost coded = { Prim.hlevel (codes, term_code) };

    ghost view = { λ a. map the_step a.items.items };
}

impl StepList {
    /// The list without steps.
    pub fn new(alloc: Global) -> StepList
        ensures { result ≡ [] }
    {
        StepList {
            items: Vec::new(alloc),
        }
    }

    /// Adds a step at the end. Want of memory leaves the list as it was.
    pub fn push(&mut self, item: Step) -> Result<(), NoMemory>
        ensures ok { OnOk result (self.new ≡ self.old ++ the_step item ∷ []) }
        ensures err { OnErr result (self.new ≡ self.old) }
    {
        self.items.push(item)?;
        Ok(())
    }

    /// The steps in preorder.
    pub fn items(&self) -> &[Step]
        ensures { map the_step result.now ≡ self.now }
    {
        self.items.as_slice()
    }
}
