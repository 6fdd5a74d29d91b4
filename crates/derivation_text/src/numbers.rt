//! The steps of a derivation with numbers in place of labels and terms.

use sequent_calc::{ModalForm, TermForm};

/// What a step with a modal part is given: the number of a nu step's label, from 1, or the number of a pi step's new mark.
#[derive(Clone, Copy, Debug, PartialEq, Eq)]
pub enum NumberedModal {
    None,
    To(u32),
    New(u32),
}

/// What a step on a quantifier is given: the number of a gamma step's term, from 1, or that of a delta step's eigenvariable.
#[derive(Clone, Copy, Debug, PartialEq, Eq)]
pub enum NumberedTerm {
    None,
    Term(u32),
    Name(u32),
}

/// A step on the open sequent, as `sequent_calc::Step`.
#[derive(Clone, Copy, Debug, PartialEq, Eq)]
pub enum NumberedStep {
    Use {
        entry: u32,
        modal: NumberedModal,
        term: NumberedTerm,
    },
    Axiom {
        given: u32,
        shown: u32,
    },
}

impl NumberedModal {
    /// What is given.
    pub fn form(self) -> ModalForm {
        match self {
            NumberedModal::None => ModalForm::None,
            NumberedModal::To(_) => ModalForm::To,
            NumberedModal::New(_) => ModalForm::New,
        }
    }
}

impl NumberedTerm {
    /// What is given.
    pub fn form(self) -> TermForm {
        match self {
            NumberedTerm::None => TermForm::None,
            NumberedTerm::Term(_) => TermForm::Term,
            NumberedTerm::Name(_) => TermForm::Name,
        }
    }
}
