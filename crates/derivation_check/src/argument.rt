//! The arguments of a use step as a judgement has them: a label by its place in the table of the branch, a term by its row.

ghost use Rattle.std.specs.Prelude.{◌≡◌, List};
ghost use Rattle.calculus.specs.Derivations as derivation;
ghost use Rattle.derivation_check.specs.ArgumentView.{the_argument, the_label_argument};
ghost use Rattle.sequent_calc.specs.FormView.{modal_form, term_form};

use formula_text::TermRow;
use sequent_calc::{ModalForm, TermForm};

/// What a step with a modal part is given: the place of a nu step's label, or the number of a pi step's new mark.
#[derive(Clone, Copy)]
pub enum LabelArgument {
    None,
    To(u32),
    New(u32),
}

/// What a step on a quantifier is given: a gamma step's term, with its number less one and its place in the table of
/// substitutions or 0, or the number of a delta step's eigenvariable.
#[derive(Clone, Copy)]
pub enum Argument<'a> {
    None,
    Term(&'a TermRow, usize, u32),
    Name(u32),
}

impl LabelArgument {
    /// What is given.
    pub fn form(self) -> ModalForm
        ensures { (table : List derivation.Label) → result ≡ modal_form (the_label_argument table self) }
    {
        match self {
            LabelArgument::None => ModalForm::None,
            LabelArgument::To(_) => ModalForm::To,
            LabelArgument::New(_) => ModalForm::New,
        }
    }
}

/// What is given.
pub fn term_form(term: Argument<'_>) -> TermForm
    ensures { result ≡ term_form (the_argument term.entry) }
{
    match term {
        Argument::None => TermForm::None,
        Argument::Term(_, _, _) => TermForm::Term,
        Argument::Name(_) => TermForm::Name,
    }
}
