//! Labels and terms of names and steps, entered in lists.

ghost use Rattle.std.specs.Prelude.{◌≡◌, IfOk, OnErr, OnOk};
ghost use Rattle.calculus.specs.Versions.{home_number, numbered_arg, numbered_modal};
ghost use Rattle.derivation_text.specs.Entering.{with_arg, with_home, with_modal};
ghost use Rattle.derivation_text.specs.NumbersView.{the_numbered_arg, the_numbered_modal};
ghost use Rattle.sequent_calc.specs.NamesView.{the_home};
ghost use Rattle.sequent_calc.specs.StepView.{the_modal, the_row_arg};

use crate::label_list::LabelList;
use crate::numbers::{NumberedModal, NumberedTerm};
use crate::term_list::TermList;
use cop_base::NoMemory;
use sequent_calc::{Home, ModalArg, RowArg};

/// The number of the home of a spare constant, if it has one. Want of memory leaves the labels as they were.
pub fn enter_home(labels: &mut LabelList, home: &Home) -> Result<Option<u32>, NoMemory>
    ensures entered { OnOk result (labels.new ≡ with_home labels.old (the_home home.now)) }
    ensures number { IfOk result (λ k. k ≡ home_number labels.new (the_home home.now)) }
    ensures err { OnErr result (labels.new ≡ labels.old) }
{
    match home {
        Home::Anywhere => Ok(None),
        Home::At(label) => {
            let number = labels.enter(label)?;
            Ok(Some(number))
        }
    }
}

/// The argument of a step with a modal part, its label by its number.
pub fn enter_modal(labels: &mut LabelList, modal: &ModalArg) -> Result<NumberedModal, NoMemory>
    ensures entered { OnOk result (labels.new ≡ with_modal labels.old (the_modal modal.now)) }
    ensures number { IfOk result (λ m. the_numbered_modal m ≡ numbered_modal labels.new (the_modal modal.now)) }
    ensures err { OnErr result (labels.new ≡ labels.old) }
{
    match modal {
        ModalArg::None => Ok(NumberedModal::None),
        ModalArg::To(label) => {
            let number = labels.enter(label)?;
            Ok(NumberedModal::To(number))
        }
        ModalArg::New(number) => Ok(NumberedModal::New(*number)),
    }
}

/// The argument of a step on a quantifier, its term by its number.
pub fn enter_arg(terms: &mut TermList, arg: RowArg) -> Result<NumberedTerm, NoMemory>
    ensures entered { OnOk result (terms.new ≡ with_arg terms.old (the_row_arg arg)) }
    ensures number { IfOk result (λ t. the_numbered_arg t ≡ numbered_arg terms.new (the_row_arg arg)) }
    ensures err { OnErr result (terms.new ≡ terms.old) }
{
    match arg {
        RowArg::None => Ok(NumberedTerm::None),
        RowArg::Term(row) => {
            let number = terms.enter(row)?;
            Ok(NumberedTerm::Term(number))
        }
        RowArg::Name(number) => Ok(NumberedTerm::Name(number)),
    }
}
