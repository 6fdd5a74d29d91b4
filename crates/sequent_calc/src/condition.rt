//! What the rules demand of the arguments of a step.

ghost use Rattle.std.specs.Prelude.{◌≡◌, ◌&&◌, map};
ghost use Rattle.calculus.specs.Calculus.{character_is_new, character_occurs, eigen_is_new};
ghost use Rattle.calculus.specs.Calculus.{eigen_occurs, has_step, home_is, is_known, is_reachable};
ghost use Rattle.calculus.specs.Calculus.{modal_fits, term_allowed, term_fits};
ghost use Rattle.calculus.specs.Derivations as derivation;
ghost use Rattle.logic_rules.specs.MarkView.{the_character};
ghost use Rattle.sequent_calc.specs.DerivationView.{the_names};
ghost use Rattle.sequent_calc.specs.EntryView.{the_entry};
ghost use Rattle.sequent_calc.specs.FormView.{fits_modal, fits_term, modal_form, term_form};
ghost use Rattle.sequent_calc.specs.StepView.{the_modal, the_row_arg};

use crate::entry::Entry;
use crate::form::{ModalForm, TermForm};
use crate::leaf::{LeafTest, any_leaf_in, any_leaf_in_row, eigen_named};
use crate::names::Names;
use crate::step::{ModalArg, RowArg};
use logic_rules::{Kind, Label, Logic, Mark, ModalPart, Problem, Shape};

fn modal_fits(part: ModalPart, form: ModalForm) -> bool
    ensures { result ≡ fits_modal part form }
{
    match (part, form) {
        (ModalPart::Plain, ModalForm::None)
        | (ModalPart::Nu, ModalForm::To)
        | (ModalPart::Pi, ModalForm::New) => true,
        _ => false,
    }
}

fn term_fits(shape: Shape, form: TermForm) -> bool
    ensures { result ≡ fits_term shape form }
{
    match (shape, form) {
        (Shape::Gamma, TermForm::Term) | (Shape::Delta, TermForm::Name) => true,
        (Shape::Gamma, _) | (Shape::Delta, _) => false,
        (_, TermForm::None) => true,
        _ => false,
    }
}

fn has_step(kind: Kind) -> bool
    ensures { result ≡ has_step kind.modal kind.shape }
{
    match (kind.modal, kind.shape) {
        (ModalPart::Plain, Shape::Literal) => false,
        _ => true,
    }
}

fn forms_fit(kind: Kind, modal: ModalForm, term: TermForm) -> bool
    ensures { result ≡ (fits_modal kind.modal modal && fits_term kind.shape term
        && has_step kind.modal kind.shape) }
{
    modal_fits(kind.modal, modal) && term_fits(kind.shape, term) && has_step(kind)
}

/// Whether arguments of these forms are just those that the kind of formula asks for. A literal
/// without a modal part has no step.
pub fn arguments_fit(kind: Kind, modal: ModalForm, term: TermForm) -> bool
    ensures { (m : derivation.ModalArg) → (t : derivation.TermArg) → modal ≡ modal_form m
        → term ≡ term_form t → result ≡ (modal_fits kind.modal m && term_fits kind.shape t
        && has_step kind.modal kind.shape) }
{
    forms_fit(kind, modal, term)
}

/// Whether each name of the argument is listed.
pub fn is_known(names: &Names, term: &RowArg) -> bool
    ensures { result ≡ is_known (the_names names.now) (the_row_arg term.now) }
{
    match term {
        RowArg::None => true,
        RowArg::Term(t) => !any_leaf_in_row(&LeafTest::IsUnknown(names), t),
        RowArg::Name(number) => eigen_named(names, *number).is_some(),
    }
}

/// Whether a nu step of the logic leads to the label that it is given.
pub fn is_reachable(logic: Logic, from: &Label, modal: &ModalArg) -> bool
    ensures { result ≡ is_reachable logic from.now (the_modal modal.now) }
{
    match modal {
        ModalArg::To(to) => from.reaches(logic, to),
        ModalArg::None | ModalArg::New(_) => true,
    }
}

// Whether the mark stands in a label of the sequent, or in the home of a name that stands in a
// formula there.
fn mark_occurs(names: &Names, mark: Mark, sequent: &[Entry]) -> bool
    ensures { result
        ≡ character_occurs (the_names names.now) (the_character mark) (map the_entry sequent.now) }
{
    for entry in sequent {
        if entry.label.holds(mark) {
            return true;
        }
        if any_leaf_in(&LeafTest::HasInHome(names, mark), &entry.formula) {
            return true;
        }
    }
    false
}

// Whether the eigenvariable stands in a formula of the sequent.
fn eigen_occurs(number: u32, sequent: &[Entry]) -> bool
    ensures { result ≡ eigen_occurs number (map the_entry sequent.now) }
{
    for entry in sequent {
        if any_leaf_in(&LeafTest::IsEigen(number), &entry.formula) {
            return true;
        }
    }
    false
}

/// Whether the mark or eigenvariable that the step brings occurs nowhere in the sequent.
pub fn is_new(names: &Names, sequent: &[Entry], modal: &ModalArg, term: &RowArg) -> bool
    ensures { result
        ≡ (character_is_new (the_names names.now) (map the_entry sequent.now) (the_modal modal.now)
        && eigen_is_new (map the_entry sequent.now) (the_row_arg term.now)) }
{
    let mark_is_new = match modal {
        ModalArg::New(number) => !mark_occurs(names, Mark::New(*number), sequent),
        ModalArg::None | ModalArg::To(_) => true,
    };
    let eigen_is_new = match term {
        RowArg::Name(number) => !eigen_occurs(*number, sequent),
        RowArg::None | RowArg::Term(_) => true,
    };
    mark_is_new && eigen_is_new
}

/// Whether the home of the eigenvariable is the label of the component.
pub fn home_is(names: &Names, at: &Label, term: &RowArg) -> bool
    ensures { result ≡ home_is (the_names names.now) at.now (the_row_arg term.now) }
{
    match term {
        RowArg::Name(number) => match eigen_named(names, *number) {
            Some(name) => name.1.is_equal(at),
            None => false,
        },
        RowArg::None | RowArg::Term(_) => true,
    }
}

/// Whether the term of a gamma step may stand at the label of the component.
pub fn term_allowed(problem: &Problem, names: &Names, at: &Label, term: &RowArg) -> bool
    ensures { result
        ≡ term_allowed problem.now (the_names names.now) at.now (the_row_arg term.now) }
{
    match term {
        RowArg::Term(t) => !any_leaf_in_row(&LeafTest::IsForbidden(problem, names, at), t),
        RowArg::None | RowArg::Name(_) => true,
    }
}
