//! The steps of S4 that one step becomes.

ghost use Rattle.std.specs.Prelude.{◌≡◌, ◌<◌, ◌++◌, ◌∷◌, [], false, get_or, length, map, IfOk, OnOk};
ghost use Rattle.calculus.specs.Calculus.{is_atom};
ghost use Rattle.calculus.specs.Derivations as derivation;
ghost use Rattle.formula_core.specs.FormulaView.{the_formula};
ghost use Rattle.godel_transfer.specs.BranchView.{IsKept, the_branch};
ghost use Rattle.godel_transfer.specs.Transfer.{argument_image, axiom_to, modal_image, use_steps};
ghost use Rattle.sequent_calc.specs.StepView.{the_modal, the_step, the_term_arg};

use crate::branches::{Branches, Entry};
use crate::label_image::label_image;
use crate::numbers::next;
use crate::term_image::term_image;
use crate::using::has_two_steps;
use cop_base::NoMemory;
use label_table::label_at;
use logic_rules::{Label, Mark};
use sequent_calc::{ModalArg, Step, StepList, TermArg};
use std::alloc::Global;
use term_table::SharedTerm;

// A new character gets the number of entries before it.
fn modal_image(
    alloc: Global,
    branches: &Branches<'_>,
    modal: &ModalArg,
) -> Result<ModalArg, NoMemory>
    requires kept { IsKept branches.now }
    ensures { IfOk result
        (λ m. the_modal m ≡ modal_image (the_branch branches.now) (the_modal modal.now)) }
{
    match modal {
        ModalArg::None => Ok(ModalArg::None),
        ModalArg::To(to) => {
            let image = label_image(alloc, &branches.characters, to)?;
            ModalArg::to(alloc, image)
        }
        ModalArg::New(_) => Ok(ModalArg::New(branches.count)),
    }
}

// The eigenvariable of a step gets the step's number.
fn argument_image(
    alloc: Global,
    branches: &Branches<'_>,
    number: u32,
    term: &TermArg,
) -> Result<TermArg, NoMemory>
    requires kept { IsKept branches.now }
    ensures { IfOk result (λ t. the_term_arg t
        ≡ argument_image (the_branch branches.now) number (the_term_arg term.now)) }
{
    match term {
        TermArg::None => Ok(TermArg::None),
        TermArg::Term(t) => {
            let row = t.row(alloc)?;
            let image = term_image(alloc, &branches.eigens, &row)?;
            Ok(TermArg::Term(SharedTerm::Row(image)))
        }
        TermArg::Name(_) => Ok(TermArg::Name(number)),
    }
}

fn put(steps: &mut StepList, entry: u32, modal: ModalArg, term: TermArg) -> Result<(), NoMemory>
    ensures { OnOk result (steps.new ≡ steps.old
        ++ derivation.apply_to entry (the_modal modal) (the_term_arg term) ∷ []) }
{
    steps.push(Step::Use { entry, modal, term })
}

/// The steps on an entry that is no atom: past the box, where there is one, and on.
pub fn put_use(
    alloc: Global,
    branches: &Branches<'_>,
    steps: &mut StepList,
    number: u32,
    used: Entry<'_>,
    modal: &ModalArg,
    term: &TermArg,
) -> Result<(), NoMemory>
    requires kept { IsKept branches.now }
    requires compound { is_atom (the_formula used.formula.now) ≡ false }
    ensures { OnOk result (steps.new ≡ steps.old ++ use_steps (the_branch branches.now) number
        used.entry.place (the_formula used.entry.formula.now) (the_modal modal.now)
        (the_term_arg term.now)) }
{
    let modal = modal_image(alloc, branches, modal)?;
    let term = argument_image(alloc, branches, number, term)?;
    if has_two_steps(used.formula) {
        let behind = next(branches.count)?;
        put(steps, used.place, modal, TermArg::None)?;
        put(steps, behind, ModalArg::None, term)
    } else {
        put(steps, used.place, modal, term)
    }
}

// The label of S4 at a place, with the character that the next step introduces.
fn label_behind(alloc: Global, branches: &Branches<'_>, place: u32) -> Result<Label, NoMemory>
    requires { place < length branches.now.labels }
    ensures { IfOk result (λ label. label ≡ get_or branches.now.labels place []
        ++ derivation.new_mark branches.now.count ∷ []) }
{
    let mut label = label_at(alloc, &branches.labels, place)?;
    label.push(Mark::New(branches.count))?;
    Ok(label)
}

/// The steps of an axiom: past the box of the F atom by a new character, past that of the T atom to
/// the same label.
pub fn put_axiom(
    alloc: Global,
    branches: &Branches<'_>,
    steps: &mut StepList,
    given: u32,
    shown: Entry<'_>,
) -> Result<(), NoMemory>
    requires { shown.label < length branches.now.labels }
    ensures { OnOk result (steps.new ≡ steps.old ++ axiom_to branches.now.count given
        shown.entry.place (get_or branches.now.labels shown.entry.label [])) }
{
    let count = branches.count;
    let first = next(count)?;
    let second = next(first)?;
    let label = label_behind(alloc, branches, shown.label)?;
    let to = ModalArg::to(alloc, label)?;
    put(steps, shown.place, ModalArg::New(count), TermArg::None)?;
    put(steps, given, to, TermArg::None)?;
    steps.push(Step::Axiom {
        given: second,
        shown: first,
    })
}
