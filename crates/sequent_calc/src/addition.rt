//! What a step adds to a sequent.

ghost use Rattle.std.specs.Prelude.{◌≡◌, ◌&&◌, ◌∷◌, [], ◌++◌, List, None, IfOk, Some, Ok, Err, map};
ghost use Rattle.calculus.specs.declared.fault.StepFault.{StepFault};
ghost use Rattle.calculus.specs.Calculus.{Children, apply, children_of, close_branch};
ghost use Rattle.calculus.specs.Calculus.{conditions_of_use, connects, entry_at, entry_of};
ghost use Rattle.calculus.specs.Calculus.{first_fault, has_step, label_after, modal_fits};
ghost use Rattle.calculus.specs.Calculus.{term_fits, use_entry, with_argument, with_components};
ghost use Rattle.calculus.specs.Kinds.{components, modal_of, shape_of, signed};
ghost use Rattle.formula_core.specs.FormulaView.{the_formula};
ghost use Rattle.calculus.specs.Calculus as calculus;
ghost use Rattle.calculus.specs.Derivations as derivation;
ghost use Rattle.sequent_calc.specs.ChildrenView.{children_by, faulty};
ghost use Rattle.sequent_calc.specs.DerivationView.{the_names};
ghost use Rattle.sequent_calc.specs.EntryView.{the_entry};
ghost use Rattle.sequent_calc.specs.StepView.{the_modal, the_row_arg, the_step, the_term_arg};
ghost use Rattle.std.specs.Option.{option_map};
ghost use Rattle.std.specs.Prelude.{option_copied};

use crate::apply_fault::ApplyFault;
use crate::atom::are_same_atom;
use crate::condition::{arguments_fit, home_is, is_known, is_new, is_reachable, term_allowed};
use crate::entry::{Entry, Sequent};
use crate::names::Names;
use crate::step::{ModalArg, RowArg, Step, TermArg};
use calculus::fault::StepFault;
use cop_base::NoMemory;
use formula_core::{Components, Formula, Sign, Term};
use formula_text::term_of;
use logic_rules::{Kind, Label, Logic, Mark, Problem, kind_of};
use std::alloc::{AllocError, Global};

/// What a step does to the open sequent.
#[derive(Drop)]
pub enum Addition {
    /// The branch is closed.
    Close,
    /// The branch grows by these entries.
    Extend(Sequent),
    /// The branch splits in two, which grow by one entry each.
    Fork(Entry, Entry),
}

// The label of the components.
fn label_after(
    alloc: Global,
    logic: Logic,
    label: &Label,
    modal: &ModalArg,
) -> Result<Label, NoMemory>
    ensures { IfOk result (λ at. at ≡ label_after logic label.now (the_modal modal.now)) }
{
    match modal {
        ModalArg::None => label.copy(alloc),
        ModalArg::To(to) => to.copy(alloc),
        ModalArg::New(number) => label.after_pi(alloc, logic, Mark::New(*number)),
    }
}

// A component at its label, with the argument for its variable where there is one.
fn component(
    alloc: Global,
    sign: Sign,
    formula: &Formula,
    at: &Label,
    term: &RowArg,
) -> Result<Entry, NoMemory>
    ensures { IfOk result (λ e. the_entry e
        ≡ entry_at at.now (with_argument (the_row_arg term.now)
        (signed sign (the_formula formula.now)))) }
{
    let formula = match term {
        RowArg::None => formula.copy(alloc)?,
        RowArg::Term(row) => {
            let t = term_of(alloc, row)?;
            formula.instance(alloc, &t)?
        }
        RowArg::Name(number) => formula.instance(alloc, &Term::Eigen(*number))?,
    };
    let label = at.copy(alloc)?;
    Ok(Entry {
        sign,
        formula,
        label,
    })
}

fn one(alloc: Global, entry: Entry) -> Result<Addition, NoMemory>
    ensures { IfOk result (λ a. (s : List derivation.Entry) → children_by s a
        ≡ calculus.one (s ++ the_entry entry ∷ [])) }
{
    let mut entries = Sequent::new(alloc);
    entries.push(entry)?;
    Ok(Addition::Extend(entries))
}

fn both(alloc: Global, first: Entry, second: Entry) -> Result<Addition, NoMemory>
    ensures { IfOk result (λ a. (s : List derivation.Entry) → children_by s a
        ≡ calculus.one (s ++ the_entry first ∷ the_entry second ∷ [])) }
{
    let mut entries = Sequent::new(alloc);
    entries.push(first)?;
    entries.push(second)?;
    Ok(Addition::Extend(entries))
}

// The components of an entry, at the label that the step leads to.
fn components(alloc: Global, entry: &Entry, at: &Label, term: &RowArg) -> Result<Addition, NoMemory>
    ensures { IfOk result (λ a. (s : List derivation.Entry) → children_by s a
        ≡ with_components (shape_of entry.now.sign (the_formula entry.now.formula)) s at.now
        (map (with_argument (the_row_arg term.now)) (components entry.now.sign (the_formula entry.now.formula)))) }
{
    match entry.formula.components(entry.sign) {
        Components::Literal(_, _) => {
            one(
                alloc,
                component(alloc, entry.sign, &entry.formula, at, term)?,
            )
        }
        Components::One(a) | Components::Gamma(a) | Components::Delta(a) => {
            one(alloc, component(alloc, a.sign, a.formula, at, term)?)
        }
        Components::Alpha(a, b) => {
            let first = component(alloc, a.sign, a.formula, at, term)?;
            let second = component(alloc, b.sign, b.formula, at, term)?;
            both(alloc, first, second)
        }
        Components::Beta(a, b) => {
            let first = component(alloc, a.sign, a.formula, at, term)?;
            let second = component(alloc, b.sign, b.formula, at, term)?;
            Ok(Addition::Fork(first, second))
        }
    }
}

// Whether the arguments are just those that the kind of formula asks for.
fn is_fit(kind: Kind, modal: &ModalArg, term: &RowArg) -> bool
    ensures { result ≡ (modal_fits kind.modal (the_modal modal.now)
        && term_fits kind.shape (the_row_arg term.now) && has_step kind.modal kind.shape) }
{
    arguments_fit(kind, modal.form(), term.form())
}

// The first demand of a use step that is not met; `at` is the label of the components.
fn use_fault(
    problem: &Problem,
    names: &Names,
    sequent: &[Entry],
    entry: &Entry,
    modal: &ModalArg,
    term: &RowArg,
    kind: Kind,
    at: &Label,
) -> Option<StepFault>
    requires modal { kind.modal
        ≡ modal_of problem.now.setting.logic entry.now.sign (the_formula entry.now.formula) }
    requires shape { kind.shape ≡ shape_of entry.now.sign (the_formula entry.now.formula) }
    requires label { at.now
        ≡ label_after problem.now.setting.logic entry.now.label (the_modal modal.now) }
    ensures { (c : calculus.Children) → first_fault
        (conditions_of_use problem.now (the_names names.now) (map the_entry sequent.now)
        (the_entry entry.now) (the_modal modal.now) (the_row_arg term.now)) c
        ≡ faulty c result }
{
    let logic = problem.setting().logic();
    if !is_fit(kind, modal, term) {
        return Some(StepFault::WrongArguments);
    }
    if !is_known(names, term) {
        return Some(StepFault::UnknownName);
    }
    if !is_reachable(logic, &entry.label, modal) {
        return Some(StepFault::NotReachable);
    }
    if !is_new(names, sequent, modal, term) {
        return Some(StepFault::NotNew);
    }
    if !home_is(names, at, term) {
        return Some(StepFault::WrongHome);
    }
    if !term_allowed(problem, names, at, term) {
        return Some(StepFault::NotAllowed);
    }
    None
}

fn added_by_row(
    alloc: Global,
    problem: &Problem,
    names: &Names,
    sequent: &[Entry],
    entry: &Entry,
    modal: &ModalArg,
    term: &RowArg,
) -> Result<Addition, ApplyFault>
    ensures added { IfOk result (λ a. use_entry
        problem.now (the_names names.now) (map the_entry sequent.now)
        (Some (the_entry entry.now)) (the_modal modal.now) (the_row_arg term.now)
        ≡ Ok (children_by (map the_entry sequent.now) a)) }
    ensures fault { (f : StepFault) → result ≡ Err (ApplyFault.Fault f)
        → use_entry problem.now (the_names names.now) (map the_entry sequent.now)
        (Some (the_entry entry.now)) (the_modal modal.now) (the_row_arg term.now) ≡ Err f }
{
    let logic = problem.setting().logic();
    let kind = kind_of(logic, entry.sign, &entry.formula);
    let at = label_after(alloc, logic, &entry.label, modal)?;
    if let Some(fault) = use_fault(problem, names, sequent, entry, modal, term, kind, &at) {
        return Err(ApplyFault::Fault(fault));
    }
    Ok(components(alloc, entry, &at, term)?)
}

fn added_by_use(
    alloc: Global,
    problem: &Problem,
    names: &Names,
    sequent: &[Entry],
    entry: &Entry,
    modal: &ModalArg,
    term: &TermArg,
) -> Result<Addition, ApplyFault>
    ensures added { IfOk result (λ a. use_entry
        problem.now (the_names names.now) (map the_entry sequent.now)
        (Some (the_entry entry.now)) (the_modal modal.now) (the_term_arg term.now)
        ≡ Ok (children_by (map the_entry sequent.now) a)) }
    ensures fault { (f : StepFault) → result ≡ Err (ApplyFault.Fault f)
        → use_entry problem.now (the_names names.now) (map the_entry sequent.now)
        (Some (the_entry entry.now)) (the_modal modal.now) (the_term_arg term.now) ≡ Err f }
{
    let row = term.row(alloc)?;
    added_by_row(alloc, problem, names, sequent, entry, modal, &row)
}

// Whether the entries are T and F of one atom at one label.
fn connects(given: &Entry, shown: &Entry) -> bool
    ensures { result ≡ connects (the_entry given.now) (the_entry shown.now) }
{
    given.sign == Sign::T
        && shown.sign == Sign::F
        && are_same_atom(&given.formula, &shown.formula)
        && given.label.is_equal(&shown.label)
}

// Entries are numbered from 1.
fn entry_of(sequent: &[Entry], number: u32) -> Option<&Entry>
    ensures { option_map the_entry (option_copied result)
        ≡ entry_of (map the_entry sequent.now) number }
{
    if number == 0 {
        return None;
    }
    let place = number as usize - 1;
    if place >= sequent.len() {
        return None;
    }
    Some(&sequent[place])
}

/// What a step adds to a sequent, or the first demand of the rules that it does not meet. Nothing
/// of the sequent but the components is copied, for callers that grow a branch in place.
pub fn addition_of(
    alloc: Global,
    problem: &Problem,
    names: &Names,
    sequent: &[Entry],
    step: &Step,
) -> Result<Addition, ApplyFault>
    ensures added { IfOk result (λ a. apply
        problem.now (the_names names.now) (map the_entry sequent.now)
        (the_step step.now) ≡ Ok (children_by (map the_entry sequent.now) a)) }
    ensures fault { (f : StepFault) → result ≡ Err (ApplyFault.Fault f)
        → apply problem.now (the_names names.now) (map the_entry sequent.now) (the_step step.now)
        ≡ Err f }
{
    match step {
        Step::Use { entry, modal, term } => match entry_of(sequent, *entry) {
            Some(entry) => added_by_use(alloc, problem, names, sequent, entry, modal, term),
            None => Err(ApplyFault::Fault(StepFault::NoEntry)),
        },
        Step::Axiom { given, shown } => match (
            entry_of(sequent, *given),
            entry_of(sequent, *shown),
        ) {
            (Some(given), Some(shown)) => {
                if connects(given, shown) {
                    Ok(Addition::Close)
                } else {
                    Err(ApplyFault::Fault(StepFault::NoConnection))
                }
            }
            _ => Err(ApplyFault::Fault(StepFault::NoEntry)),
        },
    }
}
