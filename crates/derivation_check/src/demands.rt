//! What the rules demand of a use step, over the tables of a state.

ghost use Rattle.std.specs.Prelude.{◌≡◌, ◌&&◌, ◌<◌, List, [], get_or, length};
ghost use Rattle.calculus.specs.Calculus as calculus;
ghost use Rattle.calculus.specs.Calculus.{character_is_new, conditions_of_use, eigen_is_new};
ghost use Rattle.calculus.specs.Calculus.{first_fault, is_reachable, label_after};
ghost use Rattle.calculus.specs.Derivations as derivation;
ghost use Rattle.calculus.specs.Kinds.{modal_of, shape_of};
ghost use Rattle.derivation_check.specs.DemandsView.{the_demands};
ghost use Rattle.derivation_check.specs.HomesView.{AreHomes};
ghost use Rattle.derivation_check.specs.NamesTold.{IsNamed};
ghost use Rattle.derivation_check.specs.StateView.{Tells};
ghost use Rattle.sequent_calc.specs.ChildrenView.{faulty};
ghost use Rattle.derivation_check.specs.ArgumentView.{the_argument, the_label_argument};

use crate::allowed::{home_is, is_known, term_allowed};
use crate::argument::{Argument, LabelArgument, term_form};
use crate::state::State;
use derivation_branch::NumberSet;
use label_table::{Labels, reaches};
use logic_rules::{Kind, Logic, Problem};
use sequent_calc::{StepFault, arguments_fit};

/// Which demands of a use step are met, in the order in which they are judged.
#[derive(Clone, Copy)]
struct Demands {
    arguments_fit: bool,
    is_known: bool,
    is_reachable: bool,
    is_new: bool,
    home_is: bool,
    term_allowed: bool,
}

// The fault of the first demand that is not met.
fn first_unmet(demands: Demands) -> Option<StepFault>
    ensures { (c : calculus.Children) → first_fault (the_demands demands) c ≡ faulty c result }
{
    if !demands.arguments_fit {
        return Some(StepFault::WrongArguments);
    }
    if !demands.is_known {
        return Some(StepFault::UnknownName);
    }
    if !demands.is_reachable {
        return Some(StepFault::NotReachable);
    }
    if !demands.is_new {
        return Some(StepFault::NotNew);
    }
    if !demands.home_is {
        return Some(StepFault::WrongHome);
    }
    if !demands.term_allowed {
        return Some(StepFault::NotAllowed);
    }
    None
}

// Whether a nu step leads to the label of the components.
fn is_reachable(logic: Logic, labels: &Labels, from: u32, at: u32, modal: LabelArgument) -> bool
    requires from { from < length labels.now }
    requires at { at < length labels.now }
    ensures { get_or labels.now at []
        ≡ label_after logic (get_or labels.now from []) (the_label_argument labels.now modal)
        → result ≡ is_reachable logic (get_or labels.now from []) (the_label_argument labels.now modal) }
{
    match modal {
        LabelArgument::To(_) => reaches(labels, logic, from, at),
        LabelArgument::None | LabelArgument::New(_) => true,
    }
}

// Whether the mark or eigenvariable that the step brings occurs nowhere in the current sequent.
fn is_new(eigens: &NumberSet, marks: &NumberSet, modal: LabelArgument, term: Argument<'_>) -> bool
    ensures { (names : derivation.Names) → (s : derivation.Sequent)
        → (table : List derivation.Label) → Tells names eigens.now marks.now s → result
        ≡ (character_is_new names s (the_label_argument table modal) && eigen_is_new s (the_argument term.entry)) }
{
    let mark_is_new = match modal {
        LabelArgument::New(number) => !marks.holds(number),
        LabelArgument::None | LabelArgument::To(_) => true,
    };
    let eigen_is_new = match term {
        Argument::Name(number) => !eigens.holds(number),
        Argument::None | Argument::Term(_, _, _) => true,
    };
    mark_is_new && eigen_is_new
}

/// The first demand of a use step that is not met. The entry stands at the label of the place
/// `from`, and its components at that of the place `at`.
pub fn use_fault(
    problem: &Problem,
    state: &State<'_>,
    kind: Kind,
    from: u32,
    at: u32,
    modal: LabelArgument,
    term: Argument<'_>,
) -> Option<StepFault>
    requires from { from < length state.now.labels }
    requires at { at < length state.now.labels }
    requires homes { (names : derivation.Names) × AreHomes names state.now.labels state.now.homes }
    requires named { IsNamed state.now.homes state.now.named.items term }
    ensures { (names : derivation.Names) → AreHomes names state.now.labels state.now.homes
        → (s : derivation.Sequent) → (e : derivation.Entry)
        → Tells names state.now.eigens state.now.marks s
        → kind.modal ≡ modal_of problem.now.setting.logic e.sign e.formula
        → kind.shape ≡ shape_of e.sign e.formula
        → get_or state.now.labels from [] ≡ e.label
        → get_or state.now.labels at []
        ≡ label_after problem.now.setting.logic e.label (the_label_argument state.now.labels modal)
        → (c : calculus.Children) → first_fault (conditions_of_use problem.now names
        s e (the_label_argument state.now.labels modal) (the_argument term.entry)) c ≡ faulty c result }
{
    let setting = problem.setting();
    let logic = setting.logic();
    let labels = &state.labels;
    first_unmet(Demands {
        arguments_fit: arguments_fit(kind, modal.form(), term_form(term)),
        is_known: is_known(&state.homes, state.named.as_slice(), term),
        is_reachable: is_reachable(logic, labels, from, at, modal),
        is_new: is_new(&state.eigens, &state.marks, modal, term),
        home_is: home_is(labels, &state.homes, at, term),
        term_allowed: term_allowed(problem, labels, state.named.as_slice(), at, term),
    })
}
