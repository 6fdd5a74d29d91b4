//! Use steps: what one adds to the branch, where the rules allow it.

ghost use Rattle.std.specs.Prelude.{◌≡◌, ◌<◌, ◌∷◌, [], true, IfOk, OnOk, Some, Err, get_or};
ghost use Rattle.std.specs.Prelude.{length, map};
ghost use Rattle.calculus.specs.Calculus.{label_after, term_fits, use_entry, with_argument};
ghost use Rattle.calculus.specs.Calculus.{with_components};
ghost use Rattle.calculus.specs.Derivations as derivation;
ghost use Rattle.calculus.specs.Judgement.{open_after};
ghost use Rattle.calculus.specs.Kinds.{components, shape_of};
ghost use Rattle.calculus.specs.declared.fault.StepFault.{StepFault};
ghost use Rattle.derivation_branch.specs.EntryView.{formula_under};
ghost use Rattle.label_table.specs.Longer.{IsLonger};
ghost use Rattle.derivation_branch.specs.Putting.{AreClosed, IsClosed};
ghost use Rattle.label_table.specs.LabelTable.{IsLabelAt};
ghost use Rattle.derivation_branch.specs.TableView.{the_value};
ghost use Rattle.derivation_check.specs.OpenSequents.{waiting_in};
ghost use Rattle.derivation_check.specs.StateView.{HasArgument, IsClosedArgument, IsKept};
ghost use Rattle.derivation_check.specs.StateView.{IsLabelAfter, LeadsTo, StandsOn, the_current};
ghost use Rattle.derivation_check.specs.StateView.{the_entry, the_sequent, the_sequents};
ghost use Rattle.derivation_check.specs.NamesTold.{IsNamed};
ghost use Rattle.derivation_check.specs.StateView.{IsLater};
ghost use Rattle.derivation_check.specs.TermsPut.{IsArgumentPut, IsPut};
ghost use Rattle.formula_core.specs.FormulaView.{the_formula};
ghost use Rattle.derivation_check.specs.ArgumentView.{IsArgumentWithin, the_argument, the_label_argument};

use crate::argument::{Argument, LabelArgument};
use crate::demands::use_fault;
use crate::occurring::{add_brought_eigens, add_brought_homes, add_modal};
use crate::open_sequents::BranchEntry;
use crate::state::State;
use cop_base::NoMemory;
use derivation_branch::{Substitutions, Value, added_by};
use formula_text::TermRow;
use label_table::Labels;
use logic_rules::{Logic, Mark, Problem, kind_of};
use sequent_calc::ApplyFault;

// The place of the label of the components.
fn label_after(
    labels: &mut Labels,
    logic: Logic,
    from: u32,
    modal: LabelArgument,
) -> Result<u32, NoMemory>
    requires from { from < length labels.old }
    requires within { IsArgumentWithin labels.old modal }
    ensures place { IfOk result (λ k. IsLabelAt labels.new k
        (label_after logic (get_or labels.old from []) (the_label_argument labels.old modal))) }
    ensures grown { OnOk result (IsLonger labels.old labels.new) }
{
    match modal {
        LabelArgument::None => Ok(from),
        LabelArgument::To(to) => Ok(to),
        LabelArgument::New(number) => labels.add_after_pi(logic, from, Mark::New(number)),
    }
}

// Puts a value before the substitution at a place. The answer is the place of the new one.
fn put_value<'a>(
    substitutions: &mut Substitutions<'a>,
    outer: u32,
    value: Value<'a>,
) -> Result<u32, NoMemory>
    requires within { outer < length substitutions.old }
    requires closed { IsClosed (the_value value) }
    ensures within { IfOk result (λ k. k < length substitutions.new) }
    ensures put { IfOk result (λ k. (get_or substitutions.new k []
        ≡ the_value value.entry ∷ get_or substitutions.new outer [])
        × AreClosed (get_or substitutions.new outer [])) }
    ensures grown { OnOk result (IsLonger substitutions.old substitutions.new) }
{
    let place = substitutions.put(outer, value)?;
    Ok(place)
}

// The same of a term that may be the first one of an earlier substitution, whose place is not 0.
fn put_term<'a>(
    substitutions: &mut Substitutions<'a>,
    outer: u32,
    t: &'a TermRow,
    earlier: u32,
) -> Result<u32, NoMemory>
    requires within { outer < length substitutions.old }
    requires closed { IsClosed t.now }
    requires put { IsPut substitutions.old t.now earlier }
    ensures within { IfOk result (λ k. k < length substitutions.new) }
    ensures put { IfOk result (λ k. (get_or substitutions.new k []
        ≡ t.entry.now ∷ get_or substitutions.new outer [])
        × AreClosed (get_or substitutions.new outer [])) }
    ensures grown { OnOk result (IsLonger substitutions.old substitutions.new) }
{
    if earlier == 0 {
        return put_value(substitutions, outer, Value::Given(t));
    }
    let place = substitutions.put_again(outer, earlier)?;
    Ok(place)
}

// The place of the substitution of the components.
fn put_argument<'a>(
    substitutions: &mut Substitutions<'a>,
    outer: u32,
    term: Argument<'a>,
) -> Result<u32, NoMemory>
    requires within { outer < length substitutions.old }
    requires closed { IsClosedArgument (the_argument term) }
    requires put { IsArgumentPut substitutions.old term }
    ensures within { IfOk result (λ k. k < length substitutions.new) }
    ensures put { IfOk result (λ k.
        HasArgument substitutions.new outer k (the_argument term.entry)) }
    ensures grown { OnOk result (IsLonger substitutions.old substitutions.new) }
{
    match term {
        Argument::None => Ok(outer),
        Argument::Term(t, _, earlier) => put_term(substitutions, outer, t, earlier),
        Argument::Name(number) => put_value(substitutions, outer, Value::Eigen(number)),
    }
}

// Puts the components at a label of the table on the branch.
fn grow<'a>(
    state: &mut State<'a>,
    used: BranchEntry<'a>,
    at: u32,
    modal: LabelArgument,
    term: Argument<'a>,
) -> Result<(), NoMemory>
    requires is_open { state.old.sequents.is_open ≡ true }
    requires kept { (names : derivation.Names) × IsKept names state.old }
    requires stands { StandsOn state.old.sequents.branch.items used }
    requires label { IsLabelAfter state.old.labels used.shared.label (the_label_argument state.old.labels modal) at }
    requires fits { term_fits (shape_of used.shared.sign (the_formula used.shared.formula.now))
        (the_argument term) ≡ true }
    requires closed { IsClosedArgument (the_argument term) }
    requires named { IsNamed state.old.homes state.old.named.items term }
    requires put { IsArgumentPut state.old.substitutions term }
    ensures kept { OnOk result ((names : derivation.Names)
        → IsKept names state.old → IsKept names state.new) }
    ensures grown { OnOk result (the_sequents state.new ≡ open_after
        (with_components (shape_of used.entry.shared.sign (formula_under state.old.substitutions
        used.entry.shared.substitution (the_formula used.entry.shared.formula.now)))
        (the_current state.old) (get_or state.old.labels at [])
        (map (with_argument (the_argument term.entry)) (components used.entry.shared.sign
        (formula_under state.old.substitutions used.entry.shared.substitution
        (the_formula used.entry.shared.formula.now)))))
        (map (the_sequent state.old.substitutions state.old.labels) (waiting_in state.old.sequents))) }
    ensures labels { OnOk result (state.new.labels ≡ state.old.labels) }
    ensures named { OnOk result (IsLater state.old state.new) }
{
    let shared = used.shared;
    let inner = put_argument(&mut state.substitutions, shared.substitution, term)?;
    let binds = state.outline.binds(shared.node);
    add_brought_eigens(&mut state.eigens, state.named.as_slice(), binds, term)?;
    add_modal(&state.labels, &mut state.told, &mut state.marks, at, modal)?;
    let labels = &state.labels;
    let homes = &state.homes;
    let told = &mut state.told;
    let named = state.named.as_slice();
    add_brought_homes(
        labels,
        homes,
        named,
        told,
        &mut state.marks,
        at,
        binds,
        term,
    )?;
    let added = added_by(&state.outline, shared, inner, at);
    let eigens = state.eigens.count()?;
    let marks = state.marks.count()?;
    state.sequents.advance(added, eigens, marks)?;
    Ok(())
}

/// Adds the components of an entry of the branch, or tells the first demand of the rules that is
/// not met.
pub fn use_entry<'a>(
    problem: &Problem,
    state: &mut State<'a>,
    used: BranchEntry<'a>,
    modal: LabelArgument,
    term: Argument<'a>,
) -> Result<(), ApplyFault>
    requires within { IsArgumentWithin state.old.labels modal }
    requires is_open { state.old.sequents.is_open ≡ true }
    requires kept { (names : derivation.Names) × IsKept names state.old }
    requires stands { StandsOn state.old.sequents.branch.items used }
    requires named { IsNamed state.old.homes state.old.named.items term }
    requires put { IsArgumentPut state.old.substitutions term }
    ensures kept { OnOk result ((names : derivation.Names)
        → IsKept names state.old → IsKept names state.new) }
    ensures leads { OnOk result ((names : derivation.Names) → IsKept names state.old
        → LeadsTo (use_entry problem.now names
        (the_current state.old) (Some (the_entry state.old.substitutions state.old.labels used.entry))
        (the_label_argument state.old.labels modal) (the_argument term.entry))
        (map (the_sequent state.old.substitutions state.old.labels) (waiting_in state.old.sequents))
        (the_sequents state.new)) }
    ensures grown { OnOk result (IsLonger state.old.labels state.new.labels) }
    ensures named { OnOk result (IsLater state.old state.new) }
    ensures fault { (f : StepFault) → result ≡ Err (ApplyFault.Fault f)
        → (names : derivation.Names) → IsKept names state.old
        → use_entry problem.now names (the_current state.old)
        (Some (the_entry state.old.substitutions state.old.labels used.entry))
        (the_label_argument state.old.labels modal) (the_argument term.entry) ≡ Err f }
{
    let setting = problem.setting();
    let logic = setting.logic();
    let shared = used.shared;
    let kind = kind_of(logic, shared.sign, shared.formula);
    let at = label_after(&mut state.labels, logic, shared.label, modal)?;
    let fault = use_fault(problem, state, kind, shared.label, at, modal, term);
    match fault {
        Some(fault) => Err(ApplyFault::Fault(fault)),
        None => {
            grow(state, used, at, modal, term)?;
            Ok(())
        }
    }
}
