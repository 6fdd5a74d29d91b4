//! The steps of a derivation one by one, until the first that breaks a rule.

ghost use Rattle.std.specs.Prelude.{◌≡◌, ◌+◌, ◌∷◌, ◌^◌, ◌≤◌, List, None, Some, Err, IfOk, OnOk};
ghost use Rattle.std.specs.Prelude.{IsTrue, length, map, true};
ghost use Rattle.std.specs.Option.{option_map_or};
ghost use Rattle.calculus.specs.Calculus.{apply, close_branch, entry_of, use_entry};
ghost use Rattle.calculus.specs.Derivations as derivation;
ghost use Rattle.calculus.specs.Judgement.{at_end, verdict_from};
ghost use Rattle.calculus.specs.declared.fault.StepFault.{StepFault};
ghost use Rattle.calculus.specs.Syntax as tree;
ghost use Rattle.derivation_check.specs.OpenSequents.{waiting_in};
ghost use Rattle.derivation_check.specs.NamesTold.{AreNamed, IsNamed};
ghost use Rattle.derivation_check.specs.TermsPut.{ArePut, IsArgumentPut};
ghost use Rattle.derivation_check.specs.StateView.{IsLater, IsKept, LeadsTo, StandsOn, the_current};
ghost use Rattle.derivation_check.specs.declared.homes.Homes.{Homes};
ghost use Rattle.derivation_check.specs.declared.term_names.TermNames.{TermNames};
ghost use Rattle.derivation_check.specs.StateView.{IsNumbered, the_entry, the_sequent, the_sequents};
ghost use Rattle.derivation_check.specs.VerdictView.{the_verdict};
ghost use Rattle.calculus.specs.VersionJudgement.{step_line_in, verdict_in};
ghost use Rattle.calculus.specs.Versions.{numbering, stated, stated_step, stated_term};
ghost use Rattle.derivation_check.specs.ArgumentView.{ArePlaces, IsArgumentWithin, the_argument, the_label_argument};
ghost use Rattle.derivation_text.specs.Listed.{are_listed, is_arg_listed};
ghost use Rattle.derivation_text.specs.NumbersView.{the_numbered_arg, the_numbered_step};
ghost use Rattle.label_table.specs.Longer.{IsLonger};

use crate::argument::{Argument, LabelArgument};
use crate::label_places::label_argument;
use crate::open_sequents::BranchEntry;
use crate::state::State;
use crate::using::use_entry;
use crate::verdict::Verdict;
use calculus::fault::CheckFault;
use calculus::version::Version;
use cop_base::NoMemory;
use derivation_branch::connects;
use derivation_text::{NumberedStep, NumberedTerm, TermList, TextDerivation};
use logic_rules::Problem;
use sequent_calc::{ApplyFault, StepFault};
use std::alloc::Global;

// Entries are numbered from 1.
fn entry_of<'a>(branch: &[BranchEntry<'a>], number: u32) -> Option<BranchEntry<'a>>
    ensures { IsNumbered branch.now number result }
{
    if number == 0 {
        return None;
    }
    let place = number as usize - 1;
    if place >= branch.len() {
        return None;
    }
    Some(branch[place])
}

// Closes the current sequent by two of its entries.
fn close_branch<'a>(
    state: &mut State<'a>,
    given: BranchEntry<'a>,
    shown: BranchEntry<'a>,
) -> Result<(), ApplyFault>
    requires is_open { state.old.sequents.is_open ≡ true }
    requires given { StandsOn state.old.sequents.branch.items given }
    requires shown { StandsOn state.old.sequents.branch.items shown }
    requires kept { (names : derivation.Names) × IsKept names state.old }
    ensures kept { OnOk result ((names : derivation.Names)
        → IsKept names state.old → IsKept names state.new) }
    ensures leads { OnOk result (LeadsTo (close_branch
        (Some (the_entry state.old.substitutions state.old.labels given.entry))
        (Some (the_entry state.old.substitutions state.old.labels shown.entry)))
        (map (the_sequent state.old.substitutions state.old.labels) (waiting_in state.old.sequents))
        (the_sequents state.new)) }
    ensures labels { OnOk result (state.new.labels ≡ state.old.labels) }
    ensures named { OnOk result (IsLater state.old state.new) }
    ensures fault { (f : StepFault) → result ≡ Err (ApplyFault.Fault f) → close_branch
        (Some (the_entry state.old.substitutions state.old.labels given.entry))
        (Some (the_entry state.old.substitutions state.old.labels shown.entry)) ≡ Err f }
{
    let closes = connects(
        &state.substitutions,
        &state.labels,
        &mut state.same,
        given.shared,
        shown.shared,
    )?;
    if closes {
        state.close()?;
        Ok(())
    } else {
        Err(ApplyFault::Fault(StepFault::NoConnection))
    }
}

// Uses the entry of a number.
fn use_numbered<'a>(
    problem: &Problem,
    state: &mut State<'a>,
    number: u32,
    modal: LabelArgument,
    term: Argument<'a>,
) -> Result<(), ApplyFault>
    requires within { IsArgumentWithin state.old.labels modal }
    requires is_open { state.old.sequents.is_open ≡ true }
    requires kept { (names : derivation.Names) × IsKept names state.old }
    requires named { IsNamed state.old.homes state.old.named.items term }
    requires put { IsArgumentPut state.old.substitutions term }
    ensures kept { OnOk result ((names : derivation.Names)
        → IsKept names state.old → IsKept names state.new) }
    ensures leads { OnOk result ((names : derivation.Names) → IsKept names state.old
        → LeadsTo (use_entry problem.now names
        (the_current state.old) (entry_of (the_current state.old) number)
        (the_label_argument state.old.labels modal) (the_argument term.entry))
        (map (the_sequent state.old.substitutions state.old.labels) (waiting_in state.old.sequents))
        (the_sequents state.new)) }
    ensures grown { OnOk result (IsLonger state.old.labels state.new.labels) }
    ensures named { OnOk result (IsLater state.old state.new) }
    ensures fault { (f : StepFault) → result ≡ Err (ApplyFault.Fault f)
        → (names : derivation.Names) → IsKept names state.old
        → use_entry problem.now names (the_current state.old)
        (entry_of (the_current state.old) number)
        (the_label_argument state.old.labels modal) (the_argument term.entry) ≡ Err f }
{
    let used = entry_of(state.sequents.branch.as_slice(), number);
    match used {
        Some(used) => use_entry(problem, state, used, modal, term),
        None => Err(ApplyFault::Fault(StepFault::NoEntry)),
    }
}

// Closes the current sequent by the entries of two numbers.
fn close_numbered<'a>(state: &mut State<'a>, given: u32, shown: u32) -> Result<(), ApplyFault>
    requires is_open { state.old.sequents.is_open ≡ true }
    requires kept { (names : derivation.Names) × IsKept names state.old }
    ensures kept { OnOk result ((names : derivation.Names)
        → IsKept names state.old → IsKept names state.new) }
    ensures leads { OnOk result (LeadsTo (close_branch
        (entry_of (the_current state.old) given) (entry_of (the_current state.old) shown))
        (map (the_sequent state.old.substitutions state.old.labels) (waiting_in state.old.sequents))
        (the_sequents state.new)) }
    ensures labels { OnOk result (state.new.labels ≡ state.old.labels) }
    ensures named { OnOk result (IsLater state.old state.new) }
    ensures fault { (f : StepFault) → result ≡ Err (ApplyFault.Fault f) → close_branch
        (entry_of (the_current state.old) given) (entry_of (the_current state.old) shown) ≡ Err f }
{
    let first = entry_of(state.sequents.branch.as_slice(), given);
    let second = entry_of(state.sequents.branch.as_slice(), shown);
    match first {
        Some(first) => match second {
            Some(second) => close_branch(state, first, second),
            None => Err(ApplyFault::Fault(StepFault::NoEntry)),
        },
        None => Err(ApplyFault::Fault(StepFault::NoEntry)),
    }
}

// The argument of a step on a quantifier.
fn argument<'a>(terms: &'a TermList, put: &[u32], term: NumberedTerm) -> Argument<'a>
    requires listed { IsTrue (is_arg_listed (length terms.now) (the_numbered_arg term)) }
    requires put { length put.now ≡ length terms.now }
    ensures same { the_argument result ≡ stated_term terms.entry.now (the_numbered_arg term) }
    ensures named { (homes : Homes) → (named : List TermNames)
        → AreNamed homes terms.entry.now named → IsNamed homes named result }
    ensures put { (table : List (List tree.Term)) → ArePut table terms.entry.now put.now
        → IsArgumentPut table result }
{
    match term {
        NumberedTerm::None => Argument::None,
        NumberedTerm::Term(number) => {
            let place = number as usize - 1;
            Argument::Term(terms.row(number), place, put[place])
        }
        NumberedTerm::Name(number) => Argument::Name(number),
    }
}

// Replaces the current sequent by those that a step leads to.
fn take_step<'a>(
    problem: &Problem,
    d: &'a TextDerivation,
    places: &[u32],
    put: &[u32],
    state: &mut State<'a>,
    step: NumberedStep,
) -> Result<(), ApplyFault>
    requires listed { IsTrue (are_listed (length d.now.labels) (length d.now.terms) (the_numbered_step step)) }
    requires places { ArePlaces d.now.labels state.old.labels places.now }
    requires named { AreNamed state.old.homes d.now.terms state.old.named.items }
    requires put { ArePut state.old.substitutions d.now.terms put.now }
    requires is_open { state.old.sequents.is_open ≡ true }
    requires kept { (names : derivation.Names) × IsKept names state.old }
    ensures kept { OnOk result ((names : derivation.Names)
        → IsKept names state.old → IsKept names state.new) }
    ensures places { OnOk result (ArePlaces d.entry.now.labels state.new.labels places.now) }
    ensures named { OnOk result (IsLater state.old state.new) }
    ensures leads { OnOk result ((names : derivation.Names) → IsKept names state.old
        → LeadsTo (apply problem.now names
        (the_current state.old) (stated_step d.entry.now.labels d.entry.now.terms (the_numbered_step step)))
        (map (the_sequent state.old.substitutions state.old.labels) (waiting_in state.old.sequents))
        (the_sequents state.new)) }
    ensures fault { (f : StepFault) → result ≡ Err (ApplyFault.Fault f)
        → (names : derivation.Names) → IsKept names state.old
        → apply problem.now names (the_current state.old)
        (stated_step d.entry.now.labels d.entry.now.terms (the_numbered_step step)) ≡ Err f }
{
    match step {
        NumberedStep::Use { entry, modal, term } => use_numbered(
            problem,
            state,
            entry,
            label_argument(places, modal),
            argument(d.terms(), put, term),
        ),
        NumberedStep::Axiom { given, shown } => close_numbered(state, given, shown),
    }
}

// Judges one step; `None` where it leads on.
fn judge_step<'a>(
    problem: &Problem,
    d: &'a TextDerivation,
    places: &[u32],
    put: &[u32],
    state: &mut State<'a>,
    step: &NumberedStep,
    line: u64,
) -> Result<Option<Verdict>, NoMemory>
    requires listed { IsTrue (are_listed (length d.now.labels) (length d.now.terms) (the_numbered_step step.now)) }
    requires places { ArePlaces d.now.labels state.old.labels places.now }
    requires named { AreNamed state.old.homes d.now.terms state.old.named.items }
    requires put { ArePut state.old.substitutions d.now.terms put.now }
    requires kept { (names : derivation.Names) × IsKept names state.old }
    ensures kept { IfOk result (λ judged. judged ≡ None → (names : derivation.Names)
        → IsKept names state.old → IsKept names state.new) }
    ensures places { IfOk result (λ judged. judged ≡ None → ArePlaces d.entry.now.labels state.new.labels places.now) }
    ensures named { IfOk result (λ judged. judged ≡ None → IsLater state.old state.new) }
    ensures judged { IfOk result (λ judged. (names : derivation.Names) → IsKept names state.old
        → (rest : List derivation.Step)
        → verdict_from problem.now names (the_sequents state.old)
        (stated_step d.entry.now.labels d.entry.now.terms (the_numbered_step step.now) ∷ rest) line ≡ option_map_or the_verdict judged
        (verdict_from problem.now names (the_sequents state.new) rest (line + 1))) }
{
    if !state.sequents.is_open {
        return Ok(Some(Verdict::Rejected {
            line,
            fault: CheckFault::AllClosed,
        }));
    }
    match take_step(problem, d, places, put, state, *step) {
        Ok(()) => Ok(None),
        Err(ApplyFault::Fault(fault)) => Ok(Some(Verdict::Rejected {
            line,
            fault: CheckFault::Step(fault),
        })),
        Err(ApplyFault::NoMemory) => Err(NoMemory),
    }
}

// The verdict where the steps have ended before this line.
fn at_end(state: &State<'_>, line: u64) -> Verdict
    ensures { the_verdict result ≡ at_end (the_sequents state.now) line }
{
    if state.sequents.is_open {
        Verdict::Rejected {
            line,
            fault: CheckFault::StillOpen,
        }
    } else {
        Verdict::Accepted
    }
}

// The line of the first step: it comes after four lines and a line for each name, and in version 2 for each label and each term.
fn first_step_line(version: Version, d: &TextDerivation) -> u64
    requires { d.now ≡ numbering (stated d.now) }
    ensures line { result ≡ step_line_in version (stated d.now) }
    ensures bound { result ≤ 2 ^ 62 }
{
    let names = 5 + d.eigens().len() as u64 + d.spares().len() as u64;
    match version {
        Version::One => names,
        Version::Two => names + u64::from(d.labels().count()) + u64::from(d.terms().count()),
    }
}

// The verdict on the steps, the first of which stands in this line.
fn judge_steps<'a>(
    problem: &Problem,
    d: &'a TextDerivation,
    places: &[u32],
    put: &[u32],
    state: &mut State<'a>,
    first_line: u64,
) -> Result<Verdict, NoMemory>
    requires bound { first_line ≤ 2 ^ 62 }
    requires places { ArePlaces d.now.labels state.old.labels places.now }
    requires named { AreNamed state.old.homes d.now.terms state.old.named.items }
    requires put { ArePut state.old.substitutions d.now.terms put.now }
    requires kept { (names : derivation.Names) × IsKept names state.old }
    ensures { IfOk result (λ v. (names : derivation.Names) → IsKept names state.old
        → the_verdict v ≡ verdict_from problem.now names (the_sequents state.old)
        (stated d.entry.now).steps first_line) }
{
    let mut line = first_line;
    for step in d.steps() {
        if let Some(verdict) = judge_step(problem, d, places, put, state, step, line)? {
            return Ok(verdict);
        }
        line += 1;
    }
    Ok(at_end(state, line))
}

/// The verdict on the steps of a derivation. Lines are counted as in its text of this version.
pub fn judge<'a>(
    alloc: Global,
    problem: &'a Problem,
    version: Version,
    d: &'a TextDerivation,
) -> Result<Verdict, NoMemory>
    requires { d.now ≡ numbering (stated d.now) }
    ensures { IfOk result (λ v. the_verdict v
        ≡ verdict_in version problem.entry.now (stated d.entry.now)) }
{
    let (mut state, places) = State::new(alloc, problem, d)?;
    let put = state.put_terms(alloc, d.terms())?;
    let line = first_step_line(version, d);
    judge_steps(
        problem,
        d,
        places.as_slice(),
        put.as_slice(),
        &mut state,
        line,
    )
}
