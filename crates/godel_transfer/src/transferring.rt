//! The transfer of a derivation.

ghost use Rattle.std.specs.Prelude.{◌≡◌, ◌↔◌, ◌<◌, ◌≤◌, ◌++◌, ◌∷◌, [], List, false, true, get_or, length};
ghost use Rattle.std.specs.Prelude.{suc, Err, IfOk, OnOk, IsTrue};
ghost use Rattle.calculus.specs.declared.setting.Logic.TheVariants.{Intuitionistic};
ghost use Rattle.calculus.specs.Calculus.{Derives, is_atom};
ghost use Rattle.calculus.specs.Derivations as derivation;
ghost use Rattle.calculus.specs.DerivationText.{is_printable};
ghost use Rattle.calculus.specs.Measures.{nesting, node_count};
ghost use Rattle.calculus.specs.Problems.{is_problem};
ghost use Rattle.calculus.specs.Translation.{translated_problem, translation_of};
ghost use Rattle.calculus.specs.Versions.{stated, stated_step};
ghost use Rattle.derivation_text.specs.Listed.{are_listed};
ghost use Rattle.derivation_text.specs.NumbersView.{the_numbered_step};
ghost use Rattle.godel_transfer.specs.declared.fault.TransferFault.TheVariants as fault;
ghost use Rattle.formula_core.specs.FormulaView.{the_formula};
ghost use Rattle.godel_transfer.specs.BranchView.{IsKept, branches_of, the_branch, the_entry};
ghost use Rattle.godel_transfer.specs.BranchView.{waiting_in};
ghost use Rattle.godel_transfer.specs.OutView.{IsSameButLists};
ghost use Rattle.godel_transfer.specs.Sketch.{grown, label_then, names_sketched};
ghost use Rattle.godel_transfer.specs.Sketch.{names_sketched_for, names_sketched_from, sketched};
ghost use Rattle.godel_transfer.specs.Sketch.{sketched_for, sketched_from};
ghost use Rattle.godel_transfer.specs.Sketch.{sketches_by, sketches_for};
ghost use Rattle.godel_transfer.specs.Transfer.{name_at, names_with, use_steps};
ghost use Rattle.sequent_calc.specs.DerivationView.{the_derivation};
ghost use Rattle.sequent_calc.specs.StepView.{the_modal, the_step, the_term_arg};

use crate::branches::{Branches, Entry};
use crate::fault::TransferFault;
use crate::measures::refusal;
use crate::numbers::next;
use crate::steps::{put_axiom, put_use};
use crate::using::{grow, label_after, pass_atom};
use cop_base::NoMemory;
use derivation_text::{NumberedStep, TextDerivation, step_of};
use label_table::{Labels, label_at};
use logic_rules::Problem;
use sequent_calc::{Derivation, EigenList, Home, ModalArg, Step, TermArg};
use std::alloc::Global;

// With as many steps a number in S4 could need more than 32 bits.
const TOO_MANY: usize = 1_431_655_765;

// Lists the eigenvariable of a step, with the label to which the step leads as its home.
fn put_name(
    alloc: Global,
    labels: &Labels,
    names: &mut EigenList,
    number: u32,
    label: u32,
    term: &TermArg,
) -> Result<(), NoMemory>
    requires { label < length labels.now }
    ensures { OnOk result (names.new
        ≡ names.old ++ name_at number (get_or labels.now label []) (the_term_arg term.now)) }
{
    match term {
        TermArg::None | TermArg::Term(_) => Ok(()),
        TermArg::Name(_) => {
            let home = label_at(alloc, labels, label)?;
            names.push((number, home))
        }
    }
}

// The steps and the name of S4 that a step on an entry that is no atom becomes.
fn take_compound<'a>(
    alloc: Global,
    branches: &mut Branches<'a>,
    out: &mut Derivation,
    number: u32,
    used: Entry<'a>,
    modal: &ModalArg,
    term: &TermArg,
) -> Result<(), NoMemory>
    requires is_open { branches.old.is_open ≡ true }
    requires kept { IsKept branches.old }
    requires within { used.label < length branches.old.labels }
    requires compound { is_atom (the_formula used.formula.now) ≡ false }
    ensures steps { OnOk result (out.new.steps ≡ out.old.steps ++ use_steps
        (the_branch branches.old) number used.entry.place (the_formula used.entry.formula.now)
        (the_modal modal.now) (the_term_arg term.now)) }
    ensures names { OnOk result (out.new.names.eigens ≡ out.old.names.eigens ++ name_at number
        (label_then (the_branch branches.old) (the_entry branches.old.labels used.entry)
        (the_modal modal.now)) (the_term_arg term.now)) }
    ensures others { OnOk result (IsSameButLists out.old out.new) }
    ensures branches { OnOk result (branches_of branches.new ≡ grown (the_branch branches.old)
        number used.entry.place (the_entry branches.old.labels used.entry) (the_modal modal.now)
        (the_term_arg term.now) ++ waiting_in branches.old) }
    ensures kept { OnOk result (IsKept branches.new) }
{
    put_use(alloc, branches, &mut out.steps, number, used, modal, term)?;
    let count = branches.count;
    let label = label_after(
        &mut branches.labels,
        &branches.characters,
        count,
        used.label,
        modal,
    )?;
    let eigens = &mut out.names.eigens;
    put_name(alloc, &branches.labels, eigens, number, label, term)?;
    grow(branches, number, used, label, modal, term)
}

fn take_use<'a>(
    alloc: Global,
    branches: &mut Branches<'a>,
    out: &mut Derivation,
    number: u32,
    used: Entry<'a>,
    modal: &ModalArg,
    term: &TermArg,
) -> Result<(), NoMemory>
    requires is_open { branches.old.is_open ≡ true }
    requires kept { IsKept branches.old }
    requires within { used.label < length branches.old.labels }
    ensures steps { OnOk result (out.new.steps ≡ out.old.steps ++ use_steps
        (the_branch branches.old) number used.entry.place (the_formula used.entry.formula.now)
        (the_modal modal.now) (the_term_arg term.now)) }
    ensures names { OnOk result (out.new.names.eigens ≡ out.old.names.eigens ++ names_sketched
        (the_branch branches.old) number (the_entry branches.old.labels used.entry)
        (the_modal modal.now) (the_term_arg term.now) (the_formula used.entry.formula.now)) }
    ensures others { OnOk result (IsSameButLists out.old out.new) }
    ensures branches { OnOk result (branches_of branches.new ≡ sketches_by
        (the_branch branches.old) number used.entry.place (the_entry branches.old.labels used.entry)
        (the_modal modal.now) (the_term_arg term.now) (the_formula used.entry.formula.now)
        ++ waiting_in branches.old) }
    ensures kept { OnOk result (IsKept branches.new) }
{
    match used.formula.as_atom() {
        Some(_) => pass_atom(branches, used, modal),
        None => take_compound(alloc, branches, out, number, used, modal, term),
    }
}

fn take_axiom<'a>(
    alloc: Global,
    branches: &mut Branches<'a>,
    out: &mut Derivation,
    given: u32,
    shown: u32,
) -> Result<(), NoMemory>
    requires is_open { branches.old.is_open ≡ true }
    requires kept { IsKept branches.old }
    ensures steps { OnOk result (out.new.steps ≡ out.old.steps ++ sketched_for
        (the_branch branches.old) 0 (derivation.close given shown)) }
    ensures names { OnOk result (out.new.names.eigens ≡ out.old.names.eigens) }
    ensures others { OnOk result (IsSameButLists out.old out.new) }
    ensures branches { OnOk result (branches_of branches.new ≡ waiting_in branches.old) }
    ensures kept { OnOk result (IsKept branches.new) }
{
    if let Some(entry) = branches.entry(shown) {
        let place = branches.place(given);
        put_axiom(alloc, branches, &mut out.steps, place, entry)?;
    }
    branches.close()
}

// The steps and names of S4 that a step becomes.
fn take_step<'a>(
    alloc: Global,
    branches: &mut Branches<'a>,
    out: &mut Derivation,
    number: u32,
    step: &Step,
) -> Result<(), NoMemory>
    requires is_open { branches.old.is_open ≡ true }
    requires kept { IsKept branches.old }
    ensures steps { OnOk result (out.new.steps ≡ out.old.steps
        ++ sketched_for (the_branch branches.old) number (the_step step.now)) }
    ensures names { OnOk result (out.new.names.eigens ≡ out.old.names.eigens
        ++ names_sketched_for (the_branch branches.old) number (the_step step.now)) }
    ensures others { OnOk result (IsSameButLists out.old out.new) }
    ensures branches { OnOk result (branches_of branches.new
        ≡ sketches_for (the_branch branches.old) number (the_step step.now)
        ++ waiting_in branches.old) }
    ensures kept { OnOk result (IsKept branches.new) }
{
    match step {
        Step::Use { entry, modal, term } => match branches.entry(*entry) {
            Some(used) => take_use(alloc, branches, out, number, used, modal, term),
            None => Ok(()),
        },
        Step::Axiom { given, shown } => take_axiom(alloc, branches, out, *given, *shown),
    }
}

// The derivation without steps, whose one name is the spare constant of every domain.
fn started(alloc: Global, limit: u8) -> Result<Derivation, NoMemory>
    ensures { IfOk result (λ d. the_derivation d
        ≡ record { limit = limit; names = names_with []; steps = [] }) }
{
    let mut out = Derivation::new(alloc, limit);
    out.names.spares.push((1, Home::Anywhere))?;
    Ok(out)
}

// Takes the next step, where a branch is open; `rest` are those behind it.
fn take_next<'a>(
    alloc: Global,
    branches: &mut Branches<'a>,
    out: &mut Derivation,
    number: u32,
    step: &Step,
) -> Result<(), NoMemory>
    requires kept { IsKept branches.old }
    ensures steps { (rest : List derivation.Step) → OnOk result (out.new.steps
        ++ sketched_from (branches_of branches.new) (suc number) rest ≡ out.old.steps
        ++ sketched_from (branches_of branches.old) number (the_step step.now ∷ rest)) }
    ensures names { (rest : List derivation.Step) → OnOk result (out.new.names.eigens
        ++ names_sketched_from (branches_of branches.new) (suc number) rest
        ≡ out.old.names.eigens
        ++ names_sketched_from (branches_of branches.old) number (the_step step.now ∷ rest)) }
    ensures others { OnOk result (IsSameButLists out.old out.new) }
    ensures kept { OnOk result (IsKept branches.new) }
{
    if !branches.is_open {
        return Ok(());
    }
    take_step(alloc, branches, out, number, step)?;
    Ok(())
}

// The same of a step of a text. Its label and its term are written out for it alone.
fn take_numbered<'a>(
    alloc: Global,
    d: &TextDerivation,
    branches: &mut Branches<'a>,
    out: &mut Derivation,
    number: u32,
    step: NumberedStep,
) -> Result<(), NoMemory>
    requires listed { IsTrue (are_listed (length d.now.labels) (length d.now.terms) (the_numbered_step step)) }
    requires kept { IsKept branches.old }
    ensures steps { (rest : List derivation.Step) → OnOk result (out.new.steps
        ++ sketched_from (branches_of branches.new) (suc number) rest ≡ out.old.steps
        ++ sketched_from (branches_of branches.old) number
        (stated_step d.now.labels d.now.terms (the_numbered_step step) ∷ rest)) }
    ensures names { (rest : List derivation.Step) → OnOk result (out.new.names.eigens
        ++ names_sketched_from (branches_of branches.new) (suc number) rest
        ≡ out.old.names.eigens ++ names_sketched_from (branches_of branches.old) number
        (stated_step d.now.labels d.now.terms (the_numbered_step step) ∷ rest)) }
    ensures others { OnOk result (IsSameButLists out.old out.new) }
    ensures kept { OnOk result (IsKept branches.new) }
{
    let written = step_of(alloc, d, step)?;
    take_next(alloc, branches, out, number, &written)?;
    Ok(())
}

fn transferred(alloc: Global, problem: &Problem, d: &TextDerivation) -> Result<Derivation, NoMemory>
    ensures { IfOk result (λ r. the_derivation r ≡ sketched problem.now (stated d.now)) }
{
    let mut out = started(alloc, d.limit())?;
    let mut branches = Branches::new(alloc, problem.formula())?;
    let mut number = 0;
    for step in d.steps() {
        number = next(number)?;
        take_numbered(alloc, d, &mut branches, &mut out, number, *step)?;
    }
    Ok(out)
}

// The same where numbers of 32 bits are enough.
fn transferred_within(
    alloc: Global,
    problem: &Problem,
    d: &TextDerivation,
) -> Result<Derivation, NoMemory>
    requires well { IsTrue (is_problem problem.now) }
    requires intuitionistic { problem.now.setting.logic ≡ Intuitionistic }
    requires printable { IsTrue (is_printable problem.now (stated d.now)) }
    requires derives { Derives problem.now (stated d.now) }
    ensures derives { IfOk result (λ r. Derives (translated_problem problem.now) (the_derivation r)) }
    ensures printable { IfOk result (λ r.
        IsTrue (is_printable (translated_problem problem.now) (the_derivation r))) }
    ensures limit { IfOk result (λ r. r.limit ≡ d.now.limit) }
{
    if d.steps().len() >= TOO_MANY {
        return Err(NoMemory);
    }
    let out = transferred(alloc, problem, d)?;
    Ok(out)
}

/// The derivation of the translated problem that a derivation of the problem becomes. It is refused
/// before anything is built.
pub fn transfer(
    alloc: Global,
    problem: &Problem,
    d: &TextDerivation,
) -> Result<Derivation, TransferFault>
    requires intuitionistic { problem.now.setting.logic ≡ Intuitionistic }
    requires printable { IsTrue (is_printable problem.now (stated d.now)) }
    requires derives { Derives problem.now (stated d.now) }
    ensures derives { IfOk result (λ r. Derives (translated_problem problem.now) (the_derivation r)) }
    ensures printable { IfOk result (λ r.
        IsTrue (is_printable (translated_problem problem.now) (the_derivation r))) }
    ensures limit { IfOk result (λ r. r.limit ≡ d.now.limit) }
    ensures deep { (result ≡ Err fault.NestingTooDeep)
        ↔ (1000 < nesting (translation_of problem.now.formula)) }
    ensures large { (result ≡ Err fault.FormulaTooLarge)
        ↔ ((nesting (translation_of problem.now.formula) ≤ 1000)
        × (4000000 < node_count (translation_of problem.now.formula))) }
{
    match refusal(problem.formula()) {
        Some(fault) => Err(fault),
        None => {
            let out = transferred_within(alloc, problem, d)?;
            Ok(out)
        }
    }
}
