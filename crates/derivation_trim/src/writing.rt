//! The steps that are left, by their new numbers.

ghost use Rattle.std.specs.Prelude.{◌≡◌, ◌++◌, ◌∷◌, List, IfOk, OnOk, get_or, map, reverse, true};
ghost use Rattle.calculus.specs.Derivations as derivation;
ghost use Rattle.sequent_calc.specs.StepView.{the_modal, the_step, the_term_arg};
ghost use Rattle.term_table.specs.SharedTerm.{the_shared_term};
ghost use Rattle.trim_theory.specs.Editing.{has_numbers};
ghost use Rattle.trim_theory.specs.Found.{written};
ghost use Rattle.trim_theory.specs.Writing as walk;
ghost use Rattle.trim_theory.specs.Writing.{grown, grown_by, last_of, later_forks, next_fork};
ghost use Rattle.trim_theory.specs.Writing.{next_forks, next_table, numbered, put_if};
ghost use Rattle.trim_theory.specs.Writing.{resumed_forks, resumed_table};

use cop_base::NoMemory;
use sequent_calc::{ModalArg, Step, StepList, TermArg};
use std::alloc::Global;
use term_table::SharedTerm;
use trim_theory::pass::{Mark, Pass, Way};

/// The new number of an entry by the table of the branch.
pub fn number_at(table: &[u32], number: u32) -> u32
    ensures { result ≡ get_or table.now number 0 }
{
    let place = number as usize;
    if place < table.len() { table[place] } else { 0 }
}

fn copy_modal(alloc: Global, modal: &ModalArg) -> Result<ModalArg, NoMemory>
    ensures { IfOk result (λ arg. the_modal arg ≡ the_modal modal.now) }
{
    match modal {
        ModalArg::None => Ok(ModalArg::None),
        ModalArg::To(label) => {
            let label = label.copy(alloc)?;
            ModalArg::to(alloc, label)
        }
        ModalArg::New(number) => Ok(ModalArg::New(*number)),
    }
}

fn copy_shared(alloc: Global, term: &SharedTerm) -> Result<SharedTerm, NoMemory>
    ensures { IfOk result (λ copy. the_shared_term copy ≡ the_shared_term term.now) }
{
    match term {
        SharedTerm::Row(row) => {
            let row = row.copy(alloc)?;
            Ok(SharedTerm::Row(row))
        }
        SharedTerm::Table(table, term) => {
            let table = table.clone()?;
            Ok(SharedTerm::Table(table, *term))
        }
    }
}

fn copy_term(alloc: Global, term: &TermArg) -> Result<TermArg, NoMemory>
    ensures { IfOk result (λ arg. the_term_arg arg ≡ the_term_arg term.now) }
{
    match term {
        TermArg::None => Ok(TermArg::None),
        TermArg::Term(term) => {
            let term = copy_shared(alloc, term)?;
            Ok(TermArg::Term(term))
        }
        TermArg::Name(number) => Ok(TermArg::Name(*number)),
    }
}

/// A step by its new numbers.
pub fn renumbered(alloc: Global, table: &[u32], step: &Step) -> Result<Step, NoMemory>
    ensures step { IfOk result (λ s. the_step s ≡ numbered table.now (the_step step.now)) }
    ensures numbers { IfOk result (λ s. has_numbers (the_step s) ≡ true) }
{
    match step {
        Step::Use { entry, modal, term } => {
            let modal = copy_modal(alloc, modal)?;
            let term = copy_term(alloc, term)?;
            Ok(Step::Use {
                entry: number_at(table, *entry),
                modal,
                term,
            })
        }
        Step::Axiom { given, shown } => Ok(Step::Axiom {
            given: number_at(table, *given),
            shown: number_at(table, *shown),
        }),
    }
}

fn last_number(table: &[u32]) -> u32
    ensures { result ≡ last_of table.now }
{
    match table.last() {
        Some(last) => *last,
        None => 0,
    }
}

// The table with one entry more. A branch of more than 2^32 entries fits no memory.
#[tactic(auto, using(crate::proofs::WriteLaws::growing))]
fn grow(table: &mut Vec<u32>, is_left: bool) -> Result<(), NoMemory>
    ensures { OnOk result (table.new.items ≡ grown is_left table.old.items) }
{
    let last = last_number(table);
    if !is_left {
        table.push(last)?;
        return Ok(());
    }
    if last == u32::MAX {
        return Err(NoMemory);
    }
    table.push(last + 1)?;
    Ok(())
}

#[tactic(auto, using(crate::proofs::WriteLaws::growing))]
fn grow_by(table: &mut Vec<u32>, added: u32, is_left: bool) -> Result<(), NoMemory>
    ensures { OnOk result (table.new.items ≡ grown_by added is_left table.old.items) }
{
    let mut left = added;
    while left > 0 {
        left -= 1;
        grow(table, is_left)?;
    }
    Ok(())
}

fn pop_fork(forks: &mut Vec<bool>) -> bool
    ensures top { result ≡ next_fork (reverse forks.old.items) }
    ensures rest { reverse forks.new.items ≡ later_forks (reverse forks.old.items) }
{
    match forks.pop() {
        Some(top) => top,
        None => false,
    }
}

// Cuts the table back where a right side begins.
fn resume(table: &mut Vec<u32>, forks: &mut Vec<bool>, pass: Pass) -> Result<(), NoMemory>
    ensures table { OnOk result (table.new.items
        ≡ resumed_table pass.starts_right pass.before table.old.items (reverse forks.old.items)) }
    ensures forks { OnOk result (reverse forks.new.items
        ≡ resumed_forks pass.starts_right (reverse forks.old.items)) }
{
    if !pass.starts_right {
        return Ok(());
    }
    let is_left = pop_fork(forks);
    table.truncate(pass.before as usize);
    grow(table, is_left)?;
    Ok(())
}

// The table after a step.
fn go_on(table: &mut Vec<u32>, forks: &mut Vec<bool>, mark: Mark) -> Result<(), NoMemory>
    ensures table { OnOk result (table.new.items
        ≡ next_table mark.is_left mark.pass.way table.old.items) }
    ensures forks { OnOk result (reverse forks.new.items
        ≡ next_forks mark.is_left mark.pass.way (reverse forks.old.items)) }
{
    match mark.pass.way {
        Way::Ends(_, _) => Ok(()),
        Way::Adds(_, added) => {
            grow_by(table, added, mark.is_left)?;
            Ok(())
        }
        Way::Forks(_) => {
            forks.push(mark.is_left)?;
            grow(table, mark.is_left)?;
            Ok(())
        }
    }
}

fn put(
    alloc: Global,
    out: &mut StepList,
    table: &[u32],
    step: &Step,
    is_left: bool,
) -> Result<(), NoMemory>
    ensures { (rest : List derivation.Step) → OnOk result (out.new ++ rest
        ≡ out.old ++ put_if is_left (numbered table.now (the_step step.now)) rest) }
{
    if is_left {
        let step = renumbered(alloc, table, step)?;
        out.push(step)?;
    }
    Ok(())
}

fn write_step(
    alloc: Global,
    out: &mut StepList,
    table: &mut Vec<u32>,
    forks: &mut Vec<bool>,
    step: &Step,
    mark: Mark,
) -> Result<(), NoMemory>
    ensures { (ms : List Mark) (xs : List derivation.Step) → OnOk result
        (out.new ++ walk.write ms xs table.new.items (reverse forks.new.items)
        ≡ out.old ++ walk.write (mark ∷ ms) (the_step step.now ∷ xs) table.old.items
        (reverse forks.old.items)) }
{
    resume(table, forks, mark.pass)?;
    put(alloc, out, table.as_slice(), step, mark.is_left)?;
    go_on(table, forks, mark)?;
    Ok(())
}

/// The steps that are left, by their new numbers. The marks stand with that of the last step first.
pub fn write(alloc: Global, steps: &[Step], marks: Vec<Mark>) -> Result<StepList, NoMemory>
    ensures { IfOk result (λ out. out ≡ written (map the_step steps.now) marks.items) }
{
    let mut waiting = marks;
    let mut out = StepList::new(alloc);
    let mut table = Vec::new(alloc);
    let mut forks = Vec::new(alloc);
    table.push(0)?;
    table.push(1)?;
    for step in steps {
        let Some(mark) = waiting.pop() else {
            return Ok(out);
        };
        write_step(alloc, &mut out, &mut table, &mut forks, step, mark)?;
    }
    Ok(out)
}
