//! Derivations by the rules of sequents, one step at a time.

use cop_base::NoMemory;
use derivation_check::{CheckFault, Verdict};
use derivation_text::{ParseFault, parse};
use logic_rules::Problem;
use sequent_calc::{ApplyFault, Children, Derivation, Entry, Sequent, apply};
use std::alloc::Global;

fn first_sequent(alloc: Global, problem: &Problem) -> Result<Sequent, NoMemory> {
    let mut first = Sequent::new(alloc);
    first.push(Entry::first(alloc, problem)?)?;
    Ok(first)
}

fn open_children(open: &mut Vec<Sequent>, children: Children) -> Result<(), NoMemory> {
    match children {
        Children::Closed => {}
        Children::One(only) => open.push(only)?,
        Children::Two(first, second) => {
            open.push(second)?;
            open.push(first)?;
        }
    }
    Ok(())
}

// The line of the first step, behind four lines and a line for each name.
fn first_line(d: &Derivation) -> u64 {
    let names = d
        .names
        .eigens
        .items()
        .len()
        .saturating_add(d.names.spares.items().len());
    (names as u64).saturating_add(5)
}

// Each step on the sequent that was opened last. What is wrong is told by its line.
fn stepped(alloc: Global, problem: &Problem, d: &Derivation) -> Result<Verdict, NoMemory> {
    let mut open = Vec::new(alloc);
    open.push(first_sequent(alloc, problem)?)?;
    let mut line = first_line(d);
    for step in d.steps.items() {
        let Some(sequent) = open.pop() else {
            let fault = CheckFault::AllClosed;
            return Ok(Verdict::Rejected { line, fault });
        };
        match apply(alloc, problem, &d.names, &sequent, step) {
            Ok(children) => open_children(&mut open, children)?,
            Err(ApplyFault::Fault(fault)) => {
                let fault = CheckFault::Step(fault);
                return Ok(Verdict::Rejected { line, fault });
            }
            Err(ApplyFault::NoMemory) => return Err(NoMemory),
        }
        line = line.saturating_add(1);
    }
    if open.is_empty() {
        return Ok(Verdict::Accepted);
    }
    let fault = CheckFault::StillOpen;
    Ok(Verdict::Rejected { line, fault })
}

/// What the rules judge of a text.
pub fn judged_by_steps(alloc: Global, problem: &Problem, text: &[u8]) -> Result<Verdict, NoMemory> {
    match parse(alloc, problem, text) {
        Ok((_, derivation)) => stepped(alloc, problem, &derivation),
        Err(ParseFault::Text { line, cause }) => {
            let fault = CheckFault::Text(cause);
            Ok(Verdict::Rejected { line, fault })
        }
        Err(ParseFault::NoMemory) => Err(NoMemory),
    }
}
