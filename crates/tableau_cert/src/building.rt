//! The tableau that moves close.

ghost use Rattle.std.specs.Prelude.{◌≡◌, ◌≤◌, List, [], length, map, reverse, take, drop, IfOk, OnOk, Ok};
ghost use Rattle.formula_core.specs.GroundLists.{GroundList, no_list};
ghost use Rattle.tableau_core.specs.Numbered.ClosingView.{the_closing};
ghost use Rattle.tableau_core.specs.Numbered.InstanceView.{the_instance};
ghost use Rattle.tableau_core.specs.Numbered.TableauView.{the_tableau};
ghost use Rattle.tableau_cert.specs.Building.{built, built_tableau, instance_in, put_closer, put_extension, the_stack};
ghost use Rattle.tableau_cert.specs.Resolving.{the_closer, the_outcome};

use crate::resolving::{Closer, Outcome, Resolved};
use cop_base::NoMemory;
use formula_core::{GroundTable, Values};
use std::alloc::Global;
use tableau_core::{ClauseInstance, Closing, ClosingList, LiteralList, Selection, Tableau};

// So many of the first closings of the stack, or as many as there are. The stack's last item is the
// first one.
fn first_closings(
    alloc: Global,
    stack: &mut Vec<Closing>,
    count: usize,
) -> Result<ClosingList, NoMemory>
    ensures closings { IfOk result (λ l. l ≡ map the_closing (take count (reverse stack.old.items))) }
    ensures rest { IfOk result (λ _. reverse stack.new.items ≡ drop count (reverse stack.old.items)) }
{
    let mut list = ClosingList::new(alloc);
    'taking: while list.items().len() < count {
        match stack.pop() {
            None => return Ok(list),
            Some(closing) => list.push(closing)?,
        }
    }
    Ok(list)
}

// The extension, which takes the closings of its goals from the stack.
fn extension(
    alloc: Global,
    place: u32,
    instance: ClauseInstance,
    stack: &mut Vec<Closing>,
) -> Result<(), NoMemory>
    ensures { (ls : List GroundList) → OnOk result (the_stack ls stack.new.items
        ≡ put_extension place (Ok (the_instance ls instance)) (the_stack ls stack.old.items)) }
{
    let count = instance.literals.items().len().saturating_sub(1);
    let goals = first_closings(alloc, stack, count)?;
    stack.push(Closing::Extend {
        instance,
        literal: place,
        goals,
    })?;
    Ok(())
}

// Puts the closing of the move onto the stack.
fn put_closing(alloc: Global, closer: Closer, stack: &mut Vec<Closing>) -> Result<(), NoMemory>
    ensures { (ls : List GroundList) → OnOk result (the_stack ls stack.new.items ≡ put_closer (the_closer ls closer) (the_stack ls stack.old.items)) }
{
    match closer {
        Closer::Reduction(up) => {
            stack.push(Closing::Reduce { up })?;
            Ok(())
        }
        Closer::Extension { place, outcome } => match outcome {
            Outcome::NoInstance => Ok(()),
            Outcome::NotAllowed => Ok(()),
            Outcome::Instance(instance) => {
                extension(alloc, place, instance, stack)?;
                Ok(())
            }
        },
    }
}

// The closings of the goals of the start, the last one first. The moves are taken from the end, so that
// each extension finds the closings of its goals.
fn closings_of(alloc: Global, closers: Vec<Closer>) -> Result<Vec<Closing>, NoMemory>
    ensures { (ls : List GroundList) → IfOk result (λ v. the_stack ls v.items ≡ built (map (the_closer ls) closers.items)) }
{
    let mut rest = closers;
    let mut stack = Vec::new(alloc);
    while let Some(closer) = rest.pop() {
        put_closing(alloc, closer, &mut stack)?;
    }
    Ok(stack)
}

fn nothing(alloc: Global) -> ClauseInstance
    ensures { (ls : List GroundList) → length ls ≤ no_list → the_instance ls result ≡ record { selection = []; values = []; literals = [] } }
{
    ClauseInstance {
        selection: Selection::new(alloc),
        values: Values(GroundTable::EMPTY),
        literals: LiteralList::new(alloc),
    }
}

// The instance, or one of no sides, values and literals.
fn instance_in(alloc: Global, outcome: Outcome) -> ClauseInstance
    ensures { (ls : List GroundList) → length ls ≤ no_list → the_instance ls result ≡ instance_in (the_outcome ls outcome) }
{
    match outcome {
        Outcome::NoInstance => nothing(alloc),
        Outcome::NotAllowed => nothing(alloc),
        Outcome::Instance(instance) => instance,
    }
}

/// The tableau that the moves build, which is closed where they are accepted.
pub fn tableau_from(alloc: Global, resolved: Resolved) -> Result<Tableau, NoMemory>
    ensures { IfOk result (λ t. the_tableau t
        ≡ built_tableau (the_outcome resolved.table resolved.start) (map (the_closer resolved.table) resolved.closers.items)) }
{
    let _lists = resolved.table.len(); // tells that the table is no longer than one may be
    let mut stack = closings_of(alloc, resolved.closers)?;
    let count = stack.len();
    let goals = first_closings(alloc, &mut stack, count)?;
    Ok(Tableau {
        table: resolved.table,
        start: instance_in(alloc, resolved.start),
        goals,
    })
}
