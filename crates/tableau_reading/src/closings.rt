//! The tableau of a tree without open goals: its closings, from the last choice to the first one.

ghost use Rattle.std.specs.Prelude.{◌≡◌, ◌≤◌, ◌-◌, ◌∷◌, ◌++◌, [], IfOk, List, MatchOption, OnOk};
ghost use Rattle.std.specs.Prelude.{drop, length, map, slice_get, take};
ghost use Rattle.std.specs.List.{AllByRecursion};
ghost use Rattle.calculus.specs.Choices.{GroundChoice, choices_of, extension, ground_choices, reduction};
ghost use Rattle.formula_core.specs.GroundLists.{GroundList, IsGrown};
ghost use Rattle.search_theory.specs.Joined.{IsTableauBy, closings_by};
ghost use Rattle.search_theory.specs.OrderedChoices.{selection_of};
ghost use Rattle.search_theory.specs.States.{choice_at, clause_at, name_of};
ghost use Rattle.store_theory.specs.Stores.{Solution};
ghost use Rattle.tableau_core.specs.Numbered.TableauView.{the_tableau};
ghost use Rattle.tableau_reading.specs.Grounds.{AreSparesAt, HasSparesAt, IsReading};
ghost use Rattle.tableau_reading.specs.Listing.{names_of};
ghost use Rattle.tableau_reading.specs.Readable.{AreHomesBelow, IsReadableExtension, IsReadableStep};
ghost use Rattle.tableau_reading.specs.Reading.{AreClosingsOf, IsInner, IsStarted, IsStartedBy};
ghost use Rattle.tableau_reading.specs.Reading.{stacked, stacked_names};
ghost use Rattle.search_tree.specs.Trees.{clause_with, inserted, the_step};
ghost use Rattle.term_store.specs.ClauseView.{the_atom};

use crate::grounds::Grounds;
use crate::reading::{Source, connected_instance, start_instance};
use cop_base::NoMemory;
use search_tree::{Copied, Step, Tree};
use std::alloc::Global;
use tableau_core::{Closing, ClosingList, Tableau};
use term_store::CellAtom;

// Takes so many closings from the stack, the top first.
fn take_closings(
    alloc: Global,
    stack: &mut Vec<Closing>,
    count: usize,
) -> Result<ClosingList, NoMemory>
    ensures taken { IfOk result (λ cs. stacked stack.old.items ≡ cs ++ stacked stack.new.items) }
    ensures fewer { IfOk result (λ cs. length stack.new.items ≤ length stack.old.items - count) }
    ensures front { IfOk result (λ cs. cs ≡ take count (stacked stack.old.items)) }
    ensures others { IfOk result (λ cs. stacked stack.new.items ≡ drop count (stacked stack.old.items)) }
{
    let mut closings = ClosingList::new(alloc);
    for _i in 0..count {
        match stack.pop() {
            Some(closing) => closings.push(closing)?,
            None => return Ok(closings),
        }
    }
    Ok(closings)
}

// The closing by an ancestor comes to the stack.
fn add_reduction(stack: &mut Vec<Closing>, up: u32) -> Result<(), NoMemory>
    ensures names { OnOk result (stacked_names stack.new.items ≡ reduction up ∷ stacked_names stack.old.items) }
    ensures built { OnOk result ((ls : List GroundList) (gs : List GroundChoice)
        → AreClosingsOf ls (stacked stack.old.items) (closings_by gs)
        → AreClosingsOf ls (stacked stack.new.items) (closings_by (reduction up ∷ gs))) }
{
    stack.push(Closing::Reduce { up })?;
    Ok(())
}

// The closing by a literal of the clause comes to the stack, in the place of those of the goals that
// the clause gave.
fn add_extension(
    from: &Source<'_>,
    grounds: &mut Grounds,
    copied: &Copied,
    place: u32,
    atom: &CellAtom,
    stack: &mut Vec<Closing>,
) -> Result<(), NoMemory>
    requires homes { AreHomesBelow from.now.store.now.store from.now.homes.now }
    requires spares { HasSparesAt from.now.store.now.store from.now.homes.now }
    requires reading { IsReading from.now.store.now.store from.now.homes.now grounds.old }
    requires step { IsReadableExtension from.now.store.now.store from.now.matrix.now copied.now place atom.now }
    ensures names { OnOk result (stacked_names stack.new.items
        ≡ extension (selection_of (slice_get from.now.matrix.now copied.now.clause.0)) place
        ∷ stacked_names stack.old.items) }
    ensures built { OnOk result ((σ : Solution) → AreSparesAt from.now.store.now.store from.now.homes.now σ
        → (gs : List GroundChoice) → AreClosingsOf grounds.old.table (stacked stack.old.items) (closings_by gs)
        → AreClosingsOf grounds.new.table (stacked stack.new.items) (closings_by (extension (clause_at σ
        (clause_with from.now.matrix.now copied.now (inserted place (the_atom atom.now) copied.now.copy.literals)))
        place ∷ gs))) }
    ensures reading { OnOk result (IsReading from.now.store.now.store from.now.homes.now grounds.new) }
    ensures grown { OnOk result (IsGrown grounds.old.table grounds.new.table) }
{
    let instance = connected_instance(from, grounds, copied, place as usize, atom)?;
    let goals = take_closings(from.alloc, stack, copied.copy.literals.items().len())?;
    stack.push(Closing::Extend {
        instance,
        literal: place,
        goals,
    })?;
    Ok(())
}

// The closing of the goal at which the choice was made comes to the stack, in the place of those of
// the goals below it.
fn add_closing(
    from: &Source<'_>,
    grounds: &mut Grounds,
    step: &Step,
    stack: &mut Vec<Closing>,
) -> Result<(), NoMemory>
    requires homes { AreHomesBelow from.now.store.now.store from.now.homes.now }
    requires spares { HasSparesAt from.now.store.now.store from.now.homes.now }
    requires reading { IsReading from.now.store.now.store from.now.homes.now grounds.old }
    requires step { IsReadableStep from.now.store.now.store from.now.matrix.now step.now }
    requires inner { IsInner step.now }
    ensures names { OnOk result (stacked_names stack.new.items
        ≡ name_of (the_step from.now.matrix.now step.now) ∷ stacked_names stack.old.items) }
    ensures built { OnOk result ((σ : Solution) → AreSparesAt from.now.store.now.store from.now.homes.now σ
        → (gs : List GroundChoice) → AreClosingsOf grounds.old.table (stacked stack.old.items) (closings_by gs)
        → AreClosingsOf grounds.new.table (stacked stack.new.items)
        (closings_by (choice_at σ (the_step from.now.matrix.now step.now) ∷ gs))) }
    ensures reading { OnOk result (IsReading from.now.store.now.store from.now.homes.now grounds.new) }
    ensures grown { OnOk result (IsGrown grounds.old.table grounds.new.table) }
{
    match step {
        Step::Start(_) => unreachable!(),
        Step::Reduce(_, up, _) => add_reduction(stack, *up),
        Step::Extend(_, copied, place, atom) => {
            add_extension(from, grounds, copied, *place, atom, stack)
        }
    }
}

// The closings of the goals of these steps, which are read off from the last choice to the first one.
fn add_closings(
    from: &Source<'_>,
    grounds: &mut Grounds,
    steps: &[Step],
    stack: &mut Vec<Closing>,
) -> Result<(), NoMemory>
    requires homes { AreHomesBelow from.now.store.now.store from.now.homes.now }
    requires spares { HasSparesAt from.now.store.now.store from.now.homes.now }
    requires reading { IsReading from.now.store.now.store from.now.homes.now grounds.old }
    requires steps { AllByRecursion (IsReadableStep from.now.store.now.store from.now.matrix.now) steps.now }
    requires inner { AllByRecursion IsInner steps.now }
    ensures names { OnOk result (stacked_names stack.new.items
        ≡ names_of from.now.matrix.now steps.now ++ stacked_names stack.old.items) }
    ensures built { OnOk result ((σ : Solution) → AreSparesAt from.now.store.now.store from.now.homes.now σ
        → (gs : List GroundChoice) → AreClosingsOf grounds.old.table (stacked stack.old.items) (closings_by gs)
        → AreClosingsOf grounds.new.table (stacked stack.new.items)
        (closings_by (map (choice_at σ) (map (the_step from.now.matrix.now) steps.now) ++ gs))) }
    ensures reading { OnOk result (IsReading from.now.store.now.store from.now.homes.now grounds.new) }
    ensures grown { OnOk result (IsGrown grounds.old.table grounds.new.table) }
{
    let count = steps.len();
    for passed in 0..count {
        let place = count - 1 - passed;
        add_closing(from, grounds, &steps[place], stack)?;
    }
    Ok(())
}

// The first of the steps and those after it.
fn first_step(steps: &[Step]) -> Option<(&Step, &[Step])>
    ensures { MatchOption result (steps.now ≡ []) (λ next. steps.now ≡ next.0.now ∷ next.1.now) }
{
    match steps.split_first() {
        None => None,
        Some((step, rest)) => Some((step, rest)),
    }
}

// The clause with which the steps start, and the steps after the first one.
fn start_of(steps: &[Step]) -> (&Copied, &[Step])
    requires { IsStarted steps.now }
    ensures { IsStartedBy steps.now result.0.now result.1.now }
{
    match first_step(steps) {
        Some((Step::Start(copied), others)) => (copied, others),
        Some((Step::Reduce(_, _, _), _)) => unreachable!(),
        Some((Step::Extend(_, _, _, _), _)) => unreachable!(),
        None => unreachable!(),
    }
}

/// The tableau of the tree: closings are read off from the last choice to the first one.
pub fn tableau_of(from: &Source<'_>, tree: &Tree) -> Result<Tableau, NoMemory>
    requires homes { AreHomesBelow from.now.store.now.store from.now.homes.now }
    requires spares { HasSparesAt from.now.store.now.store from.now.homes.now }
    requires steps { AllByRecursion (IsReadableStep from.now.store.now.store from.now.matrix.now)
        tree.now.steps.items }
    requires started { IsStarted tree.now.steps.items }
    ensures names { IfOk result (λ t. choices_of (ground_choices (the_tableau t))
        ≡ names_of from.now.matrix.now tree.now.steps.items) }
    ensures built { IfOk result (λ t. (σ : Solution) → AreSparesAt from.now.store.now.store from.now.homes.now σ
        → IsTableauBy (map (choice_at σ) (map (the_step from.now.matrix.now) tree.now.steps.items)) (the_tableau t)) }
{
    let (copied, others) = start_of(&tree.steps);
    let mut grounds = Grounds::new(from.alloc, from.store, from.homes)?;
    let mut stack = Vec::new(from.alloc);
    add_closings(from, &mut grounds, others, &mut stack)?;
    let count = stack.len();
    let goals = take_closings(from.alloc, &mut stack, count)?;
    let start = start_instance(from, &mut grounds, copied)?;
    Ok(Tableau {
        table: grounds.table,
        start,
        goals,
    })
}
