//! The agenda: each turn once, in the order in which the turns are made.

ghost use Rattle.std.specs.Prelude.{◌≡◌, ◌<◌, ◌^◌, [], length, map, IfOk, OnOk, IsPermutation};
ghost use Rattle.calculus.specs.Tableaux.{instances};
ghost use Rattle.conversion_theory.specs.Depths.{value_list_depth};
ghost use Rattle.formula_core.specs.GroundLists.{the_value};
ghost use Rattle.name_order.specs.Arranged.{joined};
ghost use Rattle.name_order.specs.ByNumber.Collected.{the_list, the_lists};
ghost use Rattle.name_order.specs.ByNumber.Depths.{AreDepths};
ghost use Rattle.name_order.specs.ByNumber.Order.{AreDeep, IsArranged, IsSortedByKeys, the_turns};
ghost use Rattle.name_order.specs.ByNumber.ReachedView.{the_all, the_reached, AreNormalReached};
ghost use Rattle.name_order.specs.Keeping.{keep_all, turn_eq};
ghost use Rattle.name_order.specs.Walks.{turns_by};
ghost use Rattle.tableau_core.specs.Numbered.TableauView.{the_tableau};

use crate::collect::{ReachedList, collect};
use crate::depth::{depths, values_depth};
use crate::keys::keep;
use crate::reached::{Reached, reached_by};
use cop_base::NoMemory;
use formula_core::GroundTable;
use indexmap::IndexSet;
use std::alloc::Global;
use tableau_core::{SizedProblem, Tableau};

/// The turns of a tableau: those of each instance, and the agenda.
#[derive(Drop)]
pub struct Turns {
    pub lists: Vec<ReachedList>,
    pub agenda: IndexSet<Reached>,
}

/// A turn with the depth of its values.
#[derive(Drop)]
pub struct DeepTurn {
    pub depth: u64,
    pub turn: Reached,
}

fn keep_list(
    alloc: Global,
    table: &GroundTable,
    list: &[Reached],
    kept: &mut IndexSet<Reached>,
) -> Result<(), NoMemory>
    requires normal { AreNormalReached table.now kept.now.keys }
    ensures normal { IfOk result (λ _. AreNormalReached table.now kept.new.keys) }
    ensures kept { IfOk result (λ _. the_all table.now kept.new.keys
        ≡ keep_all turn_eq (the_all table.now kept.old.keys) (the_all table.now list.now)) }
{
    for turn in list {
        keep(alloc, table, turn.position, &turn.values, kept)?;
    }
    Ok(())
}

// The turns of all lists without repetitions.
fn keep_turns(
    alloc: Global,
    table: &GroundTable,
    lists: &[ReachedList],
) -> Result<IndexSet<Reached>, NoMemory>
    ensures { IfOk result (λ kept. the_all table.now kept.keys
        ≡ keep_all turn_eq [] (joined (the_lists table.now lists.now))) }
{
    let mut kept = IndexSet::new(alloc);
    for list in lists {
        keep_list(alloc, table, &list.items, &mut kept)?;
    }
    Ok(kept)
}

// The turns with the depths of their values.
fn deep_turns(
    alloc: Global,
    table: &GroundTable,
    depths: &[u32],
    turns: &[Reached],
) -> Result<Vec<DeepTurn>, NoMemory>
    requires depths { AreDepths table.now depths.now }
    ensures turns { IfOk result (λ all. the_turns table.now all.items ≡ the_all table.now turns.now) }
    ensures deep { IfOk result (λ all. AreDeep table.now all.items) }
{
    let mut all = Vec::new(alloc);
    for turn in turns {
        let depth = values_depth(table, depths, &turn.values);
        let turn = reached_by(alloc, table, turn.position, &turn.values)?;
        all.push(DeepTurn { depth, turn })?;
    }
    Ok(all)
}

// Sorts the turns by the depth of their values, by how many these are, and then by position.
fn sort_turns(turns: &mut Vec<DeepTurn>) -> Result<(), NoMemory>
    ensures permutation { IsPermutation turns.old.items turns.new.items }
    ensures sorted { OnOk result (IsSortedByKeys turns.new.items) }
{
    turns.sort_by_key(|t| (t.depth, t.turn.values.len(), t.turn.position))?;
    Ok(())
}

// The turns without their depths, found by what they are.
fn turns_of(
    alloc: Global,
    table: &GroundTable,
    sorted: &[DeepTurn],
) -> Result<IndexSet<Reached>, NoMemory>
    ensures normal { IfOk result (λ turns. AreNormalReached table.now turns.keys) }
    ensures kept { IfOk result (λ turns. the_all table.now turns.keys ≡ keep_all turn_eq [] (the_turns table.now sorted.now)) }
{
    let mut turns = IndexSet::new(alloc);
    for item in sorted {
        keep(
            alloc,
            table,
            item.turn.position,
            &item.turn.values,
            &mut turns,
        )?;
    }
    Ok(turns)
}

// The turns of all lists once each, in order.
fn arrange(
    alloc: Global,
    table: &GroundTable,
    lists: &[ReachedList],
) -> Result<IndexSet<Reached>, NoMemory>
    ensures normal { IfOk result (λ agenda. AreNormalReached table.now agenda.keys) }
    ensures arranged { IfOk result (λ agenda. IsArranged (joined (the_lists table.now lists.now)) (the_all table.now agenda.keys)) }
{
    let depths = depths(alloc, table)?;
    let kept = keep_turns(alloc, table, lists)?;
    let mut deep = deep_turns(alloc, table, &depths, kept.as_slice())?;
    sort_turns(&mut deep)?;
    let agenda = turns_of(alloc, table, &deep)?;
    Ok(agenda)
}

/// The turns of a tableau, and the order in which they are made.
pub fn all_turns(alloc: Global, problem: &SizedProblem, t: &Tableau) -> Result<Turns, NoMemory>
    ensures lists { IfOk result (λ all. the_lists t.now.table all.lists.items
        ≡ map (turns_by problem.now) (instances (the_tableau t.now))) }
    ensures agenda { IfOk result (λ all. IsArranged (joined (the_lists t.now.table all.lists.items)) (the_all t.now.table all.agenda.keys)) }
    ensures normal { IfOk result (λ all. AreNormalReached t.now.table all.agenda.keys) }
    ensures few { IfOk result (λ all. length all.agenda.keys < 2 ^ 32) }
{
    let lists = collect(alloc, problem, t)?;
    let agenda = arrange(alloc, &t.table, &lists)?;
    if agenda.len() > u32::MAX as usize {
        return Err(NoMemory);
    }
    Ok(Turns { lists, agenda })
}
