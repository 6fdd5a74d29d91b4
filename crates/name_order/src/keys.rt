//! Turns once each, in the order in which they were first added.

ghost use Rattle.std.specs.Prelude.{◌≡◌, map, IfOk};
ghost use Rattle.formula_core.specs.GroundLists.{the_value};
ghost use Rattle.name_order.specs.ByNumber.ReachedView.{the_all, the_keys, AreNormalReached};
ghost use Rattle.name_order.specs.Found.{find_in};
ghost use Rattle.name_order.specs.Keeping.{keep, turn_eq};
ghost use Rattle.name_order.specs.WalkView.{the_turn_at};

use crate::reached::{Reached, reached_by};
use cop_base::NoMemory;
use formula_core::{GroundTable, Value, Values};
use indexmap::IndexSet;
use std::alloc::Global;

/// Adds the turn where it is new.
pub fn keep(
    alloc: Global,
    table: &GroundTable,
    position: u32,
    values: &[Value],
    turns: &mut IndexSet<Reached>,
) -> Result<(), NoMemory>
    requires normal { AreNormalReached table.now turns.now.keys }
    ensures normal { IfOk result (λ _. AreNormalReached table.now turns.new.keys) }
    ensures kept { IfOk result (λ _. the_all table.now turns.new.keys
        ≡ keep turn_eq (the_all table.now turns.old.keys) (the_turn_at position (map (the_value table.now) values.now))) }
{
    let _read_for_its_invariant = table.normal_values(Values(GroundTable::EMPTY));
    let turn = reached_by(alloc, table, position, values)?;
    turns.insert(turn)?;
    Ok(())
}

/// The place of the turn, where it was added.
pub fn find(
    alloc: Global,
    table: &GroundTable,
    turns: &IndexSet<Reached>,
    position: u32,
    values: &[Value],
) -> Result<Option<usize>, NoMemory>
    requires normal { AreNormalReached table.now turns.now.keys }
    ensures { IfOk result (λ r. r ≡ find_in (the_keys table.now turns.now.keys) (the_turn_at position (map (the_value table.now) values.now))) }
{
    let _read_for_its_invariant = table.normal_values(Values(GroundTable::EMPTY));
    let turn = reached_by(alloc, table, position, values)?;
    Ok(turns.get_index_of(&turn))
}
