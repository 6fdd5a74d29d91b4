//! Positions with the values taken on the way to them, before these have a list in a table.

ghost use Rattle.std.specs.Prelude.{◌≡◌, map, IfOk};
ghost use Rattle.formula_core.specs.GroundLists.{the_value};
ghost use Rattle.name_order.specs.ByNumber.ReachedView.{the_reached, IsNormalReached};
ghost use Rattle.name_order.specs.WalkView.{the_turn_at};

use cop_base::NoMemory;
use formula_core::{GroundTable, Value};
use std::alloc::Global;

/// The number of a position with the values taken on the way to it, its own included.
#[derive(PartialEq, Eq, Hash, Drop)]
pub struct Reached {
    pub position: u32,
    pub values: Vec<Value>,
}

/// The position with these values, which name their lists by the one number: so the same position
/// with the same values is equal to it.
pub fn reached_by(
    alloc: Global,
    table: &GroundTable,
    position: u32,
    values: &[Value],
) -> Result<Reached, NoMemory>
    ensures turn { IfOk result (λ r. the_reached table.now r ≡ the_turn_at position (map (the_value table.now) values.now)) }
    ensures normal { IfOk result (λ r. IsNormalReached table.now r) }
{
    let mut all = Vec::new(alloc);
    for value in values {
        all.push(table.normal_value(*value))?;
    }
    Ok(Reached {
        position,
        values: all,
    })
}
