//! The modal step of a part of an instance.

ghost use Rattle.std.specs.Prelude.{◌≡◌, false, ◌∷◌, ℕ, map, List, IfOk, MatchOption};
ghost use Rattle.calculus.specs.Kinds.{components, shape_of};
ghost use Rattle.formula_core.specs.FormulaView.{the_formula};
ghost use Rattle.formula_core.specs.GroundLists.{GroundList, IsGrown, the_value};
ghost use Rattle.calculus.specs.declared.kind.ModalPart.TheVariants as modal;
ghost use Rattle.formula_core.specs.declared.ground.Value.TheVariants as value;
ghost use Rattle.tableau_core.specs.Walks.{starts_with_string};
ghost use Rattle.tableau_cert.specs.Gathering.{AreNormal, IsEntered, IsModal};
ghost use Rattle.tableau_cert.specs.WayView.{IsNormalWay, the_way};

use crate::stepping::{after_mark, after_string};
use crate::task::{Entered, PlacedPart, Supply};
use crate::way::Way;
use cop_base::NoMemory;
use formula_core::{GroundLabel, GroundTable, Value};
use logic_rules::{Logic, ModalPart, kind_of};

// The string that comes first, and the values after it.
#[derive(Clone, Copy)]
struct NextString<'v> {
    string: GroundLabel,
    after: &'v [Value],
}

fn next_string(values: &[Value]) -> Option<NextString>
    ensures { MatchOption result ((ls : List GroundList) → starts_with_string (map (the_value ls) values.now) ≡ false)
        (λ n. values.now ≡ value.Steps n.string ∷ n.after.now) }
{
    match values.split_first() {
        None => None,
        Some((value, after)) => match value {
            Value::Steps(string) => Some(NextString {
                string: *string,
                after,
            }),
            Value::Term(_) => None,
        },
    }
}

// Past the string that comes first, where it is one of a nu step.
fn enter_nu<'v>(
    table: &GroundTable,
    way: &mut Way,
    logic: Logic,
    given: &GroundTable,
    supply: Supply<'v>,
) -> Result<Option<Entered<'v>>, NoMemory>
    requires way { IsNormalWay table.now (the_way way.old) }
    requires values { AreNormal given.now supply }
    requires grown { IsGrown given.now table.now }
    ensures { (position : ℕ) → IfOk result (λ o. IsModal logic modal.Nu given.now table.now table.now (the_way way.old) (the_way way.new) position supply.entry o) }
{
    match next_string(supply.values) {
        None => Ok(None),
        Some(next) => {
            let string = given.marks(next.string);
            if !logic.is_step_length(string.len()) {
                return Ok(None);
            }
            after_string(table, way, logic, next.string)?;
            Ok(Some(Entered {
                supply: Supply {
                    sides: supply.sides,
                    values: next.after,
                },
                steps: 1,
            }))
        }
    }
}

fn enter_pi<'v>(
    table: &mut GroundTable,
    way: &mut Way,
    logic: Logic,
    position: u32,
    supply: Supply<'v>,
) -> Result<Option<Entered<'v>>, NoMemory>
    requires way { IsNormalWay table.old (the_way way.old) }
    ensures { (given : List GroundList) → AreNormal given supply.entry
        → IfOk result (λ o. IsModal logic modal.Pi given table.old table.new (the_way way.old) (the_way way.new) position supply.entry o) }
{
    after_mark(table, way, logic, position)?;
    Ok(Some(Entered { supply, steps: 1 }))
}

/// Past the modal step of the part at the end of the way, where it has one; nothing where a string is
/// missing or too long.
pub fn enter<'v>(
    table: &mut GroundTable,
    way: &mut Way,
    logic: Logic,
    placed: PlacedPart,
    given: &GroundTable,
    supply: Supply<'v>,
) -> Result<Option<Entered<'v>>, NoMemory>
    requires way { IsNormalWay table.old (the_way way.old) }
    requires values { AreNormal given.now supply }
    requires grown { IsGrown given.now table.old }
    ensures { IfOk result (λ o. IsEntered logic given.now table.old table.new (the_way way.old) (the_way way.new) placed.entry.part.sign (the_formula placed.entry.part.formula.now) placed.entry.position supply.entry o) }
{
    match kind_of(logic, placed.part.sign, placed.part.formula).modal {
        ModalPart::Plain => Ok(Some(Entered { supply, steps: 0 })),
        ModalPart::Nu => {
            let entered = enter_nu(table, way, logic, given, supply)?;
            Ok(entered)
        }
        ModalPart::Pi => {
            let entered = enter_pi(table, way, logic, placed.position, supply)?;
            Ok(entered)
        }
    }
}
