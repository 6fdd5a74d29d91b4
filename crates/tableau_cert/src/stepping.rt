//! The way past a string, a mark or a quantifier.

ghost use Rattle.std.specs.Prelude.{◌≡◌, ◌++◌, ◌∷◌, ◌+◌, ℕ, List, [], IfOk};
ghost use Rattle.calculus.specs.Ground as tree;
ghost use Rattle.calculus.specs.Instances.{after_character, after_string, spot_inside};
ghost use Rattle.formula_core.specs.GroundLists.{GroundList, AreNormalMarks, IsGrown, IsNormalTerm, the_g_term, the_marks};
ghost use Rattle.tableau_cert.specs.Made.{IsWayMade};
ghost use Rattle.tableau_cert.specs.WayView.{IsNormalWay, begun, the_spot, the_taken, the_way};

use crate::way::Way;
use cop_base::{NoMemory, PosId};
use formula_core::{GroundLabel, GroundMark, GroundTable, GroundTerm, Value};
use logic_rules::Logic;

// The label that a step's characters go on: in S5 an empty one.
fn begin_step(way: &mut Way, logic: Logic)
    ensures { the_way way.new ≡ begun logic (the_way way.old) }
{
    way.label = None;
    if !logic.keeps_prefix() {
        way.start = way.marks.len();
    }
}

/// Past the nu step with the string.
pub fn after_string(
    table: &GroundTable,
    way: &mut Way,
    logic: Logic,
    string: GroundLabel,
) -> Result<(), NoMemory>
    requires way { IsNormalWay table.now (the_way way.old) }
    requires string { AreNormalMarks table.now string }
    ensures { (position : ℕ) → IsGrown table.now table.now → IfOk result (λ _. IsWayMade table.now table.now (the_way way.old) (the_way way.new)
        (after_string logic (tree.marks_tree (the_marks table.now string)) (the_spot table.now (the_way way.old) position)) position) }
{
    begin_step(way, logic);
    way.marks.extend_from_slice(table.marks(string))?;
    way.taken.push(Value::Steps(string))?;
    Ok(())
}

/// Past the pi step, whose mark has the position and the values taken.
pub fn after_mark(
    table: &mut GroundTable,
    way: &mut Way,
    logic: Logic,
    position: u32,
) -> Result<(), NoMemory>
    requires { IsNormalWay table.old (the_way way.old) }
    ensures { IfOk result (λ _. IsWayMade table.old table.new (the_way way.old) (the_way way.new)
        (after_character logic (the_spot table.old (the_way way.old) position)) position) }
{
    let taken = table.add_values(&way.taken)?;
    begin_step(way, logic);
    way.marks.push(GroundMark::New(PosId(position), taken))?;
    Ok(())
}

/// Inside the quantifier whose variable gets the term, which is taken.
pub fn inside_gamma(way: &mut Way, term: GroundTerm) -> Result<(), NoMemory>
    ensures { (ls : List GroundList) (position : ℕ) → IsGrown ls ls → IsNormalWay ls (the_way way.old) → IsNormalTerm ls term
        → IfOk result (λ _. IsWayMade ls ls (the_way way.old) (the_way way.new)
        (spot_inside (the_g_term ls term) (the_taken ls (the_way way.old) ++ tree.term (the_g_term ls term) ∷ []) (the_spot ls (the_way way.old) position)) (position + 1)) }
{
    way.taken.push(Value::Term(term))?;
    way.bindings.push(term)?;
    Ok(())
}

/// Inside the quantifier whose variable gets the eigenvariable of its position.
pub fn inside_delta(table: &mut GroundTable, way: &mut Way, position: u32) -> Result<(), NoMemory>
    requires { IsNormalWay table.old (the_way way.old) }
    ensures { IfOk result (λ _. IsWayMade table.old table.new (the_way way.old) (the_way way.new)
        (spot_inside (tree.g_eigen position (tree.values_tree (the_taken table.old (the_way way.old)))) (the_taken table.old (the_way way.old)) (the_spot table.old (the_way way.old) position)) (position + 1)) }
{
    let taken = table.add_values(&way.taken)?;
    way.bindings
        .push(GroundTerm::Eigen(PosId(position), taken))?;
    Ok(())
}
