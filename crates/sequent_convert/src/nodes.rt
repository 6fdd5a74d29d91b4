//! The nodes that turns work on.

ghost use Rattle.std.specs.Prelude.{◌≡◌, ℕ, Some, IsTrue, ◌↔◌, MatchOption, map, slice_get};
ghost use Rattle.conversion_theory.specs.Branches.{Item};
ghost use Rattle.formula_core.specs.GroundLists.{the_value};
ghost use Rattle.name_order.specs.ByNumber.TurnView.{the_turn};
ghost use Rattle.sequent_convert.specs.ByNumber.NodeView.{the_node};
ghost use Rattle.sequent_convert.specs.Working.{IsFront, IsOn};

use crate::node::Node;
use formula_core::{GroundTable, Value};
use name_order::Turn;

#[tactic(auto, using(formula_core::specs::GroundEq::tree_equality, crate::proofs::ByNumber::NodeLaws::front_short))]
fn are_taken(table: &GroundTable, taken: &[Value], values: &[Value]) -> bool
    ensures { IsTrue result ↔ IsFront (map (the_value table.now) taken.now) (map (the_value table.now) values.now) }
{
    if taken.len() > values.len() {
        return false;
    }
    for i in 0..taken.len() {
        let a = &taken[i];
        let b = &values[i];
        if !table.is_same_value(*a, *b) {
            return false;
        }
    }
    true
}

/// Whether the turn works on the node: it is at its position, and takes the values that were taken on the way to it, and others.
pub fn works_on(table: &GroundTable, turn: Turn, node: &Node) -> bool
    ensures { IsTrue result ↔ IsOn (the_turn table.now turn) (the_node table.now node.now) }
{
    if node.past {
        return false;
    }
    if node.spot.position != turn.position.0 {
        return false;
    }
    are_taken(
        table,
        table.values(node.spot.taken),
        table.values(turn.values),
    )
}

// The place of the node that the turn works on, if there is one.
fn seek(table: &GroundTable, nodes: &[Node], turn: Turn) -> Option<usize>
    ensures { MatchOption result ((n : ℕ) (i : Item) → slice_get (map (the_node table.now) nodes.now) n ≡ Some i → ¬ (IsOn (the_turn table.now turn) i))
        (λ n. (i : Item) × (slice_get (map (the_node table.now) nodes.now) n ≡ Some i) × IsOn (the_turn table.now turn) i) }
{
    for i in 0..nodes.len() {
        if works_on(table, turn, &nodes[i]) {
            return Some(i);
        }
    }
    None
}

/// The place of the node that the turn works on, if there is one. It is mostly the one hinted at.
pub fn find(table: &GroundTable, nodes: &[Node], hint: usize, turn: Turn) -> Option<usize>
    ensures { MatchOption result ((n : ℕ) (i : Item) → slice_get (map (the_node table.now) nodes.now) n ≡ Some i → ¬ (IsOn (the_turn table.now turn) i))
        (λ n. (i : Item) × (slice_get (map (the_node table.now) nodes.now) n ≡ Some i) × IsOn (the_turn table.now turn) i) }
{
    if hint < nodes.len() {
        if works_on(table, turn, &nodes[hint]) {
            return Some(hint);
        }
    }
    seek(table, nodes, turn)
}
