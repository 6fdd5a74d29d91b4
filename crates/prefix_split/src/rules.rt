//! What follows from what is known of beginnings of labels.

ghost use Rattle.std.specs.Prelude.{◌≡◌, ◌<◌, ℕ, List, IfSome, Some, length, slice_get, true};
ghost use Rattle.calculus.specs.Ground.{GroundMark};
ghost use Rattle.store_theory.specs.Stores.{Solution};
ghost use Rattle.prefix_split.specs.Beginnings.{AreValues, Begins, Holds};
ghost use Rattle.prefix_split.specs.Beginnings.{IsShortBehind, Keeps, is_short};

use crate::node::{Node, Step};
use crate::order::{LabelOrder, Relation};

pub(crate) fn node_at(nodes: &[Node], u: usize) -> Node
    requires { u < length nodes.now }
    ensures { slice_get nodes.now u ≡ Some result }
{
    nodes[u]
}

fn is_short(step: Step) -> bool
    ensures { result ≡ is_short step }
{
    match step {
        Step::Root => false,
        Step::Mark(_) => true,
        Step::Short(_) => true,
        Step::Long(_) => false,
    }
}

// The parent of a node whose last step is by at most one mark.
pub(crate) fn short_parent(nodes: &[Node], y: usize) -> Option<usize>
    ensures { IfSome result (λ x. (σ : Solution) (value : ℕ → List GroundMark)
        → AreValues σ value nodes.now → IsShortBehind (value x) (value y)) }
{
    if y < nodes.len() {
        let node = node_at(nodes, y);
        if is_short(node.step) {
            return Some(node.parent);
        }
    }
    None
}

// Whether y is at most one mark longer than a label that is shorter than z, and both y and z are
// beginnings of w. Then y is a beginning of z.
fn is_gap(order: &LabelOrder, nodes: &[Node], y: usize, z: usize, w: usize) -> bool
    ensures { result ≡ true → (σ : Solution) (value : ℕ → List GroundMark)
        → AreValues σ value nodes.now → Holds value order.now → Begins (value y) (value z) }
{
    let Some(x) = short_parent(nodes, y) else {
        return false;
    };
    let shorter = order.is_shorter(x, z);
    let left = order.begins(y, w);
    let last = order.begins(z, w);
    if shorter {
        if left {
            return last;
        }
    }
    false
}

fn close_gap(order: &mut LabelOrder, nodes: &[Node], y: usize, z: usize, w: usize)
    ensures { Keeps nodes.now order.old order.new }
{
    if is_gap(order, nodes, y, z, w) {
        order.add(y, z, Relation::Weak);
    }
}

// Closes the gap of y and z below what both begin.
fn close_gap_with(order: &mut LabelOrder, nodes: &[Node], y: usize, z: usize)
    ensures { Keeps nodes.now order.old order.new }
{
    if let Some(w) = order.both_begin(y, z) {
        close_gap(order, nodes, y, z, w);
    }
}

// Closes the gaps of y, whose parent is x, and the nodes that are longer than x.
fn close_gaps(order: &mut LabelOrder, nodes: &[Node], y: usize, x: usize)
    ensures { Keeps nodes.now order.old order.new }
{
    let mut from = 0;
    for _ in 0..nodes.len() {
        let Some(z) = order.next_gap(x, y, from) else {
            return;
        };
        close_gap_with(order, nodes, y, z);
        from = z.saturating_add(1);
    }
}

// What is shorter than a label of at most one mark more than its parent is a beginning of that.
fn step_back(order: &mut LabelOrder, nodes: &[Node], z: usize, y: usize)
    ensures { Keeps nodes.now order.old order.new }
{
    let Some(x) = short_parent(nodes, y) else {
        return;
    };
    if order.is_shorter(z, y) {
        order.add(z, x, Relation::Weak);
    }
}

// The same for all that begin y, and are not known to begin its parent x.
fn step_all_back(order: &mut LabelOrder, nodes: &[Node], y: usize, x: usize)
    ensures { Keeps nodes.now order.old order.new }
{
    let mut from = 0;
    for _ in 0..nodes.len() {
        let Some(z) = order.next_below_alone(y, x, from) else {
            return;
        };
        step_back(order, nodes, z, y);
        from = z.saturating_add(1);
    }
}

// Draws what follows, by the order alone, for y.
pub(crate) fn follow(order: &mut LabelOrder, nodes: &[Node], y: usize)
    ensures { Keeps nodes.now order.old order.new }
{
    let Some(x) = short_parent(nodes, y) else {
        return;
    };
    step_all_back(order, nodes, y, x);
    close_gaps(order, nodes, y, x);
}
