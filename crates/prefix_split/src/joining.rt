//! What the bindings of the store tell of beginnings of labels.

ghost use Rattle.std.specs.Prelude.{◌≡◌, ◌<◌, ℕ, List, IfOk, IfSome, length, true};
ghost use Rattle.calculus.specs.Ground.{GroundMark};
ghost use Rattle.store_theory.specs.Stores.{Solution, Solves};
ghost use Rattle.store_theory.specs.Templates.{as_label};
ghost use Rattle.prefix_split.specs.Beginnings.{AreValues, Holds, IsMarkNode, IsOtherMark};
ghost use Rattle.prefix_split.specs.Beginnings.{KeepsIn, NodesFit, StepFits, are_other_names};
ghost use Rattle.prefix_split.specs.Beginnings.{item_of, step_marks};

use crate::node::{Node, Step};
use crate::order::{LabelOrder, Relation};
use crate::rules::{follow, node_at};
use cop_base::NoMemory;
use term_store::{Head, Ref, Store};
use term_unify::Unifier;

pub(crate) fn item_of(step: Step) -> Option<Ref>
    ensures { result ≡ item_of step }
{
    match step {
        Step::Root => None,
        Step::Mark(r) => Some(r),
        Step::Short(r) => Some(r),
        Step::Long(r) => Some(r),
    }
}

fn is_mark_step(step: Step) -> bool {
    match step {
        Step::Mark(_) => true,
        Step::Root | Step::Short(_) | Step::Long(_) => false,
    }
}

// Whether the bindings make both steps the same. Strings of which one is not bound are the same
// only where they are one.
pub(crate) fn are_same_steps(
    unifier: &mut Unifier,
    store: &Store,
    a: Step,
    b: Step,
) -> Result<bool, NoMemory>
    requires left { StepFits (length store.now.store.cells) a }
    requires right { StepFits (length store.now.store.cells) b }
    ensures { IfOk result (λ same. same ≡ true → (σ : Solution) → Solves store.now.store σ
        → step_marks σ a ≡ step_marks σ b) }
{
    let Some(r) = item_of(a) else {
        return Ok(false);
    };
    let Some(q) = item_of(b) else {
        return Ok(false);
    };
    if r.0 == q.0 {
        return Ok(true);
    }
    if !is_mark_step(a) || !is_mark_step(b) {
        return Ok(false);
    }
    let same = unifier.are_same(store, r, q)?;
    Ok(same)
}

fn are_other_names(a: Head, b: Head) -> bool
    ensures { result ≡ are_other_names a b }
{
    match a {
        Head::New(p) => match b {
            Head::New(q) => p.0 != q.0,
            Head::Open(_) | Head::Fun(_) | Head::Eigen(_) | Head::Marks => false,
        },
        Head::Open(_) | Head::Fun(_) | Head::Eigen(_) | Head::Marks => false,
    }
}

// Whether marks of two positions stand there.
fn are_apart(store: &Store, r: Ref, q: Ref) -> bool
    requires left { r.0 < length store.now.store.cells }
    requires right { q.0 < length store.now.store.cells }
    ensures { result ≡ true → (σ : Solution) → Solves store.now.store σ
        → ¬ (as_label (σ r.0) ≡ as_label (σ q.0)) }
{
    let left = store.head(r);
    let right = store.head(q);
    are_other_names(left, right)
}

// The mark by which the node goes on from its parent.
pub(crate) fn mark_of(nodes: &[Node], y: usize) -> Option<Ref>
    ensures { IfSome result (λ r. IsMarkNode nodes.now y r) }
{
    if y < nodes.len() {
        let node = node_at(nodes, y);
        if let Step::Mark(r) = node.step {
            return Some(r);
        }
    }
    None
}

// Whether the node is by a mark of another position than this one.
fn is_other_mark(store: &Store, nodes: &[Node], r: Ref, z: usize) -> bool
    requires within { r.0 < length store.now.store.cells }
    requires fits { NodesFit (length store.now.store.cells) nodes.now }
    ensures { result ≡ true → IsOtherMark store.now.store nodes.now z r }
{
    match mark_of(nodes, z) {
        None => false,
        Some(q) => are_apart(store, r, q),
    }
}

// Whether the nodes are by marks of two positions.
pub(crate) fn have_other_marks(store: &Store, nodes: &[Node], y: usize, z: usize) -> bool
    requires { NodesFit (length store.now.store.cells) nodes.now }
    ensures { result ≡ true → (σ : Solution) (value : ℕ → List GroundMark)
        → Solves store.now.store σ → AreValues σ value nodes.now → ¬ (value y ≡ value z) }
{
    match mark_of(nodes, y) {
        None => false,
        Some(r) => is_other_mark(store, nodes, r, z),
    }
}

// Equal labels do not end in marks of two positions.
fn compare_marks(order: &mut LabelOrder, store: &Store, nodes: &[Node], y: usize, z: usize)
    requires { NodesFit (length store.now.store.cells) nodes.now }
    ensures { KeepsIn store.now.store nodes.now order.old order.new }
{
    if !order.are_equal(y, z) {
        return;
    }
    if have_other_marks(store, nodes, y, z) {
        order.refute();
    }
}

// Whether the nodes go on by the same step from equal labels.
fn have_same_label(
    order: &LabelOrder,
    unifier: &mut Unifier,
    store: &Store,
    nodes: &[Node],
    y: usize,
    z: usize,
) -> Result<bool, NoMemory>
    requires { NodesFit (length store.now.store.cells) nodes.now }
    ensures { IfOk result (λ same. same ≡ true → (σ : Solution) (value : ℕ → List GroundMark)
        → Solves store.now.store σ → AreValues σ value nodes.now → Holds value order.now
        → value y ≡ value z) }
{
    if y >= nodes.len() || z >= nodes.len() {
        return Ok(false);
    }
    let a = node_at(nodes, y);
    let b = node_at(nodes, z);
    if !order.are_equal(a.parent, b.parent) {
        return Ok(false);
    }
    let same = are_same_steps(unifier, store, a.step, b.step)?;
    Ok(same)
}

// Their labels are equal then.
fn join(
    order: &mut LabelOrder,
    unifier: &mut Unifier,
    store: &Store,
    nodes: &[Node],
    y: usize,
    z: usize,
) -> Result<(), NoMemory>
    requires { NodesFit (length store.now.store.cells) nodes.now }
    ensures { KeepsIn store.now.store nodes.now order.old order.new }
{
    if order.are_equal(y, z) {
        return Ok(());
    }
    if !have_same_label(order, unifier, store, nodes, y, z)? {
        return Ok(());
    }
    order.add(y, z, Relation::Weak);
    order.add(z, y, Relation::Weak);
    Ok(())
}

// Joins y with the children of v.
fn join_with(
    order: &mut LabelOrder,
    unifier: &mut Unifier,
    store: &Store,
    nodes: &[Node],
    y: usize,
    v: usize,
) -> Result<(), NoMemory>
    requires { NodesFit (length store.now.store.cells) nodes.now }
    ensures { KeepsIn store.now.store nodes.now order.old order.new }
{
    let mut from = 0;
    for _ in 0..nodes.len() {
        let Some(z) = order.next_child(v, from) else {
            return Ok(());
        };
        join(order, unifier, store, nodes, y, z)?;
        from = z.saturating_add(1);
    }
    Ok(())
}

// Joins the children of u with those of v, where the labels of u and v are equal.
fn join_children(
    order: &mut LabelOrder,
    unifier: &mut Unifier,
    store: &Store,
    nodes: &[Node],
    u: usize,
    v: usize,
) -> Result<(), NoMemory>
    requires { NodesFit (length store.now.store.cells) nodes.now }
    ensures { KeepsIn store.now.store nodes.now order.old order.new }
{
    let mut from = 0;
    for _ in 0..nodes.len() {
        let Some(y) = order.next_child(u, from) else {
            return Ok(());
        };
        join_with(order, unifier, store, nodes, y, v)?;
        from = y.saturating_add(1);
    }
    Ok(())
}

// Draws what follows where the labels of u and v are equal.
fn draw_equal(
    order: &mut LabelOrder,
    unifier: &mut Unifier,
    store: &Store,
    nodes: &[Node],
    u: usize,
    v: usize,
) -> Result<(), NoMemory>
    requires { NodesFit (length store.now.store.cells) nodes.now }
    ensures { KeepsIn store.now.store nodes.now order.old order.new }
{
    compare_marks(order, store, nodes, u, v);
    join_children(order, unifier, store, nodes, u, v)
}

// The same for all nodes behind u that have its label.
fn draw_all_equal(
    order: &mut LabelOrder,
    unifier: &mut Unifier,
    store: &Store,
    nodes: &[Node],
    u: usize,
) -> Result<(), NoMemory>
    requires { NodesFit (length store.now.store.cells) nodes.now }
    ensures { KeepsIn store.now.store nodes.now order.old order.new }
{
    let mut from = u.saturating_add(1);
    for _ in 0..nodes.len() {
        let Some(v) = order.next_equal(u, from) else {
            return Ok(());
        };
        draw_equal(order, unifier, store, nodes, u, v)?;
        from = v.saturating_add(1);
    }
    Ok(())
}

// Draws what follows for u.
fn draw(
    order: &mut LabelOrder,
    unifier: &mut Unifier,
    store: &Store,
    nodes: &[Node],
    u: usize,
) -> Result<(), NoMemory>
    requires { NodesFit (length store.now.store.cells) nodes.now }
    ensures { KeepsIn store.now.store nodes.now order.old order.new }
{
    follow(order, nodes, u);
    draw_all_equal(order, unifier, store, nodes, u)
}

// Draws what follows for all nodes.
fn draw_all(
    order: &mut LabelOrder,
    unifier: &mut Unifier,
    store: &Store,
    nodes: &[Node],
) -> Result<(), NoMemory>
    requires { NodesFit (length store.now.store.cells) nodes.now }
    ensures { KeepsIn store.now.store nodes.now order.old order.new }
{
    for u in 0..nodes.len() {
        if order.is_refuted {
            return Ok(());
        }
        draw(order, unifier, store, nodes, u)?;
    }
    Ok(())
}

// Draws all that follows. What is known of two nodes grows at most twice.
pub(crate) fn settle(
    order: &mut LabelOrder,
    unifier: &mut Unifier,
    store: &Store,
    nodes: &[Node],
) -> Result<(), NoMemory>
    requires { NodesFit (length store.now.store.cells) nodes.now }
    ensures { KeepsIn store.now.store nodes.now order.old order.new }
{
    let most = nodes.len().saturating_mul(nodes.len()).saturating_mul(2);
    for _ in 0..most {
        if order.is_refuted {
            return Ok(());
        }
        if !order.take_grown() {
            return Ok(());
        }
        draw_all(order, unifier, store, nodes)?;
    }
    Ok(())
}
