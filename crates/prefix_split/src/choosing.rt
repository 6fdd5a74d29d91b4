//! Choices between beginnings of labels of which none is forced.

ghost use Rattle.std.specs.Prelude.{◌≤◌, ◌⊎◌, ℕ, List, IfOk, IfSome, length};
ghost use Rattle.calculus.specs.Ground.{GroundMark};
ghost use Rattle.store_theory.specs.Stores.{Solution, Solves};
ghost use Rattle.prefix_split.specs.Beginnings.{AreValues, Begins, Holds, NodesFit, Refutes};

use crate::joining::{have_other_marks, mark_of, settle};
use crate::node::Node;
use crate::order::{LabelOrder, Relation};
use crate::rules::short_parent;
use cop_base::NoMemory;
use term_store::Store;
use term_unify::Unifier;

// Two nodes that begin one label, of which the first is at most one mark longer than its parent:
// the second begins the parent, or the first begins the second.
#[derive(Clone, Copy)]
struct Gap {
    parent: usize,
    first: usize,
    second: usize,
}

// The gap of y and z below w.
fn gap_below(order: &LabelOrder, nodes: &[Node], y: usize, z: usize, w: usize) -> Option<Gap>
    ensures { IfSome result (λ g. (σ : Solution) (value : ℕ → List GroundMark)
        → AreValues σ value nodes.now → Holds value order.now
        → Begins (value g.second) (value g.parent) ⊎ Begins (value g.first) (value g.second)) }
{
    let Some(x) = short_parent(nodes, y) else {
        return None;
    };
    if !order.begins(y, w) {
        return None;
    }
    if !order.begins(z, w) {
        return None;
    }
    Some(Gap {
        parent: x,
        first: y,
        second: z,
    })
}

// Whether neither is known.
fn is_open(order: &LabelOrder, gap: Gap) -> bool {
    !order.begins(gap.second, gap.parent) && !order.begins(gap.first, gap.second)
}

// All open gaps, or those of two marks that may be one.
#[derive(Clone, Copy)]
pub(crate) enum Gaps {
    All,
    Alike,
}

fn is_among(gaps: Gaps, store: &Store, nodes: &[Node], y: usize, z: usize) -> bool
    requires { NodesFit (length store.now.store.cells) nodes.now }
{
    match gaps {
        Gaps::All => true,
        Gaps::Alike => !have_other_marks(store, nodes, y, z),
    }
}

// The open gap of y and z, where z is by a mark.
fn open_gap_with(
    order: &LabelOrder,
    store: &Store,
    nodes: &[Node],
    y: usize,
    z: usize,
    gaps: Gaps,
) -> Option<Gap>
    requires { NodesFit (length store.now.store.cells) nodes.now }
    ensures { IfSome result (λ g. (σ : Solution) (value : ℕ → List GroundMark)
        → AreValues σ value nodes.now → Holds value order.now
        → Begins (value g.second) (value g.parent) ⊎ Begins (value g.first) (value g.second)) }
{
    if mark_of(nodes, z).is_none() {
        return None;
    }
    let Some(w) = order.both_begin(y, z) else {
        return None;
    };
    let Some(gap) = gap_below(order, nodes, y, z, w) else {
        return None;
    };
    if is_open(order, gap) && is_among(gaps, store, nodes, y, z) {
        return Some(gap);
    }
    None
}

// An open gap of y, which is by a mark.
fn open_gap_of(
    order: &LabelOrder,
    store: &Store,
    nodes: &[Node],
    y: usize,
    gaps: Gaps,
) -> Option<Gap>
    requires { NodesFit (length store.now.store.cells) nodes.now }
    ensures { IfSome result (λ g. (σ : Solution) (value : ℕ → List GroundMark)
        → AreValues σ value nodes.now → Holds value order.now
        → Begins (value g.second) (value g.parent) ⊎ Begins (value g.first) (value g.second)) }
{
    if mark_of(nodes, y).is_none() {
        return None;
    }
    for z in 0..nodes.len() {
        if let Some(gap) = open_gap_with(order, store, nodes, y, z, gaps) {
            return Some(gap);
        }
    }
    None
}

// An open gap of two nodes that are by marks.
fn open_gap_among(order: &LabelOrder, store: &Store, nodes: &[Node], gaps: Gaps) -> Option<Gap>
    requires { NodesFit (length store.now.store.cells) nodes.now }
    ensures { IfSome result (λ g. (σ : Solution) (value : ℕ → List GroundMark)
        → AreValues σ value nodes.now → Holds value order.now
        → Begins (value g.second) (value g.parent) ⊎ Begins (value g.first) (value g.second)) }
{
    for y in 0..nodes.len() {
        if let Some(gap) = open_gap_of(order, store, nodes, y, gaps) {
            return Some(gap);
        }
    }
    None
}

// An open gap of two nodes that are by marks, of those that come first if there is one. Where there
// is none, each string can be as short as the greatest label by a mark below it.
fn open_gap(order: &LabelOrder, store: &Store, nodes: &[Node], first: Gaps) -> Option<Gap>
    requires { NodesFit (length store.now.store.cells) nodes.now }
    ensures { IfSome result (λ g. (σ : Solution) (value : ℕ → List GroundMark)
        → AreValues σ value nodes.now → Holds value order.now
        → Begins (value g.second) (value g.parent) ⊎ Begins (value g.first) (value g.second)) }
{
    if let Gaps::Alike = first {
        if let Some(gap) = open_gap_among(order, store, nodes, Gaps::Alike) {
            return Some(gap);
        }
    }
    open_gap_among(order, store, nodes, Gaps::All)
}

// Adds that the one label begins the other, and all that follows.
fn assume(
    order: &mut LabelOrder,
    unifier: &mut Unifier,
    store: &Store,
    nodes: &[Node],
    u: usize,
    v: usize,
) -> Result<(), NoMemory>
    requires { NodesFit (length store.now.store.cells) nodes.now }
    ensures { (σ : Solution) (value : ℕ → List GroundMark) → Solves store.now.store σ
        → AreValues σ value nodes.now → Begins (value u) (value v) → Holds value order.old
        → Holds value order.new }
{
    order.add(u, v, Relation::Weak);
    settle(order, unifier, store, nodes)
}

// Closes open gaps one way or the other, with at most so many choices, until none is open. Tried first
// is that the first node begins the second one: where that is chosen for both of two nodes by marks,
// they are the same, so labels stay as short as can be. Where gaps of marks that may be one come
// first, copies of a clause get the same labels before other marks come between theirs. The order is
// refuted only where no labels are as it told. Answers how many choices are left.
pub(crate) fn choose(
    order: &mut LabelOrder,
    unifier: &mut Unifier,
    store: &Store,
    nodes: &[Node],
    choices: u32,
    first: Gaps,
) -> Result<u32, NoMemory>
    requires { NodesFit (length store.now.store.cells) nodes.now }
    ensures refuted { IfOk result (λ left. Refutes store.now.store nodes.now order.old order.new) }
    ensures fewer { IfOk result (λ left. left ≤ choices) }
{
    if choices == 0 || order.is_refuted {
        return Ok(choices);
    }
    let Some(gap) = open_gap(order, store, nodes, first) else {
        return Ok(choices);
    };
    let mut tried = order.copy()?;
    assume(&mut tried, unifier, store, nodes, gap.first, gap.second)?;
    let left = choose(&mut tried, unifier, store, nodes, choices - 1, first)?;
    if !tried.is_refuted {
        *order = tried;
        return Ok(left);
    }
    assume(order, unifier, store, nodes, gap.second, gap.parent)?;
    choose(order, unifier, store, nodes, left, first)
}
