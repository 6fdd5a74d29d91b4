//! Systems without a solution, by the order of the beginnings of labels.

ghost use Rattle.std.specs.Prelude.{◌≡◌, ◌<◌, ℕ, List, Some, IfOk, IsTrue, length, slice_get, true};
ghost use Rattle.std.specs.List.{AllByRecursion};
ghost use Rattle.calculus.specs.Ground.{GroundMark};
ghost use Rattle.store_theory.specs.Stores.{Solution, Solves};
ghost use Rattle.store_theory.specs.Bindings.{AddsBuilt, KeepsMarks};
ghost use Rattle.store_theory.specs.Systems.{AreEqual, Differ, IsStep, MeetsDemand};
ghost use Rattle.store_theory.specs.Systems.{NamesItsStrings, is_system};
ghost use Rattle.term_store.specs.Asking.{Asks};
ghost use Rattle.term_store.specs.Room.{KeepsRoom};
ghost use Rattle.term_store.specs.SystemView.{the_system};
ghost use Rattle.prefix_split.specs.Beginnings.{AllApart, AllBegin, AreValues, Holds};
ghost use Rattle.prefix_split.specs.Beginnings.{IsRelated, Keeps, NodesFit};
ghost use Rattle.prefix_split.specs.Growing.{HasRoot, step_relation};

use crate::apart::{nodes_apart, refute_equal, told_apart};
use crate::choosing::{Gaps, choose};
use crate::growing::{ask_equations, ask_homes, ask_needed};
use crate::joining::settle;
use crate::node::{Node, Step};
use crate::order::{LabelOrder, Relation, joined};
use crate::places::both_at;
use crate::rules::node_at;
use calculus::setting::Logic;
use cop_base::NoMemory;
use std::alloc::Global;
use term_store::{Demand, Store, System};
use term_unify::Unifier;

// How the label of a node is related to that of its parent.
fn step_relation(step: Step) -> Relation
    ensures { result ≡ step_relation step }
{
    match step {
        Step::Root => Relation::Weak,
        Step::Mark(_) => Relation::Strict,
        Step::Short(_) => Relation::Weak,
        Step::Long(_) => Relation::Weak,
    }
}

// What begins the parent of u begins u too. The parent is so related to u.
fn add_above(order: &mut LabelOrder, nodes: &[Node], parent: usize, u: usize, related: Relation)
    ensures { (σ : Solution) (value : ℕ → List GroundMark) → AreValues σ value nodes.now
        → IsRelated related (value parent) (value u) → Holds value order.old
        → Holds value order.new }
{
    let mut x = parent;
    let mut r = related;
    for _ in 0..nodes.len() {
        order.set(x, u, r);
        if x == 0 || x >= nodes.len() {
            return;
        }
        let above = node_at(nodes, x);
        let before = step_relation(above.step);
        r = joined(before, r);
        x = above.parent;
    }
}

// A label's parent begins it.
fn add_node(order: &mut LabelOrder, nodes: &[Node], u: usize)
    requires { u < length nodes.now }
    ensures { Keeps nodes.now order.old order.new }
{
    let node = node_at(nodes, u);
    let r = step_relation(node.step);
    add_above(order, nodes, node.parent, u, r);
    order.add_child(node.parent, u);
}

fn add_nodes(order: &mut LabelOrder, nodes: &[Node])
    ensures { Keeps nodes.now order.old order.new }
{
    for u in 1..nodes.len() {
        add_node(order, nodes, u);
    }
}

// The first label of each pair begins the second one.
fn add_pairs(order: &mut LabelOrder, pairs: &[(usize, usize)])
    ensures { (value : ℕ → List GroundMark) → AllBegin value pairs.now → Holds value order.old
        → Holds value order.new }
{
    for i in 0..pairs.len() {
        let pair = both_at(pairs, i);
        order.add(pair.0, pair.1, Relation::Weak);
    }
}

// The tree of the empty label.
fn root(alloc: Global) -> Result<Vec<Node>, NoMemory>
    ensures { IfOk result (λ nodes. HasRoot nodes.items) }
{
    let mut nodes = Vec::new(alloc);
    nodes.push(Node {
        parent: 0,
        step: Step::Root,
    })?;
    Ok(nodes)
}

// The order of nodes of which the first one of each pair begins the second one.
fn settled(
    alloc: Global,
    unifier: &mut Unifier,
    store: &Store,
    nodes: &[Node],
    pairs: &[(usize, usize)],
) -> Result<LabelOrder, NoMemory>
    requires { NodesFit (length store.now.store.cells) nodes.now }
    ensures { IfOk result (λ order. (σ : Solution) (value : ℕ → List GroundMark)
        → Solves store.now.store σ → AreValues σ value nodes.now → AllBegin value pairs.now
        → Holds value order) }
{
    let mut order = LabelOrder::new(alloc, nodes.len())?;
    add_nodes(&mut order, nodes);
    add_pairs(&mut order, pairs);
    settle(&mut order, unifier, store, nodes)?;
    Ok(order)
}

// The same, where labels that have to differ are told apart, and open gaps are closed one way or
// the other, with at most so many choices.
fn chosen(
    alloc: Global,
    unifier: &mut Unifier,
    store: &Store,
    nodes: &[Node],
    pairs: &[(usize, usize)],
    apart: &[(usize, usize)],
    choices: u32,
    first: Gaps,
) -> Result<LabelOrder, NoMemory>
    requires { NodesFit (length store.now.store.cells) nodes.now }
    ensures { IfOk result (λ order. order.is_refuted ≡ true → (σ : Solution)
        (value : ℕ → List GroundMark) → Solves store.now.store σ → AreValues σ value nodes.now
        → AllApart value apart.now → ¬ AllBegin value pairs.now) }
{
    let mut order = settled(alloc, unifier, store, nodes, pairs)?;
    refute_equal(&mut order, apart);
    if let Some(told) = told_apart(&order, unifier, store, nodes, apart, choices, first)? {
        return Ok(told);
    }
    let _left = choose(&mut order, unifier, store, nodes, choices, first)?;
    Ok(order)
}

// The tree of the beginnings of labels, and what is known of their order.
#[derive(Drop)]
pub(crate) struct LabelTree {
    pub(crate) nodes: Vec<Node>,
    pub(crate) order: LabelOrder,
}

// The tree of the labels of the equations, and of those that the demand forces to be beginnings of
// others. Its order is refuted only where no solution of the store, whose strings are steps of the
// logic, makes the equations equal and meets the demand, while the goals of each pair differ. It
// tells the pairs of these numbers apart, where it can. At most so many choices are made, and these
// gaps come first. Marks are added to the store.
pub(crate) fn demanded_tree<M: Demand>(
    alloc: Global,
    store: &mut Store,
    logic: Logic,
    system: &System,
    more: &M,
    numbers: &[usize],
    choices: u32,
    first: Gaps,
) -> Result<LabelTree, NoMemory>
    requires fits { IsTrue (is_system store.old.store (the_system system.now)) }
    requires named { NamesItsStrings store.old.store (the_system system.now) }
    ensures refuted { IfOk result (λ tree. tree.order.is_refuted ≡ true → (σ : Solution)
        → Solves store.new.store σ → AllByRecursion (IsStep logic σ) (the_system system.now).strings
        → MeetsDemand (Asks (M.holds_for more.now)) (the_system system.now) σ
        → AllByRecursion (Differ σ) (the_system system.now).pairs
        → ¬ AllByRecursion (AreEqual σ) (the_system system.now).equations) }
    ensures adds { AddsBuilt store.old.store store.new.store }
    ensures marks { KeepsMarks store.old.store store.new.store }
    ensures room { KeepsRoom store.old store.new }
{
    let mut unifier = Unifier::new(alloc);
    let mut nodes = root(alloc)?;
    let mut pairs = Vec::new(alloc);
    ask_equations(
        &mut unifier,
        store,
        logic,
        system,
        &mut nodes,
        &mut pairs,
        0,
    )?;
    let apart = nodes_apart(alloc, &mut unifier, store, system, &nodes, numbers)?;
    let homes = more.homes(alloc, store, system)?;
    ask_homes(
        &mut unifier,
        store,
        system,
        &mut nodes,
        &mut pairs,
        homes.items(),
    )?;
    let order = chosen(
        alloc,
        &mut unifier,
        store,
        &nodes,
        &pairs,
        &apart,
        choices,
        first,
    )?;
    Ok(LabelTree { nodes, order })
}

/// Whether the order of the beginnings of labels shows that no solution of the store, whose strings
/// are steps of the logic, makes the equations equal: then none of any length does. Otherwise
/// nothing is known. In T, S4 and intuitionistic logic this is most of what prefixes tell before
/// all of them are built. It asks only the equations from this number on, and makes at most so many
/// choices between open gaps.
pub fn is_refuted(
    alloc: Global,
    store: &Store,
    logic: Logic,
    system: &System,
    from: usize,
    choices: u32,
) -> Result<bool, NoMemory>
    requires fits { IsTrue (is_system store.now.store (the_system system.now)) }
    requires named { NamesItsStrings store.now.store (the_system system.now) }
    ensures { IfOk result (λ refuted. refuted ≡ true → (σ : Solution)
        → Solves store.now.store σ → AllByRecursion (IsStep logic σ) (the_system system.now).strings
        → ¬ AllByRecursion (AreEqual σ) (the_system system.now).equations) }
{
    let mut unifier = Unifier::new(alloc);
    let mut nodes = root(alloc)?;
    let mut pairs = Vec::new(alloc);
    ask_needed(
        alloc,
        &mut unifier,
        store,
        logic,
        system,
        &mut nodes,
        &mut pairs,
        from,
    )?;
    let mut order = settled(alloc, &mut unifier, store, &nodes, &pairs)?;
    let _left = choose(&mut order, &mut unifier, store, &nodes, choices, Gaps::All)?;
    Ok(order.is_refuted)
}
