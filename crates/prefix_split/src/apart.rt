//! Pairs of goals of one atom, whose labels have to differ.

ghost use Rattle.std.specs.Prelude.{◌≡◌, [], ℕ, List, IfOk, IfSome, IsTrue, false, length};
ghost use Rattle.calculus.specs.Ground.{GroundMark};
ghost use Rattle.store_theory.specs.Systems.{is_pair, is_system};
ghost use Rattle.term_store.specs.SystemView.{the_pair, the_system};
ghost use Rattle.prefix_split.specs.Beginnings.{AllApart, Holds, NodesFit};
ghost use Rattle.prefix_split.specs.Growing.{ComeApart, IsPairApart};

use crate::choosing::{Gaps, choose};
use crate::growing::seek;
use crate::joining::settle;
use crate::node::Node;
use crate::order::{LabelOrder, Relation};
use crate::places::{both_at, pair_at};
use crate::rules::node_at;
use crate::same::have_same_atom;
use cop_base::NoMemory;
use std::alloc::Global;
use term_store::{CellAtom, Store, System};
use term_unify::Unifier;

// The nodes of the labels of both goals, where these are there and the atoms are the same.
fn nodes_of(
    unifier: &mut Unifier,
    store: &Store,
    system: &System,
    nodes: &[Node],
    pair: &(CellAtom, CellAtom),
) -> Result<Option<(usize, usize)>, NoMemory>
    requires nodes { NodesFit (length store.now.store.cells) nodes.now }
    requires pair { IsTrue (is_pair store.now.store (the_pair pair.now)) }
    ensures { IfOk result (λ o. IfSome o (λ p.
        IsPairApart store.now.store nodes.now (the_pair pair.now) p)) }
{
    if !have_same_atom(unifier, store, &pair.0, &pair.1)? {
        return Ok(None);
    }
    let Some(upper) = seek(unifier, store, system, nodes, pair.0.label.items())? else {
        return Ok(None);
    };
    let Some(lower) = seek(unifier, store, system, nodes, pair.1.label.items())? else {
        return Ok(None);
    };
    Ok(Some((upper, lower)))
}

// Adds those of the pair of this number.
fn add_nodes_of(
    unifier: &mut Unifier,
    store: &Store,
    system: &System,
    nodes: &[Node],
    number: usize,
    apart: &mut Vec<(usize, usize)>,
) -> Result<(), NoMemory>
    requires nodes { NodesFit (length store.now.store.cells) nodes.now }
    requires system { IsTrue (is_system store.now.store (the_system system.now)) }
    ensures { IfOk result (λ _. ComeApart store.now.store system.now.pairs nodes.now
        apart.old.items apart.new.items) }
{
    let pairs = system.pairs.items();
    if number >= pairs.len() {
        return Ok(());
    }
    let pair = pair_at(pairs, number);
    let Some(both) = nodes_of(unifier, store, system, nodes, pair)? else {
        return Ok(());
    };
    apart.push(both)?;
    Ok(())
}

// The nodes of the labels of the pairs of these numbers, if the labels have to differ.
pub(crate) fn nodes_apart(
    alloc: Global,
    unifier: &mut Unifier,
    store: &Store,
    system: &System,
    nodes: &[Node],
    numbers: &[usize],
) -> Result<Vec<(usize, usize)>, NoMemory>
    requires nodes { NodesFit (length store.now.store.cells) nodes.now }
    requires system { IsTrue (is_system store.now.store (the_system system.now)) }
    ensures { IfOk result (λ apart. ComeApart store.now.store system.now.pairs nodes.now []
        apart.items) }
{
    let mut apart = Vec::new(alloc);
    for i in 0..numbers.len() {
        add_nodes_of(unifier, store, system, nodes, numbers[i], &mut apart)?;
    }
    Ok(apart)
}

// Labels that have to differ are not equal.
fn compare_labels(order: &mut LabelOrder, both: (usize, usize))
    ensures { (value : ℕ → List GroundMark) → ¬ (value both.0 ≡ value both.1)
        → Holds value order.old → Holds value order.new }
{
    if order.are_equal(both.0, both.1) {
        order.refute();
    }
}

// The same of all pairs.
pub(crate) fn refute_equal(order: &mut LabelOrder, apart: &[(usize, usize)])
    ensures { (value : ℕ → List GroundMark) → AllApart value apart.now → Holds value order.old
        → Holds value order.new }
{
    for i in 0..apart.len() {
        let both = both_at(apart, i);
        compare_labels(order, both);
    }
}

// Makes the one label shorter, if the choices that are left can be made then.
fn shorten(
    order: &mut LabelOrder,
    unifier: &mut Unifier,
    store: &Store,
    nodes: &[Node],
    u: usize,
    v: usize,
    choices: u32,
) -> Result<bool, NoMemory>
    requires { NodesFit (length store.now.store.cells) nodes.now }
{
    let mut shorter = order.copy()?;
    shorter.add(u, v, Relation::Strict);
    settle(&mut shorter, unifier, store, nodes)?;
    let mut chosen = shorter.copy()?;
    let _left = choose(&mut chosen, unifier, store, nodes, choices, Gaps::All)?;
    if chosen.is_refuted {
        return Ok(false);
    }
    *order = shorter;
    Ok(true)
}

// Makes one of both labels shorter, if that can be.
fn separate(
    order: &mut LabelOrder,
    unifier: &mut Unifier,
    store: &Store,
    nodes: &[Node],
    u: usize,
    v: usize,
    choices: u32,
) -> Result<bool, NoMemory>
    requires { NodesFit (length store.now.store.cells) nodes.now }
{
    if order.is_shorter(u, v) || order.is_shorter(v, u) {
        return Ok(true);
    }
    if shorten(order, unifier, store, nodes, u, v, choices)? {
        return Ok(true);
    }
    shorten(order, unifier, store, nodes, v, u, choices)
}

fn parent(nodes: &[Node], u: usize) -> usize {
    if u < nodes.len() {
        return node_at(nodes, u).parent;
    }
    0
}

// Tells the labels of both nodes apart: one is shorter, or what is before its last item is.
fn tell_apart(
    order: &mut LabelOrder,
    unifier: &mut Unifier,
    store: &Store,
    nodes: &[Node],
    both: (usize, usize),
    choices: u32,
) -> Result<(), NoMemory>
    requires { NodesFit (length store.now.store.cells) nodes.now }
{
    if separate(order, unifier, store, nodes, both.0, both.1, choices)? {
        return Ok(());
    }
    let upper = parent(nodes, both.0);
    let lower = parent(nodes, both.1);
    let _told = separate(order, unifier, store, nodes, upper, lower, choices)?;
    Ok(())
}

// The order, where all these labels are told apart as far as that goes, and open gaps are closed.
// Nothing is promised of it but that it is not refuted.
pub(crate) fn told_apart(
    order: &LabelOrder,
    unifier: &mut Unifier,
    store: &Store,
    nodes: &[Node],
    apart: &[(usize, usize)],
    choices: u32,
    first: Gaps,
) -> Result<Option<LabelOrder>, NoMemory>
    requires { NodesFit (length store.now.store.cells) nodes.now }
    ensures { IfOk result (λ o. IfSome o (λ told. told.is_refuted ≡ false)) }
{
    if apart.is_empty() {
        return Ok(None);
    }
    let mut told = order.copy()?;
    for i in 0..apart.len() {
        tell_apart(&mut told, unifier, store, nodes, both_at(apart, i), choices)?;
    }
    let _left = choose(&mut told, unifier, store, nodes, choices, first)?;
    if told.is_refuted {
        return Ok(None);
    }
    Ok(Some(told))
}
