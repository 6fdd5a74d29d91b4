//! Lengths of strings by the order of the beginnings of labels.

ghost use Rattle.std.specs.Prelude.{◌≡◌, ◌+◌, ◌≤◌, IfOk, IfSome, IsTrue, map, true};
ghost use Rattle.std.specs.List.{list_all};
ghost use Rattle.calculus.specs.declared.sort.Sort.TheVariants.{StringSort};
ghost use Rattle.calculus.specs.Labels.{is_step_length};
ghost use Rattle.calculus.specs.Space.{is_tried_length};
ghost use Rattle.store_theory.specs.Stores.{has_sort_at};
ghost use Rattle.store_theory.specs.Systems.{AreTried, is_system};
ghost use Rattle.term_store.specs.RefView.{the_place};
ghost use Rattle.term_store.specs.SystemView.{the_system};

use crate::joining::{item_of, mark_of};
use crate::node::Node;
use crate::order::LabelOrder;
use crate::places::{length_at, reference_at};
use crate::refuting::LabelTree;
use crate::rules::node_at;
use calculus::setting::Logic;
use cop_base::NoMemory;
use std::alloc::Global;
use term_store::{Ref, Store, System};

// Whether the node is by a mark, and no earlier one by a mark has its label.
fn is_first_mark(order: &LabelOrder, nodes: &[Node], y: usize) -> bool {
    if mark_of(nodes, y).is_none() {
        return false;
    }
    for z in 0..y {
        if order.are_equal(y, z) && mark_of(nodes, z).is_some() {
            return false;
        }
    }
    true
}

fn first_marks(alloc: Global, order: &LabelOrder, nodes: &[Node]) -> Result<Vec<bool>, NoMemory> {
    let mut firsts = Vec::new(alloc);
    for y in 0..nodes.len() {
        firsts.push(is_first_mark(order, nodes, y))?;
    }
    Ok(firsts)
}

// How many labels by a mark begin the label: it has at least as many marks.
fn rank(order: &LabelOrder, firsts: &[bool], u: usize) -> u32 {
    let mut count: u32 = 0;
    for y in 0..firsts.len() {
        if firsts[y] && order.begins(y, u) {
            count = count.saturating_add(1);
        }
    }
    count
}

fn is_by(node: Node, end: Ref) -> bool {
    match item_of(node.step) {
        Some(r) => r == end,
        None => false,
    }
}

// How long the string is where labels are as short as what is known of them allows.
fn length_of(order: &LabelOrder, nodes: &[Node], firsts: &[bool], end: Ref, least: u32) -> u32 {
    for u in 0..nodes.len() {
        let node = node_at(nodes, u);
        if is_by(node, end) {
            let before = rank(order, firsts, node.parent);
            return rank(order, firsts, u).saturating_sub(before).max(least);
        }
    }
    least
}

// The lengths of the strings in order.
fn lengths_by(
    alloc: Global,
    order: &LabelOrder,
    nodes: &[Node],
    store: &Store,
    strings: &[Ref],
    least: u32,
) -> Result<Vec<u32>, NoMemory>
    requires { IsTrue (list_all (has_sort_at store.now.store StringSort)
        (map the_place strings.now)) }
{
    let firsts = first_marks(alloc, order, nodes)?;
    let mut lengths = Vec::new(alloc);
    for i in 0..strings.len() {
        let end = store.walk(reference_at(strings, i));
        let n = length_of(order, nodes, &firsts, end, least);
        lengths.push(n)?;
    }
    Ok(lengths)
}

// Whether n is not above the sum of both numbers.
fn is_within(n: u32, count: usize, pis: u32) -> bool
    ensures { result ≡ true → n ≤ count + pis }
{
    if n <= pis {
        return true;
    }
    if (n - pis) as usize <= count {
        return true;
    }
    false
}

fn is_tried(logic: Logic, count: usize, pis: u32, n: u32) -> bool
    ensures { result ≡ true → is_tried_length logic (count + pis) n ≡ true }
{
    if logic.is_step_length(n as usize) {
        return is_within(n, count, pis);
    }
    false
}

fn are_tried(logic: Logic, system: &System, lengths: &[u32]) -> bool
    ensures { result ≡ true → AreTried logic (the_system system.now) lengths.now }
{
    let count = system.strings.items().len();
    if lengths.len() != count {
        return false;
    }
    for i in 0..lengths.len() {
        if !is_tried(logic, count, system.pis, length_at(lengths, i)) {
            return false;
        }
    }
    true
}

// The lengths, if they are tried.
fn checked(logic: Logic, system: &System, lengths: Vec<u32>) -> Option<Vec<u32>>
    ensures { IfSome result (λ ns. AreTried logic (the_system system.now) ns.items) }
{
    if are_tried(logic, system, &lengths) {
        return Some(lengths);
    }
    None
}

// Lengths of the strings by which the equations may hold: labels are as short as the order of
// their beginnings allows. Nothing is promised but that they are tried.
pub(crate) fn propose(
    alloc: Global,
    store: &Store,
    logic: Logic,
    system: &System,
    tree: &LabelTree,
) -> Result<Option<Vec<u32>>, NoMemory>
    requires { IsTrue (is_system store.now.store (the_system system.now)) }
    ensures { IfOk result (λ o. IfSome o (λ lengths.
        AreTried logic (the_system system.now) lengths.items)) }
{
    let strings = system.strings.items();
    let least = logic.least_length();
    let lengths = lengths_by(alloc, &tree.order, &tree.nodes, store, strings, least)?;
    let proposed = checked(logic, system, lengths);
    Ok(proposed)
}
