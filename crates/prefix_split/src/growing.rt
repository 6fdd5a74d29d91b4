//! The tree of the beginnings of labels.

ghost use Rattle.std.specs.Prelude.{◌≡◌, ◌++◌, ◌<◌, ◌≤◌, ℕ, List, IfOk, IfSome, IsTrue};
ghost use Rattle.std.specs.Prelude.{false, length, map, take, true};
ghost use Rattle.std.specs.List.{AllByRecursion, list_all};
ghost use Rattle.store_theory.specs.Bindings.{IsEnd};
ghost use Rattle.calculus.specs.Ground.{GroundMark};
ghost use Rattle.store_theory.specs.Stores.{Solution, Solves, names_below};
ghost use Rattle.store_theory.specs.Systems.{AreEqual, IsOpenString, NamesItsStrings, is_equation};
ghost use Rattle.store_theory.specs.Systems.{is_system};
ghost use Rattle.store_theory.specs.Templates.{as_label};
ghost use Rattle.calculus.specs.declared.setting.Logic.{Logic};
ghost use Rattle.search_theory.specs.States.{label_by};
ghost use Rattle.term_store.specs.HomeView.{the_home};
ghost use Rattle.term_store.specs.Homes.{BeginsLabel, is_home};
ghost use Rattle.term_store.specs.RefView.{the_place};
ghost use Rattle.term_store.specs.SystemView.{the_equation, the_system};
ghost use Rattle.prefix_split.specs.Beginnings.{AreValues, HasExtent, NodesFit, StepFits};
ghost use Rattle.prefix_split.specs.Beginnings.{step_marks};
ghost use Rattle.prefix_split.specs.Growing.{AreNamed, AreSteps, IsAsked, IsGrown, IsNamed};
ghost use Rattle.prefix_split.specs.Growing.{IsNamedEquation, IsNodeOf, IsReached, IsTree};
ghost use Rattle.prefix_split.specs.Growing.{has_short_steps};

use crate::ends::{is_mark, is_open_string};
use crate::joining::are_same_steps;
use crate::node::{Node, Step};
use crate::places::{equation_at, home_at, reference_at};
use crate::rules::node_at;
use crate::uses::Uses;
use calculus::setting::Logic;
use cop_base::NoMemory;
use std::alloc::Global;
use term_store::{Equation, Home, Ref, Store, System};
use term_unify::Unifier;

fn has_short_steps(logic: Logic) -> bool
    ensures { result ≡ has_short_steps logic }
{
    logic.greatest_length().is_some()
}

// Whether an unbound string of at most one mark stands there.
fn is_short_string(store: &Store, logic: Logic, end: Ref) -> bool
    requires { IsEnd store.now.store end.0 }
    ensures short { result ≡ true → has_short_steps logic ≡ true }
    ensures open { result ≡ true → IsOpenString store.now.store end.0 }
{
    if has_short_steps(logic) {
        return is_open_string(store, end);
    }
    false
}

// The step by this item of a label.
fn step_of(store: &Store, logic: Logic, system: &System, item: Ref) -> Step
    requires within { item.0 < length store.now.store.cells }
    requires named { has_short_steps logic ≡ true
        → IsNamed store.now.store system.now.strings item.0 }
    ensures marks { (σ : Solution) → Solves store.now.store σ
        → step_marks σ result ≡ as_label (σ item.0) }
    ensures extent { (σ : Solution) → Solves store.now.store σ
        → AreSteps logic system.now.strings σ → HasExtent σ result }
    ensures fits { StepFits (length store.now.store.cells) result }
{
    let _system = system;
    let end = store.walk(item);
    if is_mark(store, end) {
        return Step::Mark(end);
    }
    if is_short_string(store, logic, end) {
        return Step::Short(end);
    }
    Step::Long(end)
}

// Whether the node goes on from this parent by this step.
fn is_node(
    unifier: &mut Unifier,
    store: &Store,
    node: Node,
    parent: usize,
    step: Step,
) -> Result<bool, NoMemory>
    requires left { StepFits (length store.now.store.cells) node.step }
    requires right { StepFits (length store.now.store.cells) step }
    ensures { IfOk result (λ same. same ≡ true → (node.parent ≡ parent)
        × ((σ : Solution) → Solves store.now.store σ
        → step_marks σ node.step ≡ step_marks σ step)) }
{
    if node.parent != parent {
        return Ok(false);
    }
    let same = are_same_steps(unifier, store, node.step, step)?;
    Ok(same)
}

// The node that goes on from `parent` by the step, if it is there.
fn find(
    unifier: &mut Unifier,
    store: &Store,
    nodes: &[Node],
    parent: usize,
    step: Step,
) -> Result<Option<usize>, NoMemory>
    requires nodes { NodesFit (length store.now.store.cells) nodes.now }
    requires step { StepFits (length store.now.store.cells) step }
    ensures { IfOk result (λ o. IfSome o (λ u. (u < length nodes.now)
        × ((σ : Solution) (value : ℕ → List GroundMark) → Solves store.now.store σ
        → AreValues σ value nodes.now → value u ≡ value parent ++ step_marks σ step))) }
{
    for u in parent..nodes.len() {
        let node = node_at(nodes, u);
        if is_node(unifier, store, node, parent, step)? {
            return Ok(Some(u));
        }
    }
    Ok(None)
}

// The node that goes on from `parent` by the step. It is added where it is not there yet.
fn grow(
    unifier: &mut Unifier,
    store: &Store,
    nodes: &mut Vec<Node>,
    parent: usize,
    step: Step,
) -> Result<usize, NoMemory>
    requires tree { IsTree (length store.now.store.cells) nodes.old.items }
    requires parent { parent < length nodes.old.items }
    requires step { StepFits (length store.now.store.cells) step }
    ensures { IfOk result (λ u. IsGrown store.now.store nodes.old.items nodes.new.items parent
        step u) }
{
    let found = find(unifier, store, nodes, parent, step)?;
    if let Some(u) = found {
        return Ok(u);
    }
    let u = nodes.len();
    nodes.push(Node { parent, step })?;
    Ok(u)
}

// The node of the first items of the label, of which there are so many.
fn reach_first(
    unifier: &mut Unifier,
    store: &Store,
    logic: Logic,
    system: &System,
    nodes: &mut Vec<Node>,
    label: &[Ref],
    shown: usize,
) -> Result<usize, NoMemory>
    requires tree { IsTree (length store.now.store.cells) nodes.old.items }
    requires below { IsTrue (names_below (length store.now.store.cells) (map the_place label.now)) }
    requires named { has_short_steps logic ≡ true
        → AreNamed store.now.store system.now.strings (map the_place label.now) }
    requires shown { shown ≤ length label.now }
    ensures { IfOk result (λ u. IsReached store.now.store logic system.now.strings nodes.old.items
        nodes.new.items (take shown (map the_place label.now)) u) }
{
    let mut node = 0;
    for i in 0..shown {
        let step = step_of(store, logic, system, reference_at(label, i));
        let next = grow(unifier, store, nodes, node, step)?;
        node = next;
    }
    Ok(node)
}

// The node of the label.
fn reach(
    unifier: &mut Unifier,
    store: &Store,
    logic: Logic,
    system: &System,
    nodes: &mut Vec<Node>,
    label: &[Ref],
) -> Result<usize, NoMemory>
    requires tree { IsTree (length store.now.store.cells) nodes.old.items }
    requires below { IsTrue (names_below (length store.now.store.cells) (map the_place label.now)) }
    requires named { has_short_steps logic ≡ true
        → AreNamed store.now.store system.now.strings (map the_place label.now) }
    ensures { IfOk result (λ u. IsReached store.now.store logic system.now.strings nodes.old.items
        nodes.new.items (map the_place label.now) u) }
{
    let node = reach_first(unifier, store, logic, system, nodes, label, label.len())?;
    Ok(node)
}

// The node of the label, if it is there.
pub(crate) fn seek(
    unifier: &mut Unifier,
    store: &Store,
    system: &System,
    nodes: &[Node],
    label: &[Ref],
) -> Result<Option<usize>, NoMemory>
    requires fits { NodesFit (length store.now.store.cells) nodes.now }
    requires below { IsTrue (names_below (length store.now.store.cells) (map the_place label.now)) }
    ensures { IfOk result (λ o. IfSome o (λ u.
        IsNodeOf store.now.store nodes.now (map the_place label.now) u)) }
{
    let mut node = 0;
    for i in 0..label.len() {
        let step = step_of(store, Logic::S4, system, reference_at(label, i));
        let Some(next) = find(unifier, store, nodes, node, step)? else {
            return Ok(None);
        };
        node = next;
    }
    Ok(Some(node))
}

// Adds the labels of the equation, and that they begin each other.
fn ask_equation(
    unifier: &mut Unifier,
    store: &Store,
    logic: Logic,
    system: &System,
    nodes: &mut Vec<Node>,
    pairs: &mut Vec<(usize, usize)>,
    e: &Equation,
) -> Result<(), NoMemory>
    requires tree { IsTree (length store.now.store.cells) nodes.old.items }
    requires fits { IsTrue (is_equation store.now.store (the_equation e.now)) }
    requires named { IsNamedEquation store.now.store system.now.strings (the_equation e.now) }
    ensures { IfOk result (λ _. IsAsked store.now.store logic system.now.strings
        (λ σ. AreEqual σ (the_equation e.now)) nodes.old.items nodes.new.items pairs.old.items
        pairs.new.items) }
{
    let left = reach(unifier, store, logic, system, nodes, e.left.items())?;
    let right = reach(unifier, store, logic, system, nodes, e.right.items())?;
    pairs.push((left, right))?;
    pairs.push((right, left))?;
    Ok(())
}

// The same for all equations from this number on.
pub(crate) fn ask_equations(
    unifier: &mut Unifier,
    store: &Store,
    logic: Logic,
    system: &System,
    nodes: &mut Vec<Node>,
    pairs: &mut Vec<(usize, usize)>,
    from: usize,
) -> Result<(), NoMemory>
    requires tree { IsTree (length store.now.store.cells) nodes.old.items }
    requires fits { IsTrue (is_system store.now.store (the_system system.now)) }
    requires named { NamesItsStrings store.now.store (the_system system.now) }
    ensures { IfOk result (λ _. IsAsked store.now.store logic system.now.strings
        (λ σ. AllByRecursion (AreEqual σ) system.now.equations) nodes.old.items nodes.new.items
        pairs.old.items pairs.new.items) }
{
    let equations = system.equations.items();
    for i in from..equations.len() {
        let e = equation_at(equations, i);
        ask_equation(unifier, store, logic, system, nodes, pairs, e)?;
    }
    Ok(())
}

// Adds the first items of the one label and the other one, and that those begin it.
fn ask_begin(
    unifier: &mut Unifier,
    store: &Store,
    logic: Logic,
    system: &System,
    nodes: &mut Vec<Node>,
    pairs: &mut Vec<(usize, usize)>,
    begin: &[Ref],
    shown: usize,
    whole: &[Ref],
) -> Result<(), NoMemory>
    requires tree { IsTree (length store.now.store.cells) nodes.old.items }
    requires left { IsTrue (names_below (length store.now.store.cells) (map the_place begin.now)) }
    requires right { IsTrue (names_below (length store.now.store.cells) (map the_place whole.now)) }
    requires long { has_short_steps logic ≡ false }
    requires shown { shown ≤ length begin.now }
    ensures { IfOk result (λ _. IsAsked store.now.store logic system.now.strings
        (λ σ. label_by σ (map the_place begin.now) ≡ label_by σ (map the_place whole.now))
        nodes.old.items nodes.new.items pairs.old.items pairs.new.items) }
{
    let left = reach_first(unifier, store, logic, system, nodes, begin, shown)?;
    let right = reach(unifier, store, logic, system, nodes, whole)?;
    pairs.push((left, right))?;
    Ok(())
}

// Adds what the equation asks where strings that stand in no other label are left out: then the
// rest of the one label begins the other one.
fn ask_shortly(
    unifier: &mut Unifier,
    store: &Store,
    logic: Logic,
    system: &System,
    nodes: &mut Vec<Node>,
    pairs: &mut Vec<(usize, usize)>,
    uses: &Uses,
    e: &Equation,
) -> Result<(), NoMemory>
    requires tree { IsTree (length store.now.store.cells) nodes.old.items }
    requires fits { IsTrue (is_equation store.now.store (the_equation e.now)) }
    requires named { IsNamedEquation store.now.store system.now.strings (the_equation e.now) }
    requires long { has_short_steps logic ≡ false }
    ensures { IfOk result (λ _. IsAsked store.now.store logic system.now.strings
        (λ σ. AreEqual σ (the_equation e.now)) nodes.old.items nodes.new.items pairs.old.items
        pairs.new.items) }
{
    let left = e.left.items();
    let right = e.right.items();
    let kept = uses.shown(store, left);
    if kept < left.len() {
        ask_begin(
            unifier, store, logic, system, nodes, pairs, left, kept, right,
        )?;
        return Ok(());
    }
    let kept_right = uses.shown(store, right);
    if kept_right < right.len() {
        ask_begin(
            unifier, store, logic, system, nodes, pairs, right, kept_right, left,
        )?;
        return Ok(());
    }
    ask_equation(unifier, store, logic, system, nodes, pairs, e)?;
    Ok(())
}

// The same for all equations from this number on.
fn ask_all_shortly(
    unifier: &mut Unifier,
    store: &Store,
    logic: Logic,
    system: &System,
    nodes: &mut Vec<Node>,
    pairs: &mut Vec<(usize, usize)>,
    uses: &Uses,
    from: usize,
) -> Result<(), NoMemory>
    requires tree { IsTree (length store.now.store.cells) nodes.old.items }
    requires fits { IsTrue (is_system store.now.store (the_system system.now)) }
    requires named { NamesItsStrings store.now.store (the_system system.now) }
    requires long { has_short_steps logic ≡ false }
    ensures { IfOk result (λ _. IsAsked store.now.store logic system.now.strings
        (λ σ. AllByRecursion (AreEqual σ) system.now.equations) nodes.old.items nodes.new.items
        pairs.old.items pairs.new.items) }
{
    let equations = system.equations.items();
    for i in from..equations.len() {
        let e = equation_at(equations, i);
        ask_shortly(unifier, store, logic, system, nodes, pairs, uses, e)?;
    }
    Ok(())
}

// Adds what all equations from this number on ask. Strings of any length that stand in one of their
// labels alone, at its end, ask nothing.
pub(crate) fn ask_needed(
    alloc: Global,
    unifier: &mut Unifier,
    store: &Store,
    logic: Logic,
    system: &System,
    nodes: &mut Vec<Node>,
    pairs: &mut Vec<(usize, usize)>,
    from: usize,
) -> Result<(), NoMemory>
    requires tree { IsTree (length store.now.store.cells) nodes.old.items }
    requires fits { IsTrue (is_system store.now.store (the_system system.now)) }
    requires named { NamesItsStrings store.now.store (the_system system.now) }
    ensures { IfOk result (λ _. IsAsked store.now.store logic system.now.strings
        (λ σ. AllByRecursion (AreEqual σ) system.now.equations) nodes.old.items nodes.new.items
        pairs.old.items pairs.new.items) }
{
    if has_short_steps(logic) {
        ask_equations(unifier, store, logic, system, nodes, pairs, from)?;
        return Ok(());
    }
    let uses = Uses::of(alloc, system.equations.items(), from)?;
    ask_all_shortly(unifier, store, logic, system, nodes, pairs, &uses, from)?;
    Ok(())
}

// Adds both labels of a home, and that the home begins the other one. It may have strings that are
// not the system's, so they may be of any length here.
fn ask_home(
    unifier: &mut Unifier,
    store: &Store,
    system: &System,
    nodes: &mut Vec<Node>,
    pairs: &mut Vec<(usize, usize)>,
    home: &Home,
) -> Result<(), NoMemory>
    requires tree { IsTree (length store.now.store.cells) nodes.old.items }
    requires fits { IsTrue (is_home store.now.store (the_home home.now)) }
    ensures { IfOk result (λ _. IsAsked store.now.store Logic.S4 system.now.strings
        (λ σ. BeginsLabel σ (the_home home.now)) nodes.old.items nodes.new.items
        pairs.old.items pairs.new.items) }
{
    let left = reach(unifier, store, Logic::S4, system, nodes, home.home.items())?;
    let right = reach(unifier, store, Logic::S4, system, nodes, home.label.items())?;
    pairs.push((left, right))?;
    Ok(())
}

// The same for all homes.
pub(crate) fn ask_homes(
    unifier: &mut Unifier,
    store: &Store,
    system: &System,
    nodes: &mut Vec<Node>,
    pairs: &mut Vec<(usize, usize)>,
    homes: &[Home],
) -> Result<(), NoMemory>
    requires tree { IsTree (length store.now.store.cells) nodes.old.items }
    requires fits { IsTrue (list_all (is_home store.now.store) (map the_home homes.now)) }
    ensures { IfOk result (λ _. IsAsked store.now.store Logic.S4 system.now.strings
        (λ σ. AllByRecursion (BeginsLabel σ) (map the_home homes.now))
        nodes.old.items nodes.new.items pairs.old.items pairs.new.items) }
{
    for i in 0..homes.len() {
        let home = home_at(homes, i);
        ask_home(unifier, store, system, nodes, pairs, home)?;
    }
    Ok(())
}
