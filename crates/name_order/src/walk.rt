//! The positions that an instance reaches: its sides and values are followed through the formula.

ghost use Rattle.std.specs.Prelude.{◌≡◌, ℕ, ◌+◌, ◌<◌, ◌^◌, ◌++◌, ◌∷◌, [], map, take, drop, length, IfOk, OnOk};
ghost use Rattle.calculus.specs.Instances as tree;
ghost use Rattle.calculus.specs.Positions.{size};
ghost use Rattle.formula_core.specs.FormulaView.{the_formula};
ghost use Rattle.formula_core.specs.GroundLists.{the_value};
ghost use Rattle.name_order.specs.ByNumber.ReachedView.{the_all};
ghost use Rattle.name_order.specs.ByNumber.WalkView.{IsLeft};
ghost use Rattle.name_order.specs.WalkView.{the_turn_at};
ghost use Rattle.name_order.specs.Walks.{turns_by, walk, walk_alpha, walk_beta, is_right, values_at};
ghost use Rattle.tableau_core.specs.Numbered.InstanceView.{the_instance};

use crate::reached::{Reached, reached_by};
use cop_base::NoMemory;
use formula_core::{GroundTable, Value};
use logic_rules::{Kind, Logic, ModalPart, Shape, kind_of};
use std::alloc::Global;
use tableau_core::{ClauseInstance, Part, Parts, Side, SizedProblem, components_of};

/// How many values a position of this kind takes: a string, a term, or both.
pub fn values_at(kind: Kind) -> usize
    ensures { result ≡ values_at kind.modal kind.shape }
{
    let strings = match kind.modal {
        ModalPart::Nu => 1,
        ModalPart::Plain | ModalPart::Pi => 0,
    };
    match kind.shape {
        Shape::Gamma => strings + 1,
        Shape::Alpha | Shape::Beta | Shape::Delta | Shape::Literal => strings,
    }
}

/// Whether the right component comes next.
pub fn is_right(sides: &[Side]) -> bool
    ensures { result ≡ is_right sides.now }
{
    match sides.split_first() {
        Some((Side::Right, _)) => true,
        Some((Side::Left, _)) | None => false,
    }
}

/// The sides behind the next one.
pub fn next_sides(sides: &[Side]) -> &[Side]
    ensures { result.now ≡ drop 1 sides.now }
{
    &sides[sides.len().min(1)..]
}

// The sides and values that are still to be used.
#[derive(Clone, Copy)]
struct Supply<'a> {
    sides: &'a [Side],
    values: &'a [Value],
}

// The first values, or all where there are fewer.
fn first<'v>(table: &GroundTable, values: &'v [Value], count: usize) -> &'v [Value]
    ensures { map (the_value table.now) result.now ≡ take count (map (the_value table.now) values.now) }
{
    &values[..count.min(values.len())]
}

// The values behind the first ones.
fn rest<'v>(table: &GroundTable, values: &'v [Value], count: usize) -> &'v [Value]
    ensures { map (the_value table.now) result.now ≡ drop count (map (the_value table.now) values.now) }
{
    &values[count.min(values.len())..]
}

// The values, and then these.
fn extended(
    alloc: Global,
    table: &GroundTable,
    taken: &[Value],
    more: &[Value],
) -> Result<Vec<Value>, NoMemory>
    ensures { IfOk result (λ all. map (the_value table.now) all.items
        ≡ map (the_value table.now) taken.now ++ map (the_value table.now) more.now) }
{
    let mut all = Vec::new(alloc);
    for value in taken {
        all.push(*value)?;
    }
    for value in more {
        all.push(*value)?;
    }
    Ok(all)
}

// Adds the turn of a position.
fn reach(
    alloc: Global,
    table: &GroundTable,
    position: u32,
    taken: &[Value],
    turns: &mut Vec<Reached>,
) -> Result<(), NoMemory>
    ensures { IfOk result (λ _. the_all table.now turns.new.items
        ≡ the_all table.now turns.old.items ++ the_turn_at position (map (the_value table.now) taken.now) ∷ []) }
{
    let turn = reached_by(alloc, table, position, taken)?;
    turns.push(turn)?;
    Ok(())
}

// Adds the turns of the part of an instance at a position, with the values taken before it.
#[cycle(walk)]
#[tactic(auto, using(crate::proofs::WalkByShape::walk_by_components))]
fn walk<'a>(
    alloc: Global,
    table: &GroundTable,
    logic: Logic,
    whole: Part,
    position: u32,
    taken: &[Value],
    supply: Supply<'a>,
    turns: &mut Vec<Reached>,
) -> Result<Supply<'a>, NoMemory>
    requires small { position + size (the_formula whole.formula.now) < 2 ^ 32 }
    ensures { IfOk result (λ left. IsLeft table.now turns.old.items turns.new.items left
        (walk logic (the_formula whole.entry.formula.now) whole.entry.sign position (map (the_value table.now) taken.now)
        supply.entry.sides.now (map (the_value table.now) supply.entry.values.now))) }
{
    let kind = kind_of(logic, whole.sign, whole.formula);
    let count = values_at(kind);
    let all = extended(alloc, table, taken, first(table, supply.values, count))?;
    let taken = all.as_slice();
    reach(alloc, table, position, taken, turns)?;
    let left = Supply {
        sides: supply.sides,
        values: rest(table, supply.values, count),
    };
    match components_of(whole) {
        Parts::Literal(_, _) => Ok(left),
        Parts::One(a) => {
            let left = walk(alloc, table, logic, a, position + 1, taken, left, turns)?;
            Ok(left)
        }
        Parts::Gamma(a) => {
            let left = walk(alloc, table, logic, a, position + 1, taken, left, turns)?;
            Ok(left)
        }
        Parts::Delta(a) => {
            let left = walk(alloc, table, logic, a, position + 1, taken, left, turns)?;
            Ok(left)
        }
        Parts::Alpha(a, b) => {
            let left = walk_alpha(alloc, table, logic, a, b, position, taken, left, turns)?;
            Ok(left)
        }
        Parts::Beta(a, b) => {
            let left = walk_beta(alloc, table, logic, a, b, position, taken, left, turns)?;
            Ok(left)
        }
    }
}

#[cycle(walk)]
fn walk_alpha<'a>(
    alloc: Global,
    table: &GroundTable,
    logic: Logic,
    a: Part,
    b: Part,
    position: u32,
    taken: &[Value],
    supply: Supply<'a>,
    turns: &mut Vec<Reached>,
) -> Result<Supply<'a>, NoMemory>
    requires small { position + size (the_formula a.formula.now)
        + size (the_formula b.formula.now) + 1 < 2 ^ 32 }
    ensures { IfOk result (λ left. IsLeft table.now turns.old.items turns.new.items left
        (walk_alpha (size (the_formula a.entry.formula.now))
        (walk logic (the_formula a.entry.formula.now) a.entry.sign)
        (walk logic (the_formula b.entry.formula.now) b.entry.sign) position (map (the_value table.now) taken.now)
        supply.entry.sides.now (map (the_value table.now) supply.entry.values.now))) }
{
    let left = Supply {
        sides: next_sides(supply.sides),
        values: supply.values,
    };
    if is_right(supply.sides) {
        let second = position + 1 + a.size();
        let left = walk(alloc, table, logic, b, second, taken, left, turns)?;
        return Ok(left);
    }
    let left = walk(alloc, table, logic, a, position + 1, taken, left, turns)?;
    Ok(left)
}

#[cycle(walk)]
fn walk_beta<'a>(
    alloc: Global,
    table: &GroundTable,
    logic: Logic,
    a: Part,
    b: Part,
    position: u32,
    taken: &[Value],
    supply: Supply<'a>,
    turns: &mut Vec<Reached>,
) -> Result<Supply<'a>, NoMemory>
    requires small { position + size (the_formula a.formula.now)
        + size (the_formula b.formula.now) + 1 < 2 ^ 32 }
    ensures { IfOk result (λ left. IsLeft table.now turns.old.items turns.new.items left
        (walk_beta (size (the_formula a.entry.formula.now))
        (walk logic (the_formula a.entry.formula.now) a.entry.sign)
        (walk logic (the_formula b.entry.formula.now) b.entry.sign) position (map (the_value table.now) taken.now)
        supply.entry.sides.now (map (the_value table.now) supply.entry.values.now))) }
{
    let between = walk(alloc, table, logic, a, position + 1, taken, supply, turns)?;
    let second = position + 1 + a.size();
    let left = walk(alloc, table, logic, b, second, taken, between, turns)?;
    Ok(left)
}

/// Adds the turns of an instance.
pub fn walk_instance(
    alloc: Global,
    problem: &SizedProblem,
    table: &GroundTable,
    instance: &ClauseInstance,
    turns: &mut Vec<Reached>,
) -> Result<(), NoMemory>
    ensures { IfOk result (λ _. the_all table.now turns.new.items
        ≡ the_all table.now turns.old.items ++ turns_by problem.now (the_instance table.now instance.now)) }
{
    let supply = Supply {
        sides: instance.selection.items(),
        values: table.values(instance.values),
    };
    let logic = problem.setting().logic();
    walk(alloc, table, logic, problem.whole(), 0, &[], supply, turns)?;
    Ok(())
}
