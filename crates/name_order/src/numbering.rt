//! The order of names by which they are numbered: by the depth of what is inside them.

ghost use Rattle.std.specs.Prelude.{◌≡◌, ◌<◌, ◌^◌, [], length, map, IfOk, OnOk, IsPermutation};
ghost use Rattle.std.specs.List.{AllByRecursion};
ghost use Rattle.std.specs.List.Sorted.{IsNonDecreasingBy};
ghost use Rattle.conversion_theory.specs.Depths.{inner_depth};
ghost use Rattle.conversion_theory.specs.Numbering.{name_eq};
ghost use Rattle.name_order.specs.ByNumber.Depths.{AreDepths};
ghost use Rattle.name_order.specs.ByNumber.Inside.{AreNormalNames};
ghost use Rattle.name_order.specs.ByNumber.NameView.{the_name};
ghost use Rattle.name_order.specs.Keeping.{keep_all};
ghost use Rattle.name_order.specs.ByNumber.Order.{AreOrdered, HaveDepths, IsOnce, name_depth, the_names};

use crate::depth::{depths, mark_depth, term_depth};
use crate::names::{Name, keep_name, normal_name};
use cop_base::NoMemory;
use formula_core::GroundTable;
use indexmap::IndexSet;
use std::alloc::Global;

/// A name with the depth of what is inside it.
#[derive(Clone, Copy)]
pub struct DeepName {
    pub depth: u32,
    pub name: Name,
}

fn inner_depth(table: &GroundTable, depths: &[u32], name: Name) -> u32
    requires depths { AreDepths table.now depths.now }
    ensures { result ≡ inner_depth (the_name table.now name) }
{
    match normal_name(table, name) {
        Name::Term(term) => term_depth(table, depths, term),
        Name::Mark(mark) => mark_depth(table, depths, mark),
    }
}

// The names with their depths.
fn deep_names(alloc: Global, table: &GroundTable, names: &[Name]) -> Result<Vec<DeepName>, NoMemory>
    ensures names { IfOk result (λ all. the_names table.now all.items ≡ map (the_name table.now) names.now) }
    ensures depths { IfOk result (λ all. HaveDepths table.now all.items) }
{
    let depths = depths(alloc, table)?;
    let mut all = Vec::new(alloc);
    for name in names {
        let depth = inner_depth(table, &depths, *name);
        all.push(DeepName { depth, name: *name })?;
    }
    Ok(all)
}

fn sort_names(names: &mut Vec<DeepName>) -> Result<(), NoMemory>
    ensures permutation { IsPermutation names.old.items names.new.items }
    ensures sorted { OnOk result (IsNonDecreasingBy name_depth names.new.items) }
{
    names.sort_by_key(|n| n.depth)?;
    Ok(())
}

// The names without their depths, found by what they are.
fn names_of(
    alloc: Global,
    table: &GroundTable,
    sorted: &[DeepName],
) -> Result<IndexSet<Name>, NoMemory>
    ensures names { IfOk result (λ names. map (the_name table.now) names.keys ≡ keep_all name_eq [] (the_names table.now sorted.now)) }
    ensures normal { IfOk result (λ names. AreNormalNames table.now names.keys) }
{
    let mut names = IndexSet::new(alloc);
    for item in sorted {
        keep_name(table, item.name, &mut names)?;
    }
    Ok(names)
}

/// The names in the order of their numbers.
pub fn number_names(
    alloc: Global,
    table: &GroundTable,
    names: &[Name],
) -> Result<IndexSet<Name>, NoMemory>
    requires once { IsOnce (map (the_name table.now) names.now) }
    ensures names { IfOk result (λ all. AreOrdered (map (the_name table.now) names.now) (map (the_name table.now) all.keys)) }
    ensures normal { IfOk result (λ all. AreNormalNames table.now all.keys) }
    ensures few { IfOk result (λ all. length all.keys < 2 ^ 32) }
{
    let mut deep = deep_names(alloc, table, names)?;
    sort_names(&mut deep)?;
    let all = names_of(alloc, table, &deep)?;
    if all.len() > u32::MAX as usize {
        return Err(NoMemory);
    }
    Ok(all)
}
