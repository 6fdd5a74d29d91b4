//! The names in values. Each list of the table is looked at once: the highest comes first, and names
//! lower ones.

ghost use Rattle.std.specs.Prelude.{◌≡◌, ◌↔◌, ◌≤◌, ◌∷◌, [], ℕ, List, false, map, Contains, IfOk, OnOk};
ghost use Rattle.std.specs.List.{flat_map};
ghost use Rattle.calculus.specs.Ground.{marks_tree, values_tree};
ghost use Rattle.calculus.specs.Lists.{g_terms_tree};
ghost use Rattle.conversion_theory.specs.Numbering.{name_eq};
ghost use Rattle.conversion_theory.specs.Turns as turns;
ghost use Rattle.formula_core.specs.GroundLists.{GroundList, list_at, the_g_term, the_mark, the_marks, the_terms, the_value, the_values, IsLower, IsLowerTerm, IsLowerMark, IsLowerValue};
ghost use Rattle.name_order.specs.ByNumber.Inside.{has, names_in, the_names, AreNormalNames};
ghost use Rattle.name_order.specs.ByNumber.NameView.{the_name};
ghost use Rattle.name_order.specs.ByNumber.ReachedView.{the_all};
ghost use Rattle.name_order.specs.ByNumber.Seeing.{sees, Sees};
ghost use Rattle.name_order.specs.Mentioned as inside;
ghost use Rattle.tableau_core.specs.Numbered.Ahead.{bound};

use crate::holding::HoldingTable;
use crate::names::{Name, keep_name};
use crate::reached::Reached;
use cop_base::NoMemory;
use formula_core::{GroundLabel, GroundMark, GroundTable, GroundTerm, GroundTerms, Value, Values};
use indexmap::IndexSet;
use std::alloc::Global;
use std::collections::BTreeSet;

/// The names that were found, and the lists that are still to be looked at.
#[derive(Drop)]
pub struct Search {
    pub names: IndexSet<Name>,
    pub ahead: BTreeSet<u32>,
}

// Nothing is seen yet.
fn start(alloc: Global) -> Search
    ensures normal { (ls : List GroundList) → AreNormalNames ls result.names.keys }
    ensures none { (ls : List GroundList) (n : turns.Name) → sees ls result n ≡ false }
{
    Search {
        names: IndexSet::new(alloc),
        ahead: BTreeSet::new(alloc),
    }
}

fn keep(table: &HoldingTable<'_>, name: Name, search: &mut Search) -> Result<(), NoMemory>
    requires normal { AreNormalNames table.now search.now.names.keys }
    ensures sees { IfOk result (λ _. Sees table.now search.old search.new (the_name table.now name ∷ [])) }
    ensures ahead { IfOk result (λ _. search.new.ahead.keys ≡ search.old.ahead.keys) }
{
    keep_name(table.table(), name, &mut search.names)?;
    Ok(())
}

fn put_terms(
    table: &HoldingTable<'_>,
    list: GroundTerms,
    search: &mut Search,
) -> Result<(), NoMemory>
    requires normal { AreNormalNames table.now search.now.names.keys }
    ensures sees { IfOk result (λ _. Sees table.now search.old search.new (turns.names_of_terms (g_terms_tree (the_terms table.now list)))) }
    ensures bound { (m : ℕ) → IsLower (the_terms table.now list) list.0 m → bound search.old.ahead.keys ≤ m
        → OnOk result (bound search.new.ahead.keys ≤ m) }
{
    if table.terms(list).is_empty() {
        return Ok(());
    }
    search.ahead.insert(list.0)?;
    Ok(())
}

#[tactic(auto, using(crate::proofs::ByNumber::HoldingLaws::holding))]
fn see_terms(
    table: &HoldingTable<'_>,
    list: GroundTerms,
    search: &mut Search,
) -> Result<(), NoMemory>
    requires normal { AreNormalNames table.now search.now.names.keys }
    ensures sees { IfOk result (λ _. Sees table.now search.old search.new (turns.names_of_terms (g_terms_tree (the_terms table.now list)))) }
    ensures bound { (m : ℕ) → IsLower (the_terms table.now list) list.0 m → bound search.old.ahead.keys ≤ m
        → OnOk result (bound search.new.ahead.keys ≤ m) }
{
    if table.is_bare(list) {
        return Ok(());
    }
    put_terms(table, list, search)?;
    Ok(())
}

fn see_label(
    table: &HoldingTable<'_>,
    list: GroundLabel,
    search: &mut Search,
) -> Result<(), NoMemory>
    requires normal { AreNormalNames table.now search.now.names.keys }
    ensures sees { IfOk result (λ _. Sees table.now search.old search.new (turns.names_of_marks (marks_tree (the_marks table.now list)))) }
    ensures bound { (m : ℕ) → IsLower (the_marks table.now list) list.0 m → bound search.old.ahead.keys ≤ m
        → OnOk result (bound search.new.ahead.keys ≤ m) }
{
    if table.marks(list).is_empty() {
        return Ok(());
    }
    search.ahead.insert(list.0)?;
    Ok(())
}

fn see_values(table: &HoldingTable<'_>, list: Values, search: &mut Search) -> Result<(), NoMemory>
    requires normal { AreNormalNames table.now search.now.names.keys }
    ensures sees { IfOk result (λ _. Sees table.now search.old search.new (turns.names_of_values (values_tree (the_values table.now list)))) }
    ensures bound { (m : ℕ) → IsLower (the_values table.now list) list.0 m → bound search.old.ahead.keys ≤ m
        → OnOk result (bound search.new.ahead.keys ≤ m) }
{
    if table.values(list).is_empty() {
        return Ok(());
    }
    search.ahead.insert(list.0)?;
    Ok(())
}

#[tactic(auto, using(crate::proofs::ByNumber::InsideLaws::arms))]
fn see_term(table: &HoldingTable<'_>, term: GroundTerm, search: &mut Search) -> Result<(), NoMemory>
    requires normal { AreNormalNames table.now search.now.names.keys }
    ensures sees { IfOk result (λ _. Sees table.now search.old search.new (turns.names_of_term (the_g_term table.now term))) }
    ensures bound { (m : ℕ) → IsLowerTerm table.now m term → bound search.old.ahead.keys ≤ m
        → OnOk result (bound search.new.ahead.keys ≤ m) }
{
    match term {
        GroundTerm::Fun(_, args) => {
            see_terms(table, args, search)?;
            Ok(())
        }
        GroundTerm::Eigen(_, values) => {
            keep(table, Name::Term(term), search)?;
            see_values(table, values, search)?;
            Ok(())
        }
        GroundTerm::Common(_) => {
            keep(table, Name::Term(term), search)?;
            Ok(())
        }
        GroundTerm::Own(_, label) => {
            keep(table, Name::Term(term), search)?;
            see_label(table, label, search)?;
            Ok(())
        }
    }
}

#[tactic(auto, using(crate::proofs::ByNumber::InsideLaws::arms))]
fn see_mark(table: &HoldingTable<'_>, mark: GroundMark, search: &mut Search) -> Result<(), NoMemory>
    requires normal { AreNormalNames table.now search.now.names.keys }
    ensures sees { IfOk result (λ _. Sees table.now search.old search.new (turns.names_of_mark (the_mark table.now mark))) }
    ensures bound { (m : ℕ) → IsLowerMark table.now m mark → bound search.old.ahead.keys ≤ m
        → OnOk result (bound search.new.ahead.keys ≤ m) }
{
    match mark {
        GroundMark::New(_, values) => {
            keep(table, Name::Mark(mark), search)?;
            see_values(table, values, search)?;
            Ok(())
        }
        GroundMark::Spare(_) => {
            keep(table, Name::Mark(mark), search)?;
            Ok(())
        }
    }
}

#[tactic(auto, using(crate::proofs::ByNumber::InsideLaws::arms))]
fn see_value(table: &HoldingTable<'_>, value: Value, search: &mut Search) -> Result<(), NoMemory>
    requires normal { AreNormalNames table.now search.now.names.keys }
    ensures sees { IfOk result (λ _. Sees table.now search.old search.new (turns.names_of_value (the_value table.now value))) }
    ensures bound { (m : ℕ) → IsLowerValue table.now m value → bound search.old.ahead.keys ≤ m
        → OnOk result (bound search.new.ahead.keys ≤ m) }
{
    match value {
        Value::Term(term) => {
            see_term(table, term, search)?;
            Ok(())
        }
        Value::Steps(label) => {
            see_label(table, label, search)?;
            Ok(())
        }
    }
}

// Looks at the terms of a list, where lists before it are ahead.
fn look_at_terms(
    table: &HoldingTable<'_>,
    list: GroundTerms,
    search: &mut Search,
) -> Result<(), NoMemory>
    requires normal { AreNormalNames table.now search.now.names.keys }
    requires bound { bound search.now.ahead.keys ≤ list.0 }
    ensures sees { IfOk result (λ _. Sees table.now search.old search.new (turns.names_of_terms (g_terms_tree (the_terms table.now list)))) }
    ensures bound { IfOk result (λ _. bound search.new.ahead.keys ≤ list.0) }
{
    let terms = table.terms(list);
    for term in terms {
        see_term(table, *term, search)?;
    }
    Ok(())
}

fn look_at_marks(
    table: &HoldingTable<'_>,
    list: GroundLabel,
    search: &mut Search,
) -> Result<(), NoMemory>
    requires normal { AreNormalNames table.now search.now.names.keys }
    requires bound { bound search.now.ahead.keys ≤ list.0 }
    ensures sees { IfOk result (λ _. Sees table.now search.old search.new (turns.names_of_marks (marks_tree (the_marks table.now list)))) }
    ensures bound { IfOk result (λ _. bound search.new.ahead.keys ≤ list.0) }
{
    let marks = table.marks(list);
    for mark in marks {
        see_mark(table, *mark, search)?;
    }
    Ok(())
}

fn look_at_values(
    table: &HoldingTable<'_>,
    list: Values,
    search: &mut Search,
) -> Result<(), NoMemory>
    requires normal { AreNormalNames table.now search.now.names.keys }
    requires bound { bound search.now.ahead.keys ≤ list.0 }
    ensures sees { IfOk result (λ _. Sees table.now search.old search.new (turns.names_of_values (values_tree (the_values table.now list)))) }
    ensures bound { IfOk result (λ _. bound search.new.ahead.keys ≤ list.0) }
{
    let values = table.values(list);
    for value in values {
        see_value(table, *value, search)?;
    }
    Ok(())
}

// Looks at the list of a number, of whatever kind it is.
fn look_at(table: &HoldingTable<'_>, number: u32, search: &mut Search) -> Result<(), NoMemory>
    requires normal { AreNormalNames table.now search.now.names.keys }
    requires bound { bound search.now.ahead.keys ≤ number }
    ensures sees { IfOk result (λ _. Sees table.now search.old search.new (names_in (list_at table.now number))) }
    ensures bound { IfOk result (λ _. bound search.new.ahead.keys ≤ number) }
{
    look_at_terms(table, GroundTerms(number), search)?;
    look_at_marks(table, GroundLabel(number), search)?;
    look_at_values(table, Values(number), search)?;
    Ok(())
}

// Looks at values.
fn see_all(table: &HoldingTable<'_>, values: &[Value], search: &mut Search) -> Result<(), NoMemory>
    requires normal { AreNormalNames table.now search.now.names.keys }
    ensures { IfOk result (λ _. Sees table.now search.old search.new (inside.names_in (map (the_value table.now) values.now))) }
{
    for value in values {
        see_value(table, *value, search)?;
    }
    Ok(())
}

// The names once all lists that are ahead have been looked at.
fn names_by(table: &HoldingTable<'_>, mut search: Search) -> Result<IndexSet<Name>, NoMemory>
    requires normal { AreNormalNames table.now search.names.keys }
    ensures { IfOk result (λ names. (n : turns.Name) → has n (the_names table.now names.keys) ≡ sees table.now search n) }
{
    while let Some(number) = search.ahead.pop_last() {
        look_at(table, number, &mut search)?;
    }
    Ok(search.names)
}

/// The names in the values.
pub fn names_in_values(
    alloc: Global,
    table: &HoldingTable<'_>,
    values: &[Value],
) -> Result<IndexSet<Name>, NoMemory>
    ensures { IfOk result (λ names. (n : turns.Name) → Contains (the_names table.now names.keys) n
        ↔ Contains (inside.names_in (map (the_value table.now) values.now)) n) }
{
    let mut search = start(alloc);
    see_all(table, values, &mut search)?;
    let names = names_by(table, search)?;
    Ok(names)
}

fn names_by_turns(
    alloc: Global,
    table: &HoldingTable<'_>,
    reached: &[Reached],
) -> Result<IndexSet<Name>, NoMemory>
    ensures { IfOk result (λ names. (n : turns.Name) → Contains (the_names table.now names.keys) n
        ↔ Contains (flat_map inside.names_in_turn (the_all table.now reached.now)) n) }
{
    let mut search = start(alloc);
    for turn in reached {
        let values = turn.values.as_slice();
        see_all(table, values, &mut search)?;
    }
    let names = names_by(table, search)?;
    Ok(names)
}

/// The names in the values of the turns.
pub fn names_in_turns(
    alloc: Global,
    table: &GroundTable,
    reached: &[Reached],
) -> Result<IndexSet<Name>, NoMemory>
    ensures { IfOk result (λ names. (n : turns.Name) → Contains (the_names table.now names.keys) n
        ↔ Contains (flat_map inside.names_in_turn (the_all table.now reached.now)) n) }
{
    let table = HoldingTable::new(alloc, table)?;
    let names = names_by_turns(alloc, &table, reached)?;
    Ok(names)
}
