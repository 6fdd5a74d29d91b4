//! What turns wait for: the places of the turns that introduce what they mention by their own values.

ghost use Rattle.std.specs.Prelude.{◌≡◌, ◌==◌, ◌++◌, ◌∷◌, ◌≤◌, ℕ, [], map, length, Some, IfOk, OnOk, OnErr};
ghost use Rattle.std.specs.List.{AllZip};
ghost use Rattle.calculus.specs.Ground.{g_eigen, g_new_mark, values_tree};
ghost use Rattle.conversion_theory.specs.Turns.{mark_name, term_name};
ghost use Rattle.formula_core.specs.GroundLists.{the_value, the_values};
ghost use Rattle.name_order.specs.ByNumber.Inside.{all_with_marks, home_marks, with_marks};
ghost use Rattle.name_order.specs.ByNumber.NameView.{the_name};
ghost use Rattle.name_order.specs.ByNumber.ReachedView.{the_all, the_keys, the_reached, AreNormalReached};
ghost use Rattle.name_order.specs.ByNumber.Waiting.{WaitFor};
ghost use Rattle.name_order.specs.Found.{before_in, find_in, introducer_in, introducers_in, listed};
ghost use Rattle.name_order.specs.Keeping.{keep_all};
ghost use Rattle.name_order.specs.PlaceView.{the_places};
ghost use Rattle.tableau_core.specs.Numbered.SpotView.{the_mark_at};

use crate::holding::HoldingTable;
use crate::inside::names_in_values;
use crate::keys::find;
use crate::names::Name;
use crate::numbers::Numbers;
use crate::place::{Place, is_delta, is_pi, place_at};
use crate::reached::Reached;
use crate::walk::values_at;
use cop_base::{NoMemory, PosId};
use formula_core::{GroundMark, GroundTable, GroundTerm, Value, Values};
use indexmap::IndexSet;
use std::alloc::Global;
use tableau_core::{MarkAt, SizedProblem, eigen_home};

/// How many values are taken before the turn's own.
pub fn taken_before(table: &GroundTable, places: &[Place], turn: &Reached) -> usize
    ensures count { result ≡ before_in (the_places places.now) (the_reached table.now turn.now) }
    ensures few { result ≤ length turn.now.values.items }
{
    let count = turn.values.len();
    match place_at(places, turn.position) {
        Some(place) => count.saturating_sub(values_at(place.kind)),
        None => 0,
    }
}

// The place of the turn that introduces the eigenvariable.
fn eigen_introducer(
    alloc: Global,
    table: &GroundTable,
    places: &[Place],
    agenda: &IndexSet<Reached>,
    position: PosId,
    values: Values,
) -> Result<Option<usize>, NoMemory>
    requires normal { AreNormalReached table.now agenda.now.keys }
    ensures { IfOk result (λ r. r ≡ introducer_in (the_places places.now) (the_keys table.now agenda.now.keys)
        (term_name (g_eigen position.0 (values_tree (the_values table.now values))))) }
{
    if is_delta(places, position.0) {
        let list = table.values(values);
        let place = find(alloc, table, agenda, position.0, list)?;
        return Ok(place);
    }
    Ok(None)
}

// The place of the turn that introduces the character of these values.
fn made_introducer(
    alloc: Global,
    table: &GroundTable,
    places: &[Place],
    agenda: &IndexSet<Reached>,
    position: PosId,
    values: &[Value],
) -> Result<Option<usize>, NoMemory>
    requires normal { AreNormalReached table.now agenda.now.keys }
    ensures { IfOk result (λ r. r ≡ introducer_in (the_places places.now) (the_keys table.now agenda.now.keys)
        (mark_name (g_new_mark position.0 (values_tree (map (the_value table.now) values.now))))) }
{
    if is_pi(places, position.0) {
        let place = find(alloc, table, agenda, position.0, values)?;
        return Ok(place);
    }
    Ok(None)
}

// The place of the turn that introduces the character.
fn mark_introducer(
    alloc: Global,
    table: &GroundTable,
    places: &[Place],
    agenda: &IndexSet<Reached>,
    mark: MarkAt,
) -> Result<Option<usize>, NoMemory>
    requires normal { AreNormalReached table.now agenda.now.keys }
    ensures { IfOk result (λ r. r ≡ introducer_in (the_places places.now) (the_keys table.now agenda.now.keys)
        (mark_name (the_mark_at table.now mark.entry))) }
{
    match mark {
        MarkAt::Made(position, values) => {
            let place = made_introducer(alloc, table, places, agenda, position, values)?;
            Ok(place)
        }
        MarkAt::Given(GroundMark::New(position, values)) => {
            let values = table.values(values);
            let place = made_introducer(alloc, table, places, agenda, position, values)?;
            Ok(place)
        }
        MarkAt::Given(GroundMark::Spare(_)) => Ok(None),
    }
}

// Adds the place, if there is one.
fn wait_for(place: Option<usize>, waits: &mut IndexSet<usize>) -> Result<(), NoMemory>
    ensures { OnOk result (waits.new.keys ≡ keep_all ◌==◌ waits.old.keys (listed place)) }
{
    if let Some(place) = place {
        waits.insert(place)?;
    }
    Ok(())
}

// Adds the turns that introduce the characters of the eigenvariable's home.
fn wait_for_home(
    alloc: Global,
    problem: &SizedProblem,
    table: &GroundTable,
    places: &[Place],
    agenda: &IndexSet<Reached>,
    position: PosId,
    values: Values,
    waits: &mut IndexSet<usize>,
) -> Result<(), NoMemory>
    requires normal { AreNormalReached table.now agenda.now.keys }
    ensures { OnOk result (waits.new.keys ≡ keep_all ◌==◌ waits.old.keys (introducers_in (the_places places.now)
        (the_keys table.now agenda.now.keys) (home_marks problem.now (term_name (g_eigen position.0 (values_tree (the_values table.now values))))))) }
{
    let list = table.values(values);
    let home = eigen_home(alloc, problem, table, position, list)?;
    let marks = home.as_slice();
    for mark in marks {
        let place = mark_introducer(alloc, table, places, agenda, *mark)?;
        wait_for(place, waits)?;
    }
    Ok(())
}

// Adds the turns that introduce the name and the characters of its home.
fn wait_for_name(
    alloc: Global,
    problem: &SizedProblem,
    table: &GroundTable,
    places: &[Place],
    agenda: &IndexSet<Reached>,
    name: Name,
    waits: &mut IndexSet<usize>,
) -> Result<(), NoMemory>
    requires normal { AreNormalReached table.now agenda.now.keys }
    ensures { OnOk result (waits.new.keys ≡ keep_all ◌==◌ waits.old.keys (introducers_in (the_places places.now)
        (the_keys table.now agenda.now.keys) (with_marks problem.now (the_name table.now name)))) }
{
    match name {
        Name::Term(GroundTerm::Eigen(position, values)) => {
            let place = eigen_introducer(alloc, table, places, agenda, position, values)?;
            wait_for(place, waits)?;
            wait_for_home(
                alloc, problem, table, places, agenda, position, values, waits,
            )?;
            Ok(())
        }
        Name::Mark(mark) => {
            let place = mark_introducer(alloc, table, places, agenda, MarkAt::Given(mark))?;
            wait_for(place, waits)?;
            Ok(())
        }
        Name::Term(GroundTerm::Fun(_, _)) => Ok(()),
        Name::Term(GroundTerm::Common(_)) => Ok(()),
        Name::Term(GroundTerm::Own(_, _)) => Ok(()),
    }
}

fn wait_for_names(
    alloc: Global,
    problem: &SizedProblem,
    table: &GroundTable,
    places: &[Place],
    agenda: &IndexSet<Reached>,
    names: &[Name],
) -> Result<IndexSet<usize>, NoMemory>
    requires normal { AreNormalReached table.now agenda.now.keys }
    ensures { IfOk result (λ w. w.keys ≡ keep_all ◌==◌ [] (introducers_in (the_places places.now)
        (the_keys table.now agenda.now.keys) (all_with_marks problem.now (map (the_name table.now) names.now)))) }
{
    let mut waits = IndexSet::new(alloc);
    for name in names {
        wait_for_name(alloc, problem, table, places, agenda, *name, &mut waits)?;
    }
    Ok(waits)
}

fn numbers(alloc: Global, places: &[usize]) -> Result<Numbers, NoMemory>
    ensures { IfOk result (λ all. all ≡ places.now) }
{
    let mut all = Numbers::new(alloc);
    for place in places {
        all.push(*place)?;
    }
    Ok(all)
}

// The places of the turns that introduce what the turn mentions by its own values.
fn waits_of(
    alloc: Global,
    problem: &SizedProblem,
    table: &HoldingTable<'_>,
    places: &[Place],
    agenda: &IndexSet<Reached>,
    turn: &Reached,
) -> Result<Numbers, NoMemory>
    requires normal { AreNormalReached table.now agenda.now.keys }
    ensures { IfOk result (WaitFor problem.now (the_places places.now) (the_keys table.now agenda.now.keys) (the_reached table.now turn.now)) }
{
    let values = turn.values.as_slice();
    let plain = table.table();
    let before = taken_before(plain, places, turn);
    let names = names_in_values(alloc, table, &values[before..])?;
    let found = names.as_slice();
    let waits = wait_for_names(alloc, problem, plain, places, agenda, found)?;
    let turns = waits.as_slice();
    let all = numbers(alloc, turns)?;
    Ok(all)
}

fn waits_by(
    alloc: Global,
    problem: &SizedProblem,
    table: &HoldingTable<'_>,
    places: &[Place],
    agenda: &IndexSet<Reached>,
) -> Result<Vec<Numbers>, NoMemory>
    requires normal { AreNormalReached table.now agenda.now.keys }
    ensures { IfOk result (λ all. AllZip (WaitFor problem.now (the_places places.now) (the_keys table.now agenda.now.keys)) (the_all table.now agenda.now.keys) all.items) }
{
    let mut all = Vec::new(alloc);
    for turn in agenda.as_slice() {
        all.push(waits_of(alloc, problem, table, places, agenda, turn)?)?;
    }
    Ok(all)
}

/// For each turn the places of those that introduce what it mentions by its own values.
pub fn waits(
    alloc: Global,
    problem: &SizedProblem,
    table: &GroundTable,
    places: &[Place],
    agenda: &IndexSet<Reached>,
) -> Result<Vec<Numbers>, NoMemory>
    requires normal { AreNormalReached table.now agenda.now.keys }
    ensures { IfOk result (λ all. AllZip (WaitFor problem.now (the_places places.now) (the_keys table.now agenda.now.keys)) (the_all table.now agenda.now.keys) all.items) }
{
    let table = HoldingTable::new(alloc, table)?;
    let all = waits_by(alloc, problem, &table, places, agenda)?;
    Ok(all)
}
