//! What leads a conversion: the turns of each instance, and each turn's parent and prerequisites, as
//! places of the agenda.

ghost use Rattle.std.specs.Prelude.{◌≡◌, map, Some, IfOk, IsSome};
ghost use Rattle.std.specs.List.{AllByRecursion, AllZip};
ghost use Rattle.name_order.specs.ByNumber.Collected.{the_lists};
ghost use Rattle.name_order.specs.ByNumber.ReachedView.{the_all, the_keys, the_reached, AreNormalReached};
ghost use Rattle.name_order.specs.ByNumber.Waiting.{WaitFor};
ghost use Rattle.name_order.specs.Found.{above_in, find_in, parent_in};
ghost use Rattle.name_order.specs.PlaceView.{the_places};

use crate::agenda::Turns;
use crate::awaited::{taken_before, waits};
use crate::collect::ReachedList;
use crate::keys::find;
use crate::numbers::Numbers;
use crate::place::{Place, place_at};
use crate::reached::Reached;
use cop_base::NoMemory;
use formula_core::GroundTable;
use indexmap::IndexSet;
use std::alloc::Global;
use tableau_core::SizedProblem;

/// The turns of each instance, and each turn's parent and prerequisites.
#[derive(Drop)]
pub struct Guide {
    pub order: Vec<Numbers>,
    pub parents: Vec<Option<usize>>,
    pub waits: Vec<Numbers>,
}

/// The position above.
pub fn above(places: &[Place], position: u32) -> Option<u32>
    ensures { result ≡ above_in (the_places places.now) position }
{
    match place_at(places, position) {
        Some(place) => place.above,
        None => None,
    }
}

// The place of the turn's parent.
fn parent_of(
    alloc: Global,
    table: &GroundTable,
    places: &[Place],
    agenda: &IndexSet<Reached>,
    turn: &Reached,
) -> Result<Option<usize>, NoMemory>
    requires normal { AreNormalReached table.now agenda.now.keys }
    ensures { IfOk result (λ r. r ≡ parent_in (the_places places.now) (the_keys table.now agenda.now.keys) (the_reached table.now turn.now)) }
{
    let Some(above) = above(places, turn.position) else {
        return Ok(None);
    };
    let values = turn.values.as_slice();
    let before = taken_before(table, places, turn);
    let place = find(alloc, table, agenda, above, &values[..before])?;
    Ok(place)
}

// The places of the turns' parents.
fn parents(
    alloc: Global,
    table: &GroundTable,
    places: &[Place],
    agenda: &IndexSet<Reached>,
) -> Result<Vec<Option<usize>>, NoMemory>
    requires normal { AreNormalReached table.now agenda.now.keys }
    ensures { IfOk result (λ all. all.items
        ≡ map (parent_in (the_places places.now) (the_keys table.now agenda.now.keys)) (the_all table.now agenda.now.keys)) }
{
    let mut all = Vec::new(alloc);
    for turn in agenda.as_slice() {
        all.push(parent_of(alloc, table, places, agenda, turn)?)?;
    }
    Ok(all)
}

fn place_of(
    alloc: Global,
    table: &GroundTable,
    agenda: &IndexSet<Reached>,
    turn: &Reached,
) -> Result<usize, NoMemory>
    requires normal { AreNormalReached table.now agenda.now.keys }
    requires known { IsSome (find_in (the_keys table.now agenda.now.keys) (the_reached table.now turn.now)) }
    ensures { IfOk result (λ i. find_in (the_keys table.now agenda.now.keys) (the_reached table.now turn.now) ≡ Some i) }
{
    match find(alloc, table, agenda, turn.position, &turn.values)? {
        Some(place) => Ok(place),
        None => unreachable!(),
    }
}

fn places_of(
    alloc: Global,
    table: &GroundTable,
    agenda: &IndexSet<Reached>,
    turns: &[Reached],
) -> Result<Numbers, NoMemory>
    requires normal { AreNormalReached table.now agenda.now.keys }
    requires known { AllByRecursion (λ x. IsSome (find_in (the_keys table.now agenda.now.keys) x)) (the_all table.now turns.now) }
    ensures { IfOk result (λ all. map (find_in (the_keys table.now agenda.now.keys)) (the_all table.now turns.now) ≡ map Some all) }
{
    let mut all = Numbers::new(alloc);
    for turn in turns {
        all.push(place_of(alloc, table, agenda, turn)?)?;
    }
    Ok(all)
}

// The places of the turns of each list.
fn order(
    alloc: Global,
    table: &GroundTable,
    agenda: &IndexSet<Reached>,
    lists: &[ReachedList],
) -> Result<Vec<Numbers>, NoMemory>
    requires normal { AreNormalReached table.now agenda.now.keys }
    requires known { AllByRecursion (λ ts. AllByRecursion (λ x. IsSome (find_in (the_keys table.now agenda.now.keys) x)) ts) (the_lists table.now lists.now) }
    ensures { IfOk result (λ all. map (map (find_in (the_keys table.now agenda.now.keys))) (the_lists table.now lists.now) ≡ map (map Some) all.items) }
{
    let mut all = Vec::new(alloc);
    for list in lists {
        let turns = list.items.as_slice();
        all.push(places_of(alloc, table, agenda, turns)?)?;
    }
    Ok(all)
}

/// What leads a conversion by the turns of its tableau.
pub fn guide_by(
    alloc: Global,
    problem: &SizedProblem,
    table: &GroundTable,
    places: &[Place],
    turns: &Turns,
) -> Result<Guide, NoMemory>
    requires normal { AreNormalReached table.now turns.now.agenda.keys }
    requires known { AllByRecursion (λ ts. AllByRecursion (λ x. IsSome (find_in (the_keys table.now turns.now.agenda.keys) x)) ts)
        (the_lists table.now turns.now.lists.items) }
    ensures order { IfOk result (λ g. map (map (find_in (the_keys table.now turns.now.agenda.keys))) (the_lists table.now turns.now.lists.items)
        ≡ map (map Some) g.order.items) }
    ensures parents { IfOk result (λ g. g.parents.items
        ≡ map (parent_in (the_places places.now) (the_keys table.now turns.now.agenda.keys)) (the_all table.now turns.now.agenda.keys)) }
    ensures waits { IfOk result (λ g. AllZip (WaitFor problem.now (the_places places.now) (the_keys table.now turns.now.agenda.keys)) (the_all table.now turns.now.agenda.keys) g.waits.items) }
{
    let order = order(alloc, table, &turns.agenda, &turns.lists)?;
    let parents = parents(alloc, table, places, &turns.agenda)?;
    let waits = waits(alloc, problem, table, places, &turns.agenda)?;
    Ok(Guide {
        order,
        parents,
        waits,
    })
}
