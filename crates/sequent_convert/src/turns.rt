//! Which turn is made next, and the node that it works on.

ghost use Rattle.std.specs.Prelude.{◌≡◌, ◌<◌, ℕ, Some, IsTrue, IfOk, MatchOption, Contains, length, map, slice_get, drop};
ghost use Rattle.std.specs.List.{AllByRecursion};
ghost use Rattle.conversion_theory.specs.Branches.{Item};
ghost use Rattle.sequent_convert.specs.ByNumber.MadeView.{the_made};
ghost use Rattle.sequent_convert.specs.ByNumber.NodeView.{the_node};
ghost use Rattle.sequent_convert.specs.ByNumber.RunView.{TakesAll, WorksAt, own_values, the_lists, the_source};
ghost use Rattle.sequent_convert.specs.State.{Begins, BeginsNot, ComesFor, IsAwaitedBy, IsBasis, WorksOnNone, made_of};

use crate::branch::Branch;
use crate::make::{Made, make};
use crate::nodes::{find, works_on};
use crate::source::Source;
use cop_base::NoMemory;
use formula_core::{GroundTable, Value, Values};

// A turn that is not done, by which this one is awaited: its parent, or one that introduces a name which it mentions.
#[tactic(auto, using(crate::proofs::ByNumber::StateLaws::states))]
fn awaited(source: &Source, branch: &Branch, turn: usize) -> Option<usize>
    requires basis { IsBasis (the_source source.now) }
    requires within { turn < length source.now.named.now.agenda }
    ensures { MatchOption result ((j : ℕ) → IsAwaitedBy (the_source source.now) turn j → Contains branch.now.done j)
        (λ j. IsAwaitedBy (the_source source.now) turn j × (j < turn) × ¬ (Contains branch.now.done j)) }
{
    if let Some(parent) = source.named.parent(turn) {
        if !branch.done.has(parent) {
            return Some(parent);
        }
    }
    for earlier in source.named.waits(turn) {
        if !branch.done.has(*earlier) {
            return Some(*earlier);
        }
    }
    None
}

// The turn, or one that it waits for, which can come.
#[tactic(auto, using(crate::proofs::ByNumber::StateLaws::states))]
pub(crate) fn next_turn(source: &Source, branch: &Branch, turn: usize) -> usize
    requires basis { IsBasis (the_source source.now) }
    requires within { turn < length source.now.named.now.agenda }
    requires new { ¬ (Contains branch.now.done turn) }
    ensures { ComesFor (the_source source.now) branch.now.done turn result }
{
    let mut next = turn;
    while let Some(earlier) = awaited(source, branch, next) {
        next = earlier;
    }
    next
}

// The values taken before the own ones of a turn: those of its parent.
#[tactic(auto, using(crate::proofs::ByNumber::StateLaws::states))]
fn taken_before(source: &Source, turn: usize) -> Values
    requires basis { IsBasis (the_source source.now) }
    requires within { turn < length source.now.named.now.agenda }
{
    let agenda = source.named.agenda();
    match source.named.parent(turn) {
        None => Values(GroundTable::EMPTY),
        Some(parent) => agenda[parent].values,
    }
}

// Where the node that a turn works on may stand.
#[tactic(auto, using(crate::proofs::ByNumber::StateLaws::states))]
fn hint(source: &Source, branch: &Branch, turn: usize) -> usize
    requires basis { IsBasis (the_source source.now) }
    requires within { turn < length source.now.named.now.agenda }
{
    let agenda = source.named.agenda();
    branch.hint(agenda[turn].position.0, taken_before(source, turn))
}

#[tactic(auto, using(crate::proofs::ByNumber::StateLaws::states))]
pub(crate) fn find_node(source: &Source, branch: &Branch, turn: usize) -> Option<usize>
    requires basis { IsBasis (the_source source.now) }
    requires within { turn < length source.now.named.now.agenda }
    ensures { MatchOption result (WorksOnNone (the_source source.now) turn (map (the_node (the_lists source.now)) branch.now.nodes.items))
        (λ n. WorksAt (the_source source.now) (map (the_node (the_lists source.now)) branch.now.nodes.items) turn n) }
{
    let agenda = source.named.agenda();
    let hint = hint(source, branch, turn);
    let nodes = branch.nodes.as_slice();
    match find(source.named.table(), nodes, hint, agenda[turn]) {
        None => None,
        Some(place) => Some(place),
    }
}

// Whether the first of the turns works on the node that is hinted at.
#[tactic(auto, using(crate::proofs::ByNumber::StateLaws::states))]
pub(crate) fn begins(source: &Source, branch: &Branch, turns: &[usize]) -> bool
    requires basis { IsBasis (the_source source.now) }
    requires within { AllByRecursion (λ k. k < length source.now.named.now.agenda) turns.now }
    ensures { IsTrue result → Begins (the_source source.now) (map (the_node (the_lists source.now)) branch.now.nodes.items) turns.now }
{
    match turns.first() {
        None => false,
        Some(turn) => {
            let agenda = source.named.agenda();
            let place = hint(source, branch, *turn);
            let nodes = branch.nodes.as_slice();
            if place < nodes.len() {
                works_on(source.named.table(), agenda[*turn], &nodes[place])
            } else {
                false
            }
        }
    }
}

// Whether the first of the turns works on any node.
#[tactic(auto, using(crate::proofs::ByNumber::StateLaws::states))]
pub(crate) fn begins_somewhere(source: &Source, branch: &Branch, turns: &[usize]) -> bool
    requires basis { IsBasis (the_source source.now) }
    requires within { AllByRecursion (λ k. k < length source.now.named.now.agenda) turns.now }
    ensures yes { IsTrue result → Begins (the_source source.now) (map (the_node (the_lists source.now)) branch.now.nodes.items) turns.now }
    ensures no { ¬ (IsTrue result) → BeginsNot (the_source source.now) (map (the_node (the_lists source.now)) branch.now.nodes.items) turns.now }
{
    match turns.first() {
        None => false,
        Some(turn) => find_node(source, branch, *turn).is_some(),
    }
}

// The values behind the first n.
fn values_from<'v>(values: &'v [Value], n: usize) -> &'v [Value]
    ensures { result.now ≡ drop n values.now }
{
    if n <= values.len() {
        &values[n..]
    } else {
        &values[values.len()..]
    }
}

// What the turn does to the node at a place.
#[tactic(auto, using(crate::proofs::ByNumber::StateLaws::states))]
pub(crate) fn made_at<'a>(
    source: &Source,
    branch: &Branch<'a>,
    place: usize,
    turn: usize,
) -> Result<Made<'a>, NoMemory>
    requires within { turn < length source.now.named.now.agenda }
    requires works { WorksAt (the_source source.now) (map (the_node (the_lists source.now)) branch.now.nodes.items) turn place }
    requires taken { (i : Item) → slice_get (map (the_node (the_lists source.now)) branch.now.nodes.items) place ≡ Some i → TakesAll (the_source source.now) turn i }
    ensures { IfOk result (λ m. (i : Item) → slice_get (map (the_node (the_lists source.now)) branch.now.nodes.items) place ≡ Some i
        → the_made (the_lists source.now) m ≡ made_of (the_source source.now) i (own_values (the_source source.now) turn i)) }
{
    let agenda = source.named.agenda();
    let nodes = branch.nodes.as_slice();
    let node = &nodes[place];
    let table = source.named.table();
    let taken = table.values(node.spot.taken).len();
    let all = agenda[turn].values;
    let own = values_from(table.values(all), taken);
    let made = make(
        source.alloc,
        source.named,
        source.problem.setting().logic(),
        &node.spot,
        node.part,
        own,
        all,
    )?;
    Ok(made)
}
