//! The moves with their instances.

ghost use Rattle.std.specs.Prelude.{◌≡◌, ◌+◌, ℕ, List, map, IfOk, IfSome, Some, true};
ghost use Rattle.std.specs.Option.{option_map};
ghost use Rattle.std.specs.List.{list_all};
ghost use Rattle.calculus.specs.Skolem.{is_admitted_value};
ghost use Rattle.calculus.specs.Syntax as tree;
ghost use Rattle.calculus.specs.TableauText.{bare_instances, strings_are_short};
ghost use Rattle.calculus.specs.Tableaux.{has_at_most, total_steps};
ghost use Rattle.formula_core.specs.GroundLists.{GroundList, IsGrown, the_value, the_values};
ghost use Rattle.tableau_core.specs.Numbered.Known.{AreAllAdmitted};
ghost use Rattle.tableau_core.specs.Walks.{capped};
ghost use Rattle.tableau_cert.specs.Gathering.{AreNormalLiterals, the_summary};
ghost use Rattle.tableau_text.specs.MovesView.{the_chosen, the_move, the_moves};
ghost use Rattle.tableau_cert.specs.Resolving.{AreClosers, IsCloser, IsFound, IsResolved, are_all_within, is_move_within, told_of};
ghost use Rattle.tableau_cert.specs.declared.resolving.Closer.TheVariants as closers;
ghost use Rattle.tableau_cert.specs.declared.resolving.Outcome.TheVariants as outcomes;

use crate::gathering::{Gathered, gather};
use crate::selection::copied;
use crate::task::Supply;
use cop_base::NoMemory;
use formula_core::{GroundTable, Value, Values};
use logic_rules::Problem;
use std::alloc::Global;
use tableau_core::{ClauseInstance, SizedProblem, admitted_lists, are_known_values};
use tableau_text::{Chosen, Move, Moves};

/// An instance that is allowed, or why there is none.
#[derive(Drop)]
pub enum Outcome {
    NoInstance,
    NotAllowed,
    Instance(ClauseInstance),
}

/// What is found of an instance, and the number of its nu and pi steps, or the largest number where
/// there are more.
#[derive(Drop)]
pub struct Found {
    pub outcome: Outcome,
    pub steps: u64,
}

/// A move with its instance.
#[derive(Drop)]
pub enum Closer {
    Reduction(u32),
    Extension { place: u32, outcome: Outcome },
}

/// The moves with their instances, and the table that these name.
#[derive(Drop)]
pub struct Resolved {
    pub table: GroundTable,
    pub start: Outcome,
    pub closers: Vec<Closer>,
}

/// The steps so far with those of one more instance.
pub fn steps_with(steps: u64, more: u64) -> u64
    ensures { result ≡ capped (steps + more) }
{
    steps.saturating_add(more)
}

fn none() -> Found
    ensures outcome { result.outcome ≡ outcomes.NoInstance }
    ensures steps { result.steps ≡ 0 }
{
    Found {
        outcome: Outcome::NoInstance,
        steps: 0,
    }
}

// What is found where all sides and values are used up.
fn used_up(
    alloc: Global,
    given: &GroundTable,
    chosen: &Chosen,
    all: Gathered,
) -> Result<Found, NoMemory>
    ensures { (P : tree.Problem) (before after : List GroundList) → IsGrown given.now before → IsGrown before after
        → list_all (is_admitted_value P) (the_chosen given.now chosen.now).values ≡ true
        → AreNormalLiterals after all.literals → all.used_up ≡ true → Some (the_summary after all) ≡ told_of P (the_chosen given.now chosen.now)
        → IfOk result (λ f. IsFound P given.now before after (the_chosen given.now chosen.now) f) }
{
    if !all.allowed {
        return Ok(Found {
            outcome: Outcome::NotAllowed,
            steps: all.steps,
        });
    }
    let selection = copied(alloc, &chosen.selection)?;
    let instance = ClauseInstance {
        selection,
        values: given.normal_values(chosen.values),
        literals: all.literals,
    };
    Ok(Found {
        outcome: Outcome::Instance(instance),
        steps: all.steps,
    })
}

fn judged(
    alloc: Global,
    given: &GroundTable,
    chosen: &Chosen,
    gathered: Option<Gathered>,
) -> Result<Found, NoMemory>
    ensures { (P : tree.Problem) (before after : List GroundList) → IsGrown given.now before → list_all (is_admitted_value P) (the_chosen given.now chosen.now).values ≡ true
        → IfSome gathered (λ g. AreNormalLiterals after g.literals) → IsGrown before after
        → option_map (the_summary after) gathered ≡ told_of P (the_chosen given.now chosen.now)
        → IfOk result (λ f. IsFound P given.now before after (the_chosen given.now chosen.now) f) }
{
    match gathered {
        None => Ok(none()),
        Some(all) => {
            if !all.used_up {
                return Ok(none());
            }
            let found = used_up(alloc, given, chosen, all)?;
            Ok(found)
        }
    }
}

/// The instance, whose new lists are put into the table.
pub fn find(
    alloc: Global,
    problem: &SizedProblem,
    given: &GroundTable,
    admitted: &[bool],
    table: &mut GroundTable,
    chosen: &Chosen,
) -> Result<Found, NoMemory>
    requires admitted { AreAllAdmitted problem.now given.now admitted.now }
    requires grown { IsGrown given.now table.old }
    ensures { IfOk result (λ f. IsFound problem.now given.now table.old table.new (the_chosen given.now chosen.now) f) }
{
    if !are_known_values(given, admitted, chosen.values) {
        return Ok(none());
    }
    let supply = Supply {
        sides: chosen.selection.items(),
        values: given.values(chosen.values),
    };
    let gathered = gather(alloc, problem, table, given, supply)?;
    let found = judged(alloc, given, chosen, gathered)?;
    Ok(found)
}

fn extension(place: u32, found: Found) -> (Closer, u64)
    ensures closer { result.0 ≡ closers.Extension place found.outcome }
    ensures steps { result.1 ≡ found.steps }
{
    let closer = Closer::Extension {
        place,
        outcome: found.outcome,
    };
    (closer, found.steps)
}

/// The move with its instance, and the number of the instance's steps.
pub fn closer_of(
    alloc: Global,
    problem: &SizedProblem,
    given: &GroundTable,
    admitted: &[bool],
    table: &mut GroundTable,
    given_move: &Move,
) -> Result<(Closer, u64), NoMemory>
    requires admitted { AreAllAdmitted problem.now given.now admitted.now }
    requires grown { IsGrown given.now table.old }
    ensures { IfOk result (λ r. IsCloser problem.now table.old table.new (the_move given.now given_move.now) r.0 r.1) }
{
    match given_move {
        Move::Reduction(up) => Ok((Closer::Reduction(*up), 0)),
        Move::Extension { place, chosen } => {
            let found = find(alloc, problem, given, admitted, table, chosen)?;
            Ok(extension(*place, found))
        }
    }
}

fn is_within(table: &GroundTable, value: Value, most: u64) -> bool
    ensures { (n : ℕ) → most ≡ capped n → result ≡ has_at_most n (the_value table.now value) }
{
    match value {
        Value::Term(_) => true,
        Value::Steps(string) => table.marks(string).len() as u64 <= most,
    }
}

// Whether no string of the values is longer.
fn are_within(table: &GroundTable, values: Values, most: u64) -> bool
    ensures { (n : ℕ) → most ≡ capped n → result ≡ list_all (has_at_most n) (the_values table.now values) }
{
    let items = table.values(values);
    for item in items {
        if !is_within(table, *item, most) {
            return false;
        }
    }
    true
}

fn is_move_within(table: &GroundTable, given_move: &Move, most: u64) -> bool
    ensures { (n : ℕ) → most ≡ capped n → result ≡ is_move_within n (the_move table.now given_move.now) }
{
    match given_move {
        Move::Reduction(_) => true,
        Move::Extension { place: _, chosen } => are_within(table, chosen.values, most),
    }
}

// Whether no string is longer than there are steps.
fn are_all_within(moves: &Moves, steps: u64) -> bool
    ensures { (n : ℕ) → steps ≡ capped n → result ≡ are_all_within n (the_moves moves.now) }
{
    if !are_within(&moves.table, moves.start.values, steps) {
        return false;
    }
    for given_move in &moves.moves {
        if !is_move_within(&moves.table, given_move, steps) {
            return false;
        }
    }
    true
}

/// Whether no string is longer than all instances have nu and pi steps.
pub fn are_short(problem: &SizedProblem, moves: &Moves, steps: u64) -> bool
    requires { steps ≡ capped (total_steps problem.now (bare_instances (the_moves moves.now))) }
    ensures { result ≡ strings_are_short problem.now (bare_instances (the_moves moves.now)) }
{
    match problem.setting().logic().greatest_length() {
        Some(_) => true,
        None => are_all_within(moves, steps),
    }
}

/// The table to which the lists of the instances are added.
pub fn table_of(alloc: Global, given: &GroundTable) -> Result<GroundTable, NoMemory>
    ensures { IfOk result (λ t. IsGrown given.now t) }
{
    let _count = given.len(); // tells that the table is no longer than one may be
    let table = given.copy(alloc)?;
    Ok(table)
}

// The moves with their instances, whose new lists are put into the table.
fn closers_of(
    alloc: Global,
    problem: &SizedProblem,
    given: &GroundTable,
    admitted: &[bool],
    table: &mut GroundTable,
    moves: &[Move],
) -> Result<Vec<Closer>, NoMemory>
    requires admitted { AreAllAdmitted problem.now given.now admitted.now }
    requires grown { IsGrown given.now table.old }
    ensures { IfOk result (λ v. AreClosers problem.now table.old table.new (map (the_move given.now) moves.now) v.items) }
{
    let mut closers = Vec::new(alloc);
    for given_move in moves {
        let (closer, _steps) = closer_of(alloc, problem, given, admitted, table, given_move)?;
        closers.push(closer)?;
    }
    Ok(closers)
}

// Finds the instances of the moves over a table that begins with the lists of the moves.
fn resolve_over(
    alloc: Global,
    problem: &SizedProblem,
    moves: &Moves,
    admitted: &[bool],
    table: GroundTable,
) -> Result<Resolved, NoMemory>
    requires admitted { AreAllAdmitted problem.now moves.now.table admitted.now }
    requires grown { IsGrown moves.now.table table }
    ensures { IfOk result (λ r. IsResolved problem.now (the_moves moves.now) r) }
{
    let mut table = table;
    let start = find(
        alloc,
        problem,
        &moves.table,
        admitted,
        &mut table,
        &moves.start,
    )?;
    let given_moves = moves.moves.as_slice();
    let closers = closers_of(
        alloc,
        problem,
        &moves.table,
        admitted,
        &mut table,
        given_moves,
    )?;
    Ok(Resolved {
        table,
        start: start.outcome,
        closers,
    })
}

/// Finds the instances of the moves.
pub fn resolve(alloc: Global, problem: &Problem, moves: &Moves) -> Result<Resolved, NoMemory>
    ensures { IfOk result (λ r. IsResolved problem.now (the_moves moves.now) r) }
{
    let sized = SizedProblem::new(alloc, problem)?;
    let admitted = admitted_lists(alloc, &sized, &moves.table)?;
    let table = table_of(alloc, &moves.table)?;
    let resolved = resolve_over(alloc, &sized, moves, &admitted, table)?;
    Ok(resolved)
}
