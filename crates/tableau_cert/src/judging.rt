//! The judgement of the moves, line by line.

ghost use Rattle.std.specs.Prelude.{◌≡◌, ◌+◌, ◌++◌, ◌∷◌, [], length, map, reverse, IfOk, OnOk, Ok};
ghost use Rattle.std.specs.List.{list_all};
ghost use Rattle.calculus.specs.ComputedInstances.{modal_steps};
ghost use Rattle.calculus.specs.TableauText.{bare, bare_instances, strings_are_short};
ghost use Rattle.calculus.specs.TableauText as tree;
ghost use Rattle.calculus.specs.Tableaux.{ancestor, is_complement, is_new_on, total_steps};
ghost use Rattle.formula_core.specs.GroundLists.{IsGrown};
ghost use Rattle.tableau_core.specs.Numbered.Known.{AreAllAdmitted};
ghost use Rattle.tableau_core.specs.Numbered.LiteralView.{the_literal};
ghost use Rattle.tableau_core.specs.Walks.{capped};
ghost use Rattle.tableau_cert.specs.Gathering.{AreNormalLiterals};
ghost use Rattle.tableau_cert.specs.Judging.{AreNested, AreNormalGoals, IsMoved, IsNormalClosed, Takes, closed_by, closers_verdict, end_verdict, goal_at, goal_of, last_verdict, literals_in, resolved_verdict, the_closed, the_open, the_path};
ghost use Rattle.tableau_text.specs.MovesView.{the_chosen, the_move, the_moves};
ghost use Rattle.tableau_cert.specs.Resolving.{IsNormalCloser, IsNormalOutcome, closer_of, moves_steps, the_closer, the_outcome};
ghost use Rattle.tableau_cert.specs.VerdictView.{the_verdict};

use crate::resolving::{Closer, Found, Outcome, are_short, closer_of, find, steps_with, table_of};
use crate::verdict::TableauVerdict;
use calculus::fault::TableauFault;
use cop_base::NoMemory;
use formula_core::GroundTable;
use logic_rules::Problem;
use std::alloc::Global;
use tableau_core::{
    GroundLiteral, SizedProblem, admitted_lists, are_complementary, are_shown, goals_but,
    is_connected, is_new_on,
};
use tableau_text::{Move, Moves};

// An open goal, and how many goals stand above it: the first ones of the path.
#[derive(Clone, Copy)]
struct OpenGoal {
    literal: GroundLiteral,
    depth: usize,
}

// The goals below a goal that is closed, or why it is not.
#[derive(Drop)]
enum Closed {
    Goals(Vec<GroundLiteral>),
    Wrong(TableauFault),
}

// Puts the goals before those that are open, the first one next.
fn put_goals(
    open_goals: &mut Vec<OpenGoal>,
    literals: &[GroundLiteral],
    depth: usize,
) -> Result<(), NoMemory>
    ensures { OnOk result (open_goals.new.items ≡ open_goals.old.items ++ reverse (map (goal_of depth) literals.now)) }
{
    for i in 0..literals.len() {
        let literal = literals[literals.len() - 1 - i];
        open_goals.push(OpenGoal { literal, depth })?;
    }
    Ok(())
}

// Whether the ancestor of this number is the goal's complement, the nearest one being the last of the
// path and having number 1.
fn is_reduced(table: &GroundTable, path: &[GroundLiteral], goal: GroundLiteral, up: u32) -> bool
    ensures { result ≡ is_complement (the_literal table.now goal) (ancestor (the_path table.now path.now) up) }
{
    let number = up as usize;
    if number == 0 {
        return false;
    }
    if number > path.len() {
        return false;
    }
    let other = &path[path.len() - number];
    are_complementary(table, goal, *other)
}

// Whether the goal is not the one above it and does not stand on that one's path.
fn is_new(
    table: &GroundTable,
    path: &[GroundLiteral],
    above: GroundLiteral,
    goal: GroundLiteral,
) -> bool
    ensures { result ≡ is_new_on (the_literal table.now above ∷ the_path table.now path.now) (the_literal table.now goal) }
{
    let nearest = [above];
    is_new_on(table, &nearest, goal) && is_new_on(table, path, goal)
}

// Whether each of the goals is new below this one.
fn are_new(
    table: &GroundTable,
    path: &[GroundLiteral],
    above: GroundLiteral,
    goals: &[GroundLiteral],
) -> bool
    ensures { result ≡ list_all (is_new_on (the_literal table.now above ∷ the_path table.now path.now)) (map (the_literal table.now) goals.now) }
{
    for goal in goals {
        if !is_new(table, path, above, *goal) {
            return false;
        }
    }
    true
}

// The goals below one that is closed by the literal at the place.
fn below_connected(
    alloc: Global,
    table: &GroundTable,
    path: &[GroundLiteral],
    goal: GroundLiteral,
    literals: &[GroundLiteral],
    place: u32,
) -> Result<Closed, NoMemory>
    requires { AreNormalLiterals table.now literals.now }
    ensures closed { IfOk result (λ r. the_closed table.now path.now goal r
        ≡ tree.extended (goal_at table.now path.now goal) place (Ok (map (the_literal table.now) literals.now))) }
    ensures normal { IfOk result (λ r. IsNormalClosed table.now r) }
{
    if !is_connected(table, literals, goal, place) {
        return Ok(Closed::Wrong(TableauFault::NoConnection));
    }
    let goals = goals_but(alloc, literals, place)?;
    if !are_new(table, path, goal, &goals) {
        return Ok(Closed::Wrong(TableauFault::NotRegular));
    }
    Ok(Closed::Goals(goals))
}

// The goals below one whose path is short enough for an extension.
fn below_extended(
    alloc: Global,
    table: &GroundTable,
    path: &[GroundLiteral],
    goal: GroundLiteral,
    place: u32,
    outcome: &Outcome,
) -> Result<Closed, NoMemory>
    requires { IsNormalOutcome table.now outcome.now }
    ensures closed { IfOk result (λ r. the_closed table.now path.now goal r
        ≡ tree.extended (goal_at table.now path.now goal) place (literals_in (the_outcome table.now outcome.now))) }
    ensures normal { IfOk result (λ r. IsNormalClosed table.now r) }
{
    match outcome {
        Outcome::NoInstance => Ok(Closed::Wrong(TableauFault::NoInstance)),
        Outcome::NotAllowed => Ok(Closed::Wrong(TableauFault::NotAllowed)),
        Outcome::Instance(instance) => {
            let literals = instance.literals.items();
            let below = below_connected(alloc, table, path, goal, literals, place)?;
            Ok(below)
        }
    }
}

// The goals below one that the move closes.
fn below(
    alloc: Global,
    table: &GroundTable,
    limit: u8,
    path: &[GroundLiteral],
    goal: GroundLiteral,
    closer: &Closer,
) -> Result<Closed, NoMemory>
    requires { IsNormalCloser table.now closer.now }
    ensures closed { IfOk result (λ r. the_closed table.now path.now goal r
        ≡ closed_by limit (goal_at table.now path.now goal) (the_closer table.now closer.now)) }
    ensures normal { IfOk result (λ r. IsNormalClosed table.now r) }
{
    match closer {
        Closer::Reduction(up) => {
            if !is_reduced(table, path, goal, *up) {
                return Ok(Closed::Wrong(TableauFault::NoConnection));
            }
            Ok(Closed::Goals(Vec::new(alloc)))
        }
        Closer::Extension { place, outcome } => {
            if path.len() >= limit as usize {
                return Ok(Closed::Wrong(TableauFault::PathLimit));
            }
            let below = below_extended(alloc, table, path, goal, *place, outcome)?;
            Ok(below)
        }
    }
}

// Closes the goal that comes next by the move, and opens those below it. The path is cut back to the
// goals above it, and goes on by it. Gives why the goal is not closed.
fn close_next(
    alloc: Global,
    table: &GroundTable,
    limit: u8,
    path: &mut Vec<GroundLiteral>,
    open_goals: &mut Vec<OpenGoal>,
    goal: OpenGoal,
    closer: &Closer,
) -> Result<Option<TableauFault>, NoMemory>
    requires nested { AreNested (length path.old.items) (goal ∷ reverse open_goals.old.items) }
    requires normal { AreNormalGoals table.now path.old.items (goal ∷ open_goals.old.items) }
    requires closer { IsNormalCloser table.now closer.now }
    ensures { IfOk result (λ o. Takes table.now table.now path.old.items open_goals.old.items path.new.items open_goals.new.items
        (closed_by limit (the_open table.now path.old.items goal) (the_closer table.now closer.now)) o) }
{
    path.truncate(goal.depth);
    match below(alloc, table, limit, path, goal.literal, closer)? {
        Closed::Wrong(fault) => Ok(Some(fault)),
        Closed::Goals(goals) => {
            path.push(goal.literal)?;
            put_goals(open_goals, &goals, path.len())?;
            Ok(None)
        }
    }
}

fn rejected(line: u64, fault: TableauFault) -> TableauVerdict
    ensures { the_verdict result ≡ tree.tableau_rejected line fault }
{
    TableauVerdict::Rejected { line, fault }
}

// The verdict at the line `end`.
fn verdict_at_end(all_closed: bool, short: bool, line: u64) -> TableauVerdict
    ensures { the_verdict result ≡ end_verdict all_closed short line }
{
    if !all_closed {
        return rejected(line, TableauFault::StillOpen);
    }
    if !short {
        return rejected(line, TableauFault::StringTooLong);
    }
    TableauVerdict::Accepted
}

// Finds the move's instance and closes the goal that comes next by it. Gives why the goal is not
// closed, and the number of the instance's steps. What the instance has more than the goals that it
// opens is dropped.
fn close_by_move(
    alloc: Global,
    problem: &SizedProblem,
    moves: &Moves,
    admitted: &[bool],
    table: &mut GroundTable,
    path: &mut Vec<GroundLiteral>,
    open_goals: &mut Vec<OpenGoal>,
    goal: OpenGoal,
    given_move: &Move,
) -> Result<(Option<TableauFault>, u64), NoMemory>
    requires admitted { AreAllAdmitted problem.now moves.now.table admitted.now }
    requires grown { IsGrown moves.now.table table.old }
    requires nested { AreNested (length path.old.items) (goal ∷ reverse open_goals.old.items) }
    requires normal { AreNormalGoals table.old path.old.items (goal ∷ open_goals.old.items) }
    ensures { IfOk result (λ r. IsMoved problem.now moves.now.limit table.old path.old.items open_goals.old.items goal (the_move moves.now.table given_move.now)
        table.new path.new.items open_goals.new.items r.0 r.1) }
{
    let (closer, steps) = closer_of(alloc, problem, &moves.table, admitted, table, given_move)?;
    let fault = close_next(alloc, table, moves.limit, path, open_goals, goal, &closer)?;
    Ok((fault, steps))
}

// The verdict on the moves that close the goals, one after the other. The instance of the start has
// so many steps.
fn verdict_from(
    alloc: Global,
    problem: &SizedProblem,
    moves: &Moves,
    admitted: &[bool],
    table: &mut GroundTable,
    goals: &[GroundLiteral],
    begun: u64,
) -> Result<TableauVerdict, NoMemory>
    requires admitted { AreAllAdmitted problem.now moves.now.table admitted.now }
    requires grown { IsGrown moves.now.table table.old }
    requires normal { AreNormalLiterals table.old goals.now }
    requires begun { capped (begun + moves_steps problem.now (the_moves moves.now).moves) ≡ capped (total_steps problem.now (bare_instances (the_moves moves.now))) }
    ensures { IfOk result (λ v. the_verdict v
        ≡ closers_verdict moves.now.limit (last_verdict (strings_are_short problem.now (bare_instances (the_moves moves.now)))) (tree.below [] (map (the_literal table.old) goals.now)) (map (closer_of problem.now) (the_moves moves.now).moves) 6) }
{
    let given_moves = moves.moves.as_slice();
    let mut path = Vec::new(alloc);
    let mut open_goals = Vec::new(alloc);
    let mut steps = begun;
    put_goals(&mut open_goals, goals, 0)?;
    for i in 0..given_moves.len() {
        let line = i as u64 + 6;
        match open_goals.pop() {
            None => return Ok(rejected(line, TableauFault::AllClosed)),
            Some(goal) => {
                let given_move = &given_moves[i];
                let (fault, more) = close_by_move(
                    alloc,
                    problem,
                    moves,
                    admitted,
                    table,
                    &mut path,
                    &mut open_goals,
                    goal,
                    given_move,
                )?;
                match fault {
                    Some(fault) => return Ok(rejected(line, fault)),
                    None => {}
                }
                steps = steps_with(steps, more);
            }
        }
    }
    let line = given_moves.len() as u64 + 6;
    let rest = open_goals.as_slice();
    let short = are_short(problem, moves, steps);
    Ok(verdict_at_end(rest.is_empty(), short, line))
}

// The verdict on the moves behind the instance of the start.
fn verdict_after(
    alloc: Global,
    problem: &SizedProblem,
    moves: &Moves,
    admitted: &[bool],
    table: &mut GroundTable,
    start: &Found,
) -> Result<TableauVerdict, NoMemory>
    requires admitted { AreAllAdmitted problem.now moves.now.table admitted.now }
    requires grown { IsGrown moves.now.table table.old }
    requires normal { IsNormalOutcome table.old start.now.outcome }
    requires steps { start.now.steps ≡ capped (modal_steps problem.now (bare (the_chosen moves.now.table moves.now.start))) }
    ensures { IfOk result (λ v. the_verdict v
        ≡ resolved_verdict moves.now.limit (the_outcome table.old start.now.outcome) (map (closer_of problem.now) (the_moves moves.now).moves) (strings_are_short problem.now (bare_instances (the_moves moves.now)))) }
{
    match &start.outcome {
        Outcome::NoInstance => Ok(rejected(5, TableauFault::NoInstance)),
        Outcome::NotAllowed => Ok(rejected(5, TableauFault::NotAllowed)),
        Outcome::Instance(instance) => {
            let goals = instance.literals.items();
            if !are_shown(table, goals) {
                return Ok(rejected(5, TableauFault::NotPositive));
            }
            let verdict = verdict_from(alloc, problem, moves, admitted, table, goals, start.steps)?;
            Ok(verdict)
        }
    }
}

// The verdict over a table that begins with the lists of the moves.
fn verdict_over(
    alloc: Global,
    problem: &SizedProblem,
    moves: &Moves,
    admitted: &[bool],
    table: GroundTable,
) -> Result<TableauVerdict, NoMemory>
    requires admitted { AreAllAdmitted problem.now moves.now.table admitted.now }
    requires grown { IsGrown moves.now.table table }
    ensures { IfOk result (λ v. the_verdict v ≡ tree.tableau_verdict problem.now (the_moves moves.now)) }
{
    let mut table = table;
    let start = find(
        alloc,
        problem,
        &moves.table,
        admitted,
        &mut table,
        &moves.start,
    )?;
    let verdict = verdict_after(alloc, problem, moves, admitted, &mut table, &start)?;
    Ok(verdict)
}

/// The verdict on the lines of a tableau's text that are in form: the first one that is wrong, or that
/// they close the tableau within its limit. A line's instance is found when the line is judged, and
/// kept until its goals are open; each goal is compared with those above it alone, so no step is
/// quadratic in the tableau.
pub fn judge(alloc: Global, problem: &Problem, moves: &Moves) -> Result<TableauVerdict, NoMemory>
    ensures { IfOk result (λ v. the_verdict v ≡ tree.tableau_verdict problem.now (the_moves moves.now)) }
{
    let sized = SizedProblem::new(alloc, problem)?;
    let admitted = admitted_lists(alloc, &sized, &moves.table)?;
    let table = table_of(alloc, &moves.table)?;
    let verdict = verdict_over(alloc, &sized, moves, &admitted, table)?;
    Ok(verdict)
}
