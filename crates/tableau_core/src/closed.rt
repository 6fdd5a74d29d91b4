//! Closed tableaux within a path limit.

ghost use Rattle.std.specs.Prelude.{◌≡◌, ◌∷◌, ◌<◌, ◌&&◌, length, map, nat_lt, slice_get, IfOk, remove};
ghost use Rattle.std.specs.List.{list_all};
ghost use Rattle.calculus.specs.Tableaux.{ancestor, is_closed, is_complement, is_new_on, is_shown};
ghost use Rattle.calculus.specs.Lists.{closings_tree};
ghost use Rattle.tableau_core.specs.Counted.{closed_all, closed_one, counted, steps_if_extends};
ghost use Rattle.tableau_core.specs.Numbered.ClosingView.{closing_in, the_closing};
ghost use Rattle.tableau_core.specs.Numbered.InstanceView.{the_instance};
ghost use Rattle.tableau_core.specs.Numbered.Known.{AreAllAdmitted};
ghost use Rattle.tableau_core.specs.Numbered.LiteralView.{the_literal};
ghost use Rattle.tableau_core.specs.Numbered.TableauView.{the_tableau};

use crate::admission::admitted_lists;
use crate::atom::{is_connected, is_new_on, is_reduced};
use crate::closing::{Closing, ClosingList};
use crate::count::{Count, and_more, is_short, longest_string};
use crate::instance::ClauseInstance;
use crate::literal::GroundLiteral;
use crate::sized::SizedProblem;
use crate::tableau::Tableau;
use crate::walk::steps_if_allowed;
use cop_base::NoMemory;
use formula_core::{GroundTable, Sign};
use logic_rules::Problem;
use std::alloc::Global;

/// The count, where the test holds.
pub fn counted(closed: bool, so_far: Count) -> Option<Count>
    ensures { result ≡ counted closed so_far 0 0 }
{
    if closed { Some(so_far) } else { None }
}

/// The literals but the one at the place.
#[tactic(auto, using(crate::proofs::Numbered::ClosingLaws::removing))]
pub fn goals_but(
    alloc: Global,
    literals: &[GroundLiteral],
    place: u32,
) -> Result<Vec<GroundLiteral>, NoMemory>
    requires { place < length literals.now }
    ensures { IfOk result (λ v. v.items ≡ remove literals.now place) }
{
    let mut goals = Vec::new(alloc);
    goals.extend_from_slice(&literals[..place as usize])?;
    goals.extend_from_slice(&literals[place as usize + 1..])?;
    Ok(goals)
}

// The path below a goal.
fn below(
    alloc: Global,
    goal: GroundLiteral,
    path: &[GroundLiteral],
) -> Result<Vec<GroundLiteral>, NoMemory>
    ensures { IfOk result (λ v. v.items ≡ goal ∷ path.now) }
{
    let mut longer = Vec::new(alloc);
    longer.push(goal)?;
    longer.extend_from_slice(path)?;
    Ok(longer)
}

fn reduces(table: &GroundTable, path: &[GroundLiteral], goal: GroundLiteral, up: u32) -> bool
    ensures { result ≡ (is_new_on (map (the_literal table.now) path.now) (the_literal table.now goal)
        && is_complement (the_literal table.now goal) (ancestor (map (the_literal table.now) path.now) up)) }
{
    is_new_on(table, path, goal) && is_reduced(table, path, goal, up)
}

// Whether the path is short enough for an extension, and the literals are right.
fn may_extend(
    table: &GroundTable,
    limit: u8,
    path: &[GroundLiteral],
    goal: GroundLiteral,
    literals: &[GroundLiteral],
    place: u32,
) -> bool
    ensures { result ≡ (is_new_on (map (the_literal table.now) path.now) (the_literal table.now goal)
        && nat_lt (length (map (the_literal table.now) path.now)) limit
        && is_complement (the_literal table.now goal) (slice_get (map (the_literal table.now) literals.now) place)) }
{
    is_new_on(table, path, goal)
        && path.len() < limit as usize
        && is_connected(table, literals, goal, place)
}

// The number of steps of an instance that extends the path.
fn steps_if_extends(
    alloc: Global,
    problem: &SizedProblem,
    table: &GroundTable,
    admitted: &[bool],
    limit: u8,
    path: &[GroundLiteral],
    goal: GroundLiteral,
    instance: &ClauseInstance,
    place: u32,
) -> Result<Option<u64>, NoMemory>
    requires { AreAllAdmitted problem.now table.now admitted.now }
    ensures { IfOk result (λ o. o
        ≡ steps_if_extends problem.now limit (map (the_literal table.now) path.now) (the_literal table.now goal)
        (the_instance table.now instance.now) place) }
{
    if !may_extend(table, limit, path, goal, instance.literals.items(), place) {
        return Ok(None);
    }
    let steps = steps_if_allowed(alloc, problem, table, admitted, instance)?;
    Ok(steps)
}

// What is counted so far and of the instances below a goal, where it is closed.
#[cycle(closed)]
fn closes(
    alloc: Global,
    problem: &SizedProblem,
    table: &GroundTable,
    admitted: &[bool],
    limit: u8,
    path: &[GroundLiteral],
    goal: GroundLiteral,
    closing: &Closing,
    so_far: Count,
) -> Result<Option<Count>, NoMemory>
    requires { AreAllAdmitted problem.now table.now admitted.now }
    ensures { IfOk result (λ o. o
        ≡ closed_one problem.now limit (map (the_literal table.now) path.now) (the_literal table.now goal)
        (closing_in table.now (the_closing closing.now)) so_far) }
{
    match closing {
        Closing::Reduce { up } => {
            let closed = counted(reduces(table, path, goal, *up), so_far);
            Ok(closed)
        }
        Closing::Extend {
            instance,
            literal,
            goals,
        } => {
            let own = steps_if_extends(
                alloc, problem, table, admitted, limit, path, goal, instance, *literal,
            )?;
            match own {
                None => Ok(None),
                Some(more) => {
                    let others = goals_but(alloc, instance.literals.items(), *literal)?;
                    let longer = below(alloc, goal, path)?;
                    let string = longest_string(table, table.values(instance.values));
                    let count = and_more(so_far, more, string);
                    let closed = closes_all(
                        alloc, problem, table, admitted, limit, &longer, &others, goals, count,
                    )?;
                    Ok(closed)
                }
            }
        }
    }
}

// What is counted so far and of the instances below these goals, where each is closed.
#[cycle(closed)]
#[tactic(auto, using(crate::specs::Numbered::ClosingFalls::falling))]
fn closes_all(
    alloc: Global,
    problem: &SizedProblem,
    table: &GroundTable,
    admitted: &[bool],
    limit: u8,
    path: &[GroundLiteral],
    goals: &[GroundLiteral],
    closings: &ClosingList,
    so_far: Count,
) -> Result<Option<Count>, NoMemory>
    requires { AreAllAdmitted problem.now table.now admitted.now }
    ensures { IfOk result (λ o. o
        ≡ closed_all problem.now limit (map (the_literal table.now) path.now) (map (the_literal table.now) goals.now)
        (closings_tree (map (closing_in table.now) closings.now)) so_far) }
{
    let items = closings.items();
    if goals.len() != items.len() {
        return Ok(None);
    }
    let mut count = so_far;
    for i in 0..goals.len() {
        let goal = &goals[i];
        let one = closes(
            alloc, problem, table, admitted, limit, path, *goal, &items[i], count,
        )?;
        match one {
            None => return Ok(None),
            Some(more) => count = more,
        }
    }
    Ok(Some(count))
}

/// Whether each literal is one that is to be shown.
pub fn are_shown(table: &GroundTable, literals: &[GroundLiteral]) -> bool
    ensures { result ≡ list_all is_shown (map (the_literal table.now) literals.now) }
{
    for literal in literals {
        match literal.sign {
            Sign::F => {}
            Sign::T => return false,
        }
    }
    true
}

// The same where the sizes of the formula's parts are known, and which lists are admitted.
fn is_closed_within(
    alloc: Global,
    problem: &SizedProblem,
    admitted: &[bool],
    t: &Tableau,
    limit: u8,
) -> Result<bool, NoMemory>
    requires { AreAllAdmitted problem.now t.now.table admitted.now }
    ensures { IfOk result (λ b. b ≡ is_closed problem.now limit (the_tableau t.now)) }
{
    let table = &t.table;
    let own = steps_if_allowed(alloc, problem, table, admitted, &t.start)?;
    match own {
        None => Ok(false),
        Some(steps) => {
            let literals = t.start.literals.items();
            if !are_shown(table, literals) {
                return Ok(false);
            }
            let start = Count {
                steps,
                longest: longest_string(table, table.values(t.start.values)),
            };
            let all = closes_all(
                alloc,
                problem,
                table,
                admitted,
                limit,
                &[],
                literals,
                &t.goals,
                start,
            )?;
            match all {
                None => Ok(false),
                Some(count) => Ok(is_short(problem.setting().logic(), count)),
            }
        }
    }
}

/// Whether the tableau is closed within the path limit: the rules of leanCoP (Otten) with labels.
/// Each list of ground values is looked at once for the names inside it, and once for each gamma term
/// outside constant domains; values are compared by their numbers. Calls nest through closings at most
/// as deep as the limit, and through the formula as deep as it is nested.
pub fn is_closed(alloc: Global, problem: &Problem, t: &Tableau, limit: u8) -> Result<bool, NoMemory>
    ensures { IfOk result (λ b. b ≡ is_closed problem.now limit (the_tableau t.now)) }
{
    let sized = SizedProblem::new(alloc, problem)?;
    let admitted = admitted_lists(alloc, &sized, &t.table)?;
    let closed = is_closed_within(alloc, &sized, &admitted, t, limit)?;
    Ok(closed)
}
