//! The schedule: searches by several strategies in turn, and what is found.

ghost use Rattle.std.specs.Prelude.{◌≡◌, IfOk, IfSome, List, ℕ};
ghost use Rattle.calculus.specs.Syntax.{Problem};
ghost use Rattle.tableau_finder.specs.Found.{IsFoundText};

use crate::domain::{Demands, close_strings};
use crate::flat::Flat;
use crate::search::Ending;
use crate::state::Search;
use crate::strategy::Strategy;
use crate::words::Lengths;
use crate::writing::Writer;
use cop_base::{NoMemory, PathLimit};
use logic_rules::{Domains, Problem};
use matrix_build::{MatrixFault, build_matrix};
use std::alloc::Global;
use tableau_cert::{TableauParse, parse_tableau};

// The steps of each search in the first round. Each round gives twice as many as the one before it.
const FIRST_STEPS: u64 = 50_000;

/// How far the finder goes: the greatest path limit, the steps of all searches together, and the number of the
/// strategy, or 0 for all of them in turn.
#[derive(Clone, Copy, Debug)]
pub struct Bounds {
    pub limit: PathLimit,
    pub steps: u64,
    pub strategy: u32,
}

/// Why nothing was searched.
#[derive(Clone, Copy, Debug, PartialEq, Eq)]
pub enum FindFault {
    TooLarge,
    NoMemory,
}

impl From<NoMemory> for FindFault {
    fn from(_error: NoMemory) -> FindFault {
        FindFault::NoMemory
    }
}

impl From<MatrixFault> for FindFault {
    fn from(fault: MatrixFault) -> FindFault {
        match fault {
            MatrixFault::TooLarge => FindFault::TooLarge,
            MatrixFault::NoMemory => FindFault::NoMemory,
        }
    }
}

// A search of the schedule, while it has choices left.
#[derive(Drop)]
struct Turn {
    search: Search,
    is_over: bool,
}

// What the searches of a problem share.
#[derive(Drop)]
struct Plan {
    alloc: Global,
    flat: Flat,
    lengths: Option<Lengths>,
    domains: Domains,
}

// How long strings are, where there are labels.
fn lengths_of(problem: &Problem) -> Option<Lengths> {
    let logic = problem.setting().logic();
    if !logic.has_labels() {
        return None;
    }
    Some(Lengths {
        least_one: logic.least_length() > 0,
        most_one: logic.greatest_length().is_some(),
        long_first: false,
    })
}

fn plan_of(alloc: Global, problem: &Problem) -> Result<Plan, FindFault> {
    let matrix = build_matrix(alloc, problem)?;
    let lengths = lengths_of(problem);
    let domains = problem.setting().domains();
    let has_homes = lengths.is_some() && domains != Domains::Constant;
    let flat = Flat::new(alloc, &matrix, has_homes)?;
    Ok(Plan {
        alloc,
        flat,
        lengths,
        domains,
    })
}

// The bytes, where they are the text of a closed tableau.
fn accepted(alloc: Global, problem: &Problem, text: Vec<u8>) -> Result<Option<Vec<u8>>, NoMemory>
    ensures { IfOk result (λ o. IfSome o (λ bytes. IsFoundText problem.now bytes.items)) }
{
    match parse_tableau(alloc, problem, &text) {
        Ok(_) => Ok(Some(text)),
        Err(TableauParse::Bad { .. }) => Ok(None),
        Err(TableauParse::NoMemory) => Err(NoMemory),
    }
}

// Makes the strings of what the search has found, and writes it.
fn written(
    plan: &Plan,
    problem: &Problem,
    search: &mut Search,
) -> Result<Option<Vec<u8>>, NoMemory> {
    let lines = search.lines(&plan.flat)?;
    let mut demands = Demands::new(plan.alloc, plan.domains);
    if let Some(lengths) = plan.lengths {
        if !demands.add_all(search, &plan.flat, &lines)? {
            return Ok(None);
        }
        if !search.solve(&plan.flat)? {
            return Ok(None);
        }
        if !close_strings(search, &plan.flat, &lines, lengths.least_one)? {
            return Ok(None);
        }
    }
    let writer = Writer::new(plan.alloc, !problem.common_spares());
    let limit = search.limit();
    let text = writer.text(
        problem,
        &plan.flat,
        &mut search.cells,
        &mut search.words,
        &demands,
        &lines,
        limit,
    )?;
    Ok(Some(text))
}

// The text of what the search has found, where it is accepted.
fn judged(plan: &Plan, problem: &Problem, search: &mut Search) -> Result<Option<Vec<u8>>, NoMemory>
    ensures { IfOk result (λ o. IfSome o (λ text. IsFoundText problem.now text.items)) }
{
    let moment = search.cells.moment();
    let text = match written(plan, problem, search)? {
        Some(text) => accepted(plan.alloc, problem, text)?,
        None => None,
    };
    search.cells.undo(moment);
    Ok(text)
}

// Goes on with a search for so many steps.
fn go_on(
    plan: &Plan,
    problem: &Problem,
    turn: &mut Turn,
    steps: u64,
) -> Result<Option<Vec<u8>>, NoMemory>
    ensures { IfOk result (λ o. IfSome o (λ text. IsFoundText problem.now text.items)) }
{
    let mut left = steps;
    for _i in 0..steps {
        let ending = turn.search.run(&plan.flat, left)?;
        match ending {
            Ending::Steps => return Ok(None),
            Ending::Nothing => {
                turn.is_over = true;
                return Ok(None);
            }
            Ending::Found => {
                if let Some(text) = judged(plan, problem, &mut turn.search)? {
                    return Ok(Some(text));
                }
            }
        }
        left = left.saturating_sub(turn.search.looks());
        if left == 0 {
            return Ok(None);
        }
    }
    Ok(None)
}

fn turns_of(plan: &Plan, bounds: Bounds) -> Result<Vec<Turn>, NoMemory> {
    let mut turns = Vec::new(plan.alloc);
    for number in 1..=Strategy::MOST {
        let is_of_use = Strategy::is_of_use(number, plan.lengths.is_some());
        if bounds.strategy == number || (bounds.strategy == 0 && is_of_use) {
            let strategy = Strategy::numbered(number);
            turns.push(Turn {
                search: Search::new(plan.alloc, strategy, bounds.limit, plan.lengths),
                is_over: false,
            })?;
        }
    }
    Ok(turns)
}

/// The text of a tableau of the problem that is closed within the limit that the text states, if one is found.
/// Nothing is said where none is.
pub fn find(alloc: Global, problem: &Problem, bounds: Bounds) -> Result<Option<Vec<u8>>, FindFault>
    ensures { IfOk result (λ o. IfSome o (λ text. IsFoundText problem.now text.items)) }
{
    let plan = plan_of(alloc, problem)?;
    let mut turns = turns_of(&plan, bounds)?;
    let mut left = bounds.steps;
    let mut steps = FIRST_STEPS;
    // Each round doubles the steps, so there are no more rounds than bits.
    for _round in 0..64 {
        let mut over = true;
        for number in 0..turns.len() {
            let Some(turn) = turns.get_mut(number) else {
                return Ok(None);
            };
            if turn.is_over {
                continue;
            }
            over = false;
            let given = steps.min(left);
            if let Some(text) = go_on(&plan, problem, turn, given)? {
                return Ok(Some(text));
            }
            left = left.saturating_sub(given);
            if left == 0 {
                return Ok(None);
            }
        }
        if over {
            return Ok(None);
        }
        steps = steps.saturating_mul(2);
    }
    Ok(None)
}
