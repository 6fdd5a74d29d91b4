//! The literals of an instance, by its sides and values.

ghost use Rattle.std.specs.Prelude.{◌≡◌, ◌++◌, ◌&&◌, List, map, reverse, IfOk, OnOk};
ghost use Rattle.calculus.specs.Skolem.{is_empty};
ghost use Rattle.formula_core.specs.GroundLists.{GroundList, IsGrown};
ghost use Rattle.tableau_cert.specs.WayView.{IsNormalWay, empty_way, point_of, the_way};
ghost use Rattle.tableau_cert.specs.Gathering.{AreNormal, IsFit, IsGathered, IsTaken, literals_of, parts_in, root_part, task_at, the_part, the_supply};

use crate::entering::enter;
use crate::opening::open_part;
use crate::task::{Opened, PlacedPart, Step, Supply, Task};
use crate::way::{Way, WayPoint, root_point};
use cop_base::NoMemory;
use formula_core::GroundTable;
use logic_rules::Logic;
use std::alloc::Global;
use tableau_core::{LiteralList, SizedProblem};

/// The literals that an instance has, whether its terms are allowed, the number of its nu and pi steps,
/// or the largest number where there are more, and whether its sides and values are used up.
#[derive(Drop)]
pub struct Gathered {
    pub literals: LiteralList,
    pub allowed: bool,
    pub steps: u64,
    pub used_up: bool,
}

// Puts what a part gives, which is at the point, before the open parts, or behind the literals.
fn put<'p>(
    tasks: &mut Vec<Task<'p>>,
    literals: &mut LiteralList,
    opened: Opened<'p>,
    point: WayPoint,
) -> Result<(), NoMemory>
    ensures tasks { OnOk result (tasks.new.items ≡ tasks.old.items ++ reverse (map (task_at point) (parts_in opened.entry))) }
    ensures literals { OnOk result (literals.new ≡ literals.old ++ literals_of opened.entry) }
{
    match opened {
        Opened::Literal(literal) => {
            literals.push(literal)?;
            Ok(())
        }
        Opened::One(placed) => {
            tasks.push(Task { placed, point })?;
            Ok(())
        }
        Opened::Two(first, second) => {
            let both = [
                Task {
                    placed: second,
                    point,
                },
                Task {
                    placed: first,
                    point,
                },
            ];
            tasks.extend_from_slice(&both)?;
            Ok(())
        }
    }
}

fn logic_of(problem: &SizedProblem) -> Logic
    ensures { result ≡ problem.now.setting.logic }
{
    problem.setting().logic()
}

// The whole formula at the root.
fn root<'p>(problem: &'p SizedProblem) -> Task<'p>
    ensures root { (ls : List GroundList) → the_part ls empty_way result.placed ≡ root_part problem.now }
    ensures fits { IsFit result.placed }
    ensures point { result.point ≡ point_of empty_way }
{
    Task {
        placed: PlacedPart {
            part: problem.whole(),
            position: 0,
        },
        point: root_point(),
    }
}

// Whether no side and no value is left.
#[tactic(auto, using(tableau_core::proofs::Numbered::LabelLaws::used_up))]
fn is_used_up(rest: Supply) -> bool
    ensures { (ls : List GroundList) → result ≡ (is_empty (the_supply ls rest.entry).sides && is_empty (the_supply ls rest.entry).values) }
{
    rest.sides.is_empty() && rest.values.is_empty()
}

// What the part at the end of the way gives past its modal step, and the number of steps.
fn step_of<'p, 'v>(
    alloc: Global,
    problem: &SizedProblem,
    logic: Logic,
    table: &mut GroundTable,
    way: &mut Way,
    given: &GroundTable,
    placed: PlacedPart<'p>,
    supply: Supply<'v>,
) -> Result<Option<(Step<'p, 'v>, u64)>, NoMemory>
    requires fits { IsFit placed }
    requires way { IsNormalWay table.old (the_way way.old) }
    requires values { AreNormal given.now supply }
    requires grown { IsGrown given.now table.old }
    ensures { IfOk result (λ o. IsTaken problem.now logic given.now table.old table.new (the_way way.old) (the_way way.new) placed.entry supply.entry o) }
{
    match enter(table, way, logic, placed, given, supply)? {
        None => Ok(None),
        Some(entered) => {
            let opened = open_part(alloc, problem, table, way, given, placed, entered.supply)?;
            match opened {
                None => Ok(None),
                Some(step) => Ok(Some((step, entered.steps))),
            }
        }
    }
}

/// The walk through the whole formula. Its stack is on the heap.
pub fn gather(
    alloc: Global,
    problem: &SizedProblem,
    table: &mut GroundTable,
    given: &GroundTable,
    supply: Supply,
) -> Result<Option<Gathered>, NoMemory>
    requires values { AreNormal given.now supply }
    requires grown { IsGrown given.now table.old }
    ensures { IfOk result (λ o. IsGathered problem.now given.now table.old table.new supply.entry o) }
{
    let logic = logic_of(problem);
    let mut tasks = Vec::new(alloc);
    let mut way = Way::new(alloc);
    let first = root(problem);
    tasks.push(first)?;
    let mut literals = LiteralList::new(alloc);
    let mut allowed = true;
    let mut steps: u64 = 0;
    let mut rest = supply;
    while let Some(task) = tasks.pop() {
        way.cut(task.point);
        match step_of(
            alloc,
            problem,
            logic,
            table,
            &mut way,
            given,
            task.placed,
            rest,
        )? {
            None => return Ok(None),
            Some((step, more)) => {
                put(&mut tasks, &mut literals, step.opened, way.end())?;
                rest = step.supply;
                steps = steps.saturating_add(more);
                allowed &= step.allowed;
            }
        }
    }
    Ok(Some(Gathered {
        literals,
        allowed,
        steps,
        used_up: is_used_up(rest),
    }))
}
