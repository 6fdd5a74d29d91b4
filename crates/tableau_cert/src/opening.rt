//! What a part of an instance gives past its modal step.

ghost use Rattle.std.specs.Prelude.{◌≡◌, ℕ, false, ◌∷◌, ◌+◌, ◌<◌, ◌≤◌, [], length, map, suc, List, IfOk, MatchOption};
ghost use Rattle.calculus.specs.ComputedInstances.{at_one, at_quantifier, at_two, part_of};
ghost use Rattle.calculus.specs.Kinds.{components, shape_of};
ghost use Rattle.calculus.specs.Lists.{terms_tree};
ghost use Rattle.calculus.specs.Positions.{size};
ghost use Rattle.calculus.specs.Skolem.{is_allowed};
ghost use Rattle.calculus.specs.Syntax as tree;
ghost use Rattle.calculus.specs.declared.kind.Shape.TheVariants as shape;
ghost use Rattle.calculus.specs.declared.setting.Logic.{Logic};
ghost use Rattle.formula_core.specs.FormulaView.{the_formula};
ghost use Rattle.formula_core.specs.GroundLists.{GroundList, IsGrown, no_list, the_g_term, the_value};
ghost use Rattle.formula_core.specs.declared.ground.Value.TheVariants as value;
ghost use Rattle.tableau_core.specs.Walks.{at_atom, shaped_by, starts_with_term};
ghost use Rattle.tableau_cert.specs.Gathering.{AreNormal, IsOpened};
ghost use Rattle.tableau_cert.specs.WayView.{IsNormalWay, WayLists, the_label, the_way};

use crate::grounding::ground_terms;
use crate::stepping::{inside_delta, inside_gamma};
use crate::task::{Opened, PlacedPart, Step, Supply};
use crate::way::Way;
use calculus::sign::Side;
use cop_base::{NoMemory, SymbolId};
use formula_core::{GroundTable, GroundTerm, Sign, Terms, Value};
use std::alloc::Global;
use tableau_core::{
    GroundLiteral, Part, Parts, SizedProblem, components_of, given as given_marks, is_allowed,
};

// The term that comes first, and the values after it.
#[derive(Clone, Copy)]
struct NextTerm<'v> {
    term: GroundTerm,
    after: &'v [Value],
}

fn next_term(values: &[Value]) -> Option<NextTerm>
    ensures { MatchOption result ((ls : List GroundList) → starts_with_term (map (the_value ls) values.now) ≡ false)
        (λ n. values.now ≡ value.Term n.term ∷ n.after.now) }
{
    match values.split_first() {
        None => None,
        Some((value, after)) => match value {
            Value::Term(term) => Some(NextTerm { term: *term, after }),
            Value::Steps(_) => None,
        },
    }
}

// The side that comes first, and those after it.
#[derive(Clone, Copy)]
struct NextSide<'v> {
    side: Side,
    after: &'v [Side],
}

fn next_side(sides: &[Side]) -> Option<NextSide>
    ensures { MatchOption result (sides.now ≡ []) (λ n. sides.now ≡ n.side ∷ n.after.now) }
{
    match sides.split_first() {
        None => None,
        Some((side, after)) => Some(NextSide { side: *side, after }),
    }
}

fn open_literal<'p, 'v>(
    alloc: Global,
    table: &mut GroundTable,
    way: &mut Way,
    sign: Sign,
    symbol: SymbolId,
    args: &Terms,
    supply: Supply<'v>,
) -> Result<Option<Step<'p, 'v>>, NoMemory>
    requires way { IsNormalWay table.old (the_way way.old) }
    requires most { length table.old ≤ no_list }
    ensures { (P : tree.Problem) (l : Logic) (given : List GroundList) (position : ℕ) → AreNormal given supply.entry
        → IfOk result (λ o. IsOpened P l given table.old table.new (the_way way.old) (the_way way.new) (at_atom sign (tree.atom symbol.0 (terms_tree args.now))) 1 position supply.entry o) }
{
    let args = ground_terms(alloc, table, &way.bindings, args)?;
    let label = way.label_in(table)?;
    let literal = GroundLiteral {
        sign,
        symbol,
        args,
        label,
    };
    Ok(Some(Step {
        opened: Opened::Literal(literal),
        allowed: true,
        supply,
    }))
}

// The one component.
fn open_one<'p, 'v>(part: Part<'p>, position: u32, supply: Supply<'v>) -> Option<Step<'p, 'v>>
    requires { position + suc (size (the_formula part.formula.now)) < 4294967296 }
    ensures { (P : tree.Problem) (l : Logic) (given ls : List GroundList) (w : WayLists) → AreNormal given supply.entry → IsNormalWay ls w → IsGrown given ls
        → IsOpened P l given ls ls w w (at_one (part_of l (the_formula part.entry.formula.now) part.entry.sign)) (suc (size (the_formula part.entry.formula.now))) position supply.entry result }
{
    Some(Step {
        opened: Opened::One(PlacedPart {
            part,
            position: position + 1,
        }),
        allowed: true,
        supply,
    })
}

// Alpha follows the side that comes first.
fn open_alpha<'p, 'v>(
    a: Part<'p>,
    b: Part<'p>,
    position: u32,
    supply: Supply<'v>,
) -> Option<Step<'p, 'v>>
    requires { position + suc (size (the_formula a.formula.now) + size (the_formula b.formula.now)) < 4294967296 }
    ensures { (P : tree.Problem) (l : Logic) (given ls : List GroundList) (w : WayLists) → AreNormal given supply.entry → IsNormalWay ls w → IsGrown given ls
        → IsOpened P l given ls ls w w (at_two shape.Alpha (size (the_formula a.entry.formula.now)) (part_of l (the_formula a.entry.formula.now) a.entry.sign) (part_of l (the_formula b.entry.formula.now) b.entry.sign))
        (suc (size (the_formula a.entry.formula.now) + size (the_formula b.entry.formula.now))) position supply.entry result }
{
    match next_side(supply.sides) {
        None => None,
        Some(next) => {
            let rest = Supply {
                sides: next.after,
                values: supply.values,
            };
            match next.side {
                Side::Left => Some(Step {
                    opened: Opened::One(PlacedPart {
                        part: a,
                        position: position + 1,
                    }),
                    allowed: true,
                    supply: rest,
                }),
                Side::Right => {
                    let further = a.size() + 1;
                    Some(Step {
                        opened: Opened::One(PlacedPart {
                            part: b,
                            position: position + further,
                        }),
                        allowed: true,
                        supply: rest,
                    })
                }
            }
        }
    }
}

// Beta has both components, which share the label's number.
fn open_beta<'p, 'v>(
    table: &mut GroundTable,
    way: &mut Way,
    a: Part<'p>,
    b: Part<'p>,
    position: u32,
    supply: Supply<'v>,
) -> Result<Option<Step<'p, 'v>>, NoMemory>
    requires fits { position + suc (size (the_formula a.formula.now) + size (the_formula b.formula.now)) < 4294967296 }
    requires way { IsNormalWay table.old (the_way way.old) }
    requires most { length table.old ≤ no_list }
    ensures { (P : tree.Problem) (l : Logic) (given : List GroundList) → AreNormal given supply.entry
        → IfOk result (λ o. IsOpened P l given table.old table.new (the_way way.old) (the_way way.new) (at_two shape.Beta (size (the_formula a.entry.formula.now)) (part_of l (the_formula a.entry.formula.now) a.entry.sign) (part_of l (the_formula b.entry.formula.now) b.entry.sign))
        (suc (size (the_formula a.entry.formula.now) + size (the_formula b.entry.formula.now))) position supply.entry o) }
{
    let _shared = way.label_in(table)?;
    let further = a.size() + 1;
    Ok(Some(Step {
        opened: Opened::Two(
            PlacedPart {
                part: a,
                position: position + 1,
            },
            PlacedPart {
                part: b,
                position: position + further,
            },
        ),
        allowed: true,
        supply,
    }))
}

// Whether the term may stand at the label at the end of the way.
fn is_allowed_at(
    alloc: Global,
    problem: &SizedProblem,
    table: &GroundTable,
    way: &Way,
    term: GroundTerm,
) -> Result<bool, NoMemory>
    requires { IsNormalWay table.now (the_way way.now) }
    ensures { IfOk result (λ b. b ≡ is_allowed problem.now (the_label table.now (the_way way.now)) (the_g_term table.now term)) }
{
    let label = given_marks(alloc, &way.marks[way.start..])?;
    let allowed = is_allowed(alloc, problem, table, &label, term)?;
    Ok(allowed)
}

// Gamma takes the term that comes first.
fn open_gamma<'p, 'v>(
    alloc: Global,
    problem: &SizedProblem,
    table: &GroundTable,
    way: &mut Way,
    given: &GroundTable,
    a: PlacedPart<'p>,
    supply: Supply<'v>,
) -> Result<Option<Step<'p, 'v>>, NoMemory>
    requires fits { a.position + suc (size (the_formula a.part.formula.now)) < 4294967296 }
    requires way { IsNormalWay table.now (the_way way.old) }
    requires values { AreNormal given.now supply }
    requires grown { IsGrown given.now table.now }
    ensures { (l : Logic) → IfOk result (λ o. IsOpened problem.now l given.now table.now table.now (the_way way.old) (the_way way.new) (at_quantifier shape.Gamma (part_of l (the_formula a.entry.part.formula.now) a.entry.part.sign)) (suc (size (the_formula a.entry.part.formula.now))) a.entry.position supply.entry o) }
{
    match next_term(supply.values) {
        None => Ok(None),
        Some(next) => {
            let allowed = is_allowed_at(alloc, problem, table, way, next.term)?;
            inside_gamma(way, next.term)?;
            Ok(Some(Step {
                opened: Opened::One(PlacedPart {
                    part: a.part,
                    position: a.position + 1,
                }),
                allowed,
                supply: Supply {
                    sides: supply.sides,
                    values: next.after,
                },
            }))
        }
    }
}

// Delta puts the eigenvariable of its position.
fn open_delta<'p, 'v>(
    table: &mut GroundTable,
    way: &mut Way,
    a: Part<'p>,
    position: u32,
    supply: Supply<'v>,
) -> Result<Option<Step<'p, 'v>>, NoMemory>
    requires fits { position + suc (size (the_formula a.formula.now)) < 4294967296 }
    requires way { IsNormalWay table.old (the_way way.old) }
    ensures { (P : tree.Problem) (l : Logic) (given : List GroundList) → AreNormal given supply.entry
        → IfOk result (λ o. IsOpened P l given table.old table.new (the_way way.old) (the_way way.new) (at_quantifier shape.Delta (part_of l (the_formula a.entry.formula.now) a.entry.sign)) (suc (size (the_formula a.entry.formula.now))) position supply.entry o) }
{
    inside_delta(table, way, position)?;
    Ok(Some(Step {
        opened: Opened::One(PlacedPart {
            part: a,
            position: position + 1,
        }),
        allowed: true,
        supply,
    }))
}

/// What the part at the end of the way gives; nothing where a side or a term is missing.
pub fn open_part<'p, 'v>(
    alloc: Global,
    problem: &SizedProblem,
    table: &mut GroundTable,
    way: &mut Way,
    given: &GroundTable,
    placed: PlacedPart<'p>,
    supply: Supply<'v>,
) -> Result<Option<Step<'p, 'v>>, NoMemory>
    requires fits { placed.position + size (the_formula placed.part.formula.now) < 4294967296 }
    requires way { IsNormalWay table.old (the_way way.old) }
    requires values { AreNormal given.now supply }
    requires grown { IsGrown given.now table.old }
    ensures { (l : Logic) → IfOk result (λ o. IsOpened problem.now l given.now table.old table.new (the_way way.old) (the_way way.new)
        (shaped_by l (shape_of placed.entry.part.sign (the_formula placed.entry.part.formula.now)) (components placed.entry.part.sign (the_formula placed.entry.part.formula.now))) (size (the_formula placed.entry.part.formula.now)) placed.entry.position supply.entry o) }
{
    let position = placed.position;
    match components_of(placed.part) {
        Parts::Literal(symbol, args) => {
            let sign = placed.part.sign;
            let step = open_literal(alloc, table, way, sign, symbol, args, supply)?;
            Ok(step)
        }
        Parts::One(a) => Ok(open_one(a, position, supply)),
        Parts::Alpha(a, b) => Ok(open_alpha(a, b, position, supply)),
        Parts::Beta(a, b) => {
            let step = open_beta(table, way, a, b, position, supply)?;
            Ok(step)
        }
        Parts::Gamma(part) => {
            let a = PlacedPart { part, position };
            let step = open_gamma(alloc, problem, table, way, given, a, supply)?;
            Ok(step)
        }
        Parts::Delta(a) => {
            let step = open_delta(table, way, a, position, supply)?;
            Ok(step)
        }
    }
}
