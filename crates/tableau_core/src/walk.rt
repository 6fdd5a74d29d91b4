//! A walk through an instance: what the problem's formula gives by its sides and values, against its
//! literals.

ghost use Rattle.std.specs.Prelude.{◌≡◌, false, ◌<◌, ◌+◌, ◌^◌, ◌∷◌, [], map, List, IfOk, MatchOption};
ghost use Rattle.std.specs.Option.{option_map};
ghost use Rattle.calculus.specs.ComputedInstances.{at_modal, at_quantifier, at_two, part_of};
ghost use Rattle.calculus.specs.Equality.{literal_eq};
ghost use Rattle.calculus.specs.Ground as tree;
ghost use Rattle.calculus.specs.Instances.{down_by};
ghost use Rattle.calculus.specs.Kinds.{components, shape_of};
ghost use Rattle.calculus.specs.Lists.{terms_tree};
ghost use Rattle.calculus.specs.Positions.{size};
ghost use Rattle.calculus.specs.Syntax as problem_tree;
ghost use Rattle.calculus.specs.declared.kind.ModalPart.TheVariants as modal;
ghost use Rattle.calculus.specs.declared.kind.Shape.TheVariants as shape;
ghost use Rattle.formula_core.specs.FormulaView.{the_formula};
ghost use Rattle.formula_core.specs.GroundLists.{GroundList, the_value};
ghost use Rattle.formula_core.specs.declared.ground.Value.TheVariants as value;
ghost use Rattle.tableau_core.specs.Numbered.InstanceView.{the_instance};
ghost use Rattle.tableau_core.specs.Numbered.LiteralView.{the_literal};
ghost use Rattle.tableau_core.specs.Numbered.Known.{AreAllAdmitted};
ghost use Rattle.tableau_core.specs.Numbered.WalkView.{the_left, the_spot};
ghost use Rattle.tableau_core.specs.Walks.{finished, is_used_up, steps_if_allowed, at_atom, left, literal_at, starts_with_string, starts_with_term, shaped_by};

use crate::admission::are_known_values;
use crate::allowance::is_allowed;
use crate::instance::ClauseInstance;
use crate::literal::GroundLiteral;
use crate::part::Part;
use crate::parts::{Parts, components_of};
use crate::pattern::are_instances;
use crate::references::{with_bound, with_mark, with_string, with_value};
use crate::sized::SizedProblem;
use crate::spot::{Bound, MarkAt, is_label};
use calculus::sign::Side;
use cop_base::{NoMemory, PosId, SymbolId};
use formula_core::{GroundLabel, GroundTable, GroundTerm, Sign, Terms, Value};
use logic_rules::{Logic, ModalPart, kind_of};
use std::alloc::Global;

/// Where a part of an instance stands: its position, its label, the values taken on the way to it,
/// and the terms put for its variables, the innermost first.
#[derive(Clone, Copy)]
pub struct Spot<'a> {
    pub position: u32,
    pub label: &'a [MarkAt<'a>],
    pub taken: &'a [Value],
    pub env: &'a [Bound<'a>],
}

/// What is still to be used of an instance, and the number of its nu and pi steps so far, or the
/// largest number.
#[derive(Clone, Copy)]
pub struct Rest<'a> {
    pub sides: &'a [Side],
    pub values: &'a [Value],
    pub literals: &'a [GroundLiteral],
    pub steps: u64,
}

fn down_by<'a>(spot: &Spot<'a>, n: u32) -> Spot<'a>
    requires { spot.now.position + n < 2 ^ 32 }
    ensures { (ls : List GroundList) → the_spot ls result ≡ down_by n (the_spot ls spot.now) }
{
    Spot {
        position: spot.position + n,
        label: spot.label,
        taken: spot.taken,
        env: spot.env,
    }
}

// Whether this is the literal of an atom at the spot.
fn is_literal(
    table: &GroundTable,
    sign: Sign,
    p: SymbolId,
    args: &Terms,
    spot: &Spot,
    literal: GroundLiteral,
) -> bool
    ensures { result ≡ literal_eq (literal_at sign p.0 (terms_tree args.now) (the_spot table.now spot.now)) (the_literal table.now literal) }
{
    if !(sign == literal.sign) {
        return false;
    }
    if !(p == literal.symbol) {
        return false;
    }
    if !are_instances(table, spot.env, args, literal.args) {
        return false;
    }
    is_label(table, spot.label, table.marks(literal.label))
}

// What is left past the literal of an atom, where it comes next.
fn past_literal<'v>(
    table: &GroundTable,
    sign: Sign,
    p: SymbolId,
    args: &Terms,
    spot: &Spot,
    rest: &Rest<'v>,
) -> Option<Rest<'v>>
    ensures { (P : problem_tree.Problem) → option_map (the_left table.now) result
        ≡ left P (at_atom sign (problem_tree.atom p.0 (terms_tree args.now))) (the_spot table.now spot.now) (the_left table.now rest.now) }
{
    match rest.literals.split_first() {
        None => None,
        Some((literal, literals)) => {
            if !is_literal(table, sign, p, args, spot, *literal) {
                return None;
            }
            Some(Rest {
                sides: rest.sides,
                values: rest.values,
                literals,
                steps: rest.steps,
            })
        }
    }
}

// A string, and the values after it.
#[derive(Clone, Copy)]
struct NextString<'v> {
    string: GroundLabel,
    after: &'v [Value],
}

// A term, and the values after it.
#[derive(Clone, Copy)]
struct NextTerm<'v> {
    term: GroundTerm,
    after: &'v [Value],
}

fn next_string<'v>(table: &GroundTable, values: &'v [Value]) -> Option<NextString<'v>>
    ensures { MatchOption result (starts_with_string (map (the_value table.now) values.now) ≡ false)
        (λ n. values.now ≡ value.Steps n.string ∷ n.after.now) }
{
    match values.split_first() {
        None => None,
        Some((value, after)) => match value {
            Value::Steps(string) => Some(NextString {
                string: *string,
                after,
            }),
            Value::Term(_) => None,
        },
    }
}

fn next_term<'v>(table: &GroundTable, values: &'v [Value]) -> Option<NextTerm<'v>>
    ensures { MatchOption result (starts_with_term (map (the_value table.now) values.now) ≡ false)
        (λ n. values.now ≡ value.Term n.term ∷ n.after.now) }
{
    match values.split_first() {
        None => None,
        Some((value, after)) => match value {
            Value::Term(term) => Some(NextTerm { term: *term, after }),
            Value::Steps(_) => None,
        },
    }
}

// The first side and those after it.
fn next_side(sides: &[Side]) -> Option<(Side, &[Side])>
    ensures { MatchOption result (sides.now ≡ []) (λ next. sides.now ≡ next.0 ∷ next.1.now) }
{
    match sides.split_first() {
        None => None,
        Some((side, rest)) => Some((*side, rest)),
    }
}

// What is left of the instance past a signed formula at the spot, whose gamma terms are allowed.
#[cycle(walk)]
fn walk<'v>(
    alloc: Global,
    problem: &SizedProblem,
    table: &GroundTable,
    logic: Logic,
    a: Part,
    spot: &Spot,
    rest: &Rest<'v>,
) -> Result<Option<Rest<'v>>, NoMemory>
    requires { spot.now.position + size (the_formula a.formula.now) < 2 ^ 32 }
    ensures { IfOk result (λ o. option_map (the_left table.now) o
        ≡ left problem.now (part_of logic (the_formula a.entry.formula.now) a.entry.sign) (the_spot table.now spot.now) (the_left table.now rest.now)) }
{
    match kind_of(logic, a.sign, a.formula).modal {
        ModalPart::Plain => {
            let past = walk_shape(alloc, problem, table, logic, a, spot, rest)?;
            Ok(past)
        }
        ModalPart::Nu => {
            let past = walk_nu(alloc, problem, table, logic, a, spot, rest)?;
            Ok(past)
        }
        ModalPart::Pi => {
            let past = walk_pi(alloc, problem, table, logic, a, spot, rest)?;
            Ok(past)
        }
    }
}

// A nu part takes the next string.
#[cycle(walk)]
fn walk_nu<'v>(
    alloc: Global,
    problem: &SizedProblem,
    table: &GroundTable,
    logic: Logic,
    a: Part,
    spot: &Spot,
    rest: &Rest<'v>,
) -> Result<Option<Rest<'v>>, NoMemory>
    requires { spot.now.position + size (the_formula a.formula.now) < 2 ^ 32 }
    ensures { IfOk result (λ o. option_map (the_left table.now) o
        ≡ left problem.now (at_modal logic modal.Nu (shaped_by logic (shape_of a.entry.sign (the_formula a.entry.formula.now)) (components a.entry.sign (the_formula a.entry.formula.now)))) (the_spot table.now spot.now) (the_left table.now rest.now)) }
{
    match next_string(table, rest.values) {
        None => Ok(None),
        Some(found) => {
            let string = table.marks(found.string);
            if !logic.is_step_length(string.len()) {
                return Ok(None);
            }
            let label = with_string(alloc, logic, spot.label, string)?;
            let taken = with_value(alloc, spot.taken, Value::Steps(found.string))?;
            let next = Spot {
                position: spot.position,
                label: &label,
                taken: &taken,
                env: spot.env,
            };
            let more = Rest {
                sides: rest.sides,
                values: found.after,
                literals: rest.literals,
                steps: rest.steps.saturating_add(1),
            };
            let past = walk_shape(alloc, problem, table, logic, a, &next, &more)?;
            Ok(past)
        }
    }
}

// A pi part names a character.
#[cycle(walk)]
fn walk_pi<'v>(
    alloc: Global,
    problem: &SizedProblem,
    table: &GroundTable,
    logic: Logic,
    a: Part,
    spot: &Spot,
    rest: &Rest<'v>,
) -> Result<Option<Rest<'v>>, NoMemory>
    requires { spot.now.position + size (the_formula a.formula.now) < 2 ^ 32 }
    ensures { IfOk result (λ o. option_map (the_left table.now) o
        ≡ left problem.now (at_modal logic modal.Pi (shaped_by logic (shape_of a.entry.sign (the_formula a.entry.formula.now)) (components a.entry.sign (the_formula a.entry.formula.now)))) (the_spot table.now spot.now) (the_left table.now rest.now)) }
{
    let mark = MarkAt::Made(PosId(spot.position), spot.taken);
    let label = with_mark(alloc, logic, spot.label, mark)?;
    let next = Spot {
        position: spot.position,
        label: &label,
        taken: spot.taken,
        env: spot.env,
    };
    let more = Rest {
        sides: rest.sides,
        values: rest.values,
        literals: rest.literals,
        steps: rest.steps.saturating_add(1),
    };
    let past = walk_shape(alloc, problem, table, logic, a, &next, &more)?;
    Ok(past)
}

#[cycle(walk)]
fn walk_shape<'v>(
    alloc: Global,
    problem: &SizedProblem,
    table: &GroundTable,
    logic: Logic,
    a: Part,
    spot: &Spot,
    rest: &Rest<'v>,
) -> Result<Option<Rest<'v>>, NoMemory>
    requires { spot.now.position + size (the_formula a.formula.now) < 2 ^ 32 }
    ensures { IfOk result (λ o. option_map (the_left table.now) o
        ≡ left problem.now (shaped_by logic (shape_of a.entry.sign (the_formula a.entry.formula.now)) (components a.entry.sign (the_formula a.entry.formula.now))) (the_spot table.now spot.now) (the_left table.now rest.now)) }
{
    match components_of(a) {
        Parts::Literal(p, args) => Ok(past_literal(table, a.sign, p, args, spot, rest)),
        Parts::One(b) => {
            let past = walk(alloc, problem, table, logic, b, &down_by(spot, 1), rest)?;
            Ok(past)
        }
        Parts::Alpha(b, c) => {
            let past = walk_alpha(alloc, problem, table, logic, b, c, spot, rest)?;
            Ok(past)
        }
        Parts::Beta(b, c) => {
            let past = walk_beta(alloc, problem, table, logic, b, c, spot, rest)?;
            Ok(past)
        }
        Parts::Gamma(b) => {
            let past = walk_gamma(alloc, problem, table, logic, b, spot, rest)?;
            Ok(past)
        }
        Parts::Delta(b) => {
            let past = walk_delta(alloc, problem, table, logic, b, spot, rest)?;
            Ok(past)
        }
    }
}

// Alpha follows the next side.
#[cycle(walk)]
fn walk_alpha<'v>(
    alloc: Global,
    problem: &SizedProblem,
    table: &GroundTable,
    logic: Logic,
    a: Part,
    b: Part,
    spot: &Spot,
    rest: &Rest<'v>,
) -> Result<Option<Rest<'v>>, NoMemory>
    requires { spot.now.position + (size (the_formula a.formula.now) + size (the_formula b.formula.now) + 1) < 2 ^ 32 }
    ensures { IfOk result (λ o. option_map (the_left table.now) o
        ≡ left problem.now (at_two shape.Alpha (size (the_formula a.entry.formula.now)) (part_of logic (the_formula a.entry.formula.now) a.entry.sign) (part_of logic (the_formula b.entry.formula.now) b.entry.sign)) (the_spot table.now spot.now) (the_left table.now rest.now)) }
{
    match next_side(rest.sides) {
        None => Ok(None),
        Some((side, sides)) => {
            let more = Rest {
                sides,
                values: rest.values,
                literals: rest.literals,
                steps: rest.steps,
            };
            match side {
                Side::Left => {
                    let past = walk(alloc, problem, table, logic, a, &down_by(spot, 1), &more)?;
                    Ok(past)
                }
                Side::Right => {
                    let further = a.size() + 1;
                    let past = walk(
                        alloc,
                        problem,
                        table,
                        logic,
                        b,
                        &down_by(spot, further),
                        &more,
                    )?;
                    Ok(past)
                }
            }
        }
    }
}

// Beta has both components.
#[cycle(walk)]
fn walk_beta<'v>(
    alloc: Global,
    problem: &SizedProblem,
    table: &GroundTable,
    logic: Logic,
    a: Part,
    b: Part,
    spot: &Spot,
    rest: &Rest<'v>,
) -> Result<Option<Rest<'v>>, NoMemory>
    requires { spot.now.position + (size (the_formula a.formula.now) + size (the_formula b.formula.now) + 1) < 2 ^ 32 }
    ensures { IfOk result (λ o. option_map (the_left table.now) o
        ≡ left problem.now (at_two shape.Beta (size (the_formula a.entry.formula.now)) (part_of logic (the_formula a.entry.formula.now) a.entry.sign) (part_of logic (the_formula b.entry.formula.now) b.entry.sign)) (the_spot table.now spot.now) (the_left table.now rest.now)) }
{
    match walk(alloc, problem, table, logic, a, &down_by(spot, 1), rest)? {
        None => Ok(None),
        Some(more) => {
            let further = a.size() + 1;
            let past = walk(
                alloc,
                problem,
                table,
                logic,
                b,
                &down_by(spot, further),
                &more,
            )?;
            Ok(past)
        }
    }
}

// Gamma takes the next term.
#[cycle(walk)]
fn walk_gamma<'v>(
    alloc: Global,
    problem: &SizedProblem,
    table: &GroundTable,
    logic: Logic,
    a: Part,
    spot: &Spot,
    rest: &Rest<'v>,
) -> Result<Option<Rest<'v>>, NoMemory>
    requires { spot.now.position + (size (the_formula a.formula.now) + 1) < 2 ^ 32 }
    ensures { IfOk result (λ o. option_map (the_left table.now) o
        ≡ left problem.now (at_quantifier shape.Gamma (part_of logic (the_formula a.entry.formula.now) a.entry.sign)) (the_spot table.now spot.now) (the_left table.now rest.now)) }
{
    match next_term(table, rest.values) {
        None => Ok(None),
        Some(found) => {
            let allowed = is_allowed(alloc, problem, table, spot.label, found.term)?;
            if !allowed {
                return Ok(None);
            }
            let taken = with_value(alloc, spot.taken, Value::Term(found.term))?;
            let env = with_bound(alloc, Bound::Given(found.term), spot.env)?;
            let next = Spot {
                position: spot.position + 1,
                label: spot.label,
                taken: &taken,
                env: &env,
            };
            let more = Rest {
                sides: rest.sides,
                values: found.after,
                literals: rest.literals,
                steps: rest.steps,
            };
            let past = walk(alloc, problem, table, logic, a, &next, &more)?;
            Ok(past)
        }
    }
}

// Delta puts the eigenvariable of this position.
#[cycle(walk)]
fn walk_delta<'v>(
    alloc: Global,
    problem: &SizedProblem,
    table: &GroundTable,
    logic: Logic,
    a: Part,
    spot: &Spot,
    rest: &Rest<'v>,
) -> Result<Option<Rest<'v>>, NoMemory>
    requires { spot.now.position + (size (the_formula a.formula.now) + 1) < 2 ^ 32 }
    ensures { IfOk result (λ o. option_map (the_left table.now) o
        ≡ left problem.now (at_quantifier shape.Delta (part_of logic (the_formula a.entry.formula.now) a.entry.sign)) (the_spot table.now spot.now) (the_left table.now rest.now)) }
{
    let env = with_bound(
        alloc,
        Bound::Made(PosId(spot.position), spot.taken),
        spot.env,
    )?;
    let next = Spot {
        position: spot.position + 1,
        label: spot.label,
        taken: spot.taken,
        env: &env,
    };
    let past = walk(alloc, problem, table, logic, a, &next, rest)?;
    Ok(past)
}

#[tactic(auto, using(crate::proofs::Numbered::LabelLaws::used_up))]
fn is_used_up(table: &GroundTable, rest: &Rest) -> bool
    ensures { result ≡ is_used_up (the_left table.now rest.now) }
{
    rest.sides.is_empty() && rest.values.is_empty() && rest.literals.is_empty()
}

// The number of steps, where nothing is left.
fn finished(table: &GroundTable, left: Option<Rest>) -> Option<u64>
    ensures { result ≡ finished (option_map (the_left table.now) left.entry) }
{
    match left {
        None => None,
        Some(rest) => {
            if is_used_up(table, &rest) {
                Some(rest.steps)
            } else {
                None
            }
        }
    }
}

/// The number of nu and pi steps of an instance that is allowed, or the largest number where there
/// are more.
pub fn steps_if_allowed(
    alloc: Global,
    problem: &SizedProblem,
    table: &GroundTable,
    admitted: &[bool],
    instance: &ClauseInstance,
) -> Result<Option<u64>, NoMemory>
    requires { AreAllAdmitted problem.now table.now admitted.now }
    ensures { IfOk result (λ o. o ≡ steps_if_allowed problem.now (the_instance table.now instance.now)) }
{
    if !are_known_values(table, admitted, instance.values) {
        return Ok(None);
    }
    let label = Vec::new(alloc);
    let taken = Vec::new(alloc);
    let env = Vec::new(alloc);
    let root = Spot {
        position: 0,
        label: &label,
        taken: &taken,
        env: &env,
    };
    let rest = Rest {
        sides: instance.selection.items(),
        values: table.values(instance.values),
        literals: instance.literals.items(),
        steps: 0,
    };
    let logic = problem.setting().logic();
    let left = walk(alloc, problem, table, logic, problem.whole(), &root, &rest)?;
    let steps = finished(table, left);
    Ok(steps)
}
