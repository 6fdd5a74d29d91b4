//! The homes of eigenvariables: the labels at their positions by the values in their names.

ghost use Rattle.std.specs.Prelude.{◌≡◌, ℕ, ◌<◌, ◌≤◌, ◌+◌, ◌^◌, List, [], map, drop, length, IfOk, IfSome};
ghost use Rattle.std.specs.Option.{option_map, option_map_or};
ghost use Rattle.calculus.specs.Ground as tree;
ghost use Rattle.calculus.specs.Kinds.{shape_of};
ghost use Rattle.calculus.specs.Labels.{nu_label};
ghost use Rattle.calculus.specs.Positions.{size, way_from};
ghost use Rattle.calculus.specs.Skolem.{after_shape, label_along, label_of, take_string, take_term};
ghost use Rattle.calculus.specs.declared.setting.Logic.{Logic as TheLogic};
ghost use Rattle.formula_core.specs.FormulaView.{the_formula};
ghost use Rattle.tableau_core.specs.Reaching.{reach, rest_of};
ghost use Rattle.formula_core.specs.GroundLists.{GroundList, the_marks, the_value};
ghost use Rattle.tableau_core.specs.Numbered.SpotView.{the_mark_at};

use crate::part::Part;
use crate::references::{copy_label, with_mark, with_string};
use crate::sized::SizedProblem;
use crate::spot::MarkAt;
use crate::way::towards;
use cop_base::{NoMemory, PosId};
use formula_core::{GroundLabel, GroundTable, Value};
use logic_rules::{Logic, ModalPart, Shape, kind_of};
use std::alloc::Global;

// The string at a place of the values.
fn string_at(table: &GroundTable, values: &[Value], place: usize) -> Option<GroundLabel>
    ensures found { (l : TheLogic) (w : List tree.GroundMark) →
        option_map (λ s. reach (nu_label l w (the_marks table.now s)) (map (the_value table.now) values.now) (place + 1)) result
        ≡ take_string l (reach w (map (the_value table.now) values.now) place) (drop place (map (the_value table.now) values.now)) }
    ensures within { IfSome result (λ s. place < length values.now) }
{
    if place >= values.len() {
        return None;
    }
    let value = &values[place];
    match value {
        Value::Steps(string) => Some(*string),
        Value::Term(_) => None,
    }
}

// How many values are taken once a term is, where one stands at the place.
fn past_term(table: &GroundTable, values: &[Value], place: usize) -> Option<usize>
    ensures found { (w : List tree.GroundMark) → option_map (reach w (map (the_value table.now) values.now)) result
        ≡ take_term (reach w (map (the_value table.now) values.now) place) (drop place (map (the_value table.now) values.now)) }
    ensures within { IfSome result (λ next. next ≤ length values.now) }
{
    if place >= values.len() {
        return None;
    }
    let value = &values[place];
    match value {
        Value::Term(_) => Some(place + 1),
        Value::Steps(_) => None,
    }
}

// How many values are taken past the shape's part.
fn past_shape(table: &GroundTable, shape: Shape, values: &[Value], place: usize) -> Option<usize>
    requires { place ≤ length values.now }
    ensures found { (w : List tree.GroundMark) → option_map (reach w (map (the_value table.now) values.now)) result
        ≡ after_shape shape (reach w (map (the_value table.now) values.now) place) }
    ensures within { IfSome result (λ next. next ≤ length values.now) }
{
    match shape {
        Shape::Gamma => past_term(table, values, place),
        Shape::Alpha | Shape::Beta | Shape::Delta | Shape::Literal => Some(place),
    }
}

// The label at a place below a signed formula, which stands at `position`; `taken` of the values are
// those of the positions before it.
#[cycle(home)]
fn home_below<'a>(
    alloc: Global,
    table: &GroundTable,
    logic: Logic,
    part: Part,
    place: u32,
    position: u32,
    values: &'a [Value],
    taken: usize,
    label: &[MarkAt<'a>],
) -> Result<Vec<MarkAt<'a>>, NoMemory>
    requires small { position + size (the_formula part.formula.now) < 2 ^ 32 }
    requires inside { place < size (the_formula part.formula.now) }
    requires taken { taken ≤ length values.now }
    ensures { IfOk result (λ w. map (the_mark_at table.now) w.items
        ≡ label_along logic (way_from position part.entry.sign (the_formula part.entry.formula.now) place)
        (reach (map (the_mark_at table.now) label.now) (map (the_value table.now) values.now) taken)) }
{
    match kind_of(logic, part.sign, part.formula).modal {
        ModalPart::Plain => {
            let w = home_shape(
                alloc, table, logic, part, place, position, values, taken, label, label,
            )?;
            Ok(w)
        }
        ModalPart::Nu => match string_at(table, values, taken) {
            None => {
                let w = copy_label(alloc, label)?;
                Ok(w)
            }
            Some(string) => {
                let moved = with_string(alloc, logic, label, table.marks(string))?;
                let w = home_shape(
                    alloc,
                    table,
                    logic,
                    part,
                    place,
                    position,
                    values,
                    taken + 1,
                    &moved,
                    label,
                )?;
                Ok(w)
            }
        },
        ModalPart::Pi => {
            let mark = MarkAt::Made(PosId(position), &values[..taken]);
            let moved = with_mark(alloc, logic, label, mark)?;
            let w = home_shape(
                alloc, table, logic, part, place, position, values, taken, &moved, label,
            )?;
            Ok(w)
        }
    }
}

// The same once the modal part has led from the label `before` to this one.
#[cycle(home)]
fn home_shape<'a>(
    alloc: Global,
    table: &GroundTable,
    logic: Logic,
    part: Part,
    place: u32,
    position: u32,
    values: &'a [Value],
    taken: usize,
    label: &[MarkAt<'a>],
    before: &[MarkAt<'a>],
) -> Result<Vec<MarkAt<'a>>, NoMemory>
    requires small { position + size (the_formula part.formula.now) < 2 ^ 32 }
    requires inside { place < size (the_formula part.formula.now) }
    requires taken { taken ≤ length values.now }
    ensures { IfOk result (λ w. map (the_mark_at table.now) w.items
        ≡ option_map_or (label_along logic (rest_of (way_from position part.entry.sign (the_formula part.entry.formula.now) place)))
        (after_shape (shape_of part.entry.sign (the_formula part.entry.formula.now))
        (reach (map (the_mark_at table.now) label.now) (map (the_value table.now) values.now) taken))
        (map (the_mark_at table.now) before.now)) }
{
    let shape = part.formula.components(part.sign).shape();
    let Some(past) = past_shape(table, shape, values, taken) else {
        let w = copy_label(alloc, before)?;
        return Ok(w);
    };
    if place == 0 {
        let w = copy_label(alloc, label)?;
        return Ok(w);
    }
    let next = towards(part, place);
    let w = home_below(
        alloc,
        table,
        logic,
        next.part,
        next.place,
        position + next.further,
        values,
        past,
        label,
    )?;
    Ok(w)
}

/// The home of the eigenvariable of this position and these values.
pub fn eigen_home<'a>(
    alloc: Global,
    problem: &SizedProblem,
    table: &GroundTable,
    p: PosId,
    values: &'a [Value],
) -> Result<Vec<MarkAt<'a>>, NoMemory>
    ensures { IfOk result (λ w. map (the_mark_at table.now) w.items ≡ label_of problem.now p.0 (map (the_value table.now) values.now)) }
{
    let whole = problem.whole();
    let root = Vec::new(alloc);
    if p.0 >= whole.size() {
        return Ok(root);
    }
    let logic = problem.setting().logic();
    let w = home_below(alloc, table, logic, whole, p.0, 0, values, 0, &root)?;
    Ok(w)
}
