//! The values that are those of a name.

ghost use Rattle.std.specs.Prelude.{◌≡◌, ℕ, ◌<◌, ◌^◌, map, ◌≤◌, ◌+◌, ◌∷◌, []};
ghost use Rattle.std.specs.Option.{option_map};
ghost use Rattle.calculus.specs.Positions.{size, way_from};
ghost use Rattle.calculus.specs.Skolem.{way_to};
ghost use Rattle.formula_core.specs.FormulaView.{the_formula};
ghost use Rattle.formula_core.specs.GroundLists.{the_value};
ghost use Rattle.tableau_core.specs.Fitting.{is_made, past_modal, past_node, past_shape, past_string, past_term, is_maker};
ghost use Rattle.tableau_core.specs.Numbered.SpotView.{values_left};
ghost use Rattle.calculus.specs.Kinds.{components};
ghost use Rattle.tableau_core.specs.InsideView.{LeadsOn, the_inside};
ghost use Rattle.tableau_core.specs.PartView.{the_part};

use crate::part::Part;
use crate::parts::{Parts, components_of};
use crate::sized::SizedProblem;
use cop_base::PosId;
use formula_core::{GroundTable, Value};
use logic_rules::{Kind, Logic, ModalPart, Shape, kind_of};

/// What makes a name: a delta position an eigenvariable, a pi position a character.
#[derive(Clone, Copy)]
pub enum Maker {
    Delta,
    Pi,
}

/// The component on the way to a place below a part: how many positions further it stands, and the
/// place from there.
#[derive(Clone, Copy)]
pub struct Inside<'a> {
    pub part: Part<'a>,
    pub further: u32,
    pub place: u32,
}

/// Whether a position of this kind makes such names.
pub fn is_maker(maker: Maker, kind: Kind) -> bool
    ensures { result ≡ is_maker maker kind.modal kind.shape }
{
    match maker {
        Maker::Delta => kind.shape == Shape::Delta,
        Maker::Pi => kind.modal == ModalPart::Pi,
    }
}

#[tactic(auto, using(crate::proofs::WayLaws::inside))]
fn in_only(a: Part, place: u32) -> Inside
    requires place { 0 < place }
    requires inside { place ≤ size (the_formula a.formula.now) }
    ensures leads { LeadsOn place (the_part a.entry ∷ []) (the_inside result) }
    ensures part { result.further + size (the_formula result.part.formula.now)
        ≤ size (the_formula a.entry.formula.now) + 1 }
    ensures step { 0 < result.further }
{
    Inside {
        part: a,
        further: 1,
        place: place - 1,
    }
}

#[tactic(auto, using(crate::proofs::WayLaws::inside))]
fn in_two<'a>(a: Part<'a>, b: Part<'a>, place: u32) -> Inside<'a>
    requires place { 0 < place }
    requires inside { place ≤ size (the_formula a.formula.now) + size (the_formula b.formula.now) }
    requires small { size (the_formula a.formula.now) + size (the_formula b.formula.now) + 1 < 2 ^ 32 }
    ensures leads { LeadsOn place (the_part a.entry ∷ the_part b.entry ∷ []) (the_inside result) }
    ensures part { result.further + size (the_formula result.part.formula.now)
        ≤ size (the_formula a.entry.formula.now) + size (the_formula b.entry.formula.now) + 1 }
    ensures step { 0 < result.further }
{
    let first = a.size();
    if place <= first {
        return in_only(a, place);
    }
    Inside {
        part: b,
        further: first + 1,
        place: place - 1 - first,
    }
}

/// The component on the way to a place below a part.
#[tactic(auto, using(crate::proofs::WayLaws::inside))]
pub fn towards(whole: Part, place: u32) -> Inside
    requires small { size (the_formula whole.formula.now) < 2 ^ 32 }
    requires place { 0 < place }
    requires inside { place < size (the_formula whole.formula.now) }
    ensures leads { LeadsOn place
        (components whole.entry.sign (the_formula whole.entry.formula.now)) (the_inside result) }
    ensures part { result.further + size (the_formula result.part.formula.now)
        ≤ size (the_formula whole.entry.formula.now) }
    ensures smaller { size (the_formula result.part.formula.now)
        < size (the_formula whole.entry.formula.now) }
{
    match components_of(whole) {
        Parts::Literal(_, _) => unreachable!(),
        Parts::One(a) => in_only(a, place),
        Parts::Gamma(a) => in_only(a, place),
        Parts::Delta(a) => in_only(a, place),
        Parts::Alpha(a, b) => in_two(a, b, place),
        Parts::Beta(a, b) => in_two(a, b, place),
    }
}

fn past_string<'v>(table: &GroundTable, logic: Logic, values: &'v [Value]) -> Option<&'v [Value]>
    ensures { option_map (values_left table.now) result ≡ past_string logic (map (the_value table.now) values.now) }
{
    match values.split_first() {
        Some((Value::Steps(string), rest)) => {
            if logic.is_step_length(table.marks(*string).len()) {
                Some(rest)
            } else {
                None
            }
        }
        Some((Value::Term(_), _)) | None => None,
    }
}

fn past_modal<'v>(
    table: &GroundTable,
    logic: Logic,
    modal: ModalPart,
    values: &'v [Value],
) -> Option<&'v [Value]>
    ensures { option_map (values_left table.now) result ≡ past_modal logic modal (map (the_value table.now) values.now) }
{
    match modal {
        ModalPart::Nu => past_string(table, logic, values),
        ModalPart::Plain | ModalPart::Pi => Some(values),
    }
}

fn past_term<'v>(table: &GroundTable, values: &'v [Value]) -> Option<&'v [Value]>
    ensures { option_map (values_left table.now) result ≡ past_term (map (the_value table.now) values.now) }
{
    match values.split_first() {
        Some((Value::Term(_), rest)) => Some(rest),
        Some((Value::Steps(_), _)) | None => None,
    }
}

fn past_shape<'v>(table: &GroundTable, shape: Shape, values: &'v [Value]) -> Option<&'v [Value]>
    ensures { option_map (values_left table.now) result ≡ past_shape shape (map (the_value table.now) values.now) }
{
    match shape {
        Shape::Gamma => past_term(table, values),
        Shape::Alpha | Shape::Beta | Shape::Delta | Shape::Literal => Some(values),
    }
}

// The values left past a position of this kind.
fn past_node<'v>(
    table: &GroundTable,
    logic: Logic,
    kind: Kind,
    values: &'v [Value],
) -> Option<&'v [Value]>
    ensures { option_map (values_left table.now) result
        ≡ past_node logic kind.modal kind.shape (map (the_value table.now) values.now) }
{
    match past_modal(table, logic, kind.modal, values) {
        None => None,
        Some(rest) => past_shape(table, kind.shape, rest),
    }
}

// The same below a part, at a place from there.
#[tactic(auto, using(crate::proofs::WayLaws::made))]
fn is_made_below(
    table: &GroundTable,
    maker: Maker,
    logic: Logic,
    part: Part,
    place: u32,
    values: &[Value],
) -> bool
    requires small { size (the_formula part.formula.now) < 2 ^ 32 }
    requires inside { place < size (the_formula part.formula.now) }
    ensures { (q : ℕ) → result
        ≡ is_made maker logic (way_from q part.entry.sign (the_formula part.entry.formula.now) place)
        (map (the_value table.now) values.now) }
{
    let kind = kind_of(logic, part.sign, part.formula);
    let Some(rest) = past_node(table, logic, kind, values) else {
        return false;
    };
    if place == 0 {
        return is_maker(maker, kind) && rest.is_empty();
    }
    let next = towards(part, place);
    is_made_below(table, maker, logic, next.part, next.place, rest)
}

/// Whether a name of this position has these values.
pub fn is_made(
    problem: &SizedProblem,
    table: &GroundTable,
    maker: Maker,
    p: PosId,
    values: &[Value],
) -> bool
    ensures { result
        ≡ is_made maker problem.now.setting.logic (way_to problem.now p.0) (map (the_value table.now) values.now) }
{
    let whole = problem.whole();
    if p.0 >= whole.size() {
        return false;
    }
    is_made_below(table, maker, problem.setting().logic(), whole, p.0, values)
}
