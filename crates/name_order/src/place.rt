//! The positions of a problem's formula, each with the position of which it is a component.

ghost use Rattle.std.specs.Prelude.{◌≡◌, ◌+◌, ◌<◌, ◌^◌, ◌++◌, length, slice_get, IfOk};
ghost use Rattle.std.specs.Option.{option_map};
ghost use Rattle.calculus.specs.Positions.{size};
ghost use Rattle.formula_core.specs.FormulaView.{the_formula};
ghost use Rattle.name_order.specs.PlaceView.{the_place, the_places};
ghost use Rattle.name_order.specs.Places.{is_delta_in, is_pi_in, places, places_of};

use cop_base::NoMemory;
use formula_core::{Components, Sign, Signed};
use logic_rules::{Kind, Logic, ModalPart, Problem, Shape, kind_of};
use std::alloc::Global;

/// What stands at a position: the position above it, which the root lacks, and its kind.
#[derive(Clone, Copy)]
pub struct Place {
    pub above: Option<u32>,
    pub kind: Kind,
}

// Appends the positions of a signed formula. The number of those before them is its own position.
#[tactic(auto, using(crate::proofs::PlaceLaws::place_by_place))]
fn add_places(
    logic: Logic,
    whole: Signed,
    above: Option<u32>,
    list: &mut Vec<Place>,
) -> Result<(), NoMemory>
    requires small { length list.now.items + size (the_formula whole.formula.now) < 2 ^ 32 }
    ensures added { IfOk result (λ _. the_places list.new.items ≡ the_places list.old.items
        ++ places logic above (length list.old.items) whole.entry.sign (the_formula whole.entry.formula.now)) }
    ensures count { IfOk result (λ _. length list.new.items
        ≡ length list.old.items + size (the_formula whole.entry.formula.now)) }
{
    let position = Some(list.len() as u32);
    let kind = kind_of(logic, whole.sign, whole.formula);
    list.push(Place { above, kind })?;
    match whole.formula.components(whole.sign) {
        Components::Literal(_, _) => Ok(()),
        Components::One(a) => {
            add_places(logic, a, position, list)?;
            Ok(())
        }
        Components::Gamma(a) => {
            add_places(logic, a, position, list)?;
            Ok(())
        }
        Components::Delta(a) => {
            add_places(logic, a, position, list)?;
            Ok(())
        }
        Components::Alpha(a, b) => {
            add_places(logic, a, position, list)?;
            add_places(logic, b, position, list)?;
            Ok(())
        }
        Components::Beta(a, b) => {
            add_places(logic, a, position, list)?;
            add_places(logic, b, position, list)?;
            Ok(())
        }
    }
}

/// The positions of the problem's formula in preorder.
#[tactic(auto, using(crate::proofs::WalkSmall::small_problem))]
pub fn all_places(alloc: Global, problem: &Problem) -> Result<Vec<Place>, NoMemory>
    ensures { IfOk result (λ list. the_places list.items ≡ places_of problem.now) }
{
    let mut list = Vec::new(alloc);
    let whole = Signed {
        sign: Sign::F,
        formula: problem.formula(),
    };
    add_places(problem.setting().logic(), whole, None, &mut list)?;
    Ok(list)
}

/// What stands at the position, where there is one.
#[tactic(auto, using(crate::proofs::PlaceLaws::place_reads))]
pub fn place_at(list: &[Place], position: u32) -> Option<Place>
    ensures { option_map the_place result ≡ slice_get (the_places list.now) position }
{
    let position = position as usize;
    if position >= list.len() {
        return None;
    }
    Some(list[position])
}

/// Whether the position introduces an eigenvariable.
pub fn is_delta(list: &[Place], position: u32) -> bool
    ensures { result ≡ is_delta_in (the_places list.now) position }
{
    match place_at(list, position) {
        Some(place) => match place.kind.shape {
            Shape::Delta => true,
            Shape::Alpha | Shape::Beta | Shape::Gamma | Shape::Literal => false,
        },
        None => false,
    }
}

/// Whether the position introduces a character.
pub fn is_pi(list: &[Place], position: u32) -> bool
    ensures { result ≡ is_pi_in (the_places list.now) position }
{
    match place_at(list, position) {
        Some(place) => match place.kind.modal {
            ModalPart::Pi => true,
            ModalPart::Plain | ModalPart::Nu => false,
        },
        None => false,
    }
}
