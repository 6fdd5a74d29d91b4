//! Past the modal part of a signed formula.

ghost use Rattle.std.specs.Prelude.{◌≡◌, ◌∷◌, List, IfOk, map};
ghost use Rattle.conversion_theory.specs.Branches.{past_modal, past_string};
ghost use Rattle.calculus.specs.declared.kind.ModalPart.TheVariants.{Pi};
ghost use Rattle.calculus.specs.Derivations.{no_modal};
ghost use Rattle.calculus.specs.Ground as tree;
ghost use Rattle.calculus.specs.Ground.{marks_tree};
ghost use Rattle.conversion_theory.specs.Numbering.{number_of};
ghost use Rattle.formula_core.specs.GroundLists.{the_marks, the_value, the_values};
ghost use Rattle.sequent_convert.specs.ByNumber.PastView.{taking, the_past};
ghost use Rattle.sequent_convert.specs.ByNumber.SpotView.{the_spot};

use crate::numbered::label_of;
use crate::spot::Spot;
use cop_base::{NoMemory, PosId};
use formula_core::{GroundLabel, Value, Values};
use logic_rules::{Logic, ModalPart};
use name_order::Named;
use sequent_calc::ModalArg;
use std::alloc::Global;

/// The spot past the modal part once the turn has taken its values, the argument of the step, and the values that are left.
#[derive(Drop)]
pub struct Past<'v> {
    pub spot: Spot,
    pub arg: ModalArg,
    pub rest: &'v [Value],
}

fn unmoved<'v>(
    named: &Named,
    spot: &Spot,
    own: &'v [Value],
    all: Values,
) -> Result<Past<'v>, NoMemory>
    ensures position { IfOk result (λ p. p.spot.position ≡ spot.now.position) }
    ensures past { IfOk result (λ p. the_past named.now.lists p ≡ taking (the_values named.now.lists all) (record { spot = the_spot named.now.lists spot.now; arg = no_modal; rest = map (the_value named.now.lists) own.now })) }
{
    let _table = named.table();
    Ok(Past {
        spot: spot.taking(all)?,
        arg: ModalArg::None,
        rest: own,
    })
}

fn by_string<'v>(
    alloc: Global,
    named: &Named,
    logic: Logic,
    spot: &Spot,
    string: GroundLabel,
    rest: &'v [Value],
    all: Values,
) -> Result<Past<'v>, NoMemory>
    ensures position { IfOk result (λ p. p.spot.position ≡ spot.now.position) }
    ensures past { IfOk result (λ p. the_past named.now.lists p ≡ taking (the_values named.now.lists all) (past_string (number_of named.now.names) logic (the_spot named.now.lists spot.now) (tree.steps (marks_tree (the_marks named.now.lists string)) ∷ map (the_value named.now.lists) rest.now))) }
{
    let table = named.table();
    let characters = table.marks(string);
    let next = spot.after_string(alloc, logic, characters, all)?;
    let reached = next.marks();
    let label = label_of(alloc, named, reached)?;
    let arg = ModalArg::to(alloc, label)?;
    Ok(Past {
        spot: next,
        arg,
        rest,
    })
}

fn by_character<'v>(
    alloc: Global,
    named: &Named,
    logic: Logic,
    spot: &Spot,
    own: &'v [Value],
    all: Values,
) -> Result<Past<'v>, NoMemory>
    ensures position { IfOk result (λ p. p.spot.position ≡ spot.now.position) }
    ensures past { IfOk result (λ p. the_past named.now.lists p ≡ taking (the_values named.now.lists all) (past_modal (number_of named.now.names) logic Pi (the_spot named.now.lists spot.now) (map (the_value named.now.lists) own.now))) }
{
    Ok(Past {
        spot: spot.after_character(alloc, logic, all)?,
        arg: ModalArg::New(named.mark(PosId(spot.position), spot.taken).unwrap_or(0)),
        rest: own,
    })
}

fn by_first<'v>(
    alloc: Global,
    named: &Named,
    logic: Logic,
    spot: &Spot,
    own: &'v [Value],
    all: Values,
) -> Result<Past<'v>, NoMemory>
    ensures position { IfOk result (λ p. p.spot.position ≡ spot.now.position) }
    ensures past { IfOk result (λ p. the_past named.now.lists p ≡ taking (the_values named.now.lists all) (past_string (number_of named.now.names) logic (the_spot named.now.lists spot.now) (map (the_value named.now.lists) own.now))) }
{
    match own.split_first() {
        Some((Value::Steps(string), rest)) => {
            let past = by_string(alloc, named, logic, spot, *string, rest, all)?;
            Ok(past)
        }
        Some((Value::Term(_), _)) | None => {
            let past = unmoved(named, spot, own, all)?;
            Ok(past)
        }
    }
}

/// The spot past the modal part, by the own values of a turn, and with all its values.
pub fn past_modal_part<'v>(
    alloc: Global,
    named: &Named,
    logic: Logic,
    modal: ModalPart,
    spot: &Spot,
    own: &'v [Value],
    all: Values,
) -> Result<Past<'v>, NoMemory>
    ensures position { IfOk result (λ p. p.spot.position ≡ spot.now.position) }
    ensures past { IfOk result (λ p. the_past named.now.lists p ≡ taking (the_values named.now.lists all) (past_modal (number_of named.now.names) logic modal (the_spot named.now.lists spot.now) (map (the_value named.now.lists) own.now))) }
{
    match modal {
        ModalPart::Plain => {
            let past = unmoved(named, spot, own, all)?;
            Ok(past)
        }
        ModalPart::Nu => {
            let past = by_first(alloc, named, logic, spot, own, all)?;
            Ok(past)
        }
        ModalPart::Pi => {
            let past = by_character(alloc, named, logic, spot, own, all)?;
            Ok(past)
        }
    }
}
