//! What a turn does to the signed formula that it works on.

ghost use Rattle.std.specs.Prelude.{◌≡◌, ◌≤◌, ◌+◌, ◌++◌, ◌∷◌, [], IfOk, List, map, suc};
ghost use Rattle.conversion_theory.specs.Branches.{grows, item, made, made_alpha, made_beta, made_delta, made_literal, past_modal};
ghost use Rattle.calculus.specs.Derivations.{by_term};
ghost use Rattle.calculus.specs.Instances.{spot_inside};
ghost use Rattle.calculus.specs.Kinds.{modal_of, shape_of};
ghost use Rattle.calculus.specs.Positions.{size};
ghost use Rattle.conversion_theory.specs.Numbering.{number_of, numbered_term};
ghost use Rattle.formula_core.specs.FormulaView.{the_formula};
ghost use Rattle.formula_core.specs.GroundLists.{GroundList, the_g_term, the_value, the_values};
ghost use Rattle.sequent_calc.specs.StepView.{the_modal};
ghost use Rattle.sequent_convert.specs.ByNumber.MadeView.{the_made};
ghost use Rattle.sequent_convert.specs.ByNumber.NodeView.{the_node};
ghost use Rattle.sequent_convert.specs.ByNumber.PastView.{gamma_taken, made_taken, taken_after, the_past};
ghost use Rattle.sequent_convert.specs.ByNumber.SpotView.{the_spot};
ghost use Rattle.tableau_core.specs.PartView.{the_part};

use crate::component::{first, second};
use crate::node::Node;
use crate::past::{Past, past_modal_part};
use crate::spot::Spot;
use cop_base::{NoMemory, PosId};
use formula_core::{Formula, GroundTerm, Value, Values};
use logic_rules::{Logic, ModalPart, kind_of};
use name_order::Named;
use sequent_calc::{ModalArg, TermArg};
use std::alloc::Global;
use tableau_core::{Part, Parts, components_of};

/// Nothing, a step that adds nodes to the branch, or one that forks it.
#[derive(Drop)]
pub enum Made<'a> {
    Rests,
    Grows(ModalArg, TermArg, Vec<Node<'a>>),
    Splits(ModalArg, Node<'a>, Node<'a>),
}

// One component.
fn one<'a>(alloc: Global, past: Past, a: Part<'a>) -> Result<Made<'a>, NoMemory>
    requires { past.spot.position + suc (size (the_formula a.formula.now)) ≤ 4294967295 }
    ensures { IfOk result (λ m. (ls : List GroundList) → the_made ls m ≡ made_alpha (the_past ls past.entry) (the_part a.entry ∷ [])) }
{
    let mut nodes = Vec::new(alloc);
    nodes.push(first(&past.spot, a)?)?;
    Ok(Made::Grows(past.arg, TermArg::None, nodes))
}

// Two components on one branch.
fn both<'a>(alloc: Global, past: Past, a: Part<'a>, b: Part<'a>) -> Result<Made<'a>, NoMemory>
    requires { past.spot.position + suc (size (the_formula a.formula.now) + size (the_formula b.formula.now)) ≤ 4294967295 }
    ensures { IfOk result (λ m. (ls : List GroundList) → the_made ls m ≡ made_alpha (the_past ls past.entry) (the_part a.entry ∷ the_part b.entry ∷ [])) }
{
    let mut nodes = Vec::new(alloc);
    nodes.push(first(&past.spot, a)?)?;
    nodes.push(second(&past.spot, a, b)?)?;
    Ok(Made::Grows(past.arg, TermArg::None, nodes))
}

// Two components on two branches.
fn either<'a>(past: Past, a: Part<'a>, b: Part<'a>) -> Result<Made<'a>, NoMemory>
    requires { past.spot.position + suc (size (the_formula a.formula.now) + size (the_formula b.formula.now)) ≤ 4294967295 }
    ensures { IfOk result (λ m. (ls : List GroundList) → the_made ls m ≡ made_beta (the_past ls past.entry) (the_part a.entry ∷ the_part b.entry ∷ [])) }
{
    let first = first(&past.spot, a)?;
    let second = second(&past.spot, a, b)?;
    Ok(Made::Splits(past.arg, first, second))
}

// The component of a quantifier with its term.
fn inside<'a>(
    alloc: Global,
    spot: &Spot,
    term: GroundTerm,
    a: Part<'a>,
) -> Result<Node<'a>, NoMemory>
    requires { spot.now.position + suc (size (the_formula a.formula.now)) ≤ 4294967295 }
    ensures { IfOk result (λ n. (ls : List GroundList) → the_node ls n ≡ item (spot_inside (the_g_term ls term) (the_spot ls spot.now).taken (the_spot ls spot.now)) a.entry.sign (the_formula a.entry.formula.now)) }
{
    Ok(Node {
        spot: spot.inside(alloc, term)?,
        part: a,
        past: false,
    })
}

// A gamma position takes the term.
fn with_term<'a>(
    alloc: Global,
    named: &Named,
    past: Past,
    term: GroundTerm,
    a: Part<'a>,
) -> Result<Made<'a>, NoMemory>
    requires { past.spot.position + suc (size (the_formula a.formula.now)) ≤ 4294967295 }
    ensures { IfOk result (λ m. the_made named.now.lists m ≡ grows (the_modal past.entry.arg) (by_term (numbered_term (number_of named.now.names) (the_g_term named.now.lists term))) (item (spot_inside (the_g_term named.now.lists term) (the_spot named.now.lists past.entry.spot).taken (the_spot named.now.lists past.entry.spot)) a.entry.sign (the_formula a.entry.formula.now) ∷ [])) }
{
    let mut nodes = Vec::new(alloc);
    nodes.push(inside(alloc, &past.spot, term, a)?)?;
    let term = named.term(term)?;
    Ok(Made::Grows(past.arg, TermArg::Term(term), nodes))
}

// The next value of a gamma position is its term.
fn gamma<'a>(alloc: Global, named: &Named, past: Past, a: Part<'a>) -> Result<Made<'a>, NoMemory>
    requires { past.spot.position + suc (size (the_formula a.formula.now)) ≤ 4294967295 }
    ensures { IfOk result (λ m. the_made named.now.lists m ≡ gamma_taken (number_of named.now.names) (the_past named.now.lists past.entry) (the_past named.now.lists past.entry).rest (the_part a.entry ∷ [])) }
{
    match past.rest.split_first() {
        Some((Value::Term(term), _)) => {
            let term = *term;
            let made = with_term(alloc, named, past, term, a)?;
            Ok(made)
        }
        Some((Value::Steps(_), _)) | None => Ok(Made::Rests),
    }
}

// A delta position has its eigenvariable.
fn delta<'a>(alloc: Global, named: &Named, past: Past, a: Part<'a>) -> Result<Made<'a>, NoMemory>
    requires { past.spot.position + suc (size (the_formula a.formula.now)) ≤ 4294967295 }
    ensures { IfOk result (λ m. the_made named.now.lists m ≡ made_delta (number_of named.now.names) (the_past named.now.lists past.entry) (the_part a.entry ∷ [])) }
{
    let position = PosId(past.spot.position);
    let taken = past.spot.taken;
    let number = named.eigen(position, taken).unwrap_or(0);
    let mut nodes = Vec::new(alloc);
    nodes.push(inside(alloc, &past.spot, GroundTerm::Eigen(position, taken), a)?)?;
    Ok(Made::Grows(past.arg, TermArg::Name(number), nodes))
}

// Past the modal part: by the components.
#[tactic(auto, using(crate::proofs::ByNumber::MadeLaws::parts))]
fn make_past<'a>(
    alloc: Global,
    named: &Named,
    modal: ModalPart,
    past: Past,
    part: Part<'a>,
) -> Result<Made<'a>, NoMemory>
    requires { past.spot.position + size (the_formula part.formula.now) ≤ 4294967295 }
    ensures { IfOk result (λ m. the_made named.now.lists m ≡ made_taken (number_of named.now.names) (shape_of part.entry.sign (the_formula part.entry.formula.now)) modal (the_past named.now.lists past.entry) part.entry.sign (the_formula part.entry.formula.now)) }
{
    match components_of(part) {
        Parts::Literal(_, _) => at_atom(alloc, modal, past, part),
        Parts::One(a) => one(alloc, past, a),
        Parts::Alpha(a, b) => both(alloc, past, a, b),
        Parts::Beta(a, b) => either(past, a, b),
        Parts::Gamma(a) => gamma(alloc, named, past, a),
        Parts::Delta(a) => delta(alloc, named, past, a),
    }
}

// An atom with a modal part stands past it.
fn at_atom<'a>(
    alloc: Global,
    modal: ModalPart,
    past: Past,
    part: Part<'a>,
) -> Result<Made<'a>, NoMemory>
    requires { past.spot.position + size (the_formula part.formula.now) ≤ 4294967295 }
    ensures { IfOk result (λ m. (ls : List GroundList) → the_made ls m ≡ made_literal modal (the_past ls past.entry) part.entry.sign (the_formula part.entry.formula.now)) }
{
    match (modal, part.formula) {
        (ModalPart::Nu | ModalPart::Pi, Formula::Atom(_, _)) => {
            let mut nodes = Vec::new(alloc);
            nodes.push(Node {
                spot: past.spot.taking(past.spot.taken)?,
                part,
                past: true,
            })?;
            Ok(Made::Grows(past.arg, TermArg::None, nodes))
        }
        (ModalPart::Plain, _) => Ok(Made::Rests),
        (
            ModalPart::Nu | ModalPart::Pi,
            Formula::Not(_)
            | Formula::And(_, _)
            | Formula::Or(_, _)
            | Formula::Imp(_, _)
            | Formula::All(_)
            | Formula::Ex(_)
            | Formula::Nec(_)
            | Formula::Poss(_),
        ) => Ok(Made::Rests),
    }
}

/// What the turn with these own values does to the signed formula at the spot, where these are all its values.
pub fn make<'a>(
    alloc: Global,
    named: &Named,
    logic: Logic,
    spot: &Spot,
    part: Part<'a>,
    own: &[Value],
    all: Values,
) -> Result<Made<'a>, NoMemory>
    requires within { spot.now.position + size (the_formula part.formula.now) ≤ 4294967295 }
    requires taken { taken_after (shape_of part.sign (the_formula part.formula.now)) (past_modal (number_of named.now.names) logic (modal_of logic part.sign (the_formula part.formula.now)) (the_spot named.now.lists spot.now) (map (the_value named.now.lists) own.now)) ≡ the_values named.now.lists all }
    ensures { IfOk result (λ m. the_made named.now.lists m ≡ made (number_of named.now.names) logic (the_spot named.now.lists spot.now) part.entry.sign (the_formula part.entry.formula.now) (map (the_value named.now.lists) own.now)) }
{
    let kind = kind_of(logic, part.sign, part.formula);
    let past = past_modal_part(alloc, named, logic, kind.modal, spot, own, all)?;
    let made = make_past(alloc, named, kind.modal, past, part)?;
    Ok(made)
}
