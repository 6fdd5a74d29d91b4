//! How large a formula's translation is, counted on the formula.

ghost use Rattle.std.specs.Prelude.{◌≡◌, ◌↔◌, ◌+◌, ◌≤◌, ◌<◌, ◌^◌, min, Some};
ghost use Rattle.calculus.specs.Measures.{nesting, node_count};
ghost use Rattle.calculus.specs.Translation.{translation_of};
ghost use Rattle.formula_core.specs.FormulaView.{the_formula};
ghost use Rattle.godel_transfer.specs.TranslationMeasures.{boxed_nesting, boxes_added};
ghost use Rattle.godel_transfer.specs.declared.fault.TransferFault.TheVariants as fault;

use crate::fault::TransferFault;
use calculus::limits::{MAX_ITEM_NESTING, MAX_NODES};
use formula_core::{Formula, nesting, node_count};

// How many boxes the translation adds, or `limit` + 1 where there are more.
fn boxes_added(f: &Formula, limit: u64) -> u64
    requires { limit ≤ 2 ^ 40 }
    ensures { result ≡ min (boxes_added (the_formula f.now)) (limit + 1) }
{
    match f {
        Formula::Atom(_, _) => 1,
        Formula::Not(a) | Formula::All(a) => (boxes_added(a, limit) + 1).min(limit + 1),
        Formula::Imp(a, b) => { (boxes_added(a, limit) + boxes_added(b, limit) + 1).min(limit + 1) }
        Formula::And(a, b) | Formula::Or(a, b) => {
            (boxes_added(a, limit) + boxes_added(b, limit)).min(limit + 1)
        }
        Formula::Ex(a) | Formula::Nec(a) | Formula::Poss(a) => boxes_added(a, limit),
    }
}

// The nesting of the translation.
fn boxed_nesting(f: &Formula) -> u64
    ensures { result ≡ min (boxed_nesting (the_formula f.now)) u64.MAX }
{
    match f {
        Formula::Atom(_, _) => nesting(f).saturating_add(1),
        Formula::Not(a) | Formula::All(a) => boxed_nesting(a).saturating_add(2),
        Formula::Imp(a, b) => boxed_nesting(a).max(boxed_nesting(b)).saturating_add(2),
        Formula::And(a, b) | Formula::Or(a, b) => {
            boxed_nesting(a).max(boxed_nesting(b)).saturating_add(1)
        }
        Formula::Ex(a) | Formula::Nec(a) | Formula::Poss(a) => boxed_nesting(a).saturating_add(1),
    }
}

// The nodes of the translation, or more than `MAX_NODES` where there are more.
fn translation_nodes(f: &Formula) -> u64
    ensures { result ≡ min (node_count (translation_of (the_formula f.now))) 4000001 }
{
    (node_count(f, MAX_NODES) + boxes_added(f, MAX_NODES)).min(MAX_NODES + 1)
}

/// Why a formula's translation is too large.
pub fn refusal(f: &Formula) -> Option<TransferFault>
    ensures deep { (result ≡ Some fault.NestingTooDeep)
        ↔ (1000 < nesting (translation_of (the_formula f.now))) }
    ensures large { (result ≡ Some fault.FormulaTooLarge)
        ↔ ((nesting (translation_of (the_formula f.now)) ≤ 1000)
        × (4000000 < node_count (translation_of (the_formula f.now)))) }
    ensures memory { ¬ (result ≡ Some fault.NoMemory) }
{
    if boxed_nesting(f) > MAX_ITEM_NESTING {
        return Some(TransferFault::NestingTooDeep);
    }
    if translation_nodes(f) > MAX_NODES {
        return Some(TransferFault::FormulaTooLarge);
    }
    None
}
