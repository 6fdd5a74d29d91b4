//! What a use step adds to a branch.

ghost use Rattle.std.specs.Prelude.{◌≡◌, [], List, get_or, map};
ghost use Rattle.calculus.specs.Calculus.{entry_at, with_argument, with_components};
ghost use Rattle.calculus.specs.Derivations as derivation;
ghost use Rattle.calculus.specs.Kinds.{components, shape_of};
ghost use Rattle.calculus.specs.Syntax as tree;
ghost use Rattle.derivation_branch.specs.AddedView.{AreAddedAt, PutsArgument, children_added};
ghost use Rattle.derivation_branch.specs.EntryView.{formula_under, signed_under, the_shared};
ghost use Rattle.derivation_branch.specs.OutlineView.{AreNodes, IsNode, IsNodeOf, IsOutline};
ghost use Rattle.formula_core.specs.ComponentsView.{the_signed};
ghost use Rattle.formula_core.specs.FormulaView.{the_formula};

use crate::entry::SharedEntry;
use crate::outline::Outline;
use formula_core::{Components, Signed};

/// The entries that a use step adds.
#[derive(Clone, Copy)]
pub enum Added<'a> {
    One(SharedEntry<'a>),
    Both(SharedEntry<'a>, SharedEntry<'a>),
    /// The branch splits in two, which grow by one entry each.
    Fork(SharedEntry<'a>, SharedEntry<'a>),
}

fn component<'a>(part: Signed<'a>, node: u32, substitution: u32, label: u32) -> SharedEntry<'a>
    ensures entry { (table : List (List tree.Term)) → (labels : List derivation.Label)
        → the_shared table labels result ≡ entry_at (get_or labels label [])
        (signed_under table substitution (the_signed part.entry)) }
    ensures placed { (parts : List tree.Formula) → IsNode parts node (the_signed part.entry).formula
        → IsNodeOf parts result }
    ensures under { result.substitution ≡ substitution }
    ensures labelled { result.label ≡ label }
{
    SharedEntry {
        sign: part.sign,
        node,
        formula: part.formula,
        substitution,
        label,
    }
}

/// The components of an entry at the label of a place. Where the entry is quantified, `inner` is
/// the place of its substitution with the argument of the step before it.
pub fn added_by<'a>(outline: &Outline, used: SharedEntry<'a>, inner: u32, label: u32) -> Added<'a>
    ensures added { (table : List (List tree.Term)) → (labels : List derivation.Label)
        → (t : derivation.TermArg) → PutsArgument table used.entry.substitution inner
        (shape_of used.entry.sign (the_formula used.entry.formula.now)) t
        → (s : derivation.Sequent) → children_added table labels s result
        ≡ with_components (shape_of used.entry.sign
        (formula_under table used.entry.substitution (the_formula used.entry.formula.now)))
        s (get_or labels label []) (map (with_argument t) (components used.entry.sign
        (formula_under table used.entry.substitution (the_formula used.entry.formula.now)))) }
    ensures at { AreAddedAt used.entry.substitution inner label result }
    ensures nodes { (parts : List tree.Formula) → IsOutline parts outline.now.nodes.items
        → IsNodeOf parts used.entry → AreNodes parts result }
{
    let outer = used.substitution;
    let last = used.node.saturating_sub(1);
    let other = last.saturating_sub(outline.second(used.node));
    match used.formula.components(used.sign) {
        Components::Literal(_, _) => Added::One(SharedEntry {
            sign: used.sign,
            node: used.node,
            formula: used.formula,
            substitution: outer,
            label,
        }),
        Components::One(a) => Added::One(component(a, last, outer, label)),
        Components::Alpha(a, b) => Added::Both(
            component(a, other, outer, label),
            component(b, last, outer, label),
        ),
        Components::Beta(a, b) => Added::Fork(
            component(a, other, outer, label),
            component(b, last, outer, label),
        ),
        Components::Gamma(a) => Added::One(component(a, last, inner, label)),
        Components::Delta(a) => Added::One(component(a, last, inner, label)),
    }
}
