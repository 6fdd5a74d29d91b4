//! What is told of the parts of the problem's formula once, before the first step.

ghost use Rattle.std.specs.Prelude.{◌≡◌, ◌<◌, ◌++◌, ◌∷◌, ◌||◌, [], ℕ, List, get_or, length, true, IfOk, OnOk};
ghost use Rattle.calculus.specs.Syntax as tree;
ghost use Rattle.derivation_branch.specs.Occurring.{binds_at, quantifier_binds};
ghost use Rattle.derivation_branch.specs.OutlineView.{IsNode, IsOutline, node, outline_of, parts_of};
ghost use Rattle.formula_core.specs.FormulaView.{the_formula};

use crate::scope::{Scope, meet_in_all};
use cop_base::NoMemory;
use formula_core::Formula;
use label_table::place_of;
use std::alloc::Global;

/// A part of a formula: whether it is a quantifier whose variable stands in its body, and how many
/// parts the second one of two has.
#[derive(Clone, Copy)]
pub struct Node {
    pub binds: bool,
    pub second: u32,
}

/// The parts of a formula, each behind its own parts, so that the formula itself is the last one.
#[derive(Drop)]
pub struct Outline {
    pub nodes: Vec<Node>,
}

fn add(nodes: &mut Vec<Node>, binds: bool, second: u32) -> Result<(), NoMemory>
    ensures { OnOk result
        (nodes.new.items ≡ nodes.old.items ++ node binds second ∷ []) }
{
    nodes.push(Node { binds, second })?;
    Ok(())
}

// Adds the parts of a formula.
fn add_parts(nodes: &mut Vec<Node>, scope: &mut Scope, f: &Formula) -> Result<(), NoMemory>
    ensures nodes { OnOk result
        (nodes.new.items ≡ nodes.old.items ++ outline_of (the_formula f.now)) }
    ensures met { OnOk result ((d : ℕ) → get_or scope.new d true
        ≡ (get_or scope.old d true || binds_at d (the_formula f.now))) }
{
    match f {
        Formula::Atom(_, args) => {
            meet_in_all(scope, args);
            add(nodes, false, 0)
        }
        Formula::And(a, b) | Formula::Or(a, b) | Formula::Imp(a, b) => {
            add_parts(nodes, scope, a)?;
            let first = nodes.len();
            add_parts(nodes, scope, b)?;
            let second = place_of(nodes.len() - first)?;
            add(nodes, false, second)
        }
        Formula::Not(a) | Formula::Nec(a) | Formula::Poss(a) => {
            add_parts(nodes, scope, a)?;
            add(nodes, false, 0)
        }
        Formula::All(a) | Formula::Ex(a) => {
            scope.enter()?;
            add_parts(nodes, scope, a)?;
            let binds = scope.leave();
            add(nodes, binds, 0)
        }
    }
}

impl Outline {
    /// The parts of the formula, in time linear in its size.
    pub fn new(alloc: Global, f: &Formula) -> Result<Outline, NoMemory>
        ensures { IfOk result (λ o. o.nodes.items ≡ outline_of (the_formula f.now)) }
    {
        let mut nodes = Vec::new(alloc);
        let mut scope = Scope::new(alloc);
        add_parts(&mut nodes, &mut scope, f)?;
        Ok(Outline { nodes })
    }

    /// The place of the whole formula.
    pub fn whole(&self) -> Result<u32, NoMemory>
        ensures { IfOk result (λ k. (f : tree.Formula) → self.now.nodes.items ≡ outline_of f
            → IsNode (parts_of f) k f) }
    {
        let place = place_of(self.nodes.len().saturating_sub(1))?;
        Ok(place)
    }

    /// Whether the part at a place is a quantifier that binds.
    pub fn binds(&self, place: u32) -> bool
        ensures { (parts : List tree.Formula) → (f : tree.Formula)
            → IsOutline parts self.now.nodes.items → IsNode parts place f → result ≡ quantifier_binds f }
    {
        let place = place as usize;
        place < self.nodes.len() && self.nodes[place].binds
    }

    /// How many places lie between the last part of a part and the one before it.
    pub fn second(&self, place: u32) -> u32
        ensures { (d : Node) → place < length self.now.nodes.items
            → result ≡ (get_or self.now.nodes.items place d).second }
    {
        let place = place as usize;
        if place < self.nodes.len() {
            self.nodes[place].second
        } else {
            0
        }
    }
}
