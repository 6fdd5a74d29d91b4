//! The quantifiers around a part of a formula, and whether their variables were met.

ghost use Rattle.std.specs.Prelude.{◌≡◌, ◌||◌, ◌∷◌, [], ℕ, false, get_or, suc, true, OnOk};
ghost use Rattle.calculus.specs.Lists.{terms_tree};
ghost use Rattle.calculus.specs.Substitution.{any_leaf, any_leaf_of};
ghost use Rattle.calculus.specs.Syntax as tree;
ghost use Rattle.derivation_branch.specs.Occurring.{is_variable};
ghost use Rattle.formula_core.specs.TermView.{the_term};

use cop_base::NoMemory;
use formula_core::{Term, Terms};
use std::alloc::Global;
use std::marker::Model;

/// Whether the variable of each quantifier was met, that of the innermost one first. Variables of
/// other numbers count as met.
#[derive(Drop)]
pub struct Scope {
    met: Vec<bool>,
}

impl Model for Scope {
    ghost use Rattle.std.specs.Prelude.{Bool, List, reverse};

    ghost Value = { List Bool };

    ghost view = { λ s. reverse s.met.items };
}

impl Scope {
    /// No quantifiers.
    pub fn new(alloc: Global) -> Scope
        ensures { result ≡ [] }
    {
        Scope {
            met: Vec::new(alloc),
        }
    }

    /// One more quantifier, inside of the others.
    pub fn enter(&mut self) -> Result<(), NoMemory>
        ensures { OnOk result (self.new ≡ false ∷ self.old) }
    {
        self.met.push(false)?;
        Ok(())
    }

    /// Leaves the innermost quantifier, and tells whether its variable was met.
    pub fn leave(&mut self) -> bool
        ensures told { result ≡ get_or self.old 0 true }
        ensures left { (d : ℕ) → get_or self.new d true ≡ get_or self.old (suc d) true }
    {
        match self.met.pop() {
            Some(met) => met,
            None => true,
        }
    }

    // Meets a variable.
    fn meet(&mut self, variable: u32)
        ensures { (d : ℕ) → get_or self.new d true
            ≡ (get_or self.old d true || is_variable d (tree.var variable)) }
    {
        let depth = variable as usize;
        if depth < self.met.len() {
            let place = self.met.len() - 1 - depth;
            self.met[place] = true;
        }
    }
}

/// Meets the variables of a term.
#[cycle(meet)]
pub fn meet_in(scope: &mut Scope, t: &Term)
    ensures { (d : ℕ) → get_or scope.new d true
        ≡ (get_or scope.old d true || any_leaf (is_variable d) (the_term t.now)) }
{
    match t {
        Term::Var(k) => scope.meet(*k),
        Term::Fun(_, args) => meet_in_all(scope, args),
        Term::Eigen(_) | Term::Spare(_) => {}
    }
}

/// The same of terms.
#[cycle(meet)]
#[tactic(auto, using(formula_core::specs::TermFalls::falling))]
pub fn meet_in_all(scope: &mut Scope, ts: &Terms)
    ensures { (d : ℕ) → get_or scope.new d true
        ≡ (get_or scope.old d true || any_leaf_of (is_variable d) (terms_tree ts.now)) }
{
    for item in ts.items() {
        meet_in(scope, item);
    }
}
