//! Terms of the problem under the terms put for their variables.

ghost use Rattle.std.specs.Prelude.{◌≡◌, ◌↔◌, IsTrue, map};
ghost use Rattle.calculus.specs.Ground as tree;
ghost use Rattle.calculus.specs.Instances.{ground_of, grounds_of};
ghost use Rattle.calculus.specs.Lists.{g_terms_tree, terms_tree};
ghost use Rattle.calculus.specs.Syntax as problem_tree;
ghost use Rattle.formula_core.specs.GroundLists.{the_g_term, the_terms};
ghost use Rattle.formula_core.specs.TermView.{the_term};
ghost use Rattle.tableau_core.specs.Numbered.SpotView.{the_bound};

use crate::spot::Bound;
use formula_core::{GroundTable, GroundTerm, GroundTerms, Term, Terms};

// What stands for a variable that nothing binds, of which a problem has none.
fn is_unbound(table: &GroundTable, term: GroundTerm) -> bool
    ensures { IsTrue result ↔ (tree.common 0 ≡ the_g_term table.now term) }
{
    match term {
        GroundTerm::Common(k) => k == 0,
        GroundTerm::Fun(_, _) | GroundTerm::Eigen(_, _) | GroundTerm::Own(_, _) => false,
    }
}

// Whether the term is what stands for the variable.
#[tactic(auto, using(crate::proofs::Environments::environment))]
fn is_bound(table: &GroundTable, env: &[Bound], k: u32, term: GroundTerm) -> bool
    ensures { IsTrue result ↔ (ground_of (map (the_bound table.now) env.now) (problem_tree.var k) ≡ the_g_term table.now term) }
{
    let place = k as usize;
    if place >= env.len() {
        return is_unbound(table, term);
    }
    let bound = &env[place];
    bound.is(table, term)
}

/// Whether the ground term is the instance of the term.
#[cycle(instance_of_terms)]
#[tactic(auto, using(formula_core::specs::GroundEq::tree_equality))]
pub fn is_instance(table: &GroundTable, env: &[Bound], pattern: &Term, term: GroundTerm) -> bool
    ensures { IsTrue result ↔ (ground_of (map (the_bound table.now) env.now) (the_term pattern.now) ≡ the_g_term table.now term) }
{
    match pattern {
        Term::Var(k) => is_bound(table, env, *k, term),
        Term::Fun(f, patterns) => match term {
            GroundTerm::Fun(g, terms) => *f == g && are_instances(table, env, patterns, terms),
            GroundTerm::Eigen(_, _) | GroundTerm::Common(_) | GroundTerm::Own(_, _) => false,
        },
        Term::Eigen(_) | Term::Spare(_) => is_unbound(table, term),
    }
}

/// Whether the ground terms are the instances of the terms. Calls nest as the terms of the problem
/// do.
#[cycle(instance_of_terms)]
#[tactic(auto, using(formula_core::specs::TermFalls::falling))]
pub fn are_instances(
    table: &GroundTable,
    env: &[Bound],
    patterns: &Terms,
    terms: GroundTerms,
) -> bool
    ensures { IsTrue result ↔ (grounds_of (map (the_bound table.now) env.now) (terms_tree patterns.now) ≡ g_terms_tree (the_terms table.now terms)) }
{
    let patterns = patterns.items();
    let terms = table.terms(terms);
    if patterns.len() != terms.len() {
        return false;
    }
    for i in 0..patterns.len() {
        let pattern = &patterns[i];
        let term = &terms[i];
        if !is_instance(table, env, pattern, *term) {
            return false;
        }
    }
    true
}
