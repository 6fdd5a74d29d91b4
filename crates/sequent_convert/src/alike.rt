//! Whether two terms of the problem are the same under the terms put for their variables.

ghost use Rattle.std.specs.Prelude.{◌≡◌, ◌↔◌, IsTrue, map};
ghost use Rattle.calculus.specs.Ground as tree;
ghost use Rattle.calculus.specs.Instances.{ground_of, grounds_of};
ghost use Rattle.calculus.specs.Lists.{g_terms_tree, terms_tree};
ghost use Rattle.calculus.specs.Syntax as problem_tree;
ghost use Rattle.formula_core.specs.GroundLists.{the_g_term, the_mark, the_terms};
ghost use Rattle.formula_core.specs.TermView.{the_term};

use formula_core::{GroundMark, GroundTable, GroundTerm, GroundTerms, Term, Terms};

// What stands for a variable. Of variables that nothing binds a problem has none.
#[tactic(auto, using(tableau_core::proofs::Environments::environment))]
fn bound(table: &GroundTable, env: &[GroundTerm], k: u32) -> GroundTerm
    ensures { the_g_term table.now result ≡ ground_of (map (the_g_term table.now) env.now) (problem_tree.var k) }
{
    let _lists = table;
    let place = k as usize;
    if place >= env.len() {
        return GroundTerm::Common(0);
    }
    env[place]
}

// Whether this is what stands for a variable that nothing binds.
fn is_unbound(table: &GroundTable, term: GroundTerm) -> bool
    ensures { IsTrue result ↔ (tree.common 0 ≡ the_g_term table.now term) }
{
    match term {
        GroundTerm::Common(k) => k == 0,
        GroundTerm::Fun(_, _) | GroundTerm::Eigen(_, _) | GroundTerm::Own(_, _) => false,
    }
}

#[tactic(auto, using(crate::proofs::ByNumber::AlikeLaws::turning))]
fn is_bound(table: &GroundTable, env: &[GroundTerm], k: u32, term: GroundTerm) -> bool
    ensures { IsTrue result ↔ (ground_of (map (the_g_term table.now) env.now) (problem_tree.var k) ≡ the_g_term table.now term) }
{
    let given = bound(table, env, k);
    table.is_same_term(given, term)
}

// Whether the ground term is the instance of the term.
#[cycle(instance_of_terms)]
#[tactic(auto, using(formula_core::specs::GroundEq::tree_equality))]
fn is_instance(table: &GroundTable, env: &[GroundTerm], pattern: &Term, term: GroundTerm) -> bool
    ensures { IsTrue result ↔ (ground_of (map (the_g_term table.now) env.now) (the_term pattern.now) ≡ the_g_term table.now term) }
{
    match pattern {
        Term::Var(k) => is_bound(table, env, *k, term),
        Term::Fun(f, patterns) => match term {
            GroundTerm::Fun(g, terms) => *f == g && are_instances(table, env, patterns, terms),
            GroundTerm::Eigen(_, _) | GroundTerm::Common(_) | GroundTerm::Own(_, _) => false,
        },
        Term::Eigen(_) | Term::Spare(_) => is_unbound(table, term),
    }
}

#[cycle(instance_of_terms)]
#[tactic(auto, using(formula_core::specs::TermFalls::falling))]
fn are_instances(
    table: &GroundTable,
    env: &[GroundTerm],
    patterns: &Terms,
    terms: GroundTerms,
) -> bool
    ensures { IsTrue result ↔ (grounds_of (map (the_g_term table.now) env.now) (terms_tree patterns.now) ≡ g_terms_tree (the_terms table.now terms)) }
{
    let patterns = patterns.items();
    let terms = table.terms(terms);
    if patterns.len() != terms.len() {
        return false;
    }
    for i in 0..patterns.len() {
        let pattern = &patterns[i];
        let term = &terms[i];
        if !is_instance(table, env, pattern, *term) {
            return false;
        }
    }
    true
}

// Whether the term is the instance of the second one, by what stands for the first.
#[tactic(auto, using(crate::proofs::ByNumber::AlikeLaws::turning))]
fn is_instance_of(
    table: &GroundTable,
    env: &[GroundTerm],
    k: u32,
    other: &[GroundTerm],
    pattern: &Term,
) -> bool
    ensures { IsTrue result ↔ (ground_of (map (the_g_term table.now) env.now) (problem_tree.var k) ≡ ground_of (map (the_g_term table.now) other.now) (the_term pattern.now)) }
{
    let given = bound(table, env, k);
    is_instance(table, other, pattern, given)
}

// Whether the term is one that nothing binds.
#[tactic(auto, using(crate::proofs::ByNumber::AlikeLaws::turning))]
fn is_free(table: &GroundTable, env: &[GroundTerm], pattern: &Term) -> bool
    ensures { IsTrue result ↔ (tree.common 0 ≡ ground_of (map (the_g_term table.now) env.now) (the_term pattern.now)) }
{
    is_instance(table, env, pattern, GroundTerm::Common(0))
}

// Whether both have one instance.
#[cycle(alike)]
#[tactic(auto, using(formula_core::specs::GroundEq::tree_equality, crate::proofs::ByNumber::AlikeLaws::turning))]
fn is_alike(
    table: &GroundTable,
    env: &[GroundTerm],
    term: &Term,
    other: &[GroundTerm],
    pattern: &Term,
) -> bool
    ensures { IsTrue result ↔ (ground_of (map (the_g_term table.now) env.now) (the_term term.now) ≡ ground_of (map (the_g_term table.now) other.now) (the_term pattern.now)) }
{
    match term {
        Term::Var(k) => is_instance_of(table, env, *k, other, pattern),
        Term::Fun(f, terms) => match pattern {
            Term::Fun(g, patterns) => *f == *g && are_alike(table, env, terms, other, patterns),
            Term::Var(k) => is_instance_of(table, other, *k, env, term),
            Term::Eigen(_) | Term::Spare(_) => is_free(table, env, term),
        },
        Term::Eigen(_) | Term::Spare(_) => is_free(table, other, pattern),
    }
}

/// Whether both lists have the same instances, by what is put for the variables of each. Calls nest as the terms of the problem do.
#[cycle(alike)]
#[tactic(auto, using(formula_core::specs::TermFalls::falling))]
pub fn are_alike(
    table: &GroundTable,
    env: &[GroundTerm],
    terms: &Terms,
    other: &[GroundTerm],
    patterns: &Terms,
) -> bool
    ensures { IsTrue result ↔ (grounds_of (map (the_g_term table.now) env.now) (terms_tree terms.now) ≡ grounds_of (map (the_g_term table.now) other.now) (terms_tree patterns.now)) }
{
    let terms = terms.items();
    let patterns = patterns.items();
    if terms.len() != patterns.len() {
        return false;
    }
    for i in 0..terms.len() {
        let term = &terms[i];
        let pattern = &patterns[i];
        if !is_alike(table, env, term, other, pattern) {
            return false;
        }
    }
    true
}

/// Whether both labels have the same characters.
#[tactic(auto, using(formula_core::specs::GroundEq::tree_equality, tableau_core::proofs::Places::values_equality))]
pub fn are_same_labels(table: &GroundTable, a: &[GroundMark], b: &[GroundMark]) -> bool
    ensures { IsTrue result ↔ (map (the_mark table.now) a.now ≡ map (the_mark table.now) b.now) }
{
    if a.len() != b.len() {
        return false;
    }
    for i in 0..a.len() {
        let x = &a[i];
        let y = &b[i];
        if !table.is_same_mark(*x, *y) {
            return false;
        }
    }
    true
}
