//! How large a formula and its matrix are.

ghost use Rattle.std.specs.Prelude.{◌≡◌, ◌+◌, ◌*◌, ◌≤◌, ◌^◌, length, min, sum_by};
ghost use Rattle.calculus.specs.Clauses.{clause_count, literal_count, selections, size_from};
ghost use Rattle.calculus.specs.Lists.{terms_tree};
ghost use Rattle.calculus.specs.Measures.{nesting, node_count, term_nesting, term_nodes};
ghost use Rattle.calculus.specs.Measures.{terms_nesting, terms_nodes};
ghost use Rattle.formula_core.specs.FormulaView.{the_formula};
ghost use Rattle.formula_core.specs.TermView.{the_term};

use crate::components::Components;
use crate::formula::Formula;
use crate::term::{Term, Terms};
use calculus::sign::Sign;

/// The clauses of the matrix of `f` under `sign`, one for each selection, or `limit` + 1 where
/// there are more. They are counted and not built. `limit` is at most 2^40, so that no sum
/// overflows.
pub fn clause_count(f: &Formula, sign: Sign, limit: u64) -> u64
    requires { limit ≤ 2 ^ 40 }
    ensures { result ≡ min (length (selections (the_formula f.now) sign)) (limit + 1) }
{
    counts(f, sign, limit).clauses
}

/// The literals of all clauses of that matrix together, or `limit` + 1 where there are more.
/// `limit` is at most 2^40, so that no sum overflows.
pub fn literal_count(f: &Formula, sign: Sign, limit: u64) -> u64
    requires { limit ≤ 2 ^ 40 }
    ensures { result
        ≡ min (sum_by (size_from (the_formula f.now) sign) (selections (the_formula f.now) sign))
        (limit + 1) }
{
    counts(f, sign, limit).literals
}

#[derive(Clone, Copy)]
struct Totals {
    clauses: u64,
    literals: u64,
}

// The totals of a formula by those of its components.
#[tactic(auto, using(crate::proofs::CountLaws::counting))]
fn counts(f: &Formula, sign: Sign, limit: u64) -> Totals
    requires { limit ≤ 2 ^ 40 }
    ensures clauses { result.clauses ≡ min (clause_count (the_formula f.now) sign) (limit + 1) }
    ensures literals { result.literals ≡ min (literal_count (the_formula f.now) sign) (limit + 1) }
{
    match f.components(sign) {
        Components::Literal(_, _) => Totals {
            clauses: 1,
            literals: 1,
        },
        Components::One(a) | Components::Gamma(a) | Components::Delta(a) => {
            counts(a.formula, a.sign, limit)
        }
        Components::Alpha(a, b) => {
            let left = counts(a.formula, a.sign, limit);
            let right = counts(b.formula, b.sign, limit);
            alpha_totals(left, right, limit)
        }
        Components::Beta(a, b) => {
            let left = counts(a.formula, a.sign, limit);
            let right = counts(b.formula, b.sign, limit);
            beta_totals(left, right, limit)
        }
    }
}

// The clauses of either part.
fn alpha_totals(left: Totals, right: Totals, limit: u64) -> Totals
    requires { limit ≤ 2 ^ 40 }
    ensures clauses { result.clauses ≡ min (left.clauses + right.clauses) (limit + 1) }
    ensures literals { result.literals ≡ min (left.literals + right.literals) (limit + 1) }
{
    Totals {
        clauses: left.clauses.saturating_add(right.clauses).min(limit + 1),
        literals: left.literals.saturating_add(right.literals).min(limit + 1),
    }
}

// A clause for each pair of one of the left part and one of the right.
fn beta_totals(left: Totals, right: Totals, limit: u64) -> Totals
    requires { limit ≤ 2 ^ 40 }
    ensures clauses { result.clauses ≡ min (left.clauses * right.clauses) (limit + 1) }
    ensures literals { result.literals
        ≡ min (left.literals * right.clauses + right.literals * left.clauses) (limit + 1) }
{
    let from_left = left.literals.saturating_mul(right.clauses);
    let from_right = right.literals.saturating_mul(left.clauses);
    Totals {
        clauses: left.clauses.saturating_mul(right.clauses).min(limit + 1),
        literals: from_left.saturating_add(from_right).min(limit + 1),
    }
}

/// The nodes of `f`, terms included, or `limit` + 1 where there are more. `limit` is at most 2^40,
/// so that no sum overflows.
pub fn node_count(f: &Formula, limit: u64) -> u64
    requires { limit ≤ 2 ^ 40 }
    ensures { result ≡ min (node_count (the_formula f.now)) (limit + 1) }
{
    match f {
        Formula::Atom(_, args) => (args.node_count(limit) + 1).min(limit + 1),
        Formula::And(a, b) | Formula::Or(a, b) | Formula::Imp(a, b) => {
            (node_count(a, limit) + node_count(b, limit) + 1).min(limit + 1)
        }
        Formula::Not(a) | Formula::All(a) | Formula::Ex(a) | Formula::Nec(a) | Formula::Poss(a) =>
            (node_count(a, limit) + 1).min(limit + 1),
    }
}

/// The nodes from the root of `f` to its farthest leaf, terms included.
pub fn nesting(f: &Formula) -> u64
    ensures { result ≡ min (nesting (the_formula f.now)) u64.MAX }
{
    match f {
        Formula::Atom(_, args) => args.nesting().saturating_add(1),
        Formula::And(a, b) | Formula::Or(a, b) | Formula::Imp(a, b) => {
            nesting(a).max(nesting(b)).saturating_add(1)
        }
        Formula::Not(a) | Formula::All(a) | Formula::Ex(a) | Formula::Nec(a) | Formula::Poss(a) =>
            nesting(a).saturating_add(1),
    }
}

impl Term {
    #[cycle(count_term)]
    fn node_count(&self, limit: u64) -> u64
        requires { limit ≤ 2 ^ 40 }
        ensures { result ≡ min (term_nodes (the_term self.now)) (limit + 1) }
    {
        match self {
            Term::Fun(_, args) => (1 + args.node_count(limit)).min(limit + 1),
            _ => 1,
        }
    }

    #[cycle(nest_term)]
    fn nesting(&self) -> u64
        ensures { result ≡ min (term_nesting (the_term self.now)) u64.MAX }
    {
        match self {
            Term::Fun(_, args) => args.nesting().saturating_add(1),
            _ => 1,
        }
    }
}

impl Terms {
    #[cycle(count_term)]
    #[tactic(auto, using(crate::specs::TermFalls::falling))]
    fn node_count(&self, limit: u64) -> u64
        requires { limit ≤ 2 ^ 40 }
        ensures { result ≡ min (terms_nodes (terms_tree self.now)) (limit + 1) }
    {
        let mut total = 0;
        for item in self.items() {
            total = (total + item.node_count(limit)).min(limit + 1);
        }
        total
    }

    #[cycle(nest_term)]
    #[tactic(auto, using(crate::specs::TermFalls::falling))]
    fn nesting(&self) -> u64
        ensures { result ≡ min (terms_nesting (terms_tree self.now)) u64.MAX }
    {
        let mut deepest = 0;
        for item in self.items() {
            deepest = deepest.max(item.nesting());
        }
        deepest
    }
}
