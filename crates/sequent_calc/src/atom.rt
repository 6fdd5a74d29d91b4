ghost use Rattle.std.specs.Prelude.{◌≡◌, ◌&&◌};
ghost use Rattle.calculus.specs.Calculus.{is_atom};
ghost use Rattle.calculus.specs.Equality.{formula_eq, term_eq, terms_eq};
ghost use Rattle.calculus.specs.Lists.{terms_tree};
ghost use Rattle.calculus.specs.Syntax as tree;
ghost use Rattle.formula_core.specs.FormulaView.{the_formula};
ghost use Rattle.formula_core.specs.TermView.{the_term};

use cop_base::SymbolId;
use formula_core::{Formula, Term, Terms};

/// Whether both are the same atom.
pub fn are_same_atom(a: &Formula, b: &Formula) -> bool
    ensures { result
        ≡ (is_atom (the_formula a.now) && formula_eq (the_formula a.now) (the_formula b.now)) }
{
    match a.as_atom() {
        Some((p, ts)) => is_atom_of(p, ts, b),
        None => false,
    }
}

// Whether the formula is the atom of this symbol and these arguments.
fn is_atom_of(p: SymbolId, ts: &Terms, f: &Formula) -> bool
    ensures { result ≡ formula_eq (tree.atom p.0 (terms_tree ts.now)) (the_formula f.now) }
{
    match f.as_atom() {
        Some((q, us)) => p == q && are_equal_terms(ts, us),
        None => false,
    }
}

#[cycle(equal)]
fn is_equal_term(t: &Term, u: &Term) -> bool
    ensures { result ≡ term_eq (the_term t.now) (the_term u.now) }
{
    match (t, u) {
        (Term::Var(k), Term::Var(m)) => k == m,
        (Term::Fun(f, ts), Term::Fun(g, us)) => f == g && are_equal_terms(ts, us),
        (Term::Eigen(m), Term::Eigen(n)) => m == n,
        (Term::Spare(m), Term::Spare(n)) => m == n,
        _ => false,
    }
}

#[cycle(equal)]
#[tactic(auto, using(formula_core::specs::TermFalls::falling))]
fn are_equal_terms(ts: &Terms, us: &Terms) -> bool
    ensures { result ≡ terms_eq (terms_tree ts.now) (terms_tree us.now) }
{
    let left = ts.items();
    let right = us.items();
    if left.len() != right.len() {
        return false;
    }
    for i in 0..left.len() {
        let t = &left[i];
        let u = &right[i];
        if !is_equal_term(t, u) {
            return false;
        }
    }
    true
}
