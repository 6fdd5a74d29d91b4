//! Atoms under substitutions, compared where they stand.

ghost use Rattle.std.specs.Prelude.{◌≡◌, ◌&&◌, ◌<◌, ◌∷◌, ◌++◌, [], ℕ, List, get_or, length, map, IsNone, IfSome};
ghost use Rattle.calculus.specs.Calculus.{is_atom};
ghost use Rattle.calculus.specs.Equality.{formula_eq, term_eq, terms_eq};
ghost use Rattle.calculus.specs.Lists.{terms_tree};
ghost use Rattle.calculus.specs.Syntax as tree;
ghost use Rattle.derivation_branch.specs.EntryView.{IsHeadWithin, formula_under, the_head};
ghost use Rattle.derivation_branch.specs.EntryView.{term_under};
ghost use Rattle.formula_text.specs.Rows.{row_of, rows_of};
ghost use Rattle.formula_core.specs.FormulaView.{the_formula};
ghost use Rattle.formula_core.specs.TermView.{the_term};

use crate::following::{after_item, after_items, after_symbol, is_whole};
use crate::substitution::{Substitutions, Value};
use cop_base::SymbolId;
use formula_core::{Formula, Term, Terms};
use formula_text::{RowItem, TermRow};

/// What a term is under a substitution: a row, a leaf, or a function symbol over arguments, which
/// stand under the substitution at a place of the table.
#[derive(Clone, Copy)]
enum Head<'a> {
    Row(&'a TermRow),
    Var(u32),
    Fun(SymbolId, &'a Terms, u32),
    Eigen(u32),
    Spare(u32),
}

fn head_under<'a>(substitutions: &Substitutions<'a>, place: u32, t: &'a Term) -> Head<'a>
    requires { place < length substitutions.now }
    ensures head { the_head substitutions.now result
        ≡ term_under substitutions.now place (the_term t.entry.now) }
    ensures within { IsHeadWithin (length substitutions.now) result }
{
    match t {
        Term::Var(k) => match substitutions.value(place, *k) {
            Value::Given(row) => Head::Row(row),
            Value::Eigen(n) => Head::Eigen(n),
            Value::Free(n) => Head::Var(n),
        },
        Term::Fun(f, args) => Head::Fun(*f, args, place),
        Term::Eigen(n) => Head::Eigen(*n),
        Term::Spare(n) => Head::Spare(*n),
    }
}

// What follows the row of a term at the beginning of a row.
#[cycle(after)]
fn after_term<'a, 'b>(
    substitutions: &Substitutions<'a>,
    items: &'b [RowItem],
    t: &'a Term,
    i: u32,
) -> Option<&'b [RowItem]>
    requires { i < length substitutions.now }
    ensures some { IfSome result (λ r.
        items.now ≡ row_of (term_under substitutions.now i (the_term t.now)) ++ r.now) }
    ensures none { IsNone result → (rest : List RowItem)
        → ¬ (items.now ≡ row_of (term_under substitutions.now i (the_term t.now)) ++ rest) }
{
    match head_under(substitutions, i, t) {
        Head::Row(row) => after_items(items, row.items()),
        Head::Var(k) => after_item(items, RowItem::Var(k)),
        Head::Fun(f, args, i) => {
            let rest = after_symbol(items, f, args.len())?;
            after_terms(substitutions, rest, args, i)
        }
        Head::Eigen(n) => after_item(items, RowItem::Eigen(n)),
        Head::Spare(n) => after_item(items, RowItem::Spare(n)),
    }
}

#[cycle(after)]
#[tactic(auto, using(crate::proofs::UnderLaws::falling_under))]
fn after_terms<'a, 'b>(
    substitutions: &Substitutions<'a>,
    items: &'b [RowItem],
    ts: &'a Terms,
    i: u32,
) -> Option<&'b [RowItem]>
    requires { i < length substitutions.now }
    ensures some { IfSome result (λ r. items.now
        ≡ rows_of (terms_tree (map (term_under substitutions.now i) ts.now)) ++ r.now) }
    ensures none { IsNone result → (rest : List RowItem) → ¬ (items.now
        ≡ rows_of (terms_tree (map (term_under substitutions.now i) ts.now)) ++ rest) }
{
    let mut rest = items;
    for t in ts.items() {
        rest = after_term(substitutions, rest, t, i)?;
    }
    Some(rest)
}

fn is_row_of<'a>(substitutions: &Substitutions<'a>, row: &TermRow, t: &'a Term, i: u32) -> bool
    requires { i < length substitutions.now }
    ensures told { result ≡ term_eq row.now (term_under substitutions.now i (the_term t.now)) }
    ensures turned { result ≡ term_eq (term_under substitutions.now i (the_term t.now)) row.now }
{
    is_whole(after_term(substitutions, row.items(), t, i))
}

#[cycle(equal)]
fn is_equal_term<'a>(
    substitutions: &Substitutions<'a>,
    t: &'a Term,
    i: u32,
    u: &'a Term,
    j: u32,
) -> bool
    requires first { i < length substitutions.now }
    requires second { j < length substitutions.now }
    ensures { result ≡ term_eq (term_under substitutions.now i (the_term t.now))
        (term_under substitutions.now j (the_term u.now)) }
{
    if let (Term::Var(k), Term::Var(m)) = (t, u) {
        return substitutions.are_equal(i, *k, j, *m);
    }
    match (
        head_under(substitutions, i, t),
        head_under(substitutions, j, u),
    ) {
        (Head::Row(a), _) => is_row_of(substitutions, a, u, j),
        (Head::Var(_), Head::Row(b)) => is_row_of(substitutions, b, t, i),
        (Head::Fun(_, _, _), Head::Row(b)) => is_row_of(substitutions, b, t, i),
        (Head::Eigen(_), Head::Row(b)) => is_row_of(substitutions, b, t, i),
        (Head::Spare(_), Head::Row(b)) => is_row_of(substitutions, b, t, i),
        (Head::Var(k), Head::Var(m)) => k == m,
        (Head::Fun(f, ts, i), Head::Fun(g, us, j)) => {
            f == g && are_equal_terms(substitutions, ts, i, us, j)
        }
        (Head::Eigen(m), Head::Eigen(n)) => m == n,
        (Head::Spare(m), Head::Spare(n)) => m == n,
        _ => false,
    }
}

#[cycle(equal)]
#[tactic(auto, using(crate::proofs::UnderLaws::falling_under))]
fn are_equal_terms<'a>(
    substitutions: &Substitutions<'a>,
    ts: &'a Terms,
    i: u32,
    us: &'a Terms,
    j: u32,
) -> bool
    requires first { i < length substitutions.now }
    requires second { j < length substitutions.now }
    ensures { result ≡ terms_eq (terms_tree (map (term_under substitutions.now i) ts.now))
        (terms_tree (map (term_under substitutions.now j) us.now)) }
{
    let left = ts.items();
    let right = us.items();
    if left.len() != right.len() {
        return false;
    }
    for k in 0..left.len() {
        let t = &left[k];
        let u = &right[k];
        if !is_equal_term(substitutions, t, i, u, j) {
            return false;
        }
    }
    true
}

// Whether the formula is, under a substitution, the atom of this symbol and these arguments.
fn is_atom_of<'a>(
    substitutions: &Substitutions<'a>,
    p: SymbolId,
    ts: &'a Terms,
    i: u32,
    g: &'a Formula,
    j: u32,
) -> bool
    requires first { i < length substitutions.now }
    requires second { j < length substitutions.now }
    ensures { result
        ≡ formula_eq (tree.atom p.0 (terms_tree (map (term_under substitutions.now i) ts.now)))
        (formula_under substitutions.now j (the_formula g.now)) }
{
    match g.as_atom() {
        Some((q, us)) => p == q && are_equal_terms(substitutions, ts, i, us, j),
        None => false,
    }
}

/// Whether two formulas, each under a substitution, are the same atom.
pub fn are_same_atom<'a>(
    substitutions: &Substitutions<'a>,
    f: &'a Formula,
    i: u32,
    g: &'a Formula,
    j: u32,
) -> bool
    requires first { i < length substitutions.now }
    requires second { j < length substitutions.now }
    ensures { result ≡ (is_atom (formula_under substitutions.now i (the_formula f.now))
        && formula_eq (formula_under substitutions.now i (the_formula f.now))
        (formula_under substitutions.now j (the_formula g.now))) }
{
    match f.as_atom() {
        Some((p, ts)) => is_atom_of(substitutions, p, ts, i, g, j),
        None => false,
    }
}
