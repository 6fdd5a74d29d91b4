//! Names, by which most connections are refused without a copy or a binding.

ghost use Rattle.std.specs.Prelude.{◌≡◌, ◌<◌, IsTrue, Some, false, length, map, slice_get, true};
ghost use Rattle.store_theory.specs.Bindings.{IsEnd};
ghost use Rattle.calculus.specs.declared.sort.Sort.{Sort};
ghost use Rattle.calculus.specs.declared.sort.Sort.TheVariants.{TermSort};
ghost use Rattle.store_theory.specs.Patterns.{patterns_tree};
ghost use Rattle.store_theory.specs.Stores.{Solution, Solves, names_below};
ghost use Rattle.store_theory.specs.Templates.{pattern_terms};
ghost use Rattle.search_theory.specs.States.{terms_by, values_by};
ghost use Rattle.term_store.specs.Fitting.{fits_in, parts_fit_in};
ghost use Rattle.term_store.specs.ClauseView.{the_atom, the_pattern_atom};
ghost use Rattle.term_store.specs.PatternView.{the_pattern};
ghost use Rattle.term_store.specs.RefView.{the_place, the_places};
ghost use Rattle.term_store.specs.Shown.{the_head};
ghost use Rattle.search_theory.specs.Steps.{Clash};
ghost use Rattle.search_tree.specs.Heads.{HasClash, HavePartsApart, IsApart, IsApartAt};
ghost use Rattle.search_tree.specs.Heads.{ends_differ, names_differ};

use crate::atoms::reference_at;
use term_store::{CellAtom, Content, Head, Pattern, PatternAtom, Patterns, Ref, Store, Variables};

fn names_differ(content: Content, pattern: &Pattern) -> bool
    ensures { result ≡ names_differ (the_head content) (the_pattern pattern.now) }
{
    match (content, pattern) {
        (Content::Fun(f, _), Pattern::Fun(g, _)) => f.0 != g.0,
        (Content::Fun(_, _), Pattern::Eigen(_, _)) => true,
        (Content::Eigen(p, _), Pattern::Eigen(q, _)) => p.0 != q.0,
        (Content::Eigen(_, _), Pattern::Fun(_, _)) => true,
        _ => false,
    }
}

fn is_variable(pattern: &Pattern) -> bool {
    match pattern {
        Pattern::Var(_) => true,
        Pattern::Fun(_, _) => false,
        Pattern::Eigen(_, _) => false,
        Pattern::New(_, _) => false,
    }
}

// The cell of this number.
fn part_at(parts: &[u32], i: usize) -> Ref
    requires { i < length parts.now }
    ensures { slice_get parts.now i ≡ Some result.0 }
{
    Ref(parts[i])
}

// The pattern of this number.
fn pattern_at(patterns: &[Pattern], i: usize) -> &Pattern
    requires { i < length patterns.now }
    ensures { slice_get (map the_pattern patterns.now) i ≡ Some (the_pattern result.now) }
{
    &patterns[i]
}

// Whether names show that a part of the cell, at which bindings end, is equal to no copy of the
// pattern of its number.
#[cycle(is_apart)]
fn have_parts_apart(store: &Store, end: Ref, patterns: &Patterns) -> bool
    requires { IsEnd store.now.store end.0 }
    ensures { result ≡ true → HavePartsApart store.now.store end.0 patterns.now }
{
    let parts = store.parts_at(end);
    let items = patterns.items();
    for i in 0..parts.len().min(items.len()) {
        let part = part_at(parts, i);
        let item = pattern_at(items, i);
        if is_apart(store, part, item) {
            return true;
        }
    }
    false
}

// Whether names show that the term of the cell is equal to no copy of the pattern.
#[cycle(is_apart)]
fn is_apart(store: &Store, r: Ref, pattern: &Pattern) -> bool
    requires { r.0 < length store.now.store.cells }
    ensures { result ≡ true → IsApart store.now.store r.0 (the_pattern pattern.now) }
{
    if is_variable(pattern) {
        return false;
    }
    let at = store.end(r);
    if names_differ(at.content, pattern) {
        return true;
    }
    match pattern {
        Pattern::Var(_k) => false,
        Pattern::Fun(_f, parts) => have_parts_apart(store, at.place, parts),
        Pattern::Eigen(_p, _parts) => false,
        Pattern::New(_p, _parts) => false,
    }
}

/// Whether names show that an argument of the goal is equal to that of no copy of the literal, so
/// that no copy can be connected to the goal.
pub fn has_clash(store: &Store, goal: &CellAtom, literal: &PatternAtom) -> bool
    requires { IsTrue (names_below (length store.now.store.cells) (the_atom goal.now).args) }
    ensures { result ≡ true
        → HasClash store.now.store (the_atom goal.now) (the_pattern_atom literal.now) }
{
    let terms = goal.args.items();
    let patterns = literal.args.items();
    for i in 0..terms.len().min(patterns.len()) {
        let term = reference_at(terms, i);
        let pattern = pattern_at(patterns, i);
        if is_apart(store, term, pattern) {
            return true;
        }
    }
    false
}

fn ends_differ(a: Head, b: Head) -> bool
    ensures { result ≡ ends_differ a b }
{
    match (a, b) {
        (Head::Fun(f), Head::Fun(g)) => f.0 != g.0,
        (Head::Fun(_), Head::Eigen(_)) => true,
        (Head::Eigen(p), Head::Eigen(q)) => p.0 != q.0,
        (Head::Eigen(_), Head::Fun(_)) => true,
        _ => false,
    }
}

/// Whether two terms at one place of the lists have different outermost names.
pub fn have_clash(store: &Store, xs: &[Ref], ys: &[Ref]) -> bool
    requires left { IsTrue (names_below (length store.now.store.cells) (map the_place xs.now)) }
    requires right { IsTrue (names_below (length store.now.store.cells) (map the_place ys.now)) }
    ensures { result ≡ true → Clash store.now.store (map the_place xs.now) (map the_place ys.now) }
{
    for i in 0..xs.len().min(ys.len()) {
        let x = reference_at(xs, i);
        let y = reference_at(ys, i);
        let left = store.head(x);
        let right = store.head(y);
        if ends_differ(left, right) {
            return true;
        }
    }
    false
}

// Whether names show that no bindings make the cell equal to the pattern over these variables.
fn is_apart_over(store: &Store, r: Ref, pattern: &Pattern, variables: Variables) -> bool
    requires cell { r.0 < length store.now.store.cells }
    requires fits { (sort : Sort) × IsTrue (fits_in store.now.store (the_places variables) sort
        (the_pattern pattern.now)) }
    ensures { result ≡ true → IsApartAt store.now.store (the_places variables) r.0 (the_pattern
        pattern.now) }
{
    match pattern {
        Pattern::Var(k) => {
            let variable = store.variable(variables, *k);
            let left = store.head(variable);
            let right = store.head(r);
            ends_differ(left, right)
        }
        Pattern::Fun(_, _) => names_differ(store.end(r).content, pattern),
        Pattern::Eigen(_, _) => names_differ(store.end(r).content, pattern),
        Pattern::New(_, _) => false,
    }
}

/// Whether a term and the pattern over these variables at its place have different outermost names.
pub(crate) fn have_clash_over(
    store: &Store,
    xs: &[Ref],
    patterns: &Patterns,
    variables: Variables,
) -> bool
    requires cells { IsTrue (names_below (length store.now.store.cells) (map the_place xs.now)) }
    requires fits { IsTrue (parts_fit_in store.now.store (the_places variables) TermSort false
        (patterns_tree patterns.now)) }
    ensures { result ≡ true → (σ : Solution) → Solves store.now.store σ
        → ¬ (terms_by σ (map the_place xs.now)
        ≡ pattern_terms (values_by σ (the_places variables)) (patterns_tree patterns.now)) }
{
    let items = patterns.items();
    for i in 0..xs.len().min(items.len()) {
        let x = reference_at(xs, i);
        let pattern = pattern_at(items, i);
        if is_apart_over(store, x, pattern, variables) {
            return true;
        }
    }
    false
}
