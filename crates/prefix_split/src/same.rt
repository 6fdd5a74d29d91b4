//! Goals of one branch that the bindings make the same.

ghost use Rattle.std.specs.Prelude.{◌≡◌, ℕ, None, Some, IfOk, IfSome, IsTrue, false};
ghost use Rattle.std.specs.Prelude.{map, slice_get, true};
ghost use Rattle.std.specs.List.{AllByRecursion, list_all};
ghost use Rattle.calculus.specs.Equality.{sign_eq};
ghost use Rattle.store_theory.specs.Systems.{is_cell_atom, is_pair};
ghost use Rattle.store_theory.specs.Systems as tree;
ghost use Rattle.search_theory.specs.Regular.{AreSame};
ghost use Rattle.term_store.specs.ClauseView.{the_atom};
ghost use Rattle.term_store.specs.SystemView.{the_pair};
ghost use Rattle.prefix_split.specs.Later.{HasNoString};
ghost use Rattle.prefix_split.specs.Same.{DifferNow, HaveSameAtom};

use crate::places::pair_at;
use cop_base::NoMemory;
use std::alloc::Global;
use term_store::{CellAtom, Sign, Store};
use term_unify::{Unifier, are_same_cells, are_same_labels};

fn are_same_sign(a: Sign, b: Sign) -> bool
    ensures { result ≡ sign_eq a b }
{
    match (a, b) {
        (Sign::T, Sign::T) | (Sign::F, Sign::F) => true,
        (Sign::T, Sign::F) | (Sign::F, Sign::T) => false,
    }
}

// Whether the bindings make the two the same signed atom, at whatever labels.
pub(crate) fn have_same_atom(
    unifier: &mut Unifier,
    store: &Store,
    a: &CellAtom,
    b: &CellAtom,
) -> Result<bool, NoMemory>
    requires left { IsTrue (is_cell_atom store.now.store (the_atom a.now)) }
    requires right { IsTrue (is_cell_atom store.now.store (the_atom b.now)) }
    ensures same { IfOk result (λ same. same ≡ true
        → HaveSameAtom store.now.store (the_atom a.now) (the_atom b.now)) }
    ensures different { IfOk result (λ same. same ≡ false
        → ¬ AreSame store.now.store (the_atom a.now) (the_atom b.now)) }
{
    let _now = store.mark();
    if !are_same_sign(a.sign, b.sign) {
        return Ok(false);
    }
    if a.symbol.0 != b.symbol.0 {
        return Ok(false);
    }
    let same = are_same_cells(unifier, store, a.args.items(), b.args.items())?;
    Ok(same)
}

// Whether the bindings make the two the same signed atom at one label.
fn are_same(
    alloc: Global,
    unifier: &mut Unifier,
    store: &Store,
    a: &CellAtom,
    b: &CellAtom,
) -> Result<bool, NoMemory>
    requires left { IsTrue (is_cell_atom store.now.store (the_atom a.now)) }
    requires right { IsTrue (is_cell_atom store.now.store (the_atom b.now)) }
    requires free_left { HasNoString store.now.store (the_atom a.now).label }
    requires free_right { HasNoString store.now.store (the_atom b.now).label }
    ensures same { IfOk result (λ same. same ≡ true
        → AreSame store.now.store (the_atom a.now) (the_atom b.now)) }
    ensures different { IfOk result (λ same. same ≡ false
        → ¬ AreSame store.now.store (the_atom a.now) (the_atom b.now)) }
{
    if !have_same_atom(unifier, store, a, b)? {
        return Ok(false);
    }
    let same = are_same_labels(alloc, unifier, store, a.label.items(), b.label.items())?;
    Ok(same)
}

// The number of the first pair whose goals the bindings make the same.
pub(crate) fn same_pair(
    alloc: Global,
    unifier: &mut Unifier,
    store: &Store,
    pairs: &[(CellAtom, CellAtom)],
) -> Result<Option<usize>, NoMemory>
    requires fits { IsTrue (list_all (is_pair store.now.store) (map the_pair pairs.now)) }
    requires free { (i : ℕ) (p : tree.Pair) → slice_get (map the_pair pairs.now) i ≡ Some p
        → HasNoString store.now.store p.upper.label × HasNoString store.now.store p.lower.label }
    ensures same { IfOk result (λ o. IfSome o (λ i. (p : tree.Pair)
        × (slice_get (map the_pair pairs.now) i ≡ Some p)
        × AreSame store.now.store p.upper p.lower)) }
    ensures apart { IfOk result (λ o. o ≡ None
        → AllByRecursion (DifferNow store.now.store) (map the_pair pairs.now)) }
{
    for i in 0..pairs.len() {
        let pair = pair_at(pairs, i);
        if are_same(alloc, unifier, store, &pair.0, &pair.1)? {
            return Ok(Some(i));
        }
    }
    Ok(None)
}
