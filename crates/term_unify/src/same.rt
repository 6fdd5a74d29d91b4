//! Cells and labels that the bindings make the same.

ghost use Rattle.std.specs.Prelude.{◌≡◌, IfOk, IsTrue, false, length, map, true};
ghost use Rattle.store_theory.specs.Stores.{names_below};
ghost use Rattle.store_theory.specs.Systems.{is_label};
ghost use Rattle.term_store.specs.RefView.{the_place};
ghost use Rattle.term_unify.specs.Flat.{HasNoString};
ghost use Rattle.term_unify.specs.Same.{AreSameCells, AreSameLabels, DifferAt};

use crate::flat::{flat_label, reference_at};
use crate::solve::Unifier;
use cop_base::NoMemory;
use std::alloc::Global;
use term_store::{Ref, Store};

/// Whether the bindings make the cells of both lists equal, one by one.
pub fn are_same_cells(
    unifier: &mut Unifier,
    store: &Store,
    xs: &[Ref],
    ys: &[Ref],
) -> Result<bool, NoMemory>
    requires left { IsTrue (names_below (length store.now.store.cells) (map the_place xs.now)) }
    requires right { IsTrue (names_below (length store.now.store.cells) (map the_place ys.now)) }
    ensures same { IfOk result (λ same. same ≡ true
        → AreSameCells store.now.store (map the_place xs.now) (map the_place ys.now)) }
    ensures different { IfOk result (λ same. same ≡ false
        → DifferAt store.now.store (map the_place xs.now) (map the_place ys.now)) }
{
    if xs.len() != ys.len() {
        return Ok(false);
    }
    for i in 0..xs.len() {
        if !unifier.are_same(store, reference_at(xs, i), reference_at(ys, i))? {
            return Ok(false);
        }
    }
    Ok(true)
}

/// Whether the bindings make both labels equal. No unbound string may occur in them.
pub fn are_same_labels(
    alloc: Global,
    unifier: &mut Unifier,
    store: &Store,
    left: &[Ref],
    right: &[Ref],
) -> Result<bool, NoMemory>
    requires left { IsTrue (is_label store.now.store (map the_place left.now)) }
    requires right { IsTrue (is_label store.now.store (map the_place right.now)) }
    requires free_left { HasNoString store.now.store (map the_place left.now) }
    requires free_right { HasNoString store.now.store (map the_place right.now) }
    ensures same { IfOk result (λ same. same ≡ true
        → AreSameLabels store.now.store (map the_place left.now) (map the_place right.now)) }
    ensures different { IfOk result (λ same. same ≡ false
        → ¬ AreSameLabels store.now.store (map the_place left.now) (map the_place right.now)) }
{
    let _now = store.mark();
    let xs = flat_label(alloc, store, left)?;
    let ys = flat_label(alloc, store, right)?;
    let same = are_same_cells(unifier, store, &xs, &ys)?;
    Ok(same)
}
