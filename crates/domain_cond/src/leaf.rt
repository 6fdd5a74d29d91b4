//! What stands in terms outside the values of names.

ghost use Rattle.std.specs.Prelude.{◌≡◌, ◌++◌, ◌<◌, ℕ, Some, IfOk, OnOk, false, length, map, slice_get, true};
ghost use Rattle.store_theory.specs.Bindings.{IsEnd};
ghost use Rattle.store_theory.specs.Stores.{Cell, parts_of};
ghost use Rattle.term_store.specs.RefView.{the_place};
ghost use Rattle.domain_cond.specs.Leaves.{AreLeaves, has_arguments};

use cop_base::NoMemory;
use std::alloc::Global;
use std::collections::HashSet;
use term_store::{Head, Ref, Store};

// Whether a function stands at the end of bindings, with arguments.
fn has_arguments(store: &Store, end: Ref) -> bool
    requires { IsEnd store.now.store end.0 }
    ensures { (c : Cell) → slice_get store.now.store.cells end.0 ≡ Some c
        → result ≡ has_arguments c }
{
    match store.head(end) {
        Head::Fun(_) => store.parts(end) != 0,
        Head::Open(_) => false,
        Head::Eigen(_) => false,
        Head::New(_) => false,
        Head::Marks => false,
    }
}

/// Appends the parts of the built cell.
pub(crate) fn push_parts(store: &Store, end: Ref, items: &mut Vec<Ref>) -> Result<(), NoMemory>
    requires { IsEnd store.now.store end.0 }
    ensures { OnOk result ((c : Cell) → slice_get store.now.store.cells end.0 ≡ Some c
        → map the_place items.new.items ≡ map the_place items.old.items ++ parts_of c) }
{
    for i in 0..store.parts(end) {
        items.push(store.part(end, i))?;
    }
    Ok(())
}

/// The leaves of the term: its variables, constants and names outside the values of names. Each
/// cell with arguments is looked at once. Fails where memory ends.
pub fn leaves(alloc: Global, store: &Store, term: Ref) -> Result<Vec<Ref>, NoMemory>
    requires { term.0 < length store.now.store.cells }
    ensures { IfOk result (λ es. AreLeaves store.now.store term.0 (map the_place es.items)) }
{
    let _now = store.mark();
    let mut leaves = Vec::new(alloc);
    let mut seen = HashSet::new(alloc);
    let mut pending = Vec::new(alloc);
    pending.push(term)?;
    while let Some(r) = pending.pop() {
        let end = store.walk(r);
        if !has_arguments(store, end) {
            leaves.push(end)?;
        } else if seen.insert(end.0)? {
            push_parts(store, end, &mut pending)?;
        }
    }
    Ok(leaves)
}
