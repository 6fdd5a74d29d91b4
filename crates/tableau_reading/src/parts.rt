//! The cells of whose values the value of a cell is made.

ghost use Rattle.std.specs.Prelude.{◌≡◌, ◌<◌, IfOk, IsTrue, Some, length, map, slice_get};
ghost use Rattle.store_theory.specs.Bindings.{IsEnd};
ghost use Rattle.store_theory.specs.Stores.{names_below};
ghost use Rattle.store_theory.specs.Stores as cells;
ghost use Rattle.term_store.specs.RefView.{the_place};
ghost use Rattle.tableau_reading.specs.Grounds.{Needs, home_of, is_open_term, or_nothing};
ghost use Rattle.tableau_reading.specs.Readable.{AreHomesBelow};

use crate::homes::Homes;
use calculus::sort::Sort;
use cop_base::NoMemory;
use std::alloc::Global;
use term_store::{Head, Ref, Store};

// Whether this is an unbound variable for a term.
fn is_open_term(head: Head) -> bool
    ensures { result ≡ is_open_term head }
{
    match head {
        Head::Open(Sort::TermSort) => true,
        Head::Open(Sort::MarkSort) => false,
        Head::Open(Sort::StringSort) => false,
        Head::Fun(_) => false,
        Head::Eigen(_) => false,
        Head::New(_) => false,
        Head::Marks => false,
    }
}

// The parts of a cell.
fn parts_of(alloc: Global, store: &Store, end: Ref) -> Result<Vec<Ref>, NoMemory>
    requires { IsEnd store.now.store end.0 }
    ensures parts { IfOk result (λ v. (c : cells.Cell) → slice_get store.now.store.cells end.0 ≡ Some c
        → map the_place v.items ≡ cells.parts_of c) }
    ensures below { IfOk result (λ v. IsTrue (names_below (length store.now.store.cells)
        (map the_place v.items))) }
{
    let mut refs = Vec::new(alloc);
    for i in 0..store.parts(end) {
        refs.push(store.part(end, i))?;
    }
    Ok(refs)
}

// The items of the label at which the spare of a variable stands.
fn home_items(
    alloc: Global,
    store: &Store,
    homes: &Homes,
    variable: Ref,
) -> Result<Vec<Ref>, NoMemory>
    requires { AreHomesBelow store.now.store homes.now }
    ensures items { IfOk result (λ v. map the_place v.items ≡ or_nothing (home_of homes.now variable.0)) }
    ensures below { IfOk result (λ v. IsTrue (names_below (length store.now.store.cells)
        (map the_place v.items))) }
{
    let _store = store;
    let mut refs = Vec::new(alloc);
    match homes.label_of(variable) {
        None => Ok(refs),
        Some(label) => {
            refs.extend_from_slice(label)?;
            Ok(refs)
        }
    }
}

/// The cells of whose values the value of this one is made: its parts, or the items of the label at
/// which its spare stands.
pub(crate) fn needs(
    alloc: Global,
    store: &Store,
    homes: &Homes,
    end: Ref,
) -> Result<Vec<Ref>, NoMemory>
    requires end { IsEnd store.now.store end.0 }
    requires homes { AreHomesBelow store.now.store homes.now }
    ensures needs { IfOk result (λ v. Needs store.now.store homes.now end.0 (map the_place v.items)) }
    ensures below { IfOk result (λ v. IsTrue (names_below (length store.now.store.cells)
        (map the_place v.items))) }
{
    if is_open_term(store.head(end)) {
        let items = home_items(alloc, store, homes, end)?;
        return Ok(items);
    }
    let parts = parts_of(alloc, store, end)?;
    Ok(parts)
}
