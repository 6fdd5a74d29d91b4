//! Strings of marks, unified.

use cop_base::NoMemory;
use std::alloc::Global;
use std::test::Fail;
use term_store::{Sort, Store};
use term_unify::{Unifier, unify};

// Whether strings of so many new marks are unified.
fn are_unified(alloc: Global, left: u32, right: u32) -> Result<bool, NoMemory> {
    let mut store = Store::new(alloc)?;
    let a = store.marks(left)?;
    let b = store.marks(right)?;
    let equal = unify(alloc, &mut store, a, b)?;
    Ok(equal)
}

// Whether a variable of this sort is unified with a string.
fn is_unified(alloc: Global, sort: Sort) -> Result<bool, NoMemory> {
    let mut store = Store::new(alloc)?;
    let mut unifier = Unifier::new(alloc);
    let a = store.marks(2)?;
    store.reserve(1)?;
    let b = store.fresh(sort);
    let equal = unifier.unify(&mut store, b, a)?;
    Ok(equal)
}

#[test]
fn strings_of_one_length(rt: HostRuntime) -> Result<(), Fail> {
    for (left, right, want) in [(0, 0, true), (3, 3, true), (3, 4, false), (1, 0, false)] {
        assert!(rt; are_unified(rt.alloc(), left, right)? == want);
    }
    Ok(())
}

#[test]
fn variables_of_one_sort(rt: HostRuntime) -> Result<(), Fail> {
    assert!(rt; is_unified(rt.alloc(), Sort::StringSort)?);
    assert!(rt; !is_unified(rt.alloc(), Sort::MarkSort)?);
    Ok(())
}
