//! Labels as lists of marks.

ghost use Rattle.std.specs.Prelude.{◌≡◌, ◌<◌, ◌++◌, ℕ, List, IfOk, IsTrue, OnOk, Some, false};
ghost use Rattle.std.specs.Prelude.{length, map, nat_le, slice_get, true};
ghost use Rattle.std.specs.List.{list_all};
ghost use Rattle.calculus.specs.declared.sort.Sort.TheVariants.{MarkSort};
ghost use Rattle.store_theory.specs.Bindings.{IsEnd, NamesFrom};
ghost use Rattle.store_theory.specs.Stores.{has_sort_at};
ghost use Rattle.store_theory.specs.Systems.{has_label_sort_at, is_label};
ghost use Rattle.search_theory.specs.MarkLists.{IsFlat};
ghost use Rattle.term_store.specs.RefView.{the_place};
ghost use Rattle.term_unify.specs.Flat.{HasNoString, HasNoStringIn, IsBuiltEnd, IsFlatItem, IsStringOf};

use cop_base::NoMemory;
use std::alloc::Global;
use term_store::{Head, Ref, Store};

pub(crate) fn reference_at(refs: &[Ref], i: usize) -> Ref
    requires { i < length refs.now }
    ensures { slice_get (map the_place refs.now) i ≡ Some result.0 }
{
    refs[i]
}

// Whether a string stands at the end of bindings; otherwise it is a mark.
fn is_string(store: &Store, end: Ref) -> bool
    requires end { IsEnd store.now.store end.0 }
    requires sort { IsTrue (has_label_sort_at store.now.store end.0) }
    requires free { HasNoStringIn store.now.store end.0 }
    ensures string { result ≡ true → IsBuiltEnd store.now.store end.0 }
    ensures mark { result ≡ false → IsTrue (has_sort_at store.now.store MarkSort end.0) }
{
    match store.head(end) {
        Head::Open(_) => false,
        Head::Fun(_) => false,
        Head::Eigen(_) => false,
        Head::New(_) => false,
        Head::Marks => true,
    }
}

// Appends the marks of the built string.
fn push_parts(store: &Store, end: Ref, marks: &mut Vec<Ref>) -> Result<(), NoMemory>
    requires { IsEnd store.now.store end.0 }
    ensures { OnOk result ((ks : List ℕ) → IsStringOf store.now.store end.0 ks
        → map the_place marks.new.items ≡ map the_place marks.old.items ++ ks) }
{
    for i in 0..store.parts(end) {
        marks.push(store.part(end, i))?;
    }
    Ok(())
}

// Appends the marks that stand for an item of a label.
fn push_flat(store: &Store, item: Ref, marks: &mut Vec<Ref>) -> Result<(), NoMemory>
    requires sort { IsTrue (has_label_sort_at store.now.store item.0) }
    requires free { HasNoStringIn store.now.store item.0 }
    ensures { OnOk result ((ks : List ℕ)
        × (map the_place marks.new.items ≡ map the_place marks.old.items ++ ks)
        × IsFlatItem store.now.store item.0 ks) }
{
    let end = store.walk(item);
    if is_string(store, end) {
        push_parts(store, end, marks)?;
        return Ok(());
    }
    marks.push(end)?;
    Ok(())
}

/// The label as a list of marks: strings give theirs. No unbound string may occur in it.
pub fn flat_label(alloc: Global, store: &Store, label: &[Ref]) -> Result<Vec<Ref>, NoMemory>
    requires label { IsTrue (is_label store.now.store (map the_place label.now)) }
    requires free { HasNoString store.now.store (map the_place label.now) }
    ensures flat { IfOk result (λ marks. IsFlat store.now.store (map the_place label.now)
        (map the_place marks.items)) }
    ensures free { IfOk result (λ marks. HasNoString store.now.store (map the_place marks.items)) }
    ensures from { IfOk result (λ marks. (base : ℕ) → NamesFrom base store.now.store
        → IsTrue (list_all (nat_le base) (map the_place label.now))
        → IsTrue (list_all (nat_le base) (map the_place marks.items))) }
{
    let _now = store.mark();
    let mut marks = Vec::new(alloc);
    for i in 0..label.len() {
        push_flat(store, reference_at(label, i), &mut marks)?;
    }
    Ok(marks)
}
