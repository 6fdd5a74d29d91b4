//! Making the two sides of equations equal, mark by mark.

ghost use Rattle.std.specs.Prelude.{◌≡◌, ◌++◌, ℕ, Some, IfOk, IsTrue, false, map, slice_get, true};
ghost use Rattle.std.specs.List.{AllByRecursion, flat_map, list_all};
ghost use Rattle.calculus.specs.Syntax.{Problem};
ghost use Rattle.calculus.specs.declared.sort.Sort.TheVariants.{MarkSort};
ghost use Rattle.store_theory.specs.Bindings.{BindsOnly};
ghost use Rattle.store_theory.specs.Stores.{Solution, Solves, has_sort_at};
ghost use Rattle.store_theory.specs.Systems.{AreEqual, is_equation, is_label};
ghost use Rattle.store_theory.specs.Systems as tree;
ghost use Rattle.search_theory.specs.Solving.{CannotEqual, IsNarrowed};
ghost use Rattle.search_theory.specs.MarkLists.{NeverSame, SameMarks};
ghost use Rattle.term_store.specs.RefView.{the_place};
ghost use Rattle.term_store.specs.Room.{KeepsRoom};
ghost use Rattle.term_store.specs.SystemView.{the_equation};
ghost use Rattle.prefix_split.specs.Equated.{equated, equation_cells};
ghost use Rattle.prefix_split.specs.Later.{HasNoString, IsLater, KeepsRight};

use crate::places::{equation_at, reference_at};
use cop_base::NoMemory;
use std::alloc::Global;
use term_store::{Equation, Ref, Store};
use term_unify::{Unifier, flat_label};

// Binds so that the marks are the same. Where they cannot be, some bindings may be left.
fn unify_marks(
    unifier: &mut Unifier,
    store: &mut Store,
    xs: &[Ref],
    ys: &[Ref],
) -> Result<bool, NoMemory>
    requires left { IsTrue (list_all (has_sort_at store.old.store MarkSort)
        (map the_place xs.now)) }
    requires right { IsTrue (list_all (has_sort_at store.old.store MarkSort)
        (map the_place ys.now)) }
    requires free_left { HasNoString store.old.store (map the_place xs.now) }
    requires free_right { HasNoString store.old.store (map the_place ys.now) }
    ensures same { IfOk result (λ same. same ≡ true → IsNarrowed store.old.store store.new.store
        (SameMarks (map the_place xs.now) (map the_place ys.now))) }
    ensures right { IfOk result (λ same. same ≡ true → (P : Problem) → KeepsRight P
        (map the_place xs.now ++ map the_place ys.now) store.old.store store.new.store) }
    ensures never { IfOk result (λ same. same ≡ false
        → NeverSame store.old.store (map the_place xs.now) (map the_place ys.now)) }
    ensures binds { BindsOnly store.old.store store.new.store }
    ensures later { IsLater store.old.store store.new.store }
    ensures room { KeepsRoom store.old store.new }
{
    if xs.len() != ys.len() {
        return Ok(false);
    }
    for i in 0..xs.len() {
        let _now = store.mark();
        if !unifier.unify(store, reference_at(xs, i), reference_at(ys, i))? {
            return Ok(false);
        }
    }
    Ok(true)
}

// Binds so that both labels are equal. Where they cannot be, some bindings may be left.
pub(crate) fn make_equal(
    alloc: Global,
    unifier: &mut Unifier,
    store: &mut Store,
    left: &[Ref],
    right: &[Ref],
) -> Result<bool, NoMemory>
    requires left { IsTrue (is_label store.old.store (map the_place left.now)) }
    requires right { IsTrue (is_label store.old.store (map the_place right.now)) }
    requires free_left { HasNoString store.old.store (map the_place left.now) }
    requires free_right { HasNoString store.old.store (map the_place right.now) }
    ensures made { IfOk result (λ made. made ≡ true → IsNarrowed store.old.store store.new.store
        (λ σ. AreEqual σ (equated (map the_place left.now) (map the_place right.now)))) }
    ensures right { IfOk result (λ made. made ≡ true → (P : Problem) → KeepsRight P
        (map the_place left.now ++ map the_place right.now) store.old.store store.new.store) }
    ensures never { IfOk result (λ made. made ≡ false → CannotEqual store.old.store
        (equated (map the_place left.now) (map the_place right.now))) }
    ensures binds { BindsOnly store.old.store store.new.store }
    ensures later { IsLater store.old.store store.new.store }
    ensures room { KeepsRoom store.old store.new }
{
    let xs = flat_label(alloc, store, left)?;
    let ys = flat_label(alloc, store, right)?;
    let made = unify_marks(unifier, store, &xs, &ys)?;
    Ok(made)
}

// The same for all equations.
pub(crate) fn make_all_equal(
    alloc: Global,
    unifier: &mut Unifier,
    store: &mut Store,
    equations: &[Equation],
) -> Result<bool, NoMemory>
    requires fits { IsTrue (list_all (is_equation store.old.store)
        (map the_equation equations.now)) }
    requires free { (i : ℕ) (e : tree.Equation)
        → slice_get (map the_equation equations.now) i ≡ Some e
        → HasNoString store.old.store e.left × HasNoString store.old.store e.right }
    ensures made { IfOk result (λ made. made ≡ true → IsNarrowed store.old.store store.new.store
        (λ σ. AllByRecursion (AreEqual σ) (map the_equation equations.now))) }
    ensures right { IfOk result (λ made. made ≡ true → (P : Problem) → KeepsRight P
        (flat_map equation_cells (map the_equation equations.now)) store.old.store store.new.store) }
    ensures never { IfOk result (λ made. made ≡ false → (σ : Solution) → Solves store.old.store σ
        → ¬ AllByRecursion (AreEqual σ) (map the_equation equations.now)) }
    ensures later { IsLater store.old.store store.new.store }
    ensures room { KeepsRoom store.old store.new }
{
    for i in 0..equations.len() {
        let e = equation_at(equations, i);
        if !make_equal(alloc, unifier, store, e.left.items(), e.right.items())? {
            return Ok(false);
        }
    }
    Ok(true)
}
