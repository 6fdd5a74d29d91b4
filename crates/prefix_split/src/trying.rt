//! Trying one list of lengths.

ghost use Rattle.std.specs.Prelude.{◌≡◌, IfOk, IsTrue, OnErr, false, length, true};
ghost use Rattle.std.specs.List.{list_all};
ghost use Rattle.calculus.specs.Labels.{is_step_length};
ghost use Rattle.calculus.specs.Syntax.{Problem};
ghost use Rattle.store_theory.specs.Bindings.{KeepsMarks};
ghost use Rattle.store_theory.specs.Stores.{Solution, Solves};
ghost use Rattle.store_theory.specs.Systems.{AreTried, HasBuiltStrings, HasNoOpenString, cells_of};
ghost use Rattle.store_theory.specs.Systems.{HasSolution, NamesItsStrings, OwnSparesSolve, is_system};
ghost use Rattle.search_theory.specs.Solving.{IsNarrowed};
ghost use Rattle.term_store.specs.Asking.{Asks};
ghost use Rattle.term_store.specs.Room.{KeepsRoom};
ghost use Rattle.term_store.specs.SystemView.{the_system};
ghost use Rattle.prefix_split.specs.Later.{IsFoundIn, IsLater, KeepsRight};
ghost use Rattle.prefix_split.specs.Trying.{IsSetTo};

use crate::equal::make_all_equal;
use crate::lengths::give_lengths;
use crate::meeting::meet_demand;
use crate::same::same_pair;
use calculus::setting::Logic;
use cop_base::NoMemory;
use std::alloc::Global;
use term_store::{Demand, Store, System};
use term_unify::Unifier;

// Gives the strings these lengths and makes the equations equal, where that can be.
fn set_lengths(
    alloc: Global,
    unifier: &mut Unifier,
    store: &mut Store,
    system: &System,
    lengths: &[u32],
) -> Result<bool, NoMemory>
    requires fits { IsTrue (is_system store.old.store (the_system system.now)) }
    requires named { NamesItsStrings store.old.store (the_system system.now) }
    requires count { length lengths.now ≡ length system.now.strings }
    ensures set { IfOk result (λ set. set ≡ true → IsNarrowed store.old.store store.new.store
        (IsSetTo (the_system system.now) lengths.now)) }
    ensures built { IfOk result (λ set. set ≡ true
        → HasBuiltStrings store.new.store (the_system system.now)) }
    ensures free { IfOk result (λ set. set ≡ true
        → HasNoOpenString store.new.store (the_system system.now)) }
    ensures right { IfOk result (λ set. set ≡ true → (P : Problem)
        → IsTrue (list_all (is_step_length P.setting.logic) lengths.now)
        → KeepsRight P (cells_of (the_system system.now)) store.old.store store.new.store) }
    ensures cannot { IfOk result (λ set. set ≡ false → (σ : Solution)
        → Solves store.old.store σ → ¬ IsSetTo (the_system system.now) lengths.now σ) }
    ensures later { IsLater store.old.store store.new.store }
    ensures room { KeepsRoom store.old store.new }
{
    if !give_lengths(store, system.strings.items(), lengths)? {
        return Ok(false);
    }
    let made = make_all_equal(alloc, unifier, store, system.equations.items())?;
    Ok(made)
}

// Whether the system has a solution with these lengths: then own spares are one. Otherwise some
// bindings may be left. A pair of goals that the lengths made the same is told.
fn try_lengths<M: Demand>(
    alloc: Global,
    unifier: &mut Unifier,
    store: &mut Store,
    logic: Logic,
    system: &System,
    more: &mut M,
    lengths: &[u32],
    same: &mut Option<usize>,
) -> Result<bool, NoMemory>
    requires fits { IsTrue (is_system store.old.store (the_system system.now)) }
    requires named { NamesItsStrings store.old.store (the_system system.now) }
    requires count { length lengths.now ≡ length system.now.strings }
    ensures found { IfOk result (λ found. found ≡ true
        → AreTried logic (the_system system.now) lengths.now
        → OwnSparesSolve (M.common more.old) logic (Asks (M.holds_for more.old))
        store.new.store (the_system system.now)) }
    ensures back { IfOk result (λ found. found ≡ true
        → AreTried logic (the_system system.now) lengths.now
        → IsFoundIn logic (M.problem more.old) (the_system system.now) store.old.store
        store.new.store) }
    ensures none { IfOk result (λ found. found ≡ false
        → ¬ HasSolution logic (Asks (M.holds_for more.old)) store.old.store
        (the_system system.now) lengths.now) }
    ensures later { IsLater store.old.store store.new.store }
    ensures room { KeepsRoom store.old store.new }
    ensures same { M.holds_for more.new ≡ M.holds_for more.old }
    ensures same_common { M.common more.new ≡ M.common more.old }
    ensures same_problem { M.problem more.new ≡ M.problem more.old }
{
    let _logic = logic;
    if !set_lengths(alloc, unifier, store, system, lengths)? {
        return Ok(false);
    }
    if !meet_demand(alloc, unifier, store, system, more)? {
        return Ok(false);
    }
    let _met = store.mark();
    match same_pair(alloc, unifier, store, system.pairs.items())? {
        None => Ok(true),
        Some(i) => {
            *same = Some(i);
            Ok(false)
        }
    }
}

// The same, but the store is as before where there is no solution, and for want of memory.
pub(crate) fn try_or_undo<M: Demand>(
    alloc: Global,
    unifier: &mut Unifier,
    store: &mut Store,
    logic: Logic,
    system: &System,
    more: &mut M,
    lengths: &[u32],
    same: &mut Option<usize>,
) -> Result<bool, NoMemory>
    requires fits { IsTrue (is_system store.old.store (the_system system.now)) }
    requires named { NamesItsStrings store.old.store (the_system system.now) }
    requires count { length lengths.now ≡ length system.now.strings }
    ensures found { IfOk result (λ found. found ≡ true
        → AreTried logic (the_system system.now) lengths.now
        → OwnSparesSolve (M.common more.old) logic (Asks (M.holds_for more.old))
        store.new.store (the_system system.now)) }
    ensures back { IfOk result (λ found. found ≡ true
        → AreTried logic (the_system system.now) lengths.now
        → IsFoundIn logic (M.problem more.old) (the_system system.now) store.old.store
        store.new.store) }
    ensures none { IfOk result (λ found. found ≡ false
        → ¬ HasSolution logic (Asks (M.holds_for more.old)) store.old.store
        (the_system system.now) lengths.now) }
    ensures unchanged { IfOk result (λ found. found ≡ false
        → store.new.store ≡ store.old.store) }
    ensures err { OnErr result (store.new.store ≡ store.old.store) }
    ensures marks { KeepsMarks store.old.store store.new.store }
    ensures room { KeepsRoom store.old store.new }
    ensures same { M.holds_for more.new ≡ M.holds_for more.old }
    ensures same_common { M.common more.new ≡ M.common more.old }
    ensures same_problem { M.problem more.new ≡ M.problem more.old }
{
    let start = store.mark();
    let found = try_lengths(alloc, unifier, store, logic, system, more, lengths, same);
    if let Ok(true) = found {
        return found;
    }
    store.undo(start);
    found
}
