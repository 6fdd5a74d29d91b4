//! Meeting a demand: its equations are made equal until it has none.

ghost use Rattle.std.specs.Prelude.{◌≡◌, IfOk, IsTrue, false, true};
ghost use Rattle.store_theory.specs.Stores.{Solution, Solves};
ghost use Rattle.store_theory.specs.Systems.{HasBuiltStrings, HasNoOpenString, MeetsDemand};
ghost use Rattle.store_theory.specs.Systems.{OwnSparesMeet, cells_of, is_system};
ghost use Rattle.search_theory.specs.KeepingCells.{SolvesRight};
ghost use Rattle.term_store.specs.Asking.{Asks};
ghost use Rattle.term_store.specs.Room.{KeepsRoom};
ghost use Rattle.term_store.specs.SystemView.{the_system};
ghost use Rattle.prefix_split.specs.Later.{IsLater};
ghost use Rattle.prefix_split.specs.Meeting.{IsForced};

use crate::equal::make_equal;
use cop_base::NoMemory;
use std::alloc::Global;
use term_store::{Demand, Store, System};
use term_unify::Unifier;

// Binds until own spares meet the demand. Where no solution meets it, some bindings may be left.
pub(crate) fn meet_demand<M: Demand>(
    alloc: Global,
    unifier: &mut Unifier,
    store: &mut Store,
    system: &System,
    more: &mut M,
) -> Result<bool, NoMemory>
    requires fits { IsTrue (is_system store.old.store (the_system system.now)) }
    requires built { HasBuiltStrings store.old.store (the_system system.now) }
    requires free { HasNoOpenString store.old.store (the_system system.now) }
    ensures met { IfOk result (λ met. met ≡ true → OwnSparesMeet (M.common more.old)
        (Asks (M.holds_for more.old)) store.new.store (the_system system.now)) }
    ensures forced { IfOk result (λ met. met ≡ true → IsForced (Asks (M.holds_for more.old))
        (the_system system.now) store.old.store store.new.store) }
    ensures never { IfOk result (λ met. met ≡ false → (σ : Solution) → Solves store.old.store σ
        → ¬ MeetsDemand (Asks (M.holds_for more.old)) (the_system system.now) σ) }
    ensures later { IsLater store.old.store store.new.store }
    ensures right { IfOk result (λ met. met ≡ true → SolvesRight (M.problem more.old)
        (cells_of (the_system system.now)) store.old.store store.new.store) }
    ensures room { KeepsRoom store.old store.new }
    ensures same { M.holds_for more.new ≡ M.holds_for more.old }
    ensures same_common { M.common more.new ≡ M.common more.old }
    ensures same_problem { M.problem more.new ≡ M.problem more.old }
{
    let _now = store.mark();
    while let Some(e) = more.next(store, system)? {
        let _now = store.mark();
        if !make_equal(alloc, unifier, store, e.left.items(), e.right.items())? {
            return Ok(false);
        }
    }
    Ok(true)
}
