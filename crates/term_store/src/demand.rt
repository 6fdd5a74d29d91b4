//! What a domain condition asks of gamma terms.

ghost use Rattle.std.specs.Prelude.{◌≡◌, Bool, IfOk, IfSome, IsTrue, List, None, OnErr};
ghost use Rattle.store_theory.specs.Bindings.{AddsBuilt, KeepsMarks};
ghost use Rattle.calculus.specs.Instances as instances;
ghost use Rattle.calculus.specs.Syntax as syntax;
ghost use Rattle.store_theory.specs.Stores.{Solution, Solves};
ghost use Rattle.store_theory.specs.Systems.{HasBuiltStrings, HasNoOpenString, IsDemandEquation};
ghost use Rattle.store_theory.specs.Systems.{MeetsDemand, OwnSparesMeet, cells_of, is_system};
ghost use Rattle.std.specs.List.{AllByRecursion, list_all};
ghost use Rattle.search_theory.specs.KeepingCells.{EquatesRight};
ghost use Rattle.term_store.specs.Asking.{Asks};
ghost use Rattle.term_store.specs.Homes.{BeginsLabel, is_home};
ghost use Rattle.term_store.specs.Room.{KeepsRoom};
ghost use Rattle.term_store.specs.SystemView.{the_equation, the_system};

use crate::home::HomeList;
use crate::store::Store;
use crate::system::{Equation, System};
use cop_base::NoMemory;
use std::alloc::Global;

/// A condition on gamma terms and their labels, told by equations between labels, one at a time.
pub trait Demand {
    // whether the condition holds for the ground gamma terms and their labels
    ghost holds_for: { Self → List instances.GammaUse → Bool };

    // whether spare constants of every domain exist
    ghost common: { Self → Bool };

    // the problem whose names it judges
    ghost problem: { Self → syntax.Problem };

    /// An equation that the condition forces and that does not hold yet. None is left only where
    /// giving each unbound variable its own spare meets the condition. It may add built cells, and
    /// binds nothing. Want of memory leaves the store as it was.
    fn next(&mut self, store: &mut Store, system: &System) -> Result<Option<Equation>, NoMemory>
        requires fits { IsTrue (is_system store.old.store (the_system system.now)) }
        requires built { HasBuiltStrings store.old.store (the_system system.now) }
        requires no_string { HasNoOpenString store.old.store (the_system system.now) }
        ensures equation { IfOk result (λ o. IfSome o (λ e. IsDemandEquation (Asks (holds_for self.old))
            store.new.store (the_system system.now) (the_equation e))) }
        ensures none { IfOk result (λ o. o ≡ None → OwnSparesMeet (common self.old)
            (Asks (holds_for self.old)) store.new.store (the_system system.now)) }
        ensures adds { AddsBuilt store.old.store store.new.store }
        ensures right { IfOk result (λ o. IfSome o (λ e. EquatesRight (problem self.old)
            (cells_of (the_system system.now)) store.old.store store.new.store (the_equation e))) }
        ensures unchanged { IfOk result (λ o. o ≡ None → store.new.store ≡ store.old.store) }
        ensures err { OnErr result (store.new.store ≡ store.old.store) }
        ensures marks { KeepsMarks store.old.store store.new.store }
        ensures room { KeepsRoom store.old store.new }
        ensures same { holds_for self.new ≡ holds_for self.old }
        ensures same_common { common self.new ≡ common self.old }
        ensures same_problem { problem self.new ≡ problem self.old };

    /// The labels that the condition forces to be beginnings of others, whatever the strings are.
    /// It may add built cells, and binds nothing. Want of memory leaves the store as it was.
    fn homes(&self, alloc: Global, store: &mut Store, system: &System) -> Result<HomeList, NoMemory>
        requires fits { IsTrue (is_system store.old.store (the_system system.now)) }
        ensures labels { IfOk result (λ hs. IsTrue (list_all (is_home store.new.store) hs)) }
        ensures forced { IfOk result (λ hs. (σ : Solution) → Solves store.new.store σ
            → MeetsDemand (Asks (holds_for self.now)) (the_system system.now) σ
            → AllByRecursion (BeginsLabel σ) hs) }
        ensures adds { AddsBuilt store.old.store store.new.store }
        ensures err { OnErr result (store.new.store ≡ store.old.store) }
        ensures marks { KeepsMarks store.old.store store.new.store }
        ensures room { KeepsRoom store.old store.new };
}
