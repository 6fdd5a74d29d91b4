//! Own spares where no spares of every domain exist.

ghost use Rattle.std.specs.Prelude.{◌≡◌, None, IfOk, IfSome, IsTrue, OnErr, false, map};
ghost use Rattle.calculus.specs.declared.setting.Domains.TheVariants.{Varying};
ghost use Rattle.store_theory.specs.Bindings.{AddsBuilt};
ghost use Rattle.calculus.specs.Skolem.{common_spares};
ghost use Rattle.calculus.specs.Syntax as syntax;
ghost use Rattle.store_theory.specs.Systems.{AllAllowed, HasNoOpenString, IsDemandEquation, cells_of};
ghost use Rattle.store_theory.specs.Systems.{is_system};
ghost use Rattle.search_theory.specs.KeepingCells.{EquatesRight};
ghost use Rattle.term_store.specs.Room.{KeepsRoom};
ghost use Rattle.term_store.specs.SystemView.{the_equation, the_system};
ghost use Rattle.domain_cond.specs.Conditions.{IsForced, IsNeverEqual};
ghost use Rattle.domain_cond.specs.Standings.{HasOwnSpares};

use crate::ranking::has_no_cycle;
use crate::standing::{constant_stands, standings, unequal_labels};
use cop_base::{NoMemory, PosId};
use std::alloc::Global;
use term_store::{Equation, Prefix, Store, System};
use term_unify::Unifier;

// As `impossible`, but a mark may be left.
fn equation_with_mark(alloc: Global, store: &mut Store) -> Result<Equation, NoMemory>
    ensures never { IfOk result (λ e. IsForced store.new.store (λ σ. ⊥) (the_equation e)) }
    ensures apart { IfOk result (λ e. IsNeverEqual store.new.store (the_equation e)) }
    ensures adds { AddsBuilt store.old.store store.new.store }
    ensures room { KeepsRoom store.old store.new }
{
    let _before = store.mark();
    let mark = store.new_mark(PosId(0), &[])?;
    let _now = store.mark();
    let mut right = Prefix::new(alloc);
    right.push(mark)?;
    let left = Prefix::new(alloc);
    Ok(Equation { left, right })
}

// An equation that nothing solves. Want of memory leaves the store as it was.
fn impossible(alloc: Global, store: &mut Store) -> Result<Equation, NoMemory>
    ensures never { IfOk result (λ e. IsForced store.new.store (λ σ. ⊥) (the_equation e)) }
    ensures apart { IfOk result (λ e. IsNeverEqual store.new.store (the_equation e)) }
    ensures adds { AddsBuilt store.old.store store.new.store }
    ensures err { OnErr result (store.new.store ≡ store.old.store) }
    ensures room { KeepsRoom store.old store.new }
{
    let start = store.mark();
    match equation_with_mark(alloc, store) {
        Ok(e) => Ok(e),
        Err(NoMemory) => {
            store.undo(start);
            Err(NoMemory)
        }
    }
}

/// The first equation without which there are no own spares that may stand in their gamma terms,
/// where spares of every domain do not exist. Where there are own spares, and for want of memory,
/// the store is as before.
pub(crate) fn unmet_by_spares(
    alloc: Global,
    unifier: &mut Unifier,
    store: &mut Store,
    system: &System,
) -> Result<Option<Equation>, NoMemory>
    requires fits { IsTrue (is_system store.old.store (the_system system.now)) }
    requires no_string { HasNoOpenString store.old.store (the_system system.now) }
    ensures unmet { IfOk result (λ o. IfSome o (λ e. (P : syntax.Problem)
        → P.setting.domains ≡ Varying → common_spares P ≡ false
        → IsDemandEquation (AllAllowed P) store.new.store (the_system system.now)
        (the_equation e))) }
    ensures met { IfOk result (λ o. o ≡ None
        → HasOwnSpares store.old.store (the_system system.now).gammas) }
    ensures right { IfOk result (λ o. IfSome o (λ e. (P : syntax.Problem) → EquatesRight P
        (cells_of (the_system system.now)) store.old.store store.new.store (the_equation e))) }
    ensures unchanged { IfOk result (λ o. o ≡ None → store.new.store ≡ store.old.store) }
    ensures err { OnErr result (store.new.store ≡ store.old.store) }
    ensures adds { AddsBuilt store.old.store store.new.store }
    ensures room { KeepsRoom store.old store.new }
{
    let _now = store.mark();
    let gammas = system.gammas.items();
    let standings = standings(alloc, store, gammas)?;
    if constant_stands(store, gammas, &standings) {
        let e = impossible(alloc, store)?;
        return Ok(Some(e));
    }
    if let Some(e) = unequal_labels(alloc, unifier, store, gammas, &standings)? {
        return Ok(Some(e));
    }
    if has_no_cycle(alloc, store, &standings)? {
        return Ok(None);
    }
    let e = impossible(alloc, store)?;
    Ok(Some(e))
}
