//! Varying domains.

ghost use Rattle.std.specs.Prelude.{◌≡◌, IfOk, IfSome, IsTrue, None, OnErr};
ghost use Rattle.std.specs.List.{list_all};
ghost use Rattle.calculus.specs.declared.setting.Domains.TheVariants.{Varying};
ghost use Rattle.calculus.specs.Instances.{gamma_is_allowed};
ghost use Rattle.calculus.specs.Skolem.{common_spares};
ghost use Rattle.store_theory.specs.Bindings.{AddsBuilt};
ghost use Rattle.store_theory.specs.Systems.{AllAllowed, HasNoOpenString, IsDemandEquation};
ghost use Rattle.store_theory.specs.Systems.{OwnSparesMeet, cells_of, is_system};
ghost use Rattle.search_theory.specs.KeepingCells.{EquatesRight};
ghost use Rattle.term_store.specs.Room.{KeepsRoom};
ghost use Rattle.term_store.specs.SystemView.{the_equation, the_system};

use crate::homes::forced_homes;
use crate::own::unmet_by_spares;
use crate::unmet::unmet;
use cop_base::NoMemory;
use std::alloc::Global;
use tableau_core::SizedProblem;
use term_store::{Demand, Equation, HomeList, Store, System};
use term_unify::Unifier;

/// Varying domains: a name may stand at its home alone.
#[derive(Drop)]
pub struct VaryingDemand<'a> {
    alloc: Global,
    problem: &'a SizedProblem<'a>,
    unifier: Unifier,
    ghost varying: { problem.now.setting.domains ≡ Varying },
}

impl<'a> VaryingDemand<'a> {
    /// The condition of a problem with varying domains.
    pub fn new(alloc: Global, problem: &'a SizedProblem<'a>) -> VaryingDemand<'a>
        requires { problem.now.setting.domains ≡ Varying }
        ensures { result.problem.now ≡ problem.now }
    {
        VaryingDemand {
            alloc,
            problem,
            unifier: Unifier::new(alloc),
        }
    }
}

// As `next` of the demand.
fn next_equation(
    alloc: Global,
    unifier: &mut Unifier,
    problem: &SizedProblem,
    store: &mut Store,
    system: &System,
) -> Result<Option<Equation>, NoMemory>
    requires fits { IsTrue (is_system store.old.store (the_system system.now)) }
    requires no_string { HasNoOpenString store.old.store (the_system system.now) }
    requires varying { problem.now.setting.domains ≡ Varying }
    ensures equation { IfOk result (λ o. IfSome o (λ e. IsDemandEquation (AllAllowed problem.now)
        store.new.store (the_system system.now) (the_equation e))) }
    ensures none { IfOk result (λ o. o ≡ None → OwnSparesMeet (common_spares problem.now)
        (AllAllowed problem.now) store.new.store (the_system system.now)) }
    ensures right { IfOk result (λ o. IfSome o (λ e. EquatesRight problem.now
        (cells_of (the_system system.now)) store.old.store store.new.store (the_equation e))) }
    ensures unchanged { IfOk result (λ o. o ≡ None → store.new.store ≡ store.old.store) }
    ensures adds { AddsBuilt store.old.store store.new.store }
    ensures err { OnErr result (store.new.store ≡ store.old.store) }
    ensures room { KeepsRoom store.old store.new }
{
    let _now = store.mark();
    if let Some(e) = unmet(alloc, unifier, problem, store, system)? {
        return Ok(Some(e));
    }
    if problem.common_spares() {
        return Ok(None);
    }
    let equation = unmet_by_spares(alloc, unifier, store, system)?;
    Ok(equation)
}

impl Demand for VaryingDemand<'_> {
    ghost holds_for = { λ d. list_all (gamma_is_allowed d.problem.now) };

    ghost common = { λ d. common_spares d.problem.now };

    ghost problem = { λ d. d.problem.now };

    fn next(&mut self, store: &mut Store, system: &System) -> Result<Option<Equation>, NoMemory> {
        let unifier = &mut self.unifier;
        let equation = next_equation(self.alloc, unifier, self.problem, store, system)?;
        Ok(equation)
    }

    fn homes(
        &self,
        alloc: Global,
        store: &mut Store,
        system: &System,
    ) -> Result<HomeList, NoMemory> {
        let homes = forced_homes(alloc, self.problem, store, system)?;
        Ok(homes)
    }
}
