//! Cumulative domains.

ghost use Rattle.std.specs.Prelude.{◌≡◌, IfOk};
ghost use Rattle.std.specs.List.{list_all};
ghost use Rattle.calculus.specs.declared.setting.Domains.TheVariants.{Cumulative};
ghost use Rattle.calculus.specs.Instances.{gamma_is_allowed};
ghost use Rattle.calculus.specs.Skolem.{common_spares};

use crate::homes::forced_homes;
use crate::unmet::unmet;
use cop_base::NoMemory;
use std::alloc::Global;
use tableau_core::SizedProblem;
use term_store::{Demand, Equation, HomeList, Store, System};
use term_unify::Unifier;

/// Cumulative domains: a name may stand at the labels that begin with its home.
#[derive(Drop)]
pub struct CumulativeDemand<'a> {
    alloc: Global,
    problem: &'a SizedProblem<'a>,
    unifier: Unifier,
    ghost cumulative: { problem.now.setting.domains ≡ Cumulative },
}

impl<'a> CumulativeDemand<'a> {
    /// The condition of a problem with cumulative domains.
    pub fn new(alloc: Global, problem: &'a SizedProblem<'a>) -> CumulativeDemand<'a>
        requires domains { problem.now.setting.domains ≡ Cumulative }
        ensures { result.problem.now ≡ problem.now }
    {
        CumulativeDemand {
            alloc,
            problem,
            unifier: Unifier::new(alloc),
        }
    }
}

impl Demand for CumulativeDemand<'_> {
    ghost holds_for = { λ d. list_all (gamma_is_allowed d.problem.now) };

    ghost common = { λ d. common_spares d.problem.now };

    ghost problem = { λ d. d.problem.now };

    fn next(&mut self, store: &mut Store, system: &System) -> Result<Option<Equation>, NoMemory> {
        let _now = store.mark();
        let equation = unmet(self.alloc, &mut self.unifier, self.problem, store, system)?;
        Ok(equation)
    }

    fn homes(
        &self,
        alloc: Global,
        store: &mut Store,
        system: &System,
    ) -> Result<HomeList, NoMemory> {
        let homes = forced_homes(alloc, self.problem, store, system)?;
        Ok(homes)
    }
}
