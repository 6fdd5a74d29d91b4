//! Constant domains.

ghost use Rattle.std.specs.Prelude.{◌≡◌};
ghost use Rattle.std.specs.List.{list_all};
ghost use Rattle.calculus.specs.declared.setting.Domains.TheVariants.{Constant};
ghost use Rattle.calculus.specs.Instances.{gamma_is_allowed};
ghost use Rattle.calculus.specs.Skolem.{common_spares};

use cop_base::NoMemory;
use std::alloc::Global;
use tableau_core::SizedProblem;
use term_store::{Demand, Equation, HomeList, Store, System};

/// Constant domains ask nothing: each term may stand at each label.
#[derive(Drop)]
pub struct ConstantDemand<'a> {
    problem: &'a SizedProblem<'a>,
    ghost constant: { problem.now.setting.domains ≡ Constant },
}

impl<'a> ConstantDemand<'a> {
    /// The condition of a problem with constant domains.
    pub fn new(problem: &'a SizedProblem<'a>) -> ConstantDemand<'a>
        requires { problem.now.setting.domains ≡ Constant }
        ensures { result.problem.now ≡ problem.now }
    {
        ConstantDemand { problem }
    }
}

impl Demand for ConstantDemand<'_> {
    ghost holds_for = { λ d. list_all (gamma_is_allowed d.problem.now) };

    ghost common = { λ d. common_spares d.problem.now };

    ghost problem = { λ d. d.problem.now };

    fn next(&mut self, store: &mut Store, _system: &System) -> Result<Option<Equation>, NoMemory> {
        let _now = store.mark();
        Ok(None)
    }

    fn homes(
        &self,
        alloc: Global,
        _store: &mut Store,
        _system: &System,
    ) -> Result<HomeList, NoMemory> {
        Ok(HomeList::new(alloc))
    }
}
