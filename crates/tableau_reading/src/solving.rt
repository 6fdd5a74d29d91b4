//! What a tree without open goals asks of labels, solved by what the domains ask.

ghost use Rattle.std.specs.Prelude.{◌≡◌, IfOk, IsTrue};
ghost use Rattle.std.specs.List.{list_all};
ghost use Rattle.store_theory.specs.Bindings.{KeepsMarks};
ghost use Rattle.calculus.specs.Instances.{gamma_is_allowed};
ghost use Rattle.calculus.specs.Skolem.{common_spares};
ghost use Rattle.calculus.specs.Space.{has_labels};
ghost use Rattle.store_theory.specs.Systems.{AllAllowed, NamesItsStrings, is_system};
ghost use Rattle.prefix_split.specs.LengthSearch.{IsCounted};
ghost use Rattle.prefix_split.specs.declared.solving.Solved.TheVariants as solved;
ghost use Rattle.term_store.specs.Room.{KeepsRoom};
ghost use Rattle.term_store.specs.SystemView.{the_system};
ghost use Rattle.tableau_reading.specs.Solving.{IsFound, IsSolved};

use calculus::setting::Domains;
use cop_base::{Ledger, NoMemory};
use domain_cond::{ConstantDemand, CumulativeDemand, VaryingDemand};
use prefix_split::{Solved, solve};
use std::alloc::Global;
use tableau_core::SizedProblem;
use term_store::{Demand, Store, System};

// Solves the system by what the domains ask.
fn solve_by<M: Demand>(
    alloc: Global,
    problem: &SizedProblem,
    ledger: &mut Ledger,
    store: &mut Store,
    system: &System,
    demand: &mut M,
) -> Result<Solved, NoMemory>
    requires fits { IsTrue (is_system store.old.store (the_system system.now)) }
    requires named { NamesItsStrings store.old.store (the_system system.now) }
    requires labels { IsTrue (has_labels problem.now.setting.logic) }
    requires demand { M.holds_for demand.old ≡ list_all (gamma_is_allowed problem.now) }
    requires common { M.common demand.old ≡ common_spares problem.now }
    requires problem { M.problem demand.old ≡ problem.now }
    ensures found { IfOk result (λ a. a ≡ solved.Found → IsFound problem.now store.old.store
        (the_system system.now) store.new.store) }
    ensures solved { IfOk result (IsSolved problem.now store.old.store (the_system system.now)
        ledger.old.used ledger.new.used ledger.new.budget store.new.store) }
    ensures counted { IsCounted problem.now.setting.logic (AllAllowed problem.now) store.old.store
        (the_system system.now) ledger.old.used ledger.new.used }
    ensures budget { ledger.new.budget ≡ ledger.old.budget }
    ensures marks { KeepsMarks store.old.store store.new.store }
    ensures room { KeepsRoom store.old store.new }
{
    let logic = problem.setting().logic();
    let solved = solve(alloc, store, logic, system, demand, ledger)?;
    let _after = store.mark();
    Ok(solved)
}

/// Solves the system of a problem whose logic has labels.
pub fn solve_system<'a>(
    alloc: Global,
    problem: &'a SizedProblem<'a>,
    ledger: &mut Ledger,
    store: &mut Store,
    system: &System,
) -> Result<Solved, NoMemory>
    requires fits { IsTrue (is_system store.old.store (the_system system.now)) }
    requires named { NamesItsStrings store.old.store (the_system system.now) }
    requires labels { IsTrue (has_labels problem.now.setting.logic) }
    ensures found { IfOk result (λ a. a ≡ solved.Found → IsFound problem.now store.old.store
        (the_system system.now) store.new.store) }
    ensures solved { IfOk result (IsSolved problem.now store.old.store (the_system system.now)
        ledger.old.used ledger.new.used ledger.new.budget store.new.store) }
    ensures counted { IsCounted problem.now.setting.logic (AllAllowed problem.now) store.old.store
        (the_system system.now) ledger.old.used ledger.new.used }
    ensures budget { ledger.new.budget ≡ ledger.old.budget }
    ensures marks { KeepsMarks store.old.store store.new.store }
    ensures room { KeepsRoom store.old store.new }
{
    match problem.setting().domains() {
        Domains::Constant => {
            let mut demand = ConstantDemand::new(problem);
            solve_by(alloc, problem, ledger, store, system, &mut demand)
        }
        Domains::Cumulative => {
            let mut demand = CumulativeDemand::new(alloc, problem);
            solve_by(alloc, problem, ledger, store, system, &mut demand)
        }
        Domains::Varying => {
            let mut demand = VaryingDemand::new(alloc, problem);
            solve_by(alloc, problem, ledger, store, system, &mut demand)
        }
    }
}
