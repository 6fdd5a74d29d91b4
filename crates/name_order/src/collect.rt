//! The turns of a tableau, those of each instance in preorder.

ghost use Rattle.std.specs.Prelude.{◌≡◌, ◌++◌, map, IfOk};
ghost use Rattle.calculus.specs.Tableaux.{instances, instances_below, instances_of_all};
ghost use Rattle.calculus.specs.Lists.{closings_tree};
ghost use Rattle.name_order.specs.ByNumber.Collected.{the_lists};
ghost use Rattle.name_order.specs.Walks.{turns_by};
ghost use Rattle.tableau_core.specs.Numbered.ClosingView.{the_closing, closing_in};
ghost use Rattle.tableau_core.specs.Numbered.TableauView.{the_tableau};

use crate::reached::Reached;
use crate::walk::walk_instance;
use cop_base::NoMemory;
use formula_core::GroundTable;
use std::alloc::Global;
use tableau_core::{Closing, ClosingList, SizedProblem, Tableau};

/// The positions that an instance reaches, in preorder.
#[derive(Drop)]
pub struct ReachedList {
    pub items: Vec<Reached>,
}

// Adds the turns of the instances of a closing. It is no deeper than the path limit.
#[cycle(collect)]
#[tactic(auto, using(crate::proofs::ByNumber::Collecting::collecting))]
fn collect_below(
    alloc: Global,
    problem: &SizedProblem,
    table: &GroundTable,
    closing: &Closing,
    lists: &mut Vec<ReachedList>,
) -> Result<(), NoMemory>
    ensures { IfOk result (λ _. the_lists table.now lists.new.items
        ≡ the_lists table.now lists.old.items
        ++ map (turns_by problem.now) (instances_below (closing_in table.now (the_closing closing.now)))) }
{
    match closing {
        Closing::Reduce { up: _ } => Ok(()),
        Closing::Extend {
            instance,
            literal: _,
            goals,
        } => {
            let mut turns = Vec::new(alloc);
            walk_instance(alloc, problem, table, instance, &mut turns)?;
            lists.push(ReachedList { items: turns })?;
            collect_all(alloc, problem, table, goals, lists)?;
            Ok(())
        }
    }
}

#[cycle(collect)]
#[tactic(auto, using(crate::proofs::ByNumber::Collecting::collecting))]
fn collect_all(
    alloc: Global,
    problem: &SizedProblem,
    table: &GroundTable,
    closings: &ClosingList,
    lists: &mut Vec<ReachedList>,
) -> Result<(), NoMemory>
    ensures { IfOk result (λ _. the_lists table.now lists.new.items ≡ the_lists table.now lists.old.items
        ++ map (turns_by problem.now) (instances_of_all (closings_tree (map (closing_in table.now) closings.now)))) }
{
    for closing in closings.items() {
        collect_below(alloc, problem, table, closing, lists)?;
    }
    Ok(())
}

/// The turns of a tableau, a list for each instance in preorder.
#[tactic(auto, using(crate::proofs::ByNumber::Collecting::collecting))]
pub fn collect(
    alloc: Global,
    problem: &SizedProblem,
    t: &Tableau,
) -> Result<Vec<ReachedList>, NoMemory>
    ensures { IfOk result (λ lists. the_lists t.now.table lists.items
        ≡ map (turns_by problem.now) (instances (the_tableau t.now))) }
{
    let mut lists = Vec::new(alloc);
    let mut turns = Vec::new(alloc);
    walk_instance(alloc, problem, &t.table, &t.start, &mut turns)?;
    lists.push(ReachedList { items: turns })?;
    collect_all(alloc, problem, &t.table, &t.goals, &mut lists)?;
    Ok(lists)
}
