//! The homes of the eigenvariables that stand in gamma terms.

ghost use Rattle.std.specs.Prelude.{◌≡◌, IfOk, IsTrue, List, OnErr, OnOk, map, true};
ghost use Rattle.std.specs.List.{AllByRecursion, list_all};
ghost use Rattle.calculus.specs.declared.setting.Domains.TheVariants.{Constant, Varying};
ghost use Rattle.store_theory.specs.Bindings.{AddsBuilt, IsEnd};
ghost use Rattle.store_theory.specs.Stores.{Solution, Solves};
ghost use Rattle.store_theory.specs.Systems.{AllAllowed, MeetsDemand, is_gamma_cell, is_label};
ghost use Rattle.store_theory.specs.Systems.{is_system};
ghost use Rattle.search_theory.specs.HomesTold.{HomesAllow};
ghost use Rattle.term_store.specs.ClauseView.{the_gamma};
ghost use Rattle.term_store.specs.Homes.{BeginsLabel, is_home};
ghost use Rattle.term_store.specs.RefView.{the_place};
ghost use Rattle.term_store.specs.Room.{KeepsRoom};
ghost use Rattle.term_store.specs.SystemView.{the_system};
ghost use Rattle.domain_cond.specs.Conditions.{AddsHomes, HomeAllows, IsEigen};

use crate::leaf::leaves;
use crate::unmet::{eigen_home, gamma_at, is_eigen, leaf_at, prefix_of};
use cop_base::NoMemory;
use logic_rules::Domains;
use std::alloc::Global;
use tableau_core::SizedProblem;
use term_store::{GammaUse, Home, HomeList, Ref, Store, System};

// Whether a name may stand at its home alone.
fn are_whole(problem: &SizedProblem) -> bool
    ensures { result ≡ true → problem.now.setting.domains ≡ Varying }
{
    match problem.setting().domains() {
        Domains::Varying => true,
        Domains::Constant => false,
        Domains::Cumulative => false,
    }
}

// Adds the home of the eigenvariable, which is a beginning of the label.
fn add_home(
    alloc: Global,
    problem: &SizedProblem,
    store: &mut Store,
    eigen: Ref,
    label: &[Ref],
    homes: &mut HomeList,
) -> Result<(), NoMemory>
    requires eigen { IsEigen store.old.store eigen.0 }
    requires label { IsTrue (is_label store.old.store (map the_place label.now)) }
    requires not_constant { ¬ (problem.now.setting.domains ≡ Constant) }
    ensures added { OnOk result (AddsHomes
        (HomeAllows problem.now store.old.store eigen.0 (map the_place label.now))
        store.old.store store.new.store homes.old homes.new) }
    ensures adds { AddsBuilt store.old.store store.new.store }
    ensures room { KeepsRoom store.old store.new }
{
    let home = eigen_home(alloc, problem, store, eigen)?;
    let left = prefix_of(alloc, &home)?;
    let right = prefix_of(alloc, label)?;
    homes.push(Home {
        home: left,
        label: right,
        is_whole: are_whole(problem),
    })?;
    Ok(())
}

// The same of a leaf, where that is an eigenvariable.
fn add_leaf(
    alloc: Global,
    problem: &SizedProblem,
    store: &mut Store,
    leaf: Ref,
    label: &[Ref],
    homes: &mut HomeList,
) -> Result<(), NoMemory>
    requires end { IsEnd store.old.store leaf.0 }
    requires label { IsTrue (is_label store.old.store (map the_place label.now)) }
    requires not_constant { ¬ (problem.now.setting.domains ≡ Constant) }
    ensures added { OnOk result (AddsHomes
        (HomeAllows problem.now store.old.store leaf.0 (map the_place label.now))
        store.old.store store.new.store homes.old homes.new) }
    ensures adds { AddsBuilt store.old.store store.new.store }
    ensures room { KeepsRoom store.old store.new }
{
    if !is_eigen(store, leaf) {
        return Ok(());
    }
    add_home(alloc, problem, store, leaf, label, homes)?;
    Ok(())
}

// The same of all leaves of the gamma term.
fn add_term(
    alloc: Global,
    problem: &SizedProblem,
    store: &mut Store,
    gamma: &GammaUse,
    homes: &mut HomeList,
) -> Result<(), NoMemory>
    requires gamma { IsTrue (is_gamma_cell store.old.store (the_gamma gamma.now)) }
    requires not_constant { ¬ (problem.now.setting.domains ≡ Constant) }
    ensures added { OnOk result (AddsHomes
        (λ σ. HomesAllow problem.now store.old.store σ (the_gamma gamma.now))
        store.old.store store.new.store homes.old homes.new) }
    ensures adds { AddsBuilt store.old.store store.new.store }
    ensures room { KeepsRoom store.old store.new }
{
    let leaves = leaves(alloc, store, gamma.term)?;
    let label = gamma.label.items();
    for i in 0..leaves.len() {
        let leaf = leaf_at(&leaves, i);
        add_leaf(alloc, problem, store, leaf, label, homes)?;
    }
    Ok(())
}

// As `forced_homes`, but for want of memory marks may be left.
fn all_homes(
    alloc: Global,
    problem: &SizedProblem,
    store: &mut Store,
    system: &System,
) -> Result<HomeList, NoMemory>
    requires fits { IsTrue (is_system store.old.store (the_system system.now)) }
    requires not_constant { ¬ (problem.now.setting.domains ≡ Constant) }
    ensures labels { IfOk result (λ hs. IsTrue (list_all (is_home store.new.store) hs)) }
    ensures forced { IfOk result (λ hs. (σ : Solution) → Solves store.new.store σ
        → MeetsDemand (AllAllowed problem.now) (the_system system.now) σ
        → AllByRecursion (BeginsLabel σ) hs) }
    ensures adds { AddsBuilt store.old.store store.new.store }
    ensures room { KeepsRoom store.old store.new }
{
    let mut homes = HomeList::new(alloc);
    let gammas = system.gammas.items();
    for i in 0..gammas.len() {
        let gamma = gamma_at(gammas, i);
        add_term(alloc, problem, store, gamma, &mut homes)?;
    }
    Ok(homes)
}

/// The homes of the eigenvariables in all gamma terms, with the labels of these. It may add marks;
/// want of memory leaves the store as it was.
pub(crate) fn forced_homes(
    alloc: Global,
    problem: &SizedProblem,
    store: &mut Store,
    system: &System,
) -> Result<HomeList, NoMemory>
    requires fits { IsTrue (is_system store.old.store (the_system system.now)) }
    requires not_constant { ¬ (problem.now.setting.domains ≡ Constant) }
    ensures labels { IfOk result (λ hs. IsTrue (list_all (is_home store.new.store) hs)) }
    ensures forced { IfOk result (λ hs. (σ : Solution) → Solves store.new.store σ
        → MeetsDemand (AllAllowed problem.now) (the_system system.now) σ
        → AllByRecursion (BeginsLabel σ) hs) }
    ensures adds { AddsBuilt store.old.store store.new.store }
    ensures err { OnErr result (store.new.store ≡ store.old.store) }
    ensures room { KeepsRoom store.old store.new }
{
    let start = store.mark();
    match all_homes(alloc, problem, store, system) {
        Ok(homes) => Ok(homes),
        Err(NoMemory) => {
            store.undo(start);
            Err(NoMemory)
        }
    }
}
