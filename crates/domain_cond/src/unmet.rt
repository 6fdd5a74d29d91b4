//! Homes that do not allow a label yet.

ghost use Rattle.std.specs.Prelude.{◌≡◌, ◌<◌, ◌∷◌, [], ℕ, List, None, Some, IfOk, IfSome, IsTrue};
ghost use Rattle.std.specs.Prelude.{OnErr, false, length, map, nat_le, slice_get, true};
ghost use Rattle.std.specs.List.{list_all};
ghost use Rattle.calculus.specs.declared.setting.Domains.TheVariants.{Constant};
ghost use Rattle.store_theory.specs.Bindings.{AddsBuilt, IsEnd, NamesFrom};
ghost use Rattle.store_theory.specs.Stores.{Solution, Solves, eigen_cell};
ghost use Rattle.store_theory.specs.Stores as tree;
ghost use Rattle.calculus.specs.Syntax as syntax;
ghost use Rattle.store_theory.specs.Systems.{AllAllowed, HasNoOpenString, IsDemandEquation};
ghost use Rattle.store_theory.specs.Systems.{cells_of, is_gamma_cell, is_label, is_system};
ghost use Rattle.search_theory.specs.KeepingCells.{AddsRight, EquatesRight, equation_cells};
ghost use Rattle.search_theory.specs.KeepingCells.{gamma_cells};
ghost use Rattle.search_theory.specs.HomesTold.{HomesAllow};
ghost use Rattle.term_store.specs.ClauseView.{the_gamma};
ghost use Rattle.term_store.specs.RefView.{the_place};
ghost use Rattle.term_store.specs.Room.{KeepsRoom};
ghost use Rattle.term_store.specs.SystemView.{the_equation, the_system};
ghost use Rattle.term_unify.specs.Flat.{HasNoString, HasNoStringIn};
ghost use Rattle.domain_cond.specs.Conditions.{HomeAllows, IsCompared, IsEigen, IsForced};
ghost use Rattle.domain_cond.specs.Ways.{IsFoundHome};

use crate::home::home;
use crate::leaf::{leaves, push_parts};
use cop_base::NoMemory;
use logic_rules::Domains;
use std::alloc::Global;
use tableau_core::SizedProblem;
use term_store::{Equation, GammaUse, Head, Prefix, Ref, Store, System};
use term_unify::{Unifier, are_same_labels, flat_label};

pub(crate) fn leaf_at(leaves: &[Ref], i: usize) -> Ref
    requires { i < length leaves.now }
    ensures { slice_get (map the_place leaves.now) i ≡ Some result.0 }
{
    leaves[i]
}

pub(crate) fn gamma_at(gammas: &[GammaUse], i: usize) -> &GammaUse
    requires { i < length gammas.now }
    ensures { slice_get (map the_gamma gammas.now) i ≡ Some (the_gamma result.now) }
{
    &gammas[i]
}

pub(crate) fn prefix_of(alloc: Global, label: &[Ref]) -> Result<Prefix, NoMemory>
    ensures { IfOk result (λ prefix. prefix ≡ map the_place label.now) }
{
    let mut prefix = Prefix::new(alloc);
    for item in label {
        prefix.push(*item)?;
    }
    Ok(prefix)
}

// The home of the eigenvariable. It may add marks; want of memory may leave some.
pub(crate) fn eigen_home(
    alloc: Global,
    problem: &SizedProblem,
    store: &mut Store,
    eigen: Ref,
) -> Result<Vec<Ref>, NoMemory>
    requires { IsEigen store.old.store eigen.0 }
    ensures found { IfOk result (λ label. (p : ℕ) (rs : List ℕ)
        → slice_get store.old.store.cells eigen.0 ≡ Some (eigen_cell p rs)
        → IsFoundHome problem.now store.old.store store.new.store p rs (map the_place label.items)) }
    ensures right { IfOk result (λ label. AddsRight problem.now (eigen.0 ∷ []) store.old.store
        store.new.store (map the_place label.items)) }
    ensures adds { AddsBuilt store.old.store store.new.store }
    ensures room { KeepsRoom store.old store.new }
{
    let _now = store.mark();
    let mut values = Vec::new(alloc);
    push_parts(store, eigen, &mut values)?;
    let Head::Eigen(p) = store.head(eigen) else {
        unreachable!();
    };
    let label = home(alloc, problem, store, p, &values)?;
    Ok(label)
}

// The part of the label that the home is to equal: with varying domains the label, and with
// cumulative ones its beginning, or the label where that is shorter than the home.
fn part_for(
    alloc: Global,
    domains: Domains,
    store: &Store,
    home: &[Ref],
    label: &[Ref],
) -> Result<Vec<Ref>, NoMemory>
    requires home { IsTrue (is_label store.now.store (map the_place home.now)) }
    requires label { IsTrue (is_label store.now.store (map the_place label.now)) }
    requires free_home { HasNoString store.now.store (map the_place home.now) }
    requires free_label { HasNoString store.now.store (map the_place label.now) }
    requires not_constant { ¬ (domains ≡ Constant) }
    ensures compared { IfOk result (λ part. (P : syntax.Problem) → P.setting.domains ≡ domains
        → IsCompared P store.now.store (map the_place home.now) (map the_place label.now)
        (map the_place part.items)) }
    ensures from { IfOk result (λ part. (base : ℕ) → NamesFrom base store.now.store
        → IsTrue (list_all (nat_le base) (map the_place label.now))
        → IsTrue (list_all (nat_le base) (map the_place part.items))) }
{
    let mut marks = flat_label(alloc, store, label)?;
    let Domains::Cumulative = domains else {
        return Ok(marks);
    };
    let home = flat_label(alloc, store, home)?;
    marks.truncate(home.len());
    Ok(marks)
}

// As `unmet_leaf` of an eigenvariable, but marks may be left.
fn compare_home(
    alloc: Global,
    unifier: &mut Unifier,
    problem: &SizedProblem,
    store: &mut Store,
    eigen: Ref,
    label: &[Ref],
) -> Result<Option<Equation>, NoMemory>
    requires eigen { IsEigen store.old.store eigen.0 }
    requires label { IsTrue (is_label store.old.store (map the_place label.now)) }
    requires free_eigen { HasNoStringIn store.old.store eigen.0 }
    requires free_label { HasNoString store.old.store (map the_place label.now) }
    requires not_constant { ¬ (problem.now.setting.domains ≡ Constant) }
    ensures unmet { IfOk result (λ o. IfSome o (λ e. IsForced store.new.store
        (HomeAllows problem.now store.old.store eigen.0 (map the_place label.now))
        (the_equation e))) }
    ensures met { IfOk result (λ o. o ≡ None → (σ : Solution) → Solves store.new.store σ
        → HomeAllows problem.now store.old.store eigen.0 (map the_place label.now) σ) }
    ensures right { IfOk result (λ o. IfSome o (λ e. AddsRight problem.now
        (eigen.0 ∷ map the_place label.now) store.old.store store.new.store
        (equation_cells (the_equation e)))) }
    ensures adds { AddsBuilt store.old.store store.new.store }
    ensures room { KeepsRoom store.old store.new }
{
    let _before = store.mark();
    let home = eigen_home(alloc, problem, store, eigen)?;
    let _now = store.mark();
    let part = part_for(alloc, problem.setting().domains(), store, &home, label)?;
    if are_same_labels(alloc, unifier, store, &home, &part)? {
        return Ok(None);
    }
    let left = prefix_of(alloc, &home)?;
    let right = prefix_of(alloc, &part)?;
    Ok(Some(Equation { left, right }))
}

// Whether an eigenvariable stands at the end of bindings.
pub(crate) fn is_eigen(store: &Store, end: Ref) -> bool
    requires { IsEnd store.now.store end.0 }
    ensures yes { result ≡ true → IsEigen store.now.store end.0 }
    ensures no { result ≡ false → (p : ℕ) (rs : List ℕ)
        → ¬ (slice_get store.now.store.cells end.0 ≡ Some (eigen_cell p rs)) }
{
    match store.head(end) {
        Head::Eigen(_) => true,
        Head::Open(_) => false,
        Head::Fun(_) => false,
        Head::New(_) => false,
        Head::Marks => false,
    }
}

// The equation by which the home of a leaf that is an eigenvariable allows the label, where it does
// not yet. Where there is none, and for want of memory, the store is as before.
fn unmet_leaf(
    alloc: Global,
    unifier: &mut Unifier,
    problem: &SizedProblem,
    store: &mut Store,
    leaf: Ref,
    label: &[Ref],
) -> Result<Option<Equation>, NoMemory>
    requires end { IsEnd store.old.store leaf.0 }
    requires label { IsTrue (is_label store.old.store (map the_place label.now)) }
    requires free_leaf { HasNoStringIn store.old.store leaf.0 }
    requires free_label { HasNoString store.old.store (map the_place label.now) }
    requires not_constant { ¬ (problem.now.setting.domains ≡ Constant) }
    ensures unmet { IfOk result (λ o. IfSome o (λ e. IsForced store.new.store
        (HomeAllows problem.now store.old.store leaf.0 (map the_place label.now))
        (the_equation e))) }
    ensures met { IfOk result (λ o. o ≡ None → (σ : Solution) → Solves store.old.store σ
        → HomeAllows problem.now store.old.store leaf.0 (map the_place label.now) σ) }
    ensures right { IfOk result (λ o. IfSome o (λ e. AddsRight problem.now
        (leaf.0 ∷ map the_place label.now) store.old.store store.new.store
        (equation_cells (the_equation e)))) }
    ensures unchanged { IfOk result (λ o. o ≡ None → store.new.store ≡ store.old.store) }
    ensures err { OnErr result (store.new.store ≡ store.old.store) }
    ensures adds { AddsBuilt store.old.store store.new.store }
    ensures room { KeepsRoom store.old store.new }
{
    if !is_eigen(store, leaf) {
        return Ok(None);
    }
    let start = store.mark();
    match compare_home(alloc, unifier, problem, store, leaf, label) {
        Ok(Some(e)) => Ok(Some(e)),
        Ok(None) => {
            store.undo(start);
            Ok(None)
        }
        Err(NoMemory) => {
            store.undo(start);
            Err(NoMemory)
        }
    }
}

// The first such equation for a leaf of the gamma term.
fn unmet_term(
    alloc: Global,
    unifier: &mut Unifier,
    problem: &SizedProblem,
    store: &mut Store,
    gamma: &GammaUse,
) -> Result<Option<Equation>, NoMemory>
    requires gamma { IsTrue (is_gamma_cell store.old.store (the_gamma gamma.now)) }
    requires free_term { HasNoStringIn store.old.store gamma.now.term.0 }
    requires free_label { HasNoString store.old.store gamma.now.label }
    requires not_constant { ¬ (problem.now.setting.domains ≡ Constant) }
    ensures unmet { IfOk result (λ o. IfSome o (λ e. IsForced store.new.store
        (λ σ. HomesAllow problem.now store.old.store σ (the_gamma gamma.now)) (the_equation e))) }
    ensures met { IfOk result (λ o. o ≡ None → (σ : Solution) → Solves store.old.store σ
        → HomesAllow problem.now store.old.store σ (the_gamma gamma.now)) }
    ensures right { IfOk result (λ o. IfSome o (λ e. AddsRight problem.now
        (gamma_cells (the_gamma gamma.now)) store.old.store store.new.store
        (equation_cells (the_equation e)))) }
    ensures unchanged { IfOk result (λ o. o ≡ None → store.new.store ≡ store.old.store) }
    ensures err { OnErr result (store.new.store ≡ store.old.store) }
    ensures adds { AddsBuilt store.old.store store.new.store }
    ensures room { KeepsRoom store.old store.new }
{
    let leaves = leaves(alloc, store, gamma.term)?;
    let label = gamma.label.items();
    for i in 0..leaves.len() {
        let leaf = leaf_at(&leaves, i);
        if let Some(e) = unmet_leaf(alloc, unifier, problem, store, leaf, label)? {
            return Ok(Some(e));
        }
    }
    Ok(None)
}

/// The first equation by which the home of an eigenvariable in a gamma term allows the label of the
/// term, where it does not yet. Where each does, and for want of memory, the store is as before.
pub(crate) fn unmet(
    alloc: Global,
    unifier: &mut Unifier,
    problem: &SizedProblem,
    store: &mut Store,
    system: &System,
) -> Result<Option<Equation>, NoMemory>
    requires fits { IsTrue (is_system store.old.store (the_system system.now)) }
    requires no_string { HasNoOpenString store.old.store (the_system system.now) }
    requires not_constant { ¬ (problem.now.setting.domains ≡ Constant) }
    ensures unmet { IfOk result (λ o. IfSome o (λ e. IsDemandEquation (AllAllowed problem.now)
        store.new.store (the_system system.now) (the_equation e))) }
    ensures met { IfOk result (λ o. o ≡ None → (j : ℕ) (g : tree.GammaCell)
        → slice_get (the_system system.now).gammas j ≡ Some g → (σ : Solution)
        → Solves store.old.store σ → HomesAllow problem.now store.old.store σ g) }
    ensures right { IfOk result (λ o. IfSome o (λ e. EquatesRight problem.now
        (cells_of (the_system system.now)) store.old.store store.new.store (the_equation e))) }
    ensures unchanged { IfOk result (λ o. o ≡ None → store.new.store ≡ store.old.store) }
    ensures err { OnErr result (store.new.store ≡ store.old.store) }
    ensures adds { AddsBuilt store.old.store store.new.store }
    ensures room { KeepsRoom store.old store.new }
{
    let gammas = system.gammas.items();
    for i in 0..gammas.len() {
        let gamma = gamma_at(gammas, i);
        if let Some(e) = unmet_term(alloc, unifier, problem, store, gamma)? {
            return Ok(Some(e));
        }
    }
    Ok(None)
}
