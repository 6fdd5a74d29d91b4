//! What stands in gamma terms, and the marks of their labels.

ghost use Rattle.std.specs.Prelude.{◌≡◌, ◌<◌, ℕ, [], None, Some, IfOk, IfSome, IsTrue, false};
ghost use Rattle.std.specs.Prelude.{length, map, slice_get, true};
ghost use Rattle.std.specs.List.{list_all};
ghost use Rattle.store_theory.specs.Stores.{GammaCell, fun_cell};
ghost use Rattle.store_theory.specs.Systems.{is_gamma_cell, is_label};
ghost use Rattle.search_theory.specs.Demanding.{HomesAgree};
ghost use Rattle.term_store.specs.ClauseView.{the_gamma};
ghost use Rattle.term_store.specs.RefView.{the_place};
ghost use Rattle.term_store.specs.SystemView.{the_equation};
ghost use Rattle.term_unify.specs.Flat.{HasNoString};
ghost use Rattle.term_unify.specs.Same.{AreSameLabels};
ghost use Rattle.domain_cond.specs.Conditions.{IsForced, NamesGammas};
ghost use Rattle.domain_cond.specs.Leaves.{IsLeaf, is_among};
ghost use Rattle.domain_cond.specs.StandingView.{the_standing};
ghost use Rattle.domain_cond.specs.Standings.{AgreeWith, AreStandings, ConstantStands, IsStanding};
ghost use Rattle.domain_cond.specs.Standings.{LabelsAgree, NoConstantStands, share};

use crate::leaf::leaves;
use crate::unmet::{gamma_at, leaf_at, prefix_of};
use cop_base::NoMemory;
use std::alloc::Global;
use term_store::{Equation, GammaUse, Head, Ref, Store};
use term_unify::{Unifier, are_same_labels, flat_label};

/// The leaves of a gamma term, and the marks of its label.
#[derive(Drop)]
pub(crate) struct Standing {
    pub(crate) leaves: Vec<Ref>,
    pub(crate) marks: Vec<Ref>,
}

pub(crate) fn standing_at(standings: &[Standing], i: usize) -> &Standing
    requires { i < length standings.now }
    ensures { slice_get (map the_standing standings.now) i ≡ Some (the_standing result.now) }
{
    &standings[i]
}

fn standing_in(alloc: Global, store: &Store, gamma: &GammaUse) -> Result<Standing, NoMemory>
    requires gamma { IsTrue (is_gamma_cell store.now.store (the_gamma gamma.now)) }
    requires free { HasNoString store.now.store gamma.now.label }
    ensures { IfOk result (λ t. IsStanding store.now.store (the_gamma gamma.now) (the_standing t)) }
{
    let leaves = leaves(alloc, store, gamma.term)?;
    let marks = flat_label(alloc, store, gamma.label.items())?;
    Ok(Standing { leaves, marks })
}

/// What stands in each gamma term.
pub(crate) fn standings(
    alloc: Global,
    store: &Store,
    gammas: &[GammaUse],
) -> Result<Vec<Standing>, NoMemory>
    requires gammas { IsTrue (list_all (is_gamma_cell store.now.store) (map the_gamma gammas.now)) }
    requires free { (j : ℕ) (g : GammaCell) → slice_get (map the_gamma gammas.now) j ≡ Some g
        → HasNoString store.now.store g.label }
    ensures { IfOk result (λ ts. AreStandings store.now.store (map the_gamma gammas.now)
        (map the_standing ts.items)) }
{
    let mut items = Vec::new(alloc);
    for i in 0..gammas.len() {
        items.push(standing_in(alloc, store, gamma_at(gammas, i))?)?;
    }
    Ok(items)
}

/// Whether the cell is among these.
pub(crate) fn contains(cells: &[Ref], cell: Ref) -> bool
    ensures { result ≡ is_among (map the_place cells.now) cell.0 }
{
    for item in cells {
        if cell.0 == item.0 {
            return true;
        }
    }
    false
}

// Whether some cell is among both.
fn share(left: &[Ref], right: &[Ref]) -> bool
    ensures { result ≡ share (map the_place left.now) (map the_place right.now) }
{
    for item in left {
        if contains(right, *item) {
            return true;
        }
    }
    false
}

// ---- constants

fn is_constant(store: &Store, leaf: Ref) -> bool
    requires { IsLeaf store.now.store leaf.0 }
    ensures yes { result ≡ true
        → (f : ℕ) × (slice_get store.now.store.cells leaf.0 ≡ Some (fun_cell f [])) }
    ensures no { result ≡ false
        → (f : ℕ) → ¬ (slice_get store.now.store.cells leaf.0 ≡ Some (fun_cell f [])) }
{
    match store.head(leaf) {
        Head::Fun(_) => true,
        Head::Open(_) => false,
        Head::Eigen(_) => false,
        Head::New(_) => false,
        Head::Marks => false,
    }
}

fn has_constant(store: &Store, leaves: &[Ref]) -> bool
    requires { (i e : ℕ) → slice_get (map the_place leaves.now) i ≡ Some e
        → IsLeaf store.now.store e }
    ensures yes { result ≡ true → (i : ℕ) × (e : ℕ) × (f : ℕ)
        × (slice_get (map the_place leaves.now) i ≡ Some e)
        × (slice_get store.now.store.cells e ≡ Some (fun_cell f [])) }
    ensures no { result ≡ false → (i e f : ℕ) → slice_get (map the_place leaves.now) i ≡ Some e
        → ¬ (slice_get store.now.store.cells e ≡ Some (fun_cell f [])) }
{
    for i in 0..leaves.len() {
        if is_constant(store, leaf_at(leaves, i)) {
            return true;
        }
    }
    false
}

/// Whether a constant stands in a gamma term.
pub(crate) fn constant_stands(store: &Store, gammas: &[GammaUse], standings: &[Standing]) -> bool
    requires { AreStandings store.now.store (map the_gamma gammas.now)
        (map the_standing standings.now) }
    ensures yes { result ≡ true → ConstantStands store.now.store (map the_gamma gammas.now) }
    ensures no { result ≡ false → NoConstantStands store.now.store (map the_gamma gammas.now) }
{
    for i in 0..gammas.len() {
        let _gamma = gamma_at(gammas, i);
        let standing = standing_at(standings, i);
        if has_constant(store, &standing.leaves) {
            return true;
        }
    }
    false
}

// ---- labels

// Whether the terms share a leaf and their labels differ.
fn disagree(
    alloc: Global,
    unifier: &mut Unifier,
    store: &Store,
    left: &GammaUse,
    right: &GammaUse,
    left_standing: &Standing,
    right_standing: &Standing,
) -> Result<bool, NoMemory>
    requires left { IsTrue (is_label store.now.store left.now.label) }
    requires right { IsTrue (is_label store.now.store right.now.label) }
    requires free_left { HasNoString store.now.store left.now.label }
    requires free_right { HasNoString store.now.store right.now.label }
    ensures yes { IfOk result (λ b. b ≡ true
        → (share (the_standing left_standing.now).leaves
        (the_standing right_standing.now).leaves ≡ true)
        × (¬ AreSameLabels store.now.store left.now.label right.now.label)) }
    ensures no { IfOk result (λ b. b ≡ false
        → share (the_standing left_standing.now).leaves
        (the_standing right_standing.now).leaves ≡ true
        → AreSameLabels store.now.store left.now.label right.now.label) }
{
    if !share(&left_standing.leaves, &right_standing.leaves) {
        return Ok(false);
    }
    let (left, right) = (left.label.items(), right.label.items());
    let same = are_same_labels(alloc, unifier, store, left, right)?;
    Ok(!same)
}

// The first equation between the label of this gamma term and that of one that shares a leaf.
fn unequal_label(
    alloc: Global,
    unifier: &mut Unifier,
    store: &Store,
    gammas: &[GammaUse],
    standings: &[Standing],
    place: usize,
) -> Result<Option<Equation>, NoMemory>
    requires gammas { IsTrue (list_all (is_gamma_cell store.now.store) (map the_gamma gammas.now)) }
    requires free { (j : ℕ) (g : GammaCell) → slice_get (map the_gamma gammas.now) j ≡ Some g
        → HasNoString store.now.store g.label }
    requires standings { AreStandings store.now.store (map the_gamma gammas.now)
        (map the_standing standings.now) }
    requires place { place < length gammas.now }
    ensures unmet { IfOk result (λ o. IfSome o (λ e. IsForced store.now.store
        (LabelsAgree store.now.store (map the_gamma gammas.now)) (the_equation e))) }
    ensures names { IfOk result (λ o. IfSome o (λ e. NamesGammas (map the_gamma gammas.now)
        (the_equation e))) }
    ensures met { IfOk result (λ o. o ≡ None → (g : GammaCell)
        → slice_get (map the_gamma gammas.now) place ≡ Some g
        → AgreeWith store.now.store (map the_gamma gammas.now) g) }
{
    let gamma = gamma_at(gammas, place);
    let standing = standing_at(standings, place);
    for i in 0..gammas.len() {
        let other = gamma_at(gammas, i);
        let below = standing_at(standings, i);
        if disagree(alloc, unifier, store, gamma, other, standing, below)? {
            let left = prefix_of(alloc, gamma.label.items())?;
            let right = prefix_of(alloc, other.label.items())?;
            return Ok(Some(Equation { left, right }));
        }
    }
    Ok(None)
}

/// The first equation between the labels of two gamma terms that share a leaf, where they differ.
pub(crate) fn unequal_labels(
    alloc: Global,
    unifier: &mut Unifier,
    store: &Store,
    gammas: &[GammaUse],
    standings: &[Standing],
) -> Result<Option<Equation>, NoMemory>
    requires gammas { IsTrue (list_all (is_gamma_cell store.now.store) (map the_gamma gammas.now)) }
    requires free { (j : ℕ) (g : GammaCell) → slice_get (map the_gamma gammas.now) j ≡ Some g
        → HasNoString store.now.store g.label }
    requires standings { AreStandings store.now.store (map the_gamma gammas.now)
        (map the_standing standings.now) }
    ensures unmet { IfOk result (λ o. IfSome o (λ e. IsForced store.now.store
        (LabelsAgree store.now.store (map the_gamma gammas.now)) (the_equation e))) }
    ensures names { IfOk result (λ o. IfSome o (λ e. NamesGammas (map the_gamma gammas.now)
        (the_equation e))) }
    ensures met { IfOk result (λ o. o ≡ None
        → HomesAgree store.now.store (map the_gamma gammas.now)) }
{
    for place in 0..gammas.len() {
        if let Some(e) = unequal_label(alloc, unifier, store, gammas, standings, place)? {
            return Ok(Some(e));
        }
    }
    Ok(None)
}
