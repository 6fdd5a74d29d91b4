//! At which labels a term is allowed: the domain conditions.

ghost use Rattle.std.specs.Prelude.{◌≡◌, ◌≤◌, ◌&&◌, ℕ, map, max, IfOk};
ghost use Rattle.calculus.specs.Equality.{list_eq, mark_eq};
ghost use Rattle.calculus.specs.Ground as tree;
ghost use Rattle.calculus.specs.Labels.{home_allows, is_prefix};
ghost use Rattle.calculus.specs.Lists.{g_terms_tree};
ghost use Rattle.calculus.specs.Skolem.{is_allowed};
ghost use Rattle.formula_core.specs.GroundLists.{the_terms, the_marks, the_values, the_g_term, IsLower, IsLowerTerm};
ghost use Rattle.tableau_core.specs.Numbered.Ahead.{are_ahead_allowed, bound, is_list_allowed};
ghost use Rattle.tableau_core.specs.Numbered.SpotView.{the_mark_at};

use crate::home::eigen_home;
use crate::references::given;
use crate::sized::SizedProblem;
use crate::spot::MarkAt;
use cop_base::{NoMemory, PosId};
use formula_core::{GroundLabel, GroundTable, GroundTerm, GroundTerms, Values};
use logic_rules::Domains;
use std::alloc::Global;
use std::collections::BTreeSet;

#[tactic(auto, using(crate::proofs::Numbered::LabelLaws::told))]
fn is_same_mark(table: &GroundTable, a: &MarkAt, b: &MarkAt) -> bool
    ensures { result ≡ mark_eq (the_mark_at table.now a.now) (the_mark_at table.now b.now) }
{
    a.is_same(table, b)
}

// Whether the label begins with the home.
fn begins(table: &GroundTable, home: &[MarkAt], at: &[MarkAt]) -> bool
    ensures { result ≡ is_prefix mark_eq (map (the_mark_at table.now) home.now) (map (the_mark_at table.now) at.now) }
{
    if at.len() < home.len() {
        return false;
    }
    for i in 0..home.len() {
        let a = &home[i];
        let b = &at[i];
        if !is_same_mark(table, a, b) {
            return false;
        }
    }
    true
}

// Whether the label is the home.
fn is_same_label(table: &GroundTable, home: &[MarkAt], at: &[MarkAt]) -> bool
    ensures { result ≡ list_eq mark_eq (map (the_mark_at table.now) home.now) (map (the_mark_at table.now) at.now) }
{
    if home.len() != at.len() {
        return false;
    }
    begins(table, home, at)
}

fn allows(table: &GroundTable, domains: Domains, home: &[MarkAt], at: &[MarkAt]) -> bool
    ensures { result ≡ home_allows mark_eq domains (map (the_mark_at table.now) home.now) (map (the_mark_at table.now) at.now) }
{
    match domains {
        Domains::Constant => true,
        Domains::Cumulative => begins(table, home, at),
        Domains::Varying => is_same_label(table, home, at),
    }
}

fn is_home(problem: &SizedProblem, table: &GroundTable, home: &[MarkAt], at: &[MarkAt]) -> bool
    ensures { result ≡ home_allows mark_eq problem.now.setting.domains (map (the_mark_at table.now) home.now) (map (the_mark_at table.now) at.now) }
{
    allows(table, problem.setting().domains(), home, at)
}

// Whether the home of the eigenvariable allows the label.
fn is_eigen_allowed(
    alloc: Global,
    problem: &SizedProblem,
    table: &GroundTable,
    at: &[MarkAt],
    p: PosId,
    values: Values,
) -> Result<bool, NoMemory>
    ensures { IfOk result (λ b. b
        ≡ is_allowed problem.now (map (the_mark_at table.now) at.now) (tree.g_eigen p.0 (tree.values_tree (the_values table.now values)))) }
{
    let home = eigen_home(alloc, problem, table, p, table.values(values))?;
    let allowed = is_home(problem, table, &home, at);
    Ok(allowed)
}

fn is_own_allowed(
    alloc: Global,
    problem: &SizedProblem,
    table: &GroundTable,
    at: &[MarkAt],
    label: GroundLabel,
) -> Result<bool, NoMemory>
    ensures { (k : ℕ) → IfOk result (λ b. b
        ≡ is_allowed problem.now (map (the_mark_at table.now) at.now) (tree.own k (tree.marks_tree (the_marks table.now label)))) }
{
    let home = given(alloc, table.marks(label))?;
    let allowed = is_home(problem, table, &home, at);
    Ok(allowed)
}

// Whether the function with these arguments is allowed at the label, where the lists ahead are: its
// arguments are put ahead. Without any it is as a spare constant of all domains.
#[tactic(auto, using(crate::proofs::Numbered::AheadLaws::arguments))]
fn is_fun_allowed(
    problem: &SizedProblem,
    table: &GroundTable,
    at: &[MarkAt],
    args: GroundTerms,
    ahead: &mut BTreeSet<u32>,
) -> Result<bool, NoMemory>
    ensures allowed { (f : ℕ) → IfOk result (λ b. (b && are_ahead_allowed problem.now (map (the_mark_at table.now) at.now) table.now ahead.new.keys)
        ≡ (is_allowed problem.now (map (the_mark_at table.now) at.now) (tree.g_fun f (g_terms_tree (the_terms table.now args)))
        && are_ahead_allowed problem.now (map (the_mark_at table.now) at.now) table.now ahead.old.keys)) }
    ensures bound { (n : ℕ) → IsLower (the_terms table.now args) args.0 n
        → IfOk result (λ _. bound ahead.new.keys ≤ max n (bound ahead.old.keys)) }
{
    if table.terms(args).is_empty() {
        return Ok(problem.common_spares());
    }
    ahead.insert(args.0)?;
    Ok(true)
}

// Whether the term is allowed at the label, where the lists ahead are.
fn is_item_allowed(
    alloc: Global,
    problem: &SizedProblem,
    table: &GroundTable,
    at: &[MarkAt],
    term: GroundTerm,
    ahead: &mut BTreeSet<u32>,
) -> Result<bool, NoMemory>
    ensures allowed { IfOk result (λ b. (b && are_ahead_allowed problem.now (map (the_mark_at table.now) at.now) table.now ahead.new.keys)
        ≡ (is_allowed problem.now (map (the_mark_at table.now) at.now) (the_g_term table.now term)
        && are_ahead_allowed problem.now (map (the_mark_at table.now) at.now) table.now ahead.old.keys)) }
    ensures bound { (n : ℕ) → IsLowerTerm table.now n term
        → IfOk result (λ _. bound ahead.new.keys ≤ max n (bound ahead.old.keys)) }
{
    match term {
        GroundTerm::Common(_) => Ok(problem.common_spares()),
        GroundTerm::Eigen(p, values) => {
            let allowed = is_eigen_allowed(alloc, problem, table, at, p, values)?;
            Ok(allowed)
        }
        GroundTerm::Own(_, label) => {
            let allowed = is_own_allowed(alloc, problem, table, at, label)?;
            Ok(allowed)
        }
        GroundTerm::Fun(_, args) => {
            let allowed = is_fun_allowed(problem, table, at, args, ahead)?;
            Ok(allowed)
        }
    }
}

// Whether the terms of the list are allowed at the label, where the lists ahead are.
fn are_items_allowed(
    alloc: Global,
    problem: &SizedProblem,
    table: &GroundTable,
    at: &[MarkAt],
    list: GroundTerms,
    ahead: &mut BTreeSet<u32>,
) -> Result<bool, NoMemory>
    requires { bound ahead.old.keys ≤ list.0 }
    ensures allowed { IfOk result (λ b. (b && are_ahead_allowed problem.now (map (the_mark_at table.now) at.now) table.now ahead.new.keys)
        ≡ (are_ahead_allowed problem.now (map (the_mark_at table.now) at.now) table.now ahead.old.keys
        && is_list_allowed problem.now (map (the_mark_at table.now) at.now) table.now list.0)) }
    ensures bound { IfOk result (λ _. bound ahead.new.keys ≤ list.0) }
{
    let terms = table.terms(list);
    for term in terms {
        if !is_item_allowed(alloc, problem, table, at, *term, ahead)? {
            return Ok(false);
        }
    }
    Ok(true)
}

// Whether the terms of all lists ahead are allowed at the label. The highest list comes first and
// names lower ones, so none comes twice.
fn are_ahead_allowed(
    alloc: Global,
    problem: &SizedProblem,
    table: &GroundTable,
    at: &[MarkAt],
    mut ahead: BTreeSet<u32>,
) -> Result<bool, NoMemory>
    ensures { IfOk result (λ b. b
        ≡ are_ahead_allowed problem.now (map (the_mark_at table.now) at.now) table.now ahead.keys) }
{
    while let Some(number) = ahead.pop_last() {
        let list = GroundTerms(number);
        if !are_items_allowed(alloc, problem, table, at, list, &mut ahead)? {
            return Ok(false);
        }
    }
    Ok(true)
}

/// Whether the term is allowed at the label. In constant domains each one is; else each list of terms
/// inside it is looked at once.
pub fn is_allowed(
    alloc: Global,
    problem: &SizedProblem,
    table: &GroundTable,
    at: &[MarkAt],
    term: GroundTerm,
) -> Result<bool, NoMemory>
    ensures { IfOk result (λ b. b ≡ is_allowed problem.now (map (the_mark_at table.now) at.now) (the_g_term table.now term)) }
{
    match problem.setting().domains() {
        Domains::Constant => Ok(true),
        Domains::Cumulative | Domains::Varying => {
            let mut ahead = BTreeSet::new(alloc);
            if !is_item_allowed(alloc, problem, table, at, term, &mut ahead)? {
                return Ok(false);
            }
            let allowed = are_ahead_allowed(alloc, problem, table, at, ahead)?;
            Ok(allowed)
        }
    }
}
