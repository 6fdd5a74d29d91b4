//! Whether a cell needs itself, by way of the homes of variables.

ghost use Rattle.std.specs.Prelude.{◌≡◌, ◌<◌, ◌≤◌, ◌⊎◌, ℕ, suc, None, Some, IfOk, false, length};
ghost use Rattle.std.specs.Prelude.{map, slice_get, true};
ghost use Rattle.calculus.specs.declared.sort.Sort.TheVariants.{TermSort};
ghost use Rattle.store_theory.specs.Bindings.{IsEnd, IsWellFormed};
ghost use Rattle.store_theory.specs.Stores.{variable};
ghost use Rattle.search_theory.specs.SpareRules.{HasNoNeedCycle, NeedsCells, homes};
ghost use Rattle.term_store.specs.RefView.{the_place};
ghost use Rattle.domain_cond.specs.Ranks.{AreSmall, IsAbove, IsRankOf, IsRound, rank_at};
ghost use Rattle.domain_cond.specs.StandingView.{the_standing};
ghost use Rattle.domain_cond.specs.Standings.{home_marks};

use crate::home::{is_same_sort, value_at};
use crate::leaf::push_parts;
use crate::standing::{Standing, contains, standing_at};
use cop_base::NoMemory;
use std::alloc::Global;
use term_store::{Head, Ref, Sort, Store};

// Whether an unbound term variable stands at the end of bindings.
fn is_open_term(store: &Store, end: Ref) -> bool
    requires { IsEnd store.now.store end.0 }
    ensures yes { result ≡ true
        → slice_get store.now.store.cells end.0 ≡ Some (variable TermSort None) }
    ensures no { result ≡ false
        → ¬ (slice_get store.now.store.cells end.0 ≡ Some (variable TermSort None)) }
{
    match store.head(end) {
        Head::Open(sort) => is_same_sort(sort, Sort::TermSort),
        Head::Fun(_) => false,
        Head::Eigen(_) => false,
        Head::New(_) => false,
        Head::Marks => false,
    }
}

fn rank_at(ranks: &[usize], place: usize) -> usize
    ensures { result ≡ rank_at ranks.now place }
{
    if place < ranks.len() { ranks[place] } else { 0 }
}

fn raised(above: usize, rank: usize) -> usize
    requires { rank < 4294967299 }
    ensures kept { above ≤ result }
    ensures higher { rank < result }
    ensures least { (result ≡ above) ⊎ (result ≡ suc rank) }
{
    if rank < above { above } else { rank + 1 }
}

// The least number above the ranks of these cells.
fn above(ranks: &[usize], cells: &[Ref]) -> usize
    requires { AreSmall ranks.now }
    ensures { IsAbove (rank_at ranks.now) (map the_place cells.now) result }
{
    let mut above = 0;
    for i in 0..cells.len() {
        let cell = value_at(cells, i);
        above = raised(above, rank_at(ranks, cell.0 as usize));
    }
    above
}

// The least number above the ranks of the marks of the variable's home.
fn above_home(standings: &[Standing], ranks: &[usize], end: Ref) -> usize
    requires { AreSmall ranks.now }
    ensures { IsAbove (rank_at ranks.now)
        (home_marks (map the_standing standings.now) end.0) result }
{
    for i in 0..standings.len() {
        let standing = standing_at(standings, i);
        if contains(&standing.leaves, end) {
            return above(ranks, &standing.marks);
        }
    }
    0
}

// The least number above the ranks of what the cell needs.
fn next_rank(
    alloc: Global,
    store: &Store,
    standings: &[Standing],
    ranks: &[usize],
    cell: Ref,
) -> Result<usize, NoMemory>
    requires within { cell.0 < length store.now.store.cells }
    requires small { AreSmall ranks.now }
    ensures { IfOk result (λ b. IsRankOf (homes (home_marks (map the_standing standings.now)))
        store.now.store (rank_at ranks.now) cell.0 b) }
{
    let end = store.walk(cell);
    if is_open_term(store, end) {
        return Ok(above_home(standings, ranks, end));
    }
    let mut parts = Vec::new(alloc);
    push_parts(store, end, &mut parts)?;
    Ok(above(ranks, &parts))
}

fn next_ranks(
    alloc: Global,
    store: &Store,
    standings: &[Standing],
    ranks: &[usize],
    count: usize,
) -> Result<Vec<usize>, NoMemory>
    requires count { count ≡ length store.now.store.cells }
    requires places { count ≤ 4294967296 }
    requires small { AreSmall ranks.now }
    ensures { IfOk result (λ next. IsRound (homes (home_marks (map the_standing standings.now)))
        store.now.store count (rank_at ranks.now) (rank_at next.items)) }
{
    let mut next = Vec::new(alloc);
    for i in 0..count {
        next.push(next_rank(alloc, store, standings, ranks, Ref(i as u32))?)?;
    }
    Ok(next)
}

// Whether the first ranks are the same.
fn are_same(left: &[usize], right: &[usize], count: usize) -> bool
    ensures yes { result ≡ true → (r : ℕ) → r < count
        → rank_at left.now r ≡ rank_at right.now r }
    ensures no { result ≡ false → (r : ℕ) × (r < count)
        × (¬ (rank_at left.now r ≡ rank_at right.now r)) }
{
    for i in 0..count {
        if rank_at(left, i) != rank_at(right, i) {
            return false;
        }
    }
    true
}

/// Whether no cell needs itself. Each round gives each cell the least rank above what it needs, and
/// where there is no cycle, about as many rounds as there are cells find ranks that stay.
pub(crate) fn has_no_cycle(
    alloc: Global,
    store: &Store,
    standings: &[Standing],
) -> Result<bool, NoMemory>
    requires { NeedsCells (homes (home_marks (map the_standing standings.now))) store.now.store }
    ensures yes { IfOk result (λ b. b ≡ true
        → HasNoNeedCycle (homes (home_marks (map the_standing standings.now))) store.now.store) }
    ensures no { IfOk result (λ b. b ≡ false
        → ¬ HasNoNeedCycle (homes (home_marks (map the_standing standings.now))) store.now.store) }
{
    let count = store.count();
    let mut ranks = Vec::new(alloc);
    for _i in 0..count + 2 {
        let next = next_ranks(alloc, store, standings, &ranks, count)?;
        if are_same(&next, &ranks, count) {
            return Ok(true);
        }
        ranks = next;
    }
    Ok(false)
}
