//! The search at one path limit.

ghost use Rattle.std.specs.Prelude.{◌≡◌, ◌≤◌, ◌<◌, ◌-◌, ◌∷◌, [], ℕ, IfOk, List, OnOk, length, true};
ghost use Rattle.store_theory.specs.Bindings.{KeepsMarks};
ghost use Rattle.calculus.specs.Choices.{Choice, start};
ghost use Rattle.calculus.specs.Counting.{AtLeastMany, MoreThan};
ghost use Rattle.calculus.specs.Space.{IsEarly, member_cmp};
ghost use Rattle.search_theory.specs.Matrix.{IsTemplateMatrix};
ghost use Rattle.term_store.specs.Room.{KeepsRoom, spare};
ghost use Rattle.connection_search.specs.Exploring.{IfOn, IsCounted, IsEnd};
ghost use Rattle.connection_search.specs.Moments.{ComesNext, CountedAt, EndedAt, Holds, IsSpaceOf};
ghost use Rattle.connection_search.specs.Moments.{Leads, SearchedAt, VisitingAt, start_by};
ghost use Rattle.connection_search.specs.Moments.{the_moment};
ghost use Rattle.connection_search.specs.Outcomes.{IfSteps, IsOutcome};
ghost use Rattle.search_tree.specs.Failing.{AreFailed};

use crate::limit_search::LimitSearch;
use crate::pruning::Pruning;
use crate::visit::Visit;
use cop_base::{ClauseId, Ledger, NoMemory, PathLimit};
use logic_rules::Problem;
use matrix_build::Matrix;
use search_tree::{Failed, SearchState};
use std::alloc::Global;
use tableau_core::{SizedProblem, Tableau};
use term_store::Store;

/// What a search at one limit answers.
#[derive(Drop)]
pub enum Outcome {
    /// A tableau that is closed within the limit.
    Closed(Tableau),
    /// There is none; `left` tells whether the limit stopped the search.
    Empty { left: bool },
    /// The budget is used up.
    Steps,
}

// The number of a clause. Numbers beyond 32 bits are beyond memory.
pub(crate) fn clause_id(number: usize) -> Result<ClauseId, NoMemory>
    ensures { IfOk result (λ c. c.0 ≡ number) }
{
    match u32::try_from(number) {
        Ok(n) => Ok(ClauseId(n)),
        Err(_) => Err(NoMemory),
    }
}

impl LimitSearch<'_> {
    // Searches all that begins with the choices made so far.
    fn search_from(
        &self,
        ledger: &mut Ledger,
        store: &mut Store,
        work: &mut SearchState,
        failed: &mut Failed,
        left: &mut bool,
    ) -> Result<Visit, NoMemory>
        requires visiting { Holds self.now
            (VisitingAt (the_moment store.old work.old [] ledger.old left.old)) }
        requires failed { AreFailed self.now.problem.now self.now.limit failed.old }
        ensures on { IfOk result (λ v. IfOn v (Leads self.now
            (VisitingAt (the_moment store.old work.old [] ledger.old left.old))
            (SearchedAt (the_moment store.new work.new [] ledger.new left.new)))) }
        ensures end { IfOk result (λ v. Leads self.now
            (VisitingAt (the_moment store.old work.old [] ledger.old left.old))
            (EndedAt (the_moment store.new work.new [] ledger.new left.new) v)) }
        ensures counted { Leads self.now
            (VisitingAt (the_moment store.old work.old [] ledger.old left.old))
            (CountedAt (the_moment store.new work.new [] ledger.new left.new)) }
        ensures budget { ledger.new.budget ≡ ledger.old.budget }
        ensures failed { OnOk result
            (AreFailed self.now.problem.now self.now.limit failed.new) }
        ensures marks { KeepsMarks store.old.store store.new.store }
        ensures room { KeepsRoom store.old store.new }
    {
        let mut points = Vec::new(work.alloc);
        match self.visit(ledger, store, work, failed, &mut points, left)? {
            Visit::On => {
                let found = self.explore(ledger, store, work, failed, &mut points, left)?;
                Ok(found)
            }
            Visit::Closed(tableau) => Ok(Visit::Closed(tableau)),
            Visit::Steps => Ok(Visit::Steps),
        }
    }

    // Searches all that begins with the clause, which may have a literal of sign T.
    fn start_with(
        &self,
        ledger: &mut Ledger,
        store: &mut Store,
        work: &mut SearchState,
        failed: &mut Failed,
        clause: ClauseId,
        left: &mut bool,
    ) -> Result<Visit, NoMemory>
        requires searched { (later : List (List Choice)) × (begun : ℕ) × IsSpaceOf self.now
            × ComesNext self.now ledger.old left.old (start_by self.now clause.0 ∷ later) begun }
        requires clause { clause.0 < length self.now.matrix.now }
        requires steps { work.old.tree.steps.items ≡ [] }
        requires goals { work.old.tree.goals.items ≡ [] }
        requires failed { AreFailed self.now.problem.now self.now.limit failed.old }
        ensures on { IfOk result (λ v. IfOn v ((later : List (List Choice)) (begun : ℕ)
            → IsSpaceOf self.now
            → ComesNext self.now ledger.old left.old (start_by self.now clause.0 ∷ later) begun
            → ComesNext self.now ledger.new left.new later begun)) }
        ensures end { IfOk result (λ v. (later : List (List Choice)) (begun : ℕ)
            → IsSpaceOf self.now
            → ComesNext self.now ledger.old left.old (start_by self.now clause.0 ∷ later) begun
            → IsEnd self.now.problem.now self.now.limit begun ledger.new.used ledger.new.budget v) }
        ensures counted { (later : List (List Choice)) (begun : ℕ) → IsSpaceOf self.now
            → ComesNext self.now ledger.old left.old (start_by self.now clause.0 ∷ later) begun
            → IsCounted self.now.problem.now self.now.limit begun ledger.new.used }
        ensures budget { ledger.new.budget ≡ ledger.old.budget }
        ensures failed { OnOk result
            (AreFailed self.now.problem.now self.now.limit failed.new) }
        ensures store { OnOk result (store.new.store ≡ store.old.store) }
        ensures steps { OnOk result (work.new.tree.steps.items ≡ []) }
        ensures goals { OnOk result (work.new.tree.goals.items ≡ []) }
        ensures marks { KeepsMarks store.old.store store.new.store }
        ensures room { KeepsRoom store.old store.new }
    {
        let starts = self.matrix.is_start(clause);
        if !starts {
            return Ok(Visit::On);
        }
        let mark = store.mark();
        work.start(store, self.matrix, clause)?;
        let found = self.search_from(ledger, store, work, failed, left)?;
        store.undo(mark);
        work.tree.cut(store, 0, 0, None);
        Ok(found)
    }

    // Searches all, clause after clause.
    fn run(
        &self,
        alloc: Global,
        ledger: &mut Ledger,
        store: &mut Store,
    ) -> Result<Outcome, NoMemory>
        requires { IsSpaceOf self.now }
        ensures outcome { IfOk result (IsOutcome self.now.problem.now self.now.limit) }
        ensures steps { IfOk result (λ o. IfSteps o ((ledger.new.used ≡ ledger.new.budget)
            × MoreThan member_cmp (IsEarly self.now.problem.now self.now.limit)
            (ledger.new.used - ledger.old.used))) }
        ensures counted { IsCounted self.now.problem.now self.now.limit ledger.old.used
            ledger.new.used }
        ensures budget { ledger.new.budget ≡ ledger.old.budget }
        ensures store { OnOk result (store.new.store ≡ store.old.store) }
        ensures marks { KeepsMarks store.old.store store.new.store }
        ensures room { KeepsRoom store.old store.new }
    {
        let mut work = SearchState::new(alloc);
        let mut failed = Failed::new(alloc);
        let mut left = false;
        for number in 0..self.matrix.len() {
            let clause = clause_id(number)?;
            match self.start_with(ledger, store, &mut work, &mut failed, clause, &mut left)? {
                Visit::On => {}
                Visit::Closed(tableau) => return Ok(Outcome::Closed(tableau)),
                Visit::Steps => return Ok(Outcome::Steps),
            }
        }
        Ok(Outcome::Empty { left })
    }
}

// As `search_with`, where the sizes of the problem's parts are known.
pub(crate) fn search_sized<'a>(
    alloc: Global,
    problem: &'a SizedProblem<'a>,
    matrix: &'a Matrix,
    limit: PathLimit,
    ledger: &mut Ledger,
    store: &mut Store,
    pruning: Pruning,
) -> Result<Outcome, NoMemory>
    requires { IsTemplateMatrix problem.now matrix.now }
    ensures outcome { IfOk result (IsOutcome problem.now limit.number) }
    ensures steps { IfOk result (λ o. IfSteps o ((ledger.new.used ≡ ledger.new.budget)
        × MoreThan member_cmp (IsEarly problem.now limit.number)
        (ledger.old.budget - ledger.old.used))) }
    ensures count { AtLeastMany member_cmp (IsEarly problem.now limit.number)
        (ledger.new.used - ledger.old.used) }
    ensures rises { ledger.old.used ≤ ledger.new.used }
    ensures budget { ledger.new.budget ≡ ledger.old.budget }
    ensures store { store.new.store ≡ store.old.store }
    ensures spare { spare store.old ≤ spare store.new }
{
    let _setting = problem.problem().setting();
    let start = store.mark();
    let space = LimitSearch {
        problem,
        matrix,
        limit: limit.number,
        pruning,
    };
    let outcome = space.run(alloc, ledger, store);
    store.undo(start);
    outcome
}

/// Searches for a tableau that is closed within the limit, over new cells of the store, which are
/// given back. A step is used for each list of choices that is not dropped; where the logic has
/// labels, also for each list of string lengths that is tried at a list of choices without open
/// goals.
pub fn search_with(
    alloc: Global,
    problem: &Problem,
    matrix: &Matrix,
    limit: PathLimit,
    ledger: &mut Ledger,
    store: &mut Store,
    pruning: Pruning,
) -> Result<Outcome, NoMemory>
    requires { IsTemplateMatrix problem.now matrix.now }
    ensures outcome { IfOk result (IsOutcome problem.now limit.number) }
    ensures steps { IfOk result (λ o. IfSteps o ((ledger.new.used ≡ ledger.new.budget)
        × MoreThan member_cmp (IsEarly problem.now limit.number)
        (ledger.old.budget - ledger.old.used))) }
    ensures count { AtLeastMany member_cmp (IsEarly problem.now limit.number)
        (ledger.new.used - ledger.old.used) }
    ensures rises { ledger.old.used ≤ ledger.new.used }
    ensures budget { ledger.new.budget ≡ ledger.old.budget }
    ensures store { store.new.store ≡ store.old.store }
    ensures spare { spare store.old ≤ spare store.new }
{
    let sized = SizedProblem::new(alloc, problem)?;
    search_sized(alloc, &sized, matrix, limit, ledger, store, pruning)
}

/// Searches as `search_with` does, where lists are dropped by all that `Pruning` names.
pub fn search_in(
    alloc: Global,
    problem: &Problem,
    matrix: &Matrix,
    limit: PathLimit,
    ledger: &mut Ledger,
    store: &mut Store,
) -> Result<Outcome, NoMemory>
    requires { IsTemplateMatrix problem.now matrix.now }
    ensures outcome { IfOk result (IsOutcome problem.now limit.number) }
    ensures steps { IfOk result (λ o. IfSteps o ((ledger.new.used ≡ ledger.new.budget)
        × MoreThan member_cmp (IsEarly problem.now limit.number)
        (ledger.old.budget - ledger.old.used))) }
    ensures count { AtLeastMany member_cmp (IsEarly problem.now limit.number)
        (ledger.new.used - ledger.old.used) }
    ensures rises { ledger.old.used ≤ ledger.new.used }
    ensures budget { ledger.new.budget ≡ ledger.old.budget }
    ensures store { store.new.store ≡ store.old.store }
    ensures spare { spare store.old ≤ spare store.new }
{
    search_with(alloc, problem, matrix, limit, ledger, store, Pruning::all())
}

/// Searches for a tableau that is closed within the limit, over the problem's own matrix. Steps are
/// used as by `search_in`.
pub fn search(
    alloc: Global,
    problem: &Problem,
    matrix: &Matrix,
    limit: PathLimit,
    ledger: &mut Ledger,
) -> Result<Outcome, NoMemory>
    requires { IsTemplateMatrix problem.now matrix.now }
    ensures outcome { IfOk result (IsOutcome problem.now limit.number) }
    ensures steps { IfOk result (λ o. IfSteps o ((ledger.new.used ≡ ledger.new.budget)
        × MoreThan member_cmp (IsEarly problem.now limit.number)
        (ledger.old.budget - ledger.old.used))) }
    ensures count { AtLeastMany member_cmp (IsEarly problem.now limit.number)
        (ledger.new.used - ledger.old.used) }
    ensures rises { ledger.old.used ≤ ledger.new.used }
    ensures budget { ledger.new.budget ≡ ledger.old.budget }
{
    let mut store = Store::new(alloc)?;
    search_in(alloc, problem, matrix, limit, ledger, &mut store)
}
