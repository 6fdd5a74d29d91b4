//! The search that does not return to solved goals (leanCoP's restricted backtracking): as soon as a
//! goal is solved, the choices that it has left are dropped.

ghost use Rattle.std.specs.Prelude.{◌≡◌, ◌≤◌, ◌<◌, ◌-◌, ◌++◌, ◌∷◌, [], ℕ, IfOk, List, length};
ghost use Rattle.calculus.specs.Choices.{Choice, start};
ghost use Rattle.calculus.specs.Counting.{AtLeastMany};
ghost use Rattle.calculus.specs.Cut.{HasCut};
ghost use Rattle.calculus.specs.Space.{IsMember, member_cmp};
ghost use Rattle.search_theory.specs.Cutting.{IsToldOf};
ghost use Rattle.search_theory.specs.Matrix.{IsTemplateMatrix};
ghost use Rattle.connection_search.specs.Cutting.{IsCountedAt, IsCutEnd, IsCutFailed, IsLimitEnd};
ghost use Rattle.connection_search.specs.CutOutcomes.{IfCutEnded, IsCutAnswer, IsCutLimit};
ghost use Rattle.connection_search.specs.Exploring.{IfOn};
ghost use Rattle.connection_search.specs.Moments.{CutCountedAt, CutEndedAt, CutExploringAt};
ghost use Rattle.connection_search.specs.Moments.{CutFailedAt, CutHolds, CutLeads, CutVisitingAt};
ghost use Rattle.connection_search.specs.Moments.{IsSpaceOf, PassesNext, sides_of, start_by};
ghost use Rattle.connection_search.specs.Moments.{the_moment};
ghost use Rattle.search_tree.specs.Weights.{work_left};

use crate::limit_search::LimitSearch;
use crate::pruning::Pruning;
use crate::searching::clause_id;
use crate::visit::Visit;
use cop_base::{ClauseId, Ledger, NoMemory, PathLimit};
use logic_rules::Problem;
use matrix_build::Matrix;
use search_tree::{Point, SearchState};
use std::alloc::Global;
use tableau_core::{SizedProblem, Tableau};
use term_store::Store;

/// What the search that does not return to solved goals answers.
#[derive(Drop)]
pub enum CutAnswer {
    /// The least limit at which it finds a tableau, and this tableau.
    Closed { limit: u8, tableau: Tableau },
    /// It finds none within the greatest limit.
    Open,
    /// The budget is used up.
    Steps,
}

impl LimitSearch<'_> {
    // Spends a step for the list of choices, which is sound. Goals that are solved give up their
    // points. A list without open goals is decided; where no closed tableau has it, the start has
    // failed, and no point is left. A goal that has as many goals above it as the limit may show that
    // the limit is left.
    fn visit_cut(
        &self,
        ledger: &mut Ledger,
        store: &mut Store,
        work: &mut SearchState,
        points: &mut Vec<Point>,
        left: &mut bool,
    ) -> Result<Visit, NoMemory>
        requires { CutHolds self.now
            (CutVisitingAt (the_moment store.old work.old points.old.items ledger.old left.old)) }
        ensures on { IfOk result (λ v. IfOn v (CutLeads self.now
            (CutVisitingAt (the_moment store.old work.old points.old.items ledger.old left.old))
            (CutExploringAt (the_moment store.new work.new points.new.items ledger.new
            left.new)))) }
        ensures end { IfOk result (λ v. CutLeads self.now
            (CutVisitingAt (the_moment store.old work.old points.old.items ledger.old left.old))
            (CutEndedAt (the_moment store.new work.new points.new.items ledger.new left.new) v)) }
        ensures counted { CutLeads self.now
            (CutVisitingAt (the_moment store.old work.old points.old.items ledger.old left.old))
            (CutCountedAt (the_moment store.new work.new points.new.items ledger.new left.new)) }
        ensures budget { ledger.new.budget ≡ ledger.old.budget }
        ensures falls { IfOk result (λ v. IfOn v (
            work_left ledger.old.budget ledger.new.used points.new.items
            ≤ work_left ledger.old.budget ledger.old.used points.old.items)) }
    {
        if !ledger.take() {
            return Ok(Visit::Steps);
        }
        match work.tree.open {
            None => {
                points.truncate(0);
                let decided = self.decide(ledger, store, work)?;
                match decided {
                    Visit::On => Ok(Visit::On),
                    Visit::Steps => Ok(Visit::Steps),
                    Visit::Closed(tableau) => Ok(Visit::Closed(tableau)),
                }
            }
            Some(goal) => {
                points.truncate(work.tree.goals[goal].depth as usize);
                let point = Point::new(store, self.matrix, &work.tree, goal, self.limit as usize);
                *left = self.is_left(store, work, goal, *left)?;
                points.push(point)?;
                Ok(Visit::On)
            }
        }
    }

    // Goes back to the last choice point and makes its next choice. Where none is left, its goal is
    // not solved, and the choice above has failed.
    fn next_cut(
        &self,
        ledger: &mut Ledger,
        store: &mut Store,
        work: &mut SearchState,
        points: &mut Vec<Point>,
        left: &mut bool,
        last: Point,
    ) -> Result<Visit, NoMemory>
        requires { CutHolds self.now
            (CutExploringAt (the_moment store.old work.old (points.old.items ++ last ∷ [])
            ledger.old left.old)) }
        ensures on { IfOk result (λ v. IfOn v (CutLeads self.now
            (CutExploringAt (the_moment store.old work.old (points.old.items ++ last ∷ [])
            ledger.old left.old))
            (CutExploringAt (the_moment store.new work.new points.new.items ledger.new
            left.new)))) }
        ensures end { IfOk result (λ v. CutLeads self.now
            (CutExploringAt (the_moment store.old work.old (points.old.items ++ last ∷ [])
            ledger.old left.old))
            (CutEndedAt (the_moment store.new work.new points.new.items ledger.new left.new) v)) }
        ensures counted { CutLeads self.now
            (CutExploringAt (the_moment store.old work.old (points.old.items ++ last ∷ [])
            ledger.old left.old))
            (CutCountedAt (the_moment store.new work.new points.new.items ledger.new left.new)) }
        ensures budget { ledger.new.budget ≡ ledger.old.budget }
        ensures falls { IfOk result (λ v. IfOn v (
            work_left ledger.old.budget ledger.new.used points.new.items
            < work_left ledger.old.budget ledger.old.used (points.old.items ++ last ∷ []))) }
    {
        last.return_to(store, &mut work.tree);
        let mut point = last;
        let choice = match point.next(self.matrix, &work.tree)? {
            Some(choice) => choice,
            None => return Ok(Visit::On),
        };
        points.push(point)?;
        if !work.make(store, self.matrix, point.goal, choice, None)? {
            return Ok(Visit::On);
        }
        if !work.is_regular(store)? {
            return Ok(Visit::On);
        }
        let visit = self.visit_cut(ledger, store, work, points, left)?;
        Ok(visit)
    }

    // Goes on from the choice points until the start has failed or a tableau is found.
    fn explore_cut(
        &self,
        ledger: &mut Ledger,
        store: &mut Store,
        work: &mut SearchState,
        points: &mut Vec<Point>,
        left: &mut bool,
    ) -> Result<Visit, NoMemory>
        requires { CutHolds self.now
            (CutExploringAt (the_moment store.old work.old points.old.items ledger.old left.old)) }
        ensures on { IfOk result (λ v. IfOn v (CutLeads self.now
            (CutExploringAt (the_moment store.old work.old points.old.items ledger.old left.old))
            (CutFailedAt (the_moment store.new work.new points.new.items ledger.new left.new)))) }
        ensures end { IfOk result (λ v. CutLeads self.now
            (CutExploringAt (the_moment store.old work.old points.old.items ledger.old left.old))
            (CutEndedAt (the_moment store.new work.new points.new.items ledger.new left.new) v)) }
        ensures counted { CutLeads self.now
            (CutExploringAt (the_moment store.old work.old points.old.items ledger.old left.old))
            (CutCountedAt (the_moment store.new work.new points.new.items ledger.new left.new)) }
        ensures budget { ledger.new.budget ≡ ledger.old.budget }
    {
        while let Some(point) = points.pop() {
            match self.next_cut(ledger, store, work, points, left, point)? {
                Visit::On => {}
                Visit::Closed(tableau) => return Ok(Visit::Closed(tableau)),
                Visit::Steps => return Ok(Visit::Steps),
            }
        }
        Ok(Visit::On)
    }

    // Searches by the clause as a start, which may have a literal of sign T, over a store of its own.
    fn start_cut(
        &self,
        alloc: Global,
        ledger: &mut Ledger,
        clause: ClauseId,
        left: &mut bool,
    ) -> Result<Visit, NoMemory>
        requires passing { (later : List (List Choice)) × (begun : ℕ) × IsSpaceOf self.now
            × PassesNext self.now ledger.old (start_by self.now clause.0 ∷ later) begun }
        requires clause { clause.0 < length self.now.matrix.now }
        ensures on { IfOk result (λ v. IfOn v ((later : List (List Choice)) (begun : ℕ)
            → IsSpaceOf self.now
            → PassesNext self.now ledger.old (start_by self.now clause.0 ∷ later) begun
            → IsCutFailed self.now.problem.now self.now.limit (sides_of self.now clause.0) later
            begun ledger.new.used left.new)) }
        ensures end { IfOk result (λ v. (later : List (List Choice)) (begun : ℕ)
            → IsSpaceOf self.now
            → PassesNext self.now ledger.old (start_by self.now clause.0 ∷ later) begun
            → IsCutEnd self.now.problem.now self.now.limit (sides_of self.now clause.0) begun
            ledger.new.used ledger.new.budget v) }
        ensures counted { (later : List (List Choice)) (begun : ℕ) → IsSpaceOf self.now
            → PassesNext self.now ledger.old (start_by self.now clause.0 ∷ later) begun
            → IsCountedAt self.now.problem.now self.now.limit begun ledger.new.used }
        ensures budget { ledger.new.budget ≡ ledger.old.budget }
    {
        let starts = self.matrix.is_start(clause);
        if !starts {
            return Ok(Visit::On);
        }
        let mut store = Store::new(alloc)?;
        let mut work = SearchState::new(alloc);
        work.start(&mut store, self.matrix, clause)?;
        let mut points = Vec::new(alloc);
        match self.visit_cut(ledger, &mut store, &mut work, &mut points, left)? {
            Visit::On => {
                let found = self.explore_cut(ledger, &mut store, &mut work, &mut points, left)?;
                Ok(found)
            }
            Visit::Closed(tableau) => Ok(Visit::Closed(tableau)),
            Visit::Steps => Ok(Visit::Steps),
        }
    }

    // Searches start after start. Where nothing shows that the limit is left, no greater limit has a
    // cut either.
    fn run_cut(
        &self,
        alloc: Global,
        ledger: &mut Ledger,
        left: &mut bool,
    ) -> Result<Visit, NoMemory>
        requires { IsSpaceOf self.now }
        ensures none { IfOk result (λ v. IfOn v ((e : ℕ) → IsToldOf self.now.limit left.new e
            → ¬ HasCut self.now.problem.now e)) }
        ensures end { IfOk result (λ v. IsLimitEnd self.now.problem.now self.now.limit
            ledger.old.used ledger.new.used ledger.new.budget v) }
        ensures counted { IsCountedAt self.now.problem.now self.now.limit ledger.old.used
            ledger.new.used }
        ensures budget { ledger.new.budget ≡ ledger.old.budget }
    {
        for number in 0..self.matrix.len() {
            let clause = clause_id(number)?;
            let mut found = *left;
            match self.start_cut(alloc, ledger, clause, &mut found)? {
                Visit::On => *left |= found,
                Visit::Closed(tableau) => return Ok(Visit::Closed(tableau)),
                Visit::Steps => return Ok(Visit::Steps),
            }
        }
        Ok(Visit::On)
    }
}

// As `deepen_cut`, where the sizes of the problem's parts are known.
fn deepen_cut_sized<'a>(
    alloc: Global,
    problem: &'a SizedProblem<'a>,
    matrix: &'a Matrix,
    cut_limit: PathLimit,
    ledger: &mut Ledger,
) -> Result<CutAnswer, NoMemory>
    requires { IsTemplateMatrix problem.now matrix.now }
    ensures answer { IfOk result
        (IsCutAnswer problem.now cut_limit.number (ledger.old.budget - ledger.old.used)) }
    ensures ended { IfOk result (λ a. IfCutEnded a (ledger.new.used ≡ ledger.new.budget)) }
    ensures count { (e : ℕ) → IsCutLimit problem.now cut_limit.number e
        → AtLeastMany member_cmp (IsMember problem.now e) (ledger.new.used - ledger.old.used) }
    ensures rises { ledger.old.used ≤ ledger.new.used }
    ensures budget { ledger.new.budget ≡ ledger.old.budget }
{
    let _setting = problem.problem().setting();
    for passed in 0..cut_limit.number {
        let limit = passed + 1;
        let space = LimitSearch {
            problem,
            matrix,
            limit,
            pruning: Pruning::all(),
        };
        let mut left = false;
        match space.run_cut(alloc, ledger, &mut left)? {
            Visit::On => {
                if !left {
                    return Ok(CutAnswer::Open);
                }
            }
            Visit::Closed(tableau) => return Ok(CutAnswer::Closed { limit, tableau }),
            Visit::Steps => return Ok(CutAnswer::Steps),
        }
    }
    Ok(CutAnswer::Open)
}

/// Searches the limits from 1 to `cut_limit` without returning to solved goals, over the problem's
/// own matrix. Steps are used as by `search`. Where the search fails at a limit and nothing shows
/// that the limit is left, it would fail at each greater one in the same way, and ends.
pub fn deepen_cut(
    alloc: Global,
    problem: &Problem,
    matrix: &Matrix,
    cut_limit: PathLimit,
    ledger: &mut Ledger,
) -> Result<CutAnswer, NoMemory>
    requires { IsTemplateMatrix problem.now matrix.now }
    ensures answer { IfOk result
        (IsCutAnswer problem.now cut_limit.number (ledger.old.budget - ledger.old.used)) }
    ensures ended { IfOk result (λ a. IfCutEnded a (ledger.new.used ≡ ledger.new.budget)) }
    ensures count { (e : ℕ) → IsCutLimit problem.now cut_limit.number e
        → AtLeastMany member_cmp (IsMember problem.now e) (ledger.new.used - ledger.old.used) }
    ensures rises { ledger.old.used ≤ ledger.new.used }
    ensures budget { ledger.new.budget ≡ ledger.old.budget }
{
    let sized = SizedProblem::new(alloc, problem)?;
    deepen_cut_sized(alloc, &sized, matrix, cut_limit, ledger)
}
