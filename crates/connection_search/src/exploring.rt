//! The loop of the search: a stack of choice points, all of whose choices are tried in order.

ghost use Rattle.std.specs.Prelude.{◌≡◌, ◌<◌, IfOk, OnOk, length};
ghost use Rattle.store_theory.specs.Bindings.{KeepsMarks};
ghost use Rattle.store_theory.specs.Stores.{IsGood, TrailMark};
ghost use Rattle.term_store.specs.Room.{KeepsRoom};
ghost use Rattle.connection_search.specs.Exploring.{AreAbove, ArePushed, IfOn, KeepsMoment};
ghost use Rattle.connection_search.specs.Moments.{CountedAt, EndedAt, ExploringAt, Holds, Leads};
ghost use Rattle.connection_search.specs.Moments.{SearchedAt, VisitingAt, the_moment};
ghost use Rattle.search_tree.specs.Failing.{AreFailed};
ghost use Rattle.search_tree.specs.Weights.{work_left};

use crate::limit_search::LimitSearch;
use crate::seeing::{lower, seen};
use crate::visit::Visit;
use cop_base::{Ledger, NoMemory};
use search_tree::{Failed, Point, SearchState};
use term_store::Store;

impl LimitSearch<'_> {
    // Spends a step for the list of choices. A list without open goals is decided here, where no
    // goal is the same as one above it.
    fn take_up(
        &self,
        ledger: &mut Ledger,
        store: &mut Store,
        work: &mut SearchState,
        points: &mut Vec<Point>,
        left: &mut bool,
    ) -> Result<Visit, NoMemory>
        requires { Holds self.now
            (VisitingAt (the_moment store.old work.old points.old.items ledger.old left.old)) }
        ensures on { IfOk result (λ v. IfOn v (Leads self.now
            (VisitingAt (the_moment store.old work.old points.old.items ledger.old left.old))
            (ExploringAt (the_moment store.new work.new points.new.items ledger.new left.new)))) }
        ensures end { IfOk result (λ v. Leads self.now
            (VisitingAt (the_moment store.old work.old points.old.items ledger.old left.old))
            (EndedAt (the_moment store.new work.new points.new.items ledger.new left.new) v)) }
        ensures counted { Leads self.now
            (VisitingAt (the_moment store.old work.old points.old.items ledger.old left.old))
            (CountedAt (the_moment store.new work.new points.new.items ledger.new left.new)) }
        ensures budget { ledger.new.budget ≡ ledger.old.budget }
        ensures points { IfOk result (λ v. IfOn v
            (ArePushed points.old.items points.new.items ledger.old.used ledger.new.used)) }
        ensures above { OnOk result ((k : TrailMark) → IsGood k store.old.store
            → AreAbove k points.old.items → AreAbove k points.new.items) }
        ensures marks { KeepsMarks store.old.store store.new.store }
        ensures room { KeepsRoom store.old store.new }
    {
        match work.tree.open {
            None => {
                if !work.is_regular(store)? {
                    return Ok(Visit::On);
                }
                if !ledger.take() {
                    return Ok(Visit::Steps);
                }
                let decided = self.decide(ledger, store, work)?;
                Ok(decided)
            }
            Some(goal) => {
                if !ledger.take() {
                    return Ok(Visit::Steps);
                }
                let point = Point::new(store, self.matrix, &work.tree, goal, self.limit as usize);
                *left = self.is_left(store, work, goal, *left)?;
                points.push(point)?;
                Ok(Visit::On)
            }
        }
    }

    // Drops the list of choices, where no closed tableau begins with it and it is known that the limit
    // is left. Else the list is taken up.
    fn visit_regular(
        &self,
        ledger: &mut Ledger,
        store: &mut Store,
        work: &mut SearchState,
        failed: &mut Failed,
        points: &mut Vec<Point>,
        left: &mut bool,
    ) -> Result<Visit, NoMemory>
        requires visiting { Holds self.now
            (VisitingAt (the_moment store.old work.old points.old.items ledger.old left.old)) }
        requires failed { AreFailed self.now.problem.now self.now.limit failed.old }
        ensures on { IfOk result (λ v. IfOn v (Leads self.now
            (VisitingAt (the_moment store.old work.old points.old.items ledger.old left.old))
            (ExploringAt (the_moment store.new work.new points.new.items ledger.new left.new)))) }
        ensures end { IfOk result (λ v. Leads self.now
            (VisitingAt (the_moment store.old work.old points.old.items ledger.old left.old))
            (EndedAt (the_moment store.new work.new points.new.items ledger.new left.new) v)) }
        ensures counted { Leads self.now
            (VisitingAt (the_moment store.old work.old points.old.items ledger.old left.old))
            (CountedAt (the_moment store.new work.new points.new.items ledger.new left.new)) }
        ensures budget { ledger.new.budget ≡ ledger.old.budget }
        ensures failed { OnOk result
            (AreFailed self.now.problem.now self.now.limit failed.new) }
        ensures points { IfOk result (λ v. IfOn v
            (ArePushed points.old.items points.new.items ledger.old.used ledger.new.used)) }
        ensures above { OnOk result ((k : TrailMark) → IsGood k store.old.store
            → AreAbove k points.old.items → AreAbove k points.new.items) }
        ensures marks { KeepsMarks store.old.store store.new.store }
        ensures room { KeepsRoom store.old store.new }
    {
        if self.is_stuck_early(store, work, *left) {
            return Ok(Visit::On);
        }
        let before = self.has_failed_early(store, work, failed, *left)?;
        if before {
            return Ok(Visit::On);
        }
        if self.is_refuted_early(store, work, *left)? {
            lower(points, 0);
            return Ok(Visit::On);
        }
        let visit = self.take_up(ledger, store, work, points, left)?;
        Ok(visit)
    }

    // Drops the list of choices, where a goal above the leftmost open one is the same as one above
    // it. Else as `visit_regular`.
    pub(crate) fn visit(
        &self,
        ledger: &mut Ledger,
        store: &mut Store,
        work: &mut SearchState,
        failed: &mut Failed,
        points: &mut Vec<Point>,
        left: &mut bool,
    ) -> Result<Visit, NoMemory>
        requires visiting { Holds self.now
            (VisitingAt (the_moment store.old work.old points.old.items ledger.old left.old)) }
        requires failed { AreFailed self.now.problem.now self.now.limit failed.old }
        ensures on { IfOk result (λ v. IfOn v (Leads self.now
            (VisitingAt (the_moment store.old work.old points.old.items ledger.old left.old))
            (ExploringAt (the_moment store.new work.new points.new.items ledger.new left.new)))) }
        ensures end { IfOk result (λ v. Leads self.now
            (VisitingAt (the_moment store.old work.old points.old.items ledger.old left.old))
            (EndedAt (the_moment store.new work.new points.new.items ledger.new left.new) v)) }
        ensures counted { Leads self.now
            (VisitingAt (the_moment store.old work.old points.old.items ledger.old left.old))
            (CountedAt (the_moment store.new work.new points.new.items ledger.new left.new)) }
        ensures budget { ledger.new.budget ≡ ledger.old.budget }
        ensures failed { OnOk result
            (AreFailed self.now.problem.now self.now.limit failed.new) }
        ensures points { IfOk result (λ v. IfOn v
            (ArePushed points.old.items points.new.items ledger.old.used ledger.new.used)) }
        ensures above { OnOk result ((k : TrailMark) → IsGood k store.old.store
            → AreAbove k points.old.items → AreAbove k points.new.items) }
        ensures marks { KeepsMarks store.old.store store.new.store }
        ensures room { KeepsRoom store.old store.new }
    {
        if let Some(repeated) = self.repeated_early(store, work, *left)? {
            lower(points, repeated);
            return Ok(Visit::On);
        }
        let visit = self.visit_regular(ledger, store, work, failed, points, left)?;
        Ok(visit)
    }

    // Goes back to the last choice point, makes its next choice and visits what came of it. The
    // point stays where a choice was left, and goes where its tree is found to be irregular, since
    // so is each tree that is grown from it. It is changed in its place: copies are dear here.
    fn try_next(
        &self,
        ledger: &mut Ledger,
        store: &mut Store,
        work: &mut SearchState,
        failed: &mut Failed,
        points: &mut Vec<Point>,
        left: &mut bool,
    ) -> Result<Visit, NoMemory>
        requires some { 0 < length points.old.items }
        requires exploring { Holds self.now
            (ExploringAt (the_moment store.old work.old points.old.items ledger.old left.old)) }
        requires failed { AreFailed self.now.problem.now self.now.limit failed.old }
        ensures on { IfOk result (λ v. IfOn v (Leads self.now
            (ExploringAt (the_moment store.old work.old points.old.items ledger.old left.old))
            (ExploringAt (the_moment store.new work.new points.new.items ledger.new left.new)))) }
        ensures end { IfOk result (λ v. Leads self.now
            (ExploringAt (the_moment store.old work.old points.old.items ledger.old left.old))
            (EndedAt (the_moment store.new work.new points.new.items ledger.new left.new) v)) }
        ensures counted { Leads self.now
            (ExploringAt (the_moment store.old work.old points.old.items ledger.old left.old))
            (CountedAt (the_moment store.new work.new points.new.items ledger.new left.new)) }
        ensures budget { ledger.new.budget ≡ ledger.old.budget }
        ensures failed { OnOk result
            (AreFailed self.now.problem.now self.now.limit failed.new) }
        ensures falls { IfOk result (λ v. IfOn v (
            work_left ledger.old.budget ledger.new.used points.new.items
            < work_left ledger.old.budget ledger.old.used points.old.items)) }
        ensures above { OnOk result ((k : TrailMark) → IsGood k store.old.store
            → AreAbove k points.old.items → AreAbove k points.new.items) }
        ensures moment { (k : TrailMark) → IsGood k store.old.store → AreAbove k points.old.items
            → KeepsMoment k store.old.store store.new.store }
        ensures room { KeepsRoom store.old store.new }
    {
        let below = points.len() - 1;
        let point = &mut points[below];
        point.return_to(store, &mut work.tree);
        if work.is_found_irregular(store)? {
            points.truncate(below);
            lower(points, 0);
            return Ok(Visit::On);
        }
        let choice = match self.next_choice(store, &work.tree, point, *left)? {
            Some(choice) => choice,
            None => {
                let spent = *point;
                points.truncate(below);
                self.keep_failed(store, work, failed, spent, *left)?;
                self.jump(store, work, points, spent, *left)?;
                return Ok(Visit::On);
            }
        };
        work.look.count();
        let ahead = self.limit_ahead(*left);
        let made = work.make(store, self.matrix, point.goal, choice, ahead)?;
        let first = seen(&work.tree, point.steps);
        point.see(first);
        if !made {
            return Ok(Visit::On);
        }
        let visit = self.visit(ledger, store, work, failed, points, left)?;
        Ok(visit)
    }

    // Tries all choices of the choice points.
    pub(crate) fn explore(
        &self,
        ledger: &mut Ledger,
        store: &mut Store,
        work: &mut SearchState,
        failed: &mut Failed,
        points: &mut Vec<Point>,
        left: &mut bool,
    ) -> Result<Visit, NoMemory>
        requires exploring { Holds self.now
            (ExploringAt (the_moment store.old work.old points.old.items ledger.old left.old)) }
        requires failed { AreFailed self.now.problem.now self.now.limit failed.old }
        ensures on { IfOk result (λ v. IfOn v (Leads self.now
            (ExploringAt (the_moment store.old work.old points.old.items ledger.old left.old))
            (SearchedAt (the_moment store.new work.new points.new.items ledger.new left.new)))) }
        ensures end { IfOk result (λ v. Leads self.now
            (ExploringAt (the_moment store.old work.old points.old.items ledger.old left.old))
            (EndedAt (the_moment store.new work.new points.new.items ledger.new left.new) v)) }
        ensures counted { Leads self.now
            (ExploringAt (the_moment store.old work.old points.old.items ledger.old left.old))
            (CountedAt (the_moment store.new work.new points.new.items ledger.new left.new)) }
        ensures budget { ledger.new.budget ≡ ledger.old.budget }
        ensures failed { OnOk result
            (AreFailed self.now.problem.now self.now.limit failed.new) }
        ensures moment { (k : TrailMark) → IsGood k store.old.store → AreAbove k points.old.items
            → KeepsMoment k store.old.store store.new.store }
        ensures room { KeepsRoom store.old store.new }
    {
        while points.len() > 0 {
            match self.try_next(ledger, store, work, failed, points, left)? {
                Visit::On => {}
                Visit::Closed(tableau) => return Ok(Visit::Closed(tableau)),
                Visit::Steps => return Ok(Visit::Steps),
            }
        }
        Ok(Visit::On)
    }
}
