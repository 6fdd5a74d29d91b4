//! Jumping back over choices that have nothing to do with a goal that cannot be closed.

ghost use Rattle.std.specs.Prelude.{◌≡◌, ◌≤◌, ◌++◌, ◌∷◌, [], IfOk, OnOk};
ghost use Rattle.std.specs.Prelude.{MatchOption, true};
ghost use Rattle.std.specs.Option.{unwrap_or};
ghost use Rattle.cop_base.specs.declared.ledger.Ledger.{Ledger};
ghost use Rattle.store_theory.specs.Stores.{IsGood, TrailMark};
ghost use Rattle.term_store.specs.Room.{KeepsRoom};
ghost use Rattle.connection_search.specs.Exploring.{AreAbove, KeepsMoment};
ghost use Rattle.connection_search.specs.GoingBack.{GoesBack, HandedAt, Origin};
ghost use Rattle.search_tree.specs.Looking.{bound_in};
ghost use Rattle.connection_search.specs.Moments.{ExploringAt, Holds, Leads, SpentAt, the_moment};
ghost use Rattle.search_tree.specs.Weights.{weight_of_all};

use crate::limit_search::LimitSearch;
use crate::seeing::lower;
use cop_base::NoMemory;
use search_tree::{Look, Point, SearchState, Tree};
use term_store::Store;

// Goes back to the last point and over it, where the goal of this number stood at it already and was as
// it is now: the lowest number of a goal that was seen since then.
fn go_over(
    store: &mut Store,
    tree: &mut Tree,
    look: &Look,
    points: &mut Vec<Point>,
    goal: usize,
    lowest: usize,
) -> Option<usize>
    requires { (o : Origin) × GoesBack o goal (bound_in look.now) lowest store.old.store
        tree.old.steps.items tree.old.goals.items points.old.items }
    ensures back { (o : Origin) → GoesBack o goal (bound_in look.now) lowest store.old.store
        tree.old.steps.items tree.old.goals.items points.old.items
        → GoesBack o goal (bound_in look.now) (unwrap_or result lowest) store.new.store
        tree.new.steps.items tree.new.goals.items points.new.items }
    ensures points { MatchOption result (points.new.items ≡ points.old.items)
        (λ low. (q : Point) × (points.old.items ≡ points.new.items ++ q ∷ [])) }
    ensures moment { (k : TrailMark) → IsGood k store.old.store → AreAbove k points.old.items
        → KeepsMoment k store.old.store store.new.store }
    ensures room { KeepsRoom store.old store.new }
{
    let count = points.len();
    if count == 0 {
        return None;
    }
    let last = points[count - 1];
    let low = lowest.min(last.lowest);
    if last.goals <= goal {
        return None;
    }
    if low > goal {
        return None;
    }
    last.return_to(store, tree);
    if !look.are_bound(store) {
        return None;
    }
    points.truncate(count - 1);
    Some(low)
}

// Goes back over all such points, the last one first.
fn go_back(
    store: &mut Store,
    tree: &mut Tree,
    look: &Look,
    points: &mut Vec<Point>,
    goal: usize,
    first: usize,
) -> usize
    requires { (o : Origin) × GoesBack o goal (bound_in look.now) first store.old.store
        tree.old.steps.items tree.old.goals.items points.old.items }
    ensures back { (o : Origin) → GoesBack o goal (bound_in look.now) first store.old.store
        tree.old.steps.items tree.old.goals.items points.old.items
        → GoesBack o goal (bound_in look.now) result store.new.store
        tree.new.steps.items tree.new.goals.items points.new.items }
    ensures falls { weight_of_all points.new.items ≤ weight_of_all points.old.items }
    ensures above { (k : TrailMark) → AreAbove k points.old.items → AreAbove k points.new.items }
    ensures moment { (k : TrailMark) → IsGood k store.old.store → AreAbove k points.old.items
        → KeepsMoment k store.old.store store.new.store }
    ensures room { KeepsRoom store.old store.new }
{
    let mut lowest = first;
    while let Some(low) = go_over(store, tree, look, points, goal, lowest) {
        lowest = low;
    }
    lowest
}

impl LimitSearch<'_> {
    // Whether the goal of the point was not solved since it was made, so that lists that leave it as
    // it is may be dropped.
    fn may_jump(&self, look: &Look, points: &Vec<Point>, last: Point, left: bool) -> bool
        ensures left { result ≡ true → left ≡ true }
        ensures unsolved { result ≡ true → last.goals ≤ last.lowest }
    {
        if !left {
            return false;
        }
        if last.lowest < last.goals {
            return false;
        }
        if !self.pruning.jumps || !look.is_due() {
            return false;
        }
        match points.last() {
            None => false,
            Some(below) => last.goal < below.goals && below.lowest <= last.goal,
        }
    }

    // Goes back over the points at which the goal stood already and was as it is now: the lowest
    // number of a goal that was seen behind those that are left.
    fn drop_points(
        &self,
        store: &mut Store,
        work: &mut SearchState,
        points: &mut Vec<Point>,
        last: Point,
        left: bool,
    ) -> Result<usize, NoMemory>
        requires { (l : Ledger) × Holds self.now
            (SpentAt (the_moment store.old work.old points.old.items l left) last) }
        ensures down { IfOk result (λ low. (l : Ledger) → Leads self.now
            (SpentAt (the_moment store.old work.old points.old.items l left) last)
            (HandedAt low (the_moment store.new work.new points.new.items l left))) }
        ensures falls { weight_of_all points.new.items ≤ weight_of_all points.old.items }
        ensures above { (k : TrailMark) → AreAbove k points.old.items → AreAbove k points.new.items }
        ensures moment { (k : TrailMark) → IsGood k store.old.store → AreAbove k points.old.items
            → KeepsMoment k store.old.store store.new.store }
        ensures room { KeepsRoom store.old store.new }
    {
        if !self.may_jump(&work.look, points, last, left) {
            return Ok(last.lowest);
        }
        if !work.look.find(store, &work.tree, last.goal)? {
            return Ok(last.lowest);
        }
        let lowest = go_back(
            store,
            &mut work.tree,
            &work.look,
            points,
            last.goal,
            last.lowest,
        );
        Ok(lowest)
    }

    /// Goes back over the points at which the goal stood already and was as it is now. All choices
    /// of its point were tried.
    pub(crate) fn jump(
        &self,
        store: &mut Store,
        work: &mut SearchState,
        points: &mut Vec<Point>,
        last: Point,
        left: bool,
    ) -> Result<(), NoMemory>
        requires { (l : Ledger) × Holds self.now
            (SpentAt (the_moment store.old work.old points.old.items l left) last) }
        ensures on { OnOk result ((l : Ledger) → Leads self.now
            (SpentAt (the_moment store.old work.old points.old.items l left) last)
            (ExploringAt (the_moment store.new work.new points.new.items l left))) }
        ensures falls { OnOk result
            (weight_of_all points.new.items ≤ weight_of_all points.old.items) }
        ensures above { OnOk result ((k : TrailMark) → AreAbove k points.old.items
            → AreAbove k points.new.items) }
        ensures moment { (k : TrailMark) → IsGood k store.old.store → AreAbove k points.old.items
            → KeepsMoment k store.old.store store.new.store }
        ensures room { KeepsRoom store.old store.new }
    {
        let lowest = self.drop_points(store, work, points, last, left)?;
        lower(points, lowest);
        Ok(())
    }
}
