//! Lists of choices that are dropped before they are whole.

ghost use Rattle.std.specs.Prelude.{◌≡◌, ℕ, IfOk, IsTrue, List, MatchOption, None};
ghost use Rattle.std.specs.Prelude.{OnOk, Some, true, ⊤};
ghost use Rattle.calculus.specs.Choices.{Choice};
ghost use Rattle.connection_search.specs.Moments.{Holds, SpentAt, the_moment};
ghost use Rattle.cop_base.specs.declared.ledger.Ledger.{Ledger};
ghost use Rattle.search_theory.specs.DeadEnds.{IsDead, is_not_empty};
ghost use Rattle.search_tree.specs.Failing.{AreFailed};
ghost use Rattle.search_tree.specs.GivenUp.{HasLost};
ghost use Rattle.search_tree.specs.Pruning.{IsPruned};
ghost use Rattle.search_tree.specs.Running.{IsMatrixOf, TreeStands};
ghost use Rattle.search_tree.specs.declared.point.Point.{Point};

use crate::limit_search::LimitSearch;
use cop_base::NoMemory;
use prefix_split::is_refuted;
use search_tree::{Failed, Point, SearchState, Step, Tree};
use tableau_reading::labels_of;
use term_store::Store;

// How many choices between gaps a test of labels makes where goals were closed.
const CHOICES_BEHIND_CLOSED: u32 = 64;

// The goal of the step, if it was not a start.
fn goal_of(step: &Step) -> Option<usize> {
    match step {
        Step::Start(_) => None,
        Step::Reduce(goal, _, _) => Some(*goal),
        Step::Extend(goal, _, _, _) => Some(*goal),
    }
}

// How many goals are above the goal of this number.
fn depth_of(tree: &Tree, goal: Option<usize>) -> u32 {
    match goal {
        None => 0,
        Some(number) => match tree.goals.get(number) {
            None => 0,
            Some(at) => at.depth,
        },
    }
}

// The number of the step that went on from the highest of the goals that are closed by the last one:
// it stands as high as the leftmost open goal.
fn first_below_closed(tree: &Tree) -> usize {
    let depth = depth_of(tree, tree.open);
    let mut number = tree.steps.len();
    for _i in 0..tree.steps.len() {
        number = number.saturating_sub(1);
        if let Some(step) = tree.steps.get(number) {
            if depth_of(tree, goal_of(step)) <= depth {
                return number;
            }
        }
    }
    number
}

impl LimitSearch<'_> {
    // Whether the labels of the connections made so far, but for the first ones, cannot be equal, by
    // so many choices at most.
    fn is_refuted(
        &self,
        store: &Store,
        work: &SearchState,
        from: usize,
        choices: u32,
    ) -> Result<bool, NoMemory>
        requires { (base : ℕ) × (c : List Choice)
            × TreeStands self.now.problem.now self.now.matrix.now base self.now.limit c store.now
            work.now.tree }
        ensures { IfOk result (λ refuted. refuted ≡ true → (base : ℕ) (c : List Choice)
            → TreeStands self.now.problem.now self.now.matrix.now base self.now.limit c store.now
            work.now.tree → IsTrue (is_not_empty c)
            → IsPruned self.now.problem.now self.now.limit c) }
    {
        let logic = self.problem.setting().logic();
        if !logic.has_labels() {
            return Ok(false);
        }
        let system = labels_of(work.alloc, self.matrix, &work.tree)?;
        let refuted = is_refuted(work.alloc, store, logic, &system, from, choices)?;
        Ok(refuted)
    }

    // Whether there is a leftmost open goal that may be extended.
    fn has_room(&self, work: &SearchState) -> bool {
        match work.tree.open {
            None => false,
            Some(goal) => match work.tree.goals.get(goal) {
                None => false,
                Some(at) => at.depth < self.limit as u32,
            },
        }
    }

    /// The limit, where it is known that it is left, and goals that cannot be closed within it are
    /// looked for.
    pub(crate) fn limit_ahead(&self, left: bool) -> Option<usize>
        ensures { MatchOption result ⊤ (λ k. (k ≡ self.now.limit) × (left ≡ true)) }
    {
        if left && self.pruning.ahead {
            return Some(self.limit as usize);
        }
        None
    }

    /// A goal above the leftmost open one that is the same as one above it, where it is not known
    /// that the limit is left. Regular trees alone show that it is, and all that is dropped early
    /// waits for it. Behind that such a look costs more than it brings.
    pub(crate) fn repeated_early(
        &self,
        store: &Store,
        work: &mut SearchState,
        left: bool,
    ) -> Result<Option<usize>, NoMemory>
        requires { (base : ℕ) × (c : List Choice)
            × TreeStands self.now.problem.now self.now.matrix.now base self.now.limit c store.now
            work.old.tree }
        ensures dead { IfOk result (λ found. (n : ℕ) → found ≡ Some n → (base : ℕ)
            (c : List Choice) → TreeStands self.now.problem.now self.now.matrix.now base
            self.now.limit c store.now work.old.tree → IsDead self.now.problem.now c) }
        ensures lost { IfOk result (λ found. (n : ℕ) → found ≡ Some n → (base : ℕ)
            (c : List Choice) → TreeStands self.now.problem.now self.now.matrix.now base
            self.now.limit c store.now work.old.tree
            → HasLost self.now.problem.now self.now.limit c n None) }
        ensures tree { work.new.tree ≡ work.old.tree }
    {
        if left {
            return Ok(None);
        }
        let found = work.repeated_on_path(store)?;
        Ok(found)
    }

    /// Whether open goals show that no closed tableau begins with the list, where it is known that the
    /// limit is left. The goals of an extension were looked at before they were built.
    pub(crate) fn is_stuck_early(&self, store: &Store, work: &SearchState, left: bool) -> bool
        requires { (base : ℕ) × (c : List Choice)
            × TreeStands self.now.problem.now self.now.matrix.now base self.now.limit c store.now
            work.now.tree }
        ensures left { result ≡ true → left ≡ true }
        ensures lost { result ≡ true → (base n : ℕ) (c : List Choice)
            → IsMatrixOf self.now.problem.now self.now.matrix.now
            → TreeStands self.now.problem.now self.now.matrix.now base self.now.limit c store.now
            work.now.tree
            → HasLost self.now.problem.now self.now.limit c n work.now.tree.open }
    {
        left && self.pruning.ahead && !work.tree.is_extended() && self.is_stuck(store, &work.tree)
    }

    /// Whether labels show it. Where the last choice left goals closed, what is tried at those behind
    /// them would be in vain where the labels below them cannot be equal, so these are tested by
    /// themselves, by choices too: there are few of them. All labels of a list whose leftmost open
    /// goal can only be reduced are not tested, since a test costs more than the few lists that come
    /// next.
    pub(crate) fn is_refuted_early(
        &self,
        store: &Store,
        work: &mut SearchState,
        left: bool,
    ) -> Result<bool, NoMemory>
        requires { (base : ℕ) × (c : List Choice)
            × TreeStands self.now.problem.now self.now.matrix.now base self.now.limit c store.now
            work.old.tree }
        ensures left { IfOk result (λ refuted. refuted ≡ true → left ≡ true) }
        ensures pruned { IfOk result (λ refuted. refuted ≡ true → (base : ℕ) (c : List Choice)
            → TreeStands self.now.problem.now self.now.matrix.now base self.now.limit c store.now
            work.old.tree → IsTrue (is_not_empty c)
            → IsPruned self.now.problem.now self.now.limit c) }
        ensures tree { work.new.tree ≡ work.old.tree }
    {
        if !left || !self.pruning.labels {
            return Ok(false);
        }
        if !work.tree.is_extended() {
            let from = first_below_closed(&work.tree).saturating_sub(1);
            if self.is_refuted(store, work, from, CHOICES_BEHIND_CLOSED)? {
                return Ok(true);
            }
        }
        if !self.has_room(work) || !work.tests.is_due() {
            return Ok(false);
        }
        let refuted = self.is_refuted(store, work, 0, 0)?;
        work.tests.count(refuted);
        Ok(refuted)
    }

    // Whether goals that failed are kept and looked for. A goal whose labels the whole tableau makes
    // fail may be closed in another one, so this is for logics without labels.
    fn remembers(&self, failed: &Failed, left: bool) -> bool
        ensures { result ≡ true → left ≡ true }
    {
        left && self.pruning.jumps
            && !self.problem.setting().logic().has_labels()
            && failed.is_due()
    }

    /// Whether the leftmost open goal failed before with the goals above it, where it is known that
    /// the limit is left.
    pub(crate) fn has_failed_early(
        &self,
        store: &Store,
        work: &SearchState,
        failed: &mut Failed,
        left: bool,
    ) -> Result<bool, NoMemory>
        requires { (base : ℕ) × (c : List Choice)
            × TreeStands self.now.problem.now self.now.matrix.now base self.now.limit c store.now
            work.now.tree }
        ensures left { IfOk result (λ found. found ≡ true → left ≡ true) }
        ensures lost { IfOk result (λ found. found ≡ true → (base n : ℕ) (c : List Choice)
            → AreFailed self.now.problem.now self.now.limit failed.old
            → TreeStands self.now.problem.now self.now.matrix.now base self.now.limit c store.now
            work.now.tree
            → HasLost self.now.problem.now self.now.limit c n work.now.tree.open) }
        ensures kept { AreFailed self.now.problem.now self.now.limit failed.old
            → AreFailed self.now.problem.now self.now.limit failed.new }
    {
        if !self.remembers(failed, left) {
            return Ok(false);
        }
        match work.tree.open {
            None => Ok(false),
            Some(goal) => {
                let before = failed.has_failed(store, &work.tree, goal)?;
                Ok(before)
            }
        }
    }

    /// Keeps the goal of the point, all of whose choices were tried, where it was not solved since
    /// the point was made.
    pub(crate) fn keep_failed(
        &self,
        store: &Store,
        work: &SearchState,
        failed: &mut Failed,
        spent: Point,
        left: bool,
    ) -> Result<(), NoMemory>
        requires { (l : Ledger) × (points : List Point) × Holds self.now
            (SpentAt (the_moment store.now work.now points l left) spent) }
        ensures { OnOk result (AreFailed self.now.problem.now self.now.limit failed.old
            → AreFailed self.now.problem.now self.now.limit failed.new) }
    {
        if !self.remembers(failed, left) {
            return Ok(());
        }
        if spent.lowest < spent.goals {
            return Ok(());
        }
        failed.add(store, &work.tree, spent.goal)?;
        Ok(())
    }
}
