//! Looking ahead at the path limit. A goal with as many goals above it as the limit is closed by a
//! reduction, so no closed tableau has one that no ancestor may close, nor one with a goal less above
//! it each of whose choices gives such a goal.

ghost use Rattle.std.specs.Prelude.{◌≡◌, ◌-◌, ℕ, IsTrue, List, false};
ghost use Rattle.std.specs.Prelude.{length, true};
ghost use Rattle.calculus.specs.Choices.{Choice};
ghost use Rattle.search_theory.specs.Ahead.{HasNoReduction, IsApart};
ghost use Rattle.search_theory.specs.States.{CellGoal, atom_is_below, goal_is_below};
ghost use Rattle.term_store.specs.ClauseView.{the_atom};
ghost use Rattle.search_tree.specs.GivenUp.{HasLost};
ghost use Rattle.search_tree.specs.Ahead.{HasNoHope, IsLost};
ghost use Rattle.search_tree.specs.Running.{IsMatrixOf, TreeStands};
ghost use Rattle.search_tree.specs.Trees.{IsGoalAt};

use crate::limit_search::LimitSearch;
use search_tree::{Tree, has_no_hope_by, have_clash, marks_of, meets};
use term_store::{CellAtom, Store};

// Whether some bindings may close the goal by the ancestor.
fn may_meet(store: &Store, goal: &CellAtom, ancestor: &CellAtom) -> bool
    requires left { IsTrue (atom_is_below (length store.now.store.cells) (the_atom goal.now)) }
    requires right { IsTrue (atom_is_below (length store.now.store.cells)
        (the_atom ancestor.now)) }
    ensures { result ≡ false → IsApart store.now.store (the_atom goal.now) (the_atom ancestor.now) }
{
    if !meets(goal, ancestor) {
        return false;
    }
    let terms = goal.args.items();
    let others = ancestor.args.items();
    if have_clash(store, terms, others) {
        return false;
    }
    true
}

// Whether some goal above it may close the goal.
fn may_reduce(store: &Store, tree: &Tree, goal: usize) -> bool
    requires { (x : CellGoal) × IsGoalAt tree.now.steps.items tree.now.goals.items goal x
        × IsTrue (goal_is_below (length store.now.store.cells) x) }
    ensures { result ≡ false → (x : CellGoal)
        → IsGoalAt tree.now.steps.items tree.now.goals.items goal x
        → HasNoReduction store.now.store x }
{
    let at = tree.goals[goal];
    let signed = tree.atom(goal);
    let mut above = at.above;
    for _i in 0..at.depth {
        match above {
            None => return false,
            Some(ancestor) => {
                if may_meet(store, signed, tree.atom(ancestor)) {
                    return true;
                }
                above = tree.goals[ancestor].above;
            }
        }
    }
    false
}

impl LimitSearch<'_> {
    /// How many extensions the goal's path has room for.
    pub(crate) fn room(&self, tree: &Tree, goal: usize) -> usize
        requires { (x : CellGoal) × IsGoalAt tree.now.steps.items tree.now.goals.items goal x }
        ensures { (x : CellGoal) → IsGoalAt tree.now.steps.items tree.now.goals.items goal x
            → result ≡ self.now.limit - length x.path }
    {
        (self.limit as usize).saturating_sub(tree.goals[goal].depth as usize)
    }

    // Whether each literal of the matrix that extends the goal gives a goal without such a mark.
    fn has_no_hope(&self, tree: &Tree, goal: usize) -> bool
        requires { (x : CellGoal) × IsGoalAt tree.now.steps.items tree.now.goals.items goal x }
        ensures { result ≡ true → (x : CellGoal)
            → IsGoalAt tree.now.steps.items tree.now.goals.items goal x
            → HasNoHope self.now.matrix.now x }
    {
        let marks = marks_of(tree, goal);
        let atom = tree.atom(goal);
        has_no_hope_by(self.matrix, atom.symbol, atom.sign, marks)
    }

    // Whether no bindings close the goal within the limit, where its path has room for one extension
    // at most.
    fn is_lost(&self, store: &Store, tree: &Tree, goal: usize) -> bool
        requires { (x : CellGoal) × IsGoalAt tree.now.steps.items tree.now.goals.items goal x
            × IsTrue (goal_is_below (length store.now.store.cells) x) }
        ensures { result ≡ true → (x : CellGoal)
            → IsGoalAt tree.now.steps.items tree.now.goals.items goal x
            → IsLost self.now.matrix.now self.now.limit store.now.store x }
    {
        let room = self.room(tree, goal);
        if room > 1 {
            return false;
        }
        if may_reduce(store, tree, goal) {
            return false;
        }
        if room == 0 {
            return true;
        }
        self.has_no_hope(tree, goal)
    }

    /// Whether no bindings close the leftmost open goal within the limit, or an open one beside it.
    pub(crate) fn is_stuck(&self, store: &Store, tree: &Tree) -> bool
        requires { (base : ℕ) × (c : List Choice)
            × TreeStands self.now.problem.now self.now.matrix.now base self.now.limit c store.now
            tree.now }
        ensures { result ≡ true → (base n : ℕ) (c : List Choice)
            → IsMatrixOf self.now.problem.now self.now.matrix.now
            → TreeStands self.now.problem.now self.now.matrix.now base self.now.limit c store.now
            tree.now → HasLost self.now.problem.now self.now.limit c n tree.now.open }
    {
        let first = match tree.open {
            None => return false,
            Some(leftmost) => leftmost,
        };
        let mut next = tree.open;
        for _i in 0..tree.goals.len() {
            match next {
                None => return false,
                Some(goal) => {
                    let at = tree.goals[goal];
                    if goal < first {
                        return false;
                    }
                    if self.is_lost(store, tree, goal) {
                        return true;
                    }
                    next = at.behind;
                }
            }
        }
        false
    }
}
