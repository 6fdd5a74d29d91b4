//! Passing over choices. An extension by a literal that names show not to be connected to the goal is
//! not tried, nor, where it is known that the limit is left, one with which no closed tableau begins.

ghost use Rattle.std.specs.Prelude.{◌≡◌, ◌≤◌, ◌<◌, ◌+◌, ◌∷◌, ℕ, Bool, IfOk, List, MatchOption};
ghost use Rattle.std.specs.Prelude.{OnOk, length, true, ⊤};
ghost use Rattle.calculus.specs.Choices.{Choice};
ghost use Rattle.calculus.specs.Syntax.{Problem};
ghost use Rattle.matrix_build.specs.MatrixView.{the_place};
ghost use Rattle.search_theory.specs.Ahead.{MarksPath};
ghost use Rattle.search_theory.specs.OrderedChoices.{extension_at};
ghost use Rattle.search_theory.specs.States.{CellGoal};
ghost use Rattle.term_store.specs.ClauseView.{the_atom};
ghost use Rattle.search_tree.specs.Ahead.{IsLeftmost, IsNextLeft, IsNextPlace, IsPassed};
ghost use Rattle.search_tree.specs.Ahead.{MayPassBy};
ghost use Rattle.search_tree.specs.Points.{HasExtensions, HasUntried, IsSamePoint};
ghost use Rattle.search_tree.specs.Running.{ExtendsBy, GoalStands, IsMatrixOf};
ghost use Rattle.search_tree.specs.Trees.{IsGoalAt};
ghost use Rattle.search_tree.specs.Weights.{weight};

use crate::limit_search::LimitSearch;
use cop_base::NoMemory;
use matrix_build::{Matrix, Place, literal_at};
use search_tree::{Move, Point, Tree, has_clash, is_hopeless_place, marks_of, other};
use term_store::{CellAtom, Store};

// Whether the extension by the literal at the place is without hope by these marks, or names show that
// no copy of the literal can be connected to the atom.
fn is_passed_place(
    matrix: &Matrix,
    store: &Store,
    atom: &CellAtom,
    place: Place,
    marks: Option<u64>,
) -> bool
    requires { (P : Problem) × (base : ℕ) × (d : ℕ) × (c : List Choice) × (g : CellGoal)
        × IsMatrixOf P matrix.now
        × IsLeftmost P matrix.now base d c store.now.store (the_atom atom.now) g
        × ExtendsBy matrix.now d g (the_place place) }
    ensures { result ≡ true → (P : Problem) (base d : ℕ) (c : List Choice) (g : CellGoal)
        (left : Bool) → IsMatrixOf P matrix.now
        → IsLeftmost P matrix.now base d c store.now.store (the_atom atom.now) g
        → ExtendsBy matrix.now d g (the_place place) → MayPassBy d g left marks
        → IsPassed P matrix.now d c g left (extension_at matrix.now (the_place place)) }
{
    if let Some(marks) = marks {
        if is_hopeless_place(matrix, place, marks) {
            return true;
        }
    }
    let template = matrix.template(place.clause);
    let literal = literal_at(template.literals.items(), place.literal as usize);
    if has_clash(store, atom, literal) {
        return true;
    }
    false
}

impl LimitSearch<'_> {
    // Whether extensions of the goal may be passed over.
    fn may_pass(&self, tree: &Tree, goal: usize, left: bool) -> bool
        requires { (x : CellGoal) × IsGoalAt tree.now.steps.items tree.now.goals.items goal x }
        ensures left { result ≡ true → left ≡ true }
        ensures near { result ≡ true → (x : CellGoal)
            → IsGoalAt tree.now.steps.items tree.now.goals.items goal x
            → self.now.limit ≤ length x.path + 1 }
    {
        if !self.pruning.ahead {
            return false;
        }
        if !left {
            return false;
        }
        let room = self.room(tree, goal);
        if room > 1 {
            return false;
        }
        true
    }

    // The marks by which extensions of the goal may be passed over, where they may be.
    fn marks_to_pass(&self, tree: &Tree, goal: usize, left: bool) -> Option<u64>
        requires { (x : CellGoal) × IsGoalAt tree.now.steps.items tree.now.goals.items goal x }
        ensures { MatchOption result ⊤ (λ marks. (left ≡ true) × ((x : CellGoal)
            → IsGoalAt tree.now.steps.items tree.now.goals.items goal x
            → (self.now.limit ≤ length x.path + 1) × MarksPath marks (x.literal ∷ x.path))) }
    {
        if self.may_pass(tree, goal, left) {
            let marks = marks_of(tree, goal);
            return Some(marks);
        }
        None
    }

    // The place of the goal's next extension that is not passed over.
    fn next_place(&self, store: &Store, tree: &Tree, point: &mut Point, left: bool) -> Option<Place>
        requires { (P : Problem) × (base : ℕ) × (c : List Choice) × (g : CellGoal)
            × (xs : List Choice) × IsMatrixOf P self.now.matrix.now
            × GoalStands P self.now.matrix.now base self.now.limit c store.now tree.now
            point.old.goal g × HasExtensions self.now.matrix.now self.now.limit point.old g xs }
        ensures next { (P : Problem) (base : ℕ) (c : List Choice) (g : CellGoal)
            (xs : List Choice) → IsMatrixOf P self.now.matrix.now
            → GoalStands P self.now.matrix.now base self.now.limit c store.now tree.now
            point.old.goal g → HasExtensions self.now.matrix.now self.now.limit point.old g xs
            → IsNextPlace P self.now.matrix.now self.now.limit c point.new g xs left result }
        ensures counted { MatchOption result ⊤ (λ q. (point.old.next < point.new.next)
            × (point.new.next ≤ point.old.end)) }
        ensures same { IsSamePoint point.old point.new }
        ensures way { (point.new.above ≡ point.old.above) × (point.new.up ≡ point.old.up)
            × (point.new.end ≡ point.old.end) }
    {
        // Marks are made only where there is an extension to look at.
        if point.has_no_extension() {
            return None;
        }
        let marks = self.marks_to_pass(tree, point.goal, left);
        let atom = tree.atom(point.goal);
        let places = self.matrix.places(atom.symbol, other(atom.sign));
        while let Some(place) = point.take_place(places) {
            if !is_passed_place(self.matrix, store, atom, place, marks) {
                return Some(place);
            }
        }
        None
    }

    /// The next choice of the point, to which the search has gone back. Extensions by literals that
    /// names show not to be connected are passed over, and where it is known that the limit is
    /// left, also those with which no closed tableau begins.
    pub(crate) fn next_choice(
        &self,
        store: &Store,
        tree: &Tree,
        point: &mut Point,
        left: bool,
    ) -> Result<Option<Move>, NoMemory>
        requires { (P : Problem) × (base : ℕ) × (c : List Choice) × (g : CellGoal)
            × (untried : List Choice) × IsMatrixOf P self.now.matrix.now
            × GoalStands P self.now.matrix.now base self.now.limit c store.now tree.now
            point.old.goal g
            × HasUntried self.now.matrix.now self.now.limit tree.now.steps.items
            tree.now.goals.items point.old g untried }
        ensures next { IfOk result (λ o. (P : Problem) (base : ℕ) (c : List Choice) (g : CellGoal)
            (untried : List Choice) → IsMatrixOf P self.now.matrix.now
            → GoalStands P self.now.matrix.now base self.now.limit c store.now tree.now
            point.old.goal g
            → HasUntried self.now.matrix.now self.now.limit tree.now.steps.items
            tree.now.goals.items point.old g untried
            → IsNextLeft P self.now.matrix.now self.now.limit c tree.now.steps.items
            tree.now.goals.items point.new g untried left o) }
        ensures falls { IfOk result (λ o. MatchOption o ⊤ (λ x. weight point.new < weight point.old)) }
        ensures same { OnOk result (IsSamePoint point.old point.new) }
    {
        if let Some(step) = point.next_ancestor(tree)? {
            return Ok(Some(step));
        }
        match self.next_place(store, tree, point, left) {
            Some(place) => Ok(Some(Move::Extend(place))),
            None => Ok(None),
        }
    }
}
