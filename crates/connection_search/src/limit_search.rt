//! The space at one path limit, and whether a goal shows that the limit is left.

ghost use Rattle.std.specs.Prelude.{◌≡◌, ◌≤◌, ◌+◌, ◌++◌, ◌∷◌, [], ℕ};
ghost use Rattle.std.specs.Prelude.{IfOk, List, OnOk, Some, false, length, true};
ghost use Rattle.store_theory.specs.Bindings.{KeepsMarks};
ghost use Rattle.calculus.specs.Choices.{Choice, IsLeft, extension};
ghost use Rattle.calculus.specs.declared.sign.Side.{Side};
ghost use Rattle.calculus.specs.Syntax.{Problem};
ghost use Rattle.matrix_build.specs.MatrixView.{the_place};
ghost use Rattle.search_theory.specs.DeadEnds.{IsDead};
ghost use Rattle.search_theory.specs.Goals.{IsChoiceAt};
ghost use Rattle.search_theory.specs.OrderedChoices.{extension_at};
ghost use Rattle.search_theory.specs.States.{CellGoal};
ghost use Rattle.term_store.specs.Room.{KeepsRoom};
ghost use Rattle.search_tree.specs.Points.{IsHere};
ghost use Rattle.search_tree.specs.Running.{ExtendsBy, GoalStands, IsLeftFound, IsMatrixOf};

use crate::pruning::Pruning;
use cop_base::NoMemory;
use matrix_build::{Matrix, Place};
use search_tree::{Point, SearchState};
use tableau_core::SizedProblem;
use term_store::Store;

/// The problem with its matrix, the greatest number of goals that the path of an extension has, plus
/// one, and by what lists are dropped early.
#[derive(Clone, Copy)]
pub(crate) struct LimitSearch<'a> {
    pub problem: &'a SizedProblem<'a>,
    pub matrix: &'a Matrix,
    pub limit: u8,
    pub pruning: Pruning,
}

impl LimitSearch<'_> {
    // Whether the extension by the literal at the place gives a tree that is regular. Comes back to
    // the point.
    fn is_left_by(
        &self,
        store: &mut Store,
        work: &mut SearchState,
        here: Point,
        place: Place,
    ) -> Result<bool, NoMemory>
        requires at { (P : Problem) × (base : ℕ) × (d : ℕ) × (c : List Choice) × (g : CellGoal)
            × IsMatrixOf P self.now.matrix.now
            × GoalStands P self.now.matrix.now base (d + 1) c store.old work.old.tree here.goal g
            × ExtendsBy self.now.matrix.now (d + 1) g (the_place place) }
        requires here { IsHere here store.old.store work.old.tree.steps.items
            work.old.tree.goals.items work.old.tree.open }
        ensures left { IfOk result (λ left. left ≡ true
            → (P : Problem) (base d : ℕ) (c : List Choice) (g : CellGoal)
            → IsMatrixOf P self.now.matrix.now
            → GoalStands P self.now.matrix.now base (d + 1) c store.old work.old.tree here.goal g
            → ExtendsBy self.now.matrix.now (d + 1) g (the_place place) → length g.path ≡ d
            → IsLeft P d) }
        ensures dead { IfOk result (λ left. left ≡ false
            → (P : Problem) (base d : ℕ) (c : List Choice) (g : CellGoal)
            → IsMatrixOf P self.now.matrix.now
            → GoalStands P self.now.matrix.now base (d + 1) c store.old work.old.tree here.goal g
            → ExtendsBy self.now.matrix.now (d + 1) g (the_place place)
            → IsDead P (c ++ extension_at self.now.matrix.now (the_place place) ∷ [])) }
        ensures store { OnOk result (store.new.store ≡ store.old.store) }
        ensures tree { OnOk result ((work.new.tree.steps.items ≡ work.old.tree.steps.items)
            × (work.new.tree.goals.items ≡ work.old.tree.goals.items)
            × (work.new.tree.open ≡ work.old.tree.open)) }
        ensures marks { KeepsMarks store.old.store store.new.store }
        ensures room { KeepsRoom store.old store.new }
    {
        if !work.extend(store, self.matrix, here.goal, place, None)? {
            here.return_to(store, &mut work.tree);
            return Ok(false);
        }
        let found = work.is_regular(store)?;
        here.return_to(store, &mut work.tree);
        Ok(found)
    }

    // Whether an extension of the goal, which has as many goals above it as the limit, gives a tree
    // that is regular.
    fn is_left_at(
        &self,
        store: &mut Store,
        work: &mut SearchState,
        goal: usize,
    ) -> Result<bool, NoMemory>
        requires { (P : Problem) × (base : ℕ) × (d : ℕ) × (c : List Choice) × (g : CellGoal)
            × IsMatrixOf P self.now.matrix.now
            × GoalStands P self.now.matrix.now base d c store.old work.old.tree goal g
            × (self.now.limit ≡ d) × (d ≤ 200) × (work.old.tree.open ≡ Some goal) }
        ensures left { IfOk result (λ left. left ≡ true
            → (P : Problem) (base d : ℕ) (c : List Choice) (g : CellGoal)
            → IsMatrixOf P self.now.matrix.now
            → GoalStands P self.now.matrix.now base d c store.old work.old.tree goal g
            → self.now.limit ≡ d → d ≤ 200 → length g.path ≡ d → IsLeft P d) }
        ensures dead { IfOk result (λ left. left ≡ false
            → (P : Problem) (base d : ℕ) (c : List Choice) (g : CellGoal)
            → IsMatrixOf P self.now.matrix.now
            → GoalStands P self.now.matrix.now base d c store.old work.old.tree goal g
            → self.now.limit ≡ d → d ≤ 200 → (sides : List Side) (place : ℕ)
            → IsChoiceAt P (d + 1) g (extension sides place)
            → IsDead P (c ++ extension sides place ∷ [])) }
        ensures store { OnOk result (store.new.store ≡ store.old.store) }
        ensures tree { OnOk result ((work.new.tree.steps.items ≡ work.old.tree.steps.items)
            × (work.new.tree.goals.items ≡ work.old.tree.goals.items)
            × (work.new.tree.open ≡ work.old.tree.open)) }
        ensures marks { KeepsMarks store.old.store store.new.store }
        ensures room { KeepsRoom store.old store.new }
    {
        let here = Point::new(
            store,
            self.matrix,
            &work.tree,
            goal,
            self.limit as usize + 1,
        );
        let mut point = here;
        while let Some(place) = point.next_extension(self.matrix, &work.tree) {
            if self.is_left_by(store, work, here, place)? {
                return Ok(true);
            }
        }
        Ok(false)
    }

    // Whether the limit is known to be left, or the goal shows it, where it has as many goals above
    // it as the limit.
    pub(crate) fn is_left(
        &self,
        store: &mut Store,
        work: &mut SearchState,
        goal: usize,
        known: bool,
    ) -> Result<bool, NoMemory>
        requires { (P : Problem) × (base : ℕ) × (d : ℕ) × (c : List Choice) × (g : CellGoal)
            × IsMatrixOf P self.now.matrix.now
            × GoalStands P self.now.matrix.now base d c store.old work.old.tree goal g
            × (self.now.limit ≡ d) × (d ≤ 200) × (work.old.tree.open ≡ Some goal) }
        ensures found { IfOk result (λ left. (P : Problem) (base d : ℕ) (c : List Choice)
            (g : CellGoal) → IsMatrixOf P self.now.matrix.now
            → GoalStands P self.now.matrix.now base d c store.old work.old.tree goal g
            → self.now.limit ≡ d → d ≤ 200 → IsLeftFound P d c g known left) }
        ensures store { OnOk result (store.new.store ≡ store.old.store) }
        ensures tree { OnOk result ((work.new.tree.steps.items ≡ work.old.tree.steps.items)
            × (work.new.tree.goals.items ≡ work.old.tree.goals.items)
            × (work.new.tree.open ≡ work.old.tree.open)) }
        ensures marks { KeepsMarks store.old.store store.new.store }
        ensures room { KeepsRoom store.old store.new }
    {
        if known {
            return Ok(true);
        }
        if work.tree.goals[goal].depth != self.limit as u32 {
            return Ok(false);
        }
        let left = self.is_left_at(store, work, goal)?;
        Ok(left)
    }
}
