//! Regularity: no goal is the same as one above it.

ghost use Rattle.std.specs.Prelude.{◌≡◌, ◌≤◌, ◌<◌, ℕ, List, IfOk, IsTrue, None, Some};
ghost use Rattle.std.specs.Prelude.{drop, false, length, true};
ghost use Rattle.std.specs.List.{AllByRecursion, list_all};
ghost use Rattle.calculus.specs.Syntax.{Problem};
ghost use Rattle.search_theory.specs.CellsIn.{IsGoalIn};
ghost use Rattle.search_theory.specs.Regular.{IsNewGoal};
ghost use Rattle.search_theory.specs.States.{CellGoal, goal_is_below};
ghost use Rattle.search_tree.specs.OwnStores.{AreOwn};
ghost use Rattle.search_tree.specs.Sameness.{AnyRepeated, IsRepeated};
ghost use Rattle.search_tree.specs.Trees.{AreGoals, IsGoalAt};

use crate::atoms::are_same;
use crate::tree::Tree;
use cop_base::NoMemory;
use term_store::Store;
use term_unify::Unifier;

/// Whether the goal is the same as none above it, under the bindings.
pub(crate) fn is_new(
    unifier: &mut Unifier,
    store: &Store,
    tree: &Tree,
    goal: usize,
) -> Result<bool, NoMemory>
    requires { (x : CellGoal) × IsGoalAt tree.now.steps.items tree.now.goals.items goal x
        × IsTrue (goal_is_below (length store.now.store.cells) x) }
    ensures new { IfOk result (λ new. new ≡ true → (P : Problem) (base : ℕ) (x : CellGoal)
        → IsGoalAt tree.now.steps.items tree.now.goals.items goal x
        → AreOwn P base store.now.store → IsGoalIn (λ r. base ≤ r) store.now.store x
        → IsNewGoal store.now.store x) }
    ensures repeated { IfOk result (λ new. new ≡ false → (x : CellGoal)
        → IsGoalAt tree.now.steps.items tree.now.goals.items goal x
        → IsRepeated store.now.store x) }
{
    let at = tree.goals[goal];
    let signed = tree.atom(goal);
    let mut above = at.above;
    for _i in 0..at.depth {
        match above {
            None => return Ok(true),
            Some(ancestor) => {
                if are_same(unifier, store, signed, tree.atom(ancestor))? {
                    return Ok(false);
                }
                above = tree.goals[ancestor].above;
            }
        }
    }
    Ok(true)
}

/// The first goal from this number on that is the same as one above it, under the bindings.
pub(crate) fn first_repeated(
    unifier: &mut Unifier,
    store: &Store,
    tree: &Tree,
    first: usize,
) -> Result<Option<usize>, NoMemory>
    requires { (xs : List CellGoal)
        × AreGoals tree.now.steps.items tree.now.goals.items tree.now.goals.items xs
        × IsTrue (list_all (goal_is_below (length store.now.store.cells)) xs) }
    ensures new { IfOk result (λ found. found ≡ None → (P : Problem) (base : ℕ)
        (xs : List CellGoal)
        → AreGoals tree.now.steps.items tree.now.goals.items tree.now.goals.items xs
        → AreOwn P base store.now.store
        → AllByRecursion (IsGoalIn (λ r. base ≤ r) store.now.store) xs
        → AllByRecursion (IsNewGoal store.now.store) (drop first xs)) }
    ensures repeated { IfOk result (λ found. (goal : ℕ) → found ≡ Some goal
        → (xs : List CellGoal)
        → AreGoals tree.now.steps.items tree.now.goals.items tree.now.goals.items xs
        → AnyRepeated store.now.store first xs) }
{
    for goal in first..tree.goals.len() {
        if !is_new(unifier, store, tree, goal)? {
            return Ok(Some(goal));
        }
    }
    Ok(None)
}

/// The nearest goal above this one that is the same as one above it, under the bindings.
pub(crate) fn repeated_above(
    unifier: &mut Unifier,
    store: &Store,
    tree: &Tree,
    goal: usize,
) -> Result<Option<usize>, NoMemory>
    requires goals { (xs : List CellGoal)
        × AreGoals tree.now.steps.items tree.now.goals.items tree.now.goals.items xs
        × IsTrue (list_all (goal_is_below (length store.now.store.cells)) xs) }
    requires goal { goal < length tree.now.goals.items }
    ensures { IfOk result (λ found. (n : ℕ) → found ≡ Some n → (xs : List CellGoal)
        → AreGoals tree.now.steps.items tree.now.goals.items tree.now.goals.items xs
        → AnyRepeated store.now.store n xs) }
{
    let at = tree.goals[goal];
    let mut next = at.above;
    for _i in 0..tree.goals.len() {
        match next {
            None => return Ok(None),
            Some(ancestor) => {
                if !is_new(unifier, store, tree, ancestor)? {
                    return Ok(Some(ancestor));
                }
                let up = tree.goals[ancestor];
                next = up.above;
            }
        }
    }
    Ok(None)
}

/// Whether each goal from this number on is the same as none above it.
pub(crate) fn are_new_from(
    unifier: &mut Unifier,
    store: &Store,
    tree: &Tree,
    first: usize,
) -> Result<bool, NoMemory>
    requires { (xs : List CellGoal)
        × AreGoals tree.now.steps.items tree.now.goals.items tree.now.goals.items xs
        × IsTrue (list_all (goal_is_below (length store.now.store.cells)) xs) }
    ensures new { IfOk result (λ new. new ≡ true → (P : Problem) (base : ℕ) (xs : List CellGoal)
        → AreGoals tree.now.steps.items tree.now.goals.items tree.now.goals.items xs
        → AreOwn P base store.now.store
        → AllByRecursion (IsGoalIn (λ r. base ≤ r) store.now.store) xs
        → AllByRecursion (IsNewGoal store.now.store) (drop first xs)) }
    ensures repeated { IfOk result (λ new. new ≡ false → (xs : List CellGoal)
        → AreGoals tree.now.steps.items tree.now.goals.items tree.now.goals.items xs
        → AnyRepeated store.now.store first xs) }
{
    let repeated = first_repeated(unifier, store, tree, first)?;
    match repeated {
        None => Ok(true),
        Some(_goal) => Ok(false),
    }
}
