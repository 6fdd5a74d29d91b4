//! Choice points.

ghost use Rattle.std.specs.Prelude.{◌≡◌, ◌==◌, ◌≤◌, ◌<◌, ◌+◌, ◌∷◌, [], ℕ, IfOk, List};
ghost use Rattle.std.specs.Prelude.{MatchOption, OnOk, Some, drop, if◌then◌else◌, length, map};
ghost use Rattle.std.specs.Prelude.{nat_lt, take, ⊤};
ghost use Rattle.store_theory.specs.Bindings.{KeepsEarlier};
ghost use Rattle.calculus.specs.Choices.{Choice};
ghost use Rattle.calculus.specs.Kinds as kinds;
ghost use Rattle.store_theory.specs.Stores.{IsGood, cut_at};
ghost use Rattle.calculus.specs.Syntax.{Problem};
ghost use Rattle.matrix_build.specs.MatrixView.{the_place};
ghost use Rattle.search_theory.specs.Matrix.{MatrixClause};
ghost use Rattle.search_theory.specs.OrderedChoices.{choices_at, extension_at, extensions};
ghost use Rattle.search_theory.specs.States.{CellGoal};
ghost use Rattle.term_store.specs.StoreView.{the_mark};
ghost use Rattle.term_store.specs.Room.{KeepsRoom};
ghost use Rattle.search_tree.specs.Weights.{greatest_weight, weight};
ghost use Rattle.search_tree.specs.Points.{HasExtensions, HasUntried, IsHere, IsMoveAt};
ghost use Rattle.search_tree.specs.Points.{IsNextAncestor, IsPoint, IsSamePoint, row_of};
ghost use Rattle.search_tree.specs.Points.{the_move};
ghost use Rattle.search_tree.specs.Running.{ExtendsBy, GoalStands};
ghost use Rattle.search_tree.specs.Seeing.{no_goal, seeing};
ghost use Rattle.search_tree.specs.Trees.{IsGoalAt, IsPath};

use crate::atoms::{meets, other};
use crate::tree::Tree;
use cop_base::NoMemory;
use matrix_build::{Matrix, Place};
use term_store::{Store, TrailMark};

/// A choice that is to be tried at a goal.
#[derive(Clone, Copy)]
pub enum Move {
    /// By the ancestor of this number, which is this goal.
    Reduce(u32, usize),
    Extend(Place),
}

/// A moment at which a goal was open, and which of the goal's choices are still to be tried:
/// reductions by the ancestors from `above` on, then extensions from the place on.
#[derive(Clone, Copy)]
pub struct Point {
    pub mark: TrailMark,
    /// How many choices were made, and how many goals there were.
    pub steps: usize,
    pub goals: usize,
    pub goal: usize,
    /// The next ancestor, if one is left, and how far it stands above the goal, less one.
    pub above: Option<usize>,
    pub up: u32,
    /// How many goals are above it.
    pub depth: u32,
    /// The next extension, by its number, and how many there are.
    pub next: usize,
    pub end: usize,
    /// The lowest number of a goal that was the leftmost open one since then, or 0 where that does
    /// not matter any more. The goal was not solved since then where `goals` is not above it.
    pub lowest: usize,
}

// As many places as there are, where the path may grow.
fn room(depth: u32, limit: usize, places: usize) -> usize
    ensures end { result ≡ (if nat_lt depth limit then places else 0) }
    ensures light { depth + result + 1 ≤ greatest_weight }
{
    if (depth as usize) < limit {
        return places;
    }
    0
}

impl Point {
    /// Back to this moment.
    pub fn return_to(&self, store: &mut Store, tree: &mut Tree)
        requires { IsGood (the_mark self.now.mark) store.old.store }
        ensures store { store.new.store ≡ cut_at (the_mark self.now.mark) store.old.store }
        ensures steps { tree.new.steps.items ≡ take self.now.steps tree.old.steps.items }
        ensures goals { tree.new.goals.items ≡ take self.now.goals tree.old.goals.items }
        ensures first { tree.new.open ≡ Some self.now.goal }
        ensures marks { KeepsEarlier (the_mark self.now.mark) store.old.store store.new.store }
        ensures room { KeepsRoom store.old store.new }
    {
        store.undo(self.mark);
        tree.cut(store, self.steps, self.goals, Some(self.goal));
    }

    /// All choices of the goal, whose path may have fewer goals than the limit for an extension.
    pub fn new(store: &Store, matrix: &Matrix, tree: &Tree, goal: usize, limit: usize) -> Point
        requires { (x : CellGoal) × IsGoalAt tree.now.steps.items tree.now.goals.items goal x }
        ensures extensions { (d : ℕ) (g : CellGoal)
            → IsGoalAt tree.now.steps.items tree.now.goals.items goal g
            → limit ≡ d → d ≤ 201 → HasExtensions matrix.now d result g
            (if nat_lt (length g.path) d
            then extensions g.literal.symbol (kinds.other g.literal.sign) matrix.now else []) }
        ensures point { (P : Problem) (base d : ℕ) (c : List Choice) (g : CellGoal)
            → GoalStands P matrix.now base d c store.now tree.now goal g → limit ≡ d → d ≤ 201
            → IsPoint P matrix.now base d store.now.store tree.now.steps.items tree.now.goals.items
            result c (choices_at matrix.now d g) g }
        ensures here { IsHere result store.now.store tree.now.steps.items tree.now.goals.items (Some goal) }
        ensures goal { result.goal ≡ goal }
        ensures light { weight result ≤ greatest_weight }
        ensures lowest { result.lowest ≡ no_goal }
    {
        let at = tree.goals[goal];
        let atom = tree.atom(goal);
        let places = matrix.places(atom.symbol, other(atom.sign)).len();
        let end = room(at.depth, limit, places);
        let mark = store.mark();
        let steps = tree.steps.len();
        let goals = tree.goals.len();
        Point {
            mark,
            steps,
            goals,
            goal,
            above: at.above,
            up: 0,
            depth: at.depth,
            next: 0,
            end,
            lowest: usize::MAX,
        }
    }

    /// Keeps in mind that a goal of this number was the leftmost open one.
    pub fn see(&mut self, goal: usize)
        ensures { self.new ≡ seeing goal self.old }
    {
        if goal < self.lowest {
            self.lowest = goal;
        }
    }

    /// The next ancestor with the goal's symbol and the other sign.
    pub fn next_ancestor(&mut self, tree: &Tree) -> Result<Option<Move>, NoMemory>
        requires { (g : CellGoal)
            × IsGoalAt tree.now.steps.items tree.now.goals.items self.old.goal g
            × IsPath tree.now.steps.items tree.now.goals.items self.old.above
            (drop self.old.up g.path) }
        ensures next { IfOk result (λ o. (g : CellGoal)
            → IsGoalAt tree.now.steps.items tree.now.goals.items self.old.goal g
            → IsPath tree.now.steps.items tree.now.goals.items self.old.above
            (drop self.old.up g.path)
            → IsNextAncestor tree.now.steps.items tree.now.goals.items g self.old self.new o) }
        ensures same { IsSamePoint self.old self.new }
        ensures places { (self.new.next ≡ self.old.next) × (self.new.end ≡ self.old.end) }
    {
        let depth = tree.goals[self.goal].depth;
        for _i in 0..depth {
            match self.above {
                None => return Ok(None),
                Some(ancestor) => {
                    self.up += 1;
                    self.above = tree.goals[ancestor].above;
                    if meets(tree.atom(self.goal), tree.atom(ancestor)) {
                        return Ok(Some(Move::Reduce(self.up, ancestor)));
                    }
                }
            }
        }
        Ok(None)
    }

    /// The next choice of the goal.
    pub fn next(&mut self, matrix: &Matrix, tree: &Tree) -> Result<Option<Move>, NoMemory>
        requires { (d : ℕ) × (g : CellGoal) × (untried : List Choice)
            × IsGoalAt tree.now.steps.items tree.now.goals.items self.old.goal g
            × HasUntried matrix.now d tree.now.steps.items tree.now.goals.items self.old g untried }
        ensures next { IfOk result (λ o. (d : ℕ) (g : CellGoal) (untried : List Choice)
            → IsGoalAt tree.now.steps.items tree.now.goals.items self.old.goal g
            → HasUntried matrix.now d tree.now.steps.items tree.now.goals.items self.old g untried
            → MatchOption o (untried ≡ []) (λ x.
            IsMoveAt matrix.now d tree.now.steps.items tree.now.goals.items g x
            × ((rest : List Choice) × (untried ≡ the_move matrix.now x ∷ rest)
            × HasUntried matrix.now d tree.now.steps.items tree.now.goals.items self.new g rest))) }
        ensures falls { IfOk result (λ o. MatchOption o ⊤ (λ x. weight self.new < weight self.old)) }
        ensures same { OnOk result (IsSamePoint self.old self.new) }
    {
        if let Some(step) = self.next_ancestor(tree)? {
            return Ok(Some(step));
        }
        match self.next_extension(matrix, tree) {
            Some(place) => Ok(Some(Move::Extend(place))),
            None => Ok(None),
        }
    }

    /// The next place of the goal's symbol and the other sign.
    pub fn next_extension(&mut self, matrix: &Matrix, tree: &Tree) -> Option<Place>
        requires { (d : ℕ) × (g : CellGoal) × (xs : List Choice)
            × IsGoalAt tree.now.steps.items tree.now.goals.items self.old.goal g
            × HasExtensions matrix.now d self.old g xs }
        ensures next { (d : ℕ) (g : CellGoal) (xs : List Choice)
            → IsGoalAt tree.now.steps.items tree.now.goals.items self.old.goal g
            → HasExtensions matrix.now d self.old g xs
            → MatchOption result (xs ≡ []) (λ q. ExtendsBy matrix.now d g (the_place q)
            × ((rest : List Choice) × (xs ≡ extension_at matrix.now (the_place q) ∷ rest)
            × HasExtensions matrix.now d self.new g rest)) }
        ensures counted { MatchOption result ⊤ (λ q. (self.new.next ≡ self.old.next + 1)
            × (self.old.next < self.old.end) × (self.new.end ≡ self.old.end)) }
        ensures same { IsSamePoint self.old self.new }
        ensures way { (self.new.above ≡ self.old.above) × (self.new.up ≡ self.old.up) }
        ensures unchanged { MatchOption result (self.new ≡ self.old) (λ q. ⊤) }
    {
        if self.has_no_extension() {
            return None;
        }
        let atom = tree.atom(self.goal);
        self.take_place(matrix.places(atom.symbol, other(atom.sign)))
    }

    /// Whether no extension is left to try.
    pub fn has_no_extension(&self) -> bool
        ensures { result ≡ (self.now.next == self.now.end) }
    {
        self.next == self.end
    }

    /// The next of these places, which are those of the goal's symbol and the other sign.
    pub fn take_place(&mut self, places: &[Place]) -> Option<Place>
        requires { (m : List MatrixClause) × (d : ℕ) × (g : CellGoal) × (xs : List Choice)
            × (map the_place places.now ≡ row_of m g) × HasExtensions m d self.old g xs }
        ensures next { (m : List MatrixClause) (d : ℕ) (g : CellGoal) (xs : List Choice)
            → map the_place places.now ≡ row_of m g → HasExtensions m d self.old g xs
            → MatchOption result (xs ≡ []) (λ q. ExtendsBy m d g (the_place q)
            × ((rest : List Choice) × (xs ≡ extension_at m (the_place q) ∷ rest)
            × HasExtensions m d self.new g rest)) }
        ensures counted { MatchOption result ⊤ (λ q. (self.new.next ≡ self.old.next + 1)
            × (self.old.next < self.old.end) × (self.new.end ≡ self.old.end)) }
        ensures same { IsSamePoint self.old self.new }
        ensures way { (self.new.above ≡ self.old.above) × (self.new.up ≡ self.old.up) }
        ensures unchanged { MatchOption result (self.new ≡ self.old) (λ q. ⊤) }
    {
        if self.has_no_extension() {
            return None;
        }
        let place = places[self.next];
        self.next += 1;
        Some(place)
    }
}
