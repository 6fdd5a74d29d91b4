//! Marks of the symbols and signs of a goal and of those above it, by which literals are found that
//! none of these may close.

ghost use Rattle.std.specs.Prelude.{◌≡◌, ◌<◌, ◌∷◌, Some, length, map, slice_get, true};
ghost use Rattle.matrix_build.specs.MatrixView.{the_place};
ghost use Rattle.search_theory.specs.Ahead.{IsHopelessAt, MarksPath};
ghost use Rattle.search_theory.specs.States.{CellGoal};
ghost use Rattle.search_tree.specs.Ahead.{HasNoHope, MeetsPlace};
ghost use Rattle.search_tree.specs.Trees.{IsGoalAt};

use crate::atoms::other;
use crate::tree::Tree;
use calculus::sign::Sign;
use cop_base::SymbolId;
use matrix_build::{Matrix, Place, with_mark};

/// The marks of the goal and of those above it.
pub fn marks_of(tree: &Tree, goal: usize) -> u64
    requires { (x : CellGoal) × IsGoalAt tree.now.steps.items tree.now.goals.items goal x }
    ensures { (x : CellGoal) → IsGoalAt tree.now.steps.items tree.now.goals.items goal x
        → MarksPath result (x.literal ∷ x.path) }
{
    let at = tree.goals[goal];
    let own = tree.atom(goal);
    let mut marks = with_mark(0, own.symbol, own.sign);
    let mut above = at.above;
    for _i in 0..at.depth {
        match above {
            None => return marks,
            Some(ancestor) => {
                let signed = tree.atom(ancestor);
                let more = with_mark(marks, signed.symbol, signed.sign);
                marks = more;
                above = tree.goals[ancestor].above;
            }
        }
    }
    marks
}

/// Whether another literal of the clause than the one at the place, which has the goal's symbol and the
/// other sign, lacks such a mark.
pub fn is_hopeless_place(matrix: &Matrix, place: Place, marks: u64) -> bool
    requires { place.clause.0 < length matrix.now }
    ensures { result ≡ true → (g : CellGoal) → MeetsPlace matrix.now (the_place place) g
        → MarksPath marks (g.literal ∷ g.path) → IsHopelessAt matrix.now (the_place place) g }
{
    let needs = matrix.needs(place.clause);
    needs | marks != marks
}

// The place of this number.
fn place_at(places: &[Place], i: usize) -> Place
    requires { i < length places.now }
    ensures { slice_get (map the_place places.now) i ≡ Some (the_place result) }
{
    places[i]
}

/// Whether each literal of the matrix that extends a goal of this symbol and sign, which has these
/// marks with those above it, gives a goal without such a mark.
pub fn has_no_hope_by(matrix: &Matrix, symbol: SymbolId, sign: Sign, marks: u64) -> bool
    ensures { result ≡ true → (x : CellGoal) → x.literal.symbol ≡ symbol.0 → x.literal.sign ≡ sign
        → MarksPath marks (x.literal ∷ x.path) → HasNoHope matrix.now x }
{
    let places = matrix.places(symbol, other(sign));
    for i in 0..places.len() {
        let place = place_at(places, i);
        if !is_hopeless_place(matrix, place, marks) {
            return false;
        }
    }
    true
}
