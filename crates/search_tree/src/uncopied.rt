//! The other literals of an extension's clause, looked at before their cells are built: most
//! extensions that are not made end here.

ghost use Rattle.std.specs.Prelude.{◌≡◌, ◌∷◌, ℕ, IfOk, IsTrue, Option, Some, false, length, true};
ghost use Rattle.std.specs.List.{list_all};
ghost use Rattle.search_theory.specs.States.{CellGoal, atom_is_below, goal_is_below, literal_by};
ghost use Rattle.search_theory.specs.States.{values_by};
ghost use Rattle.search_theory.specs.Uncopied.{HasNoReductionOver, IsApartOver, IsRepeatedOver};
ghost use Rattle.store_theory.specs.Patterns.{HaveSortsAt, template_fits};
ghost use Rattle.store_theory.specs.Stores.{Solution, Solves, has_value_sort_at};
ghost use Rattle.store_theory.specs.Templates.{pattern_literal};
ghost use Rattle.term_store.specs.ClauseView.{the_atom, the_pattern_atom};
ghost use Rattle.term_store.specs.Fitting.{atom_fits_in};
ghost use Rattle.term_store.specs.RefView.{the_places};
ghost use Rattle.term_store.specs.TemplateView.{the_template};
ghost use Rattle.search_tree.specs.Trees.{IsGoalAt};
ghost use Rattle.search_tree.specs.Uncopied.{IsLostOver, IsSetAside};

use crate::atoms::are_same_sign;
use crate::heads::have_clash_over;
use crate::literal_marks::{has_no_hope_by, marks_of};
use crate::occurrences::Others;
use crate::tree::Tree;
use cop_base::NoMemory;
use matrix_build::{Matrix, literal_at, with_mark};
use term_store::{CellAtom, PatternAtom, Store, Template, Variables};
use term_unify::Unifier;

// ---- literals that something above them may close

// Whether some bindings may make the literal and the atom opposite.
fn may_meet(store: &Store, literal: &PatternAtom, variables: Variables, atom: &CellAtom) -> bool
    requires literal { IsTrue (atom_fits_in store.now.store (the_places variables)
        (the_pattern_atom literal.now)) }
    requires atom { IsTrue (atom_is_below (length store.now.store.cells) (the_atom atom.now)) }
    ensures { result ≡ false → IsApartOver store.now.store (the_places variables)
        (the_pattern_atom literal.now) (the_atom atom.now) }
{
    if are_same_sign(literal.sign, atom.sign) {
        return false;
    }
    if literal.symbol.0 != atom.symbol.0 {
        return false;
    }
    let terms = atom.args.items();
    if have_clash_over(store, terms, &literal.args, variables) {
        return false;
    }
    true
}

// Whether the goal or one above it may close what the literal gives.
fn may_reduce(
    store: &Store,
    tree: &Tree,
    goal: usize,
    literal: &PatternAtom,
    variables: Variables,
) -> bool
    requires goal { (x : CellGoal) × IsGoalAt tree.now.steps.items tree.now.goals.items goal x
        × IsTrue (goal_is_below (length store.now.store.cells) x) }
    requires literal { IsTrue (atom_fits_in store.now.store (the_places variables)
        (the_pattern_atom literal.now)) }
    ensures { result ≡ false → (x : CellGoal)
        → IsGoalAt tree.now.steps.items tree.now.goals.items goal x
        → HasNoReductionOver store.now.store (the_places variables)
        (the_pattern_atom literal.now) (x.literal ∷ x.path) }
{
    let at = tree.goals[goal];
    if may_meet(store, literal, variables, tree.atom(goal)) {
        return true;
    }
    let mut above = at.above;
    for _i in 0..at.depth {
        match above {
            None => return false,
            Some(ancestor) => {
                if may_meet(store, literal, variables, tree.atom(ancestor)) {
                    return true;
                }
                above = tree.goals[ancestor].above;
            }
        }
    }
    false
}

// Whether no bindings close what the literal gives below the goal within the limit, where its path
// has room for one extension at most.
fn is_lost(
    store: &Store,
    matrix: &Matrix,
    tree: &Tree,
    goal: usize,
    literal: &PatternAtom,
    variables: Variables,
    limit: usize,
) -> bool
    requires goal { (x : CellGoal) × IsGoalAt tree.now.steps.items tree.now.goals.items goal x
        × IsTrue (goal_is_below (length store.now.store.cells) x) }
    requires literal { IsTrue (atom_fits_in store.now.store (the_places variables)
        (the_pattern_atom literal.now)) }
    ensures { result ≡ true → (x : CellGoal)
        → IsGoalAt tree.now.steps.items tree.now.goals.items goal x
        → IsLostOver matrix.now limit store.now.store (the_places variables)
        (the_pattern_atom literal.now) (x.literal ∷ x.path) }
{
    let room = limit.saturating_sub(tree.goals[goal].depth as usize);
    if room > 2 {
        return false;
    }
    if may_reduce(store, tree, goal, literal, variables) {
        return false;
    }
    if room < 2 {
        return true;
    }
    let above = marks_of(tree, goal);
    let marks = with_mark(above, literal.symbol, literal.sign);
    has_no_hope_by(matrix, literal.symbol, literal.sign, marks)
}

// ---- literals that are the same as something above them

// Whether the bindings make the literal the same signed atom at one label.
fn is_same(
    unifier: &mut Unifier,
    store: &Store,
    literal: &PatternAtom,
    variables: Variables,
    atom: &CellAtom,
) -> Result<bool, NoMemory>
    requires literal { IsTrue (atom_fits_in store.now.store (the_places variables)
        (the_pattern_atom literal.now)) }
    requires values { IsTrue (list_all (has_value_sort_at store.now.store)
        (the_places variables)) }
    requires atom { IsTrue (atom_is_below (length store.now.store.cells) (the_atom atom.now)) }
    ensures { IfOk result (λ same. same ≡ true → (σ : Solution) → Solves store.now.store σ
        → pattern_literal (values_by σ (the_places variables)) (the_pattern_atom literal.now)
        ≡ literal_by σ (the_atom atom.now)) }
{
    if !are_same_sign(literal.sign, atom.sign) {
        return Ok(false);
    }
    if literal.symbol.0 != atom.symbol.0 {
        return Ok(false);
    }
    if have_clash_over(store, atom.args.items(), &literal.args, variables) {
        return Ok(false);
    }
    if !unifier.are_matched(store, atom.args.items(), &literal.args, variables)? {
        return Ok(false);
    }
    let same = unifier.are_matched(store, atom.label.items(), &literal.label, variables)?;
    Ok(same)
}

// Whether what the literal gives below the goal is the same as the goal or as one above it.
fn is_repeated(
    unifier: &mut Unifier,
    store: &Store,
    tree: &Tree,
    goal: usize,
    literal: &PatternAtom,
    variables: Variables,
) -> Result<bool, NoMemory>
    requires goal { (x : CellGoal) × IsGoalAt tree.now.steps.items tree.now.goals.items goal x
        × IsTrue (goal_is_below (length store.now.store.cells) x) }
    requires literal { IsTrue (atom_fits_in store.now.store (the_places variables)
        (the_pattern_atom literal.now)) }
    requires values { IsTrue (list_all (has_value_sort_at store.now.store)
        (the_places variables)) }
    ensures { IfOk result (λ repeated. repeated ≡ true → (x : CellGoal)
        → IsGoalAt tree.now.steps.items tree.now.goals.items goal x
        → IsRepeatedOver store.now.store (the_places variables)
        (the_pattern_atom literal.now) (x.literal ∷ x.path)) }
{
    let at = tree.goals[goal];
    if is_same(unifier, store, literal, variables, tree.atom(goal))? {
        return Ok(true);
    }
    let mut above = at.above;
    for _i in 0..at.depth {
        match above {
            None => return Ok(false),
            Some(ancestor) => {
                if is_same(unifier, store, literal, variables, tree.atom(ancestor))? {
                    return Ok(true);
                }
                above = tree.goals[ancestor].above;
            }
        }
    }
    Ok(false)
}

// ---- all other literals

// Whether one of them is the same as something above it. Those that cannot be are not looked at.
fn has_repeated(
    unifier: &mut Unifier,
    store: &Store,
    matrix: &Matrix,
    tree: &Tree,
    goal: usize,
    template: &Template,
    at: usize,
    variables: Variables,
    others: &Others<'_>,
    ahead: Option<usize>,
) -> Result<bool, NoMemory>
    requires goal { (x : CellGoal) × IsGoalAt tree.now.steps.items tree.now.goals.items goal x
        × IsTrue (goal_is_below (length store.now.store.cells) x) }
    requires literals { IsTrue (list_all (atom_fits_in store.now.store (the_places variables))
        template.now.literals) }
    requires values { IsTrue (list_all (has_value_sort_at store.now.store)
        (the_places variables)) }
    ensures { IfOk result (λ found. found ≡ true → (x : CellGoal)
        → IsGoalAt tree.now.steps.items tree.now.goals.items goal x
        → IsSetAside matrix.now store.now.store (the_template template.now) at
        (the_places variables) (x.literal ∷ x.path) ahead) }
{
    let literals = template.literals.items();
    for i in 0..literals.len() {
        if i != at && others.may_repeat(i) {
            let literal = literal_at(literals, i);
            if is_repeated(unifier, store, tree, goal, literal, variables)? {
                return Ok(true);
            }
        }
    }
    Ok(false)
}

// Whether one of them gives a goal that no bindings close within the limit.
fn has_lost(
    store: &Store,
    matrix: &Matrix,
    tree: &Tree,
    goal: usize,
    template: &Template,
    at: usize,
    variables: Variables,
    limit: usize,
) -> bool
    requires goal { (x : CellGoal) × IsGoalAt tree.now.steps.items tree.now.goals.items goal x
        × IsTrue (goal_is_below (length store.now.store.cells) x) }
    requires literals { IsTrue (list_all (atom_fits_in store.now.store (the_places variables))
        template.now.literals) }
    ensures { result ≡ true → (x : CellGoal) → (ahead : Option ℕ)
        → IsGoalAt tree.now.steps.items tree.now.goals.items goal x → ahead ≡ Some limit
        → IsSetAside matrix.now store.now.store (the_template template.now) at
        (the_places variables) (x.literal ∷ x.path) ahead }
{
    let literals = template.literals.items();
    for i in 0..literals.len() {
        if i != at {
            let literal = literal_at(literals, i);
            if is_lost(store, matrix, tree, goal, literal, variables, limit) {
                return true;
            }
        }
    }
    false
}

/// Whether another literal of the clause than the one at the place, over these variables, gives a
/// goal that is the same as one above it, or one that no bindings close within the limit that is
/// looked at, if any.
pub(crate) fn is_set_aside(
    unifier: &mut Unifier,
    store: &Store,
    matrix: &Matrix,
    tree: &Tree,
    goal: usize,
    template: &Template,
    at: usize,
    variables: Variables,
    others: &Others<'_>,
    ahead: Option<usize>,
) -> Result<bool, NoMemory>
    requires goal { (x : CellGoal) × IsGoalAt tree.now.steps.items tree.now.goals.items goal x
        × IsTrue (goal_is_below (length store.now.store.cells) x) }
    requires template { IsTrue (template_fits (the_template template.now)) }
    requires variables { HaveSortsAt store.now.store template.now.sorts (the_places variables) }
    requires values { IsTrue (list_all (has_value_sort_at store.now.store)
        (the_places variables)) }
    ensures { IfOk result (λ aside. aside ≡ true → (x : CellGoal)
        → IsGoalAt tree.now.steps.items tree.now.goals.items goal x
        → IsSetAside matrix.now store.now.store (the_template template.now) at
        (the_places variables) (x.literal ∷ x.path) ahead) }
{
    if let Some(limit) = ahead {
        if has_lost(store, matrix, tree, goal, template, at, variables, limit) {
            return Ok(true);
        }
    }
    let repeated = has_repeated(
        unifier, store, matrix, tree, goal, template, at, variables, others, ahead,
    )?;
    Ok(repeated)
}
