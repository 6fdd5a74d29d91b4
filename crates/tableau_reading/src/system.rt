//! The system of the tree: what its choices ask of labels, strings and gamma terms.

ghost use Rattle.std.specs.Prelude.{◌≡◌, ◌<◌, ◌+◌, ◌++◌, ◌∷◌, [], List, IfOk, OnOk, Some};
ghost use Rattle.std.specs.Prelude.{length, map, slice_get, sum_by};
ghost use Rattle.std.specs.List.{AllByRecursion, flat_map};
ghost use Rattle.search_theory.specs.StateSystems.{pairs_of, pairs_with, string_cells};
ghost use Rattle.search_theory.specs.States.{CellGoal};
ghost use Rattle.store_theory.specs.Systems as cells;
ghost use Rattle.term_store.specs.ClauseView.{the_atom, the_gamma};
ghost use Rattle.term_store.specs.RefView.{the_place, the_places};
ghost use Rattle.term_store.specs.SystemView.{the_system};
ghost use Rattle.search_tree.specs.Pruning.{labels_alone};
ghost use Rattle.search_tree.specs.Trees.{AreGoals, HasAtom, IsBuiltStep, IsGoalAt};
ghost use Rattle.search_tree.specs.Trees.{IsLinkedStep, atom_at, equations_of, gammas_of};
ghost use Rattle.search_tree.specs.Trees.{goal_label, pis_of, strings_in, strings_of};
ghost use Rattle.search_tree.specs.Trees.{tree_system};
ghost use Rattle.search_tree.specs.declared.tree.Goal.{Goal};

use calculus::sort::Sort;
use cop_base::NoMemory;
use matrix_build::Matrix;
use search_tree::{Copied, Step, Tree};
use std::alloc::Global;
use term_store::{
    CellAtom, Equation, EquationList, GammaList, GammaUse, PairList, Prefix, Ref, RefList, System,
    Variables,
};

// ---- copies

// The references, as a list of their own.
pub(crate) fn copy_refs(alloc: Global, refs: &[Ref]) -> Result<RefList, NoMemory>
    ensures { IfOk result (λ copied. copied ≡ map the_place refs.now) }
{
    let mut copied = RefList::with_capacity(alloc, refs.len())?;
    for item in refs {
        let reference = *item;
        copied.push(reference)?;
    }
    Ok(copied)
}

fn copy_atom(alloc: Global, atom: &CellAtom) -> Result<CellAtom, NoMemory>
    ensures { IfOk result (λ copied. copied ≡ atom.now) }
{
    let args = copy_refs(alloc, atom.args.items())?;
    let label = copy_refs(alloc, atom.label.items())?;
    Ok(CellAtom {
        sign: atom.sign,
        symbol: atom.symbol,
        args,
        label,
    })
}

fn copy_gamma(alloc: Global, gamma: &GammaUse) -> Result<GammaUse, NoMemory>
    ensures { IfOk result (λ copied. copied ≡ gamma.now) }
{
    let label = copy_refs(alloc, gamma.label.items())?;
    Ok(GammaUse {
        term: gamma.term,
        label,
    })
}

// ---- equations

// The label of the goal of this number.
fn copy_label(alloc: Global, tree: &Tree, goal: usize) -> Result<Prefix, NoMemory>
    requires { HasAtom tree.now.steps.items tree.now.goals.items goal }
    ensures { IfOk result (λ label. label
        ≡ goal_label tree.now.steps.items (slice_get tree.now.goals.items goal)) }
{
    let label = copy_refs(alloc, tree.atom(goal).label.items())?;
    Ok(label)
}

// Adds what the step makes equal.
fn add_equation(
    alloc: Global,
    tree: &Tree,
    step: &Step,
    equations: &mut EquationList,
) -> Result<(), NoMemory>
    requires { IsLinkedStep tree.now.steps.items tree.now.goals.items step.now }
    ensures { OnOk result (equations.new ≡ equations.old
        ++ equations_of tree.now.steps.items tree.now.goals.items step.now) }
{
    match step {
        Step::Start(_) => {}
        Step::Reduce(goal, _, ancestor) => {
            let left = copy_label(alloc, tree, *goal)?;
            let right = copy_label(alloc, tree, *ancestor)?;
            equations.push(Equation { left, right })?;
        }
        Step::Extend(goal, _, _, atom) => {
            let left = copy_label(alloc, tree, *goal)?;
            let right = copy_refs(alloc, atom.label.items())?;
            equations.push(Equation { left, right })?;
        }
    }
    Ok(())
}

fn all_equations(alloc: Global, tree: &Tree) -> Result<EquationList, NoMemory>
    requires { AllByRecursion (IsLinkedStep tree.now.steps.items tree.now.goals.items)
        tree.now.steps.items }
    ensures { IfOk result (λ equations. equations
        ≡ flat_map (equations_of tree.now.steps.items tree.now.goals.items)
        tree.now.steps.items) }
{
    let mut equations = EquationList::new(alloc);
    for k in 0..tree.steps.len() {
        let step = &tree.steps[k];
        add_equation(alloc, tree, step, &mut equations)?;
    }
    Ok(equations)
}

// ---- strings

// Adds the variable where it stands for a string.
fn add_variable(strings: &mut RefList, sort: Sort, variable: Ref) -> Result<(), NoMemory>
    ensures { OnOk result (strings.new ≡ strings.old
        ++ string_cells (sort ∷ []) (variable.0 ∷ [])) }
{
    match sort {
        Sort::TermSort => {}
        Sort::MarkSort => {}
        Sort::StringSort => strings.push(variable)?,
    }
    Ok(())
}

// Adds the variables that stand for strings, in order.
fn add_variables(
    strings: &mut RefList,
    sorts: &[Sort],
    variables: Variables,
) -> Result<(), NoMemory>
    ensures { OnOk result (strings.new ≡ strings.old
        ++ string_cells sorts.now (the_places variables)) }
{
    for k in 0..variables.count() {
        let place = k as usize;
        if place >= sorts.len() {
            return Ok(());
        }
        add_variable(strings, sorts[place], variables.at(k))?;
    }
    Ok(())
}

// Adds the strings that the copied clause brings.
fn add_strings_in(matrix: &Matrix, copied: &Copied, strings: &mut RefList) -> Result<(), NoMemory>
    requires { copied.now.clause.0 < length matrix.now }
    ensures { OnOk result (strings.new ≡ strings.old ++ strings_in matrix.now copied.now) }
{
    let template = matrix.template(copied.clause);
    add_variables(strings, template.sorts.items(), copied.copy.variables)?;
    Ok(())
}

// Adds the strings that the step brings.
fn add_strings(matrix: &Matrix, step: &Step, strings: &mut RefList) -> Result<(), NoMemory>
    requires { IsBuiltStep matrix.now step.now }
    ensures { OnOk result (strings.new ≡ strings.old ++ strings_of matrix.now step.now) }
{
    match step {
        Step::Start(copied) => add_strings_in(matrix, copied, strings)?,
        Step::Reduce(_, _, _) => {}
        Step::Extend(_, copied, _, _) => add_strings_in(matrix, copied, strings)?,
    }
    Ok(())
}

fn all_strings(alloc: Global, matrix: &Matrix, tree: &Tree) -> Result<RefList, NoMemory>
    requires { AllByRecursion (IsBuiltStep matrix.now) tree.now.steps.items }
    ensures { IfOk result (λ strings. strings
        ≡ flat_map (strings_of matrix.now) tree.now.steps.items) }
{
    let mut strings = RefList::new(alloc);
    for k in 0..tree.steps.len() {
        let step = &tree.steps[k];
        add_strings(matrix, step, &mut strings)?;
    }
    Ok(strings)
}

// ---- pi steps

// The number of pi steps of the step's clause.
fn pis_of(step: &Step) -> u32
    ensures { result ≡ pis_of step.now }
{
    match step {
        Step::Start(copied) => copied.copy.pis,
        Step::Reduce(_, _, _) => 0,
        Step::Extend(_, copied, _, _) => copied.copy.pis,
    }
}

// Numbers beyond 32 bits are beyond memory.
fn added(total: u32, more: u32) -> Result<u32, NoMemory>
    ensures { IfOk result (λ n. n ≡ total + more) }
{
    match total.checked_add(more) {
        Some(sum) => Ok(sum),
        None => Err(NoMemory),
    }
}

fn all_pis(tree: &Tree) -> Result<u32, NoMemory>
    ensures { IfOk result (λ n. n ≡ sum_by pis_of tree.now.steps.items) }
{
    let mut total = 0;
    for k in 0..tree.steps.len() {
        let more = pis_of(&tree.steps[k]);
        total = added(total, more)?;
    }
    Ok(total)
}

// ---- gamma terms

// The gamma terms of the step's clause.
fn gammas_of(step: &Step) -> &[GammaUse]
    ensures { map the_gamma result.now ≡ gammas_of step.now }
{
    match step {
        Step::Start(copied) => copied.copy.gammas.items(),
        Step::Reduce(_, _, _) => &[],
        Step::Extend(_, copied, _, _) => copied.copy.gammas.items(),
    }
}

fn add_gammas(alloc: Global, items: &[GammaUse], gammas: &mut GammaList) -> Result<(), NoMemory>
    ensures { OnOk result (gammas.new ≡ gammas.old ++ map the_gamma items.now) }
{
    for item in items {
        let copied = copy_gamma(alloc, item)?;
        gammas.push(copied)?;
    }
    Ok(())
}

pub fn all_gammas(alloc: Global, tree: &Tree) -> Result<GammaList, NoMemory>
    ensures { IfOk result (λ gammas. gammas ≡ flat_map gammas_of tree.now.steps.items) }
{
    let mut gammas = GammaList::new(alloc);
    for k in 0..tree.steps.len() {
        let items = gammas_of(&tree.steps[k]);
        add_gammas(alloc, items, &mut gammas)?;
    }
    Ok(gammas)
}

// ---- pairs

// Adds the pair of a goal and one above it.
fn add_pair(
    alloc: Global,
    tree: &Tree,
    goal: usize,
    ancestor: usize,
    pairs: &mut PairList,
) -> Result<(), NoMemory>
    requires lower { HasAtom tree.now.steps.items tree.now.goals.items goal }
    requires upper { HasAtom tree.now.steps.items tree.now.goals.items ancestor }
    ensures { OnOk result ((g h : Goal) (a b : cells.CellAtom)
        → slice_get tree.now.goals.items goal ≡ Some g → atom_at tree.now.steps.items g ≡ Some a
        → slice_get tree.now.goals.items ancestor ≡ Some h
        → atom_at tree.now.steps.items h ≡ Some b
        → pairs.new ≡ pairs.old ++ record { upper = b; lower = a } ∷ []) }
{
    let upper = copy_atom(alloc, tree.atom(ancestor))?;
    let lower = copy_atom(alloc, tree.atom(goal))?;
    pairs.push((upper, lower))?;
    Ok(())
}

// Adds the pairs of the goal with those above it, the nearest first.
fn add_pairs(alloc: Global, tree: &Tree, goal: usize, pairs: &mut PairList) -> Result<(), NoMemory>
    requires { (x : CellGoal) × IsGoalAt tree.now.steps.items tree.now.goals.items goal x }
    ensures { OnOk result ((x : CellGoal)
        → IsGoalAt tree.now.steps.items tree.now.goals.items goal x
        → pairs.new ≡ pairs.old ++ pairs_with x.literal x.path) }
{
    let at = tree.goals[goal];
    let mut above = at.above;
    for _i in 0..at.depth {
        match above {
            None => return Ok(()),
            Some(ancestor) => {
                add_pair(alloc, tree, goal, ancestor, pairs)?;
                above = tree.goals[ancestor].above;
            }
        }
    }
    Ok(())
}

fn all_pairs(alloc: Global, tree: &Tree) -> Result<PairList, NoMemory>
    requires { (xs : List CellGoal)
        × AreGoals tree.now.steps.items tree.now.goals.items tree.now.goals.items xs }
    ensures { IfOk result (λ pairs. (xs : List CellGoal)
        → AreGoals tree.now.steps.items tree.now.goals.items tree.now.goals.items xs
        → pairs ≡ pairs_of xs) }
{
    let mut pairs = PairList::new(alloc);
    for goal in 0..tree.goals.len() {
        add_pairs(alloc, tree, goal, &mut pairs)?;
    }
    Ok(pairs)
}

/// The system of the tree's choices.
pub fn system_of(alloc: Global, matrix: &Matrix, tree: &Tree) -> Result<System, NoMemory>
    requires linked { AllByRecursion (IsLinkedStep tree.now.steps.items tree.now.goals.items)
        tree.now.steps.items }
    requires built { AllByRecursion (IsBuiltStep matrix.now) tree.now.steps.items }
    requires goals { (xs : List CellGoal)
        × AreGoals tree.now.steps.items tree.now.goals.items tree.now.goals.items xs }
    ensures { IfOk result (λ y. (xs : List CellGoal)
        → AreGoals tree.now.steps.items tree.now.goals.items tree.now.goals.items xs
        → the_system y ≡ tree_system matrix.now tree.now.steps.items tree.now.goals.items xs) }
{
    let equations = all_equations(alloc, tree)?;
    let strings = all_strings(alloc, matrix, tree)?;
    let pis = all_pis(tree)?;
    let gammas = all_gammas(alloc, tree)?;
    let pairs = all_pairs(alloc, tree)?;
    Ok(System {
        equations,
        strings,
        pis,
        gammas,
        pairs,
    })
}

/// Its equations and strings alone.
pub fn labels_of(alloc: Global, matrix: &Matrix, tree: &Tree) -> Result<System, NoMemory>
    requires linked { AllByRecursion (IsLinkedStep tree.now.steps.items tree.now.goals.items)
        tree.now.steps.items }
    requires built { AllByRecursion (IsBuiltStep matrix.now) tree.now.steps.items }
    ensures { IfOk result (λ y. (xs : List CellGoal) → the_system y
        ≡ labels_alone (tree_system matrix.now tree.now.steps.items tree.now.goals.items xs)) }
{
    let equations = all_equations(alloc, tree)?;
    let strings = all_strings(alloc, matrix, tree)?;
    Ok(System {
        equations,
        strings,
        pis: 0,
        gammas: GammaList::new(alloc),
        pairs: PairList::new(alloc),
    })
}
