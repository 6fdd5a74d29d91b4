//! The tree that the choices made so far have grown.

ghost use Rattle.std.specs.Prelude.{◌≡◌, ◌<◌, ◌≤◌, ◌+◌, ◌-◌, ◌^◌, ◌++◌, ◌∷◌, []};
ghost use Rattle.std.specs.Prelude.{ℕ, List, None, Some, OnOk, map, slice_get, length, take};
ghost use Rattle.calculus.specs.Choices.{reduction, start};
ghost use Rattle.search_theory.specs.Matrix.{MatrixClause};
ghost use Rattle.search_theory.specs.StateSystems.{extended_system, reduced_system};
ghost use Rattle.search_theory.specs.StateSystems.{started_system};
ghost use Rattle.search_theory.specs.States.{CellChoice, CellGoal, cell_goals_on, extended};
ghost use Rattle.search_theory.specs.States.{new_cell_goals, reduced, started};
ghost use Rattle.store_theory.specs.Systems as cells;
ghost use Rattle.term_store.specs.ClauseView.{the_atom};
ghost use Rattle.search_tree.specs.Trees.{HasAtom, IsTree, KeepsTree, atom_at};
ghost use Rattle.search_tree.specs.Trees.{clause_with, fresh_goals, goals_of, inserted};
ghost use Rattle.search_tree.specs.Trees.{link_from, strings_in, the_step, tree_system};

use cop_base::{ClauseId, NoMemory};
use std::alloc::Global;
use term_store::{CellAtom, CopiedClause, Store};

/// A clause that was copied into the store. Its goals are the literals of the copy, which lacks the
/// connected one.
#[derive(Drop)]
pub struct Copied {
    pub clause: ClauseId,
    pub copy: CopiedClause,
}

/// A choice that was made at the leftmost open goal.
#[derive(Drop)]
pub enum Step {
    Start(Copied),
    /// The goal, by the ancestor that stands so many goals above it, the nearest standing 1 above,
    /// which is this goal.
    Reduce(usize, u32, usize),
    /// The goal, by the literal at this place of the clause, which is the atom.
    Extend(usize, Copied, u32, CellAtom),
}

/// A goal: a literal of a step's clause. Paths and the list of open goals are linked through the
/// list of all goals, so that going back is cutting that list.
#[derive(Clone, Copy)]
pub struct Goal {
    pub step: usize,
    pub literal: usize,
    /// The goal above it on its branch.
    pub above: Option<usize>,
    /// The goal that is open behind it.
    pub behind: Option<usize>,
    /// How many goals are above it: at most the path limit.
    pub depth: u32,
}

/// The choices made, the goals so far, and the leftmost open goal.
#[derive(Drop)]
pub struct Tree {
    pub steps: Vec<Step>,
    pub goals: Vec<Goal>,
    pub open: Option<usize>,
}

// The literals of the goals that the step gave.
fn goals_of(step: &Step) -> &[CellAtom]
    ensures { map the_atom result.now ≡ goals_of step.now }
{
    match step {
        Step::Start(copied) => copied.copy.literals.items(),
        Step::Reduce(_, _, _) => &[],
        Step::Extend(_, copied, _, _) => copied.copy.literals.items(),
    }
}

// The goal that is open from the literal j of so many on, whose goals begin with the number
// `first`.
fn link(first: usize, behind: Option<usize>, j: usize, count: usize) -> Option<usize>
    requires within { j ≤ count }
    requires fits { first + count < 2 ^ 64 }
    ensures { result ≡ link_from first behind j (count - j) }
{
    if j == count {
        return behind;
    }
    Some(first + j)
}

// Gives the lists of the step to the store.
fn free_step(store: &mut Store, step: Step)
    ensures { store.new ≡ store.old }
{
    match step {
        Step::Start(copied) => store.free_clause(copied.copy),
        Step::Reduce(_, _, _) => {}
        Step::Extend(_, copied, _, atom) => {
            store.free_clause(copied.copy);
            store.free_atom(atom);
        }
    }
}

impl Tree {
    /// No choice, and no goal.
    pub fn new(alloc: Global) -> Tree
        ensures steps { result.steps.items ≡ [] }
        ensures goals { result.goals.items ≡ [] }
        ensures open { result.open ≡ None }
    {
        Tree {
            steps: Vec::new(alloc),
            goals: Vec::new(alloc),
            open: None,
        }
    }

    /// The signed atom of a goal.
    pub fn atom(&self, goal: usize) -> &CellAtom
        requires { (g : Goal) × (a : cells.CellAtom)
            × (slice_get self.now.goals.items goal ≡ Some g)
            × (atom_at self.now.steps.items g ≡ Some a) }
        ensures { (g : Goal) → slice_get self.now.goals.items goal ≡ Some g
            → atom_at self.now.steps.items g ≡ Some (the_atom result.now) }
    {
        let at = self.goals[goal];
        &goals_of(&self.steps[at.step])[at.literal]
    }

    /// Whether the leftmost open goal came with the last choice, an extension.
    pub fn is_extended(&self) -> bool {
        match (self.steps.last(), self.open) {
            (Some(Step::Extend(_, _, _, _)), Some(goal)) => match self.goals.get(goal) {
                Some(at) => at.step.saturating_add(1) == self.steps.len(),
                None => false,
            },
            _ => false,
        }
    }

    /// Back to so many choices and goals, when `first` was the leftmost open goal. The store takes
    /// the lists of the choices that go.
    pub fn cut(&mut self, store: &mut Store, steps: usize, goals: usize, first: Option<usize>)
        ensures steps { self.new.steps.items ≡ take steps self.old.steps.items }
        ensures goals { self.new.goals.items ≡ take goals self.old.goals.items }
        ensures first { self.new.open ≡ first }
        ensures store { store.new ≡ store.old }
    {
        while self.steps.len() > steps {
            if let Some(step) = self.steps.pop() {
                free_step(store, step);
            }
        }
        self.goals.truncate(goals);
        self.open = first;
    }

    // Adds a choice, with the goals of its clause below `above` and before `behind`.
    fn grow(
        &mut self,
        step: Step,
        above: Option<usize>,
        behind: Option<usize>,
        depth: u32,
    ) -> Result<(), NoMemory>
        ensures steps { OnOk result (self.new.steps.items ≡ self.old.steps.items ++ step ∷ []) }
        ensures goals { OnOk result (self.new.goals.items ≡ self.old.goals.items
            ++ fresh_goals (length self.old.steps.items) (length self.old.goals.items) above behind
            depth 0 (length (goals_of step))) }
        ensures first { OnOk result (self.new.open
            ≡ link_from (length self.old.goals.items) behind 0 (length (goals_of step))) }
    {
        let count = goals_of(&step).len();
        let first = self.goals.len();
        let number = self.steps.len();
        self.steps.push(step)?;
        for literal in 0..count {
            let next = link(first, behind, literal + 1, count);
            self.goals.push(Goal {
                step: number,
                literal,
                above,
                behind: next,
                depth,
            })?;
        }
        self.open = link(first, behind, 0, count);
        Ok(())
    }

    /// Starts a tree, where there is none.
    pub fn start(&mut self, copied: Copied) -> Result<(), NoMemory>
        requires steps { self.old.steps.items ≡ [] }
        requires goals { self.old.goals.items ≡ [] }
        ensures tree { OnOk result ((m : List MatrixClause) → copied.clause.0 < length m
            → IsTree m self.new.steps.items self.new.goals.items self.new.open
            (start (clause_with m copied copied.copy.literals) ∷ [])
            (started (clause_with m copied copied.copy.literals))) }
        ensures system { OnOk result ((m : List MatrixClause)
            → tree_system m self.new.steps.items self.new.goals.items
            (cell_goals_on [] copied.copy.literals)
            ≡ started_system (strings_in m copied) copied.copy.gammas copied.copy.pis) }
    {
        self.grow(Step::Start(copied), None, None, 0)?;
        Ok(())
    }

    /// Closes the leftmost open goal by the ancestor of this number.
    pub(crate) fn reduce(&mut self, goal: usize, up: u32, ancestor: usize) -> Result<(), NoMemory>
        requires goal { goal < length self.old.goals.items }
        ensures kept { OnOk result (KeepsTree self.old.steps.items self.old.goals.items
            self.new.steps.items self.new.goals.items) }
        ensures tree { OnOk result ((m : List MatrixClause) (cs : List CellChoice) (g : CellGoal)
            (gs every : List CellGoal) (ds : List ℕ)
            → HasAtom self.old.steps.items self.old.goals.items ancestor
            → IsTree m self.old.steps.items self.old.goals.items (Some goal) cs
            (record { open_goals = g ∷ gs; all_goals = every; depths = ds })
            → IsTree m self.new.steps.items self.new.goals.items self.new.open
            (cs ++ reduction up ∷ [])
            (reduced gs (record { open_goals = g ∷ gs; all_goals = every; depths = ds }))) }
        ensures system { OnOk result ((m : List MatrixClause) (cs : List CellChoice) (g : CellGoal)
            (gs every : List CellGoal) (ds : List ℕ) (at : Goal) (a : cells.CellAtom)
            → IsTree m self.old.steps.items self.old.goals.items (Some goal) cs
            (record { open_goals = g ∷ gs; all_goals = every; depths = ds })
            → slice_get self.old.goals.items ancestor ≡ Some at
            → atom_at self.old.steps.items at ≡ Some a
            → tree_system m self.new.steps.items self.new.goals.items every
            ≡ reduced_system (tree_system m self.old.steps.items self.old.goals.items every)
            g.literal a) }
    {
        self.steps.push(Step::Reduce(goal, up, ancestor))?;
        self.open = self.goals[goal].behind;
        Ok(())
    }

    /// Extends the leftmost open goal by the literal at this place of a clause, which is the atom.
    pub fn extend(
        &mut self,
        goal: usize,
        copied: Copied,
        place: u32,
        atom: CellAtom,
    ) -> Result<(), NoMemory>
        requires goal { goal < length self.old.goals.items }
        requires room { (g : Goal) → slice_get self.old.goals.items goal ≡ Some g → g.depth ≤ 200 }
        requires place { place ≤ length copied.copy.literals }
        ensures kept { OnOk result (KeepsTree self.old.steps.items self.old.goals.items
            self.new.steps.items self.new.goals.items) }
        ensures tree { OnOk result ((m : List MatrixClause) (cs : List CellChoice) (g : CellGoal)
            (gs every : List CellGoal) (ds : List ℕ)
            → copied.clause.0 < length m
            → IsTree m self.old.steps.items self.old.goals.items (Some goal) cs
            (record { open_goals = g ∷ gs; all_goals = every; depths = ds })
            → IsTree m self.new.steps.items self.new.goals.items self.new.open
            (cs ++ the_step m (Step.Extend goal copied place atom) ∷ [])
            (extended g gs (clause_with m copied
            (inserted place (the_atom atom) copied.copy.literals)) place
            (record { open_goals = g ∷ gs; all_goals = every; depths = ds }))) }
        ensures system { OnOk result ((m : List MatrixClause) (cs : List CellChoice) (g : CellGoal)
            (gs every : List CellGoal) (ds : List ℕ)
            → IsTree m self.old.steps.items self.old.goals.items (Some goal) cs
            (record { open_goals = g ∷ gs; all_goals = every; depths = ds })
            → tree_system m self.new.steps.items self.new.goals.items (every ++ new_cell_goals g
            (clause_with m copied (inserted place (the_atom atom) copied.copy.literals)) place)
            ≡ extended_system (tree_system m self.old.steps.items self.old.goals.items every) g
            (clause_with m copied (inserted place (the_atom atom) copied.copy.literals)) place
            (the_atom atom) (strings_in m copied) copied.copy.gammas copied.copy.pis) }
    {
        let at = self.goals[goal];
        let step = Step::Extend(goal, copied, place, atom);
        self.grow(step, Some(goal), at.behind, at.depth + 1)?;
        Ok(())
    }
}
