//! The bound cells that occur in a goal and in those above it.

ghost use Rattle.std.specs.Prelude.{◌≡◌, ◌<◌, ◌++◌, ◌∷◌, [], ℕ, IfOk, IsTrue, OnOk};
ghost use Rattle.std.specs.Prelude.{Some, length, slice_get, true};
ghost use Rattle.calculus.specs.declared.sort.Sort.{Sort};
ghost use Rattle.search_theory.specs.States.{CellGoal, goal_is_below};
ghost use Rattle.store_theory.specs.Bindings.{EndsIn, IsEnd};
ghost use Rattle.store_theory.specs.Stores.{parts_of, variable};
ghost use Rattle.term_store.specs.ClauseView.{the_atom};
ghost use Rattle.search_tree.specs.Binding.{AreBound, ListsBound};
ghost use Rattle.search_tree.specs.Looking.{AreBelow, FindsAll, GoesOn, IsGathered};
ghost use Rattle.search_tree.specs.Looking.{atom_cells, bound_in, waiting_in};
ghost use Rattle.search_tree.specs.Trees.{IsGoalAt};

use crate::tree::Tree;
use cop_base::NoMemory;
use std::alloc::Global;
use term_store::{CellAtom, Ref, Store};

// How many cells one look visits at most.
const MOST_CELLS: usize = 1024;

// How many cells all looks visit at most for each choice that was tried.
const CELLS_PER_CHOICE: u64 = 2;

/// The bound cells that occur in a goal and in those above it.
#[derive(Drop)]
pub struct Look {
    // How many choices were tried, and how many cells all looks have visited.
    tried: u64,
    visited: u64,
    // Cells that are still to be visited.
    places: Vec<Ref>,
    bound: Vec<Ref>,
}

// The part of this number.
fn part_in(parts: &[u32], i: usize) -> Ref
    requires { i < length parts.now }
    ensures { slice_get parts.now i ≡ Some result.0 }
{
    Ref(parts[i])
}

// Whether the cell is there and bound.
fn is_bound(store: &Store, r: Ref) -> bool
    ensures { result ≡ true → (sort : Sort) × (k : ℕ)
        × (slice_get store.now.store.cells r.0 ≡ Some (variable sort (Some k))) }
{
    let cells = store.size() - store.spare();
    if r.0 as usize >= cells {
        return false;
    }
    match store.binding(r) {
        None => false,
        Some(_to) => true,
    }
}

impl Look {
    pub fn new(alloc: Global) -> Look {
        Look {
            tried: 0,
            visited: 0,
            places: Vec::new(alloc),
            bound: Vec::new(alloc),
        }
    }

    /// One more choice is tried.
    pub fn count(&mut self) {
        self.tried = self.tried.saturating_add(1);
    }

    /// Whether looks cost little so far, beside the choices that were tried.
    pub fn is_due(&self) -> bool {
        self.visited / CELLS_PER_CHOICE <= self.tried
    }

    fn add_atom(&mut self, atom: &CellAtom) -> Result<(), NoMemory>
        ensures { OnOk result (waiting_in self.new
            ≡ waiting_in self.old ++ atom_cells (the_atom atom.now)) }
    {
        self.places.extend_from_slice(atom.args.items())?;
        self.places.extend_from_slice(atom.label.items())?;
        Ok(())
    }

    // Adds the cells of the goal and of those above it.
    fn add_path(&mut self, tree: &Tree, goal: usize) -> Result<(), NoMemory>
        requires { (x : CellGoal) × IsGoalAt tree.now.steps.items tree.now.goals.items goal x }
        ensures { OnOk result ((x : CellGoal)
            → IsGoalAt tree.now.steps.items tree.now.goals.items goal x
            → IsGathered x (waiting_in self.old) (waiting_in self.new)) }
    {
        let at = tree.goals[goal];
        let own = tree.atom(goal);
        self.add_atom(own)?;
        let mut above = at.above;
        for _i in 0..at.depth {
            match above {
                None => return Ok(()),
                Some(ancestor) => {
                    let signed = tree.atom(ancestor);
                    self.add_atom(signed)?;
                    above = tree.goals[ancestor].above;
                }
            }
        }
        Ok(())
    }

    // Adds the parts of a cell at which bindings end.
    fn add_parts(&mut self, store: &Store, end: Ref) -> Result<(), NoMemory>
        requires { IsEnd store.now.store end.0 }
        ensures parts { OnOk result (EndsIn store.now.store end.0
            (λ c. waiting_in self.new ≡ waiting_in self.old ++ parts_of c)) }
        ensures bound { OnOk result (bound_in self.new ≡ bound_in self.old) }
    {
        let parts = store.parts_at(end);
        for i in 0..parts.len() {
            let part = part_in(parts, i);
            self.places.push(part)?;
        }
        Ok(())
    }

    // Visits the cell, which is kept where it is bound: what it names is to be visited.
    fn visit(&mut self, store: &Store, r: Ref) -> Result<(), NoMemory>
        requires { r.0 < length store.now.store.cells }
        ensures { OnOk result (GoesOn store.now.store (bound_in self.old)
            (waiting_in self.old ++ r.0 ∷ []) (bound_in self.new) (waiting_in self.new)) }
    {
        self.visited = self.visited.saturating_add(1);
        match store.binding(r) {
            None => {
                self.add_parts(store, r)?;
                Ok(())
            }
            Some(to) => {
                self.bound.push(r)?;
                self.places.push(to)?;
                Ok(())
            }
        }
    }

    // Visits all cells, where there are few.
    fn visit_all(&mut self, store: &Store) -> Result<bool, NoMemory>
        requires { AreBelow (length store.now.store.cells) (waiting_in self.old) }
        ensures { IfOk result (λ all. all ≡ true → FindsAll store.now.store (bound_in self.old)
            (waiting_in self.old) (bound_in self.new)) }
    {
        for _i in 0..MOST_CELLS {
            match self.places.pop() {
                None => return Ok(true),
                Some(r) => self.visit(store, r)?,
            }
        }
        Ok(false)
    }

    /// Finds all bound cells that occur in the goal and in those above it, where there are few.
    pub fn find(&mut self, store: &Store, tree: &Tree, goal: usize) -> Result<bool, NoMemory>
        requires { (x : CellGoal) × IsGoalAt tree.now.steps.items tree.now.goals.items goal x
            × IsTrue (goal_is_below (length store.now.store.cells) x) }
        ensures { IfOk result (λ all. all ≡ true → (x : CellGoal)
            → IsGoalAt tree.now.steps.items tree.now.goals.items goal x
            → ListsBound store.now.store x (bound_in self.new)) }
    {
        self.places.clear();
        self.bound.clear();
        self.add_path(tree, goal)?;
        let all = self.visit_all(store)?;
        Ok(all)
    }

    /// Whether all of them are bound in the store.
    pub fn are_bound(&self, store: &Store) -> bool
        ensures { result ≡ true → AreBound store.now.store (bound_in self.now) }
    {
        for i in 0..self.bound.len() {
            let r = self.bound[i];
            if !is_bound(store, r) {
                return false;
            }
        }
        true
    }
}
