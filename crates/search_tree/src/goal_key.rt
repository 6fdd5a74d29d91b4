//! What a goal and the goals above it say, up to the names of variables.

ghost use Rattle.std.specs.Prelude.{◌≡◌, ◌<◌, ◌++◌, ◌∷◌, [], ℕ, IfOk, IsTrue, List, MatchOption};
ghost use Rattle.std.specs.Prelude.{OnOk, Some, length, map, slice_get, true};
ghost use Rattle.calculus.specs.declared.sort.Sort.TheVariants.{TermSort};
ghost use Rattle.search_theory.specs.Exploring.{IsIn};
ghost use Rattle.search_theory.specs.States.{CellGoal, goal_is_below};
ghost use Rattle.store_theory.specs.Bindings.{EndsIn, IsEnd};
ghost use Rattle.store_theory.specs.Stores.{eigen_cell, fun_cell, parts_of};
ghost use Rattle.store_theory.specs.Systems as cells;
ghost use Rattle.term_store.specs.ClauseView.{the_atom};
ghost use Rattle.term_store.specs.RefView.{the_place};
ghost use Rattle.search_tree.specs.GoalKeys.{IsAdded, IsKeyOf, IsNumbered, IsReading};
ghost use Rattle.search_tree.specs.GoalKeys.{IsReadAt, IsReadingAt};
ghost use Rattle.search_tree.specs.GoalKeys.{variables_in, waiting_in};
ghost use Rattle.search_tree.specs.Trees.{IsGoalAt};
ghost use Rattle.search_tree.specs.declared.goal_key.KeyPart.TheVariants.{Eigenvariable, Function};
ghost use Rattle.search_tree.specs.declared.goal_key.KeyPart.TheVariants.{Literal, Variable};

use crate::atoms::reference_at;
use crate::tree::Tree;
use calculus::sign::Sign;
use calculus::sort::Sort;
use cop_base::{NoMemory, PosId, SymbolId};
use std::alloc::Global;
use term_store::{CellAtom, Content, Ref, Store};

// How many parts a key has at most, but for those of one literal.
const MOST_PARTS: usize = 1024;

/// A part of a key: a literal, or a term of one of those before it, with the number of its
/// arguments, whose parts come behind it, the last argument first. Variables are numbered as they
/// come.
#[derive(Clone, Copy)]
pub enum KeyPart {
    Variable(usize),
    Function(SymbolId, usize),
    Eigenvariable(PosId, usize),
    Literal(Sign, SymbolId, usize),
}

/// The key of a goal: two goals have the same one where they are the same with the goals above them,
/// up to the names of variables.
#[derive(Drop)]
pub struct GoalKey {
    pub(crate) parts: Vec<KeyPart>,
    pub(crate) variables: Vec<Ref>,
    // Cells that are still to be read, the last one first.
    pub(crate) waiting: Vec<Ref>,
}

// The number of the variable, where it has one.
fn number_of(variables: &[Ref], place: Ref) -> Option<usize>
    ensures { MatchOption result (¬ IsIn place.0 (map the_place variables.now))
        (λ i. slice_get (map the_place variables.now) i ≡ Some place.0) }
{
    for i in 0..variables.len() {
        let known = reference_at(variables, i);
        if known.0 == place.0 {
            return Some(i);
        }
    }
    None
}

// The part of this number.
fn part_in(parts: &[u32], i: usize) -> Ref
    requires { i < length parts.now }
    ensures { slice_get parts.now i ≡ Some result.0 }
{
    Ref(parts[i])
}

// Whether the list is empty.
fn is_empty(refs: &[Ref]) -> bool
    ensures { result ≡ true → map the_place refs.now ≡ [] }
{
    refs.len() == 0
}

// Whether the literal has no label.
fn is_plain(atom: &CellAtom) -> bool
    ensures { result ≡ true → (the_atom atom.now).label ≡ [] }
{
    is_empty(atom.label.items())
}

impl GoalKey {
    pub fn new(alloc: Global) -> GoalKey {
        GoalKey {
            parts: Vec::new(alloc),
            variables: Vec::new(alloc),
            waiting: Vec::new(alloc),
        }
    }

    // The number of the variable, which gets one where it has none.
    fn number(&mut self, place: Ref) -> Result<usize, NoMemory>
        ensures number { IfOk result
            (IsNumbered (variables_in self.old) (variables_in self.new) place.0) }
        ensures parts { OnOk result (self.new.parts.items ≡ self.old.parts.items) }
        ensures waiting { OnOk result (waiting_in self.new ≡ waiting_in self.old) }
    {
        match number_of(&self.variables, place) {
            Some(number) => Ok(number),
            None => {
                let number = self.variables.len();
                self.variables.push(place)?;
                Ok(number)
            }
        }
    }

    fn read_variable(&mut self, place: Ref) -> Result<(), NoMemory>
        ensures number { OnOk result ((i : ℕ)
            × IsNumbered (variables_in self.old) (variables_in self.new) place.0 i
            × (self.new.parts.items ≡ self.old.parts.items ++ Variable i ∷ [])) }
        ensures waiting { OnOk result (waiting_in self.new ≡ waiting_in self.old) }
    {
        let number = self.number(place)?;
        self.parts.push(KeyPart::Variable(number))?;
        Ok(())
    }

    // The parts of a cell at which bindings end are to be read: how many there are.
    fn add_parts(&mut self, store: &Store, end: Ref) -> Result<usize, NoMemory>
        requires { IsEnd store.now.store end.0 }
        ensures count { IfOk result (λ n. EndsIn store.now.store end.0
            (λ c. (n ≡ length (parts_of c))
            × (waiting_in self.new ≡ waiting_in self.old ++ parts_of c))) }
        ensures variables { OnOk result (variables_in self.new ≡ variables_in self.old) }
        ensures parts { OnOk result (self.new.parts.items ≡ self.old.parts.items) }
    {
        let parts = store.parts_at(end);
        for i in 0..parts.len() {
            let part = part_in(parts, i);
            self.waiting.push(part)?;
        }
        Ok(parts.len())
    }

    fn read_function(&mut self, store: &Store, f: SymbolId, end: Ref) -> Result<(), NoMemory>
        requires { (rs : List ℕ)
            × (slice_get store.now.store.cells end.0 ≡ Some (fun_cell f.0 rs)) }
        ensures { OnOk result ((rs : List ℕ)
            → slice_get store.now.store.cells end.0 ≡ Some (fun_cell f.0 rs)
            → IsAdded self.old (Function f (length rs)) rs self.new) }
    {
        let count = self.add_parts(store, end)?;
        self.parts.push(KeyPart::Function(f, count))?;
        Ok(())
    }

    fn read_eigenvariable(&mut self, store: &Store, p: PosId, end: Ref) -> Result<(), NoMemory>
        requires { (rs : List ℕ)
            × (slice_get store.now.store.cells end.0 ≡ Some (eigen_cell p.0 rs)) }
        ensures { OnOk result ((rs : List ℕ)
            → slice_get store.now.store.cells end.0 ≡ Some (eigen_cell p.0 rs)
            → IsAdded self.old (Eigenvariable p (length rs)) rs self.new) }
    {
        let count = self.add_parts(store, end)?;
        self.parts.push(KeyPart::Eigenvariable(p, count))?;
        Ok(())
    }

    // Reads an unbound variable of this sort, where it stands for a term.
    fn read_open(&mut self, sort: Sort, place: Ref) -> Result<bool, NoMemory>
        ensures term { IfOk result (λ read. read ≡ true → sort ≡ TermSort) }
        ensures number { IfOk result (λ read. read ≡ true → (i : ℕ)
            × IsNumbered (variables_in self.old) (variables_in self.new) place.0 i
            × (self.new.parts.items ≡ self.old.parts.items ++ Variable i ∷ [])) }
        ensures waiting { IfOk result (λ read. read ≡ true
            → waiting_in self.new ≡ waiting_in self.old) }
    {
        match sort {
            Sort::TermSort => {
                self.read_variable(place)?;
                Ok(true)
            }
            Sort::MarkSort => Ok(false),
            Sort::StringSort => Ok(false),
        }
    }

    // Reads the cell, where it is a term: its arguments are to be read.
    fn read_cell(&mut self, store: &Store, r: Ref) -> Result<bool, NoMemory>
        requires { r.0 < length store.now.store.cells }
        ensures { IfOk result (λ read. read ≡ true → (x : CellGoal) (rest : List cells.CellAtom)
            → IsReading store.now.store x (waiting_in self.old ++ r.0 ∷ [])
            (variables_in self.old) self.old.parts.items rest
            → IsReadingAt store.now.store x self.new rest) }
    {
        let end = store.end(r);
        match end.content {
            Content::Open(sort) => {
                let read = self.read_open(sort, end.place)?;
                Ok(read)
            }
            Content::Fun(f, _count) => {
                self.read_function(store, f, end.place)?;
                Ok(true)
            }
            Content::Eigen(p, _count) => {
                self.read_eigenvariable(store, p, end.place)?;
                Ok(true)
            }
            Content::Bound(_sort, _to) => Ok(false),
            Content::New(_p, _count) => Ok(false),
            Content::Marks(_count) => Ok(false),
        }
    }

    // Reads all cells that are still to be read, where there are few.
    fn read_cells(&mut self, store: &Store) -> Result<bool, NoMemory>
        requires { (x : CellGoal) × (rest : List cells.CellAtom)
            × IsReadingAt store.now.store x self.old rest }
        ensures { IfOk result (λ read. read ≡ true → (x : CellGoal) (rest : List cells.CellAtom)
            → IsReadingAt store.now.store x self.old rest
            → IsReadAt store.now.store x self.new rest) }
    {
        for _i in 0..MOST_PARTS {
            let count = self.waiting.len();
            if count == 0 {
                return Ok(true);
            }
            match self.waiting.pop() {
                None => return Ok(false),
                Some(r) => {
                    let read = self.read_cell(store, r)?;
                    if !read {
                        return Ok(false);
                    }
                }
            }
        }
        Ok(false)
    }

    // The literal comes: its arguments are to be read, and no other cells.
    fn add_literal(&mut self, atom: &CellAtom) -> Result<(), NoMemory>
        ensures parts { OnOk result (self.new.parts.items ≡ self.old.parts.items
            ++ Literal atom.now.sign atom.now.symbol (length (the_atom atom.now).args) ∷ []) }
        ensures waiting { OnOk result (waiting_in self.new ≡ (the_atom atom.now).args) }
        ensures variables { OnOk result (variables_in self.new ≡ variables_in self.old) }
    {
        let args = atom.args.items();
        let count = args.len();
        self.waiting.clear();
        self.waiting.extend_from_slice(args)?;
        self.parts
            .push(KeyPart::Literal(atom.sign, atom.symbol, count))?;
        Ok(())
    }

    // Reads the literal, where it has no label.
    fn read_literal(&mut self, store: &Store, atom: &CellAtom) -> Result<bool, NoMemory>
        requires { (x : CellGoal) × (rest : List cells.CellAtom)
            × IsReadAt store.now.store x self.old (the_atom atom.now ∷ rest) }
        ensures { IfOk result (λ read. read ≡ true → (x : CellGoal) (rest : List cells.CellAtom)
            → IsReadAt store.now.store x self.old (the_atom atom.now ∷ rest)
            → IsReadAt store.now.store x self.new rest) }
    {
        if !is_plain(atom) {
            return Ok(false);
        }
        if self.parts.len() >= MOST_PARTS {
            return Ok(false);
        }
        self.add_literal(atom)?;
        let read = self.read_cells(store)?;
        Ok(read)
    }

    fn forget(&mut self)
        ensures parts { self.new.parts.items ≡ [] }
        ensures variables { variables_in self.new ≡ [] }
    {
        self.parts.clear();
        self.variables.clear();
    }

    /// Reads the goal and the goals above it, where their labels are empty and they are not large.
    pub fn read(&mut self, store: &Store, tree: &Tree, goal: usize) -> Result<bool, NoMemory>
        requires { (x : CellGoal) × IsGoalAt tree.now.steps.items tree.now.goals.items goal x
            × IsTrue (goal_is_below (length store.now.store.cells) x) }
        ensures { IfOk result (λ read. read ≡ true → (x : CellGoal)
            → IsGoalAt tree.now.steps.items tree.now.goals.items goal x
            → IsTrue (goal_is_below (length store.now.store.cells) x)
            → IsKeyOf store.now.store x (variables_in self.new) self.new.parts.items) }
    {
        self.forget();
        let at = tree.goals[goal];
        let signed = tree.atom(goal);
        let own = self.read_literal(store, signed)?;
        if !own {
            return Ok(false);
        }
        let mut above = at.above;
        for _i in 0..at.depth {
            match above {
                None => return Ok(true),
                Some(ancestor) => {
                    let literal = tree.atom(ancestor);
                    let read = self.read_literal(store, literal)?;
                    if !read {
                        return Ok(false);
                    }
                    above = tree.goals[ancestor].above;
                }
            }
        }
        Ok(true)
    }
}
