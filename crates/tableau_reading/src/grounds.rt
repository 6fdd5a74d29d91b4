//! What stands for cells by own spares: an unbound variable for a term or a mark stands for a spare
//! of its own, at its home if it has one, an unbound string for the empty one. What stands for a cell
//! is made once, and names its parts by the numbers of a table.

ghost use Rattle.std.specs.Prelude.{◌≡◌, ◌<◌, ◌++◌, ℕ, IfOk, IsTrue, List, MatchOption, OnOk, Some, length, map, set, slice_get, true};
ghost use Rattle.formula_core.specs.GroundLists.{GroundList, the_g_term, the_mark, the_value};
ghost use Rattle.store_theory.specs.Stores.{EndsAt, Solution, Solves, names_below};
ghost use Rattle.store_theory.specs.Stores as cells;
ghost use Rattle.store_theory.specs.Templates.{as_label, as_term, as_value};
ghost use Rattle.search_theory.specs.States.{label_by, values_by};
ghost use Rattle.term_store.specs.RefView.{the_place};
ghost use Rattle.tableau_reading.specs.Grounds.{AreMade, IsGroundOf, IsReading, the_ground};
ghost use Rattle.tableau_reading.specs.Waiting.{AreAllMade, IsMade, IsUnmade};

use crate::homes::Homes;
use cop_base::NoMemory;
use formula_core::{GroundLabel, GroundMark, GroundTable, GroundTerm, Value};
use search_tree::reference_at;
use std::alloc::Global;
use term_store::{Ref, Store};

/// What stands for a cell.
#[derive(Clone, Copy)]
pub(crate) enum Ground {
    Term(GroundTerm),
    Mark(GroundMark),
    Marks(GroundLabel),
}

/// What stands for cells so far, by the ends of their bindings, and the table whose lists it names.
#[derive(Drop)]
pub(crate) struct Grounds {
    pub table: GroundTable,
    pub made: Vec<Option<Ground>>,
    /// Whether a cell was asked for: it is made, or waits for what it is made of.
    pub asked: Vec<bool>,
}

// The term that a ground value is. Another value counts as the spare constant 0, as in the definitions.
fn term_of(ground: Ground) -> GroundTerm
    ensures { (ls : List GroundList) → the_g_term ls result ≡ as_term (the_ground ls ground) }
{
    match ground {
        Ground::Term(term) => term,
        Ground::Mark(_) => GroundTerm::Common(0),
        Ground::Marks(_) => GroundTerm::Common(0),
    }
}

// The term or string that a ground value is. A mark counts as the spare constant 0, as in the definitions.
fn value_of(ground: Ground) -> Value
    ensures { (ls : List GroundList) → the_value ls result ≡ as_value (the_ground ls ground) }
{
    match ground {
        Ground::Term(term) => Value::Term(term),
        Ground::Marks(label) => Value::Steps(label),
        Ground::Mark(_) => Value::Term(GroundTerm::Common(0)),
    }
}

impl Grounds {
    /// Nothing is made yet.
    pub fn new(alloc: Global, store: &Store, homes: &Homes) -> Result<Grounds, NoMemory>
        ensures { IfOk result (λ g. IsReading store.now.store homes.now g) }
    {
        let _ghost = homes;
        let mut made = Vec::new(alloc);
        let mut asked = Vec::new(alloc);
        for _cell in 0..store.size() - store.spare() {
            made.push(None)?;
            asked.push(false)?;
        }
        Ok(Grounds {
            table: GroundTable::new(alloc),
            made,
            asked,
        })
    }

    /// What stands for the cell, if it is made.
    pub(crate) fn at(&self, end: Ref) -> Option<Ground>
        ensures { MatchOption result (¬ (IsMade self.now end.0))
            (λ g. slice_get self.now.made.items end.0 ≡ Some (Some g)) }
    {
        let place = end.0 as usize;
        if place < self.made.len() {
            return self.made[place];
        }
        None
    }

    /// Notes what stands for the cell.
    pub(crate) fn note(&mut self, end: Ref, ground: Ground)
        requires { end.0 < length self.old.made.items }
        ensures table { self.new.table ≡ self.old.table }
        ensures asked { self.new.asked ≡ self.old.asked }
        ensures made { self.new.made.items ≡ set self.old.made.items end.0 (Some ground) }
    {
        self.made[end.0 as usize] = Some(ground);
    }

    /// Whether the cell was asked for.
    pub(crate) fn is_asked(&self, end: Ref) -> bool
        requires { end.0 < length self.now.asked.items }
        ensures { slice_get self.now.asked.items end.0 ≡ Some result }
    {
        self.asked[end.0 as usize]
    }

    /// Notes that the cell is asked for.
    pub(crate) fn ask(&mut self, end: Ref)
        requires { end.0 < length self.old.asked.items }
        ensures table { self.new.table ≡ self.old.table }
        ensures made { self.new.made ≡ self.old.made }
        ensures asked { self.new.asked.items ≡ set self.old.asked.items end.0 true }
    {
        self.asked[end.0 as usize] = true;
    }

    // What stands for the cell of this place in the list.
    fn made_for(&self, store: &Store, refs: &[Ref], i: usize) -> Ground
        requires place { i < length refs.now }
        requires below { IsTrue (names_below (length store.now.store.cells) (map the_place refs.now)) }
        requires made { AreAllMade store.now.store self.now.made.items (map the_place refs.now) }
        ensures { (σ : Solution) → Solves store.now.store σ
            → AreMade self.now.table σ self.now.made.items
            → (k : ℕ) → slice_get (map the_place refs.now) i ≡ Some k → IsGroundOf self.now.table result (σ k) }
    {
        let end = store.walk(reference_at(refs, i));
        match self.at(end) {
            Some(ground) => ground,
            None => unreachable!(),
        }
    }

    // The end of the cell of this place in the list, if nothing is made for it.
    fn unmade_at(&self, store: &Store, refs: &[Ref], i: usize) -> Option<Ref>
        requires place { i < length refs.now }
        requires below { IsTrue (names_below (length store.now.store.cells) (map the_place refs.now)) }
        ensures { MatchOption result
            ((k e : ℕ) → slice_get (map the_place refs.now) i ≡ Some k → EndsAt store.now.store k e → IsMade self.now e)
            (λ r. IsUnmade store.now.store self.now.made.items (map the_place refs.now) r.0) }
    {
        let end = store.walk(reference_at(refs, i));
        match self.at(end) {
            Some(_) => None,
            None => Some(end),
        }
    }

    /// The end of the first of these cells for which nothing is made.
    pub(crate) fn first_unmade(&self, store: &Store, refs: &[Ref]) -> Option<Ref>
        requires { IsTrue (names_below (length store.now.store.cells) (map the_place refs.now)) }
        ensures { MatchOption result (AreAllMade store.now.store self.now.made.items (map the_place refs.now))
            (λ r. IsUnmade store.now.store self.now.made.items (map the_place refs.now) r.0) }
    {
        for i in 0..refs.len() {
            if let Some(end) = self.unmade_at(store, refs, i) {
                return Some(end);
            }
        }
        None
    }

    /// The terms that stand for these cells.
    pub(crate) fn terms(
        &self,
        alloc: Global,
        store: &Store,
        refs: &[Ref],
    ) -> Result<Vec<GroundTerm>, NoMemory>
        requires below { IsTrue (names_below (length store.now.store.cells) (map the_place refs.now)) }
        requires made { AreAllMade store.now.store self.now.made.items (map the_place refs.now) }
        ensures { IfOk result (λ v. (σ : Solution) → Solves store.now.store σ
            → AreMade self.now.table σ self.now.made.items
            → map (the_g_term self.now.table) v.items ≡ map (λ k. as_term (σ k)) (map the_place refs.now)) }
    {
        let mut terms = Vec::new(alloc);
        for i in 0..refs.len() {
            let ground = self.made_for(store, refs, i);
            terms.push(term_of(ground))?;
        }
        Ok(terms)
    }

    /// The terms and strings that stand for these cells.
    pub(crate) fn values(
        &self,
        alloc: Global,
        store: &Store,
        refs: &[Ref],
    ) -> Result<Vec<Value>, NoMemory>
        requires below { IsTrue (names_below (length store.now.store.cells) (map the_place refs.now)) }
        requires made { AreAllMade store.now.store self.now.made.items (map the_place refs.now) }
        ensures { IfOk result (λ v. (σ : Solution) → Solves store.now.store σ
            → AreMade self.now.table σ self.now.made.items
            → map (the_value self.now.table) v.items ≡ values_by σ (map the_place refs.now)) }
    {
        let mut values = Vec::new(alloc);
        for i in 0..refs.len() {
            let ground = self.made_for(store, refs, i);
            values.push(value_of(ground))?;
        }
        Ok(values)
    }

    // Appends the marks of what stands for the cell of this place in the list. A term has none, as in the definitions.
    fn add_marks_for(
        &self,
        store: &Store,
        refs: &[Ref],
        i: usize,
        marks: &mut Vec<GroundMark>,
    ) -> Result<(), NoMemory>
        requires place { i < length refs.now }
        requires below { IsTrue (names_below (length store.now.store.cells) (map the_place refs.now)) }
        requires made { AreAllMade store.now.store self.now.made.items (map the_place refs.now) }
        ensures { OnOk result ((σ : Solution) → Solves store.now.store σ
            → AreMade self.now.table σ self.now.made.items
            → (k : ℕ) → slice_get (map the_place refs.now) i ≡ Some k
            → map (the_mark self.now.table) marks.new.items
            ≡ map (the_mark self.now.table) marks.old.items ++ as_label (σ k)) }
    {
        match self.made_for(store, refs, i) {
            Ground::Mark(mark) => {
                marks.push(mark)?;
                Ok(())
            }
            Ground::Marks(label) => {
                marks.extend_from_slice(self.table.marks(label))?;
                Ok(())
            }
            Ground::Term(_) => Ok(()),
        }
    }

    /// The marks of the label that these cells join.
    pub(crate) fn marks(
        &self,
        alloc: Global,
        store: &Store,
        refs: &[Ref],
    ) -> Result<Vec<GroundMark>, NoMemory>
        requires below { IsTrue (names_below (length store.now.store.cells) (map the_place refs.now)) }
        requires made { AreAllMade store.now.store self.now.made.items (map the_place refs.now) }
        ensures { IfOk result (λ v. (σ : Solution) → Solves store.now.store σ
            → AreMade self.now.table σ self.now.made.items
            → map (the_mark self.now.table) v.items ≡ label_by σ (map the_place refs.now)) }
    {
        let mut marks = Vec::new(alloc);
        for i in 0..refs.len() {
            self.add_marks_for(store, refs, i, &mut marks)?;
        }
        Ok(marks)
    }
}
