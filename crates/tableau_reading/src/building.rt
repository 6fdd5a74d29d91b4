//! What stands for a cell is made of what stands for the cells that it needs, which are made first.

ghost use Rattle.std.specs.Prelude.{◌≡◌, ◌<◌, ◌≤◌, ◌+◌, ◌++◌, ◌∷◌, [], ℕ, IfOk, IsTrue, OnOk, length, map};
ghost use Rattle.std.specs.List.{AllByRecursion};
ghost use Rattle.formula_core.specs.GroundLists.{IsGrown, no_list};
ghost use Rattle.store_theory.specs.Bindings.{IsEnd};
ghost use Rattle.store_theory.specs.Stores.{EndsAt, Solution, Solves, names_below};
ghost use Rattle.store_theory.specs.Stores as cells;
ghost use Rattle.calculus.specs.Ground.{g_eigen, g_fun, g_new_mark, values_tree};
ghost use Rattle.search_theory.specs.States.{label_by, terms_by, values_by};
ghost use Rattle.term_store.specs.RefView.{the_place};
ghost use Rattle.tableau_reading.specs.Grounds.{AreMade, AreSparesAt, HasSparesAt, IsBegun, IsGroundOf, IsReading, Needs, home_of, spare_at};
ghost use Rattle.tableau_reading.specs.Readable.{AreHomesBelow, IsPlace};
ghost use Rattle.tableau_reading.specs.Waiting.{AreAllMade, IsAsked, IsMade, WaitBySpares, unasked, weight};

use crate::grounds::{Ground, Grounds};
use crate::homes::Homes;
use crate::parts::needs;
use calculus::sort::Sort;
use cop_base::{NoMemory, PosId, SymbolId};
use formula_core::{GroundLabel, GroundMark, GroundTable, GroundTerm};
use std::alloc::Global;
use term_store::{Head, Ref, Store};

impl Grounds {
    // The application of a function to the terms of these cells.
    fn function(
        &mut self,
        alloc: Global,
        store: &Store,
        f: SymbolId,
        refs: &[Ref],
    ) -> Result<Ground, NoMemory>
        requires below { IsTrue (names_below (length store.now.store.cells) (map the_place refs.now)) }
        requires made { AreAllMade store.now.store self.old.made.items (map the_place refs.now) }
        ensures value { IfOk result (λ g. (σ : Solution) → Solves store.now.store σ
            → AreMade self.old.table σ self.old.made.items
            → IsGroundOf self.new.table g (cells.a_term (g_fun f.0 (terms_by σ (map the_place refs.now))))) }
        ensures grown { IfOk result (λ g. IsGrown self.old.table self.new.table) }
        ensures made { IfOk result (λ g. self.new.made ≡ self.old.made) }
        ensures asked { IfOk result (λ g. self.new.asked ≡ self.old.asked) }
    {
        let items = self.terms(alloc, store, refs)?;
        let args = self.table.add_terms(&items)?;
        Ok(Ground::Term(GroundTerm::Fun(f, args)))
    }

    // The eigenvariable of a position by the values of these cells.
    fn eigen(
        &mut self,
        alloc: Global,
        store: &Store,
        p: PosId,
        refs: &[Ref],
    ) -> Result<Ground, NoMemory>
        requires below { IsTrue (names_below (length store.now.store.cells) (map the_place refs.now)) }
        requires made { AreAllMade store.now.store self.old.made.items (map the_place refs.now) }
        ensures value { IfOk result (λ g. (σ : Solution) → Solves store.now.store σ
            → AreMade self.old.table σ self.old.made.items
            → IsGroundOf self.new.table g (cells.a_term (g_eigen p.0 (values_tree (values_by σ (map the_place refs.now)))))) }
        ensures grown { IfOk result (λ g. IsGrown self.old.table self.new.table) }
        ensures made { IfOk result (λ g. self.new.made ≡ self.old.made) }
        ensures asked { IfOk result (λ g. self.new.asked ≡ self.old.asked) }
    {
        let items = self.values(alloc, store, refs)?;
        let values = self.table.add_values(&items)?;
        Ok(Ground::Term(GroundTerm::Eigen(p, values)))
    }

    // The mark of a position by the values of these cells.
    fn new_mark(
        &mut self,
        alloc: Global,
        store: &Store,
        p: PosId,
        refs: &[Ref],
    ) -> Result<Ground, NoMemory>
        requires below { IsTrue (names_below (length store.now.store.cells) (map the_place refs.now)) }
        requires made { AreAllMade store.now.store self.old.made.items (map the_place refs.now) }
        ensures value { IfOk result (λ g. (σ : Solution) → Solves store.now.store σ
            → AreMade self.old.table σ self.old.made.items
            → IsGroundOf self.new.table g (cells.a_mark (g_new_mark p.0 (values_tree (values_by σ (map the_place refs.now)))))) }
        ensures grown { IfOk result (λ g. IsGrown self.old.table self.new.table) }
        ensures made { IfOk result (λ g. self.new.made ≡ self.old.made) }
        ensures asked { IfOk result (λ g. self.new.asked ≡ self.old.asked) }
    {
        let items = self.values(alloc, store, refs)?;
        let values = self.table.add_values(&items)?;
        Ok(Ground::Mark(GroundMark::New(p, values)))
    }

    // The string of the marks of these cells.
    fn string(&mut self, alloc: Global, store: &Store, refs: &[Ref]) -> Result<Ground, NoMemory>
        requires below { IsTrue (names_below (length store.now.store.cells) (map the_place refs.now)) }
        requires made { AreAllMade store.now.store self.old.made.items (map the_place refs.now) }
        ensures value { IfOk result (λ g. (σ : Solution) → Solves store.now.store σ
            → AreMade self.old.table σ self.old.made.items
            → IsGroundOf self.new.table g (cells.a_string (label_by σ (map the_place refs.now)))) }
        ensures grown { IfOk result (λ g. IsGrown self.old.table self.new.table) }
        ensures made { IfOk result (λ g. self.new.made ≡ self.old.made) }
        ensures asked { IfOk result (λ g. self.new.asked ≡ self.old.asked) }
    {
        let items = self.marks(alloc, store, refs)?;
        let label = self.table.add_marks(&items)?;
        Ok(Ground::Marks(label))
    }

    // The spare constant of the variable, at the label that these cells join.
    fn spare(
        &mut self,
        alloc: Global,
        store: &Store,
        homes: &Homes,
        v: Ref,
        refs: &[Ref],
    ) -> Result<Ground, NoMemory>
        requires most { length self.old.table ≤ no_list }
        requires below { IsTrue (names_below (length store.now.store.cells) (map the_place refs.now)) }
        requires made { AreAllMade store.now.store self.old.made.items (map the_place refs.now) }
        ensures value { IfOk result (λ g. (σ : Solution) → Solves store.now.store σ
            → AreMade self.old.table σ self.old.made.items
            → IsGroundOf self.new.table g (spare_at (home_of homes.now v.0) v.0 (label_by σ (map the_place refs.now)))) }
        ensures grown { IfOk result (λ g. IsGrown self.old.table self.new.table) }
        ensures made { IfOk result (λ g. self.new.made ≡ self.old.made) }
        ensures asked { IfOk result (λ g. self.new.asked ≡ self.old.asked) }
    {
        if homes.is_common() {
            return Ok(Ground::Term(GroundTerm::Common(v.0)));
        }
        let items = self.marks(alloc, store, refs)?;
        let label = self.table.add_marks(&items)?;
        Ok(Ground::Term(GroundTerm::Own(v.0, label)))
    }

    // What stands for the cell, made of what stands for these.
    fn build(
        &mut self,
        alloc: Global,
        store: &Store,
        homes: &Homes,
        end: Ref,
        refs: &[Ref],
    ) -> Result<Ground, NoMemory>
        requires most { length self.old.table ≤ no_list }
        requires end { IsEnd store.now.store end.0 }
        requires needs { Needs store.now.store homes.now end.0 (map the_place refs.now) }
        requires below { IsTrue (names_below (length store.now.store.cells) (map the_place refs.now)) }
        requires made { AreAllMade store.now.store self.old.made.items (map the_place refs.now) }
        ensures value { IfOk result (λ g. (σ : Solution) → AreSparesAt store.now.store homes.now σ
            → AreMade self.old.table σ self.old.made.items
            → IsGroundOf self.new.table g (σ end.0)) }
        ensures grown { IfOk result (λ g. IsGrown self.old.table self.new.table) }
        ensures made { IfOk result (λ g. self.new.made ≡ self.old.made) }
        ensures asked { IfOk result (λ g. self.new.asked ≡ self.old.asked) }
    {
        match store.head(end) {
            Head::Open(Sort::TermSort) => self.spare(alloc, store, homes, end, refs),
            Head::Open(Sort::MarkSort) => Ok(Ground::Mark(GroundMark::Spare(end.0))),
            Head::Open(Sort::StringSort) => Ok(Ground::Marks(GroundLabel(GroundTable::EMPTY))),
            Head::Fun(f) => self.function(alloc, store, f, refs),
            Head::Eigen(p) => self.eigen(alloc, store, p, refs),
            Head::New(p) => self.new_mark(alloc, store, p, refs),
            Head::Marks => self.string(alloc, store, refs),
        }
    }

    // Lets the top wait for the cell, which is asked for. It was not before: what is asked for and not
    // made waits, and is not lighter than the top.
    fn wait_for(
        &mut self,
        store: &Store,
        homes: &Homes,
        top: Ref,
        part: Ref,
        waiting: &mut Vec<Ref>,
    ) -> Result<(), NoMemory>
        requires top { IsEnd store.now.store top.0 }
        requires part { IsEnd store.now.store part.0 }
        requires spares { HasSparesAt store.now.store homes.now }
        requires reading { IsBegun store.now.store homes.now self.old }
        requires there { AllByRecursion (IsPlace store.now.store) waiting.old.items }
        requires unmade { ¬ (IsMade self.old part.0) }
        requires lighter { (σ : Solution) → AreSparesAt store.now.store homes.now σ → weight (σ part.0) < weight (σ top.0) }
        requires waits { WaitBySpares store.now.store homes.now self.old (waiting.old.items ++ top ∷ []) }
        ensures there { OnOk result (AllByRecursion (IsPlace store.now.store) waiting.new.items) }
        ensures table { self.new.table ≡ self.old.table }
        ensures made { self.new.made ≡ self.old.made }
        ensures marked { length self.new.asked.items ≡ length self.old.asked.items }
        ensures asked { OnOk result ((r : ℕ) → IsAsked self.old r → IsAsked self.new r) }
        ensures waits { OnOk result (WaitBySpares store.now.store homes.now self.new waiting.new.items) }
        ensures falls { OnOk result (unasked self.new.asked.items + unasked self.new.asked.items + length waiting.new.items
            ≤ unasked self.old.asked.items + unasked self.old.asked.items + length waiting.old.items) }
    {
        let _store = store;
        let _homes = homes;
        self.ask(part);
        waiting.push(top)?;
        waiting.push(part)?;
        Ok(())
    }

    // Makes what stands for the cell on the top, or asks for one of those of which it is made.
    fn make_top(
        &mut self,
        alloc: Global,
        store: &Store,
        homes: &Homes,
        top: Ref,
        waiting: &mut Vec<Ref>,
    ) -> Result<(), NoMemory>
        requires end { IsEnd store.now.store top.0 }
        requires homes { AreHomesBelow store.now.store homes.now }
        requires spares { HasSparesAt store.now.store homes.now }
        requires reading { IsBegun store.now.store homes.now self.old }
        requires there { AllByRecursion (IsPlace store.now.store) waiting.old.items }
        requires waits { WaitBySpares store.now.store homes.now self.old (waiting.old.items ++ top ∷ []) }
        ensures there { OnOk result (AllByRecursion (IsPlace store.now.store) waiting.new.items) }
        ensures reading { OnOk result (IsBegun store.now.store homes.now self.new) }
        ensures grown { OnOk result (IsGrown self.old.table self.new.table) }
        ensures asked { OnOk result ((r : ℕ) → IsAsked self.old r → IsAsked self.new r) }
        ensures kept { OnOk result ((r : ℕ) → IsMade self.old r → IsMade self.new r) }
        ensures waits { OnOk result (WaitBySpares store.now.store homes.now self.new waiting.new.items) }
        ensures falls { OnOk result (unasked self.new.asked.items + unasked self.new.asked.items + length waiting.new.items
            ≤ unasked self.old.asked.items + unasked self.old.asked.items + length waiting.old.items) }
    {
        let refs = needs(alloc, store, homes, top)?;
        if let Some(part) = self.first_unmade(store, &refs) {
            self.wait_for(store, homes, top, part, waiting)?;
            return Ok(());
        }
        let ground = self.build(alloc, store, homes, top, &refs)?;
        self.note(top, ground);
        Ok(())
    }

    // Makes what stands for the cell, unless it was asked for before. Cells of which others wait to be
    // made are on a stack of their own.
    fn make(
        &mut self,
        alloc: Global,
        store: &Store,
        homes: &Homes,
        end: Ref,
    ) -> Result<(), NoMemory>
        requires end { IsEnd store.now.store end.0 }
        requires homes { AreHomesBelow store.now.store homes.now }
        requires spares { HasSparesAt store.now.store homes.now }
        requires reading { IsReading store.now.store homes.now self.old }
        ensures reading { OnOk result (IsReading store.now.store homes.now self.new) }
        ensures grown { OnOk result (IsGrown self.old.table self.new.table) }
        ensures made { OnOk result (IsMade self.new end.0) }
        ensures kept { OnOk result ((r : ℕ) → IsMade self.old r → IsMade self.new r) }
    {
        if self.is_asked(end) {
            return Ok(());
        }
        self.ask(end);
        let mut waiting = Vec::new(alloc);
        waiting.push(end)?;
        while let Some(top) = waiting.pop() {
            self.make_top(alloc, store, homes, top, &mut waiting)?;
        }
        Ok(())
    }

    /// What stands for the cell.
    pub(crate) fn ground_of(
        &mut self,
        alloc: Global,
        store: &Store,
        homes: &Homes,
        r: Ref,
    ) -> Result<Ground, NoMemory>
        requires cell { r.0 < length store.now.store.cells }
        requires homes { AreHomesBelow store.now.store homes.now }
        requires spares { HasSparesAt store.now.store homes.now }
        requires reading { IsReading store.now.store homes.now self.old }
        ensures ground { IfOk result (λ g. (σ : Solution) → AreSparesAt store.now.store homes.now σ
            → IsGroundOf self.new.table g (σ r.0)) }
        ensures reading { IfOk result (λ g. IsReading store.now.store homes.now self.new) }
        ensures grown { IfOk result (λ g. IsGrown self.old.table self.new.table) }
        ensures made { IfOk result (λ g. (e : ℕ) → EndsAt store.now.store r.0 e → IsMade self.new e) }
        ensures kept { IfOk result (λ g. (k : ℕ) → IsMade self.old k → IsMade self.new k) }
    {
        let end = store.walk(r);
        self.make(alloc, store, homes, end)?;
        match self.at(end) {
            Some(ground) => Ok(ground),
            None => unreachable!(),
        }
    }
}
