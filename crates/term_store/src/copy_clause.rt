//! Copies of clauses, whole or without the connected literal.

ghost use Rattle.std.specs.Prelude.{◌≡◌, ◌<◌, ◌≤◌, ◌+◌, ◌++◌, ◌&&◌, IfOk, IsTrue, OnErr, OnOk, Some, length, map, nat_le, slice_get};
ghost use Rattle.std.specs.List.{list_all};
ghost use Rattle.store_theory.specs.Bindings.{AddsBuilt, AddsOver, KeepsMarks, NamesFrom, NamesOver, places_from, with_variables_of};
ghost use Rattle.store_theory.specs.Patterns.{AreCopies, HaveSortsAt, IsClauseCopy, PatternAtom as TreeAtom, atom_fits, clause_fits, clause_is_from, patterns_tree, template_fits, without_literal};
ghost use Rattle.store_theory.specs.Systems.{is_label};
ghost use Rattle.term_store.specs.ClauseView.{the_pattern_atom};
ghost use Rattle.term_store.specs.Copying.{with_literals};
ghost use Rattle.term_store.specs.RefView.{the_places};
ghost use Rattle.term_store.specs.Room.{KeepsRoom, spare};
ghost use Rattle.term_store.specs.Signatures.{BuildsWithin, allows_all, allows_template};
ghost use Rattle.term_store.specs.TemplateView.{the_clause, the_template};

use crate::cell::{Ref, Variables};
use crate::clause::{CellAtomList, CopiedClause, PatternAtom, Prefix, SortList, Template};
use crate::store::{PLACES, Store};
use cop_base::NoMemory;

impl Store {
    // Makes room for so many variables and one cell more, so that the places of the variables and their
    // end have 32 bits. The place of the first one.
    fn reserve_variables(&mut self, count: usize) -> Result<u32, NoMemory>
        ensures place { IfOk result (λ n. n ≡ length self.old.store.cells) }
        ensures fits { OnOk result (length self.old.store.cells + count < 4294967296) }
        ensures spare { OnOk result (count ≤ spare self.new) }
        ensures store { self.new.store ≡ self.old.store }
        ensures room { KeepsRoom self.old self.new }
    {
        if count >= PLACES {
            return Err(NoMemory);
        }
        self.reserve(count + 1)?;
        Ok(self.cells.len() as u32)
    }

    /// New variables of these sorts, which are the first new cells.
    pub fn new_variables(&mut self, sorts: &SortList) -> Result<Variables, NoMemory>
        ensures places { IfOk result (λ v. the_places v ≡ places_from (length self.old.store.cells) (length sorts.now)) }
        ensures ok { OnOk result (self.new.store ≡ with_variables_of sorts.now self.old.store) }
        ensures err { OnErr result (self.new.store ≡ self.old.store) }
        ensures marks { KeepsMarks self.old.store self.new.store }
        ensures room { KeepsRoom self.old self.new }
    {
        let count = sorts.items().len();
        let first = self.reserve_variables(count)?;
        for sort in sorts.items() {
            let _variable = self.fresh(*sort);
        }
        Ok(Variables {
            first: Ref(first),
            end: Ref(first + count as u32),
        })
    }

    // The clause with the literals `front` and `back`, over variables that are there.
    fn add_clause(
        &mut self,
        t: &Template,
        front: &[PatternAtom],
        back: &[PatternAtom],
        variables: Variables,
    ) -> Result<CopiedClause, NoMemory>
        requires template { IsTrue (template_fits (the_template t.now)) }
        requires front { IsTrue (list_all (atom_fits t.now.sorts) (map the_pattern_atom front.now)) }
        requires back { IsTrue (list_all (atom_fits t.now.sorts) (map the_pattern_atom back.now)) }
        requires variables { HaveSortsAt self.old.store t.now.sorts (the_places variables) }
        ensures copy { IfOk result (λ c. IsClauseCopy self.new.store (the_places variables) (with_literals (map the_pattern_atom front.now ++ map the_pattern_atom back.now) (the_template t.now)) (the_clause c)) }
        ensures sorts { IfOk result (λ c. IsTrue (clause_fits self.new.store (the_clause c))) }
        ensures variables { IfOk result (λ c. c.variables ≡ variables) }
        ensures own { IfOk result (λ c. NamesOver (the_places variables) (length self.old.store.cells) (λ base. clause_is_from base (the_clause c))) }
        ensures adds { AddsOver (the_places variables) self.old.store self.new.store }
        ensures within { OnOk result (BuildsWithin (λ g. allows_template g (with_literals (map the_pattern_atom front.now ++ map the_pattern_atom back.now) (the_template t.now))) self.old.store self.new.store) }
        ensures room { KeepsRoom self.old self.new }
    {
        let mut places = Vec::new(self.alloc);
        let count = front.len() + back.len();
        let mut literals = self.empty_atoms(count)?;
        self.copy_atoms(front, variables, &mut places, &mut literals)?;
        self.copy_atoms(back, variables, &mut places, &mut literals)?;
        let strings = self.copy_refs(&t.strings, variables, &mut places)?;
        let gammas = self.copy_gammas(&t.gammas, variables, &mut places)?;
        Ok(CopiedClause {
            variables,
            literals,
            strings,
            pis: t.pis,
            gammas,
        })
    }

    // As `copy_clause`. Want of memory leaves some cells behind.
    fn add_whole(&mut self, t: &Template) -> Result<CopiedClause, NoMemory>
        requires { IsTrue (template_fits (the_template t.now)) }
        ensures copy { IfOk result (λ c. IsClauseCopy self.new.store (places_from (length self.old.store.cells) (length t.now.sorts)) (the_template t.now) (the_clause c)) }
        ensures sorts { IfOk result (λ c. IsTrue (clause_fits self.new.store (the_clause c))) }
        ensures variables { IfOk result (λ c. the_places c.variables ≡ places_from (length self.old.store.cells) (length t.now.sorts)) }
        ensures own { IfOk result (λ c. IsTrue (clause_is_from (length self.old.store.cells) (the_clause c))) }
        ensures names { OnOk result (NamesFrom (length self.old.store.cells) self.new.store) }
        ensures built { OnOk result (AddsBuilt (with_variables_of t.now.sorts self.old.store) self.new.store) }
        ensures within { OnOk result (BuildsWithin (λ g. list_all g.sorts t.now.sorts && allows_template g (the_template t.now)) self.old.store self.new.store) }
        ensures marks { KeepsMarks self.old.store self.new.store }
        ensures room { KeepsRoom self.old self.new }
    {
        let variables = self.new_variables(&t.sorts)?;
        let copied = self.add_clause(t, t.literals.items(), &[], variables)?;
        Ok(copied)
    }

    /// The template's clause with new variables, which are the first new cells.
    pub fn copy_clause(&mut self, t: &Template) -> Result<CopiedClause, NoMemory>
        requires { IsTrue (template_fits (the_template t.now)) }
        ensures copy { IfOk result (λ c. IsClauseCopy self.new.store (places_from (length self.old.store.cells) (length t.now.sorts)) (the_template t.now) (the_clause c)) }
        ensures sorts { IfOk result (λ c. IsTrue (clause_fits self.new.store (the_clause c))) }
        ensures variables { IfOk result (λ c. the_places c.variables ≡ places_from (length self.old.store.cells) (length t.now.sorts)) }
        ensures own { IfOk result (λ c. IsTrue (clause_is_from (length self.old.store.cells) (the_clause c))) }
        ensures names { OnOk result (NamesFrom (length self.old.store.cells) self.new.store) }
        ensures built { OnOk result (AddsBuilt (with_variables_of t.now.sorts self.old.store) self.new.store) }
        ensures within { OnOk result (BuildsWithin (λ g. list_all g.sorts t.now.sorts && allows_template g (the_template t.now)) self.old.store self.new.store) }
        ensures err { OnErr result (self.new.store ≡ self.old.store) }
        ensures marks { KeepsMarks self.old.store self.new.store }
        ensures room { KeepsRoom self.old self.new }
    {
        let start = self.mark();
        match self.add_whole(t) {
            Ok(clause) => Ok(clause),
            Err(NoMemory) => {
                self.undo(start);
                Err(NoMemory)
            }
        }
    }

    /// The label of the literal at this place, over variables that are in the store. Want of memory leaves some cells
    /// behind.
    pub fn copy_label(
        &mut self,
        t: &Template,
        variables: Variables,
        place: usize,
    ) -> Result<Prefix, NoMemory>
        requires template { IsTrue (template_fits (the_template t.now)) }
        requires variables { HaveSortsAt self.old.store t.now.sorts (the_places variables) }
        requires place { place < length t.now.literals }
        ensures copy { IfOk result (λ label. (a : TreeAtom) × (slice_get t.now.literals place ≡ Some a) × AreCopies self.new.store (the_places variables) (patterns_tree a.label) label) }
        ensures sorts { IfOk result (λ label. IsTrue (is_label self.new.store label)) }
        ensures own { IfOk result (λ label. NamesOver (the_places variables) (length self.old.store.cells) (λ base. list_all (nat_le base) label)) }
        ensures adds { AddsOver (the_places variables) self.old.store self.new.store }
        ensures within { OnOk result ((a : TreeAtom) → slice_get t.now.literals place ≡ Some a → BuildsWithin (λ g. allows_all g t.now.sorts (patterns_tree a.label)) self.old.store self.new.store) }
        ensures room { KeepsRoom self.old self.new }
    {
        let mut places = Vec::new(self.alloc);
        let label = self.copy_refs(&t.literals.items()[place].label, variables, &mut places)?;
        Ok(label)
    }

    // As `copy_rest`. Want of memory leaves some cells behind.
    fn add_rest(
        &mut self,
        t: &Template,
        variables: Variables,
        place: usize,
    ) -> Result<CopiedClause, NoMemory>
        requires template { IsTrue (template_fits (the_template t.now)) }
        requires variables { HaveSortsAt self.old.store t.now.sorts (the_places variables) }
        requires place { place < length t.now.literals }
        ensures copy { IfOk result (λ c. IsClauseCopy self.new.store (the_places variables) (without_literal place (the_template t.now)) (the_clause c)) }
        ensures sorts { IfOk result (λ c. IsTrue (clause_fits self.new.store (the_clause c))) }
        ensures variables { IfOk result (λ c. c.variables ≡ variables) }
        ensures own { IfOk result (λ c. NamesOver (the_places variables) (length self.old.store.cells) (λ base. clause_is_from base (the_clause c))) }
        ensures adds { AddsOver (the_places variables) self.old.store self.new.store }
        ensures within { OnOk result (BuildsWithin (λ g. allows_template g (without_literal place (the_template t.now))) self.old.store self.new.store) }
        ensures room { KeepsRoom self.old self.new }
    {
        let literals = t.literals.items();
        let copied = self.add_clause(t, &literals[..place], &literals[place + 1..], variables)?;
        Ok(copied)
    }

    /// The template's clause without the literal at this place, over variables that are in the store.
    pub fn copy_rest(
        &mut self,
        t: &Template,
        variables: Variables,
        place: usize,
    ) -> Result<CopiedClause, NoMemory>
        requires template { IsTrue (template_fits (the_template t.now)) }
        requires variables { HaveSortsAt self.old.store t.now.sorts (the_places variables) }
        requires place { place < length t.now.literals }
        ensures copy { IfOk result (λ c. IsClauseCopy self.new.store (the_places variables) (without_literal place (the_template t.now)) (the_clause c)) }
        ensures sorts { IfOk result (λ c. IsTrue (clause_fits self.new.store (the_clause c))) }
        ensures variables { IfOk result (λ c. c.variables ≡ variables) }
        ensures own { IfOk result (λ c. NamesOver (the_places variables) (length self.old.store.cells) (λ base. clause_is_from base (the_clause c))) }
        ensures adds { AddsOver (the_places variables) self.old.store self.new.store }
        ensures within { OnOk result (BuildsWithin (λ g. allows_template g (without_literal place (the_template t.now))) self.old.store self.new.store) }
        ensures err { OnErr result (self.new.store ≡ self.old.store) }
        ensures marks { KeepsMarks self.old.store self.new.store }
        ensures room { KeepsRoom self.old self.new }
    {
        let start = self.mark();
        match self.add_rest(t, variables, place) {
            Ok(clause) => Ok(clause),
            Err(NoMemory) => {
                self.undo(start);
                Err(NoMemory)
            }
        }
    }
}
