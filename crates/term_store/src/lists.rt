//! The lists of a store: new ones, and those that are given back.

ghost use Rattle.std.specs.Prelude.{◌≡◌, [], IfOk, map};
ghost use Rattle.term_store.specs.RefView.{the_place};

use crate::cell::Ref;
use crate::clause::{CellAtom, CellAtomList, CopiedClause, GammaList, RefList};
use crate::store::Store;
use cop_base::NoMemory;

impl Store {
    // An empty list with room for so many references.
    pub(crate) fn empty_refs(&mut self, count: usize) -> Result<RefList, NoMemory>
        ensures none { IfOk result (λ list. list ≡ []) }
        ensures same { self.new ≡ self.old }
    {
        self.free.refs(self.alloc, count)
    }

    // An empty list with room for so many atoms.
    pub(crate) fn empty_atoms(&mut self, count: usize) -> Result<CellAtomList, NoMemory>
        ensures none { IfOk result (λ list. list ≡ []) }
        ensures same { self.new ≡ self.old }
    {
        self.free.atoms(self.alloc, count)
    }

    // An empty list with room for so many gamma terms.
    pub(crate) fn empty_gammas(&mut self, count: usize) -> Result<GammaList, NoMemory>
        ensures none { IfOk result (λ list. list ≡ []) }
        ensures same { self.new ≡ self.old }
    {
        self.free.gammas(self.alloc, count)
    }

    /// The references, as a list of their own.
    pub fn list_of(&mut self, refs: &[Ref]) -> Result<RefList, NoMemory>
        ensures copied { IfOk result (λ copied. copied ≡ map the_place refs.now) }
        ensures same { self.new ≡ self.old }
    {
        let mut copied = self.empty_refs(refs.len())?;
        for item in refs {
            let reference = *item;
            copied.push(reference)?;
        }
        Ok(copied)
    }

    /// Takes the lists of an atom that is needed no more, for later clauses.
    pub fn free_atom(&mut self, atom: CellAtom)
        ensures { self.new ≡ self.old }
    {
        self.free.give_atom(atom);
    }

    /// Takes the lists of a clause that is needed no more, for later ones.
    pub fn free_clause(&mut self, clause: CopiedClause)
        ensures { self.new ≡ self.old }
    {
        self.free.give_atoms(clause.literals);
        self.free.give_refs(clause.strings);
        self.free.give_gammas(clause.gammas);
    }
}
