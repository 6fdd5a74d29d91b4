//! Lists that were used and are free, so that the next clause needs no new memory.

ghost use Rattle.std.specs.Prelude.{◌≡◌, [], IfOk};

use crate::cell::Ref;
use crate::clause::{CellAtom, CellAtomList, GammaList, GammaUse, RefList};
use cop_base::NoMemory;
use std::alloc::Global;

// Vectors that are free, with a place for each that was made.
#[derive(Drop)]
struct FreeVecs<T> {
    vecs: Vec<Vec<T>>,
    made: usize,
}

impl<T: Drop> FreeVecs<T> {
    fn new(alloc: Global) -> FreeVecs<T> {
        FreeVecs {
            vecs: Vec::new(alloc),
            made: 0,
        }
    }

    // An empty vector with room for so many items.
    #[inline(always)]
    fn take(&mut self, alloc: Global, count: usize) -> Result<Vec<T>, NoMemory>
        ensures { IfOk result (λ v. v.items ≡ []) }
    {
        if count == 0 {
            return Ok(Vec::new(alloc));
        }
        match self.vecs.pop() {
            Some(items) => emptied(items, count),
            None => self.make(alloc, count),
        }
    }

    #[cold]
    #[inline(never)]
    fn make(&mut self, alloc: Global, count: usize) -> Result<Vec<T>, NoMemory>
        ensures { IfOk result (λ v. v.items ≡ []) }
    {
        self.made = self.made.saturating_add(1);
        self.vecs.reserve(self.made)?;
        let items = Vec::with_capacity(alloc, count)?;
        Ok(items)
    }

    // Keeps the vector, where it has a place.
    #[inline(always)]
    fn give(&mut self, items: Vec<T>) {
        if self.vecs.len() < self.vecs.capacity() {
            let _kept = self.vecs.push(items);
        }
    }
}

// The vector without its items, with room for so many.
#[inline(always)]
fn emptied<T: Drop>(items: Vec<T>, count: usize) -> Result<Vec<T>, NoMemory>
    ensures { IfOk result (λ v. v.items ≡ []) }
{
    let mut emptied = items;
    emptied.clear();
    if emptied.capacity() < count {
        return grown(emptied, count);
    }
    Ok(emptied)
}

#[cold]
#[inline(never)]
fn grown<T: Drop>(items: Vec<T>, count: usize) -> Result<Vec<T>, NoMemory>
    ensures { IfOk result (λ v. v.items ≡ items.items) }
{
    let mut grown = items;
    grown.reserve(count)?;
    Ok(grown)
}

/// The lists of clauses and atoms that were given back.
#[derive(Drop)]
pub(crate) struct FreeLists {
    refs: FreeVecs<Ref>,
    atoms: FreeVecs<CellAtom>,
    gammas: FreeVecs<GammaUse>,
}

impl FreeLists {
    pub fn new(alloc: Global) -> FreeLists {
        FreeLists {
            refs: FreeVecs::new(alloc),
            atoms: FreeVecs::new(alloc),
            gammas: FreeVecs::new(alloc),
        }
    }

    /// An empty list with room for so many references.
    #[inline(always)]
    pub fn refs(&mut self, alloc: Global, count: usize) -> Result<RefList, NoMemory>
        ensures { IfOk result (λ list. list ≡ []) }
    {
        let items = self.refs.take(alloc, count)?;
        Ok(RefList { items })
    }

    /// An empty list with room for so many atoms.
    #[inline(always)]
    pub fn atoms(&mut self, alloc: Global, count: usize) -> Result<CellAtomList, NoMemory>
        ensures { IfOk result (λ list. list ≡ []) }
    {
        let items = self.atoms.take(alloc, count)?;
        Ok(CellAtomList { items })
    }

    /// An empty list with room for so many gamma terms.
    #[inline(always)]
    pub fn gammas(&mut self, alloc: Global, count: usize) -> Result<GammaList, NoMemory>
        ensures { IfOk result (λ list. list ≡ []) }
    {
        let items = self.gammas.take(alloc, count)?;
        Ok(GammaList { items })
    }

    #[inline(always)]
    pub fn give_refs(&mut self, list: RefList) {
        if !list.items.is_empty() {
            self.refs.give(list.items);
        }
    }

    #[inline(always)]
    pub fn give_atom(&mut self, atom: CellAtom) {
        self.give_refs(atom.args);
        self.give_refs(atom.label);
    }

    pub fn give_atoms(&mut self, list: CellAtomList) {
        let mut atoms = list.items;
        if !atoms.is_empty() {
            while let Some(atom) = atoms.pop() {
                self.give_atom(atom);
            }
            self.atoms.give(atoms);
        }
    }

    pub fn give_gammas(&mut self, list: GammaList) {
        let mut gammas = list.items;
        if !gammas.is_empty() {
            while let Some(gamma) = gammas.pop() {
                self.give_refs(gamma.label);
            }
            self.gammas.give(gammas);
        }
    }
}
