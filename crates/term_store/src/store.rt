//! The store.

ghost use Rattle.std.specs.Prelude.{◌≡◌, ◌≤◌, ◌<◌, ◌+◌, ◌++◌, ◌∷◌, [], false, IsOkAnd, MatchOption, OnOk, length, slice_get, ℕ};
ghost use Rattle.store_theory.specs.Bindings.{EndsIn, IsEnd, IsWellFormed, KeepsEarlier, KeepsMarks, MayBind, with_binding, with_cell};
ghost use Rattle.store_theory.specs.Stores.{Cell, EndsAt, HasNoCycle, IsGood, Store as TreeStore, cut_at, is_bound, parts_of, variable};
ghost use Rattle.term_store.specs.Room.{KeepsRoom, spare};
ghost use Rattle.term_store.specs.Shown.{Shows, head_of};
ghost use Rattle.term_store.specs.StoreView.{part_count, the_mark};

use crate::cell::{Content, End, Head, Ref, Slot, TrailMark};
use crate::free_lists::FreeLists;
use crate::slots::{bind_slot, cut, unbind};
use calculus::sort::Sort;
use cop_base::NoMemory;
use cop_cells::Cells;
use std::alloc::Global;
use std::marker::Model;

// How many cells a store can have: a place has 32 bits.
pub(crate) const PLACES: usize = 4294967296;

// What a cell with this content is bound to, if it is bound.
fn target(content: Content) -> Option<Ref>
    ensures { MatchOption result ((s : TreeStore) (v : ℕ) → Shows s v content → IsEnd s v)
        (λ to. (s : TreeStore) (v : ℕ) → Shows s v content
        → (sort : Sort) × (slice_get s.cells v ≡ Some (variable sort (Some to.0)))) }
{
    match content {
        Content::Bound(_, to) => Some(to),
        Content::Open(_) => None,
        Content::Fun(_, _) => None,
        Content::Eigen(_, _) => None,
        Content::New(_, _) => None,
        Content::Marks(_) => None,
    }
}

// How many parts a cell with this content has.
fn count_in(content: Content) -> u32
    ensures { result ≡ part_count content }
{
    match content {
        Content::Open(_) => 0,
        Content::Bound(_, _) => 0,
        Content::Fun(_, parts) => parts,
        Content::Eigen(_, parts) => parts,
        Content::New(_, parts) => parts,
        Content::Marks(parts) => parts,
    }
}

/// Cells with bindings. The trail names the bound cells in the order of binding, so that they can be unbound again.
/// `fresh` and `bind` need no memory while there is spare room.
#[derive(Drop)]
pub struct Store {
    pub(crate) alloc: Global,
    pub(crate) cells: Cells<Slot>,
    // The parts of the built cells, cell by cell.
    pub(crate) parts: Vec<u32>,
    pub(crate) trail: Cells<u32>,
    pub(crate) free: FreeLists,
}

impl Model for Store {
    ghost use Rattle.std.specs.Prelude.{◌+◌, length, min};
    ghost use Rattle.term_store.specs.Room.{TermStore};

    ghost Value = { TermStore };

    ghost use Rattle.term_store.specs.StoreView.{IsWell, the_store};

    ghost view = { λ s. record {
      store = the_store s.cells.list s.parts.items s.trail.list;
      cell_room = min (length s.cells.list + s.cells.spare) 4294967296;
      trail_room = length s.trail.list + s.trail.spare;
    } };

    ghost invariant = { λ s. IsWell s.cells.list s.parts.items s.trail.list };
}

impl Store {
    /// An empty store.
    pub fn new(alloc: Global) -> Result<Store, NoMemory>
        ensures { IsOkAnd result (λ s. s.store ≡ record { cells = []; trail = [] }) }
    {
        Ok(Store {
            alloc,
            cells: Cells::new(alloc),
            parts: Vec::new(alloc),
            trail: Cells::new(alloc),
            free: FreeLists::new(alloc),
        })
    }

    /// How many calls of `fresh` and `bind` need no memory.
    pub fn spare(&self) -> usize
        ensures { result ≡ spare self.now }
    {
        let cells = self.cells.spare().min(PLACES - self.cells.len());
        cells.min(self.trail.spare())
    }

    /// How many cells there are.
    pub fn count(&self) -> usize
        ensures count { result ≡ length self.now.store.cells }
        ensures places { length self.now.store.cells ≤ 4294967296 }
        ensures no_cycle { HasNoCycle self.now.store }
        ensures well { IsWellFormed self.now.store }
    {
        self.cells.len()
    }

    /// How many cells there are, with those that are spare.
    pub fn size(&self) -> usize
        ensures size { result ≡ length self.now.store.cells + spare self.now }
        ensures no_cycle { HasNoCycle self.now.store }
        ensures well { IsWellFormed self.now.store }
    {
        self.cells.len() + self.spare()
    }

    /// Makes room for so many calls of `fresh` and `bind`.
    pub fn reserve(&mut self, n: usize) -> Result<(), NoMemory>
        ensures ok { OnOk result (n ≤ spare self.new) }
        ensures store { self.new.store ≡ self.old.store }
        ensures room { KeepsRoom self.old self.new }
    {
        if n > PLACES - self.cells.len() {
            return Err(NoMemory);
        }
        self.cells.reserve(n)?;
        self.trail.reserve(n)?;
        Ok(())
    }

    /// A new variable.
    pub fn fresh(&mut self, sort: Sort) -> Ref
        requires { 0 < spare self.old }
        ensures place { result.0 ≡ length self.old.store.cells }
        ensures store { self.new.store ≡ with_cell (variable sort None) self.old.store }
        ensures room { KeepsRoom self.old self.new }
        ensures marks { KeepsMarks self.old.store self.new.store }
        ensures well { IsWellFormed self.new.store }
    {
        let place = self.cells.len() as u32;
        let start = self.parts.len() as u32;
        self.cells.push(Slot {
            content: Content::Open(sort),
            start,
        });
        Ref(place)
    }
}

impl Store {
    /// Binds the unbound variable.
    pub fn bind(&mut self, v: Ref, to: Ref)
        requires spare { 0 < spare self.old }
        requires may { MayBind self.old.store v.0 to.0 }
        ensures store { self.new.store ≡ with_binding v.0 to.0 self.old.store }
        ensures room { KeepsRoom self.old self.new }
        ensures marks { KeepsMarks self.old.store self.new.store }
        ensures well { IsWellFormed self.new.store }
    {
        bind_slot(&mut self.cells, v.0 as usize, to);
        self.trail.push(v.0);
    }

    /// This moment.
    pub fn mark(&self) -> TrailMark
        ensures good { IsGood (the_mark result) self.now.store }
        ensures whole { cut_at (the_mark result) self.now.store ≡ self.now.store }
        ensures well { IsWellFormed self.now.store }
    {
        TrailMark {
            cells: self.cells.len(),
            entries: self.trail.len(),
        }
    }

    /// Back to the moment: the bindings since then are taken back, and the cells since then are gone.
    pub fn undo(&mut self, m: TrailMark)
        requires { IsGood (the_mark m) self.old.store }
        ensures store { self.new.store ≡ cut_at (the_mark m) self.old.store }
        ensures room { KeepsRoom self.old self.new }
        ensures spare { spare self.old ≤ spare self.new }
        ensures marks { KeepsEarlier (the_mark m) self.old.store self.new.store }
        ensures well { IsWellFormed self.new.store }
    {
        unbind(&mut self.cells, &mut self.trail, m.entries);
        cut(&mut self.cells, &mut self.parts, m.cells);
    }

    // What the cell holds.
    fn content(&self, r: Ref) -> Content
        requires { r.0 < length self.now.store.cells }
        ensures shows { Shows self.now.store r.0 result }
        ensures well { IsWellFormed self.now.store }
    {
        self.cells.get(r.0 as usize).content
    }

    /// The cell at which the bindings of this one end, and what it holds, by one look at each cell on
    /// the way.
    pub fn end(&self, r: Ref) -> End
        requires { r.0 < length self.now.store.cells }
        ensures ends { EndsAt self.now.store r.0 result.place.0 }
        ensures shows { Shows self.now.store result.place.0 result.content }
        ensures within { result.place.0 < length self.now.store.cells }
        ensures well { IsWellFormed self.now.store }
    {
        let mut place = r;
        let mut content = self.content(r);
        while let Some(to) = target(content) {
            place = to;
            content = self.content(to);
        }
        End { place, content }
    }

    /// What the cell itself is bound to, if it is bound.
    pub fn binding(&self, r: Ref) -> Option<Ref>
        requires { r.0 < length self.now.store.cells }
        ensures binding { MatchOption result (IsEnd self.now.store r.0) (λ to. (sort : Sort)
            × (slice_get self.now.store.cells r.0 ≡ Some (variable sort (Some to.0)))) }
        ensures well { IsWellFormed self.now.store }
    {
        target(self.content(r))
    }

    /// The cell at which the bindings of this one end.
    pub fn walk(&self, r: Ref) -> Ref
        requires { r.0 < length self.now.store.cells }
        ensures ends { EndsAt self.now.store r.0 result.0 }
        ensures within { result.0 < length self.now.store.cells }
        ensures well { IsWellFormed self.now.store }
    {
        self.end(r).place
    }

    /// What stands at the end of the bindings.
    pub fn head(&self, r: Ref) -> Head
        requires { r.0 < length self.now.store.cells }
        ensures { EndsIn self.now.store r.0 (λ c. head_of c ≡ result) }
    {
        match self.end(r).content {
            Content::Open(sort) => Head::Open(sort),
            Content::Bound(sort, _) => Head::Open(sort),
            Content::Fun(f, _) => Head::Fun(f),
            Content::Eigen(p, _) => Head::Eigen(p),
            Content::New(p, _) => Head::New(p),
            Content::Marks(_) => Head::Marks,
        }
    }

    /// How many parts there are at the end of the bindings.
    pub fn parts(&self, r: Ref) -> u32
        requires { r.0 < length self.now.store.cells }
        ensures count { EndsIn self.now.store r.0 (λ c. result ≡ length (parts_of c)) }
        ensures well { IsWellFormed self.now.store }
    {
        match self.end(r).content {
            Content::Open(_) => 0,
            Content::Bound(_, _) => 0,
            Content::Fun(_, parts) => parts,
            Content::Eigen(_, parts) => parts,
            Content::New(_, parts) => parts,
            Content::Marks(parts) => parts,
        }
    }

    /// The parts of a cell at which bindings end, by their places.
    pub fn parts_at(&self, end: Ref) -> &[u32]
        requires { IsEnd self.now.store end.0 }
        ensures parts { EndsIn self.now.store end.0 (λ c. result.now ≡ parts_of c) }
        ensures well { IsWellFormed self.now.store }
    {
        let slot = self.cells.get(end.0 as usize);
        let start = slot.start as usize;
        &self.parts[start..start + count_in(slot.content) as usize]
    }

    // The part of this number of a built cell.
    fn part_at(&self, end: Ref, i: u32) -> Ref
        requires { (c : Cell) × (slice_get self.now.store.cells end.0 ≡ Some c) × (is_bound c ≡ false) × (i < length (parts_of c)) }
        ensures part { (c : Cell) × (slice_get self.now.store.cells end.0 ≡ Some c) × (slice_get (parts_of c) i ≡ Some result.0) }
        ensures within { result.0 < length self.now.store.cells }
    {
        let start = self.cells.get(end.0 as usize).start as usize;
        Ref(self.parts[start + i as usize])
    }

    /// The part of this number, from 0, at the end of the bindings.
    pub fn part(&self, r: Ref, i: u32) -> Ref
        requires { EndsIn self.now.store r.0 (λ c. i < length (parts_of c)) }
        ensures part { EndsIn self.now.store r.0 (λ c. slice_get (parts_of c) i ≡ Some result.0) }
        ensures within { result.0 < length self.now.store.cells }
    {
        self.part_at(self.walk(r), i)
    }
}
