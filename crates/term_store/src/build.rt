//! Cells that are built of others.

ghost use Rattle.std.specs.Prelude.{◌≡◌, ◌≤◌, ◌<◌, ◌+◌, ◌++◌, ◌∷◌, [], IfOk, IsTrue, OnErr, OnOk, length, map, replicate};
ghost use Rattle.calculus.specs.declared.sort.Sort.TheVariants.{MarkSort};
ghost use Rattle.store_theory.specs.Bindings.{AddsBuilt, AddsOver, IsWellFormed, KeepsMarks, places_from, with_cell, with_variables_of};
ghost use Rattle.store_theory.specs.Stores.{Store, new_cell, parts_fit, string_cell};
ghost use Rattle.term_store.specs.Built.{named_cell, named_content};
ghost use Rattle.term_store.specs.RefView.{the_place};
ghost use Rattle.term_store.specs.Room.{KeepsRoom};

use crate::cell::{Content, Name, Ref, Slot};
use crate::store::Store;
use calculus::sort::Sort;
use cop_base::{NoMemory, PosId};

// How many parts all cells can have: a place has 32 bits.
const PART_PLACES: usize = 4294967295;

fn content_of(name: Name, parts: u32) -> Content
    ensures { result ≡ named_content name parts }
{
    match name {
        Name::Fun(f) => Content::Fun(f, parts),
        Name::Eigen(p) => Content::Eigen(p, parts),
        Name::New(p) => Content::New(p, parts),
        Name::Marks => Content::Marks(parts),
    }
}

impl Store {
    // A built cell with these parts. Want of memory leaves the store as it was.
    pub(crate) fn build(&mut self, name: Name, parts: &[u32]) -> Result<Ref, NoMemory>
        requires { IsTrue (parts_fit self.old.store (named_cell name parts.now)) }
        ensures place { IfOk result (λ r. r.0 ≡ length self.old.store.cells) }
        ensures ok { OnOk result (self.new.store ≡ with_cell (named_cell name parts.now) self.old.store) }
        ensures err { OnErr result (self.new.store ≡ self.old.store) }
        ensures adds { AddsOver parts.now self.old.store self.new.store }
        ensures room { KeepsRoom self.old self.new }
    {
        self.reserve(1)?;
        if parts.len() > PART_PLACES - self.parts.len() {
            return Err(NoMemory);
        }
        let content = content_of(name, parts.len() as u32);
        let start = self.parts.len() as u32;
        self.parts.extend_from_slice(parts)?;
        let place = self.cells.len() as u32;
        self.cells.push(Slot { content, start });
        Ok(Ref(place))
    }

    /// A mark of the position by these values: terms and strings.
    pub fn new_mark(&mut self, p: PosId, values: &[Ref]) -> Result<Ref, NoMemory>
        requires { IsTrue (parts_fit self.old.store (new_cell p.0 (map the_place values.now))) }
        ensures place { IfOk result (λ r. r.0 ≡ length self.old.store.cells) }
        ensures ok { OnOk result (self.new.store
            ≡ with_cell (new_cell p.0 (map the_place values.now)) self.old.store) }
        ensures err { OnErr result (self.new.store ≡ self.old.store) }
        ensures adds { AddsBuilt self.old.store self.new.store }
        ensures room { KeepsRoom self.old self.new }
    {
        let mut parts = Vec::new(self.alloc);
        for value in values {
            parts.push(value.0)?;
        }
        let mark = self.build(Name::New(p), &parts)?;
        Ok(mark)
    }

    // As `marks`. Want of memory leaves some cells behind.
    fn add_marks(&mut self, n: u32) -> Result<Ref, NoMemory>
        ensures place { IfOk result (λ r. r.0 ≡ length self.old.store.cells + n) }
        ensures ok { OnOk result (self.new.store ≡ with_cell (string_cell (places_from (length self.old.store.cells) n)) (with_variables_of (replicate n MarkSort) self.old.store)) }
        ensures marks { KeepsMarks self.old.store self.new.store }
        ensures room { KeepsRoom self.old self.new }
    {
        let mut variables = Vec::new(self.alloc);
        for _i in 0..n {
            self.reserve(1)?;
            variables.push(self.fresh(Sort::MarkSort).0)?;
        }
        let string = self.build(Name::Marks, &variables)?;
        Ok(string)
    }

    /// A built string of so many new mark variables.
    pub fn marks(&mut self, n: u32) -> Result<Ref, NoMemory>
        ensures place { IfOk result (λ r. r.0 ≡ length self.old.store.cells + n) }
        ensures ok { OnOk result (self.new.store ≡ with_cell (string_cell (places_from (length self.old.store.cells) n)) (with_variables_of (replicate n MarkSort) self.old.store)) }
        ensures err { OnErr result (self.new.store ≡ self.old.store) }
        ensures marks { KeepsMarks self.old.store self.new.store }
        ensures room { KeepsRoom self.old self.new }
    {
        let start = self.mark();
        match self.add_marks(n) {
            Ok(string) => Ok(string),
            Err(NoMemory) => {
                self.undo(start);
                Err(NoMemory)
            }
        }
    }
}
