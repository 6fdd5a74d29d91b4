//! The list over its pages.

ghost use Rattle.std.specs.Prelude.{◌≡◌, ◌≤◌, ◌<◌, ◌+◌, ◌*◌, ◌^◌, ◌++◌, ◌∷◌, [], IfOk, IsOk, OnErr, OnOk, length, slice_get, slice_set, take};

use crate::pages::{PAGE_CELLS, Pages};
use cop_base::NoMemory;
use std::alloc::Global;
use std::marker::Model;

// How many pages there can be, so that all cells have a number.
const MOST_PAGES: usize = usize::MAX / 4096;

/// A list, and room for `spare` more items. Only `reserve` takes memory.
#[derive(Drop)]
pub struct Cells<T: Copy> {
    // Cells past `len` hold items that were cut off.
    pages: Pages<T>,
    len: usize,
}

impl<T: Copy> Model for Cells<T> {
    ghost use Rattle.cop_cells.specs.Reserved.{Reserved, reserved_code};

    ghost Value = { Reserved T };

    ghost coded = { reserved_code T.code };

    ghost use Rattle.cop_cells.specs.Pages.{AreCells, listed, unused};

    ghost view = { λ c. record {
      list = listed c.len c.pages;
      spare = unused c.len c.pages;
    } };

    ghost invariant = { λ c. AreCells c.len c.pages };
}

// How many pages to add where so many are held and `count` are wanted: as many as are held, so that blocks stay few.
fn most_pages(held: usize, count: usize) -> usize
    requires { held + count ≤ MOST_PAGES }
    ensures { (count ≤ result) × (held + result ≤ MOST_PAGES) }
{
    if count < held && held <= MOST_PAGES - held {
        held
    } else {
        count
    }
}

impl<T: Copy> Cells<T> {
    /// No items, and no room.
    pub fn new(alloc: Global) -> Cells<T>
        ensures list { result.list ≡ [] }
        ensures spare { result.spare ≡ 0 }
    {
        Cells {
            pages: Pages::new(alloc),
            len: 0,
        }
    }

    /// How many items the list has.
    pub fn len(&self) -> usize
        ensures value { result ≡ length self.now.list }
        ensures fits { length self.now.list + self.now.spare < 2 ^ 64 }
    {
        self.len
    }

    /// How many items can be pushed before the next `reserve`.
    pub fn spare(&self) -> usize
        ensures value { result ≡ self.now.spare }
        ensures fits { length self.now.list + self.now.spare < 2 ^ 64 }
    {
        self.pages.count() * PAGE_CELLS - self.len
    }

    /// Makes room for so many more items. Where there is no memory nothing changes.
    pub fn reserve(&mut self, n: usize) -> Result<(), NoMemory>
        ensures list { self.new.list ≡ self.old.list }
        ensures ok { OnOk result (n ≤ self.new.spare) }
        ensures kept { self.old.spare ≤ self.new.spare }
        ensures err { OnErr result (self.new.spare ≡ self.old.spare) }
        ensures enough { n ≤ self.old.spare → IsOk result }
        ensures enough_same { n ≤ self.old.spare → self.new.spare ≡ self.old.spare }
    {
        let spare = self.spare();
        if n <= spare {
            return Ok(());
        }
        self.add_room(n - spare)
    }

    // The part that asks for memory, apart so that the test is inlined.
    #[cold]
    #[inline(never)]
    fn add_room(&mut self, more: usize) -> Result<(), NoMemory>
        requires { 0 < more }
        ensures list { self.new.list ≡ self.old.list }
        ensures ok { OnOk result (self.old.spare + more ≤ self.new.spare) }
        ensures kept { self.old.spare ≤ self.new.spare }
        ensures err { OnErr result (self.new.spare ≡ self.old.spare) }
    {
        let count = (more - 1) / PAGE_CELLS + 1;
        let held = self.pages.count();
        if count > MOST_PAGES - held {
            return Err(NoMemory);
        }
        self.add_either(most_pages(held, count), count)?;
        Ok(())
    }

    // The larger number of pages, or the smaller one where there is no memory for that.
    fn add_either(&mut self, most: usize, least: usize) -> Result<(), NoMemory>
        requires some { 0 < least }
        requires order { least ≤ most }
        requires fits { length self.old.list + self.old.spare + most * 4096 < 2 ^ 64 }
        ensures list { self.new.list ≡ self.old.list }
        ensures ok { OnOk result (self.old.spare + least * 4096 ≤ self.new.spare) }
        ensures kept { self.old.spare ≤ self.new.spare }
        ensures err { OnErr result (self.new.spare ≡ self.old.spare) }
    {
        match self.add_pages(most) {
            Ok(()) => Ok(()),
            Err(_) => {
                self.add_pages(least)?;
                Ok(())
            }
        }
    }

    // So many pages more, in one block.
    fn add_pages(&mut self, count: usize) -> Result<(), NoMemory>
        requires some { 0 < count }
        requires fits { length self.old.list + self.old.spare + count * 4096 < 2 ^ 64 }
        ensures list { self.new.list ≡ self.old.list }
        ensures ok { OnOk result (self.new.spare ≡ self.old.spare + count * 4096) }
        ensures err { OnErr result (self.new.spare ≡ self.old.spare) }
    {
        self.pages.add(count)?;
        Ok(())
    }

    /// Appends an item.
    pub fn push(&mut self, item: T)
        requires { 0 < self.old.spare }
        ensures list { self.new.list ≡ self.old.list ++ item ∷ [] }
        ensures spare { self.new.spare + 1 ≡ self.old.spare }
    {
        self.pages
            .put(self.len / PAGE_CELLS, self.len % PAGE_CELLS, item);
        self.len += 1;
    }

    /// The item at this place, from 0.
    pub fn get(&self, place: usize) -> T
        requires { place < length self.now.list }
        ensures { slice_get self.now.list place ≡ Some result }
    {
        self.pages.get(place / PAGE_CELLS, place % PAGE_CELLS)
    }

    /// Puts another item at this place.
    pub fn set(&mut self, place: usize, item: T)
        requires { place < length self.old.list }
        ensures list { self.new.list ≡ slice_set self.old.list place item }
        ensures spare { self.new.spare ≡ self.old.spare }
    {
        self.pages.put(place / PAGE_CELLS, place % PAGE_CELLS, item);
    }

    /// Cuts the list to its first `len` items. Their room can be used again.
    pub fn release(&mut self, len: usize)
        requires { len ≤ length self.old.list }
        ensures list { self.new.list ≡ take len self.old.list }
        ensures spare { self.new.spare + len ≡ self.old.spare + length self.old.list }
    {
        self.len = len;
    }
}
