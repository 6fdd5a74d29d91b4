//! Pages of cells. A block of memory has one page or several, and a table has the pointer to each page, so that a cell is
//! found by a shift, a mask and two look-ups, however the pages came.

ghost use Rattle.std.specs.Prelude.{◌≡◌, ◌≤◌, ◌<◌, ◌+◌, ◌*◌, ◌-◌, ◌^◌, ◌++◌, ◌∷◌, [], ℕ, IfOk, None, OnErr, OnOk, get_or, length, replicate, slice_get, slice_set, take, vec_capacity, vec_len};
ghost use Rattle.cop_cells.specs.Layout.{Placed, blank_page, blank_pages, spots, spots_of};
ghost use Rattle.cop_cells.specs.Pages.{put_at};

use crate::block::{Base, Deed, Places, allocate, deallocate};
use cop_base::NoMemory;
use std::alloc::Global;
use std::marker::Model;
use std_alloc::room::may_hold;

/// How many cells a page has. A power of two, so that a place is split by shifting.
pub(crate) const PAGE_CELLS: usize = 4096;

// The cells of a page, and those of them that were written. It is as large as a pointer.
struct Page<T: Copy> {
    base: Base<T>,
    places: Places<T>,
}

impl<T: Copy> Model for Page<T> {
    ghost use Rattle.std.specs.Prelude.{◌≡◌, length};
    ghost use Rattle.cop_cells.specs.Layout.{Placed, placed_code};
    ghost use Rattle.cop_cells.specs.Places.{IsFront, somes};

    ghost Value = { Placed T };

    ghost coded = { placed_code T.code };

    ghost view = { λ p. record { at = p.places.at; start = p.places.start; cells = somes p.places.slots } };

    ghost invariant = { λ p. (p.base.ptr ≡ p.places.first) × (length p.places.slots ≡ 4096) × IsFront p.places.slots };
}

impl<T: Copy> Page<T> {
    fn get(&self, place: usize) -> T
        requires { place < length self.now.cells }
        ensures { slice_get self.now.cells place ≡ Some result }
    {
        *self.places.get(self.base, place)
    }

    // Writes over a cell, or the first one that was not written.
    fn put(&mut self, place: usize, item: T)
        requires fits { place < PAGE_CELLS }
        requires next { place ≤ length self.old.cells }
        ensures spot { (self.new.at ≡ self.old.at) × (self.new.start ≡ self.old.start) }
        ensures cells { self.new.cells ≡ put_at self.old.cells place item }
    {
        self.places.write(self.base, place, item);
    }

    // What a page owns, to be freed with its block.
    fn into_places(self) -> Places<T>
        ensures spot { (result.at ≡ self.at) × (result.start ≡ self.start) }
        ensures long { length result.slots ≡ 4096 }
    {
        let Page { base: _, places } = self;
        places
    }
}

// A block of memory, and how many pages it has. Its pages are in the table.
struct Block<T: Copy> {
    base: Base<T>,
    count: usize,
    deed: Deed<T, Global>,
    alloc: Global,
}

impl<T: Copy> Model for Block<T> {
    ghost use Rattle.std.specs.Prelude.{◌≡◌, ◌<◌, ◌*◌, ◌^◌, ℕ};
    ghost use Rattle.cop_cells.specs.Layout.{block_code};
    ghost use denote.RawPtr.{Ptr};

    ghost Value = { Ptr × ℕ };

    ghost coded = { block_code };

    ghost view = { λ b. (b.deed.at, b.count) };

    ghost invariant = { λ b. (b.deed.at ≡ b.base.ptr) × (b.deed.len ≡ b.count * 4096) × (b.deed.alloc ≡ b.alloc) × (0 < b.count) × (b.count * 4096 < 2 ^ 64) };
}

impl<T: Copy> Block<T> {
    // Takes the pages of this block, which are the last ones, out of the table, and frees it.
    fn free(self, table: &mut Vec<Page<T>>)
        requires { spots_of table.old.items ≡ take (length (spots_of table.old.items) - self.1) (spots_of table.old.items) ++ spots self.0 self.1 }
        ensures { spots_of table.new.items ≡ take (length (spots_of table.old.items) - self.1) (spots_of table.old.items) }
    {
        let Block {
            base,
            count,
            deed,
            alloc,
        } = self;
        let mut places = last_places(table);
        for _taken in 1..count {
            places = last_places(table).join(places);
        }
        deallocate(&alloc, base, count * PAGE_CELLS, places, deed);
    }
}

// Takes the last page out of the table.
fn last_places<T: Copy>(table: &mut Vec<Page<T>>) -> Places<T>
    requires { 0 < length (spots_of table.old.items) }
    ensures spots { spots_of table.old.items ≡ spots_of table.new.items ++ (result.at, result.start) ∷ [] }
    ensures long { length result.slots ≡ 4096 }
{
    match table.pop() {
        Some(page) => page.into_places(),
        None => unreachable!(),
    }
}

// Puts a page of empty places at the end of the table.
fn push_page<T: Copy>(table: &mut Vec<Page<T>>, base: Base<T>, places: Places<T>)
    requires room { vec_len table.old < vec_capacity table.old }
    requires base { base.ptr ≡ places.first }
    requires places { places.slots ≡ replicate 4096 None }
    ensures items { table.new.items ≡ table.old.items ++ blank_page places.at places.start ∷ [] }
    ensures len { vec_len table.new ≡ vec_len table.old + 1 }
    ensures capacity { vec_capacity table.new ≡ vec_capacity table.old }
{
    table.push_reserved(Page { base, places });
}

// Cuts a new block into pages, and puts them at the end of the table.
fn push_pages<T: Copy>(table: &mut Vec<Page<T>>, base: Base<T>, places: Places<T>, count: usize)
    requires some { 0 < count }
    requires room { vec_len table.old + count ≤ vec_capacity table.old }
    requires base { (base.ptr ≡ places.first) × (places.start ≡ 0) }
    requires places { places.slots ≡ replicate (count * 4096) None }
    ensures { table.new.items ≡ table.old.items ++ blank_pages places.at count }
{
    let mut base = base;
    let mut places = places;
    for _cut in 0..count - 1 {
        let (page, next, others) = places.split(base, PAGE_CELLS);
        push_page(table, base, page);
        base = next;
        places = others;
    }
    push_page(table, base, places);
}

/// Pages, seen as the cells that are written in each. They stay where they are until they are dropped.
pub(crate) struct Pages<T: Copy> {
    table: Vec<Page<T>>,
    blocks: Vec<Block<T>>,
}

impl<T: Copy> Model for Pages<T> {
    ghost use Rattle.std.specs.Prelude.{◌≡◌, List};
    ghost use Rattle.cop_cells.specs.Layout.{cells_of, laid, spots_of};

    ghost Value = { List (List T) };

    ghost view = { λ p. cells_of p.table.items };

    // The pages of the first block, then those of the next one.
    ghost invariant = { λ p. spots_of p.table.items ≡ laid p.blocks.items };
}

impl<T: Copy> Pages<T> {
    pub(crate) fn new(alloc: Global) -> Pages<T>
        ensures { result ≡ [] }
    {
        Pages {
            table: Vec::new(alloc),
            blocks: Vec::new(alloc),
        }
    }

    pub(crate) fn count(&self) -> usize
        ensures { result ≡ length self.now }
    {
        self.table.len()
    }

    /// So many pages more, in one block, or none where there is no memory.
    pub(crate) fn add(&mut self, count: usize) -> Result<(), NoMemory>
        requires some { 0 < count }
        requires fits { count * 4096 < 2 ^ 64 }
        ensures ok { OnOk result (self.new ≡ self.old ++ replicate count []) }
        ensures err { OnErr result (self.new ≡ self.old) }
    {
        if !may_hold::<T>(count * PAGE_CELLS) {
            return Err(NoMemory);
        }
        self.table.reserve(count)?;
        self.blocks.reserve(1)?;
        let alloc = *self.table.allocator();
        let (base, places, deed) = allocate(&alloc, count * PAGE_CELLS)?;
        push_pages(&mut self.table, base, places, count);
        self.blocks.push_reserved(Block {
            base,
            count,
            deed,
            alloc,
        });
        Ok(())
    }

    pub(crate) fn get(&self, page: usize, place: usize) -> T
        requires page { page < length self.now }
        requires place { place < length (get_or self.now page []) }
        ensures { slice_get (get_or self.now page []) place ≡ Some result }
    {
        self.table[page].get(place)
    }

    /// Writes over a cell, or the first one of the page that was not written.
    pub(crate) fn put(&mut self, page: usize, place: usize, item: T)
        requires page { page < length self.old }
        requires fits { place < PAGE_CELLS }
        requires next { place ≤ length (get_or self.old page []) }
        ensures { self.new ≡ slice_set self.old page (put_at (get_or self.old page []) place item) }
    {
        self.table[page].put(place, item);
    }
}

impl<T: Copy> Drop for Pages<T> {
    fn drop(self) {
        let Pages {
            mut table,
            mut blocks,
        } = self;
        while let Some(block) = blocks.pop() {
            block.free(&mut table);
        }
        table.destroy_empty();
        blocks.destroy_empty();
    }
}
