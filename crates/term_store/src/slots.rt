//! Changes of the list of cells.

ghost use Rattle.std.specs.Prelude.{◌≡◌, ◌≤◌, ◌<◌, ◌+◌, [], IsTrue, length, map, take};
ghost use Rattle.store_theory.specs.Stores.{trail_fits};
ghost use Rattle.term_store.specs.Slots.{bound_content, change_at, open_content, slots_bound_by};
ghost use Rattle.term_store.specs.StoreView.{IsLaid, the_cell, the_store};

use crate::cell::{Content, Ref, Slot};
use cop_cells::Cells;

// A variable with this binding.
fn bound(content: Content, to: Ref) -> Content
    ensures { result ≡ bound_content to content }
{
    match content {
        Content::Open(sort) => Content::Bound(sort, to),
        Content::Bound(sort, _) => Content::Bound(sort, to),
        Content::Fun(f, parts) => Content::Fun(f, parts),
        Content::Eigen(p, parts) => Content::Eigen(p, parts),
        Content::New(p, parts) => Content::New(p, parts),
        Content::Marks(parts) => Content::Marks(parts),
    }
}

// A variable without a binding.
fn open(content: Content) -> Content
    ensures { result ≡ open_content content }
{
    match content {
        Content::Open(sort) => Content::Open(sort),
        Content::Bound(sort, _) => Content::Open(sort),
        Content::Fun(f, parts) => Content::Fun(f, parts),
        Content::Eigen(p, parts) => Content::Eigen(p, parts),
        Content::New(p, parts) => Content::New(p, parts),
        Content::Marks(parts) => Content::Marks(parts),
    }
}

// Binds the variable.
pub(crate) fn bind_slot(slots: &mut Cells<Slot>, v: usize, to: Ref)
    requires { v < length slots.old.list }
    ensures slots { slots.new.list ≡ change_at (bound_content to) v slots.old.list }
    ensures len { length slots.new.list ≡ length slots.old.list }
    ensures spare { slots.new.spare ≡ slots.old.spare }
{
    let slot = slots.get(v);
    slots.set(
        v,
        Slot {
            content: bound(slot.content, to),
            start: slot.start,
        },
    );
}

// Takes the binding of the variable back.
fn open_slot(slots: &mut Cells<Slot>, v: usize)
    requires { v < length slots.old.list }
    ensures slots { slots.new.list ≡ change_at open_content v slots.old.list }
    ensures len { length slots.new.list ≡ length slots.old.list }
    ensures spare { slots.new.spare ≡ slots.old.spare }
{
    let slot = slots.get(v);
    slots.set(
        v,
        Slot {
            content: open(slot.content),
            start: slot.start,
        },
    );
}

// Takes bindings back, the last one first, until the trail has this number of entries.
pub(crate) fn unbind(slots: &mut Cells<Slot>, trail: &mut Cells<u32>, entries: usize)
    requires fits { IsTrue (trail_fits (the_store slots.old.list [] trail.old.list)) }
    requires entries { entries ≤ length trail.old.list }
    ensures slots { slots.new.list ≡ slots_bound_by (take entries trail.old.list) 0 slots.old.list }
    ensures slots_len { length slots.new.list ≡ length slots.old.list }
    ensures slots_spare { slots.new.spare ≡ slots.old.spare }
    ensures trail { trail.new.list ≡ take entries trail.old.list }
    ensures len { length trail.new.list ≡ entries }
    ensures spare { trail.new.spare + entries ≡ trail.old.spare + length trail.old.list }
{
    while trail.len() > entries {
        let last = trail.len() - 1;
        let v = trail.get(last);
        trail.release(last);
        open_slot(slots, v as usize);
    }
}

// Cuts the cells off from this number on, with their parts.
pub(crate) fn cut(slots: &mut Cells<Slot>, parts: &mut Vec<u32>, cells: usize)
    requires laid { IsLaid 0 slots.old.list (length parts.old.items) }
    requires cells { cells ≤ length slots.old.list }
    ensures slots { slots.new.list ≡ take cells slots.old.list }
    ensures laid { IsLaid 0 slots.new.list (length parts.new.items) }
    ensures kept { map (the_cell parts.new.items) slots.new.list ≡ map (the_cell parts.old.items) slots.new.list }
    ensures len { length slots.new.list ≡ cells }
    ensures spare { slots.new.spare + cells ≡ slots.old.spare + length slots.old.list }
    ensures shorter { length parts.new.items ≤ length parts.old.items }
{
    if cells < slots.len() {
        parts.truncate(slots.get(cells).start as usize);
        slots.release(cells);
    }
}
