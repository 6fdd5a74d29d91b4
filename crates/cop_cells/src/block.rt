//! Memory behind raw pointers, the one file with `unsafe` code. A block is a row of places, each empty or written. Who
//! owns a part of the row and who may free the block are two values without bytes, so that the owner of a page is no
//! larger than the pointer to it.

ghost use Rattle.std.specs.Prelude.{◌≡◌, ◌≤◌, ◌<◌, ◌+◌, ◌++◌, ℕ, List, Option, Some, None, length, take, drop, replicate, get_or, slice_set, IfOk};
ghost use Rattle.std.specs.Ptr.{Ptr};
ghost use Rattle.std.specs.Vec.Ownership.{FitsInBlock};
ghost use base.Fml.{ftrue};
ghost use Rattle.cop_cells.specs.Memory.{deed_own, places_lent, places_own};
ghost use Rattle.cop_cells.specs.Places.{IsWritten};

use std::alloc::{AllocError, Allocator};
use std::marker::{Model, PhantomData};
use std::mem::{align_of, size_of};

/// The pointer to a place. It owns nothing, and is copied freely: it may be followed as long as the `Places` that it
/// points to are there, so each call that follows it takes them as well.
pub(crate) struct Base<T> {
    ptr: *mut T,
}

impl<T> Clone for Base<T> {
    ghost use Rattle.std.specs.Prelude.{⊤};

    ghost is_clone = { λ x y. y ≡ x };

    ghost is_infallible = { λ _. ⊤ };

    fn clone(&self) -> Result<Base<T>, AllocError> {
        Ok(*self)
    }
}

impl<T> Copy for Base<T> {}

/// The owner of places side by side: those from the place `start` on of the block at `at`, the first of them at `first`.
/// They live until `deallocate` takes them, all those of a block together; whoever has them by `&` reads them, and by
/// `&mut` writes them.
pub(crate) struct Places<T> {
    mark: PhantomData<*const T>,
    ghost at: { Ptr },
    ghost start: { ℕ },
    ghost first: { Ptr },
    ghost slots: { List (Option T) },
}

impl<T> Model for Places<T> {
    ghost also_owns = { λ p. places_own T.row p.at p.start p.first p.slots };

    ghost also_shares = { λ p _ κ. places_lent T.row p.at p.start p.first p.slots κ };
}

/// The right to give the block of `len` places at `at` back to `alloc`, once: `deallocate` takes it.
pub(crate) struct Deed<T, A: Allocator> {
    mark: PhantomData<*const (T, A)>,
    ghost at: { Ptr },
    ghost len: { ℕ },
    ghost alloc: { A },
}

impl<T, A: Allocator> Model for Deed<T, A> {
    ghost also_owns = { λ d. deed_own T.row (A.dealloc_token d.alloc) d.at d.len };

    ghost also_shares = { λ _ _ _. ftrue };
}

/// A block of `len` empty places. Its pointer lives until the deed is handed to `deallocate`.
pub(crate) fn allocate<T, A: Allocator>(
    alloc: &A,
    len: usize,
) -> Result<(Base<T>, Places<T>, Deed<T, A>), AllocError>
    requires { FitsInBlock T.row len }
    ensures { IfOk result (λ r. (r.1.at ≡ r.0.ptr) × (r.1.start ≡ 0) × (r.1.first ≡ r.0.ptr) × (r.1.slots ≡ replicate len None) × (r.2.at ≡ r.0.ptr) × (r.2.len ≡ len) × (r.2.alloc ≡ alloc.now)) }
{
    match alloc.allocate(len * size_of::<T>(), align_of::<T>()) {
        Ok(block) => {
            let base = Base {
                ptr: block as *mut T,
            };
            Ok((
                base,
                Places { mark: PhantomData },
                Deed { mark: PhantomData },
            ))
        }
        Err(error) => Err(error),
    }
}

/// Frees a block: its pointer dies here, with the places that it pointed to and with the right to free it.
pub(crate) fn deallocate<T, A: Allocator>(
    alloc: &A,
    base: Base<T>,
    len: usize,
    places: Places<T>,
    deed: Deed<T, A>,
)
    requires { (places.at ≡ base.ptr) × (places.start ≡ 0) × (length places.slots ≡ len) × (deed.at ≡ base.ptr) × (deed.len ≡ len) × (deed.alloc ≡ alloc.now) }
{
    let Places { mark: _ } = places;
    let Deed { mark: _ } = deed;
    unsafe {
        alloc.deallocate(base.ptr as *mut u8, len * size_of::<T>(), align_of::<T>());
    }
}

impl<T> Places<T> {
    /// Writes over the place at `index` from `base` on. The pointer into the row lives for this write.
    pub(crate) fn write(&mut self, base: Base<T>, index: usize, item: T)
        requires { (base.ptr ≡ self.old.first) × (index < length self.old.slots) }
        ensures { (self.new.at ≡ self.old.at) × (self.new.start ≡ self.old.start) × (self.new.first ≡ self.old.first) × (self.new.slots ≡ slice_set self.old.slots index (Some item)) }
    {
        unsafe { base.ptr.add(index).write(item) }
    }

    /// What is written at `index` from `base` on. The reference lives as long as the borrow of the places.
    pub(crate) fn get(&self, base: Base<T>, index: usize) -> &T
        requires { (base.ptr ≡ self.now.first) × IsWritten self.now.slots index }
        ensures { get_or self.now.slots index None ≡ Some result.now }
    {
        unsafe { &*base.ptr.add(index) }
    }

    /// The first `len` places, and the others with the pointer to them, which lives as long as the block.
    pub(crate) fn split(self, base: Base<T>, len: usize) -> (Places<T>, Base<T>, Places<T>)
        requires { (base.ptr ≡ self.first) × (len ≤ length self.slots) }
        ensures { (result.0.at ≡ self.at) × (result.0.start ≡ self.start) × (result.0.first ≡ self.first) × (result.0.slots ≡ take len self.slots) × (result.2.at ≡ self.at) × (result.2.start ≡ self.start + len) × (result.2.first ≡ result.1.ptr) × (result.2.slots ≡ drop len self.slots) }
    {
        let Places { mark: _ } = self;
        let next = unsafe { base.ptr.add(len) };
        (
            Places { mark: PhantomData },
            Base { ptr: next },
            Places { mark: PhantomData },
        )
    }

    /// These places and the next ones of their block, under one owner again.
    pub(crate) fn join(self, next: Places<T>) -> Places<T>
        requires { (next.at ≡ self.at) × (next.start ≡ self.start + length self.slots) }
        ensures { (result.at ≡ self.at) × (result.start ≡ self.start) × (result.first ≡ self.first) × (result.slots ≡ self.slots ++ next.slots) }
    {
        let Places { mark: _ } = self;
        let Places { mark: _ } = next;
        Places { mark: PhantomData }
    }
}
