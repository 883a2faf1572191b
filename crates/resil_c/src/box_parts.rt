//! A box on the heap, taken apart into its pointer and its allocator. A handle consists of these.
//!
//! Only the functions here and in the two files `handle.rt` touch a pointer.
ghost use Rattle.std.specs.Prelude.{◌≡◌};
ghost use Rattle.std_alloc.specs.Box.Ownership.{box_owns};

use std::alloc::Allocator;
use std::marker::Model;

// A box's pointer with its allocator. It owns what the box owned.
pub(crate) struct BoxParts<T, A: Allocator> {
    // The address of the value.
    pub(crate) at: *mut T,
    // The allocator that frees it.
    pub(crate) alloc: A,
    // The value.
    pub(crate) ghost value: { T },
}

impl<T, A: Allocator> Model for BoxParts<T, A> {
    ghost also_owns = { λ p. box_owns (A.dealloc_token p.alloc) T.row p.at p.value };
}

impl<T: Drop, A: Allocator> BoxParts<T, A> {
    // The parts of a box.
    pub(crate) fn of(whole: Box<T, A>) -> BoxParts<T, A>
        ensures { result.value ≡ whole.value }
    {
        let (at, alloc) = Box::into_raw_with_allocator(whole);
        BoxParts { at, alloc }
    }

    // The box of these parts.
    pub(crate) fn into_box(self) -> Box<T, A>
        ensures { result.value ≡ self.value }
    {
        let BoxParts { at, alloc } = self;
        unsafe { Box::from_raw(alloc, at) }
    }
}
