//! The handle that C has: a pointer that C never follows.
ghost use Rattle.std.specs.Prelude.{◌≡◌, Option, Some, option_map};
ghost use Rattle.resil_c.specs.Book.{BookView};

use crate::box_parts::BoxParts;
use crate::pool::book::Book;
use std::alloc::Global;
use std::marker::Model;

/// A pointer to a pool on the heap, or an empty handle, whose pointer is null.
///
/// It points to bytes, since C must not know what is there. If a handle is dropped, its pool stays on the heap.
#[repr(C)]
#[derive(Drop)]
pub struct PoolHandle {
    at: *mut u8,
    alloc: Global,
    ghost value: { Option BookView },
}

impl Model for PoolHandle {
    ghost use Rattle.resil_c.specs.Handles.{handle_owns};
    ghost use Rattle.resil_c.specs.contracts.pool.book.Book.{the_row};

    ghost also_owns = { λ h. handle_owns the_row h.alloc h.at h.value };
}

// A handle may go to another thread, since its pool may, and any thread may free the block.
unsafe impl Send for PoolHandle {}

impl PoolHandle {
    fn of_parts(parts: BoxParts<Book, Global>) -> PoolHandle
        ensures { result.value ≡ Some parts.value }
    {
        let BoxParts { at, alloc } = parts;
        PoolHandle {
            at: at.cast::<u8>(),
            alloc,
        }
    }

    // The parts of a handle, or nothing if it is empty.
    fn into_parts(self) -> Option<BoxParts<Book, Global>>
        ensures { self.value ≡ option_map (λ parts. parts.value) result }
    {
        let PoolHandle { at, alloc } = self;
        if at.is_null() {
            None
        } else {
            Some(BoxParts {
                at: at.cast::<Book>(),
                alloc,
            })
        }
    }

    // The handle of a pool on the heap.
    pub(crate) fn of(book: Box<Book>) -> PoolHandle
        ensures { result.value ≡ Some book.value }
    {
        PoolHandle::of_parts(BoxParts::of(book))
    }

    // The pool of a handle, or nothing if it is empty.
    pub(crate) fn into_book(self) -> Option<Box<Book>>
        ensures { self.value ≡ option_map (λ book. book.value) result }
    {
        match self.into_parts() {
            Some(parts) => Some(parts.into_box()),
            None => None,
        }
    }
}
