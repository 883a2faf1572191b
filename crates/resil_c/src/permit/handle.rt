//! The handle that C has: a pointer that C never follows.
ghost use Rattle.std.specs.Prelude.{◌≡◌, Option, Some, option_map};
ghost use Rattle.resil_permit.specs.Passes.{PassView};

use crate::box_parts::BoxParts;
use crate::permit::owned_pass::OwnedPass;
use std::alloc::Global;
use std::marker::Model;

/// A pointer to a pass on the heap, or an empty handle, whose pointer is null.
///
/// It points to bytes, since C must not know what is there. If a handle is dropped, its pass stays on the heap.
#[repr(C)]
#[derive(Drop)]
pub struct PermitHandle {
    at: *mut u8,
    alloc: Global,
    ghost value: { Option PassView },
}

impl Model for PermitHandle {
    ghost use Rattle.resil_c.specs.Handles.{handle_owns};
    ghost use Rattle.resil_c.specs.contracts.permit.owned_pass.OwnedPass.{the_row};

    ghost also_owns = { λ h. handle_owns the_row h.alloc h.at h.value };
}

// A handle may go to another thread, since its pass may, and any thread may free the block.
unsafe impl Send for PermitHandle {}

impl PermitHandle {
    fn of_parts(parts: BoxParts<OwnedPass, Global>) -> PermitHandle
        ensures { result.value ≡ Some parts.value }
    {
        let BoxParts { at, alloc } = parts;
        PermitHandle {
            at: at.cast::<u8>(),
            alloc,
        }
    }

    // The parts of a handle, or nothing if it is empty.
    fn into_parts(self) -> Option<BoxParts<OwnedPass, Global>>
        ensures { self.value ≡ option_map (λ parts. parts.value) result }
    {
        let PermitHandle { at, alloc } = self;
        if at.is_null() {
            None
        } else {
            Some(BoxParts {
                at: at.cast::<OwnedPass>(),
                alloc,
            })
        }
    }

    // The handle of a pass on the heap.
    pub(crate) fn of(pass: Box<OwnedPass>) -> PermitHandle
        ensures { result.value ≡ Some pass.value }
    {
        PermitHandle::of_parts(BoxParts::of(pass))
    }

    // The pass of a handle, or nothing if it is empty.
    pub(crate) fn into_pass(self) -> Option<Box<OwnedPass>>
        ensures { self.value ≡ option_map (λ pass. pass.value) result }
    {
        match self.into_parts() {
            Some(parts) => Some(parts.into_box()),
            None => None,
        }
    }
}
