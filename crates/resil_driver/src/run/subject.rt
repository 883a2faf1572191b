//! What `run` says of its inputs, to explain what is wrong with one.

use crate::run::head::read_head;
use crate::run::rows::RUN_BODY;
use resil_heads::HeadFault;
use resil_heads::forms::{Body, Key};
use resil_heads::run::RUN_KEYS;
use resil_heads::subject::Subject;
use std::alloc::Global;

/// The inputs of a `run` with this many callers.
#[derive(Clone, Copy)]
pub struct RunSubject {
    /// How many callers there are.
    pub callers: u16,
}

impl Subject for RunSubject {
    fn keys(self) -> &'static [Key] {
        RUN_KEYS
    }

    fn fault_in(self, alloc: Global, head: &[u8]) -> Option<HeadFault> {
        read_head(alloc, head).err()
    }

    fn body(self) -> Body {
        RUN_BODY
    }

    fn callers(self) -> u16 {
        self.callers
    }
}
