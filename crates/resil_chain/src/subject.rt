//! What `chain` says of its inputs, to explain what is wrong with one.

use crate::head::{CHAIN_KEYS, read_head};
use crate::rows::BODY;
use resil_heads::HeadFault;
use resil_heads::forms::{Body, Key};
use resil_heads::subject::Subject;
use std::alloc::Global;

/// The inputs of `chain`.
#[derive(Clone, Copy)]
pub struct ChainSubject;

impl Subject for ChainSubject {
    fn keys(self) -> &'static [Key] {
        CHAIN_KEYS
    }

    fn fault_in(self, alloc: Global, head: &[u8]) -> Option<HeadFault> {
        read_head(alloc, head).err()
    }

    fn body(self) -> Body {
        BODY
    }
}
