//! What `weave` says of its inputs, to explain what is wrong with one.

use crate::head::{WEAVE_KEYS, read_head};
use crate::rows::BODY;
use resil_heads::HeadFault;
use resil_heads::forms::{Body, Key};
use resil_heads::subject::Subject;
use std::alloc::Global;

/// The inputs of `weave`.
#[derive(Clone, Copy)]
pub struct WeaveSubject;

impl Subject for WeaveSubject {
    fn keys(self) -> &'static [Key] {
        WEAVE_KEYS
    }

    fn fault_in(self, alloc: Global, head: &[u8]) -> Option<HeadFault> {
        read_head(alloc, head).err()
    }

    fn body(self) -> Body {
        BODY
    }

    fn said_of(self, name: &str) -> Option<&'static str> {
        Some(match name {
            "TooManyPermits" => "there may be at most 65535 permits",
            "NotLoaded" =>
                "an exchange is allowed only after its caller's load that showed `loaded`",
            "NotHolding" => "an add or a retire is allowed only if its caller holds a permit",
            "StillLoaded" => "its caller has loaded, so its next step must be an exchange",
            "NotRetired" => "a raise is allowed only if its caller has retired a permit",
            _ => return None,
        })
    }
}
