//! The keys of the head of a `run`, which the head of a history may have too. They are in a crate below the commands, so that a
//! program that reads a history needs no threads.

use crate::forms::{Form, Key};
use crate::layers::{LAYER, PERMITS};
use crate::sizes::{CORE, MAX, QUEUE};

/// The empty polls in a row after which a worker above the core ends.
pub(crate) const KEEP_ALIVE: Key = Key::Optional("keep_alive", Form::Count(0, 4_294_967_295));

/// The keys of the head.
pub const RUN_KEYS: &[Key] = &[CORE, MAX, QUEUE, KEEP_ALIVE, PERMITS, LAYER];
