//! What the commands share above their bytes: the parts of their heads, and why an input is refused.
//!
//! Each command has its head in its own crate. This crate says how long an input may be (`length`). It has the TOML table and its keys
//! (`document`), the forms of keys and bodies (`forms`), the values at keys (`keys`), and the three sizes of a pool (`sizes`). It reads
//! the head of a history of any pool of the JDK (`pool_head`), which also says what of the history is drawn (`drawing`), and the layers
//! around a call with the bulkheads that they name (`layers`). `bulkheads` reads a text that names the bulkheads of a service, by the
//! same tables. The error of a refused head names its key (`error`). The error of each step of a command becomes a `CommandError` by
//! `?` (`command_error`), and one module makes all lines of refusals (`refusal`). `subject` is what a command says of its inputs to the
//! code that explains a refusal.
#![tactic(auto)]

pub mod bulkheads;
mod command_error;
pub mod document;
pub mod drawing;
mod error;
pub mod forms;
pub mod keys;
pub mod layers;
pub mod length;
pub mod pool_head;
mod refusal;
pub mod run;
pub mod sizes;
pub mod subject;

pub use command_error::{CommandError, error_output, made_output, too_long_output};
pub use error::{FaultyKey, HeadError, HeadFault, Part, at_key};
pub use layers::byte_order_is_of_members;
pub use refusal::{InputRefusal, LoadRefusal, RowRefusal, RunRefusal, StepRefusal, refusal_line};
