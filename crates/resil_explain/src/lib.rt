//! What the programs report on standard error after a refusal, and after `illegal`: where the fault is, and what is allowed there.
//!
//! No clause covers these reports. A report is made from the line on standard output and from the input, which `kept` of `resil_input`
//! keeps while it passes each byte on. `Rule` of `resil_rule` gives the reply that the rule would have had, over the rows before the
//! faulty one, and the reader of a head gives its faulty key. When out of memory, nothing is reported.
//!
//! Each command has a `Subject` of `resil_heads`, next to what reads its heads and bodies. It says what they may have, and what to report
//! of the command's own refusals. The rest is here: `head` reports a head's fault, whose line `definition` finds, and `body` a row's;
//! `table` has the reports that follow from a refusal's name alone; `told` brings these together; `words` reports arguments that are
//! refused; and `program` starts both programs.
#![tactic(auto)]

mod body;
mod definition;
mod head;
mod place;
mod program;
mod table;
mod told;
mod words;

pub use program::{FailureTracking, KeptFront, KeptInput, Output, write_output};
pub use words::{borrowed, explain_input, is_explained, own_words, say_commands, say_words};
