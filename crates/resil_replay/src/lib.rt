//! `replay` and `audit`: the history of rows carried out on one pool, and whether a history is legal.
//!
//! Both have the head of a pool (`head`). `replay` reads rows (`rows`), carries them out on one pool (`play`, `pool`), and writes the history
//! (`history`); `audit` reads a history (`events`) and writes the verdict; `timed` also reads one with times. Only this crate says what a
//! history looks like as a text: `run` uses it to write one too.
#![tactic(auto)]

pub mod audit;
pub mod events;
pub mod head;
pub mod history;
mod id;
mod layout;
pub mod play;
mod pool;
pub mod replay;
pub mod rows;
pub mod sizes;
pub mod subject;
pub mod timed;
mod worked_heads;

pub use events::text_reads_back;
pub use timed::timed_text_reads_back;
pub use worked_heads::worked_pool_heads;
