//! Your own jobs, and how their answers come back from the threads that run them.
//!
//! A `Work` is run once and returns an answer; a `WorkAt` also needs something that its worker lends it. Its submitter has a
//! `Pending`. `by_hand` has the layer below: `RunOnce` is what a pool runs, once, as a `Task`, which is a job with the mailbox of
//! its answer. A `Replier` sends an answer by hand.
//!
//! A value that comes was sent by the other end. The calls here know nothing of it but the tag that it fits, so no body of
//! theirs could make an answer up, nor say that there is none. From a job comes the answer of that very job, or the job itself
//! if it was dropped without a run. From a replier comes what was replied with it, or `None` if it was dropped.
#![tactic(auto)]

pub mod by_hand;
mod ends;
mod mailbox;
mod pending;
mod replier;
mod run;
mod stoppable;
mod task;
mod work;

pub use pending::Pending;
pub use stoppable::{Stop, Stoppable};
pub use work::{Answers, Work, WorkAt};
