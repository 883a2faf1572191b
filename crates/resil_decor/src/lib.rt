//! Chains of decorators around a call, and jobs that run them (modelled on Resilience4j's Decorators; user guide, chapters
//! Retry and Bulkhead).
//!
//! A chain is built from the inside: each layer wraps those before it, and the last is outermost. Its value is a recursion on
//! the outermost layer (`through` in `specs/Chain.antt`), over a script of outcomes and the answers of bulkheads. A plan is a
//! chain with the script of its innermost call. A job is a plan, which it shares with its run, with room for everything that
//! its run writes, so a run allocates nothing and can't fail. The type `Run` ensures that outcome, calls and waits are the
//! value of its plan for the answers that the run got.
//!
//! `layer`, `chain` with the `layers` that copies share, `plan` and `shared_plan` are the parts. `job` has room for
//! everything that a run writes (`run_log`), and `layer_calls` makes the calls from the outermost layer in. A job asks a
//! `permitter` for permits: `listed` answers from a list, and `passes` by real bulkheads. `grants` recounts the permits that
//! a run held at once.
#![tactic(auto)]

mod chain;
mod course;
mod error;
mod grants;
mod job;
mod layer;
mod layer_calls;
mod layers;
mod listed;
mod passes;
mod permitter;
mod plan;
mod run;
mod run_log;
mod shared_plan;

pub use chain::{Chain, MAX_CALLS, MAX_LAYERS};
pub use error::DecorError;
pub use job::Job;
pub use layer::Layer;
pub use listed::Listed;
pub use passes::Passes;
pub use permitter::{Asked, Permitter};
pub use plan::Plan;
pub use run::Run;
pub use shared_plan::SharedPlan;
