//! The rule of admission, and the words in which pools speak of it.
//!
//! `Event` and `Limits` are the words. `specs/History.antt` says what a history of events means, and
//! `specs/Admission.antt` says which event may come next. A `Rule` keeps what it needs to decide that, and no
//! history: no event makes it take more memory. `audit` judges a history in one pass, with a rule whose jobs
//! carry no work, and `answer_to` says why an event isn't carried out. `Timed` is an event with its time.
//!
//! The rule is that of the class documentation of `java.util.concurrent.ThreadPoolExecutor`. The comment on
//! `Rule::next_reply` states it.
#![tactic(auto)]

mod answer;
mod error;
mod event;
mod laws;
mod limits;
mod record;
mod rule;
mod sizes;
mod slots;
mod timed;
mod verdict;

pub use answer::{Answer, answer_to, answer_to_last, rule_at_last};
pub use error::{AdmitError, Refusal};
pub use event::{Event, Id, Reply};
pub use laws::{jobs_conserved, running_within_workers, worked_histories, workers_within_opening};
pub use limits::Limits;
pub use record::{AllEvents, LastEvents, NoRecord, Record};
pub use rule::{Origin, Picked, Rule};
pub use sizes::Sizes;
pub use slots::Slot;
pub use timed::{Timed, events_in, first_back, times_in};
pub use verdict::{Verdict, audit, audit_by, verdicts_are_one};
