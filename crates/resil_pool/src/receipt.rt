//! The reply to a submission, and what its caller keeps of it.
//!
//! The receipts of a caller are its submissions in the history, in their order, with the plans of their jobs; a
//! pool is drained only if they are.

use resil_admission::Reply;
use resil_decor::Plan;

/// The result of a submission.
///
/// ```
/// println!(rt; "submission {}: {:?}", ticket.number, ticket.reply)?;
/// ```
#[derive(Clone, Copy, Debug, PartialEq, Eq)]
pub struct Ticket {
    /// The submission's number among its caller's, from 1.
    pub number: u64,
    /// The pool's reply (ThreadPoolExecutor class documentation).
    pub reply: Reply,
}

/// What a caller keeps of a submission.
#[derive(Drop)]
pub struct Receipt {
    /// The submission's number among its caller's, from 1.
    pub number: u64,
    /// The pool's reply.
    pub reply: Reply,
    /// A copy of the plan of the job that was submitted.
    pub plan: Plan,
}
