//! The words for the whole rule's answers, and for the state of a pool.

use crate::text::reply_name;
use resil_jdk::{JdkAnswer, JdkState};
use resil_rule::Id;
use std::fmt;

/// An answer of the whole rule as the programs write it, in words.
#[derive(Clone, Copy)]
pub struct JdkInWords(pub JdkAnswer);

impl fmt::Display for JdkInWords {
    fn fmt<W: fmt::Write>(&self, f: &mut fmt::Formatter<W>) -> fmt::Result {
        let said = match self.0 {
            JdkAnswer::Reply(reply) => {
                let name = reply_name(reply);
                return write!(f, "the rule's reply is {name}");
            }
            JdkAnswer::Next(caller, number) => {
                return write!(f, "caller {caller}'s next number is {number}");
            }
            JdkAnswer::Front(Id { caller, number }) => {
                return write!(f, "the job at the front of the queue is {caller},{number}");
            }
            JdkAnswer::Greatest(max) => {
                return write!(
                    f,
                    "the maximum size must be at least 1, at least the core size, and at most the maximum size in the head, {max}"
                );
            }
            JdkAnswer::NoneWaits => "no job is waiting",
            JdkAnswer::OneWaits => "a job is waiting",
            JdkAnswer::NotQueued => "this job isn't waiting in the queue",
            JdkAnswer::NoneIdle => "no worker is idle",
            JdkAnswer::NoneSpare => "the pool is open and has no worker above the core size",
            JdkAnswer::NoneAbove => {
                "the pool isn't stopped and has no worker above the maximum size"
            }
            JdkAnswer::NoneBelow => "there are already as many workers as the core size",
            JdkAnswer::NoUse => "the pool is closed, and no job is waiting",
            JdkAnswer::NotOut => "no job with this id is running",
            JdkAnswer::Closed => "the pool is already closed",
            JdkAnswer::Stopped => "the pool is stopped",
            JdkAnswer::Allowed => "the rule allows it",
        };
        f.write_str(said)
    }
}

/// The state of a pool as the programs write it, in words.
#[derive(Clone, Copy)]
pub struct StateInWords(pub JdkState);

impl fmt::Display for StateInWords {
    fn fmt<W: fmt::Write>(&self, f: &mut fmt::Formatter<W>) -> fmt::Result {
        let JdkState {
            workers,
            running,
            waiting,
            core,
            max,
            queue,
            time_out,
            closed,
            stopped,
        } = self.0;
        let idle = (workers as usize).saturating_sub(running);
        write!(
            f,
            "workers {workers}, busy {running}, idle {idle}; core size {core}, maximum size {max}; waiting {waiting} of {queue}; "
        )?;
        f.write_str(match (stopped, closed) {
            (true, _) => "stopped",
            (false, true) => "closed",
            (false, false) => "open",
        })?;
        f.write_str(if time_out {
            "; core workers time out"
        } else {
            "; core workers don't time out"
        })
    }
}
