//! The words for the rule's answers: the names of replies, and the sentence for an event that it doesn't carry out.

ghost use Rattle.std.specs.Prelude.{◌≡◌};
ghost use Rattle.resil_input.specs.Answer.{reply_name};

use resil_rule::{Answer, Id, Reply};
use std::fmt;

/// The name of a reply, as in a history.
pub fn reply_name(reply: Reply) -> &'static str
    ensures { result.now ≡ reply_name reply }
{
    match reply {
        Reply::Core => "core",
        Reply::Queued => "queued",
        Reply::Extra => "extra",
        Reply::Full => "full",
        Reply::Closed => "closed",
    }
}

/// An answer of the rule as the programs write it, in words.
#[derive(Clone, Copy)]
pub struct InWords(pub Answer);

impl fmt::Display for InWords {
    fn fmt<W: fmt::Write>(&self, f: &mut fmt::Formatter<W>) -> fmt::Result {
        match self.0 {
            Answer::Reply(reply) => {
                let name = reply_name(reply);
                write!(f, "the rule's reply is {name}")
            }
            Answer::Next(caller, number) => write!(f, "caller {caller}'s next number is {number}"),
            Answer::Front(Id { caller, number }) => {
                write!(f, "the job at the front of the queue is {caller},{number}")
            }
            Answer::NoneWaits => f.write_str("no job is waiting"),
            Answer::OneWaits => f.write_str("a job is waiting"),
            Answer::NoneIdle => f.write_str("no worker is idle"),
            Answer::NoneSpare => {
                f.write_str("the pool is open and has no worker above the core size")
            }
            Answer::NotOut => f.write_str("no job with this id is running"),
            Answer::Closed => f.write_str("the pool is already closed"),
            Answer::CoreOutOfRange => f.write_str("the core size must be from 1 to 64"),
            Answer::Greatest(core, max) => write!(
                f,
                "the maximum size must be from the core size, {core}, to the maximum size in the head, {max}"
            ),
        }
    }
}
