//! What a run writes: its calls, its waits, and the answers that it got, in the order in which they came.
//!
//! The room is reserved before the run starts, so writing doesn't allocate. Most chains have neither
//! a retry nor a bulkhead: if there is no room for any wait or answer, a log is two words.

ghost use Rattle.std.specs.Prelude.{◌≡◌, ◌<◌, ◌+◌, [], IfOk};
ghost use Rattle.resil_decor.specs.ChainLimits.{call_limit};
ghost use Rattle.resil_decor.specs.RunLog.{RunLogView, IsWaitWritten, IsAnswerWritten};

use crate::permitter::Asked;
use std::alloc::{AllocError, Global};
use std::marker::Model;

// What a run has written, and room for more.
#[derive(Drop)]
pub(crate) struct RunLog {
    written: Written,
}

// The place to which a run writes.
#[derive(Drop)]
enum Written {
    // If there is no room for a wait or an answer: the calls alone.
    Calls(u32),
    // Calls, waits and answers.
    Lists(Box<RunLists>),
}

// The calls, the waits and the answers of a run, and room for more.
#[derive(Drop)]
struct RunLists {
    calls: u32,
    waits: Vec<u64>,
    asked: Vec<Asked>,
}

impl Model for RunLog {
    ghost use Rattle.resil_decor.specs.RunLog.{RunLogView};
    ghost use Rattle.resil_decor.specs.RunLists.{log_at};

    ghost Value = { RunLogView };

    ghost view = { λ l. log_at l.written };
}

impl Model for RunLists {
    ghost use Rattle.std.specs.Prelude.{◌-◌, vec_len, vec_capacity};
    ghost use Rattle.resil_decor.specs.RunLog.{RunLogView};

    ghost Value = { RunLogView };

    ghost view = { λ l. record {
      calls = l.calls;
      waits = l.waits.items;
      wait_room = vec_capacity l.waits - vec_len l.waits;
      asked = l.asked.items;
      asked_room = vec_capacity l.asked - vec_len l.asked;
    } };
}

impl RunLog {
    // An empty one with room for these numbers of waits and answers. Errors: out of memory.
    pub(crate) fn new(alloc: Global, waits: usize, asked: usize) -> Result<RunLog, AllocError>
        ensures { IfOk result (λ log. log ≡ record { calls = 0; waits = []; wait_room = waits; asked = []; asked_room = asked }) }
    {
        if waits == 0 && asked == 0 {
            return Ok(RunLog {
                written: Written::Calls(0),
            });
        }
        let lists = RunLists {
            calls: 0,
            waits: Vec::with_capacity(alloc, waits)?,
            asked: Vec::with_capacity(alloc, asked)?,
        };
        match Box::new(alloc, lists) {
            Ok(lists) => Ok(RunLog {
                written: Written::Lists(lists),
            }),
            Err(_) => Err(AllocError),
        }
    }

    // How often the innermost function was called.
    pub(crate) fn calls(&self) -> u32
        ensures { result ≡ self.now.calls }
    {
        match &self.written {
            Written::Calls(calls) => *calls,
            Written::Lists(lists) => lists.calls,
        }
    }

    // The waits, in milliseconds, in their order.
    pub(crate) fn waits(&self) -> &[u64]
        ensures { result.now ≡ self.now.waits }
    {
        match &self.written {
            Written::Calls(_) => &[],
            Written::Lists(lists) => &lists.waits,
        }
    }

    // The questions to bulkheads, with their answers, in their order.
    pub(crate) fn asked(&self) -> &[Asked]
        ensures { result.now ≡ self.now.asked }
    {
        match &self.written {
            Written::Calls(_) => &[],
            Written::Lists(lists) => &lists.asked,
        }
    }

    // Counts one more call.
    pub(crate) fn count_call(&mut self)
        requires { self.old.calls < call_limit }
        ensures { self.new ≡ record self.old { calls = self.old.calls + 1 } }
    {
        match &mut self.written {
            Written::Calls(calls) => *calls += 1,
            Written::Lists(lists) => lists.calls += 1,
        }
    }

    // Records one more wait, in milliseconds.
    pub(crate) fn push_wait(&mut self, wait: u64)
        requires { 0 < self.old.wait_room }
        ensures { IsWaitWritten self.old wait self.new }
    {
        if let Written::Lists(lists) = &mut self.written {
            lists.waits.push_reserved(wait);
        }
    }

    // Records one more answer.
    pub(crate) fn push_answer(&mut self, asked: Asked)
        requires { 0 < self.old.asked_room }
        ensures { IsAnswerWritten self.old asked self.new }
    {
        if let Written::Lists(lists) = &mut self.written {
            lists.asked.push_reserved(asked);
        }
    }
}
