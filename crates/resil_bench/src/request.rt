//! What a line requests of an open pool.

use anyhow::anyhow;

/// A request to an open pool.
#[derive(Clone, Copy)]
pub(crate) enum Request {
    /// Nothing but an answer.
    Echo,
    /// The start of one job.
    Job,
    /// The start of many jobs, one after the other.
    Jobs,
    /// Pairs of jobs, each timed.
    Pairs,
    /// The times of all pairs so far.
    Times,
    /// The end, as the end of input.
    Close,
}

/// The request in the next line.
pub(crate) fn next_request<R: Input + AllocGlobal>(rt: &R) -> anyhow::Result<Request> {
    let mut line = String::new(rt.alloc());
    read_request(rt, &mut line)
}

fn read_request<R: Input>(rt: &R, line: &mut String) -> anyhow::Result<Request> {
    rt.read_line(line)?;
    match line.as_str().trim_end() {
        "echo" => Ok(Request::Echo),
        "job" => Ok(Request::Job),
        "jobs" => Ok(Request::Jobs),
        "pairs" => Ok(Request::Pairs),
        "times" => Ok(Request::Times),
        "close" | "" => Ok(Request::Close),
        _ => Err(anyhow!("the line asks an open pool for nothing")),
    }
}
