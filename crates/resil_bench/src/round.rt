//! What a line of standard input requests.

use std::str::SplitWhitespace;

/// What is done in a round.
#[derive(Clone, Copy)]
pub(crate) enum Kind {
    /// Each caller takes and gives back a permit this often.
    Permits,
    /// The same by a bare loop over one word.
    Bare,
    /// A pool runs the jobs, which the callers submit in turn.
    Pool,
    /// A pool for your own jobs runs those of the callers.
    Works,
    /// The same, with an answer for each job.
    Answers,
    /// The same, by a pool that keeps its whole history, which is judged at the end.
    Judged,
    /// The rule takes and ends jobs while all workers have one.
    Busy,
    /// A pool for your own jobs is open until a line closes it.
    Own,
    /// A pool is open until a line closes it.
    Open,
}

/// A round: what is done, by how many threads, and how often.
#[derive(Clone, Copy)]
pub(crate) struct Round {
    pub(crate) kind: Kind,
    /// How many threads make pairs, or submit.
    pub(crate) callers: u32,
    /// How many threads run what is submitted.
    pub(crate) workers: u32,
    /// How many pairs each caller makes, or how many jobs there are in all.
    pub(crate) count: u32,
}

impl Kind {
    fn from_name(name: &str) -> Option<Kind> {
        match name {
            "permits" => Some(Kind::Permits),
            "bare" => Some(Kind::Bare),
            "pool" => Some(Kind::Pool),
            "works" => Some(Kind::Works),
            "answers" => Some(Kind::Answers),
            "judged" => Some(Kind::Judged),
            "busy" => Some(Kind::Busy),
            "own" => Some(Kind::Own),
            "open" => Some(Kind::Open),
            _ => None,
        }
    }

    /// What a round counts.
    pub(crate) fn counts(self) -> &'static str {
        match self {
            Kind::Permits | Kind::Bare => "pairs",
            Kind::Pool => "results",
            Kind::Works => "finished works",
            Kind::Answers => "right answers",
            Kind::Judged => "right answers, legal",
            Kind::Busy => "jobs",
            Kind::Own | Kind::Open => "started works",
        }
    }
}

impl Round {
    /// The round of a line: its name, and its numbers in their order.
    pub(crate) fn parse(line: &str) -> Option<Round> {
        let mut words = line.split_whitespace();
        let kind = Kind::from_name(words.next()?)?;
        let first = number(&mut words)?;
        let (callers, workers, count) = match kind {
            Kind::Own | Kind::Open => (1, first, 0),
            Kind::Busy => (1, first, number(&mut words)?),
            Kind::Permits | Kind::Bare => (first, 0, number(&mut words)?),
            _ => (first, number(&mut words)?, number(&mut words)?),
        };
        Some(Round {
            kind,
            callers,
            workers,
            count,
        })
    }
}

// The number that is the next word.
fn number(words: &mut SplitWhitespace<'_>) -> Option<u32> {
    words.next()?.parse().ok()
}
