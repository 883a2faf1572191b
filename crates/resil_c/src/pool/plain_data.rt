//! Replies, events, jobs and numbers in the form that C has.
ghost use Rattle.std.specs.Prelude.{◌≡◌, ◌<◌, ◌≤◌};
ghost use Rattle.resil_c.specs.Book.{answer_by_rule};
ghost use Rattle.resil_c.specs.PlainData.{open_number, reply_number, submit_number, origin_number, plain_job, plain_event};

use resil_rule::{AdmitError, Event, Id, Origin, Refusal, Reply, Slot};

/// The largest number of callers.
pub(crate) const MAX_CALLERS: u32 = 65_535;

// The largest number of a reply of the rule.
pub(crate) const CLOSED: u8 = 4;

/// Why a pool isn't made.
#[derive(Clone, Copy, Debug, PartialEq, Eq)]
pub enum BookError {
    /// Out of memory.
    Memory,
    /// The core size isn't from 1 to 1,024.
    CoreRange,
    /// The maximum size isn't from the core size to 1,024.
    MaxRange,
    /// The queue capacity isn't from 1 to 65,536.
    QueueRange,
    /// The number of callers isn't from 1 to 65,535.
    CallersRange,
}

impl From<AdmitError> for BookError {
    ghost use Rattle.resil_c.specs.PlainData.{from_rule};
    ghost use Rattle.std.specs.Prelude.{◌≡◌};

    ghost from_gives = { λ why error. error ≡ from_rule why };

    fn from(why: AdmitError) -> BookError {
        match why {
            AdmitError::CoreOutOfRange => BookError::CoreRange,
            AdmitError::MaxOutOfRange => BookError::MaxRange,
            AdmitError::QueueOutOfRange => BookError::QueueRange,
            _ => BookError::Memory,
        }
    }
}

/// A job that was picked.
#[repr(C)]
#[derive(Clone, Copy, Drop)]
pub struct PoolJob {
    /// The work that was submitted with it.
    pub work: u64,
    /// Its number.
    pub number: u64,
    /// The place that it has until it is finished.
    pub place: u32,
    /// Its caller.
    pub caller: u16,
}

/// The numbers of a pool, all at one moment. A count of 64 bits stops at the largest number of 64 bits.
#[repr(C)]
#[derive(Clone, Copy, Drop)]
pub struct PoolCounts {
    /// How many submissions were accepted.
    pub accepted: u64,
    /// How many submissions the rule refused.
    pub refused: u64,
    /// How many jobs were finished.
    pub finished: u64,
    /// The current core size, in workers.
    pub core: u32,
    /// The current maximum size, in workers.
    pub max: u32,
    /// The maximum size at the opening, in workers.
    pub greatest: u32,
    /// The capacity of the queue, in jobs.
    pub capacity: u32,
    /// How many workers there are.
    pub workers: u32,
    /// How many jobs have a worker, picked or not.
    pub running: u32,
    /// How many jobs wait in the queue.
    pub waiting: u32,
    /// 1 if the pool is closed, otherwise 0.
    pub closed: u32,
}

/// An event of a history.
#[repr(C)]
#[derive(Clone, Copy, Drop)]
pub struct PoolEvent {
    /// The job's number, or 0 if the event is about no job.
    pub number: u64,
    /// The job's caller, or 0 if the event is about no job.
    pub caller: u16,
    /// 0 a submission, 1 a take, 2 a finish, 3 the end of an idle worker, 4 the closing, 5 new sizes.
    pub kind: u8,
    /// For a submission: 0 core, 1 queued, 2 extra, 3 full, 4 closed. For any other event 255.
    pub reply: u8,
    /// For new sizes the core size, in workers. For any other event 0.
    pub core: u32,
    /// For new sizes the maximum size, in workers. For any other event 0.
    pub max: u32,
}

pub(crate) fn open_number(error: BookError) -> u8
    ensures { result ≡ open_number error }
{
    match error {
        BookError::Memory => 1,
        BookError::CoreRange => 2,
        BookError::MaxRange => 3,
        BookError::QueueRange => 4,
        BookError::CallersRange => 5,
    }
}

// The reply of the rule, as an acceptance or a refusal.
pub(crate) fn by_rule(reply: Reply) -> Result<Reply, Refusal>
    ensures answer { result ≡ answer_by_rule reply }
    ensures by_rule { submit_number result ≤ 4 }
{
    match reply {
        Reply::Core | Reply::Queued | Reply::Extra => Ok(reply),
        Reply::Full => Err(Refusal::Full),
        Reply::Closed => Err(Refusal::Closed),
    }
}

fn reply_number(reply: Reply) -> u8
    ensures { result ≡ reply_number reply }
{
    match reply {
        Reply::Core => 0,
        Reply::Queued => 1,
        Reply::Extra => 2,
        Reply::Full => 3,
        Reply::Closed => 4,
    }
}

pub(crate) fn submit_number(answer: Result<Reply, Refusal>) -> u8
    ensures { result ≡ submit_number answer }
{
    match answer {
        Ok(reply) => reply_number(reply),
        Err(Refusal::Full) => 3,
        Err(Refusal::Closed) => 4,
        Err(Refusal::WrongNumber) => 5,
        Err(Refusal::NoSuchCaller) => 6,
    }
}

pub(crate) fn origin_number(origin: Origin) -> u8
    ensures { result ≡ origin_number origin }
{
    match origin {
        Origin::OwnStart => 0,
        Origin::Queue => 1,
    }
}

pub(crate) fn plain_job(slot: Slot, work: u64) -> PoolJob
    requires { slot.place < 1024 }
    ensures { result ≡ plain_job slot work }
{
    PoolJob {
        work,
        number: slot.id.number,
        place: slot.place as u32,
        caller: slot.id.caller,
    }
}

pub(crate) fn plain_event(event: Event) -> PoolEvent
    ensures { result ≡ plain_event event }
{
    match event {
        Event::Submit { id, reply } => of_job(id, 0, reply_number(reply)),
        Event::Take(id) => of_job(id, 1, 255),
        Event::Finish(id) => of_job(id, 2, 255),
        Event::IdleEnd => of_sizes(3, 0, 0),
        Event::Close => of_sizes(4, 0, 0),
        Event::Resized { core, max } => of_sizes(5, core, max),
    }
}

// An event about a job.
fn of_job(id: Id, kind: u8, reply: u8) -> PoolEvent
    ensures { result ≡ record { number = id.number; caller = id.caller; kind = kind; reply = reply; core = 0; max = 0 } }
{
    PoolEvent {
        number: id.number,
        caller: id.caller,
        kind,
        reply,
        core: 0,
        max: 0,
    }
}

// An event about no job: new sizes, or an event whose sizes are 0.
fn of_sizes(kind: u8, core: u32, max: u32) -> PoolEvent
    ensures { result ≡ record { number = 0; caller = 0; kind = kind; reply = 255; core = core; max = max } }
{
    PoolEvent {
        number: 0,
        caller: 0,
        kind,
        reply: 255,
        core,
        max,
    }
}
