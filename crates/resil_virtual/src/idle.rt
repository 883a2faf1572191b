//! The workers that have no job.

ghost use Rattle.std.specs.Prelude.{◌≡◌, ◌-◌, ◌++◌, ◌∷◌, [], OnOk, length, map, take};
ghost use Rattle.std.specs.List.{list_any};
ghost use Rattle.resil_virtual.specs.Due.{earliest, ends_at, ends_of, is_at, looks_of, passed, still_ends, still_looks, wake_first, without_first, without_taker, woken};
ghost use Rattle.resil_virtual.specs.IdleWorkers.{changes, has_looked, is_over};
ghost use Rattle.resil_virtual.specs.Pool.{is_free};

use crate::due::sooner_time;
use std::alloc::{AllocError, Global};
use std::marker::Model;

/// A worker that has no job.
#[derive(Clone, Copy)]
pub(crate) struct Idle {
    // When it may end, if ever.
    pub(crate) end: Option<u64>,
    // When it looks for a job, if it was woken.
    pub(crate) look: Option<u64>,
}

// When a worker may end from a moment on, if ever.
fn still_ends(end: Option<u64>, at: u64) -> Option<u64>
    ensures { result ≡ still_ends at end }
{
    match end {
        Some(end) if end >= at => Some(end),
        _ => None,
    }
}

// When a worker looks after a moment, if it does.
fn still_looks(look: Option<u64>, at: u64) -> Option<u64>
    ensures { result ≡ still_looks at look }
{
    match look {
        Some(look) if look > at => Some(look),
        _ => None,
    }
}

// What time alone does to a worker up to a moment.
fn passed(worker: Idle, none_waits: bool, at: u64) -> Idle
    ensures { result ≡ passed none_waits at worker }
{
    Idle {
        end: still_ends(worker.end, at),
        look: if none_waits {
            still_looks(worker.look, at)
        } else {
            worker.look
        },
    }
}

// Lets time pass up to a moment: an idle worker whose time to end was over before it stays for good; and if no job waits, one that
// has looked by then is as if it had never been woken.
fn pass(idle: &mut Vec<Idle>, none_waits: bool, at: u64)
    ensures { idle.new.items ≡ map (passed none_waits at) idle.old.items }
{
    for place in 0..idle.len() {
        idle[place] = passed(idle[place], none_waits, at);
    }
}

// The later one of an end and a look.
fn later(end: Option<u64>, look: u64) -> Option<u64>
    ensures { result ≡ (woken look (record { end = end; look = Some look })).end }
{
    match end {
        Some(end) if end < look => Some(look),
        other => other,
    }
}

// A worker that is woken.
fn woken(worker: Idle, look: u64) -> Idle
    ensures { result ≡ woken look worker }
{
    Idle {
        end: later(worker.end, look),
        look: Some(look),
    }
}

// Wakes the worker that has been idle longest of those that weren't woken.
fn wake_first(idle: &mut Vec<Idle>, look: u64)
    ensures { idle.new.items ≡ wake_first look idle.old.items }
{
    for place in 0..idle.len() {
        if idle[place].look.is_none() {
            idle[place] = woken(idle[place], look);
            return;
        }
    }
}

// Whether a time is this one.
fn is_at(time: Option<u64>, at: u64) -> bool
    ensures { result ≡ is_at at time }
{
    match time {
        Some(time) => time == at,
        None => false,
    }
}

// Whether a worker looks, or may end, at a moment.
fn is_free(worker: Idle, by_look: bool, at: u64) -> bool
    ensures { result ≡ is_free by_look at worker }
{
    if by_look {
        is_at(worker.look, at)
    } else {
        is_at(worker.end, at)
    }
}

// Takes the first worker out that looks, or that may end, at a moment, and says whether there was one.
fn remove_first(idle: &mut Vec<Idle>, by_look: bool, at: u64) -> bool
    ensures found { result ≡ list_any (is_free by_look at) idle.old.items }
    ensures rest { idle.new.items ≡ without_first (is_free by_look at) idle.old.items }
{
    for place in 0..idle.len() {
        if is_free(idle[place], by_look, at) {
            idle.remove(place);
            return true;
        }
    }
    false
}

// Takes the worker out that takes a job at a moment: none, if the worker that takes it has just finished another one.
fn remove_taker(idle: &mut Vec<Idle>, own: bool, at: u64)
    ensures { idle.new.items ≡ without_taker own at idle.old.items }
{
    if own || remove_first(idle, true, at) {
        return;
    }
    remove_first(idle, false, at);
}

// When the first idle worker may end.
fn first_end(idle: &[Idle]) -> Option<u64>
    ensures { result ≡ earliest (λ end. end) (ends_of idle.now) }
{
    let mut first = None;
    for place in 0..idle.len() {
        first = sooner_time(first, idle[place].end);
    }
    first
}

// When the first worker looks that was woken.
fn first_look(idle: &[Idle]) -> Option<u64>
    ensures { result ≡ earliest (λ look. look) (looks_of idle.now) }
{
    let mut first = None;
    for place in 0..idle.len() {
        first = sooner_time(first, idle[place].look);
    }
    first
}

// Whether a time to end is before a moment.
fn is_over(end: Option<u64>, at: u64) -> bool
    ensures { result ≡ is_over at end }
{
    match end {
        Some(end) => end < at,
        None => false,
    }
}

// Whether a look is at a moment or before.
fn has_looked(look: Option<u64>, at: u64) -> bool
    ensures { result ≡ has_looked at look }
{
    match look {
        Some(look) => look <= at,
        None => false,
    }
}

// Whether time alone changes a worker up to a moment.
fn changes(worker: Idle, none_waits: bool, at: u64) -> bool
    ensures { result ≡ changes none_waits at worker.end worker.look }
{
    is_over(worker.end, at) || (none_waits && has_looked(worker.look, at))
}

/// The workers that have no job, the one that has been idle longest first. When the first one may end, and when the first one looks, are
/// kept next to them: so time passes without a look at each of them.
#[derive(Drop)]
pub(crate) struct IdleWorkers {
    items: Vec<Idle>,
    first: Idle,
}

impl Model for IdleWorkers {
    ghost use Rattle.resil_virtual.specs.IdleWorkers.{AreFirst, IdleView};

    ghost Value = { IdleView };

    ghost view = { λ w. record { items = w.items.items } };

    ghost invariant = { λ w. AreFirst w.items.items w.first.end w.first.look };
}

// When the first of some workers may end, and when the first of them looks.
fn first_times(idle: &[Idle]) -> Idle
    ensures end { result.end ≡ earliest (λ end. end) (ends_of idle.now) }
    ensures look { result.look ≡ earliest (λ look. look) (looks_of idle.now) }
{
    Idle {
        end: first_end(idle),
        look: first_look(idle),
    }
}

impl IdleWorkers {
    /// No workers. It doesn't allocate.
    pub(crate) fn new(alloc: Global) -> IdleWorkers
        ensures { result.items ≡ [] }
    {
        IdleWorkers {
            items: Vec::new(alloc),
            first: Idle {
                end: None,
                look: None,
            },
        }
    }

    /// When the first worker may end.
    pub(crate) fn first_end(&self) -> Option<u64>
        ensures { result ≡ earliest (λ end. end) (ends_of self.now.items) }
    {
        self.first.end
    }

    /// When the first worker looks that was woken.
    pub(crate) fn first_look(&self) -> Option<u64>
        ensures { result ≡ earliest (λ look. look) (looks_of self.now.items) }
    {
        self.first.look
    }

    /// A worker falls idle. Errors: `AllocError` when out of memory.
    pub(crate) fn push(&mut self, worker: Idle) -> Result<(), AllocError>
        ensures { OnOk result (self.new.items ≡ self.old.items ++ worker ∷ []) }
    {
        self.items.push(worker)?;
        self.first = Idle {
            end: sooner_time(self.first.end, worker.end),
            look: sooner_time(self.first.look, worker.look),
        };
        Ok(())
    }

    /// The worker is gone that fell idle last.
    pub(crate) fn pop(&mut self)
        ensures { self.new.items ≡ take (length self.old.items - 1) self.old.items }
    {
        self.items.pop();
        self.first = first_times(&self.items);
    }

    /// Lets time pass up to a moment: an idle worker whose time to end was over before it stays for good; and if no job waits, one that
    /// has looked by then is as if it had never been woken.
    pub(crate) fn pass(&mut self, none_waits: bool, at: u64)
        ensures { self.new.items ≡ map (passed none_waits at) self.old.items }
    {
        if !changes(self.first, none_waits, at) {
            return;
        }
        pass(&mut self.items, none_waits, at);
        self.first = first_times(&self.items);
    }

    /// Wakes the worker that has been idle longest of those that weren't woken.
    pub(crate) fn wake_first(&mut self, look: u64)
        ensures { self.new.items ≡ wake_first look self.old.items }
    {
        wake_first(&mut self.items, look);
        self.first = first_times(&self.items);
    }

    /// Takes the first worker out that may end at a moment.
    pub(crate) fn remove_ending(&mut self, at: u64)
        ensures { self.new.items ≡ without_first (ends_at at) self.old.items }
    {
        remove_first(&mut self.items, false, at);
        self.first = first_times(&self.items);
    }

    /// Takes the worker out that takes a job at a moment: none, if the worker that takes it has just finished another one.
    pub(crate) fn remove_taker(&mut self, own: bool, at: u64)
        ensures { self.new.items ≡ without_taker own at self.old.items }
    {
        if own {
            return;
        }
        remove_taker(&mut self.items, own, at);
        self.first = first_times(&self.items);
    }
}
