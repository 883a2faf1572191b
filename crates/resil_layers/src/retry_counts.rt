//! Counts of calls that are retried.

ghost use Rattle.std.specs.Prelude.{◌≡◌};
ghost use Rattle.resil_layers.specs.Counting.{one_more};
ghost use Rattle.resil_layers.specs.RetryCounts.{retry_kind, with_kind, with_end};

use crate::retried_observed::RetryObserver;
use resil_call::{End, Tried};
use std::sync::atomic::AtomicU64;
use std::sync::atomic::Ordering::SeqCst;

/// The outcome of a call with retries (Resilience4j user guide, Micrometer: the label `kind` of `resilience4j_retry_calls`). A
/// value that isn't to be tried again is a success, and anything else a failure.
#[derive(Clone, Copy, PartialEq, Eq, Debug)]
pub enum RetryKind {
    /// A success at the first attempt.
    SuccessfulWithoutRetry,
    /// A success at a later attempt.
    SuccessfulWithRetry,
    /// A failure at the only attempt.
    FailedWithoutRetry,
    /// A failure at a later attempt.
    FailedWithRetry,
}

impl RetryKind {
    /// Returns the kind of a retry.
    ///
    /// ```
    /// let tried = retry(&RetryPolicy::defaults(), &mut call, &mut NoPause);
    /// assert!(rt; RetryKind::of(&tried) == RetryKind::SuccessfulWithoutRetry);
    /// ```
    pub fn of<T, E>(tried: &Tried<Result<T, E>>) -> RetryKind
        ensures { result ≡ retry_kind tried.now }
    {
        let success = tried.end == End::Accepted && tried.answer.is_ok();
        match (success, tried.attempts > 1) {
            (true, false) => RetryKind::SuccessfulWithoutRetry,
            (true, true) => RetryKind::SuccessfulWithRetry,
            (false, false) => RetryKind::FailedWithoutRetry,
            (false, true) => RetryKind::FailedWithRetry,
        }
    }
}

/// The outcomes of retries, in words that threads add to and any thread may read. No clause says what a word holds. As the
/// observer of a chain's retries it counts each wait before it begins, and adds the outcome at the end.
///
/// ```
/// let counts = RetryCounts::new("prices");
/// let tried = retry(&RetryPolicy::defaults(), &mut call, &mut NoPause);
/// counts.add(&tried);
/// println!(rt; "{} attempts more", counts.retried())?;
/// ```
#[derive(Drop)]
pub struct RetryCounts<'a> {
    name: &'a str,
    successful_without: AtomicU64,
    successful_with: AtomicU64,
    failed_without: AtomicU64,
    failed_with: AtomicU64,
    retried: AtomicU64,
    exhausted: AtomicU64,
    out_of_time: AtomicU64,
    waits: AtomicU64,
}

impl<'a> RetryCounts<'a> {
    /// Makes counts that are all 0, under this name.
    pub fn new(name: &'a str) -> RetryCounts<'a>
        ensures { result.name.now ≡ name.now }
    {
        RetryCounts {
            name,
            successful_without: AtomicU64::new(0),
            successful_with: AtomicU64::new(0),
            failed_without: AtomicU64::new(0),
            failed_with: AtomicU64::new(0),
            retried: AtomicU64::new(0),
            exhausted: AtomicU64::new(0),
            out_of_time: AtomicU64::new(0),
            waits: AtomicU64::new(0),
        }
    }

    /// Returns the name.
    pub fn name(&self) -> &'a str
        ensures { result.now ≡ self.now.name.now }
    {
        self.name
    }

    // The word of a kind, to add to or to read.
    fn word(&self, kind: RetryKind) -> &AtomicU64 {
        match kind {
            RetryKind::SuccessfulWithoutRetry => &self.successful_without,
            RetryKind::SuccessfulWithRetry => &self.successful_with,
            RetryKind::FailedWithoutRetry => &self.failed_without,
            RetryKind::FailedWithRetry => &self.failed_with,
        }
    }

    /// Counts a retry: its kind, its attempts after the first, and why no more were made.
    pub fn add<T, E>(&self, tried: &Tried<Result<T, E>>) {
        self.word(RetryKind::of(tried)).fetch_add(1, SeqCst);
        let more = tried.attempts.saturating_sub(1);
        self.retried.fetch_add(u64::from(more), SeqCst);
        let ends = match tried.end {
            End::Accepted => return,
            End::Exhausted => &self.exhausted,
            End::OutOfTime => &self.out_of_time,
        };
        ends.fetch_add(1, SeqCst);
    }

    /// Returns how many retries were of this kind.
    pub fn count(&self, kind: RetryKind) -> u64 {
        self.word(kind).load(SeqCst)
    }

    /// Returns how many attempts were made, without the first of each retry.
    pub fn retried(&self) -> u64 {
        self.retried.load(SeqCst)
    }

    /// Returns how many retries had no attempt left.
    pub fn exhausted(&self) -> u64 {
        self.exhausted.load(SeqCst)
    }

    /// Returns how many retries were ended by their limit.
    pub fn out_of_time(&self) -> u64 {
        self.out_of_time.load(SeqCst)
    }

    /// Returns how many waits it has seen, each counted as it began.
    pub fn waits(&self) -> u64 {
        self.waits.load(SeqCst)
    }
}

impl<T, E> RetryObserver<Result<T, E>> for &RetryCounts<'_> {
    fn on_retry(&mut self, _attempt: u32, _milliseconds: u64) {
        self.waits.fetch_add(1, SeqCst);
    }

    fn on_end(&mut self, tried: &Tried<Result<T, E>>) {
        self.add(tried);
    }
}

/// The outcomes of the retries of one chain, in numbers of its own. None exceeds 2^64 - 1.
#[derive(Clone, Copy, Debug, Default)]
pub struct OwnRetryCounts {
    /// How many waits it has seen: one before each attempt after a first one.
    pub waits: u64,
    /// How many retries were a success at the first attempt.
    pub successful_without_retry: u64,
    /// How many were a success at a later attempt.
    pub successful_with_retry: u64,
    /// How many failed at the only attempt.
    pub failed_without_retry: u64,
    /// How many failed at a later attempt.
    pub failed_with_retry: u64,
    /// How many had no attempt left.
    pub exhausted: u64,
    /// How many were ended by their limit.
    pub out_of_time: u64,
}

// One more, up to 2^64 - 1.
fn add_one(count: &mut u64)
    ensures { count.new ≡ one_more count.old }
{
    *count = count.saturating_add(1);
}

impl<T, E> RetryObserver<Result<T, E>> for OwnRetryCounts {
    ghost IsRetry = { λ x _ _ y. y ≡ record x { waits = one_more x.waits } };

    ghost IsEnd = { λ x tried y. y ≡ with_end (with_kind x (retry_kind tried)) tried.end };

    fn on_retry(&mut self, _attempt: u32, _milliseconds: u64) {
        add_one(&mut self.waits);
    }

    fn on_end(&mut self, tried: &Tried<Result<T, E>>) {
        match RetryKind::of(tried) {
            RetryKind::SuccessfulWithoutRetry => add_one(&mut self.successful_without_retry),
            RetryKind::SuccessfulWithRetry => add_one(&mut self.successful_with_retry),
            RetryKind::FailedWithoutRetry => add_one(&mut self.failed_without_retry),
            RetryKind::FailedWithRetry => add_one(&mut self.failed_with_retry),
        }
        match tried.end {
            End::Accepted => {}
            End::Exhausted => add_one(&mut self.exhausted),
            End::OutOfTime => add_one(&mut self.out_of_time),
        }
    }
}
