//! The outcome of a retry.

/// Why a retry made no more attempts.
///
/// ```
/// match tried.end {
///     End::Accepted => tried.answer,
///     End::Exhausted | End::OutOfTime => or_else(tried.answer),
/// }
/// ```
#[derive(Clone, Copy, PartialEq, Eq, Debug)]
pub enum End {
    /// The last answer isn't to be tried again.
    Accepted,
    /// The last answer is to be tried again, and no attempt is left.
    Exhausted,
    /// The last answer is to be tried again, but the limit doesn't allow the wait before the next
    /// attempt. A retry without a limit never ends this way.
    OutOfTime,
}

/// The outcome of a retry.
///
/// ```
/// let tried = retry(&policy, &mut call, &mut NoPause);
/// println!(rt; "{:?} by {} attempts: {:?}", tried.answer, tried.attempts, tried.end)?;
/// ```
///
/// In a whole program: crates/resil_guide/src/retry.rt.
#[derive(Debug, Drop)]
pub struct Tried<T> {
    /// The answer of the last attempt.
    pub answer: T,
    /// How many attempts were made, the first call included.
    pub attempts: u32,
    /// Why no more were made.
    pub end: End,
}
