//! Outcomes: what a call returns, and how a retry ends.
//!
//! A value is a number and an error is known by its kind, so outcomes are compared and copied
//! without allocating.

/// The kind of an error. Kinds are compared by equality.
///
/// ```
/// match kind {
///     Kind::Code(code) => println!(rt; "error {code}")?,
///     Kind::Full => println!(rt; "the bulkhead was full")?,
///     Kind::Exceeded => println!(rt; "no attempt was left")?,
/// }
/// ```
#[derive(Clone, Copy, Debug, PartialEq, Eq)]
pub enum Kind {
    /// An error of the called function, by its code.
    Code(u16),
    /// A bulkhead had no free permit, and the function wasn't called.
    Full,
    /// No attempt was left, and the last value was still to be retried.
    Exceeded,
}

/// What one call returned.
#[derive(Clone, Copy, Debug, PartialEq, Eq)]
pub enum Outcome {
    /// The function returned a value.
    Value(i64),
    /// The function, or a layer around it, returned an error.
    Error(Kind),
}

/// How a retry ended.
///
/// ```
/// let (outcome, ending) = retry(&config, &mut Player::new(&script), &mut waits);
/// if ending == Ending::Exhausted {
///     println!(rt; "no attempt was left: {outcome:?}")?;
/// }
/// ```
#[derive(Clone, Copy, Debug, PartialEq, Eq)]
pub enum Ending {
    /// A value that isn't to be retried, at the first call.
    First,
    /// A value that isn't to be retried, at a later call.
    Later,
    /// An error that isn't to be retried.
    Ignored,
    /// No attempt was left, and the last outcome was still to be retried.
    Exhausted,
}
