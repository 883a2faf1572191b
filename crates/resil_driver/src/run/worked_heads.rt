//! Heads worked by hand: the definitions at work, by computation alone.
//!
//! The definitions of heads follow the reader step by step, so both could have the same mistake.
//! Here they are checked against texts with a meaning that a reader sees at once.

ghost use Rattle.resil_driver.specs.Run.WorkedHeads.{WorkedRunHeads};

/// What heads of a `run` say, and the errors of others in their order. It does nothing: only its
/// contract matters.
pub fn worked_run_heads()
    ensures { WorkedRunHeads }
{}
