//! Heads worked by hand: the definitions at work, by computation alone.
//!
//! The definitions of heads follow the reader step by step, so both could have the same mistake. Here
//! they are checked against texts with a meaning that a reader sees at once.

ghost use Rattle.resil_weave.specs.WorkedHeads.{WorkedWeaveHeads};

/// What heads of a `weave` say, and the errors of others in their order. It does nothing: only its
/// contract matters.
pub fn worked_weave_heads()
    ensures { WorkedWeaveHeads }
{}
