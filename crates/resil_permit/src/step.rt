//! The single steps by which callers take permits, give them back, retire them and raise them again, and what each step shows. A
//! try to take a permit is two steps, a load and an exchange. Other callers may step in between.
ghost use Rattle.std.specs.Prelude.{◌≡◌};
ghost use Rattle.resil_permit.specs.WordMachine.{caller_of, event_shown};

use crate::event::PermitEvent;

/// One atomic step on the word, with the number of its caller.
#[derive(Clone, Copy, PartialEq, Eq, Debug)]
pub enum Step {
    /// Reads the number of free permits. Its caller must not have loaded one already.
    Load(u16),
    /// Takes a permit if the word is still what the caller loaded. Its caller must have loaded a number.
    Exchange(u16),
    /// Gives a permit back. Its caller must hold one and have loaded no number.
    Add(u16),
    /// Keeps a permit back, so that one less is in use. Its caller must hold one and have loaded no number.
    Retire(u16),
    /// Puts a permit back into use. Its caller must have retired one and have loaded no number.
    Raise(u16),
}

/// What a step shows its caller.
#[derive(Clone, Copy, PartialEq, Eq, Debug)]
pub enum Shown {
    /// A load found free permits.
    Loaded,
    /// A load found no free permit: the caller is refused.
    Refused,
    /// An exchange took a permit.
    Took,
    /// An exchange found a number other than the one its caller had loaded, and changed nothing.
    Lost,
    /// An add gave a permit back.
    Gave,
    /// A retire kept a permit back and left the word as it was.
    Retired,
    /// A raise put a permit back into use, and the permit is now free.
    Raised,
}

impl Step {
    pub(crate) fn caller(self) -> u16
        ensures { result ≡ caller_of self }
    {
        match self {
            Step::Load(caller)
            | Step::Exchange(caller)
            | Step::Add(caller)
            | Step::Retire(caller)
            | Step::Raise(caller) => caller,
        }
    }
}

impl Shown {
    // The event that the step adds to the permit history, if it adds one.
    pub(crate) fn event(self, caller: u16) -> Option<PermitEvent>
        ensures { result ≡ event_shown caller self }
    {
        match self {
            Shown::Loaded | Shown::Lost => None,
            Shown::Refused => Some(PermitEvent::Refused(caller)),
            Shown::Took => Some(PermitEvent::Took(caller)),
            Shown::Gave => Some(PermitEvent::Gave(caller)),
            Shown::Retired => Some(PermitEvent::Retired(caller)),
            Shown::Raised => Some(PermitEvent::Raised(caller)),
        }
    }
}
