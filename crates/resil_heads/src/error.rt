//! Why a head is refused, and which part of it.

ghost use Rattle.std.specs.Prelude.{◌≡◌};
ghost use Rattle.resil_heads.specs.declared.error.HeadError.TheVariants.{Memory};

use resil_decor::DecorError;
use resil_registry::RegistryError;
use resil_retry::RetryError;
use resil_rule::AdmitError;
use std::alloc::{AllocError, AllocFailed};
use std::marker::Model;
use thiserror::Error;

/// Why a head is refused. `Memory` may come at any stage; the other errors are in the order of the stages.
#[derive(Clone, Copy, Debug, Error)]
pub enum HeadError {
    /// Out of memory.
    #[error("out of memory")]
    Memory,
    /// The head isn't UTF-8, or it isn't a TOML document.
    #[error("the head is not TOML")]
    BadToml,
    /// A key isn't one that the command knows.
    #[error("the head has an unknown key")]
    UnknownKey,
    /// A required key is missing.
    #[error("a required key of the head is missing")]
    MissingKey,
    /// A value isn't of its kind, or isn't in its range.
    #[error("a value of the head has the wrong type or is out of range")]
    BadValue,
    /// The pool refuses the sizes.
    #[error(transparent)]
    Limits(AdmitError),
    /// There are more permits than a word can count.
    #[error("there are more than 65535 permits")]
    TooManyPermits,
    /// A bulkhead of a text has the name of an earlier one, whose number this is, from 1.
    #[error("bulkhead {0} already has that name")]
    SameName(usize),
    /// The registry refuses a configuration or a bulkhead.
    #[error(transparent)]
    Registry(RegistryError),
    /// A retry refuses its parts.
    #[error(transparent)]
    Retry(RetryError),
    /// The layers make no chain.
    #[error(transparent)]
    Chain(DecorError),
}

impl From<AllocError> for HeadError {
    ghost from_gives = { λ _ error. error ≡ Memory };

    fn from(_refused: AllocError) -> HeadError {
        HeadError::Memory
    }
}

impl<T: Drop> From<AllocFailed<T>> for HeadError {
    ghost from_gives = { λ _ error. error ≡ Memory };

    fn from(_refused: AllocFailed<T>) -> HeadError {
        HeadError::Memory
    }
}

/// A part of a head.
#[derive(Clone, Copy, Debug)]
pub enum Part {
    /// The head itself, by its own keys, or the chain of its layers.
    Head,
    /// The configuration at this place in byte order of their names, from 0.
    Configuration(usize),
    /// The layer at this place, from 0.
    Layer(usize),
}

/// Which key of a part is at fault.
#[derive(Clone, Copy, Debug)]
pub enum FaultyKey {
    /// No key, or the part is itself one key.
    Whole,
    /// This key: it is missing, or its value is refused.
    Known(&'static str),
    /// This key, for the item at this place of its array, from 0.
    Item(&'static str, usize),
    /// The key at this place of all that the part has, in byte order, from 0: no such part may have it.
    Other(usize),
}

/// Why a head is refused, with the part that is refused and its key. Contracts see only the reason.
#[derive(Debug, Drop)]
pub struct HeadFault {
    why: HeadError,
    part: Part,
    key: FaultyKey,
}

impl Model for HeadFault {
    ghost use Rattle.resil_heads.specs.declared.error.HeadError.{HeadError};

    ghost Value = { HeadError };

    ghost view = { λ fault. fault.why };
}

// The key that an error is about, wherever the error occurs, if there is one.
fn key_of(why: HeadError) -> FaultyKey {
    FaultyKey::Known(match why {
        HeadError::Limits(AdmitError::CoreOutOfRange) => "core",
        HeadError::Limits(AdmitError::MaxOutOfRange) => "max",
        HeadError::Limits(AdmitError::QueueOutOfRange) => "queue",
        HeadError::TooManyPermits => "permits",
        HeadError::Registry(RegistryError::NoSuchConfig) => "config",
        HeadError::Registry(_) => "name",
        HeadError::Retry(RetryError::IntervalTooLong) => "interval",
        HeadError::Retry(RetryError::BadMultiplier) => "multiplier",
        HeadError::Retry(RetryError::CapBelowInitial) => "cap",
        HeadError::Retry(_) | HeadError::Chain(DecorError::TooManyCalls) => "attempts",
        _ => return FaultyKey::Whole,
    })
}

impl HeadFault {
    /// A key of the head itself that is refused for this reason.
    pub fn at(key: FaultyKey, why: HeadError) -> HeadFault
        ensures { result ≡ why }
    {
        let part = Part::Head;
        HeadFault { why, part, key }
    }

    /// The same fault, of a part of the head.
    pub fn of(self, part: Part) -> HeadFault
        ensures { result ≡ self }
    {
        let HeadFault { why, key, .. } = self;
        HeadFault { why, part, key }
    }

    /// Why the head is refused.
    pub fn why(&self) -> HeadError
        ensures { result ≡ self.now }
    {
        self.why
    }

    /// The part that is refused.
    pub fn part(&self) -> Part {
        self.part
    }

    /// The key of the part that is at fault.
    pub fn key(&self) -> FaultyKey {
        self.key
    }
}

/// What was read of the value at a key, with the key if the value is refused.
pub fn at_key<T>(key: &'static str, read: Result<T, HeadError>) -> Result<T, HeadFault>
    ensures { result ≡ read }
{
    match read {
        Ok(value) => Ok(value),
        Err(why) => Err(HeadFault::at(FaultyKey::Known(key), why)),
    }
}

impl From<HeadError> for HeadFault {
    ghost from_gives = { λ why fault. fault ≡ why };

    fn from(why: HeadError) -> HeadFault {
        HeadFault::at(key_of(why), why)
    }
}

impl From<HeadFault> for HeadError {
    ghost from_gives = { λ fault why. why ≡ fault };

    fn from(fault: HeadFault) -> HeadError {
        fault.why
    }
}

impl From<AllocError> for HeadFault {
    ghost from_gives = { λ _ fault. fault ≡ Memory };

    fn from(_refused: AllocError) -> HeadFault {
        HeadFault::from(HeadError::Memory)
    }
}

impl<T: Drop> From<AllocFailed<T>> for HeadFault {
    ghost from_gives = { λ _ fault. fault ≡ Memory };

    fn from(_refused: AllocFailed<T>) -> HeadFault {
        HeadFault::from(HeadError::Memory)
    }
}
