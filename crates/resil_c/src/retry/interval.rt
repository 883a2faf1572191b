//! The interval that C has: the numbers that it was made with.
ghost use Rattle.std.specs.Prelude.{◌≡◌, Some, IfSome, IfNone};
ghost use Rattle.resil_retry.specs.declared.interval.Backoff.TheVariants.{Fixed, Exponential};
ghost use Rattle.resil_retry.specs.Interval.{IsBackoff};
ghost use Rattle.resil_c.specs.Handles.{Has};
ghost use Rattle.resil_c.specs.Retry.{backoff_of};

use resil_retry::Interval;

// The values of the word `kind` of an interval. 0 is no interval.
const FIXED: u32 = 1;

const EXPONENTIAL: u32 = 2;

/// An interval. The waits are in milliseconds.
///
/// C may write other numbers into it, so each call that takes one makes the interval anew, by the rules of its first making.
#[repr(C)]
#[derive(Clone, Copy, Drop)]
pub struct RetryInterval {
    /// The wait after the first attempt.
    pub initial: u64,
    /// For an exponential interval the longest wait, otherwise 0.
    pub cap: u64,
    /// For an exponential interval the factor for the next wait, otherwise 0.
    pub numerator: u32,
    /// For an exponential interval the divisor for the next wait, otherwise 0.
    pub denominator: u32,
    /// 0 no interval, 1 a fixed interval, 2 an exponential one.
    pub kind: u32,
}

impl RetryInterval {
    // One wait after each attempt.
    pub(crate) fn fixed(ms: u64) -> RetryInterval
        ensures { backoff_of result ≡ Some (Fixed ms) }
    {
        RetryInterval {
            initial: ms,
            cap: 0,
            numerator: 0,
            denominator: 0,
            kind: FIXED,
        }
    }

    // A wait that grows from attempt to attempt.
    pub(crate) fn exponential(
        initial: u64,
        numerator: u32,
        denominator: u32,
        cap: u64,
    ) -> RetryInterval
        ensures { backoff_of result ≡ Some (Exponential initial numerator denominator cap) }
    {
        RetryInterval {
            initial,
            cap,
            numerator,
            denominator,
            kind: EXPONENTIAL,
        }
    }

    // The interval of these numbers, or nothing if no interval has them.
    pub(crate) fn interval(&self) -> Option<Interval>
        ensures interval { IfSome result (λ backoff. backoff_of self.now ≡ Some backoff) }
        ensures made { IfSome result IsBackoff }
        ensures none { IfNone result (¬ Has IsBackoff (backoff_of self.now)) }
    {
        match self.kind {
            FIXED => Interval::fixed(self.initial).ok(),
            EXPONENTIAL => Interval::exponential(
                self.initial,
                self.numerator,
                self.denominator,
                self.cap,
            ).ok(),
            _ => None,
        }
    }
}
