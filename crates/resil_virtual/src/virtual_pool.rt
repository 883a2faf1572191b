//! The pools that `simulate` runs in virtual time.

ghost use Rattle.std.specs.Prelude.{◌≡◌, option_to_list};
ghost use Rattle.resil_virtual.specs.Simulated.{opening};

use resil_jdk::{JdkEvent, JdkLimits, TimedJdkEvent};

/// A pool in virtual time, of any sizes of the JDK's `ThreadPoolExecutor`.
#[derive(Clone, Copy, Debug)]
pub struct VirtualPool {
    /// Its sizes.
    pub limits: JdkLimits,
    /// Whether core workers time out too (`allowCoreThreadTimeOut`).
    pub time_out: bool,
    /// How many microseconds a worker above the core size may be idle.
    pub idle_for: u64,
    /// How many microseconds a worker that was idle, or that begins without a job, takes until it looks for a job.
    pub wakes: u64,
}

impl VirtualPool {
    /// The event that comes before all else, at 0: that core workers time out, if they do.
    pub fn opening(&self) -> Option<TimedJdkEvent>
        ensures { option_to_list result ≡ opening self.now }
    {
        if self.time_out {
            Some(TimedJdkEvent {
                event: JdkEvent::TimeOut(true),
                at: 0,
            })
        } else {
            None
        }
    }
}
