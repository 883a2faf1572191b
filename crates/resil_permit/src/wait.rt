//! Waiting for a permit.
//!
//! Each step of a wait is one sequentially consistent step:
//!
//! 1. One try. Most calls end here: the try takes a permit, or the time is zero, or there are no permits at all, or the clock can't
//!    be read.
//! 2. `waiting` rises by 1.
//! 3. A try, which takes a permit and ends the wait, or loads 0.
//! 4. Read the clock. If the time is over, the wait ends, refused by the try of step 3.
//! 5. Sleep on the permit word. The sleep begins only while the word is 0, and ends by a wake-up, by the time, or by chance.
//! 6. Go on from step 3. At the end of the wait `waiting` falls by 1.
//!
//! A release or a raise adds 1 to the permit word, then loads `waiting`, and wakes one sleeper if that isn't 0. If it loads 0, step
//! 2 comes after the add, so the try of step 3 finds the permit, or another caller has taken it and will release it. Otherwise it
//! wakes a sleeper, and a caller that isn't asleep yet finds at step 5 a word that isn't 0. A woken caller tries once more even if
//! its time is over, so no wake-up is lost. The clauses say that the clock was read after each refused try of step 3, and that the
//! wait goes on exactly while time is left by that reading. They don't say how long a sleep takes, nor which of the waiting callers
//! gets a permit first.
ghost use Rattle.std.specs.Prelude.{◌≡◌};
ghost use Rattle.std.specs.Duration.{as_nanos};
ghost use Rattle.resil_clock.specs.Waits.{HasWaitedSince};
ghost use Rattle.resil_permit.specs.Passes.{PassView, held_by, retired_by, IsSamePass};
ghost use Rattle.resil_permit.specs.TryAcquire.{IsTry, held_after, last_try};
ghost use Rattle.resil_permit.specs.Waits.{HasWaited, HasWaitedBy, IsRefusedTry, is_refused};

use crate::acquire::Acquire;
use crate::pass::Pass;
use crate::permits::Permits;
use resil_clock::{Reads, TimeLeft};
use std::sync::Wait;
use std::time::Duration;

impl Permits {
    /// Takes a permit, waiting for one for at most `longest`, or finds at the end that none is free. If `longest` is zero, or if
    /// there are no permits at all, it is `try_acquire`. Waiting isn't fair: a newer caller may get the permit first.
    ///
    /// ```
    /// match permits.acquire_within(&rt, &mut pass, Duration::from_millis(50)) {
    ///     Acquire::Taken => permits.release(&mut pass),
    ///     Acquire::Full => println!(rt; "no permit came free")?,
    /// }
    /// ```
    pub fn acquire_within<R: Wait + Reads>(
        &self,
        rt: &R,
        pass: &mut Pass,
        longest: Duration,
    ) -> Acquire
        requires { pass.old.source ≡ self.now }
        ensures pass { IsSamePass pass.old pass.new }
        ensures tried { (waited : PassView) × HasWaited (as_nanos longest) pass.old waited × IsTry waited pass.new (last_try result) }
        ensures by_the_clock { (waited : PassView) × HasWaitedBy (R.HasSaid rt.now) (as_nanos longest) self.now.max pass.old waited (last_try result) × IsTry waited pass.new (last_try result) }
        ensures at_once { as_nanos longest ≡ 0 → IsTry pass.old pass.new (last_try result) }
        ensures no_permits { self.now.max ≡ 0 → IsTry pass.old pass.new (last_try result) }
        ensures held { held_by pass.new ≡ held_after (held_by pass.old) (last_try result) }
        ensures retired { retired_by pass.new ≡ retired_by pass.old }
    {
        let first = self.try_acquire(rt, pass);
        if first == Acquire::Taken || longest.is_zero() || self.max() == 0 {
            return first;
        }
        let Some(time) = TimeLeft::start(rt, longest) else {
            return first;
        };
        self.begin_wait();
        let answer = self.acquire_until(rt, pass, time);
        self.end_wait();
        answer
    }

    // Tries and sleeps until it takes a permit, or until the time, which began just now, is over and the last try was refused.
    fn acquire_until<R: Wait + Reads>(&self, rt: &R, pass: &mut Pass, mut time: TimeLeft) -> Acquire
        requires source { pass.old.source ≡ self.now }
        requires begins { time.last ≡ time.start }
        ensures pass { IsSamePass pass.old pass.new }
        ensures by_the_clock { (waited : PassView) × HasWaitedSince (R.HasSaid rt.now) (as_nanos time.longest) time.start IsRefusedTry pass.old waited (is_refused (last_try result)) × IsTry waited pass.new (last_try result) }
        ensures held { held_by pass.new ≡ held_after (held_by pass.old) (last_try result) }
        ensures retired { retired_by pass.new ≡ retired_by pass.old }
    {
        for _ in rt.forever() {
            if self.try_acquire(rt, pass) == Acquire::Taken {
                return Acquire::Taken;
            }
            let Some(left) = time.left(rt) else {
                return Acquire::Full;
            };
            self.sleep(rt, left);
        }
        unreachable!()
    }
}
