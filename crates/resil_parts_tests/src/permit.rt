//! Permits: a pass by hand, four threads at two permits, and the texts of errors.
//!
//! Steps in a written order are shown by `examples/weave`.

ghost use Rattle.std.specs.Prelude.{◌≡◌};

use crate::shared::{assert_all_shown, permits};
use resil_permit::{Acquire, Attempt, Pass, PermitError, Permits, WeaveError};
use std::process::Abort;
use std::sync::Wait;
use std::sync::atomic::Ordering::SeqCst;
use std::sync::atomic::{AtomicBool, AtomicU32};
use std::thread;

const ERRORS: &str = "there are more than 65535 permits
out of memory";

const WEAVE_ERRORS: &str = "step 3: the caller has loaded nothing to exchange
step 4: the caller holds no permit
step 5: the caller has loaded a number and must exchange it first
step 6: the caller has retired no permit";

#[test]
fn error_texts(rt: HostRuntime) {
    let errors = [PermitError::TooManyPermits, PermitError::Memory];
    assert_all_shown(&rt, rt.alloc(), &errors, ERRORS);
    let errors = [
        WeaveError::NotLoaded(3),
        WeaveError::NotHolding(4),
        WeaveError::StillLoaded(5),
        WeaveError::NotRetired(6),
    ];
    assert_all_shown(&rt, rt.alloc(), &errors, WEAVE_ERRORS);
}

// Permits, and a pass of them.
#[derive(Drop)]
struct Desk<'a> {
    permits: &'a Permits,
    pass: Pass,
    ghost own: { pass.source ≡ permits.now },
}

impl Desk<'_> {
    // Makes a call, if the pass holds a permit to give back, or has retired one to raise. Returns whether it succeeds.
    fn answers(&mut self, rt: &impl Wait, call: &str) -> bool {
        match call {
            "try" => return self.permits.try_once(&mut self.pass) == Attempt::Taken,
            "acquire" => return self.permits.try_acquire(rt, &mut self.pass) == Acquire::Taken,
            "give" if self.pass.held() > 0 => self.permits.release(&mut self.pass),
            "give-quietly" if self.pass.held() > 0 => {
                self.permits.release_without_wake(&mut self.pass);
            }
            "retire" if self.pass.held() > 0 => self.permits.retire(&mut self.pass),
            "raise" if self.pass.retired() > 0 => self.permits.raise(&mut self.pass),
            "raise-quietly" if self.pass.retired() > 0 => {
                self.permits.raise_without_wake(&mut self.pass);
            }
            "join" => {
                let other = self.permits.split(&mut self.pass);
                self.permits.join(&mut self.pass, other);
            }
            _ => return false,
        }
        true
    }

    // How many permits the pass holds and has retired, and how many are free.
    fn counts(&mut self) -> (u32, u32, u32) {
        let free = self.permits.available(&mut self.pass);
        (self.pass.held(), self.pass.retired(), free)
    }
}

// Calls with a pass of two permits, whether they succeed, and the counts after them.
const CALLS: [(&str, bool, (u32, u32, u32)); 12] = [
    ("raise", false, (0, 0, 2)),
    ("try", true, (1, 0, 1)),
    ("acquire", true, (2, 0, 0)),
    ("try", false, (2, 0, 0)),
    ("acquire", false, (2, 0, 0)),
    ("retire", true, (1, 1, 0)),
    ("give", true, (0, 1, 1)),
    ("raise", true, (0, 0, 2)),
    ("try", true, (1, 0, 1)),
    ("join", true, (1, 0, 1)),
    ("retire", true, (0, 1, 1)),
    ("raise-quietly", true, (0, 0, 2)),
];

#[test]
fn permits_by_hand(rt: HostRuntime) {
    let (permits, pass) = permits(&rt, rt.alloc(), 2);
    let mut desk = Desk {
        permits: &permits,
        pass,
    };
    for (call, succeeds, counts) in CALLS {
        assert!(rt;
            desk.answers(&rt, call) == succeeds && desk.counts() == counts,
            "{call}"
        );
    }
    assert!(rt; desk.answers(&rt, "try") && desk.answers(&rt, "give-quietly"));
    assert!(rt; permits.max() == 2);
}

// The number of threads that hold a permit, and whether it was ever above the number of permits.
#[derive(Drop)]
struct Room {
    inside: AtomicU32,
    crowded: AtomicBool,
}

fn visit(permits: &Permits, room: &Room) {
    let mut pass = permits.new_pass();
    if permits.try_once(&mut pass) == Attempt::Taken {
        if room.inside.fetch_add(1, SeqCst) >= permits.max() {
            room.crowded.store(true, SeqCst);
        }
        room.inside.fetch_sub(1, SeqCst);
        permits.release(&mut pass);
    }
}

fn visit_often(permits: &Permits, room: &Room) {
    for _ in 0..1_000u32 {
        visit(permits, room);
    }
}

#[test]
fn crowd(rt: HostRuntime) {
    let (permits, mut pass) = permits(&rt, rt.alloc(), 2);
    let room = Room {
        inside: AtomicU32::new(0),
        crowded: AtomicBool::new(false),
    };
    let visited = thread::map_indices(&rt, rt.alloc(), 4, &|_| visit_often(&permits, &room));
    assert!(rt; visited.is_ok() && !room.crowded.load(SeqCst));
    assert!(rt; permits.available(&mut pass) == 2);
}
