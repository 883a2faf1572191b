//! Bulkheads: what one of two permits shows while a call runs, and the texts of errors.

ghost use Rattle.std.specs.Prelude.{◌≡◌};

use crate::shared::{assert_all_shown, bulkhead, free};
use resil_bulkhead::{Bulkhead, BulkheadError};
use resil_call::Call;
use resil_retry::{Callee, Outcome};
use std::sync::Wait;

const ERRORS: &str = "a name must be 1 to 64 bytes of ASCII letters, digits, `-`, `_` and `.`
a bulkhead permits at most 65535 concurrent calls
out of memory";

#[test]
fn error_texts(rt: HostRuntime) {
    let errors = [
        BulkheadError::BadName,
        BulkheadError::TooManyPermits,
        BulkheadError::Memory,
    ];
    assert_all_shown(&rt, rt.alloc(), &errors, ERRORS);
}

// A function that reads, while it is called, how many permits of its bulkhead are free.
#[derive(Drop)]
struct Observer<'a> {
    bulkhead: &'a Bulkhead,
    free: Option<u32>,
}

impl Call for Observer<'_> {
    ghost use Rattle.std.specs.Prelude.{◌≡◌, pos, Some};
    ghost use Rattle.resil_retry.specs.declared.outcome.Outcome.TheVariants.{Value};

    type Output = Outcome;

    ghost IsAnswer = { λ _ outcome _. Some (Value (pos 0)) ≡ Some outcome };

    fn call(&mut self) -> Outcome {
        self.free = Some(free(self.bulkhead));
        Outcome::Value(0)
    }
}

impl Callee for Observer<'_> {
    ghost use Rattle.std.specs.Prelude.{◌∷◌, [], pos, refl};
    ghost use Rattle.resil_retry.specs.declared.outcome.Outcome.TheVariants.{Value};

    ghost script = { λ _. Value (pos 0) ∷ [] };

    ghost can_call = { λ _. tt };

    ghost answers = { λ _ _ _ made. (made, refl) };
}

// The outcome of a call of an observer, and how many permits are free while it is called.
fn observed(rt: &impl Wait, bulkhead: &Bulkhead) -> (Outcome, Option<u32>) {
    let mut observer = Observer {
        bulkhead,
        free: None,
    };
    let outcome = bulkhead.execute(rt, &mut bulkhead.new_pass(), &mut observer);
    (outcome, observer.free)
}

// The same with one try.
fn observed_once(bulkhead: &Bulkhead) -> (Option<Outcome>, Option<u32>) {
    let mut observer = Observer {
        bulkhead,
        free: None,
    };
    let outcome = bulkhead.execute_once(&mut bulkhead.new_pass(), &mut observer);
    (outcome, observer.free)
}

// Nothing is held after the calls.
#[test]
fn held_while_called(rt: HostRuntime) {
    let (two, _pass) = bulkhead(&rt, rt.alloc(), 2);
    assert!(rt; observed(&rt, &two) == (Outcome::Value(0), Some(1)));
    assert!(rt; observed_once(&two) == (Some(Outcome::Value(0)), Some(1)));
    assert!(rt; free(&two) == 2);
}
