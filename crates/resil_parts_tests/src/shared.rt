//! What the tests of several crates share: things to make, strings to take apart or compare, and values in order.
//!
//! Except for bulkheads and permits none of it has a contract, so a test carries along nothing of what was called for it.

ghost use Rattle.std.specs.Prelude.{◌≡◌};

use resil_admission::{Id, Reply};
use resil_bulkhead::{Bulkhead, Pass};
use resil_call::Call;
use resil_decor::{Chain, DecorError, Job, Layer, Listed, Plan};
use resil_permit::{Pass as PermitPass, Permits};
use resil_retry::{
    ErrorTest, Interval, Kind, Outcome, ResultTest, RetryConfig, RetryError, Script,
};
use std::alloc::Global;
use std::cell::Cell;
use std::fmt::Display;
use std::io;
use std::process::Abort;
use std::time::{Clock, Duration};

/// A bulkhead that permits this many concurrent calls.
pub fn bulkhead(rt: &impl Abort, alloc: Global, max: u32) -> (Bulkhead, Pass)
    ensures { result.1.source ≡ result.0.permits }
{
    Bulkhead::new(alloc, "db", max).expect(rt, "a bulkhead")
}

/// This many permits.
pub fn permits(rt: &impl Abort, alloc: Global, max: u32) -> (Permits, PermitPass)
    ensures { result.1.source ≡ result.0 }
{
    Permits::new(alloc, max).expect(rt, "permits")
}

/// How many permits of a bulkhead are free.
pub fn free(bulkhead: &Bulkhead) -> u32 {
    bulkhead.available(&mut bulkhead.new_pass())
}

/// What was written down, digit by digit.
#[derive(Drop)]
pub struct Digits(Cell<u64>);

impl Digits {
    /// Nothing yet.
    pub fn new() -> Digits {
        Digits(Cell::new(0))
    }

    /// Writes a digit down.
    pub fn write(&self, digit: u64) {
        self.0
            .set(self.0.get().wrapping_mul(10).wrapping_add(digit));
    }

    /// All digits, as one number.
    pub fn all(&self) -> u64 {
        self.0.get()
    }
}

/// A clock that is 3 ms later at each reading.
#[derive(Drop)]
pub struct Ticks(Cell<u64>);

impl Ticks {
    /// Not read yet.
    pub fn new() -> Ticks {
        Ticks(Cell::new(0))
    }
}

impl Clock for Ticks {
    fn monotonic(&self) -> io::Result<Duration> {
        let now = self.0.get().saturating_add(3);
        self.0.set(now);
        Ok(Duration::from_millis(now))
    }

    fn since_1970(&self) -> io::Result<Duration> {
        Ok(Duration::ZERO)
    }
}

/// A function that always gives this answer.
#[derive(Drop)]
pub struct Always<T>(pub T);

impl<T: Copy + Drop> Call for Always<T> {
    type Output = T;

    fn call(&mut self) -> T {
        self.0
    }
}

/// A function that returns an error up to its second call, and then values. It counts its calls.
#[derive(Drop)]
pub struct Late(pub u8);

impl Call for Late {
    type Output = Result<u8, u8>;

    fn call(&mut self) -> Result<u8, u8> {
        self.0 = self.0.saturating_add(1);
        if self.0 < 3 { Err(self.0) } else { Ok(self.0) }
    }
}

/// The result of a call that returns what it got together with an error. What came back is dropped.
pub fn answer<T, E: Drop, B: Drop>(given: Result<T, (E, B)>) -> Result<T, E> {
    match given {
        Ok(value) => Ok(value),
        Err((error, _)) => Err(error),
    }
}

/// A script of these outcomes.
pub fn script(alloc: Global, outcomes: &[Outcome]) -> Result<Script, RetryError> {
    Script::new(Vec::from_slice(alloc, outcomes)?)
}

/// A test that names kinds of error and ignores others.
pub fn error_test(
    alloc: Global,
    named: &[Kind],
    ignored: &[Kind],
) -> Result<ErrorTest, RetryError> {
    let named = Vec::from_slice(alloc, named)?;
    let ignored = Vec::from_slice(alloc, ignored)?;
    Ok(ErrorTest::new(named, ignored))
}

/// This many attempts, half a second apart, with such a test.
pub fn config(
    alloc: Global,
    attempts: u32,
    named: &[Kind],
    ignored: &[Kind],
) -> Result<RetryConfig, RetryError> {
    let interval = Interval::fixed(500)?;
    let test = error_test(alloc, named, ignored)?;
    RetryConfig::new(attempts, interval, ResultTest::Never, test, false)
}

/// A short form of a layer. Kinds of error are those that its test names, and those that it ignores.
#[derive(Drop)]
pub enum Sketch {
    Bulkhead(u16),
    /// This number of attempts, half a second apart.
    Retry(u32, &'static [Kind], &'static [Kind]),
    /// This value instead of an error.
    Fallback(i64, &'static [Kind], &'static [Kind]),
}

fn layer(alloc: Global, sketch: &Sketch) -> Result<Layer, RetryError> {
    match sketch {
        Sketch::Bulkhead(id) => Ok(Layer::Bulkhead(*id)),
        Sketch::Retry(attempts, named, ignored) => {
            Ok(Layer::Retry(config(alloc, *attempts, named, ignored)?))
        }
        Sketch::Fallback(value, named, ignored) => Ok(Layer::Fallback {
            catch: error_test(alloc, named, ignored)?,
            value: *value,
        }),
    }
}

fn layers(alloc: Global, sketches: &[Sketch]) -> Result<Vec<Layer>, RetryError> {
    let mut layers = Vec::new(alloc);
    for sketch in sketches {
        let layer = layer(alloc, sketch)?;
        if layers.push(layer).is_err() {
            return Err(RetryError::Memory);
        }
    }
    Ok(layers)
}

/// A plan of these layers, innermost first, around a call with these outcomes, at least one. So a part is refused only when
/// out of memory.
pub fn plan_of(
    alloc: Global,
    sketches: &[Sketch],
    outcomes: &[Outcome],
) -> Result<Plan, DecorError> {
    let Ok(layers) = layers(alloc, sketches) else {
        return Err(DecorError::Memory);
    };
    let chain = answer(Chain::new(layers))?;
    match script(alloc, outcomes) {
        Ok(script) => Ok(Plan::new(chain, script)),
        Err(_) => Err(DecorError::Memory),
    }
}

/// A job of this plan.
pub fn job_of(alloc: Global, plan: Plan) -> Result<Job, DecorError> {
    answer(Job::new(alloc, plan))
}

/// A permitter that gives these answers.
pub fn listed(alloc: Global, answers: &[bool]) -> Result<Listed, DecorError> {
    Listed::new(alloc, Vec::from_slice(alloc, answers)?)
}

/// The part of a string at that place, if such marks separate its parts.
pub fn part<'a>(text: &'a str, mark: &str, place: usize) -> &'a str {
    text.split(mark).nth(place).unwrap_or("")
}

/// The id of a string such as `1-2`, which is submission 2 of caller 1. Anything that isn't a number is read as the maximum value.
pub fn id(text: &str) -> Id {
    Id {
        caller: part(text, "-", 0).parse().unwrap_or(u16::MAX),
        number: part(text, "-", 1).parse().unwrap_or(u64::MAX),
    }
}

/// A reply as a word.
pub fn reply_word(reply: Reply) -> &'static str {
    match reply {
        Reply::Core => "core",
        Reply::Queued => "queued",
        Reply::Extra => "extra",
        Reply::Full => "full",
        Reply::Closed => "closed",
    }
}

/// An answer as a word.
pub fn yes_no(answer: bool) -> &'static str {
    if answer { "yes" } else { "no" }
}

/// Asserts that a string is the one that is wanted, and names the place of any other.
pub fn assert_text(rt: &impl Abort, text: &str, wanted: &str, place: &str) {
    assert!(rt; text == wanted, "{text} in place of {wanted} at {place}");
}

/// Asserts what a value displays.
pub fn assert_shown(rt: &impl Abort, alloc: Global, value: &impl Display, wanted: &str) {
    let shown = format!(in alloc; "{value}").expect(rt, "room for a text");
    assert!(rt; shown.as_str() == wanted, "{shown}");
}

/// Asserts what these values display, each in a line.
pub fn assert_all_shown<T: Display>(rt: &impl Abort, alloc: Global, values: &[T], wanted: &str) {
    let mut lines = wanted.lines();
    for value in values {
        assert_shown(rt, alloc, value, lines.next().unwrap_or(""));
    }
    assert!(rt; lines.next().is_none());
}
