//! The calls of a run, from the outermost layer in.
//!
//! Each layer writes down what it does: the innermost call is counted, a retry records its waits,
//! and a bulkhead layer the answer that it got. A permit is held while the call inside runs, and is
//! given back whatever the outcome is.

ghost use Rattle.std.specs.Prelude.{ℕ, ◌≡◌, reverse, ◌∷◌};
ghost use Rattle.resil_decor.specs.Chain.{fallback_outcome};
ghost use Rattle.resil_decor.specs.RunLog.{HasRoom, HasWritten, IsCallThrough};
ghost use Rattle.resil_decor.specs.declared.layer.Layer.TheVariants.{Retry, Bulkhead};

use crate::course::Course;
use crate::layer::Layer;
use crate::permitter::{Asked, Permitter};
use crate::run_log::RunLog;
use resil_call::{Call, End, retry_sharing};
use resil_retry::{ErrorTest, Kind, Outcome, Player, RetryConfig};

// One call through the layers, innermost first.
#[cycle(calls)]
pub(crate) fn call_through<P: Permitter>(
    layers: &[Layer],
    player: &mut Player<'_>,
    permitter: &mut P,
    log: &mut RunLog,
) -> Outcome
    requires { HasRoom (reverse layers.now) log.old }
    ensures ran { IsCallThrough (reverse layers.now) player.old player.new (P.answers permitter.old) (P.answers permitter.new) log.old log.new result }
    ensures held { (id : ℕ) → P.held permitter.new id ≡ P.held permitter.old id }
    ensures given { HasWritten (λ asked. P.AnsweredBetween permitter.old asked permitter.new) log.old log.new }
{
    let Some((outermost, inside)) = layers.split_last() else {
        log.count_call();
        return player.call();
    };
    match outermost {
        Layer::Retry(config) => call_with_retry(config, inside, player, permitter, log),
        Layer::Bulkhead(id) => call_with_bulkhead(*id, inside, player, permitter, log),
        Layer::Fallback { catch, value } => {
            let outcome = call_through(inside, player, permitter, log);
            fallback_outcome(catch, value, outcome)
        }
    }
}

// Calls until an outcome isn't to be retried or no attempt is left, by the retry loop of any call.
// The calls write to the log that also records the waits between them.
#[cycle(calls)]
fn call_with_retry<P: Permitter>(
    config: &RetryConfig,
    inside: &[Layer],
    player: &mut Player<'_>,
    permitter: &mut P,
    log: &mut RunLog,
) -> Outcome
    requires { HasRoom (Retry config.now ∷ reverse inside.now) log.old }
    ensures ran { IsCallThrough (Retry config.now ∷ reverse inside.now) player.old player.new (P.answers permitter.old) (P.answers permitter.new) log.old log.new result }
    ensures held { (id : ℕ) → P.held permitter.new id ≡ P.held permitter.old id }
    ensures given { HasWritten (λ asked. P.AnsweredBetween permitter.old asked permitter.new) log.old log.new }
{
    let mut course = Course {
        player,
        permitter,
        log,
    };
    let tried = retry_sharing(
        config.policy(),
        |course: &mut Course<'_, '_, P>| -> Outcome
            requires { HasRoom (reverse inside.now) course.old.log.now }
            ensures ran { IsCallThrough (reverse inside.entry.now) course.old.player.now course.new.player.now (P.answers course.old.permitter.now) (P.answers course.new.permitter.now) course.old.log.now course.new.log.now result }
            ensures held { (id : ℕ) → P.held course.new.permitter.now id ≡ P.held course.old.permitter.now id }
            ensures given { HasWritten (λ asked. P.AnsweredBetween course.old.permitter.now asked course.new.permitter.now) course.old.log.now course.new.log.now }
            ensures references { (course.new.player.ghost_name ≡ course.old.player.ghost_name) × (course.new.permitter.ghost_name ≡ course.old.permitter.ghost_name) × (course.new.log.ghost_name ≡ course.old.log.ghost_name) }
        { call_through(inside, course.player, course.permitter, course.log) },
        &mut course,
    );
    match tried.end {
        End::Accepted => tried.answer,
        End::Exhausted => config.exhausted_outcome(tried.answer),
        End::OutOfTime => unreachable!(),
    }
}

// Calls under a permit of a bulkhead, or not at all.
#[cycle(calls)]
fn call_with_bulkhead<P: Permitter>(
    id: u16,
    inside: &[Layer],
    player: &mut Player<'_>,
    permitter: &mut P,
    log: &mut RunLog,
) -> Outcome
    requires { HasRoom (Bulkhead id ∷ reverse inside.now) log.old }
    ensures ran { IsCallThrough (Bulkhead id ∷ reverse inside.now) player.old player.new (P.answers permitter.old) (P.answers permitter.new) log.old log.new result }
    ensures held { (id : ℕ) → P.held permitter.new id ≡ P.held permitter.old id }
    ensures given { HasWritten (λ asked. P.AnsweredBetween permitter.old asked permitter.new) log.old log.new }
{
    let granted = permitter.enter(id);
    log.push_answer(Asked { id, granted });
    if !granted {
        return Outcome::Error(Kind::Full);
    }
    let outcome = call_through(inside, player, permitter, log);
    permitter.leave(id);
    outcome
}

// The outcome of a fallback around a call with this outcome.
pub(crate) fn fallback_outcome(catch: &ErrorTest, value: &i64, outcome: Outcome) -> Outcome
    ensures { result ≡ fallback_outcome catch.now value.now outcome }
{
    match outcome {
        Outcome::Error(kind) if catch.names(kind) => Outcome::Value(*value),
        _ => outcome,
    }
}
