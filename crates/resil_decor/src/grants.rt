//! Recounts: whether bulkheads have as many permits as a run held of them at once.
//!
//! A recount goes through the calls of a run once more, by its script and the answers that it got.
//! Inside a bulkhead layer that granted a permit, a call holds that permit. So a chain that names
//! one bulkhead in several layers holds several of its permits at once. A recount doesn't allocate.

ghost use Rattle.std.specs.Prelude.{◌≡◌, ◌<◌, ◌≤◌, ◌+◌, length, drop, option_map};
ghost use Rattle.resil_retry.specs.Retry.{as_call, retried};
ghost use Rattle.resil_decor.specs.Chain.{through_bulkhead};
ghost use Rattle.resil_decor.specs.Grants.{permits_of, is_bulkhead, held_inside, under_permit, call_at, outcome_and_rest};

use crate::layer::Layer;
use crate::layer_calls::fallback_outcome;
use crate::permitter::Asked;
use resil_bulkhead::Bulkhead;
use resil_call::Call;
use resil_retry::{Kind, Outcome, Player, RetryConfig};
use std::marker::Model;

// What is left for the calls to come, of the script and of the answers of bulkheads.
#[derive(Drop)]
pub(crate) struct Left<'a> {
    pub(crate) player: Player<'a>,
    pub(crate) asked: &'a [Asked],
}

impl<'a> Model for Left<'a> {
    ghost use Rattle.resil_decor.specs.Chain.{Remaining};

    ghost Value = { Remaining };

    ghost view = { λ l. record { script = l.player; asked = l.asked.now } };
}

// The layers of a chain, innermost first, and the bulkheads by their ids.
#[derive(Drop)]
pub(crate) struct Recount<'a> {
    pub(crate) layers: &'a [Layer],
    pub(crate) bulkheads: &'a [Bulkhead],
}

impl Recount<'_> {
    // One call through this many of the innermost layers, inside the others. None if the answers
    // end early, an answer is of another bulkhead, or one granted a permit that wasn't free.
    #[cycle(recount)]
    pub(crate) fn call_through(&self, depth: usize, left: &mut Left<'_>) -> Option<Outcome>
        requires { depth ≤ length self.now.layers.now }
        ensures { option_map (λ outcome. (outcome, left.new)) result ≡ option_map outcome_and_rest (call_at (permits_of self.now.bulkheads.now) self.now.layers.now depth left.old) }
    {
        let Some(inside) = depth.checked_sub(1) else {
            return Some(left.player.call());
        };
        match &self.layers[inside] {
            Layer::Retry(config) => self.call_with_retry(config, inside, left),
            Layer::Bulkhead(id) => self.call_with_bulkhead(*id, inside, left),
            Layer::Fallback { catch, value } => {
                let outcome = self.call_through(inside, left)?;
                Some(fallback_outcome(catch, value, outcome))
            }
        }
    }

    // Calls until an outcome isn't to be retried or no attempt is left.
    #[cycle(recount)]
    fn call_with_retry(
        &self,
        config: &RetryConfig,
        inside: usize,
        left: &mut Left<'_>,
    ) -> Option<Outcome>
        requires { inside < length self.now.layers.now }
        ensures { option_map (λ outcome. (outcome, left.new)) result ≡ option_map outcome_and_rest (option_map as_call (retried config.now (call_at (permits_of self.now.bulkheads.now) self.now.layers.now inside) left.old)) }
    {
        for _attempt in 1..config.max_attempts() {
            let outcome = self.call_through(inside, left)?;
            if !config.again(outcome) {
                return Some(outcome);
            }
        }
        let outcome = self.call_through(inside, left)?;
        if config.again(outcome) {
            Some(config.exhausted_outcome(outcome))
        } else {
            Some(outcome)
        }
    }

    // Calls under a permit of a bulkhead, or not at all, according to the next answer.
    #[cycle(recount)]
    fn call_with_bulkhead(&self, id: u16, inside: usize, left: &mut Left<'_>) -> Option<Outcome>
        requires { inside < length self.now.layers.now }
        ensures { option_map (λ outcome. (outcome, left.new)) result ≡ option_map outcome_and_rest (through_bulkhead id (under_permit (held_inside id (drop (inside + 1) self.now.layers.now)) (permits_of self.now.bulkheads.now id) (call_at (permits_of self.now.bulkheads.now) self.now.layers.now inside)) left.old.script left.old.asked) }
    {
        let (asked, more) = left.asked.split_first()?;
        if asked.id != id {
            return None;
        }
        left.asked = more;
        if !asked.granted {
            return Some(Outcome::Error(Kind::Full));
        }
        let held = held_inside(id, &self.layers[inside + 1..]);
        if held < self.permits(id) {
            self.call_through(inside, left)
        } else {
            None
        }
    }

    // How many permits the bulkhead with this id has, 0 if there is none.
    fn permits(&self, id: u16) -> usize
        ensures { result ≡ permits_of self.now.bulkheads.now id }
    {
        self.bulkheads
            .get(usize::from(id))
            .map_or(0, |bulkhead| bulkhead.max() as usize)
    }
}

// How many permits of a bulkhead a call holds inside these layers.
fn held_inside(id: u16, layers: &[Layer]) -> usize
    ensures { result ≡ held_inside id layers.now }
{
    layers.iter().filter(|layer| is_bulkhead(id, layer)).count()
}

// Whether the layer is the bulkhead with this id.
fn is_bulkhead(id: u16, layer: &Layer) -> bool
    ensures { result ≡ is_bulkhead id layer.now }
{
    match layer {
        Layer::Bulkhead(other) => *other == id,
        Layer::Retry(_) | Layer::Fallback { .. } => false,
    }
}
