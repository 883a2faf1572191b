//! The permitter of real bulkheads.
//!
//! It has a pass for each bulkhead and knows the ids below their number. Its answers are those of
//! its passes: yes if one acquired a permit, no if none was free. It waits for a permit only while
//! other passes come in between, never for one to become free.

ghost use Rattle.std.specs.Prelude.{◌≡◌, ◌<◌, map, IfOk, IfErr};
ghost use Rattle.resil_bulkhead.specs.Passes.{PassView};
ghost use Rattle.resil_decor.specs.Passes.{sources_of, AreSplitFrom, answers_of, held_of, AreSamePasses};
ghost use Rattle.resil_decor.specs.Permitter.{IsGivenBack};

use crate::error::DecorError;
use crate::permitter::Permitter;
use resil_bulkhead::{Bulkhead, Pass};
use std::alloc::Global;
use std::marker::Model;
use std::sync::Wait;

/// A permitter with a pass for each bulkhead. The id of a bulkhead is its index (Resilience4j user
/// guide, Bulkhead).
///
/// ```
/// let bulkheads = [bulkhead];
/// let mut passes = Passes::new(&rt, &bulkheads, Vec::from_array(alloc, [pass])?);
/// let run = job.run(&mut passes);
/// ```
#[derive(Drop)]
pub struct Passes<'a, R> {
    rt: &'a R,
    bulkheads: &'a [Bulkhead],
    passes: Vec<Pass>,
}

impl<'a, R> Model for Passes<'a, R> {
    ghost use Rattle.std.specs.Prelude.{◌≡◌, List, map};
    ghost use Rattle.resil_bulkhead.specs.Passes.{PassView};
    ghost use Rattle.resil_decor.specs.Passes.{sources_of};

    ghost Value = { List PassView };

    ghost view = { λ p. p.passes.items };

    ghost invariant = { λ p. sources_of p.passes.items ≡ map (λ b. b.permits) p.bulkheads.now };
}

impl<'a, R> Passes<'a, R> {
    /// Makes the permitter of these bulkheads, with one pass of each, in the same order. It knows
    /// the ids below their number, and keeps the runtime for its `enter`, which may wait.
    pub fn new(rt: &'a R, bulkheads: &'a [Bulkhead], passes: Vec<Pass>) -> Passes<'a, R>
        requires { sources_of passes.items ≡ map (λ b. b.permits) bulkheads.now }
        ensures { result ≡ passes.items }
    {
        Passes {
            rt,
            bulkheads,
            passes,
        }
    }

    /// Makes a permitter of the same bulkheads for another thread: each of its passes holds nothing
    /// and has seen what the one here has seen. This one stays as it is.
    ///
    /// # Errors
    ///
    /// `Memory` if out of memory, before the first pass is split.
    pub fn split(&mut self, alloc: Global) -> Result<Passes<'a, R>, DecorError>
        ensures old { self.new ≡ self.old }
        ensures split { IfOk result (AreSplitFrom self.old) }
        ensures refused { IfErr result (λ error. error ≡ DecorError.Memory) }
    {
        let mut passes = Vec::with_capacity(alloc, self.passes.len())?;
        for index in 0..self.passes.len() {
            let pass = self.bulkheads[index].split(&mut self.passes[index]);
            passes.push_reserved(pass);
        }
        Ok(Passes {
            rt: self.rt,
            bulkheads: self.bulkheads,
            passes,
        })
    }

    /// Gives back a held permit of this bulkhead. It never waits.
    ///
    /// ```
    /// if passes.enter(0) {
    ///     passes.leave(0);
    /// }
    /// ```
    pub fn leave(&mut self, id: u16)
        requires { 0 < held_of self.old id }
        ensures answered { answers_of self.new ≡ answers_of self.old }
        ensures held { IsGivenBack (held_of self.old) id (held_of self.new) }
        ensures given { AreSamePasses self.old self.new }
    {
        let index = usize::from(id);
        self.bulkheads[index].leave(&mut self.passes[index]);
    }
}

impl<'a, R: Wait> Permitter for Passes<'a, R> {
    ghost use Rattle.resil_decor.specs.Passes.{answers_of, held_of, GaveAnswers};
    ghost use Rattle.resil_decor.specs.PassesLaws.{none_between, append_between};

    ghost answers = { answers_of };

    ghost held = { held_of };

    ghost AnsweredBetween = { GaveAnswers };

    fn enter(&mut self, id: u16) -> bool {
        let index = usize::from(id);
        if index >= self.passes.len() {
            return false;
        }
        self.bulkheads[index].enter(self.rt, &mut self.passes[index])
    }

    fn leave(&mut self, id: u16) {
        Passes::leave(self, id);
    }

    ghost none_between = { none_between };

    ghost append_between = { append_between };
}
