//! The running word machine: one word, and for each caller what it has loaded, holds and has retired.
//!
//! There is an entry for each number that a caller can have, so a step looks up one entry and allocates nothing. After
//! the same steps it has the same state as the word machine of the definitions.
ghost use Rattle.std.specs.Prelude.{◌≤◌, IfOk};
ghost use Rattle.resil_permit.specs.declared.step.Step.TheVariants.{Load, Exchange, Add, Retire, Raise};
ghost use Rattle.resil_permit.specs.WordMachine.{start};
ghost use Rattle.resil_permit.specs.WordMachineInvariant.{Follows, IsRunning, MakesStep};

use crate::step::{Shown, Step};
use std::alloc::{AllocError, Global};

const CALLERS: usize = 65_536;

// What a caller has loaded and not exchanged yet.
#[derive(Clone, Copy)]
pub(crate) enum CallerState {
    Idle,
    Loaded(u32),
}

#[derive(Clone, Copy)]
pub(crate) struct Caller {
    pub(crate) state: CallerState,
    pub(crate) held: u32,
    pub(crate) retired: u32,
}

// Why a step can't be made.
#[derive(Clone, Copy)]
pub(crate) enum StepError {
    NotLoaded,
    NotHolding,
    StillLoaded,
    NotRetired,
}

#[derive(Drop)]
pub(crate) struct WordMachine {
    pub(crate) word: u32,
    callers: Vec<Caller>,
}

impl WordMachine {
    pub(crate) fn new(alloc: Global, max: u32) -> Result<WordMachine, AllocError>
        requires { max ≤ 65535 }
        ensures { IfOk result (λ machine. Follows max (start max) machine.word machine.callers.items) }
    {
        let fresh = Caller {
            state: CallerState::Idle,
            held: 0,
            retired: 0,
        };
        let callers = vec![in alloc; fresh; CALLERS]?;
        Ok(WordMachine { word: max, callers })
    }

    pub(crate) fn make(&mut self, step: Step) -> Result<Shown, StepError>
        requires { IsRunning self.old }
        ensures { MakesStep step self.old self.new result }
    {
        match step {
            Step::Load(caller) => self.load(caller),
            Step::Exchange(caller) => self.exchange(caller),
            Step::Add(caller) => self.add(caller),
            Step::Retire(caller) => self.retire(caller),
            Step::Raise(caller) => self.raise(caller),
        }
    }

    fn load(&mut self, id: u16) -> Result<Shown, StepError>
        requires { IsRunning self.old }
        ensures { MakesStep (Load id) self.old self.new result }
    {
        let caller = &mut self.callers[usize::from(id)];
        if let CallerState::Loaded(_) = caller.state {
            return Err(StepError::StillLoaded);
        }
        if self.word == 0 {
            return Ok(Shown::Refused);
        }
        caller.state = CallerState::Loaded(self.word);
        Ok(Shown::Loaded)
    }

    fn exchange(&mut self, id: u16) -> Result<Shown, StepError>
        requires { IsRunning self.old }
        ensures { MakesStep (Exchange id) self.old self.new result }
    {
        let caller = &mut self.callers[usize::from(id)];
        let CallerState::Loaded(number) = caller.state else {
            return Err(StepError::NotLoaded);
        };
        caller.state = CallerState::Idle;
        if self.word != number {
            return Ok(Shown::Lost);
        }
        caller.held += 1;
        self.word -= 1;
        Ok(Shown::Took)
    }

    fn add(&mut self, id: u16) -> Result<Shown, StepError>
        requires { IsRunning self.old }
        ensures { MakesStep (Add id) self.old self.new result }
    {
        let caller = &mut self.callers[usize::from(id)];
        if let CallerState::Loaded(_) = caller.state {
            return Err(StepError::StillLoaded);
        }
        if caller.held == 0 {
            return Err(StepError::NotHolding);
        }
        caller.held -= 1;
        self.word += 1;
        Ok(Shown::Gave)
    }

    fn retire(&mut self, id: u16) -> Result<Shown, StepError>
        requires { IsRunning self.old }
        ensures { MakesStep (Retire id) self.old self.new result }
    {
        let caller = &mut self.callers[usize::from(id)];
        if let CallerState::Loaded(_) = caller.state {
            return Err(StepError::StillLoaded);
        }
        if caller.held == 0 {
            return Err(StepError::NotHolding);
        }
        caller.held -= 1;
        caller.retired += 1;
        Ok(Shown::Retired)
    }

    fn raise(&mut self, id: u16) -> Result<Shown, StepError>
        requires { IsRunning self.old }
        ensures { MakesStep (Raise id) self.old self.new result }
    {
        let caller = &mut self.callers[usize::from(id)];
        if let CallerState::Loaded(_) = caller.state {
            return Err(StepError::StillLoaded);
        }
        if caller.retired == 0 {
            return Err(StepError::NotRetired);
        }
        caller.retired -= 1;
        self.word += 1;
        Ok(Shown::Raised)
    }
}
