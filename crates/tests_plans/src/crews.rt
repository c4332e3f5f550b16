//! Crews for tests.

ghost use Rattle.std.specs.Prelude.{◌≡◌};
ghost use Rattle.road_workers.specs.Crews.{gone_after};

use road_columns::{RoadOrRun, SpanOutcome};
use road_ends::{Span, StepInput};
use road_workers::{Crew, CrewFault};
use std::alloc::Global;
use std::sync::Arc;

/// A crew that returns `WorkersGone` once, after some calls. It computes the speeds of all other calls itself.
#[derive(Clone, Copy, Debug)]
pub struct FailingCrew {
    /// The number of calls that still succeed before the one that fails.
    pub calls_left: u64,
    /// How often it has returned `WorkersGone`.
    pub gone: u64,
}

impl FailingCrew {
    /// Make a crew that fails after `calls` calls.
    pub fn after(calls: u64) -> FailingCrew
        ensures { result ≡ record { calls_left = calls; gone = 0 } }
    {
        FailingCrew {
            calls_left: calls,
            gone: 0,
        }
    }
}

impl Crew for FailingCrew {
    ghost times_gone = { λ crew. crew.gone };

    fn speeds(&mut self, alloc: Global, input: &Arc<StepInput>) -> Result<Vec<u8>, CrewFault> {
        if self.gone == 0 && self.calls_left == 0 {
            self.gone = 1;
            return Err(CrewFault::WorkersGone);
        }
        self.calls_left = self.calls_left.saturating_sub(1);
        Ok(input.speeds(alloc)?)
    }
}

/// A crew that computes all speeds itself and counts its calls.
#[derive(Clone, Copy, Debug)]
pub struct Counting {
    /// The number of calls so far.
    pub calls: u64,
}

impl Crew for Counting {
    ghost times_gone = { λ _. 0 };

    fn speeds(&mut self, alloc: Global, input: &Arc<StepInput>) -> Result<Vec<u8>, CrewFault> {
        self.calls = self.calls.saturating_add(1);
        Ok(input.speeds(alloc)?)
    }
}

/// A crew that lets another crew compute the speeds of one step after another.
#[derive(Drop)]
pub struct StepByStep<C> {
    /// The crew that computes.
    pub crew: C,
}

impl<C: Crew> Crew for StepByStep<C> {
    ghost times_gone = { λ crew. C.times_gone crew.crew };

    fn speeds(&mut self, alloc: Global, input: &Arc<StepInput>) -> Result<Vec<u8>, CrewFault> {
        self.crew.speeds(alloc, input)
    }
}

/// A crew that passes runs to another crew, but returns a fault for one of them. It counts the steps of the runs.
#[derive(Drop)]
pub struct Running<C> {
    /// The crew that computes.
    pub crew: C,
    /// The number of runs before the one that fails.
    pub runs_left: u64,
    /// The fault, until it has been returned.
    pub fault: Option<CrewFault>,
    /// How often it has returned `WorkersGone`.
    pub gone: u64,
    /// The number of steps of all runs.
    pub steps: u64,
}

impl<C> Running<C> {
    /// Make a crew that never fails.
    pub fn of(crew: C) -> Running<C>
        ensures { result.gone ≡ 0 }
    {
        Running {
            crew,
            runs_left: 0,
            fault: None,
            gone: 0,
            steps: 0,
        }
    }

    /// Let this crew fail with a fault at the run after `runs` runs.
    pub fn fail_after(&mut self, runs: u64, fault: CrewFault)
        ensures { self.new.gone ≡ self.old.gone }
    {
        self.runs_left = runs;
        self.fault = Some(fault);
    }

    // Return the fault with which this run fails, or None if it does not fail.
    fn fault_of_run(&mut self) -> Option<CrewFault>
        ensures { self.new.gone ≡ self.old.gone }
    {
        if self.runs_left > 0 {
            self.runs_left -= 1;
            return None;
        }
        self.fault.take()
    }

    // Count the result of a call, if it is `WorkersGone`.
    fn note<T>(&mut self, answer: &Result<T, CrewFault>)
        ensures { self.new.gone ≡ gone_after answer.now self.old.gone }
    {
        if let Err(CrewFault::WorkersGone) = answer {
            self.gone = self.gone.saturating_add(1);
        }
    }
}

impl<C: Crew> Crew for Running<C> {
    ghost times_gone = { λ crew. crew.gone };

    fn most_steps(&self) -> u32 {
        self.crew.most_steps()
    }

    fn speeds(&mut self, alloc: Global, input: &Arc<StepInput>) -> Result<Vec<u8>, CrewFault> {
        let answer = self.crew.speeds(alloc, input);
        self.note(&answer);
        answer
    }

    fn run(
        &mut self,
        alloc: Global,
        span: &Span,
        road: RoadOrRun,
    ) -> Result<Option<SpanOutcome>, CrewFault> {
        let answer = match self.fault_of_run() {
            Some(fault) => Err(fault),
            None => self.crew.run(alloc, span, road),
        };
        if let Ok(Some(_)) = &answer {
            self.steps = self.steps.saturating_add(u64::from(span.steps()));
        }
        self.note(&answer);
        answer
    }
}
