//! `Pass`, which tells from which of its three queues a pipeline takes next.
ghost use Rattle.std.specs.Prelude.{◌≡◌};
ghost use Rattle.gate_pipeline.specs.Limits.{most_takings};

use crate::PHASE;

/// The phases of a pass, by the queue from which values are taken.
#[derive(Clone, Copy, Debug, PartialEq, Eq)]
pub enum Phase {
    /// The queue of management events.
    Management,
    /// The queue of results.
    Result,
    /// The trigger queue.
    Trigger,
}

/// What a pipeline found in the queue of its phase.
#[derive(Clone, Copy, Debug, PartialEq, Eq)]
pub enum Taking {
    /// There was a value, and the pipeline took it.
    Value,
    /// The queue was empty.
    Nothing,
}

/// The place of a pipeline in its pass. A pass goes from management events to results to triggers, and then begins again.
#[derive(Clone, Copy, Debug, PartialEq, Eq)]
pub struct Pass {
    /// The phase that the pipeline is in.
    pub phase: Phase,
    /// How many values were taken in this phase so far. That is fewer than `PHASE`.
    pub takings: u32,
}

impl Phase {
    ghost use Rattle.gate_pipeline.specs.Passes.{next_phase};

    /// Returns the phase that follows.
    pub fn next(self) -> Phase
        ensures { result ≡ next_phase self }
    {
        match self {
            Phase::Management => Phase::Result,
            Phase::Result => Phase::Trigger,
            Phase::Trigger => Phase::Management,
        }
    }
}

impl Pass {
    ghost use Rattle.gate_pipeline.specs.Passes.{first_pass, after_taking};

    /// Returns the beginning of the first pass.
    pub fn first() -> Pass
        ensures { result ≡ first_pass }
    {
        Pass {
            phase: Phase::Management,
            takings: 0,
        }
    }

    /// Returns the place after a taking. An empty taking, or the 256th of a phase, goes on to the next phase.
    pub fn after(self, taking: Taking) -> Pass
        ensures { result ≡ after_taking self taking }
    {
        match taking {
            Taking::Value if self.takings < PHASE - 1 => Pass {
                phase: self.phase,
                takings: self.takings + 1,
            },
            _ => Pass {
                phase: self.phase.next(),
                takings: 0,
            },
        }
    }
}
