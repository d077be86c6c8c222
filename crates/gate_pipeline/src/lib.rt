//! The worker of a pipeline: in which order it takes from its queues, which action each value stands for, and what became of the
//! actions.
#![tactic(auto)]

mod laws;
mod pass;
mod pipeline;
mod trigger;
mod which;

pub use laws::{
    each_action_is_applied_once, phases_follow_takings, the_same_jobs_are_the_same_actions,
    what_was_taken_is_processed,
};
pub use pass::{Pass, Phase, Taking};
pub use pipeline::Pipeline;
pub use which::{Held, Processed, Taken, Which};

/// How many values a pipeline takes in one phase of a pass before it goes on to the next phase (this project's profile).
pub const PHASE: u32 = 256;
