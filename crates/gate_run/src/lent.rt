//! What the threads of a run are lent.

use crate::by_queue::Queues;
use gate_config::Generations;
use gate_run_posts::Asked;
use std::alloc::Global;

/// What all threads of a run are lent while they run. Each of them looks at its own part of it. What a thread has for itself alone, as its
/// seats and its feed, is no part of it.
#[derive(Drop)]
pub(crate) struct Lent<'a, G> {
    /// By which threads ask for memory.
    pub(crate) alloc: Global,
    pub(crate) gens: &'a Generations,
    pub(crate) queues: &'a Queues,
    /// What the run can be asked for: readers look at its cells.
    pub(crate) asked: &'a Asked,
    /// To whom the pipelines' workers tell what they do.
    pub(crate) gate: &'a G,
}
