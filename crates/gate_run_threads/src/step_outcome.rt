//! Whether a thread goes on, parks or returns after a step.

/// What came of a step of a thread.
#[derive(Clone, Copy, Debug, PartialEq, Eq)]
pub enum StepOutcome {
    /// The step did something, and the next one may be made at once.
    Ready,
    /// The thread has nothing to do until another one wakes it.
    Pending,
    /// The thread is to return, because nothing is left to do or memory was refused.
    Done,
}
