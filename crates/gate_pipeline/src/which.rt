//! What a pipeline's worker is to do next, what is handed to it, and what it has processed.
use gate_items::{Action, JobResult, Manage, Outcome};
use gate_record::{PipelineItem, Stamp, Stamped};

/// A processed action: the stamp of the trigger event if it came of one, the action, and its outcome.
pub type Processed = (Option<Stamp>, Action, Outcome);

/// What the worker of a pipeline is to do next.
#[derive(Clone, Copy, Debug, PartialEq, Eq)]
pub enum Which {
    /// It is to take from the queue of management events, which may be empty.
    Management,
    /// It is to take from the queue of results, which may be empty.
    Result,
    /// It is to take from the trigger queue, which may be empty.
    Trigger,
    /// It is to process the value that it holds, for which memory was refused before. Nothing is taken from a queue.
    Held,
    /// It has nothing to do: the end mark was taken.
    Finished,
}

/// What is handed to the worker of a pipeline.
#[derive(Debug, Drop)]
pub enum Taken {
    /// A management event that was taken from its queue.
    Manage(Manage),
    /// A result that was taken from its queue.
    Result(JobResult),
    /// An event or the end mark that was taken from the trigger queue.
    Trigger(PipelineItem),
    /// Nothing was taken: the held value is to be tried again.
    Again,
}

/// A value that was taken from a queue and is still to be processed, since memory was refused.
#[derive(Debug, Drop)]
pub enum Held {
    /// A management event or a result, as an action.
    Action(Action),
    /// A trigger event. Its action is made when it is processed.
    Event(Stamped),
}
