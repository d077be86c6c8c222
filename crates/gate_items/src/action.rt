//! The actions on a pipeline's queue items: triggers, results of jobs, dequeues and resets, and why one may be discarded.
use crate::key::Key;
use gate_record::{Sequence, Text};

/// An action on the items of a pipeline.
#[derive(Debug, Drop)]
pub enum Action {
    /// An operator dequeues or resets an item.
    Manage(Manage),
    /// A job of a build set has ended.
    Result(JobResult),
    /// An event asks for an item. The fields are the item's key if the event has one, the number of its patch set, and the names
    /// of the jobs to run, each once.
    Trigger(Option<Key>, i64, Sequence<Text>),
}

/// What an operator may ask for (Zuul's client, `dequeue`). A reset runs the jobs of an item anew.
#[derive(Debug, Drop)]
pub enum Manage {
    /// Takes the item of this key out, without a report.
    Dequeue(Key),
    /// Gives the item of this key a new build set.
    Reset(Key),
}

/// The outcome of a job in a build set.
#[derive(Debug, Drop)]
pub struct JobResult {
    /// The number of the build set for which the job was run.
    pub set: u64,
    /// The job's name.
    pub job: Text,
    /// Whether the job succeeded.
    pub success: bool,
}

/// What came of an action.
#[derive(Clone, Copy, Debug, PartialEq, Eq)]
pub enum Outcome {
    /// The action has changed the items.
    Applied,
    /// The action has changed nothing, for this reason.
    Discarded(Discard),
}

/// Why an action changes nothing.
#[derive(Clone, Copy, Debug, PartialEq, Eq)]
pub enum Discard {
    /// The trigger's event has neither a change nor a ref with a revision.
    NoKey,
    /// The trigger has no job to run.
    NoJobs,
    /// The trigger's key has an item with the same patch set.
    Known,
    /// The trigger's key has an item with a newer patch set.
    Older,
    /// No item has the result's build set, or no item has it any more.
    NotCurrent,
    /// The result's build set has no such job.
    NoJob,
    /// The result's job has an outcome already.
    Repeated,
    /// No item has the key of the dequeue or the reset.
    NoItem,
    /// Too few numbers are left for the build sets that the action would begin.
    Numbers,
}

impl Discard {
    ghost use Rattle.std.specs.Prelude.{◌≡◌};
    ghost use Rattle.gate_items.specs.Words.{discard_word};

    /// Returns the word that is printed for the reason.
    pub fn word(self) -> &'static str
        ensures { result.now ≡ discard_word self }
    {
        match self {
            Discard::NoKey => "no-key",
            Discard::NoJobs => "no-jobs",
            Discard::Known => "known",
            Discard::Older => "older",
            Discard::NotCurrent => "not-current",
            Discard::NoJob => "no-job",
            Discard::Repeated => "repeated",
            Discard::NoItem => "no-item",
            Discard::Numbers => "numbers",
        }
    }
}
