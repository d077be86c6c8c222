//! Queue items, their builds and their reports, as Zuul's documentation has them.
use crate::key::Key;
use gate_record::{Sequence, Text};

/// A build (Zuul's documentation, "Builds"): the name of its job and, as soon as it has an outcome, whether the job succeeded.
pub type Build = (Text, Option<bool>);

/// A queue item (Zuul's documentation, "Pipelines"): a change or a ref update for which a pipeline runs its jobs.
#[derive(Debug, Drop)]
pub struct QueueItem {
    /// The change or the ref update. No other item of the pipeline has the same key.
    pub key: Key,
    /// The number of the change's patch set. It is 0 for a ref update, and for a change whose event gave none.
    pub patchset: i64,
    /// The number of the item's build set, which no other build set of the pipeline has or had.
    pub set: u64,
    /// The jobs of the build set. Each has its outcome as soon as it ended: whether it succeeded.
    pub jobs: Sequence<Build>,
}

/// The report of an item, which is made when each of its jobs has an outcome and the item leaves.
#[derive(Debug, Drop)]
pub struct Report {
    /// The change or the ref update that the item was for.
    pub key: Key,
    /// The number of the change's patch set. It is 0 for a ref update, and for a change whose event gave none.
    pub patchset: i64,
    /// The number of the build set.
    pub set: u64,
    /// Whether every job of the build set succeeded.
    pub success: bool,
}
