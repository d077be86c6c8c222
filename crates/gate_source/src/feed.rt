//! Feeds: what a reader thread gets a connection's records from, one by one. A feed may be a file, a socket or a text in memory.
ghost use Rattle.std.specs.Prelude.{◌≡◌, ◌-◌, ◌<◌, ◌^◌, ℕ};
ghost use Rattle.gate_source.specs.Feeds.{Steps, Told, faults_after};

use gate_record::Record;
use std::sync::Wait;

/// What a feed answers when it is asked for the next record.
#[derive(Debug, Drop)]
pub enum FeedStep {
    /// The next record.
    Got(Record),
    /// There is no record yet. The feed is to be asked again: after a while if it is idle, at once otherwise.
    Pending,
    /// No record follows.
    Ended,
    /// The feed failed. It is to be asked no more.
    Fault,
    /// Memory was refused. The feed is to be asked no more.
    Memory,
}

/// The records of one connection, one after another. A feed may tell its records (`to_come`): then contracts know which ones are still to
/// come. A feed over a file or a socket can't tell them.
pub trait RecordFeed {
    /// The records that are still to come, where the feed tells them.
    ghost to_come: { Self → Told };

    /// How many faults the feed has answered.
    ghost fault_count: { Self → ℕ };

    /// Gives the next step. The call may wait for whoever writes the records. The feed must have answered fewer than 2^64 - 1 faults
    /// before.
    fn next<R: Wait>(&mut self, rt: &R) -> FeedStep
        requires few { fault_count self.old < 2 ^ 64 - 1 }
        ensures steps { Steps (to_come self.old) result (to_come self.new) }
        ensures faults { fault_count self.new ≡ faults_after result (fault_count self.old) };

    /// Whether the last step, a `Pending`, found nothing at all, so that the reader sleeps before it asks again. A feed that got a part of
    /// a record isn't idle and is asked again at once.
    fn is_idle(&self) -> bool {
        true
    }

    /// How many faults the feed has answered.
    fn faults(&self) -> u64
        ensures { result ≡ fault_count self.now };
}
