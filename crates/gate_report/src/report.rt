//! `RunReport`, what a run tells at its end: how far each connection and each pipeline came.
use gate_record::{Sequence, Stamp};

/// Whether a connection takes more records, and if not, why.
#[derive(Clone, Copy, Debug, PartialEq, Eq)]
pub enum EndCause {
    /// The connection still takes records.
    Unclosed,
    /// The connection was closed.
    Ended,
    /// A stop was asked for.
    Stopped,
    /// The connection's feed failed.
    Failed,
    /// Memory was refused.
    Memory,
}

/// What a run reports of a connection.
#[derive(Debug, Drop)]
pub struct ConnectionReport {
    /// How many records the connection accepted.
    pub accepted: u64,
    /// How many records were accepted before each renewal, one number for each generation after the first that was put in force.
    pub renewals: Sequence<u64>,
    /// Whether the connection takes more records, and if not, why.
    pub cause: EndCause,
}

/// What a run reports of a pipeline.
#[derive(Debug, Drop)]
pub struct PipelineReport {
    /// The stamps of the trigger events that the pipeline processed, in order.
    pub done: Sequence<Stamp>,
    /// Whether the pipeline met its end mark. If so, it has processed all events that it wanted of the accepted records.
    pub finished: bool,
}

/// What a run reports at its end.
#[derive(Debug, Drop)]
pub struct RunReport {
    /// The connections, by number.
    pub connections: Sequence<ConnectionReport>,
    /// The pipelines, by tenant number and then by pipeline number.
    pub pipelines: Sequence<Sequence<PipelineReport>>,
}
